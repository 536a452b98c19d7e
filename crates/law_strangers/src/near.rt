//! What a session is told is sound: its messages have a size, a kind and a tag, and the rectangles of which notes tell are near.
//! Definitions, and a law about them as the contract of a function that does nothing; no code.
#![tactic(auto)]

ghost use Rattle.std.specs.Prelude.{ℕ, List, All};
ghost use Rattle.r9_event.specs.declared.event.event.Event.{Event};
ghost use Rattle.r9_event.specs.declared.event.event.Opening.{Opening};
ghost use Rattle.model_history.specs.event.Legal.{IsLegal};
ghost use Rattle.model_alone.specs.alone.Own.{own};
ghost use Rattle.law_strangers.specs.near.Steps.{IsSoundStep};

/// Each step of what a session is told in a legal history is sound, however large the display is.
pub fn own_steps_are_sound()
    ensures { (opening : Opening) (c : ℕ) (events : List Event) → IsLegal events → All IsSoundStep (own opening c events) }
{}
