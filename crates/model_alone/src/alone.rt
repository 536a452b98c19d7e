//! When a session is alone with its window, what it is told then, and what it is answered in a world of its own. Definitions that
//! contracts of other crates cite, and their laws; no code.
#![tactic(auto)]

ghost use Rattle.std.specs.Prelude.{◌≡◌, ℕ, List, [], None, All, false};
ghost use Rattle.r9_event.specs.declared.event.event.Event.{Event};
ghost use Rattle.r9_event.specs.declared.event.event.Opening.{Opening};
ghost use Rattle.model_alone.specs.alone.Own.{is_by, not_alone, own};

/// A session that never begins is alone, and is told nothing.
pub fn unbegun_sessions_are_alone()
    ensures alone { (opening : Opening) (c : ℕ) (events : List Event) → All (λ event. is_by c event ≡ false) events → not_alone opening c events ≡ None }
    ensures told { (opening : Opening) (c : ℕ) (events : List Event) → All (λ event. is_by c event ≡ false) events → own opening c events ≡ [] }
{}
