//! A session that is alone with its window cannot tell that others are there. A law about the definitions of `model_alone::alone`, as the
//! contract of a function that does nothing; no code.
#![tactic(auto)]

ghost use Rattle.std.specs.Prelude.{ℕ, List};
ghost use Rattle.r9_event.specs.declared.event.event.Event.{Event};
ghost use Rattle.r9_event.specs.declared.event.event.Opening.{Opening};
ghost use Rattle.model_alone.specs.alone.Isolated.{IsIsolated};

/// In each legal history a session that is alone with its window gets the replies that a world of its own gives, which has nothing but
/// that window and takes what the session is told.
pub fn sessions_alone_are_isolated()
    ensures { (opening : Opening) (c : ℕ) (events : List Event) → IsIsolated opening events c }
{}
