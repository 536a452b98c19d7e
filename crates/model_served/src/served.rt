//! The server that sessions see, which is the world of a history as one of them knows it. Definitions that contracts of other
//! crates cite, and their laws; no code.
#![tactic(auto)]

ghost use Rattle.std.specs.Prelude.{◌≡◌, ◌≤◌, ◌↔◌, ℕ, List, None, Some, IsSome, Contains};
ghost use Rattle.r9_event.specs.declared.event.event.Event.{Event};
ghost use Rattle.r9_event.specs.declared.event.event.Event.TheVariants.{End};
ghost use Rattle.r9_event.specs.declared.event.event.Opening.{Opening};
ghost use Rattle.model_text.specs.text.Map.{lookup};
ghost use Rattle.model_history.specs.event.Legal.{IsLegal, roll_of};
ghost use Rattle.model_served.specs.session.Server.{IsServer, messages_of};
ghost use Rattle.model_world.specs.Replay.{replay};
ghost use Rattle.model_world.specs.Session.{Session};
ghost use Rattle.model_served.specs.served.Served.{served};

/// What sessions see of the world of a history is a server: all replies to a session were handed out or wait, a session is closed by its
/// own messages alone, and once it is closed or has ended it gets no reply.
pub fn sessions_see_a_server()
    ensures { (opening : Opening) → IsServer (served opening) }
{}

/// The sessions of the world are those that live.
pub fn live_sessions_are_there()
    ensures { (opening : Opening) (events : List Event) (c : ℕ) → IsLegal events → (Contains (roll_of events).live c ↔ IsSome (lookup (replay opening events).sessions c)) }
{}

/// The world knows of a session that lives by which tag it was closed, and, while it is open, how long its next message may be.
pub fn sessions_are_kept()
    ensures closed { (opening : Opening) (events : List Event) (c : ℕ) (session : Session) → IsLegal events → lookup (replay opening events).sessions c ≡ Some session → session.closed ≡ (served opening).closed events c }
    ensures size { (opening : Opening) (events : List Event) (c : ℕ) (session : Session) → IsLegal events → lookup (replay opening events).sessions c ≡ Some session → session.closed ≡ None → session.msize ≡ (served opening).limit (messages_of c events) }
{}

/// The sessions that have ended are those that have begun and do not live.
pub fn ended_sessions_have_begun()
    ensures { (events : List Event) (c : ℕ) → IsLegal events → (Contains events (End c) ↔ ((1 ≤ c) × (c ≤ (roll_of events).begun) × (Contains (roll_of events).live c → ⊥))) }
{}
