//! What a message used by which a session could notice another one, told apart by when it can be seen. Definitions, and a law about them as
//! the contract of a function that does nothing; no code.
#![tactic(auto)]

ghost use Rattle.std.specs.Prelude.{◌≡◌, ◌++◌, ℕ, List, Option, Some};
ghost use Rattle.model_text.specs.text.Map.{lookup};
ghost use Rattle.model_world.specs.Answer.{answer};
ghost use Rattle.model_world.specs.Session.{Session};
ghost use Rattle.model_world.specs.Whole.{desktop_for};
ghost use Rattle.model_world.specs.World.{World};
ghost use Rattle.model_alone.specs.alone.Uses.{session_used};
ghost use Rattle.model_alone.specs.used.Look.{look_at, used_last, used_then};

/// What is seen of a message before its answer, right after it and at the end of its event is all that it used.
pub fn uses_are_seen_in_turn()
    ensures { (c : ℕ) (world next : World) (bytes : List ℕ) (mark : Option ℕ) (session : Session) → session_used c world next bytes mark (Some session) ≡
        used_then c world.desktop mark (answer (desktop_for c) session world.desktop bytes mark).reply (look_at c session world.desktop bytes)
        ++ used_last (lookup next.sessions c) next.desktop.table (look_at c session world.desktop bytes) }
{}
