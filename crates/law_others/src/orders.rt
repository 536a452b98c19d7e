//! The orders of each act fit in all that histories lead to: definitions, and laws as the contracts of functions that do nothing.
#![tactic(auto)]

ghost use Rattle.std.specs.Prelude.{◌≡◌, ◌<◌, ℕ, List, Option, Some, Ok};
ghost use Rattle.r9_event.specs.declared.event.event.Event.{Event};
ghost use Rattle.r9_event.specs.declared.event.event.Opening.{Opening};
ghost use Rattle.model_history.specs.event.Legal.{IsLegal};
ghost use Rattle.model_rio.specs.rio.Act.{Act};
ghost use Rattle.model_rio.specs.rio.Rio.{rio};
ghost use Rattle.model_rio.specs.rio.Step.{Step};
ghost use Rattle.law_shown.specs.fitting.Fitting.{AllFit, IsSpelled};
ghost use Rattle.model_world.specs.Answer.{answer};
ghost use Rattle.model_world.specs.Desktop.{Desktop, first_desktop};
ghost use Rattle.model_world.specs.Fids.{Left, cleared};
ghost use Rattle.model_world.specs.Replay.{replay};
ghost use Rattle.model_world.specs.Session.{Session};
ghost use Rattle.model_world.specs.Waiting.{one_answered};
ghost use Rattle.model_world.specs.Whole.{desktop_for};
ghost use Rattle.model_world.specs.World.{display_of};
ghost use Rattle.law_others.specs.orders.Leading.{IsDrawn, Leads};

/// From a desktop that is drawn, what a session does leads to one that is, by acts whose orders all fit: a message, a late answer,
/// and its end.
pub fn sessions_lead_to_drawn_desktops()
    ensures message { (c : ℕ) (session : Session) (desktop : Desktop) (bytes : List ℕ) (mark : Option ℕ) → 0 < c → IsDrawn desktop → IsDrawn (answer (desktop_for c) session desktop bytes mark).rest × Leads desktop (answer (desktop_for c) session desktop bytes mark).rest }
    ensures late { (c : ℕ) (session : Session) (desktop : Desktop) (after : Left Desktop) → IsDrawn desktop → one_answered (desktop_for c) session desktop ≡ Some after → IsDrawn after.rest × Leads desktop after.rest }
    ensures end { (c : ℕ) (session : Session) (desktop : Desktop) → 0 < c → IsDrawn desktop → IsDrawn (cleared (desktop_for c) session desktop).1 × Leads desktop (cleared (desktop_for c) session desktop).1 }
{}

/// Each desktop to which a drawn one leads is drawn, those on the way too.
pub fn led_desktops_are_drawn()
    ensures { (start desktop : Desktop) → IsDrawn start → Leads start desktop → IsDrawn desktop }
{}

/// Each history leads from the first desktop to its last by acts whose orders all fit; there the device shows the table, and
/// each order of a further act that is not refused fits.
pub fn orders_fit_in_each_history()
    ensures leads { (opening : Opening) (events : List Event) → IsLegal events → Leads (first_desktop (display_of opening)) (replay opening events).desktop }
    ensures drawn { (opening : Opening) (events : List Event) → IsLegal events → IsDrawn (replay opening events).desktop }
    ensures acts { (opening : Opening) (events : List Event) (a : Act) (step : Step) → IsLegal events → IsSpelled a → rio (replay opening events).desktop.table a ≡ Ok step → AllFit (replay opening events).desktop.device step.orders }
{}
