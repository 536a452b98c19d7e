//! What the display has in all that histories lead to: definitions, and laws as the contracts of functions that do nothing.
#![tactic(auto)]

ghost use Rattle.std.specs.Prelude.{◌≡◌, true, List, None};
ghost use Rattle.r9_event.specs.declared.event.event.Event.{Event};
ghost use Rattle.r9_event.specs.declared.event.event.Opening.{Opening};
ghost use Rattle.model_history.specs.event.Legal.{IsLegal};
ghost use Rattle.model_forest.specs.World.{parent_of};
ghost use Rattle.model_draw.specs.draw.Orders.{is_side};
ghost use Rattle.model_world.specs.Replay.{replay, step};
ghost use Rattle.law_devices.specs.sides.Display.{HasDisplay, HasPaid};

/// In each history that begins with a display of 1 to 2,048 pixels across and down there is such a display, with the channels with
/// which it began. However large it is when a history begins, the display stands on nothing.
pub fn each_history_has_a_display()
    ensures display { (opening : Opening) (events : List Event) → is_side opening.width ≡ true → is_side opening.height ≡ true → IsLegal events → HasDisplay opening.chan (replay opening events).desktop.device }
    ensures nowhere { (opening : Opening) (events : List Event) → IsLegal events → parent_of (replay opening events).desktop.device.images 0 ≡ None }
{}

/// An event that gives the display another size asks for so much that each of its pixels may be written.
pub fn another_size_is_paid()
    ensures { (opening : Opening) (events : List Event) (event : Event) → IsLegal events → HasPaid (replay opening events).desktop.device (step (replay opening events) event).world.desktop.device (step (replay opening events) event).cost }
{}
