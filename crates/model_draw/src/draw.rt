//! Definitions: what the draw device does (draw(3)): its state, one message, one write of messages with its mark, the files of a
//! connection, and the orders of the window manager; and a law about them as the contract of a function that does nothing.
#![tactic(auto)]

ghost use Rattle.std.specs.Prelude.{◌≡◌, List};
ghost use Rattle.r9_event.specs.declared.event.rio.Order.{Order};
ghost use Rattle.r9_event.specs.event.Orders.{EndNoConnection};
ghost use Rattle.model_draw.specs.draw.World.{World};
ghost use Rattle.model_draw.specs.draw.Orders.{carried_out};

/// Orders that end no connection leave what connections have as it is.
pub fn orders_keep_connections()
    ensures { (world : World) (orders : List Order) → EndNoConnection orders → (carried_out world orders).clients ≡ world.clients }
{}
