//! Orders of the window manager fit the draw device that shows its windows: definitions, and laws as the contracts of functions that
//! do nothing.
#![tactic(auto)]

ghost use Rattle.std.specs.Prelude.{◌≡◌, ◌==◌, Bool, ℕ, List, Option, Some, Ok, fold, false};
ghost use Rattle.r9_event.specs.declared.event.rio.Order.{Order};
ghost use Rattle.model_files.specs.wctl.Command.{Command};
ghost use Rattle.model_files.specs.wctl.Reading.{command_of};
ghost use Rattle.model_draw.specs.draw.World.{Opening, World, after_connect, after_leave, started};
ghost use Rattle.model_draw.specs.draw.Act.{written};
ghost use Rattle.model_draw.specs.draw.Orders.{after_order, carried_out, with_root_rio};
ghost use Rattle.model_rio.specs.rio.Act.{Act};
ghost use Rattle.model_rio.specs.rio.Act as act;
ghost use Rattle.model_rio.specs.rio.Rio.{rio};
ghost use Rattle.model_rio.specs.rio.Sound.{IsSound};
ghost use Rattle.model_rio.specs.rio.Step.{Step};
ghost use Rattle.model_rio.specs.rio.Table.{Table, opened};
ghost use Rattle.law_shown.specs.shown.Showing.{IsOrderly};
ghost use Rattle.law_shown.specs.fitting.Fitting.{AllFit, FindsDisplay, IsSpelled, Shows};

/// A device that starts, with the root rio, is orderly and shows a table with no windows.
pub fn devices_start_with_their_tables()
    ensures orderly { (opening : Opening) → IsOrderly (with_root_rio (started opening)) }
    ensures shows { (opening : Opening) → Shows (with_root_rio (started opening)) (opened opening.r) }
{}

/// Where a device shows a sound table, each order of an act that is not refused fits the device to which those before it were
/// carried out, and in the end the device shows the table that the act leaves. For another size of its display it has one that
/// stands nowhere, begins at 0 and does not repeat.
pub fn orders_of_acts_fit()
    ensures fit { (device : World) (table : Table) (a : Act) (step : Step) → IsSound table → IsOrderly device → Shows device table → IsSpelled a → FindsDisplay device a → rio table a ≡ Ok step → AllFit device step.orders }
    ensures orderly { (device : World) (table : Table) (a : Act) (step : Step) → IsSound table → IsOrderly device → Shows device table → IsSpelled a → FindsDisplay device a → rio table a ≡ Ok step → IsOrderly (carried_out device step.orders) }
    ensures shows { (device : World) (table : Table) (a : Act) (step : Step) → IsSound table → IsOrderly device → Shows device table → IsSpelled a → FindsDisplay device a → rio table a ≡ Ok step → Shows (carried_out device step.orders) step.table }
{}

/// Orders that fit are all carried out.
pub fn fitting_orders_are_carried_out()
    ensures { (orders : List Order) (device : World) → AllFit device orders → carried_out device orders ≡ fold after_order device orders }
{}

/// A command that a text spells moves windows by options that leave their size.
pub fn texts_spell_acts()
    ensures { (with_id : Bool) (text : List ℕ) (command : Command) (window : ℕ) → command_of with_id text ≡ Some command → IsSpelled (act.Command window command.what) }
{}

/// What a connection writes, refused or not, and its beginning and its end leave what the device shows: no connection of a session
/// is the window manager's.
pub fn connections_leave_what_is_shown()
    ensures write { (k : ℕ) (device : World) (table : Table) (bytes : List ℕ) (mark : Option ℕ) → (k == 0) ≡ false → IsOrderly device → Shows device table → Shows (written k device bytes mark).world table }
    ensures begin { (k : ℕ) (device : World) (table : Table) → IsOrderly device → Shows device table → Shows (after_connect device k) table }
    ensures end { (k : ℕ) (device : World) (table : Table) → (k == 0) ≡ false → IsOrderly device → Shows device table → Shows (after_leave device k) table }
{}
