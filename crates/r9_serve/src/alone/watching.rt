//! A history that runs event by event, and in which a session is watched.

ghost use Rattle.std.specs.Prelude.{◌≡◌, ◌<◌, ℕ, true, IfOk, Err, Some};
ghost use Rattle.model_alone.specs.alone.Own.{not_alone};
ghost use Rattle.model_history.specs.event.Legal.{IsLegal};
ghost use Rattle.r9_hall.specs.hall.WorldView.{IsFirst};
ghost use Rattle.r9_serve.specs.alone.Watched.{IsWatchedIn};

use crate::replay::make_seen;
use r9_event::event::{Entry, Opening};
use r9_hall::hall::World;
use r9_isol::watch::{Watch, WatchFault};
use r9_journal::Record;
use r9_marks::steps::Steps;
use r9_memory::Memory;
use std::alloc::Global;
use std::marker::Brand;
use std::sync::ledger::{Blank, Ledger};

/// The watch of a session at the end of a history, which runs event by event in a world that has just started, as its record is read.
/// NotAlone at the first entry by which the session is not alone with its window; what follows it is not run. Memory also where there are
/// more entries than can be counted. Nobody asks how many pixels it writes.
fn watch_events<L: Ledger>(
    alloc: Global,
    session: u32,
    world: &mut World,
    mut left: Record,
    blank: Blank,
) -> Result<Watch, WatchFault>
    requires name { blank.name ≡ L.name }
    requires parts { blank.parts ≡ L.parts }
    requires some { 0 < L.parts }
    requires first { IsFirst world.old.opening world.old }
    requires watches { world.old.watches ≡ true }
    requires legal { IsLegal left }
    ensures watched { IfOk result (λ watch. IsWatchedIn world.old.opening session left.entry watch) }
    ensures ends { (entry reason : ℕ) → result ≡ Err (WatchFault.NotAlone entry reason) → not_alone world.old.opening session left.entry ≡ Some (entry, reason) }
{
    let mut watch = Watch::new(alloc, session);
    let mut number: u64 = 1;
    let mut pixels = Steps::<L>::new(blank);
    'events: while let Some(event) = left.pop_first(alloc)? {
        let did = make_seen(world, &event, &mut pixels)?;
        watch.see(&Entry { number, event }, &did)?;
        number = number.checked_add(1).ok_or(Memory)?;
    }
    Ok(watch)
}

/// The watch of a session at the end of the history whose record is read; NotAlone where it is not alone with its window in it.
pub(crate) fn watched(
    alloc: Global,
    opening: Opening,
    session: u32,
    left: Record,
) -> Result<Watch, WatchFault>
    requires { IsLegal left }
    ensures watched { IfOk result (λ watch. IsWatchedIn opening session left.entry watch) }
    ensures ends { (entry reason : ℕ) → result ≡ Err (WatchFault.NotAlone entry reason) → not_alone opening session left.entry ≡ Some (entry, reason) }
{
    let mut world = World::start(alloc, opening, true)?;
    watch_events::<Brand>(alloc, session, &mut world, left, Blank::new(1))
}
