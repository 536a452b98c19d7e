//! Lists of windows, topmost first.

ghost use Rattle.std.specs.Prelude.{◌≡◌, ◌==◌, ◌∷◌, Some, if◌then◌else◌, IfOk, IfSome, OnOk, OnErr};
ghost use Rattle.r9_geom.specs.Geometry.{moved, shifted};
ghost use Rattle.model_client.specs.desk.Table.{pane_at, without, with_rect, with_raised};

use model_client::desk::{Pane, Spot};
use r9_geom::{Point, Rect};
use r9_memory::Memory;
use std::alloc::Global;

/// The topmost of the windows that holds the point.
pub fn pane_at(at: Spot, panes: &[Pane]) -> Option<Pane>
    ensures { result ≡ pane_at at panes.now }
{
    let p = Point {
        x: at.x.into(),
        y: at.y.into(),
    };
    panes.iter().find(|pane| pane.r.holds(p)).copied()
}

/// The windows without one.
pub fn without(alloc: Global, number: u64, panes: &[Pane]) -> Result<Vec<Pane>, Memory>
    ensures { IfOk result (λ left. left.items ≡ without number panes.now) }
{
    let mut left = Vec::from_slice(alloc, panes)?;
    left.retain(|pane| pane.number != number);
    Ok(left)
}

/// Adds a window on top.
pub fn put_on_top(pane: Pane, panes: &mut Vec<Pane>) -> Result<(), Memory>
    ensures ok { OnOk result (panes.new.items ≡ pane ∷ panes.old.items) }
    ensures err { OnErr result (panes.new.items ≡ panes.old.items) }
{
    panes.insert(0, pane)?;
    Ok(())
}

/// The windows with one on top.
pub fn with_raised(alloc: Global, pane: Pane, panes: &[Pane]) -> Result<Vec<Pane>, Memory>
    ensures { IfOk result (λ raised. raised.items ≡ with_raised (Some pane) panes.now) }
{
    let mut raised = without(alloc, pane.number, panes)?;
    put_on_top(pane, &mut raised)?;
    Ok(raised)
}

/// Gives one of the windows another rectangle.
pub fn set_rect(number: u64, r: Rect, panes: &mut Vec<Pane>)
    ensures { panes.new.items ≡ with_rect number r panes.old.items }
{
    for pane in panes.iter_mut() {
        *pane = placed(number, r, *pane);
    }
}

fn placed(number: u64, r: Rect, pane: Pane) -> Pane
    ensures { result ≡ (if pane.number == number then (record { number = pane.number; r = r }) else pane) }
{
    if pane.number == number {
        Pane { number, r }
    } else {
        pane
    }
}

/// The rectangle moved by so many columns and rows, where numbers reach so far.
pub fn shifted(r: Rect, by: Point) -> Option<Rect>
    ensures { IfSome result (λ moved. moved ≡ shifted r by) }
{
    Some(Rect {
        min: moved(r.min, by)?,
        max: moved(r.max, by)?,
    })
}

fn moved(p: Point, by: Point) -> Option<Point>
    ensures { IfSome result (λ q. q ≡ moved p by) }
{
    Some(Point {
        x: p.x.checked_add(by.x)?,
        y: p.y.checked_add(by.y)?,
    })
}
