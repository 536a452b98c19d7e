//! Looking through lists of windows and of rios, and changing them.

ghost use Rattle.std.specs.Prelude.{◌≡◌, ◌==◌, ◌&&◌, ◌≤◌, ◌∷◌, ◌++◌, [], not, length, map, filter, find, fold, reverse, nat_lt, if◌then◌else◌, IfOk, OnOk};
ghost use Rattle.std.specs.List.{position_or_len};
ghost use Rattle.r9_geom.specs.Geometry.{holds, is_empty, meet};
ghost use Rattle.model_rio.specs.rio.Table.{put};
ghost use Rattle.model_rio.specs.rio.Step.{is_same, changed, in_place, without, raised, lowered};
ghost use Rattle.r9_wmgr.specs.stacking.Changes.{by};

use r9_event::window::{Hold, Rio, Window};
use r9_geom::{Point, Rect};
use r9_memory::Memory;
use std::alloc::Global;

/// What becomes of a rio.
#[derive(Clone, Copy)]
pub enum Change {
    /// Its current window is another one, or none.
    Current(Option<u32>),
    /// The mouse is held by another one.
    Hold(Hold),
    /// A number was given to a window.
    Next,
}

/// Whether two are one, or neither is there.
pub fn is_same(a: Option<u32>, b: Option<u32>) -> bool
    ensures { result ≡ is_same a b }
{
    match (a, b) {
        (None, None) => true,
        (Some(a), Some(b)) => a == b,
        (None, Some(_)) | (Some(_), None) => false,
    }
}

/// The rio of a host.
pub fn find_rio(rios: &[Rio], host: u32) -> Option<Rio>
    ensures { result ≡ find (λ rio. rio.host == host) rios.now }
{
    rios.iter().find(|rio| rio.host == host).copied()
}

/// The window with a serial.
pub fn find_window(windows: &[Window], serial: u32) -> Option<Window>
    ensures { result ≡ find (λ w. w.serial == serial) windows.now }
{
    windows.iter().find(|w| w.serial == serial).copied()
}

/// The window with a number in the rio of a host.
pub fn find_numbered(windows: &[Window], host: u32, number: u32) -> Option<Window>
    ensures { result ≡ find (λ w. (w.host == host) && (w.number == number)) windows.now }
{
    windows
        .iter()
        .find(|w| w.host == host && w.number == number)
        .copied()
}

fn is_hit(w: &Window, host: u32, p: Point) -> bool
    ensures { result ≡ ((w.now.host == host) && not w.now.hidden && holds w.now.r p) }
{
    w.host == host && !w.hidden && w.r.rect().holds(p)
}

/// The topmost window of the rio of a host at a point that is not hidden.
pub fn find_topmost(windows: &[Window], host: u32, p: Point) -> Option<Window>
    ensures { result ≡ find (λ w. (w.host == host) && not w.hidden && holds w.r p) windows.now }
{
    windows.iter().find(|w| is_hit(w, host, p)).copied()
}

/// The windows of one rio.
fn windows_in(alloc: Global, windows: &[Window], host: u32) -> Result<Vec<Window>, Memory>
    ensures { IfOk result (λ ws. ws.items ≡ filter (λ w. w.host == host) windows.now) }
{
    Ok(
        windows
            .iter()
            .filter(|w| w.host == host)
            .copied()
            .collect(alloc)?,
    )
}

/// The windows of one rio, the lowest first.
pub fn bottom_up(alloc: Global, windows: &[Window], host: u32) -> Result<Vec<Window>, Memory>
    ensures { IfOk result (λ ws. ws.items ≡ reverse (filter (λ w. w.host == host) windows.now)) }
{
    let mut own = windows_in(alloc, windows, host)?;
    own.reverse();
    Ok(own)
}

fn is_off(w: &Window, r: &Rect) -> bool
    ensures { result ≡ is_empty (meet w.now.r r.now) }
{
    w.r.rect().meet(r).is_empty()
}

/// The windows of the root rio whose rectangles have no point of this one, the lowest first.
pub fn windows_off(alloc: Global, windows: &[Window], r: &Rect) -> Result<Vec<Window>, Memory>
    ensures { IfOk result (λ ws. ws.items ≡ reverse (filter (λ w. is_empty (meet w.r r.now)) (filter (λ w. w.host == 0) windows.now))) }
{
    let mut off = windows_in(alloc, windows, 0)?;
    off.retain(|w| is_off(w, r));
    off.reverse();
    Ok(off)
}

fn place_of(windows: &[Window], serial: u32) -> usize
    ensures place { result ≡ position_or_len (λ v. nat_lt serial v.serial) windows.now }
    ensures within { result ≤ length windows.now }
{
    windows
        .iter()
        .position(|v| serial < v.serial)
        .unwrap_or(windows.len())
}

/// Puts a window among others that stand in ascending serial.
fn put(windows: &mut Vec<Window>, w: Window) -> Result<(), Memory>
    ensures { OnOk result (windows.new.items ≡ put windows.old.items w) }
{
    let place = place_of(windows, w.serial);
    windows.insert(place, w)?;
    Ok(())
}

fn in_order(alloc: Global, windows: &[Window]) -> Result<Vec<Window>, Memory>
    ensures { IfOk result (λ ws. ws.items ≡ fold put [] windows.now) }
{
    let mut ordered = Vec::new(alloc);
    for w in windows {
        put(&mut ordered, *w)?;
    }
    Ok(ordered)
}

/// The windows of one rio in ascending serial.
pub fn made_in(alloc: Global, windows: &[Window], host: u32) -> Result<Vec<Window>, Memory>
    ensures { IfOk result (λ ws. ws.items ≡ fold put [] (filter (λ w. w.host == host) windows.now)) }
{
    let own = windows_in(alloc, windows, host)?;
    in_order(alloc, &own)
}

/// The rio after a change, where it is that of the host.
pub fn changed(rio: Rio, host: u32, change: Change) -> Rio
    ensures { result ≡ changed host (by change) rio }
{
    let mut next = rio;
    if rio.host == host {
        match change {
            Change::Current(current) => next.current = current,
            Change::Hold(hold) => next.hold = hold,
            Change::Next => next.next = rio.next.saturating_add(1),
        }
    }
    next
}

/// The rio of a host changes.
pub fn change_rios(rios: &mut Vec<Rio>, host: u32, change: Change)
    ensures { rios.new.items ≡ map (changed host (by change)) rios.old.items }
{
    for rio in rios.iter_mut() {
        *rio = changed(*rio, host, change);
    }
}

/// The rio of a host goes.
pub fn without_rio(rios: &mut Vec<Rio>, host: u32)
    ensures { rios.new.items ≡ filter (λ rio. not (rio.host == host)) rios.old.items }
{
    rios.retain(|rio| rio.host != host);
}

// Only the one window is written: the others are not copied onto themselves.
fn replace_one(v: &mut Window, w: &Window)
    ensures { v.new ≡ (if v.old.serial == w.now.serial then w.now else v.old) }
{
    if v.serial == w.serial {
        *v = *w;
    }
}

/// Puts a window in place of the one with its serial.
pub fn replace(windows: &mut Vec<Window>, w: &Window)
    ensures { windows.new.items ≡ in_place w.now windows.old.items }
{
    for v in windows.iter_mut() {
        replace_one(v, w);
    }
}

/// The window with a serial goes.
pub fn without(windows: &mut Vec<Window>, serial: u32)
    ensures { windows.new.items ≡ without serial windows.old.items }
{
    windows.retain(|v| v.serial != serial);
}

/// Puts a window above all others.
pub fn raise(windows: &mut Vec<Window>, w: Window) -> Result<(), Memory>
    ensures { OnOk result (windows.new.items ≡ raised w windows.old.items) }
{
    without(windows, w.serial);
    windows.insert(0, w)?;
    Ok(())
}

/// Puts a window below all others.
pub fn lower(windows: &mut Vec<Window>, w: Window) -> Result<(), Memory>
    ensures { OnOk result (windows.new.items ≡ lowered w windows.old.items) }
{
    without(windows, w.serial);
    windows.push(w)?;
    Ok(())
}

/// Adds the serials of the hosts of rios at the end.
pub fn push_hosts(rios: &[Rio], hosts: &mut Vec<u32>) -> Result<(), Memory>
    ensures { OnOk result (hosts.new.items ≡ hosts.old.items ++ map (λ rio. rio.host) rios.now) }
{
    for rio in rios {
        hosts.push(rio.host)?;
    }
    Ok(())
}
