//! What an event asks for in each mode.

ghost use Rattle.std.specs.Prelude.{◌≡◌, ◌-ℤ◌, ◌/◌, ◌==◌, ◌&&◌, pos, IsTrue, int_le, nat_lt, not, if◌then◌else◌, slice_get, None};
ghost use Rattle.std.specs.Option.{option_map_or, unwrap_or};
ghost use Rattle.r9_geom.specs.Geometry.{distance};
ghost use Rattle.model_client.specs.desk.Asked.{ask, spot, menu_rect, items, is_within, chosen_at, chosen, if_wide, swept, swept_to, picked, after_drain};
ghost use Rattle.model_client.specs.desk.Asked as model;
ghost use Rattle.model_client.specs.desk.Table.{pane_at};
ghost use Rattle.model_client.specs.declared.desk.Act.TheVariants.{Nothing, Pass, New};
ghost use Rattle.model_client.specs.declared.desk.Mode.TheVariants.{Idle, Menu, Pick, Drain};

use crate::panes::pane_at;
use model_client::desk::{Act, Ask, Item, Mode, Pane, Spot};
use model_files::mouse::Mouse;
use r9_geom::{Point, Rect, distance};

/// How many windows there are at most.
const WINDOWS: usize = 64;

/// The button that asks for the menu.
const RIGHT: u8 = 4;

/// The least side of a window, in pixels.
const LEAST: i64 = 12;

pub fn spot(e: Mouse) -> Spot
    ensures { result ≡ spot e }
{
    Spot { x: e.x, y: e.y }
}

fn ask(act: Act, mode: Mode) -> Ask
    ensures { result ≡ ask act mode }
{
    Ask { act, mode }
}

fn menu_rect(at: Spot) -> Rect
    ensures { result ≡ menu_rect at }
{
    let min = Point {
        x: at.x.into(),
        y: at.y.into(),
    };
    Rect {
        min,
        max: Point {
            x: i64::from(at.x) + 48,
            y: i64::from(at.y) + 88,
        },
    }
}

fn is_within(low: i64, high: i64, n: i64) -> bool
    ensures { result ≡ is_within low high n }
{
    low <= n && n <= high
}

// What an item leads to, counted from the top.
fn item(k: u64) -> Mode
    ensures { result ≡ unwrap_or (slice_get items k) Idle }
{
    match k {
        0 => Mode::Sweep { window: None },
        1 => Mode::Pick(Item::Resize),
        2 => Mode::Pick(Item::Move),
        3 => Mode::Pick(Item::Delete),
        4 => Mode::Pick(Item::Hide),
        _ => Mode::Idle,
    }
}

// The number of the item so many rows below the menu's min, counted from the top.
fn band(dy: i64) -> u64
    requires { IsTrue (is_within (pos 4) (pos 83) dy) }
    ensures { result ≡ distance (pos 4) dy / 16 }
{
    distance(4, dy) / 16
}

fn chosen_at(dx: i64, dy: i64) -> Mode
    ensures { result ≡ chosen_at dx dy }
{
    if is_within(4, 43, dx) && is_within(4, 83, dy) {
        item(band(dy))
    } else {
        Mode::Idle
    }
}

fn change(from: i32, to: i32) -> i64
    ensures { result ≡ to -ℤ from }
{
    i64::from(to) - i64::from(from)
}

fn chosen(menu: Spot, at: Spot) -> Mode
    ensures { result ≡ chosen menu at }
{
    chosen_at(change(menu.x, at.x), change(menu.y, at.y))
}

fn is_side(low: i32, high: i32) -> bool
    ensures { result ≡ int_le (pos 12) (high -ℤ low) }
{
    i64::from(high) - i64::from(low) >= LEAST
}

fn rect(left: i32, top: i32, right: i32, bottom: i32) -> Rect
    ensures { result ≡ record { min = record { x = left; y = top }; max = record { x = right; y = bottom } } }
{
    Rect {
        min: Point {
            x: left.into(),
            y: top.into(),
        },
        max: Point {
            x: right.into(),
            y: bottom.into(),
        },
    }
}

fn if_wide(left: i32, top: i32, right: i32, bottom: i32) -> Option<Rect>
    ensures { result ≡ if_wide left top right bottom }
{
    if is_side(left, right) && is_side(top, bottom) {
        Some(rect(left, top, right, bottom))
    } else {
        None
    }
}

fn swept(a: Spot, b: Spot) -> Option<Rect>
    ensures { result ≡ swept a b }
{
    if_wide(a.x.min(b.x), a.y.min(b.y), a.x.max(b.x), a.y.max(b.y))
}

fn swept_to(window: Option<u64>, r: Rect) -> Act
    ensures { result ≡ swept_to window r }
{
    match window {
        None => Act::New(r),
        Some(window) => Act::Resize { window, r },
    }
}

fn picked(item: Item, at: Spot, pane: Pane) -> Ask
    ensures { result ≡ picked item at pane }
{
    match item {
        Item::Resize => ask(
            Act::Nothing,
            Mode::Drain {
                sweep: Some(pane.number),
            },
        ),
        Item::Move => ask(Act::Nothing, Mode::Drag { pane, from: at }),
        Item::Delete => ask(Act::Delete(pane.number), Mode::Drain { sweep: None }),
        Item::Hide => ask(Act::Hide(pane), Mode::Drain { sweep: None }),
    }
}

fn after_drain(sweep: Option<u64>) -> Mode
    ensures { result ≡ after_drain sweep }
{
    match sweep {
        None => Mode::Idle,
        Some(window) => Mode::Sweep {
            window: Some(window),
        },
    }
}

/// In `Idle`: a press of the right button alone asks for the menu, and other events go to the windows.
pub fn in_idle(visible: &[Pane], count: usize, next: u64, last: u8, e: Mouse) -> Ask
    ensures { result ≡ (if (e.buttons == 4) && (last == 0) then (if nat_lt count 64 then ask (New (menu_rect (spot e))) (Menu (spot e) next) else ask Nothing (Drain None)) else ask (Pass (if not (e.buttons == 0) && (last == 0) then pane_at (spot e) visible.now else None)) Idle) }
{
    let at = spot(e);
    if e.buttons == RIGHT && last == 0 {
        if count < WINDOWS {
            ask(Act::New(menu_rect(at)), Mode::Menu { at, window: next })
        } else {
            ask(Act::Nothing, Mode::Drain { sweep: None })
        }
    } else {
        let raised = raised(visible, last, e);
        ask(Act::Pass { raised }, Mode::Idle)
    }
}

// The window that a press raises.
fn raised(visible: &[Pane], last: u8, e: Mouse) -> Option<Pane>
    ensures { result ≡ (if not (e.buttons == 0) && (last == 0) then pane_at (spot e) visible.now else None) }
{
    if e.buttons != 0 && last == 0 {
        pane_at(spot(e), visible)
    } else {
        None
    }
}

/// In `Menu`: the menu goes with the release.
pub fn in_menu(at: Spot, window: u64, e: Mouse) -> Ask
    ensures { result ≡ model.in_menu at window e }
{
    if e.buttons == 0 {
        ask(Act::Delete(window), chosen(at, spot(e)))
    } else {
        ask(Act::Nothing, Mode::Menu { at, window })
    }
}

/// In `Pick`: a press picks a window.
pub fn in_pick(item: Item, visible: &[Pane], e: Mouse) -> Ask
    ensures { result ≡ (if e.buttons == 0 then ask Nothing (Pick item) else option_map_or (picked item (spot e)) (pane_at (spot e) visible.now) (ask Nothing (Drain None))) }
{
    if e.buttons == 0 {
        return ask(Act::Nothing, Mode::Pick(item));
    }
    match pane_at(spot(e), visible) {
        None => ask(Act::Nothing, Mode::Drain { sweep: None }),
        Some(pane) => picked(item, spot(e), pane),
    }
}

/// In `Drain`: the press ends.
pub fn in_drain(sweep: Option<u64>, e: Mouse) -> Ask
    ensures { result ≡ model.in_drain sweep e }
{
    if e.buttons == 0 {
        ask(Act::Nothing, after_drain(sweep))
    } else {
        ask(Act::Nothing, Mode::Drain { sweep })
    }
}

/// In `Sweep`: a press begins it.
pub fn in_sweep(window: Option<u64>, e: Mouse) -> Ask
    ensures { result ≡ model.in_sweep window e }
{
    if e.buttons == 0 {
        ask(Act::Nothing, Mode::Sweep { window })
    } else {
        ask(
            Act::Nothing,
            Mode::Sweeping {
                window,
                from: spot(e),
            },
        )
    }
}

/// In `Sweeping`: the release ends it.
pub fn in_sweeping(window: Option<u64>, from: Spot, e: Mouse) -> Ask
    ensures { result ≡ model.in_sweeping window from e }
{
    if e.buttons != 0 {
        return ask(Act::Nothing, Mode::Sweeping { window, from });
    }
    match swept(from, spot(e)) {
        None => ask(Act::Nothing, Mode::Idle),
        Some(r) => ask(swept_to(window, r), Mode::Idle),
    }
}

/// In `Drag`: the release ends it.
pub fn in_drag(pane: Pane, from: Spot, e: Mouse) -> Ask
    ensures { result ≡ model.in_drag pane from e }
{
    if e.buttons != 0 {
        return ask(Act::Nothing, Mode::Drag { pane, from });
    }
    let by = Point {
        x: change(from.x, e.x),
        y: change(from.y, e.y),
    };
    ask(Act::Move { pane, by }, Mode::Idle)
}
