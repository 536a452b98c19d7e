// A draw device of which steps are asked, one after the other.
ghost use Rattle.std.specs.Prelude.{◌≡◌, ◌<◌};

use crate::step::{Step, push_step};
use r9_chan::Chan;
use r9_draw::draw::{Draw, Shown};
use r9_event::event::{Order, Orders};
use r9_geom::{Point, Rect};
use r9_marks::marks::cells_over;
use r9_marks::steps::Steps;
use r9_memory::Memory;
use r9_text::Bytes;
use std::alloc::Global;
use std::marker::Brand;
use std::sync::ledger::{Blank, Ledger};
use std::test::Fail;

// The connection that asks.
const CLIENT: u64 = 1;

// A display of 64 by 48.
fn start(alloc: Global, chan: Chan) -> Result<Draw, Memory> {
    let r = Rect {
        min: Point { x: 0, y: 0 },
        max: Point { x: 64, y: 48 },
    };
    let mut draw = Draw::start(alloc, r, chan)?;
    if !draw.is_live(CLIENT) {
        draw.connect(CLIENT)?;
    }
    Ok(draw)
}

// Messages are done. Whether all were.
fn write<L: Ledger>(
    draw: &mut Draw,
    messages: &[u8],
    pixels: &mut Steps<L>,
) -> Result<bool, Memory> {
    if !draw.is_live(CLIENT) || messages.len() > 4096 {
        return Ok(false);
    }
    let wrote = draw.write(CLIENT, messages, None, pixels)?;
    Ok(wrote.refusal.is_none() && !wrote.short)
}

// The display gets a size.
fn size<L: Ledger>(
    alloc: Global,
    draw: &mut Draw,
    size: Order,
    pixels: &mut Steps<L>,
) -> Result<bool, Memory> {
    let mut orders = Orders::new(alloc);
    orders.push(size)?;
    draw.orders(&orders, pixels)?;
    Ok(true)
}

// A step is taken. Whether it was not refused.
fn take<L: Ledger>(
    alloc: Global,
    draw: &mut Draw,
    step: &Step,
    pixels: &mut Steps<L>,
) -> Result<bool, Memory> {
    if let Step::Size(width, height) = *step {
        return size(alloc, draw, Order::Size { width, height }, pixels);
    }
    let mut messages = Bytes::new(alloc);
    push_step(&mut messages, step)?;
    write(draw, messages.as_slice(), pixels)
}

// How many tiles are held after a step, or None where it is refused.
fn held<L: Ledger>(
    alloc: Global,
    draw: &mut Draw,
    step: &Step,
    pixels: &mut Steps<L>,
) -> Result<Option<usize>, Memory> {
    let taken = take(alloc, draw, step, pixels)?;
    Ok(taken.then_some(draw.tiles()))
}

fn counted<L: Ledger>(alloc: Global, steps: &[(Step, usize)], blank: Blank) -> Result<u64, Fail>
    requires name { blank.name ≡ L.name }
    requires parts { blank.parts ≡ L.parts }
    requires some { 0 < L.parts }
{
    let mut pixels: Steps<L> = Steps::new(blank);
    let mut draw = start(alloc, Chan::from_text("x8r8g8b8")?)?;
    for (step, tiles) in steps {
        let held = held(alloc, &mut draw, step, &mut pixels)?;
        if held != Some(*tiles) {
            return Err(Fail::from((held, *tiles)));
        }
    }
    Ok(pixels.count())
}

// Takes steps, after each of which so many tiles are held, and gives how many pixels they wrote.
pub fn leaves(alloc: Global, steps: &[(Step, usize)]) -> Result<u64, Fail> {
    counted::<Brand>(alloc, steps, Blank::new(1))
}

// Whether a cell of the display is marked; one beside it is not.
fn is_marked(draw: &Draw, column: u32, row: u32) -> bool {
    let r = draw.info(Shown::Display).r;
    if column as usize >= cells_over(r.width() as usize) {
        return false;
    }
    if row as usize >= cells_over(r.height() as usize) {
        return false;
    }
    draw.marked(column, row)
}

// The cells of the display that are marked, row by row, each as its column and its row, of a display of at most five by three.
fn marked(alloc: Global, draw: &Draw) -> Result<Vec<(u32, u32)>, Memory> {
    let mut cells = Vec::new(alloc);
    for row in 0..3 {
        for column in 0..5 {
            if is_marked(draw, column, row) {
                cells.push((column, row))?;
            }
        }
    }
    Ok(cells)
}

fn marked_after<L: Ledger>(
    alloc: Global,
    steps: &[(Step, &[(u32, u32)])],
    blank: Blank,
) -> Result<(), Fail>
    requires name { blank.name ≡ L.name }
    requires parts { blank.parts ≡ L.parts }
    requires some { 0 < L.parts }
{
    let mut pixels: Steps<L> = Steps::new(blank);
    let mut draw = start(alloc, Chan::from_text("x8r8g8b8")?)?;
    for (step, cells) in steps {
        draw.clear_marks();
        if !take(alloc, &mut draw, step, &mut pixels)? {
            return Err(Fail::from("refused"));
        }
        let found = marked(alloc, &draw)?;
        if found.as_slice() != *cells {
            return Err(Fail::from(found));
        }
    }
    Ok(())
}

// Takes steps, in each of which these cells of the display are marked, and no others.
pub fn marks(alloc: Global, steps: &[(Step, &[(u32, u32)])]) -> Result<(), Fail> {
    marked_after::<Brand>(alloc, steps, Blank::new(1))
}
