//! Images that get another min in their own coordinates, where their pixels and their windows move along.
#![tactic(auto)]

ghost use Rattle.std.specs.Prelude.{◌≡◌, ◌^◌, ◌≤ℤ◌, neg_ℤ, pos, Some};
ghost use Rattle.r9_geom.specs.Geometry.{IsNearBy, IsRectNear, IsRectNearBy};
ghost use Rattle.model_forest.specs.Steps as steps;
ghost use Rattle.model_forest.specs.Steps.{shifted_image};
ghost use Rattle.model_forest.specs.World.{image_at, with_image, IsForest, IsLive};
ghost use Rattle.model_kept.specs.Keeping.{with_kept};
ghost use Rattle.model_kept.specs.Restack.{shifted_shape};
ghost use Rattle.r9_locate.specs.locate.Forms.{forms_of};
ghost use Rattle.r9_locate.specs.locate.Lists.{frame_image};
ghost use Rattle.r9_locate.specs.locate.Table.{made, shape};
ghost use Rattle.r9_pixels.specs.Kept.{form_at, has_place, kept_at, moment, writes};
ghost use Rattle.r9_pixels.specs.Places.{HasCells};

use model_forest::Window;
use r9_geom::{Point, Rect};
use r9_locate::lists::{carried, carried_rect};
use r9_locate::locate::{Frame, Lists};
use r9_pixels::KeptPixels;
use std::alloc::Global;

// The nearest number of 32 bits.
fn clamped(x: i64) -> i64
    ensures value { result ≡ steps.clamped x }
    ensures low { neg_ℤ (pos (2 ^ 34)) ≤ℤ result }
    ensures high { result ≤ℤ pos (2 ^ 34) }
{
    x.min(0x7fff_ffff).max(-0x8000_0000)
}

// The rectangle cut to coordinates of 32 bits.
fn clamped_rect(r: &Rect) -> Rect
    ensures value { result ≡ steps.clamped_rect r.now }
    ensures near { IsRectNearBy (2 ^ 34) result }
{
    Rect {
        min: Point {
            x: clamped(r.min.x),
            y: clamped(r.min.y),
        },
        max: Point {
            x: clamped(r.max.x),
            y: clamped(r.max.y),
        },
    }
}

// The frame of an image with another min, and with windows that moved along.
fn shifted_frame(frame: &Frame, windows: Vec<Window>, min: Point) -> Frame
    requires rect { IsRectNear frame.now.r }
    requires clip { IsRectNear frame.now.clipr }
    requires min { IsNearBy (2 ^ 34) min }
    ensures { frame_image result ≡ record (shifted_image (frame_image frame.now) min) { windows = windows.items } }
{
    let from = frame.r.min;
    Frame {
        r: carried_rect(&frame.r, from, min),
        clipr: clamped_rect(&carried_rect(&frame.clipr, from, min)),
        repl: frame.repl,
        chan: frame.chan,
        standing: frame.standing,
        depth: frame.depth,
        windows,
    }
}

// Gives an image another min, where its windows move along.
fn shift_frame(alloc: Global, lists: &mut Lists, i: u32, min: Point)
    requires live { IsLive (shape lists.old) i }
    requires min { IsNearBy (2 ^ 34) min }
    requires before { IsForest (shape lists.old) }
    ensures world { shape lists.new ≡ shifted_shape (shape lists.old) i min }
    ensures made { made lists.new ≡ made lists.old }
{
    let mut windows = lists.set_windows(i, Vec::new(alloc));
    let had = lists.get(i);
    carried(&mut windows, had.r.min, min);
    let frame = shifted_frame(had, windows, min);
    let _ = lists.replace(i, frame);
}

/// Gives an image another min in its own coordinates, where its pixels and its windows move along. No pixel is written, and it
/// takes no memory.
pub fn shift(alloc: Global, lists: &mut Lists, pixels: &mut KeptPixels, i: u32, min: Point)
    requires live { IsLive (shape lists.old) i }
    requires min { IsNearBy (2 ^ 34) min }
    requires before { IsForest (shape lists.old) }
    requires forms { form_at pixels.old ≡ forms_of (shape lists.old) }
    requires cells { HasCells (shape lists.old) (has_place pixels.old) }
    ensures lists { shape lists.new ≡ shifted_shape (shape lists.old) i min }
    ensures made { made lists.new ≡ made lists.old }
    ensures world { with_kept (shape lists.new) (kept_at pixels.new) ≡ with_image (with_kept (shape lists.old) (kept_at pixels.old)) i (Some (shifted_image (image_at (with_kept (shape lists.old) (kept_at pixels.old)) i) min)) }
    ensures cells { HasCells (shape lists.new) (has_place pixels.new) }
    ensures forms { form_at pixels.new ≡ forms_of (shape lists.new) }
    ensures moment { moment pixels.new ≡ moment pixels.old }
    ensures writes { writes pixels.new ≡ writes pixels.old }
{
    shift_frame(alloc, lists, i, min);
    pixels.shift(i, min);
}
