//! A string is drawn piece by piece, once there is room for each of them.

ghost use Rattle.std.specs.Prelude.{◌≡◌, ◌+◌, ◌^◌, ◌≤◌, true, length, All, IfOk, IfSome, OnErr, OnOk};
ghost use Rattle.std.specs.List.{fold, list_all, sum_by};
ghost use Rattle.r9_geom.specs.Geometry.{IsNearBy, IsRectNearBy};
ghost use Rattle.model_draw_parts.specs.fonts.Font.{has_index, AreWithin};
ghost use Rattle.model_draw.specs.cost.Cost.{drawing_cost};
ghost use Rattle.model_forest.specs.Draw.{after_draw};
ghost use Rattle.model_forest.specs.World.{IsLive};
ghost use Rattle.model_draw.specs.draw.Writing as writing;
ghost use Rattle.r9_fonts.specs.Near.{IsPieceNearBy};
ghost use Rattle.r9_fonts.specs.View.{layout_of};
ghost use Rattle.r9_layers.specs.Forest.{moment, numbers, room, world, writes, IsUnchanged};
ghost use Rattle.r9_draw.specs.strings.Drawings.{background, characters, drawings, laid_out, letter};
ghost use Rattle.r9_draw.specs.strings.Ready.{CanLetter, Fits};

use crate::strings::lettering::Lettering;
use r9_fonts::{Font, FontFault, Layout, Piece};
use r9_geom::{Point, Rect};
use r9_layers::Forest;
use r9_locate::info::ImageNo;
use r9_marks::steps::Steps;
use r9_memory::Memory;
use std::sync::ledger::Ledger;

// Makes room for what is drawn into r on an image.
fn room_for(forest: &mut Forest, dst: ImageNo, r: &Rect) -> Result<(), Memory>
    requires { IsLive (world forest.old) dst.0 }
    ensures ok { OnOk result (Fits (world forest.old) dst.0 (room forest.new) r.now) }
    ensures room { room forest.old ≤ room forest.new }
    ensures same { IsUnchanged forest.old forest.new }
    ensures moment { moment forest.new ≡ moment forest.old }
    ensures writes { writes forest.new ≡ writes forest.old }
{
    let cut = r.meet(&forest.info(dst).r);
    if cut.is_empty() {
        return Ok(());
    }
    match cut.width().checked_mul(cut.height()) {
        Some(points) => forest.room(points),
        None => Err(Memory),
    }
}

// Makes room for the background, where there is one, which is drawn into r.
fn room_for_background(forest: &mut Forest, lettering: &Lettering, r: &Rect) -> Result<(), Memory>
    requires { IsLive (world forest.old) lettering.now.dst.0 }
    ensures ok { OnOk result (IfSome lettering.now.background (λ _. Fits (world forest.old) lettering.now.dst.0 (room forest.new) r.now)) }
    ensures room { room forest.old ≤ room forest.new }
    ensures same { IsUnchanged forest.old forest.new }
    ensures moment { moment forest.new ≡ moment forest.old }
    ensures writes { writes forest.new ≡ writes forest.old }
{
    match lettering.background {
        Some(_) => room_for(forest, lettering.dst, r),
        None => Ok(()),
    }
}

// Makes room for each of the characters.
fn room_for_characters(forest: &mut Forest, dst: ImageNo, pieces: &[Piece]) -> Result<(), Memory>
    requires { IsLive (world forest.old) dst.0 }
    ensures ok { OnOk result (All (λ piece. Fits (world forest.old) dst.0 (room forest.new) piece.r) pieces.now) }
    ensures room { room forest.old ≤ room forest.new }
    ensures same { IsUnchanged forest.old forest.new }
    ensures moment { moment forest.new ≡ moment forest.old }
    ensures writes { writes forest.new ≡ writes forest.old }
{
    for piece in pieces {
        room_for(forest, dst, &piece.r)?;
    }
    Ok(())
}

// Draws the background, where there is one, into r, for which there is room.
fn draw_background<L: Ledger>(
    forest: &mut Forest,
    lettering: &Lettering,
    r: &Rect,
    steps: &mut Steps<L>,
)
    requires images { CanLetter (world forest.old) lettering.now }
    requires near { IsRectNearBy (2 ^ 34) r.now }
    requires room { IfSome lettering.now.background (λ _. Fits (world forest.old) lettering.now.dst.0 (room forest.old) r.now) }
    ensures drawn { world forest.new ≡ fold after_draw (world forest.old) (background lettering.now r.now) }
    ensures numbers { numbers forest.new ≡ numbers forest.old }
    ensures room { room forest.old ≤ room forest.new }
    ensures steps { steps.new ≤ steps.old + sum_by (drawing_cost (world forest.old)) (background lettering.now r.now) }
    ensures moment { moment forest.new ≡ moment forest.old }
    ensures writes { writes forest.new + steps.old ≡ writes forest.old + steps.new }
{
    let Some(background) = lettering.background else {
        return;
    };
    let Ok(()) = forest.draw_unmasked(
        lettering.dst,
        lettering.clipr,
        *r,
        background.image,
        background.p,
        lettering.op,
        steps,
    ) else {
        unreachable!()
    };
}

// Draws the characters, for each of which there is room.
fn draw_characters<L: Ledger>(
    forest: &mut Forest,
    lettering: &Lettering,
    pieces: &[Piece],
    steps: &mut Steps<L>,
)
    requires images { CanLetter (world forest.old) lettering.now }
    requires near { All (IsPieceNearBy (2 ^ 34)) pieces.now }
    requires room { All (λ piece. Fits (world forest.old) lettering.now.dst.0 (room forest.old) piece.r) pieces.now }
    ensures drawn { world forest.new ≡ fold after_draw (world forest.old) (characters lettering.now pieces.now) }
    ensures numbers { numbers forest.new ≡ numbers forest.old }
    ensures room { room forest.old ≤ room forest.new }
    ensures steps { steps.new ≤ steps.old + sum_by (drawing_cost (world forest.old)) (characters lettering.now pieces.now) }
    ensures moment { moment forest.new ≡ moment forest.old }
    ensures writes { writes forest.new + steps.old ≡ writes forest.old + steps.new }
{
    for piece in pieces {
        draw_character(forest, lettering, piece, steps);
    }
}

// Draws one of them.
fn draw_character<L: Ledger>(
    forest: &mut Forest,
    lettering: &Lettering,
    piece: &Piece,
    steps: &mut Steps<L>,
)
    requires images { CanLetter (world forest.old) lettering.now }
    requires near { IsPieceNearBy (2 ^ 34) piece.now }
    requires room { Fits (world forest.old) lettering.now.dst.0 (room forest.old) piece.now.r }
    ensures drawn { world forest.new ≡ after_draw (world forest.old) (letter lettering.now piece.now) }
    ensures numbers { numbers forest.new ≡ numbers forest.old }
    ensures room { room forest.old ≤ room forest.new }
    ensures steps { steps.new ≤ steps.old + drawing_cost (world forest.old) (letter lettering.now piece.now) }
    ensures moment { moment forest.new ≡ moment forest.old }
    ensures writes { writes forest.new + steps.old ≡ writes forest.old + steps.new }
{
    let Ok(()) = forest.draw(
        lettering.dst,
        lettering.clipr,
        piece.r,
        lettering.src,
        piece.sp,
        lettering.font_image,
        piece.mp,
        lettering.op,
        steps,
    ) else {
        unreachable!()
    };
}

// What a background fills: from the pen's place at the beginning to that at the end, as high as the font's image, with the
// writing line the ascent below its upper edge.
fn background_rect(p: Point, end: Point, ascent: u8, font_r: &Rect) -> Rect
    requires p { IsNearBy (2 ^ 32) p }
    requires end { IsNearBy (2 ^ 33) end }
    requires font { IsRectNearBy (2 ^ 32) font_r.now }
    ensures value { result ≡ writing.background_rect p end ascent font_r.now }
    ensures near { IsRectNearBy (2 ^ 34) result }
{
    let top = p.y - i64::from(ascent);
    Rect {
        min: Point { x: p.x, y: top },
        max: Point {
            x: end.x,
            y: top + (font_r.max.y - font_r.min.y),
        },
    }
}

// The pieces of the string, and where the pen ends.
fn laid_out(font: &Font, lettering: &Lettering, indices: &[u16]) -> Result<Layout, Memory>
    requires p { IsNearBy (2 ^ 32) lettering.now.p }
    requires sp { IsNearBy (2 ^ 32) lettering.now.sp }
    requires near { AreWithin (2 ^ 32) font.now.cells }
    requires few { length indices.now ≤ 65535 }
    requires all { list_all (has_index font.now) indices.now ≡ true }
    ensures laid { IfOk result (λ l. layout_of l ≡ laid_out font.now lettering.now.p lettering.now.sp indices.now) }
    ensures near { IfOk result (λ l. All (IsPieceNearBy (2 ^ 34)) l.pieces) }
    ensures end { IfOk result (λ l. IsNearBy (2 ^ 33) l.end) }
{
    match font.layout(lettering.p, lettering.sp, indices) {
        Ok(laid) => Ok(laid),
        Err(FontFault::Memory) => Err(Memory),
        Err(FontFault::Refused(_)) => unreachable!(),
    }
}

/// Draws a string whole, or, where memory runs out, nothing: room for the largest of its pieces is made before the first is
/// drawn. Its characters are those of the font at the indices, one after the other (draw(3)), and within 2^32 of 0.
pub fn draw_string<L: Ledger>(
    forest: &mut Forest,
    font: &Font,
    lettering: &Lettering,
    indices: &[u16],
    steps: &mut Steps<L>,
) -> Result<(), Memory>
    requires ready { CanLetter (world forest.old) lettering.now }
    requires near { AreWithin (2 ^ 32) font.now.cells }
    requires few { length indices.now ≤ 65535 }
    requires all { list_all (has_index font.now) indices.now ≡ true }
    ensures drawn { OnOk result (world forest.new ≡ fold after_draw (world forest.old) (drawings (world forest.old) font.now lettering.now indices.now)) }
    ensures numbers { numbers forest.new ≡ numbers forest.old }
    ensures room { room forest.old ≤ room forest.new }
    ensures kept { OnErr result (world forest.new ≡ world forest.old) }
    ensures steps { steps.new ≤ steps.old + sum_by (drawing_cost (world forest.old)) (drawings (world forest.old) font.now lettering.now indices.now) }
    ensures uncounted { OnErr result (steps.new ≡ steps.old) }
    ensures moment { moment forest.new ≡ moment forest.old }
    ensures writes { writes forest.new + steps.old ≡ writes forest.old + steps.new }
{
    let laid = laid_out(font, lettering, indices)?;
    let font_r = forest.info(lettering.font_image).r;
    let under = background_rect(lettering.p, laid.end, font.ascent(), &font_r);
    let pieces = laid.pieces.as_slice();
    room_for_background(forest, lettering, &under)?;
    room_for_characters(forest, lettering.dst, pieces)?;
    draw_background(forest, lettering, &under, steps);
    draw_characters(forest, lettering, pieces, steps);
    Ok(())
}
