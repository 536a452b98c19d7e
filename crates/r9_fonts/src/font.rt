//! Fonts.

ghost use Rattle.std.specs.Prelude.{◌≡◌, ◌+◌, ◌*◌, ◌≤◌, ◌^◌, true, ℕ, length, map, Ok, Err, All, IfOk, IfErr, OnOk, OnErr};
ghost use Rattle.std.specs.List.{list_all, sum_by};
ghost use Rattle.r9_geom.specs.Geometry.{IsNearBy, IsRectNearBy};
ghost use Rattle.model_draw_parts.specs.fonts.Font.{Font, AreWithin, advanced, cell, has_index, layout, new_font, piece, pieces, with_cell};
ghost use Rattle.model_draw_parts.specs.declared.fonts.Cell.{Cell};
ghost use Rattle.r9_fonts.specs.Near.{IsPieceNearBy};
ghost use Rattle.r9_fonts.specs.View.{layout_of};

use crate::layout::Layout;
use model_draw_parts::fonts::{Cell, Piece};
use r9_geom::{Point, Rect};
use r9_memory::Memory;
use std::alloc::Global;
use std::collections::BTreeMap;
use std::marker::Model;

/// Why a string was not laid out, or a character not set.
#[derive(Clone, Copy, Debug, PartialEq, Eq)]
pub enum FontFault {
    /// The number of the refusal, as draw(3) words it: 15, a character index out of range.
    Refused(u8),
    /// There was no memory.
    Memory,
}

/// The characters of a font, and how far above the writing line its image begins, in pixels. The rectangles of the
/// characters are within 2^33 of 0. Those that were never set take no memory.
#[derive(Debug, Drop)]
pub struct Font {
    alloc: Global,
    ascent: u8,
    // How many characters there are.
    count: u32,
    // Those that were set, by index.
    set: BTreeMap<u16, Cell>,
}

impl Model for Font {
    ghost use Rattle.std.specs.Prelude.{◌^◌};
    ghost use Rattle.std.specs.Ordering.{nat_cmp};
    ghost use Rattle.std.specs.BTreeMap.{get};
    ghost use Rattle.model_draw_parts.specs.fonts.Font.{Font, AreWithin};
    ghost use Rattle.r9_fonts.specs.Kept.{cells_of};

    ghost Value = { Font };

    ghost view = { λ f. record { ascent = f.ascent; cells = cells_of f.count (get nat_cmp f.set) } };

    ghost invariant = { λ f. AreWithin (2 ^ 33) (cells_of f.count (get nat_cmp f.set)) };
}

// The character, right of the pen at p and above the writing line.
fn piece(ascent: u8, p: Point, sp: Point, cell: Cell) -> Piece
    requires p { IsNearBy (2 ^ 34) p }
    requires sp { IsNearBy (2 ^ 34) sp }
    requires cell { IsRectNearBy (2 ^ 33) cell.r }
    ensures value { result ≡ piece ascent p sp cell }
    ensures near { (n m : ℕ) → 3 * n + 2 ^ 25 ≤ m → IsNearBy (n + 2 ^ 24) p → IsNearBy (n + 2 ^ 24) sp → IsRectNearBy n cell.r → IsPieceNearBy m result }
{
    let left = i64::from(cell.left);
    let min = Point {
        x: p.x + left,
        y: p.y - (i64::from(ascent) - cell.r.min.y),
    };
    Piece {
        r: cell.r.at_min(min),
        sp: Point {
            x: sp.x + left,
            y: sp.y + cell.r.min.y,
        },
        mp: cell.r.min,
    }
}

fn advanced(p: Point, width: u8) -> Point
    requires { IsNearBy (2 ^ 34) p }
    ensures value { result ≡ advanced p width }
    ensures near { (n m : ℕ) → n + 255 ≤ m → IsNearBy n p → IsNearBy m result }
{
    Point {
        x: p.x + i64::from(width),
        y: p.y,
    }
}

fn has_all(font: &Font, indices: &[u16]) -> bool
    ensures { result ≡ list_all (has_index font.now) indices.now }
{
    indices.iter().all(|index| font.has(*index))
}

fn laid_out(font: &Font, p: Point, sp: Point, indices: &[u16]) -> Result<Layout, Memory>
    requires p { IsNearBy (2 ^ 33) p }
    requires sp { IsNearBy (2 ^ 33) sp }
    requires few { length indices.now ≤ 65535 }
    requires within { list_all (has_index font.now) indices.now ≡ true }
    ensures value { IfOk result (λ l. layout_of l ≡ record { pieces = pieces font.now.ascent p sp (map (cell font.now.cells) indices.now); end = advanced p (sum_by (λ (c : Cell). c.width) (map (cell font.now.cells) indices.now)) }) }
    ensures near { (n m : ℕ) → 3 * n + 2 ^ 25 ≤ m → IsNearBy n p → IsNearBy n sp → AreWithin n font.now.cells → IfOk result (λ l. All (IsPieceNearBy m) l.pieces) }
    ensures end { (n m : ℕ) → n + 2 ^ 24 ≤ m → IsNearBy n p → IfOk result (λ l. IsNearBy m l.end) }
    ensures line { IfOk result (λ l. l.end.y ≡ p.y) }
{
    let ascent = font.ascent();
    let mut pieces = Vec::with_capacity(font.alloc, indices.len())?;
    let mut pen = p;
    let mut source = sp;
    for index in indices {
        let cell = font.cell(*index);
        pieces.push(piece(ascent, pen, source, cell))?;
        pen = advanced(pen, cell.width);
        source = advanced(source, cell.width);
    }
    Ok(Layout {
        pieces: pieces.into(),
        end: pen,
    })
}

impl Font {
    ghost use Rattle.r9_fonts.specs.View.{IfMemory, IfRefused};

    const EMPTY: Cell = Cell {
        r: Rect {
            min: Point { x: 0, y: 0 },
            max: Point { x: 0, y: 0 },
        },
        left: 0,
        width: 0,
    };

    /// A font of n characters without points and without width. Takes no memory.
    pub fn new(alloc: Global, n: u32, ascent: u8) -> Self
        ensures { result ≡ new_font n ascent }
    {
        Font {
            alloc,
            ascent,
            count: n,
            set: BTreeMap::new(alloc),
        }
    }

    /// How far above the writing line the font's image begins, and its characters, in pixels.
    pub fn ascent(&self) -> u8
        ensures { result ≡ self.now.ascent }
    {
        self.ascent
    }

    /// Whether the font has a character at the index.
    pub fn has(&self, index: u16) -> bool
        ensures { result ≡ has_index self.now index }
    {
        u32::from(index) < self.count
    }

    // The character at an index that the font has.
    fn cell(&self, index: u16) -> Cell
        requires { has_index self.now index ≡ true }
        ensures value { result ≡ cell self.now.cells index }
        ensures near { IsRectNearBy (2 ^ 33) result.r }
    {
        match self.set.get(&index) {
            Some(cell) => *cell,
            None => Self::EMPTY,
        }
    }

    /// Sets the character at an index. Refused by 15 exactly where the font has no such index. Its rectangle is within 2^33 of
    /// 0. Where it is refused or there is no memory, the font is as before.
    pub fn set(&mut self, index: u16, cell: Cell) -> Result<(), FontFault>
        requires { IsRectNearBy (2 ^ 33) cell.r }
        ensures ok { OnOk result (with_cell self.old index cell ≡ Ok self.new) }
        ensures refused { IfErr result (λ f. IfRefused f (λ n. with_cell self.old index cell ≡ Err n)) }
        ensures memory { IfErr result (λ f. IfMemory f (has_index self.old index ≡ true)) }
        ensures kept { OnErr result (self.new ≡ self.old) }
    {
        if !self.has(index) {
            return Err(FontFault::Refused(15));
        }
        match self.set.insert(index, cell) {
            Ok(_) => Ok(()),
            Err(_) => Err(FontFault::Memory),
        }
    }

    /// The pieces of a string, in its order: for each character where it is drawn, with the pen at p on the writing line at
    /// first, and the points of the source, at first sp, and of the font's image there; and where the pen ends. Refused by
    /// 15 exactly where an index is not one of the font's. The points are within 2^33 of 0. Where they and the characters are
    /// within n of it, what is drawn is within three times n and 2^25, and the pen, which stays on the line, within n and 2^24.
    pub fn layout(&self, p: Point, sp: Point, indices: &[u16]) -> Result<Layout, FontFault>
        requires p { IsNearBy (2 ^ 33) p }
        requires sp { IsNearBy (2 ^ 33) sp }
        requires few { length indices.now ≤ 65535 }
        ensures ok { IfOk result (λ l. layout self.now p sp indices.now ≡ Ok (layout_of l)) }
        ensures near { (n m : ℕ) → 3 * n + 2 ^ 25 ≤ m → IsNearBy n p → IsNearBy n sp → AreWithin n self.now.cells → IfOk result (λ l. All (IsPieceNearBy m) l.pieces) }
        ensures end { (n m : ℕ) → n + 2 ^ 24 ≤ m → IsNearBy n p → IfOk result (λ l. IsNearBy m l.end) }
        ensures line { IfOk result (λ l. l.end.y ≡ p.y) }
        ensures refused { IfErr result (λ f. IfRefused f (λ n. layout self.now p sp indices.now ≡ Err n)) }
    {
        if !has_all(self, indices) {
            return Err(FontFault::Refused(15));
        }
        match laid_out(self, p, sp, indices) {
            Ok(layout) => Ok(layout),
            Err(Memory) => Err(FontFault::Memory),
        }
    }
}
