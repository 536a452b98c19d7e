ghost use Rattle.std.specs.Prelude.{◌≡◌, ◌+◌, ◌*◌, ◌/◌, ◌^◌, ◌<◌, ◌≤◌, ◌||◌, ℕ, false, IsTrue, IfOk, length, slice_index, vec_len, if◌then◌else◌};
ghost use Rattle.r9_geom.specs.Geometry.{IsOrdered, IsRectNear, width, height};
ghost use Rattle.model_pixel.specs.Channels as channels;
ghost use Rattle.r9_marks.specs.marks.Cells.{cells_over, count_cells};
ghost use Rattle.r9_marks.specs.marks.Marks as table;
ghost use Rattle.model_pixel.specs.Rows.{byte_at, raw_at, row_bytes, row_pixel, row_place, rows_of};

mod blocks;
mod moving;
mod over;
mod reading;

use super::counting::count_points;
use super::packed;
use super::rows::{columns_before, row_bytes, rows_above, skip, strip};
use super::runs::{self, MOST_PIXELS};
use r9_geom::{Point, Rect, distance};
use r9_kern::Chan;
use r9_marks::marks::{Marks, cells_over};
use r9_marks::steps::Steps;
use r9_memory::Memory;
use std::alloc::Global;
use std::sync::ledger::Ledger;

/// Packed pixels of a rectangle, row by row with no gap, and a mark for each cell of 32 by 32 of them, counted from its min.
#[derive(Drop)]
pub struct Plane {
    r: Rect,
    chan: Chan,
    depth: u32,
    columns: usize,
    bytes: Vec<u8>,
    marks: Marks,
    ghost near: { IsRectNear r },
    ghost ordered: { IsOrdered r },
    ghost depth_is: { depth ≡ channels.depth chan },
    ghost lawful: { IsTrue (channels.is_depth depth) },
    ghost columns_are: { columns ≡ width r },
    ghost countable: { height r * width r < 2 ^ 63 },
    ghost room: { height r * width r * depth ≤ 8 * vec_len bytes },
    ghost across: { table.across_of marks ≡ cells_over (width r) },
    ghost down: { table.down_of marks ≡ cells_over (height r) },
}

impl Plane {
    ghost use Rattle.r9_geom.specs.declared.Point.{Point};
    ghost use Rattle.r9_geom.specs.Geometry.{area_of, at_min, carried, distance, holds, is_point, strip, IsNear};
    ghost use Rattle.r9_plane.specs.Pixels.{along, chan_of, number_of, pixel_at, rect_of};
    ghost use Rattle.r9_plane.specs.Marks.{mark_count, marked_at, marks_of, touched};

    // The number of a point's pixel.
    fn number(&self, p: Point) -> usize
        requires { IsTrue (holds (rect_of self.now) p) }
        ensures value { result ≡ number_of (rect_of self.now) p }
        ensures within { (result + 1) * self.now.depth ≤ 8 * vec_len self.now.bytes }
    {
        let row = distance(self.r.min.y, p.y) as usize;
        let column = distance(self.r.min.x, p.x) as usize;
        row * self.columns + column
    }

    /// The raw pixel at a point.
    pub fn get(&self, p: Point) -> u32
        requires { IsTrue (holds (rect_of self.now) p) }
        ensures value { result ≡ pixel_at self.now p }
        ensures range { result < 2 ^ channels.depth (chan_of self.now) }
    {
        packed::read(&self.bytes, self.depth, self.number(p))
    }

    /// Writes the raw pixel at a point, a step.
    pub fn put<L: Ledger>(&mut self, p: Point, raw: u32, steps: &mut Steps<L>)
        requires inside { IsTrue (holds (rect_of self.old) p) }
        requires raw { raw < 2 ^ channels.depth (chan_of self.old) }
        ensures rect { rect_of self.new ≡ rect_of self.old }
        ensures chan { chan_of self.new ≡ chan_of self.old }
        ensures pixels { (q : Point) → pixel_at self.new q ≡ (if is_point q p then raw else pixel_at self.old q) }
        ensures marks { (column row : ℕ) → marked_at self.new column row ≡ (touched (rect_of self.old) (strip p 1) column row || marked_at self.old column row) }
        ensures few { mark_count self.new ≤ mark_count self.old + 1 }
        ensures steps { steps.new ≡ steps.old + 1 }
    {
        let number = self.number(p);
        packed::write(&mut self.bytes, self.depth, number, raw);
        self.mark(&strip(p, 1), steps);
    }

    // Marks the cells of the points of a rectangle, which are written, and takes a step for each point.
    fn mark<L: Ledger>(&mut self, r: &Rect, steps: &mut Steps<L>)
        requires ordered { IsOrdered r.now }
        requires inside { (p : Point) → IsTrue (holds r.now p) → IsTrue (holds (rect_of self.old) p) }
        ensures rect { rect_of self.new ≡ rect_of self.old }
        ensures chan { chan_of self.new ≡ chan_of self.old }
        ensures pixels { pixel_at self.new ≡ pixel_at self.old }
        ensures marks { (column row : ℕ) → marked_at self.new column row ≡ (touched (rect_of self.old) r.now column row || marked_at self.old column row) }
        ensures few { mark_count self.new ≤ mark_count self.old + area_of r.now }
        ensures steps { steps.new ≡ steps.old + area_of r.now }
    {
        if r.is_empty() {
            return;
        }
        count_points(r, steps);
        let column = columns_before(&self.r, r.min);
        let row = rows_above(&self.r, r.min);
        let width = r.width() as usize;
        let height = r.height() as usize;
        self.marks.mark(column, row, width, height);
    }

    /// Whether a cell is marked: whether a point of it was written since the marks were cleared.
    pub fn marked(&self, column: u32, row: u32) -> bool
        requires column { column < cells_over (width (rect_of self.now)) }
        requires row { row < cells_over (height (rect_of self.now)) }
        ensures { result ≡ marked_at self.now column row }
    {
        self.marks.is_marked(column as usize, row as usize)
    }

    /// How many cells are marked is how many of its cells are, and each pixel has no more bits than its channels. Nothing is done.
    pub fn sound(&self)
        ensures counted { mark_count self.now ≡ count_cells (cells_over (width (rect_of self.now))) (cells_over (height (rect_of self.now))) (marked_at self.now) }
        ensures fits { (p : Point) → pixel_at self.now p < 2 ^ channels.depth (chan_of self.now) }
    {
        self.marks.sound();
        packed::sound(&self.bytes, self.depth);
    }

    /// Clears all marks.
    pub fn clear_marks(&mut self)
        ensures rect { rect_of self.new ≡ rect_of self.old }
        ensures chan { chan_of self.new ≡ chan_of self.old }
        ensures pixels { pixel_at self.new ≡ pixel_at self.old }
        ensures marks { (column row : ℕ) → marked_at self.new column row ≡ false }
        ensures count { mark_count self.new ≡ 0 }
    {
        self.marks.clear();
    }

    /// A plane with one raw pixel everywhere.
    pub fn new(alloc: Global, r: Rect, chan: Chan, raw: u32) -> Result<Plane, Memory>
        requires near { IsRectNear r }
        requires ordered { IsOrdered r }
        requires raw { raw < 2 ^ channels.depth chan }
        ensures rect { IfOk result (λ plane. rect_of plane ≡ r) }
        ensures chan { IfOk result (λ plane. chan_of plane ≡ chan) }
        ensures pixels { IfOk result (λ plane. (p : Point) → pixel_at plane p ≡ (if holds r p then raw else 0)) }
        ensures marks { IfOk result (λ plane. (column row : ℕ) → marked_at plane column row ≡ false) }
        ensures count { IfOk result (λ plane. mark_count plane ≡ 0) }
    {
        let depth = chan.depth();
        let columns = r.width() as usize;
        let count = match columns.checked_mul(r.height() as usize) {
            Some(count) if count < MOST_PIXELS => count,
            _ => return Err(Memory),
        };
        let bytes = runs::filled(alloc, depth, count, raw)?;
        let marks = Marks::new(alloc, cells_over(columns), cells_over(r.height() as usize))?;
        Ok(Plane {
            r,
            chan,
            depth,
            columns,
            bytes,
            marks,
        })
    }

    /// The rectangle.
    pub fn rect(&self) -> Rect
        ensures value { result ≡ rect_of self.now }
        ensures near { IsRectNear result }
        ensures ordered { IsOrdered result }
    {
        self.r
    }

    /// The channels of its pixels.
    pub fn chan(&self) -> Chan
        ensures { result ≡ chan_of self.now }
    {
        self.chan
    }

    /// The raw pixels side by side, from a point to the right: as many as there is room for in `raws`.
    pub fn get_row(&self, at: Point, raws: &mut [u32])
        requires inside { (p : Point) → IsTrue (holds (strip at (length raws.old)) p) → IsTrue (holds (rect_of self.now) p) }
        ensures pixels { (i : ℕ) → i < length raws.old → slice_index raws.new i ≡ pixel_at self.now (along at i) }
        ensures range { (i : ℕ) → i < length raws.old → slice_index raws.new i < 2 ^ channels.depth (chan_of self.now) }
    {
        if raws.is_empty() {
            return;
        }
        let first = self.number(at);
        runs::read_run(&self.bytes, self.depth, first, raws);
    }

    /// Writes raw pixels side by side, from a point to the right, a step for each.
    pub fn put_row<L: Ledger>(&mut self, at: Point, raws: &[u32], steps: &mut Steps<L>)
        requires inside { (p : Point) → IsTrue (holds (strip at (length raws.now)) p) → IsTrue (holds (rect_of self.old) p) }
        requires raws { (i : ℕ) → i < length raws.now → slice_index raws.now i < 2 ^ channels.depth (chan_of self.old) }
        ensures rect { rect_of self.new ≡ rect_of self.old }
        ensures chan { chan_of self.new ≡ chan_of self.old }
        ensures pixels { (q : Point) → pixel_at self.new q ≡ (if holds (strip at (length raws.now)) q then slice_index raws.now (distance at.x q.x) else pixel_at self.old q) }
        ensures marks { (column row : ℕ) → marked_at self.new column row ≡ (touched (rect_of self.old) (strip at (length raws.now)) column row || marked_at self.old column row) }
        ensures few { mark_count self.new ≤ mark_count self.old + length raws.now }
        ensures steps { steps.new ≡ steps.old + length raws.now }
    {
        if raws.is_empty() {
            return;
        }
        let first = self.number(at);
        runs::write_run(&mut self.bytes, self.depth, first, raws);
        self.mark(&strip(at, raws.len()), steps);
    }

    /// Writes one raw pixel at all points of a rectangle, a step for each.
    pub fn fill<L: Ledger>(&mut self, r: Rect, raw: u32, steps: &mut Steps<L>)
        requires near { IsRectNear r }
        requires ordered { IsOrdered r }
        requires inside { (p : Point) → IsTrue (holds r p) → IsTrue (holds (rect_of self.old) p) }
        requires raw { raw < 2 ^ channels.depth (chan_of self.old) }
        ensures rect { rect_of self.new ≡ rect_of self.old }
        ensures chan { chan_of self.new ≡ chan_of self.old }
        ensures pixels { (q : Point) → pixel_at self.new q ≡ (if holds r q then raw else pixel_at self.old q) }
        ensures marks { (column row : ℕ) → marked_at self.new column row ≡ (touched (rect_of self.old) r column row || marked_at self.old column row) }
        ensures few { mark_count self.new ≤ mark_count self.old + area_of r }
        ensures steps { steps.new ≡ steps.old + area_of r }
    {
        self.fill_block(&r, raw);
        self.mark(&r, steps);
    }

    // Takes pixels side by side from another plane of the same channels, there from `from` and here from `at` to the right.
    fn copy_row(&mut self, at: Point, width: usize, other: &Plane, from: Point)
        requires inside { (p : Point) → IsTrue (holds (strip at width) p) → IsTrue (holds (rect_of self.old) p) }
        requires inside_from { (p : Point) → IsTrue (holds (strip from width) p) → IsTrue (holds (rect_of other.now) p) }
        requires chan { chan_of other.now ≡ chan_of self.old }
        ensures rect { rect_of self.new ≡ rect_of self.old }
        ensures chan { chan_of self.new ≡ chan_of self.old }
        ensures pixels { (q : Point) → pixel_at self.new q ≡ (if holds (strip at width) q then pixel_at other.now (along from (distance at.x q.x)) else pixel_at self.old q) }
        ensures marks { marks_of self.new ≡ marks_of self.old }
    {
        if width == 0 {
            return;
        }
        let first = self.number(at);
        let from_first = other.number(from);
        runs::copy_run(
            &mut self.bytes,
            self.depth,
            first,
            width,
            &other.bytes,
            from_first,
        );
    }

    /// Takes the pixels of a rectangle from another plane of the same channels, where its min stands at `from`, a step for each.
    pub fn copy<L: Ledger>(&mut self, r: Rect, other: &Plane, from: Point, steps: &mut Steps<L>)
        requires near { IsRectNear r }
        requires ordered { IsOrdered r }
        requires near_from { IsNear from }
        requires inside { (p : Point) → IsTrue (holds r p) → IsTrue (holds (rect_of self.old) p) }
        requires inside_from { (p : Point) → IsTrue (holds r p) → IsTrue (holds (rect_of other.now) (carried p r.min from)) }
        requires chan { chan_of other.now ≡ chan_of self.old }
        ensures rect { rect_of self.new ≡ rect_of self.old }
        ensures chan { chan_of self.new ≡ chan_of self.old }
        ensures pixels { (q : Point) → pixel_at self.new q ≡ (if holds r q then pixel_at other.now (carried q r.min from) else pixel_at self.old q) }
        ensures marks { (column row : ℕ) → marked_at self.new column row ≡ (touched (rect_of self.old) r column row || marked_at self.old column row) }
        ensures few { mark_count self.new ≤ mark_count self.old + area_of r }
        ensures steps { steps.new ≡ steps.old + area_of r }
    {
        let width = r.width() as usize;
        for row in 0..r.height() {
            let at = r.point_at(0, row);
            self.copy_row(at, width, other, at.carried(r.min, from));
        }
        self.mark(&r, steps);
    }

    /// Gives the rectangle another min. Each pixel stays where it is in it, so that none is moved.
    pub fn shift(&mut self, min: Point)
        requires min { IsNear min }
        requires near { IsRectNear (at_min (rect_of self.old) min) }
        ensures rect { rect_of self.new ≡ at_min (rect_of self.old) min }
        ensures chan { chan_of self.new ≡ chan_of self.old }
        ensures pixels { (q : Point) → pixel_at self.new q ≡ pixel_at self.old (carried q min (rect_of self.old).min) }
        ensures marks { marks_of self.new ≡ marks_of self.old }
    {
        self.r = self.r.at_min(min);
    }

    // Writes the first pixels of a packed row, from a point to the right.
    fn load_row(&mut self, at: Point, width: usize, skip: usize, line: &[u8])
        requires inside { (p : Point) → IsTrue (holds (strip at width) p) → IsTrue (holds (rect_of self.old) p) }
        requires places { skip + width < 2 ^ 63 }
        requires line { (skip + width) * channels.depth (chan_of self.old) ≤ 8 * length line.now }
        ensures rect { rect_of self.new ≡ rect_of self.old }
        ensures chan { chan_of self.new ≡ chan_of self.old }
        ensures pixels { (q : Point) → pixel_at self.new q ≡ (if holds (strip at width) q then raw_at (channels.depth (chan_of self.old)) line.now (skip + distance at.x q.x) else pixel_at self.old q) }
        ensures marks { marks_of self.new ≡ marks_of self.old }
    {
        if width == 0 {
            return;
        }
        let first = self.number(at);
        runs::copy_run(&mut self.bytes, self.depth, first, width, line, skip);
    }

    /// Takes the pixels of a rectangle from its rows, a step for each. Bits outside it are not looked at.
    pub fn load<L: Ledger>(&mut self, r: Rect, rows: &[u8], steps: &mut Steps<L>)
        requires near { IsRectNear r }
        requires ordered { IsOrdered r }
        requires inside { (p : Point) → IsTrue (holds r p) → IsTrue (holds (rect_of self.old) p) }
        requires rows { length rows.now ≡ row_bytes r (channels.depth (chan_of self.old)) * height r }
        ensures rect { rect_of self.new ≡ rect_of self.old }
        ensures chan { chan_of self.new ≡ chan_of self.old }
        ensures pixels { (q : Point) → pixel_at self.new q ≡ (if holds r q then row_pixel r (channels.depth (chan_of self.old)) rows.now q else pixel_at self.old q) }
        ensures marks { (column row : ℕ) → marked_at self.new column row ≡ (touched (rect_of self.old) r column row || marked_at self.old column row) }
        ensures few { mark_count self.new ≤ mark_count self.old + area_of r }
        ensures steps { steps.new ≡ steps.old + area_of r }
    {
        let line_len = row_bytes(r, self.depth) as usize;
        let skip = skip(r, self.depth) as usize;
        let width = r.width() as usize;
        let mut at = r.min;
        for row in 0..r.height() {
            self.load_row(at, width, skip, &rows[row as usize * line_len..]);
            at.y += 1;
        }
        self.mark(&r, steps);
    }

    // One row of whole pixels, which leave no byte out.
    fn unload_whole(&self, r: &Rect, row: u64, line: &mut [u8])
        requires near { IsRectNear r.now }
        requires ordered { IsOrdered r.now }
        requires inside { (p : Point) → IsTrue (holds r.now p) → IsTrue (holds (rect_of self.now) p) }
        requires row { row < height r.now }
        requires line { length line.old ≡ row_bytes r.now (channels.depth (chan_of self.now)) }
        requires whole { 8 ≤ self.now.depth }
        ensures { (k : ℕ) → k < length line.old → slice_index line.new k ≡ byte_at (channels.depth (chan_of self.now)) (row_place r.now (channels.depth (chan_of self.now)) (pixel_at self.now) row) k }
    {
        let width = r.width() as usize;
        if width > 0 {
            let first = self.number(r.point_at(0, row));
            runs::copy_run(line, self.depth, 0, width, &self.bytes, first);
        }
    }

    // One row of pixels of any depth, with 0 beside them.
    fn unload_bits(&self, r: &Rect, row: u64, line: &mut [u8])
        requires near { IsRectNear r.now }
        requires ordered { IsOrdered r.now }
        requires inside { (p : Point) → IsTrue (holds r.now p) → IsTrue (holds (rect_of self.now) p) }
        requires row { row < height r.now }
        requires line { length line.old ≡ row_bytes r.now (channels.depth (chan_of self.now)) }
        ensures { (k : ℕ) → k < length line.old → slice_index line.new k ≡ byte_at (channels.depth (chan_of self.now)) (row_place r.now (channels.depth (chan_of self.now)) (pixel_at self.now) row) k }
    {
        line.fill(0);
        let width = r.width() as usize;
        if width > 0 {
            let first = self.number(r.point_at(0, row));
            let skip = skip(*r, self.depth) as usize;
            runs::copy_run(line, self.depth, skip, width, &self.bytes, first);
        }
    }

    // Writes one row of the pixels of a rectangle.
    fn unload_row(&self, r: &Rect, row: u64, line: &mut [u8])
        requires near { IsRectNear r.now }
        requires ordered { IsOrdered r.now }
        requires inside { (p : Point) → IsTrue (holds r.now p) → IsTrue (holds (rect_of self.now) p) }
        requires row { row < height r.now }
        requires line { length line.old ≡ row_bytes r.now (channels.depth (chan_of self.now)) }
        ensures { (k : ℕ) → k < length line.old → slice_index line.new k ≡ byte_at (channels.depth (chan_of self.now)) (row_place r.now (channels.depth (chan_of self.now)) (pixel_at self.now) row) k }
    {
        if self.depth < 8 {
            self.unload_bits(r, row, line);
        } else {
            self.unload_whole(r, row, line);
        }
    }

    // Writes the rows of the pixels of a rectangle. Bits outside it become 0.
    fn unload(&self, r: Rect, rows: &mut [u8])
        requires near { IsRectNear r }
        requires ordered { IsOrdered r }
        requires inside { (p : Point) → IsTrue (holds r p) → IsTrue (holds (rect_of self.now) p) }
        requires rows { length rows.old ≡ row_bytes r (channels.depth (chan_of self.now)) * height r }
        ensures { rows.new ≡ rows_of r (channels.depth (chan_of self.now)) (pixel_at self.now) }
    {
        let line_len = row_bytes(r, self.depth) as usize;
        for row in 0..r.height() {
            let start = row as usize * line_len;
            self.unload_row(&r, row, &mut rows[start..start + line_len]);
        }
    }
}
