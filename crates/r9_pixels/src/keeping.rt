//! Rows of pixels where they are kept.

ghost use Rattle.std.specs.Prelude.{◌≡◌, ◌≢◌, ◌+◌, ◌^◌, ◌<◌, ℕ, true, false, Some, None, length, slice_index, vec_len};
ghost use Rattle.r9_plane.specs.Pixels.{along};
ghost use Rattle.model_kept.specs.Keeping.{own, Place};
ghost use Rattle.r9_pixels.specs.declared.own.Extent.{Extent as Size};
ghost use Rattle.r9_pixels.specs.declared.own.Own.TheVariants.{Hidden};
ghost use Rattle.r9_locate.specs.locate.Forms.{bits_in};
ghost use Rattle.r9_cells.specs.Cells.{all_rows};
ghost use Rattle.r9_pixels.specs.Owns.{own_at, AreFew, IsTabled, IsWithinBits};

use super::counted::Row;
use super::own::{Extent, Own};
use r9_cells::Cells;
use r9_geom::{Point, Rect};
use r9_locate::locate::Pixels;
use r9_locate::tally::Tally;
use r9_marks::steps::Steps;
use std::alloc::Global;
use std::sync::ledger::Ledger;

/// The pixels that images keep, by the number of the image.
#[derive(Drop)]
pub struct KeptPixels {
    pub(crate) owns: Vec<Option<Own>>,
    pub(crate) cells: Cells,
    // How many pixels have been written, for proofs alone.
    pub(crate) writes: Tally,
    ghost tabled: { IsTabled owns.items (all_rows cells) },
    ghost bounded: { IsWithinBits owns.items cells },
    // Since its moment no more cells of a plane were marked than pixels were written.
    ghost few: { AreFew writes.sum owns.items },
}

impl KeptPixels {
    ghost use Rattle.r9_pixels.specs.Kept.{form_at, has_place, kept_at, moment, room_of, spare_in, writes};

    /// No image, and room for none.
    pub fn new(alloc: Global) -> Self
        ensures places { (place : Place) → has_place result place ≡ false }
        ensures forms { (i : ℕ) → form_at result i ≡ None }
        ensures room { room_of result ≡ 0 }
        ensures moment { (i : ℕ) → moment result i ≡ None }
        ensures writes { writes result ≡ 0 }
    {
        KeptPixels {
            owns: Vec::new(alloc),
            cells: Cells::new(alloc),
            writes: Tally::none(),
        }
    }

    /// The rectangle and the channels of a window.
    pub(crate) fn extent(&self, i: u32) -> Option<Extent>
        requires { i < vec_len self.now.owns }
        ensures some { (extent : Size) → result ≡ Some extent → own_at self.now.owns.items i ≡ Some (Hidden extent) }
        ensures none { result ≡ None → (extent : Size) → own_at self.now.owns.items i ≢ Some (Hidden extent) }
    {
        match &self.owns[i as usize] {
            Some(Own::Hidden(extent)) => Some(*extent),
            _ => None,
        }
    }

    // Reads pixels side by side from what an image keeps them in.
    fn get(&self, keeper: &Own, i: u32, from: Point, raws: &mut [u32])
        requires is { own_at self.now.owns.items i ≡ Some keeper.now }
        requires has { (k : ℕ) → k < length raws.old → has_place self.now (own i (along from k)) ≡ true }
        ensures pixels { (k : ℕ) → k < length raws.old → slice_index raws.new k ≡ kept_at self.now (own i (along from k)) }
        ensures below { (k : ℕ) → k < length raws.old → slice_index raws.new k < 2 ^ bits_in (form_at self.now) i }
    {
        match keeper {
            Own::Whole(watched) => watched.plane.get_row(from, raws),
            Own::Hidden(extent) => self.cells.read(i as usize, &extent.r, from, raws),
        }
    }

    // Writes pixels side by side in the plane of an image.
    fn put_whole<L: Ledger>(&mut self, i: u32, at: Point, raws: &[u32], steps: &mut Steps<L>)
        requires live { i < vec_len self.old.owns }
        requires whole { (extent : Size) → own_at self.old.owns.items i ≢ Some (Hidden extent) }
        requires has { (k : ℕ) → k < length raws.now → has_place self.old (own i (along at k)) ≡ true }
        requires below { (k : ℕ) → k < length raws.now → slice_index raws.now k < 2 ^ bits_in (form_at self.old) i }
        ensures at { (k : ℕ) → k < length raws.now → kept_at self.new (own i (along at k)) ≡ slice_index raws.now k }
        ensures others { (place : Place) → ((k : ℕ) → k < length raws.now → place ≢ own i (along at k)) → kept_at self.new place ≡ kept_at self.old place }
        ensures has { has_place self.new ≡ has_place self.old }
        ensures forms { form_at self.new ≡ form_at self.old }
        ensures moment { moment self.new ≡ moment self.old }
        ensures spare { spare_in self.new ≡ spare_in self.old }
        ensures steps { steps.new ≡ steps.old + length raws.now }
        ensures writes { writes self.new + steps.old ≡ writes self.old + steps.new }
    {
        self.writes = self.writes.and(&Row(raws.len()));
        if let Some(Own::Whole(watched)) = &mut self.owns[i as usize] {
            watched.put_row(at, raws, steps);
        }
    }

    // Writes pixels side by side in the tiles of a window.
    fn put_hidden<L: Ledger>(
        &mut self,
        i: u32,
        extent: Extent,
        at: Point,
        raws: &[u32],
        steps: &mut Steps<L>,
    )
        requires hidden { own_at self.old.owns.items i ≡ Some (Hidden extent) }
        requires has { (k : ℕ) → k < length raws.now → has_place self.old (own i (along at k)) ≡ true }
        requires below { (k : ℕ) → k < length raws.now → slice_index raws.now k < 2 ^ bits_in (form_at self.old) i }
        ensures at { (k : ℕ) → k < length raws.now → kept_at self.new (own i (along at k)) ≡ slice_index raws.now k }
        ensures others { (place : Place) → ((k : ℕ) → k < length raws.now → place ≢ own i (along at k)) → kept_at self.new place ≡ kept_at self.old place }
        ensures has { has_place self.new ≡ has_place self.old }
        ensures forms { form_at self.new ≡ form_at self.old }
        ensures moment { moment self.new ≡ moment self.old }
        ensures spare { spare_in self.new ≡ spare_in self.old }
        ensures steps { steps.new ≡ steps.old + length raws.now }
        ensures writes { writes self.new + steps.old ≡ writes self.old + steps.new }
    {
        self.writes = self.writes.and(&Row(raws.len()));
        self.cells.write(i as usize, &extent.r, at, raws, steps);
    }

    /// Writes pixels side by side where an image keeps them.
    pub(crate) fn put<L: Ledger>(&mut self, i: u32, at: Point, raws: &[u32], steps: &mut Steps<L>)
        requires live { i < vec_len self.old.owns }
        requires has { (k : ℕ) → k < length raws.now → has_place self.old (own i (along at k)) ≡ true }
        requires below { (k : ℕ) → k < length raws.now → slice_index raws.now k < 2 ^ bits_in (form_at self.old) i }
        ensures at { (k : ℕ) → k < length raws.now → kept_at self.new (own i (along at k)) ≡ slice_index raws.now k }
        ensures others { (place : Place) → ((k : ℕ) → k < length raws.now → place ≢ own i (along at k)) → kept_at self.new place ≡ kept_at self.old place }
        ensures has { has_place self.new ≡ has_place self.old }
        ensures forms { form_at self.new ≡ form_at self.old }
        ensures moment { moment self.new ≡ moment self.old }
        ensures spare { spare_in self.new ≡ spare_in self.old }
        ensures steps { steps.new ≡ steps.old + length raws.now }
        ensures writes { writes self.new + steps.old ≡ writes self.old + steps.new }
    {
        match self.extent(i) {
            Some(extent) => self.put_hidden(i, extent, at, raws, steps),
            None => self.put_whole(i, at, raws, steps),
        }
    }
}

impl KeptPixels {
    ghost use Rattle.r9_pixels.specs.Kept.{form_at, has_place, kept_at};

    /// Reads pixels that an image keeps side by side.
    pub(crate) fn load(&self, i: u32, from: Point, raws: &mut [u32])
        requires { (k : ℕ) → k < length raws.old → has_place self.now (own i (along from k)) ≡ true }
        ensures pixels { (k : ℕ) → k < length raws.old → slice_index raws.new k ≡ kept_at self.now (own i (along from k)) }
        ensures below { (k : ℕ) → k < length raws.old → slice_index raws.new k < 2 ^ bits_in (form_at self.now) i }
    {
        if raws.is_empty() {
            return;
        }
        match &self.owns[i as usize] {
            Some(keeper) => self.get(keeper, i, from, raws),
            None => unreachable!(),
        }
    }
}

impl Pixels for KeptPixels {
    ghost use Rattle.r9_pixels.specs.Kept.{form_at, has_place, kept_at, moment, spare_in, writes};

    ghost kept = { kept_at };

    ghost has = { has_place };

    ghost forms = { form_at };

    ghost spare = { spare_in };

    ghost moment = { moment };

    ghost writes = { writes };

    fn read(&self, i: u32, from: Point, raws: &mut [u32]) {
        self.load(i, from, raws);
    }

    fn write<L: Ledger>(&mut self, i: u32, at: Point, raws: &[u32], steps: &mut Steps<L>) {
        if !raws.is_empty() {
            self.put(i, at, raws, steps);
        }
    }

    fn carry<L: Ledger>(
        &mut self,
        from: u32,
        at: Point,
        to: u32,
        p: Point,
        n: usize,
        steps: &mut Steps<L>,
    ) {
        self.copy(from, at, to, p, n, steps);
    }

    fn read_block(&self, i: u32, r: &Rect, raws: &mut [u32], first: usize, width: usize) {
        if !r.is_empty() {
            self.load_block(i, r, raws, first, width);
        }
    }

    fn write_block<L: Ledger>(
        &mut self,
        i: u32,
        r: &Rect,
        raws: &[u32],
        first: usize,
        width: usize,
        steps: &mut Steps<L>,
    ) {
        if !r.is_empty() {
            self.put_block(i, r, raws, first, width, steps);
        }
    }

    fn fill_block<L: Ledger>(&mut self, i: u32, r: &Rect, raw: u32, steps: &mut Steps<L>) {
        if !r.is_empty() {
            self.paint_block(i, r, raw, steps);
        }
    }

    fn carry_block<L: Ledger>(
        &mut self,
        from: u32,
        r: &Rect,
        to: u32,
        p: Point,
        steps: &mut Steps<L>,
    ) {
        if !r.is_empty() {
            self.copy_block(from, r, to, p, steps);
        }
    }
}
