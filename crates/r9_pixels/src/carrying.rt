//! Pixels copied from where one image keeps them to where another one does.

ghost use Rattle.std.specs.Prelude.{◌≡◌, ◌≢◌, ◌+◌, ◌<◌, ◌≤◌, ℕ, Some, false, length, option_map};
ghost use Rattle.r9_plane.specs.Pixels.{along};
ghost use Rattle.model_kept.specs.Keeping.{own, Place};
ghost use Rattle.r9_pixels.specs.declared.own.Extent.{Extent as Size};
ghost use Rattle.r9_pixels.specs.declared.own.Own.TheVariants.{Hidden};
ghost use Rattle.r9_pixels.specs.Owns.{own_at};

use super::counted::Row;
use super::keeping::KeptPixels;
use super::own::{Extent, Own};
use r9_geom::Point;
use r9_locate::locate::along;
use r9_marks::steps::Steps;
use std::sync::ledger::Ledger;

// How many pixels are copied at once between two planes, or between tiles.
const BLOCK: usize = 64;

impl KeptPixels {
    ghost use Rattle.r9_pixels.specs.Carried.{CanCarry, IsCarried};
    ghost use Rattle.r9_pixels.specs.Kept.{form_at, has_place, kept_at, moment, spare_in, writes};

    // Copies pixels side by side from the plane of an image to the tiles of a window.
    fn hide<L: Ledger>(
        &mut self,
        from: u32,
        at: Point,
        to: u32,
        extent: Extent,
        p: Point,
        n: usize,
        steps: &mut Steps<L>,
    )
        requires whole { option_map (λ form. form.is_window) (form_at self.old from) ≡ Some false }
        requires hidden { own_at self.old.owns.items to ≡ Some (Hidden extent) }
        requires can { CanCarry self.old from at to p n }
        ensures pixels { (k : ℕ) → k < n → kept_at self.new (own to (along p k)) ≡ kept_at self.old (own from (along at k)) }
        ensures others { (place : Place) → ((k : ℕ) → k < n → place ≢ own to (along p k)) → kept_at self.new place ≡ kept_at self.old place }
        ensures has { has_place self.new ≡ has_place self.old }
        ensures forms { form_at self.new ≡ form_at self.old }
        ensures moment { moment self.new ≡ moment self.old }
        ensures spare { spare_in self.new ≡ spare_in self.old }
        ensures steps { steps.new ≡ steps.old + n }
        ensures writes { writes self.new + steps.old ≡ writes self.old + steps.new }
    {
        self.writes = self.writes.and(&Row(n));
        match &self.owns[from as usize] {
            Some(keeper) => match keeper {
                Own::Whole(watched) => {
                    let plane = &watched.plane;
                    self.cells
                        .hide(to as usize, &extent.r, p, n, plane, at, steps);
                }
                Own::Hidden(_) => unreachable!(),
            },
            None => unreachable!(),
        }
    }

    // Copies pixels side by side from the tiles of a window to the plane of an image.
    fn show<L: Ledger>(
        &mut self,
        from: u32,
        extent: Extent,
        at: Point,
        to: u32,
        p: Point,
        n: usize,
        steps: &mut Steps<L>,
    )
        requires whole { option_map (λ form. form.is_window) (form_at self.old to) ≡ Some false }
        requires hidden { own_at self.old.owns.items from ≡ Some (Hidden extent) }
        requires can { CanCarry self.old from at to p n }
        ensures pixels { (k : ℕ) → k < n → kept_at self.new (own to (along p k)) ≡ kept_at self.old (own from (along at k)) }
        ensures others { (place : Place) → ((k : ℕ) → k < n → place ≢ own to (along p k)) → kept_at self.new place ≡ kept_at self.old place }
        ensures has { has_place self.new ≡ has_place self.old }
        ensures forms { form_at self.new ≡ form_at self.old }
        ensures moment { moment self.new ≡ moment self.old }
        ensures spare { spare_in self.new ≡ spare_in self.old }
        ensures steps { steps.new ≡ steps.old + n }
        ensures writes { writes self.new + steps.old ≡ writes self.old + steps.new }
    {
        self.writes = self.writes.and(&Row(n));
        match &mut self.owns[to as usize] {
            Some(Own::Whole(watched)) => {
                self.cells
                    .show(from as usize, &extent.r, at, n, watched, p, steps);
            }
            _ => unreachable!(),
        }
    }

    // Copies pixels side by side through room for them: as many as there is room for.
    fn copy_part<L: Ledger>(
        &mut self,
        from: u32,
        at: Point,
        to: u32,
        p: Point,
        raws: &mut [u32],
        steps: &mut Steps<L>,
    )
        requires some { 0 < length raws.old }
        requires can { CanCarry self.old from at to p (length raws.old) }
        ensures carried { IsCarried self.old self.new from at to p (length raws.old) }
        ensures steps { steps.new ≡ steps.old + length raws.old }
        ensures writes { writes self.new + steps.old ≡ writes self.old + steps.new }
    {
        self.load(from, at, raws);
        self.put(to, p, raws, steps);
    }

    // Copies pixels side by side, at most a block of them, through room for one.
    fn copy_through<L: Ledger>(
        &mut self,
        from: u32,
        at: Point,
        to: u32,
        p: Point,
        n: usize,
        room: &mut [u32; BLOCK],
        steps: &mut Steps<L>,
    )
        requires some { 0 < n }
        requires most { n ≤ BLOCK }
        requires can { CanCarry self.old from at to p n }
        ensures carried { IsCarried self.old self.new from at to p n }
        ensures steps { steps.new ≡ steps.old + n }
        ensures writes { writes self.new + steps.old ≡ writes self.old + steps.new }
    {
        self.copy_part(from, at, to, p, &mut room[..n], steps);
    }

    // Copies pixels side by side, a block at a time.
    fn copy_blocks<L: Ledger>(
        &mut self,
        from: u32,
        at: Point,
        to: u32,
        p: Point,
        n: usize,
        steps: &mut Steps<L>,
    )
        requires { CanCarry self.old from at to p n }
        ensures carried { IsCarried self.old self.new from at to p n }
        ensures steps { steps.new ≡ steps.old + n }
        ensures writes { writes self.new + steps.old ≡ writes self.old + steps.new }
    {
        let mut block = [0; BLOCK];
        let mut done = 0;
        while done < n {
            let size = (n - done).min(BLOCK);
            let here = along(at, done);
            let there = along(p, done);
            self.copy_through(from, here, to, there, size, &mut block, steps);
            done += size;
        }
    }

    // Copies pixels side by side to the tiles of a window.
    fn copy_to_tiles<L: Ledger>(
        &mut self,
        from: u32,
        at: Point,
        to: u32,
        extent: Extent,
        p: Point,
        n: usize,
        steps: &mut Steps<L>,
    )
        requires some { 0 < n }
        requires hidden { own_at self.old.owns.items to ≡ Some (Hidden extent) }
        requires can { CanCarry self.old from at to p n }
        ensures carried { IsCarried self.old self.new from at to p n }
        ensures steps { steps.new ≡ steps.old + n }
        ensures writes { writes self.new + steps.old ≡ writes self.old + steps.new }
    {
        match self.extent(from) {
            Some(_) => self.copy_blocks(from, at, to, p, n, steps),
            None => self.hide(from, at, to, extent, p, n, steps),
        }
    }

    // Copies pixels side by side to the plane of an image.
    fn copy_to_plane<L: Ledger>(
        &mut self,
        from: u32,
        at: Point,
        to: u32,
        p: Point,
        n: usize,
        steps: &mut Steps<L>,
    )
        requires some { 0 < n }
        requires whole { (size : Size) → own_at self.old.owns.items to ≢ Some (Hidden size) }
        requires can { CanCarry self.old from at to p n }
        ensures carried { IsCarried self.old self.new from at to p n }
        ensures steps { steps.new ≡ steps.old + n }
        ensures writes { writes self.new + steps.old ≡ writes self.old + steps.new }
    {
        match self.extent(from) {
            Some(extent) => self.show(from, extent, at, to, p, n, steps),
            None => self.copy_blocks(from, at, to, p, n, steps),
        }
    }

    /// Copies pixels side by side from where one image keeps them to where another one does.
    pub(crate) fn copy<L: Ledger>(
        &mut self,
        from: u32,
        at: Point,
        to: u32,
        p: Point,
        n: usize,
        steps: &mut Steps<L>,
    )
        requires { CanCarry self.old from at to p n }
        ensures carried { IsCarried self.old self.new from at to p n }
        ensures steps { steps.new ≡ steps.old + n }
        ensures writes { writes self.new + steps.old ≡ writes self.old + steps.new }
    {
        if n == 0 {
            return;
        }
        match self.extent(to) {
            Some(extent) => self.copy_to_tiles(from, at, to, extent, p, n, steps),
            None => self.copy_to_plane(from, at, to, p, n, steps),
        }
    }
}
