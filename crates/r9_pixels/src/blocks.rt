//! Rectangles of pixels where they are kept.

ghost use Rattle.std.specs.Prelude.{◌≡◌, ◌≢◌, ◌^◌, ◌<◌, ◌≤◌, ◌+◌, ◌+ℤ◌, ℕ, pos, Some, false, true, length, option_map, slice_index, vec_len, IsTrue};
ghost use Rattle.r9_geom.specs.declared.Point.{Point as Spot};
ghost use Rattle.r9_geom.specs.Geometry.{area_of, holds, HasPoints, IsNear, IsOrdered, IsRectNear};
ghost use Rattle.r9_plane.specs.Blocks.{number_in, HasRows};
ghost use Rattle.model_kept.specs.Keeping.{own, Place};
ghost use Rattle.r9_locate.specs.locate.Forms.{bits_in};
ghost use Rattle.r9_pixels.specs.declared.own.Extent.{Extent as Size};
ghost use Rattle.r9_pixels.specs.declared.own.Own.TheVariants.{Hidden};
ghost use Rattle.r9_pixels.specs.Owns.{own_at};

use super::counted::Area;
use super::keeping::KeptPixels;
use super::own::{Extent, Own};
use r9_geom::{Point, Rect};
use r9_marks::steps::Steps;
use std::sync::ledger::Ledger;

// The point so many rows down.
fn down(p: Point, rows: u64) -> Point
    requires near { IsNear p }
    requires rows { rows ≤ 2 ^ 41 }
    ensures { result ≡ record { x = p.x; y = p.y +ℤ pos rows } }
{
    Point {
        x: p.x,
        y: p.y + rows as i64,
    }
}

impl KeptPixels {
    ghost use Rattle.r9_pixels.specs.Carried.{CanCarryBlock, IsCarriedBlock};
    ghost use Rattle.r9_pixels.specs.Kept.{form_at, has_place, kept_at, moment, spare_in, writes};

    // Reads the pixels of a rectangle from what an image keeps them in.
    fn get_block(
        &self,
        keeper: &Own,
        i: u32,
        r: &Rect,
        raws: &mut [u32],
        first: usize,
        width: usize,
    )
        requires is { own_at self.now.owns.items i ≡ Some keeper.now }
        requires near { IsRectNear r.now }
        requires ordered { IsOrdered r.now }
        requires some { HasPoints r.now }
        requires has { (p : Spot) → IsTrue (holds r.now p) → has_place self.now (own i p) ≡ true }
        requires rows { HasRows r.now first width (length raws.old) }
        ensures pixels { (p : Spot) → IsTrue (holds r.now p) → slice_index raws.new (number_in r.now first width p) ≡ kept_at self.now (own i p) }
        ensures others { (n : ℕ) → ((p : Spot) → IsTrue (holds r.now p) → n ≢ number_in r.now first width p) → slice_index raws.new n ≡ slice_index raws.old n }
    {
        match keeper {
            Own::Whole(watched) => watched.plane.get_block(r, raws, first, width),
            Own::Hidden(extent) => {
                self.cells
                    .read_block(i as usize, &extent.r, r, raws, first, width);
            }
        }
    }

    /// Reads the pixels of a rectangle that an image keeps among rows of so many.
    pub(crate) fn load_block(&self, i: u32, r: &Rect, raws: &mut [u32], first: usize, width: usize)
        requires live { i < vec_len self.now.owns }
        requires near { IsRectNear r.now }
        requires ordered { IsOrdered r.now }
        requires some { HasPoints r.now }
        requires has { (p : Spot) → IsTrue (holds r.now p) → has_place self.now (own i p) ≡ true }
        requires rows { HasRows r.now first width (length raws.old) }
        ensures pixels { (p : Spot) → IsTrue (holds r.now p) → slice_index raws.new (number_in r.now first width p) ≡ kept_at self.now (own i p) }
        ensures others { (n : ℕ) → ((p : Spot) → IsTrue (holds r.now p) → n ≢ number_in r.now first width p) → slice_index raws.new n ≡ slice_index raws.old n }
    {
        match &self.owns[i as usize] {
            Some(keeper) => self.get_block(keeper, i, r, raws, first, width),
            None => unreachable!(),
        }
    }

    // Writes the pixels of a rectangle in the plane of an image.
    fn write_plane<L: Ledger>(
        &mut self,
        i: u32,
        r: &Rect,
        raws: &[u32],
        first: usize,
        width: usize,
        steps: &mut Steps<L>,
    )
        requires live { i < vec_len self.old.owns }
        requires whole { (extent : Size) → own_at self.old.owns.items i ≢ Some (Hidden extent) }
        requires near { IsRectNear r.now }
        requires ordered { IsOrdered r.now }
        requires some { HasPoints r.now }
        requires has { (p : Spot) → IsTrue (holds r.now p) → has_place self.old (own i p) ≡ true }
        requires rows { HasRows r.now first width (length raws.now) }
        requires below { (p : Spot) → IsTrue (holds r.now p) → slice_index raws.now (number_in r.now first width p) < 2 ^ bits_in (form_at self.old) i }
        ensures at { (p : Spot) → IsTrue (holds r.now p) → kept_at self.new (own i p) ≡ slice_index raws.now (number_in r.now first width p) }
        ensures others { (place : Place) → ((p : Spot) → IsTrue (holds r.now p) → place ≢ own i p) → kept_at self.new place ≡ kept_at self.old place }
        ensures has { has_place self.new ≡ has_place self.old }
        ensures forms { form_at self.new ≡ form_at self.old }
        ensures moment { moment self.new ≡ moment self.old }
        ensures spare { spare_in self.new ≡ spare_in self.old }
        ensures steps { steps.new ≡ steps.old + area_of r.now }
        ensures writes { writes self.new + steps.old ≡ writes self.old + steps.new }
    {
        self.writes = self.writes.and(&Area(*r));
        if let Some(Own::Whole(watched)) = &mut self.owns[i as usize] {
            watched.put_block(r, raws, first, width, steps);
        }
    }

    // Writes the pixels of a rectangle in the tiles of a window.
    fn write_tiles<L: Ledger>(
        &mut self,
        i: u32,
        extent: &Extent,
        r: &Rect,
        raws: &[u32],
        first: usize,
        width: usize,
        steps: &mut Steps<L>,
    )
        requires hidden { own_at self.old.owns.items i ≡ Some (Hidden extent.now) }
        requires near { IsRectNear r.now }
        requires ordered { IsOrdered r.now }
        requires some { HasPoints r.now }
        requires has { (p : Spot) → IsTrue (holds r.now p) → has_place self.old (own i p) ≡ true }
        requires rows { HasRows r.now first width (length raws.now) }
        requires below { (p : Spot) → IsTrue (holds r.now p) → slice_index raws.now (number_in r.now first width p) < 2 ^ bits_in (form_at self.old) i }
        ensures at { (p : Spot) → IsTrue (holds r.now p) → kept_at self.new (own i p) ≡ slice_index raws.now (number_in r.now first width p) }
        ensures others { (place : Place) → ((p : Spot) → IsTrue (holds r.now p) → place ≢ own i p) → kept_at self.new place ≡ kept_at self.old place }
        ensures has { has_place self.new ≡ has_place self.old }
        ensures forms { form_at self.new ≡ form_at self.old }
        ensures moment { moment self.new ≡ moment self.old }
        ensures spare { spare_in self.new ≡ spare_in self.old }
        ensures steps { steps.new ≡ steps.old + area_of r.now }
        ensures writes { writes self.new + steps.old ≡ writes self.old + steps.new }
    {
        self.writes = self.writes.and(&Area(*r));
        self.cells
            .write_block(i as usize, &extent.r, r, raws, first, width, steps);
    }

    /// Writes the pixels of a rectangle where an image keeps them, which stand among rows of so many.
    pub(crate) fn put_block<L: Ledger>(
        &mut self,
        i: u32,
        r: &Rect,
        raws: &[u32],
        first: usize,
        width: usize,
        steps: &mut Steps<L>,
    )
        requires live { i < vec_len self.old.owns }
        requires near { IsRectNear r.now }
        requires ordered { IsOrdered r.now }
        requires some { HasPoints r.now }
        requires has { (p : Spot) → IsTrue (holds r.now p) → has_place self.old (own i p) ≡ true }
        requires rows { HasRows r.now first width (length raws.now) }
        requires below { (p : Spot) → IsTrue (holds r.now p) → slice_index raws.now (number_in r.now first width p) < 2 ^ bits_in (form_at self.old) i }
        ensures at { (p : Spot) → IsTrue (holds r.now p) → kept_at self.new (own i p) ≡ slice_index raws.now (number_in r.now first width p) }
        ensures others { (place : Place) → ((p : Spot) → IsTrue (holds r.now p) → place ≢ own i p) → kept_at self.new place ≡ kept_at self.old place }
        ensures has { has_place self.new ≡ has_place self.old }
        ensures forms { form_at self.new ≡ form_at self.old }
        ensures moment { moment self.new ≡ moment self.old }
        ensures spare { spare_in self.new ≡ spare_in self.old }
        ensures steps { steps.new ≡ steps.old + area_of r.now }
        ensures writes { writes self.new + steps.old ≡ writes self.old + steps.new }
    {
        match self.extent(i) {
            Some(extent) => self.write_tiles(i, &extent, r, raws, first, width, steps),
            None => self.write_plane(i, r, raws, first, width, steps),
        }
    }

    // Writes one raw pixel at all points of a rectangle in the plane of an image.
    fn paint_plane<L: Ledger>(&mut self, i: u32, r: &Rect, raw: u32, steps: &mut Steps<L>)
        requires live { i < vec_len self.old.owns }
        requires whole { (extent : Size) → own_at self.old.owns.items i ≢ Some (Hidden extent) }
        requires near { IsRectNear r.now }
        requires ordered { IsOrdered r.now }
        requires some { HasPoints r.now }
        requires has { (p : Spot) → IsTrue (holds r.now p) → has_place self.old (own i p) ≡ true }
        requires below { raw < 2 ^ bits_in (form_at self.old) i }
        ensures at { (p : Spot) → IsTrue (holds r.now p) → kept_at self.new (own i p) ≡ raw }
        ensures others { (place : Place) → ((p : Spot) → IsTrue (holds r.now p) → place ≢ own i p) → kept_at self.new place ≡ kept_at self.old place }
        ensures has { has_place self.new ≡ has_place self.old }
        ensures forms { form_at self.new ≡ form_at self.old }
        ensures moment { moment self.new ≡ moment self.old }
        ensures spare { spare_in self.new ≡ spare_in self.old }
        ensures steps { steps.new ≡ steps.old + area_of r.now }
        ensures writes { writes self.new + steps.old ≡ writes self.old + steps.new }
    {
        self.writes = self.writes.and(&Area(*r));
        if let Some(Own::Whole(watched)) = &mut self.owns[i as usize] {
            watched.fill(*r, raw, steps);
        }
    }

    // Writes one raw pixel at all points of a rectangle in the tiles of a window.
    fn paint_tiles<L: Ledger>(
        &mut self,
        i: u32,
        extent: &Extent,
        r: &Rect,
        raw: u32,
        steps: &mut Steps<L>,
    )
        requires hidden { own_at self.old.owns.items i ≡ Some (Hidden extent.now) }
        requires near { IsRectNear r.now }
        requires ordered { IsOrdered r.now }
        requires some { HasPoints r.now }
        requires has { (p : Spot) → IsTrue (holds r.now p) → has_place self.old (own i p) ≡ true }
        requires below { raw < 2 ^ bits_in (form_at self.old) i }
        ensures at { (p : Spot) → IsTrue (holds r.now p) → kept_at self.new (own i p) ≡ raw }
        ensures others { (place : Place) → ((p : Spot) → IsTrue (holds r.now p) → place ≢ own i p) → kept_at self.new place ≡ kept_at self.old place }
        ensures has { has_place self.new ≡ has_place self.old }
        ensures forms { form_at self.new ≡ form_at self.old }
        ensures moment { moment self.new ≡ moment self.old }
        ensures spare { spare_in self.new ≡ spare_in self.old }
        ensures steps { steps.new ≡ steps.old + area_of r.now }
        ensures writes { writes self.new + steps.old ≡ writes self.old + steps.new }
    {
        self.writes = self.writes.and(&Area(*r));
        self.cells.fill_block(i as usize, &extent.r, r, raw, steps);
    }

    /// Writes one raw pixel at all points of a rectangle where an image keeps them.
    pub(crate) fn paint_block<L: Ledger>(
        &mut self,
        i: u32,
        r: &Rect,
        raw: u32,
        steps: &mut Steps<L>,
    )
        requires live { i < vec_len self.old.owns }
        requires near { IsRectNear r.now }
        requires ordered { IsOrdered r.now }
        requires some { HasPoints r.now }
        requires has { (p : Spot) → IsTrue (holds r.now p) → has_place self.old (own i p) ≡ true }
        requires below { raw < 2 ^ bits_in (form_at self.old) i }
        ensures at { (p : Spot) → IsTrue (holds r.now p) → kept_at self.new (own i p) ≡ raw }
        ensures others { (place : Place) → ((p : Spot) → IsTrue (holds r.now p) → place ≢ own i p) → kept_at self.new place ≡ kept_at self.old place }
        ensures has { has_place self.new ≡ has_place self.old }
        ensures forms { form_at self.new ≡ form_at self.old }
        ensures moment { moment self.new ≡ moment self.old }
        ensures spare { spare_in self.new ≡ spare_in self.old }
        ensures steps { steps.new ≡ steps.old + area_of r.now }
        ensures writes { writes self.new + steps.old ≡ writes self.old + steps.new }
    {
        match self.extent(i) {
            Some(extent) => self.paint_tiles(i, &extent, r, raw, steps),
            None => self.paint_plane(i, r, raw, steps),
        }
    }

    // Copies the pixels of a rectangle from the plane of an image to the tiles of a window.
    fn hide_block<L: Ledger>(
        &mut self,
        from: u32,
        r: &Rect,
        to: u32,
        extent: &Extent,
        p: Point,
        steps: &mut Steps<L>,
    )
        requires whole { option_map (λ form. form.is_window) (form_at self.old from) ≡ Some false }
        requires hidden { own_at self.old.owns.items to ≡ Some (Hidden extent.now) }
        requires near { IsRectNear r.now }
        requires ordered { IsOrdered r.now }
        requires some { HasPoints r.now }
        requires point { IsNear p }
        requires can { CanCarryBlock self.old from r.now to p }
        ensures carried { IsCarriedBlock self.old self.new from r.now to p }
        ensures steps { steps.new ≡ steps.old + area_of r.now }
        ensures writes { writes self.new + steps.old ≡ writes self.old + steps.new }
    {
        self.writes = self.writes.and(&Area(*r));
        match &self.owns[from as usize] {
            Some(keeper) => match keeper {
                Own::Whole(watched) => {
                    let there = r.at_min(p);
                    let plane = &watched.plane;
                    self.cells
                        .hide_block(to as usize, &extent.r, &there, plane, r.min, steps);
                }
                Own::Hidden(_) => unreachable!(),
            },
            None => unreachable!(),
        }
    }

    // Copies the pixels of a rectangle from the tiles of a window to the plane of an image.
    fn show_block<L: Ledger>(
        &mut self,
        from: u32,
        r: &Rect,
        extent: &Extent,
        to: u32,
        p: Point,
        steps: &mut Steps<L>,
    )
        requires whole { option_map (λ form. form.is_window) (form_at self.old to) ≡ Some false }
        requires hidden { own_at self.old.owns.items from ≡ Some (Hidden extent.now) }
        requires near { IsRectNear r.now }
        requires ordered { IsOrdered r.now }
        requires some { HasPoints r.now }
        requires point { IsNear p }
        requires can { CanCarryBlock self.old from r.now to p }
        ensures carried { IsCarriedBlock self.old self.new from r.now to p }
        ensures steps { steps.new ≡ steps.old + area_of r.now }
        ensures writes { writes self.new + steps.old ≡ writes self.old + steps.new }
    {
        self.writes = self.writes.and(&Area(*r));
        match &mut self.owns[to as usize] {
            Some(Own::Whole(watched)) => {
                self.cells
                    .show_block(from as usize, &extent.r, r, watched, p, steps);
            }
            _ => unreachable!(),
        }
    }

    // Copies the pixels of a rectangle row by row.
    fn copy_rows<L: Ledger>(&mut self, from: u32, r: &Rect, to: u32, p: Point, steps: &mut Steps<L>)
        requires near { IsRectNear r.now }
        requires ordered { IsOrdered r.now }
        requires some { HasPoints r.now }
        requires point { IsNear p }
        requires can { CanCarryBlock self.old from r.now to p }
        ensures carried { IsCarriedBlock self.old self.new from r.now to p }
        ensures steps { steps.new ≡ steps.old + area_of r.now }
        ensures writes { writes self.new + steps.old ≡ writes self.old + steps.new }
    {
        let columns = r.width() as usize;
        for row in 0..r.height() {
            self.copy(from, r.point_at(0, row), to, down(p, row), columns, steps);
        }
    }

    // Copies the pixels of a rectangle to the tiles of a window.
    fn block_to_tiles<L: Ledger>(
        &mut self,
        from: u32,
        r: &Rect,
        to: u32,
        extent: &Extent,
        p: Point,
        steps: &mut Steps<L>,
    )
        requires hidden { own_at self.old.owns.items to ≡ Some (Hidden extent.now) }
        requires near { IsRectNear r.now }
        requires ordered { IsOrdered r.now }
        requires some { HasPoints r.now }
        requires point { IsNear p }
        requires can { CanCarryBlock self.old from r.now to p }
        ensures carried { IsCarriedBlock self.old self.new from r.now to p }
        ensures steps { steps.new ≡ steps.old + area_of r.now }
        ensures writes { writes self.new + steps.old ≡ writes self.old + steps.new }
    {
        match self.extent(from) {
            Some(_) => self.copy_rows(from, r, to, p, steps),
            None => self.hide_block(from, r, to, extent, p, steps),
        }
    }

    // Copies the pixels of a rectangle to the plane of an image.
    fn block_to_plane<L: Ledger>(
        &mut self,
        from: u32,
        r: &Rect,
        to: u32,
        p: Point,
        steps: &mut Steps<L>,
    )
        requires whole { (size : Size) → own_at self.old.owns.items to ≢ Some (Hidden size) }
        requires near { IsRectNear r.now }
        requires ordered { IsOrdered r.now }
        requires some { HasPoints r.now }
        requires point { IsNear p }
        requires can { CanCarryBlock self.old from r.now to p }
        ensures carried { IsCarriedBlock self.old self.new from r.now to p }
        ensures steps { steps.new ≡ steps.old + area_of r.now }
        ensures writes { writes self.new + steps.old ≡ writes self.old + steps.new }
    {
        match self.extent(from) {
            Some(extent) => self.show_block(from, r, &extent, to, p, steps),
            None => self.copy_rows(from, r, to, p, steps),
        }
    }

    /// Copies the pixels of a rectangle from where one image keeps them to where another one does.
    pub(crate) fn copy_block<L: Ledger>(
        &mut self,
        from: u32,
        r: &Rect,
        to: u32,
        p: Point,
        steps: &mut Steps<L>,
    )
        requires near { IsRectNear r.now }
        requires ordered { IsOrdered r.now }
        requires some { HasPoints r.now }
        requires point { IsNear p }
        requires can { CanCarryBlock self.old from r.now to p }
        ensures carried { IsCarriedBlock self.old self.new from r.now to p }
        ensures steps { steps.new ≡ steps.old + area_of r.now }
        ensures writes { writes self.new + steps.old ≡ writes self.old + steps.new }
    {
        match self.extent(to) {
            Some(extent) => self.block_to_tiles(from, r, to, &extent, p, steps),
            None => self.block_to_plane(from, r, to, p, steps),
        }
    }
}
