//! Pixels read and written by rows, where they are kept.

ghost use Rattle.std.specs.Prelude.{◌≡◌, ◌≢◌, ◌+◌, ◌^◌, ◌<◌, ◌≤◌, ℕ, Bool, true, length, slice_index, IsTrue, Option, Some};
ghost use Rattle.r9_geom.specs.declared.Point.{Point as Spot};
ghost use Rattle.r9_geom.specs.Geometry.{area_of, carried, holds, strip, IsNear, IsOrdered, IsRectNear};
ghost use Rattle.r9_plane.specs.Blocks.{number_in, HasRows};
ghost use Rattle.r9_plane.specs.Pixels.{along};
ghost use Rattle.model_forest.specs.World.{image_at, parent_of, IsLive};
ghost use Rattle.model_forest.specs.View as view;
ghost use Rattle.model_kept.specs.Keeping.{keeping, own, Place};
ghost use Rattle.r9_locate.specs.locate.Forms.{bits_in, Form, HasBits};
ghost use Rattle.r9_locate.specs.locate.Table.{shape};
ghost use Rattle.r9_locate.specs.watched.Moments.{Moment};

use super::lists::Lists;
use super::runs::along;
use model_forest::Window;
use r9_geom::{Point, Rect};
use r9_marks::steps::Steps;
use std::sync::ledger::Ledger;

/// Pixels by the image that keeps them, and the point of it.
pub trait Pixels {
    // The pixel at a place.
    ghost kept: { Self → Place → ℕ };
    // Whether there is such a place.
    ghost has: { Self → Place → Bool };
    // What each image has for its pixels.
    ghost forms: { Self → ℕ → Option Form };
    // How much room is spare for places.
    ghost spare: { Self → ℕ };
    // What each image with a plane was at the moment that proofs look back to.
    ghost moment: { Self → ℕ → Option Moment };
    // How many pixels have been written.
    ghost writes: { Self → ℕ };

    /// Reads pixels that an image keeps side by side.
    fn read(&self, i: u32, from: Point, raws: &mut [u32])
        requires { (k : ℕ) → k < length raws.old → has self.now (own i (along from k)) ≡ true }
        ensures pixels { (k : ℕ) → k < length raws.old → slice_index raws.new k ≡ kept self.now (own i (along from k)) }
        ensures below { (k : ℕ) → k < length raws.old → slice_index raws.new k < 2 ^ bits_in (forms self.now) i };

    /// Writes pixels that an image keeps side by side, a step for each.
    fn write<L: Ledger>(&mut self, i: u32, at: Point, raws: &[u32], steps: &mut Steps<L>)
        requires has { (k : ℕ) → k < length raws.now → has self.old (own i (along at k)) ≡ true }
        requires below { (k : ℕ) → k < length raws.now → slice_index raws.now k < 2 ^ bits_in (forms self.old) i }
        ensures at { (k : ℕ) → k < length raws.now → kept self.new (own i (along at k)) ≡ slice_index raws.now k }
        ensures others { (place : Place) → ((k : ℕ) → k < length raws.now → place ≢ own i (along at k)) → kept self.new place ≡ kept self.old place }
        ensures has { has self.new ≡ has self.old }
        ensures forms { forms self.new ≡ forms self.old }
        ensures moment { moment self.new ≡ moment self.old }
        ensures spare { spare self.new ≡ spare self.old }
        ensures steps { steps.new ≡ steps.old + length raws.now }
        ensures writes { writes self.new + steps.old ≡ writes self.old + steps.new };

    /// Copies pixels side by side from where one image keeps them to where another one does, whose pixels have as many bits, a
    /// step for each.
    fn carry<L: Ledger>(
        &mut self,
        from: u32,
        at: Point,
        to: u32,
        p: Point,
        n: usize,
        steps: &mut Steps<L>,
    )
        requires apart { from ≢ to }
        requires had { (k : ℕ) → k < n → has self.old (own from (along at k)) ≡ true }
        requires has { (k : ℕ) → k < n → has self.old (own to (along p k)) ≡ true }
        requires bits { bits_in (forms self.old) from ≡ bits_in (forms self.old) to }
        ensures at { (k : ℕ) → k < n → kept self.new (own to (along p k)) ≡ kept self.old (own from (along at k)) }
        ensures others { (place : Place) → ((k : ℕ) → k < n → place ≢ own to (along p k)) → kept self.new place ≡ kept self.old place }
        ensures has { has self.new ≡ has self.old }
        ensures forms { forms self.new ≡ forms self.old }
        ensures moment { moment self.new ≡ moment self.old }
        ensures spare { spare self.new ≡ spare self.old }
        ensures steps { steps.new ≡ steps.old + n }
        ensures writes { writes self.new + steps.old ≡ writes self.old + steps.new };

    /// Reads the pixels of a rectangle that an image keeps among rows of so many: the first one comes to number `first`.
    fn read_block(&self, i: u32, r: &Rect, raws: &mut [u32], first: usize, width: usize)
        requires near { IsRectNear r.now }
        requires ordered { IsOrdered r.now }
        requires has { (p : Spot) → IsTrue (holds r.now p) → has self.now (own i p) ≡ true }
        requires rows { HasRows r.now first width (length raws.old) }
        ensures pixels { (p : Spot) → IsTrue (holds r.now p) → slice_index raws.new (number_in r.now first width p) ≡ kept self.now (own i p) }
        ensures others { (n : ℕ) → ((p : Spot) → IsTrue (holds r.now p) → n ≢ number_in r.now first width p) → slice_index raws.new n ≡ slice_index raws.old n };

    /// Writes the pixels of a rectangle that an image keeps, which stand among rows of so many, a step for each.
    fn write_block<L: Ledger>(
        &mut self,
        i: u32,
        r: &Rect,
        raws: &[u32],
        first: usize,
        width: usize,
        steps: &mut Steps<L>,
    )
        requires near { IsRectNear r.now }
        requires ordered { IsOrdered r.now }
        requires has { (p : Spot) → IsTrue (holds r.now p) → has self.old (own i p) ≡ true }
        requires rows { HasRows r.now first width (length raws.now) }
        requires below { (p : Spot) → IsTrue (holds r.now p) → slice_index raws.now (number_in r.now first width p) < 2 ^ bits_in (forms self.old) i }
        ensures at { (p : Spot) → IsTrue (holds r.now p) → kept self.new (own i p) ≡ slice_index raws.now (number_in r.now first width p) }
        ensures others { (place : Place) → ((p : Spot) → IsTrue (holds r.now p) → place ≢ own i p) → kept self.new place ≡ kept self.old place }
        ensures has { has self.new ≡ has self.old }
        ensures forms { forms self.new ≡ forms self.old }
        ensures moment { moment self.new ≡ moment self.old }
        ensures spare { spare self.new ≡ spare self.old }
        ensures steps { steps.new ≡ steps.old + area_of r.now }
        ensures writes { writes self.new + steps.old ≡ writes self.old + steps.new };

    /// Writes one raw pixel at all points of a rectangle that an image keeps, a step for each.
    fn fill_block<L: Ledger>(&mut self, i: u32, r: &Rect, raw: u32, steps: &mut Steps<L>)
        requires near { IsRectNear r.now }
        requires ordered { IsOrdered r.now }
        requires has { (p : Spot) → IsTrue (holds r.now p) → has self.old (own i p) ≡ true }
        requires below { raw < 2 ^ bits_in (forms self.old) i }
        ensures at { (p : Spot) → IsTrue (holds r.now p) → kept self.new (own i p) ≡ raw }
        ensures others { (place : Place) → ((p : Spot) → IsTrue (holds r.now p) → place ≢ own i p) → kept self.new place ≡ kept self.old place }
        ensures has { has self.new ≡ has self.old }
        ensures forms { forms self.new ≡ forms self.old }
        ensures moment { moment self.new ≡ moment self.old }
        ensures spare { spare self.new ≡ spare self.old }
        ensures steps { steps.new ≡ steps.old + area_of r.now }
        ensures writes { writes self.new + steps.old ≡ writes self.old + steps.new };

    /// Copies the pixels of a rectangle from where one image keeps them to where another one does from a point on, whose pixels
    /// have as many bits, a step for each.
    fn carry_block<L: Ledger>(
        &mut self,
        from: u32,
        r: &Rect,
        to: u32,
        p: Point,
        steps: &mut Steps<L>,
    )
        requires apart { from ≢ to }
        requires near { IsRectNear r.now }
        requires ordered { IsOrdered r.now }
        requires had { (q : Spot) → IsTrue (holds r.now q) → has self.old (own from q) ≡ true }
        requires has { (q : Spot) → IsTrue (holds r.now q) → has self.old (own to (carried q r.now.min p)) ≡ true }
        requires bits { bits_in (forms self.old) from ≡ bits_in (forms self.old) to }
        ensures at { (q : Spot) → IsTrue (holds r.now q) → kept self.new (own to (carried q r.now.min p)) ≡ kept self.old (own from q) }
        ensures others { (place : Place) → ((q : Spot) → IsTrue (holds r.now q) → place ≢ own to (carried q r.now.min p)) → kept self.new place ≡ kept self.old place }
        ensures has { has self.new ≡ has self.old }
        ensures forms { forms self.new ≡ forms self.old }
        ensures moment { moment self.new ≡ moment self.old }
        ensures spare { spare self.new ≡ spare self.old }
        ensures steps { steps.new ≡ steps.old + area_of r.now }
        ensures writes { writes self.new + steps.old ≡ writes self.old + steps.new };
}

/// The point of a window that stands at a point of the image below it.
pub fn inward(lists: &Lists, w: &Window, q: Point) -> Point
    requires live { IsLive (shape lists.now) w.now.image }
    requires place { IsNear w.now.place.min }
    requires point { IsNear q }
    ensures { result ≡ view.inward (shape lists.now) w.now q }
{
    q.carried(w.place.min, lists.get(w.image).r.min)
}

/// Reads what an image shows side by side, from where it is kept.
pub fn read_view<P: Pixels>(lists: &Lists, pixels: &P, i: u32, from: Point, raws: &mut [u32])
    requires live { IsLive (shape lists.now) i }
    requires near { IsNear from }
    requires width { length raws.old ≤ 2 ^ 40 }
    requires inside { (p : Spot) → IsTrue (holds (strip from (length raws.old)) p) → IsTrue (holds (image_at (shape lists.now) i).r p) }
    requires has { (k : ℕ) → k < length raws.old → P.has pixels.now (keeping (shape lists.now) i (along from k)) ≡ true }
    requires bits { HasBits (shape lists.now) (P.forms pixels.now) }
    ensures below { (k : ℕ) → k < length raws.old → slice_index raws.new k < 2 ^ bits_in (P.forms pixels.now) i }
    ensures pixels { (k : ℕ) → k < length raws.old → slice_index raws.new k ≡ P.kept pixels.now (keeping (shape lists.now) i (along from k)) }
{
    let mut done = 0;
    while done < raws.len() {
        let run = lists.locate(i, along(from, done), raws.len() - done);
        pixels.read(run.image, run.at, &mut raws[done..done + run.len]);
        done += run.len;
    }
}

/// Writes what an image shows side by side, where it is kept, a step for each pixel.
pub fn write_view<P: Pixels, L: Ledger>(
    lists: &Lists,
    pixels: &mut P,
    i: u32,
    at: Point,
    raws: &[u32],
    steps: &mut Steps<L>,
)
    requires live { IsLive (shape lists.now) i }
    requires near { IsNear at }
    requires width { length raws.now ≤ 2 ^ 40 }
    requires inside { (p : Spot) → IsTrue (holds (strip at (length raws.now)) p) → IsTrue (holds (image_at (shape lists.now) i).r p) }
    requires has { (k : ℕ) → k < length raws.now → P.has pixels.old (keeping (shape lists.now) i (along at k)) ≡ true }
    requires bits { HasBits (shape lists.now) (P.forms pixels.old) }
    requires below { (k : ℕ) → k < length raws.now → slice_index raws.now k < 2 ^ bits_in (P.forms pixels.old) i }
    ensures at { (k : ℕ) → k < length raws.now → P.kept pixels.new (keeping (shape lists.now) i (along at k)) ≡ slice_index raws.now k }
    ensures others { (place : Place) → ((k : ℕ) → k < length raws.now → place ≢ keeping (shape lists.now) i (along at k)) → P.kept pixels.new place ≡ P.kept pixels.old place }
    ensures has { P.has pixels.new ≡ P.has pixels.old }
    ensures forms { P.forms pixels.new ≡ P.forms pixels.old }
    ensures moment { P.moment pixels.new ≡ P.moment pixels.old }
    ensures spare { P.spare pixels.new ≡ P.spare pixels.old }
    ensures steps { steps.new ≡ steps.old + length raws.now }
    ensures writes { P.writes pixels.new + steps.old ≡ P.writes pixels.old + steps.new }
{
    let mut done = 0;
    while done < raws.len() {
        let run = lists.locate(i, along(at, done), raws.len() - done);
        pixels.write(run.image, run.at, &raws[done..done + run.len], steps);
        done += run.len;
    }
}

/// Copies what an image shows side by side to where a window on it keeps its own pixels, a step for each.
pub fn save_view<P: Pixels, L: Ledger>(
    lists: &Lists,
    pixels: &mut P,
    i: u32,
    from: Point,
    to: u32,
    p: Point,
    n: usize,
    steps: &mut Steps<L>,
)
    requires live { IsLive (shape lists.now) i }
    requires stands { parent_of (shape lists.now) to ≡ Some i }
    requires from { IsNear from }
    requires near { IsNear p }
    requires width { n ≤ 2 ^ 40 }
    requires inside { (q : Spot) → IsTrue (holds (strip from n) q) → IsTrue (holds (image_at (shape lists.now) i).r q) }
    requires had { (k : ℕ) → k < n → P.has pixels.old (keeping (shape lists.now) i (along from k)) ≡ true }
    requires has { (k : ℕ) → k < n → P.has pixels.old (own to (along p k)) ≡ true }
    requires bits { HasBits (shape lists.now) (P.forms pixels.old) }
    ensures at { (k : ℕ) → k < n → P.kept pixels.new (own to (along p k)) ≡ P.kept pixels.old (keeping (shape lists.now) i (along from k)) }
    ensures others { (place : Place) → ((k : ℕ) → k < n → place ≢ own to (along p k)) → P.kept pixels.new place ≡ P.kept pixels.old place }
    ensures has { P.has pixels.new ≡ P.has pixels.old }
    ensures forms { P.forms pixels.new ≡ P.forms pixels.old }
    ensures moment { P.moment pixels.new ≡ P.moment pixels.old }
    ensures spare { P.spare pixels.new ≡ P.spare pixels.old }
    ensures steps { steps.new ≡ steps.old + n }
    ensures writes { P.writes pixels.new + steps.old ≡ P.writes pixels.old + steps.new }
{
    let mut done = 0;
    while done < n {
        let run = lists.locate(i, along(from, done), n - done);
        let there = along(p, done);
        pixels.carry(run.image, run.at, to, there, run.len, steps);
        done += run.len;
    }
}

/// Copies own pixels of a window side by side to where the image on which it stands shows points side by side, a step for each.
pub fn show_own<P: Pixels, L: Ledger>(
    lists: &Lists,
    pixels: &mut P,
    from: u32,
    at: Point,
    i: u32,
    p: Point,
    n: usize,
    steps: &mut Steps<L>,
)
    requires live { IsLive (shape lists.now) i }
    requires stands { parent_of (shape lists.now) from ≡ Some i }
    requires from { IsNear at }
    requires near { IsNear p }
    requires width { n ≤ 2 ^ 40 }
    requires inside { (q : Spot) → IsTrue (holds (strip p n) q) → IsTrue (holds (image_at (shape lists.now) i).r q) }
    requires had { (k : ℕ) → k < n → P.has pixels.old (own from (along at k)) ≡ true }
    requires has { (k : ℕ) → k < n → P.has pixels.old (keeping (shape lists.now) i (along p k)) ≡ true }
    requires bits { HasBits (shape lists.now) (P.forms pixels.old) }
    ensures at { (k : ℕ) → k < n → P.kept pixels.new (keeping (shape lists.now) i (along p k)) ≡ P.kept pixels.old (own from (along at k)) }
    ensures others { (place : Place) → ((k : ℕ) → k < n → place ≢ keeping (shape lists.now) i (along p k)) → P.kept pixels.new place ≡ P.kept pixels.old place }
    ensures has { P.has pixels.new ≡ P.has pixels.old }
    ensures forms { P.forms pixels.new ≡ P.forms pixels.old }
    ensures moment { P.moment pixels.new ≡ P.moment pixels.old }
    ensures spare { P.spare pixels.new ≡ P.spare pixels.old }
    ensures steps { steps.new ≡ steps.old + n }
    ensures writes { P.writes pixels.new + steps.old ≡ P.writes pixels.old + steps.new }
{
    let mut done = 0;
    while done < n {
        let run = lists.locate(i, along(p, done), n - done);
        let here = along(at, done);
        pixels.carry(from, here, run.image, run.at, run.len, steps);
        done += run.len;
    }
}
