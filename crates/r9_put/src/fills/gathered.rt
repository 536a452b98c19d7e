//! Pixels that are gathered before a window goes or moves.

ghost use Rattle.std.specs.Prelude.{◌≡◌, ◌^◌, ◌<◌, ◌≤◌, ℕ, false, length, slice_index, IfNone, IfSome, IsTrue, if◌then◌else◌};
ghost use Rattle.r9_geom.specs.declared.Point.{Point as Spot};
ghost use Rattle.r9_geom.specs.Geometry.{area_of, holds, IsOrdered, IsRectNear};
ghost use Rattle.r9_plane.specs.Pixels.{along, number_of};
ghost use Rattle.r9_restack.specs.Giving.{IsSupply};

use r9_geom::{Point, Rect, distance};
use r9_restack::{Source, Supply};

/// Pixels of a rectangle, row by row, and 0 outside.
#[derive(Clone, Copy)]
pub struct Picture<'a> {
    r: Rect,
    raws: &'a [u32],
    ghost near: { IsRectNear r },
    ghost ordered: { IsOrdered r },
    ghost enough: { area_of r ≤ length raws.now },
    ghost countable: { area_of r < 2 ^ 63 },
}

impl<'a> Picture<'a> {
    ghost use Rattle.r9_put.specs.fills.Gathered.{pictured};

    /// The pixels of a rectangle, from the first one on.
    pub fn new(r: Rect, raws: &'a [u32]) -> Self
        requires near { IsRectNear r }
        requires ordered { IsOrdered r }
        requires enough { area_of r ≤ length raws.now }
        ensures { (p : Spot) → pictured result p ≡ (if holds r p then slice_index raws.now (number_of r p) else 0) }
    {
        Picture { r, raws }
    }

    // The number of the pixel so many columns to the right of a point, where that is in the rectangle.
    fn number(&self, q: Point, columns: usize) -> Option<usize>
        ensures inside { IfSome result (λ number. IsTrue (holds self.now.r (along q columns))) }
        ensures value { IfSome result (λ number. number ≡ number_of self.now.r (along q columns)) }
        ensures within { IfSome result (λ number. number < length self.now.raws.now) }
        ensures outside { IfNone result (holds self.now.r (along q columns) ≡ false) }
    {
        let r = self.r;
        if q.y < r.min.y || r.max.y <= q.y || r.max.x <= q.x {
            return None;
        }
        let edge = distance(q.x, r.max.x);
        let width = r.width();
        let passed = columns as u64;
        if edge <= passed || width < edge - passed {
            return None;
        }
        let row = distance(r.min.y, q.y) as usize;
        let column = (width - (edge - passed)) as usize;
        Some(row * width as usize + column)
    }

    // The pixel there, and 0 where that is outside.
    fn pixel(&self, q: Point, columns: usize) -> u32
        ensures { result ≡ pictured self.now (along q columns) }
    {
        match self.number(q, columns) {
            Some(number) => self.raws[number],
            None => 0,
        }
    }

    // So many pixels side by side, from a point to the right, where all are in the rectangle.
    fn run(&self, q: Point, count: usize) -> Option<&[u32]>
        requires { 0 < count }
        ensures len { IfSome result (λ run. length run.now ≡ count) }
        ensures pixels { IfSome result (λ run. (k : ℕ) → k < count → slice_index run.now k ≡ pictured self.now (along q k)) }
    {
        let first = self.number(q, 0)?;
        let last = self.number(q, count - 1)?;
        Some(&self.raws[first..last + 1])
    }

    // The pixels of a rectangle, where they are all in that of the picture.
    fn rows(&self, r: &Rect) -> Supply<'a>
        ensures { IsSupply result (pictured self.now) r.now }
    {
        if r.is_empty() || !r.inside(&self.r) {
            return Supply::Untold;
        }
        let width = self.r.width() as usize;
        let row = distance(self.r.min.y, r.min.y) as usize;
        let column = distance(self.r.min.x, r.min.x) as usize;
        Supply::Rows {
            raws: self.raws,
            first: row * width + column,
            width,
        }
    }

    // Pixels side by side, from a point to the right, one after the other.
    fn each_pixel(&self, q: Point, raws: &mut [u32])
        ensures { (k : ℕ) → k < length raws.old → slice_index raws.new k ≡ pictured self.now (along q k) }
    {
        for k in 0..raws.len() {
            raws[k] = self.pixel(q, k);
        }
    }

    // Pixels side by side, from a point to the right: those of a row of the rectangle are copied whole.
    fn row(&self, q: Point, raws: &mut [u32])
        ensures { (k : ℕ) → k < length raws.old → slice_index raws.new k ≡ pictured self.now (along q k) }
    {
        if raws.is_empty() {
            return;
        }
        match self.run(q, raws.len()) {
            Some(run) => raws.copy_from_slice(run),
            None => self.each_pixel(q, raws),
        }
    }
}

/// Pixels side by side: those of a picture, or one raw pixel everywhere.
#[derive(Clone, Copy)]
pub enum Content<'a> {
    Shown(Picture<'a>),
    Plain(u32),
}

impl Content<'_> {
    ghost use Rattle.r9_put.specs.fills.Content.{content};

    // The pixels of a rectangle.
    fn supply(&self, r: &Rect) -> Supply<'_>
        ensures { IsSupply result (content self.now) r.now }
    {
        match self {
            Content::Shown(picture) => picture.rows(r),
            Content::Plain(raw) => Supply::Plain(*raw),
        }
    }

    // Pixels side by side, from a point to the right.
    fn row(&self, x: Point, raws: &mut [u32])
        ensures { (k : ℕ) → k < length raws.old → slice_index raws.new k ≡ content self.now (along x k) }
    {
        match self {
            Content::Shown(picture) => picture.row(x, raws),
            Content::Plain(raw) => raws.fill(*raw),
        }
    }
}

/// The pixels of a window, and those that fill what becomes bare.
#[derive(Clone, Copy)]
pub struct Gathered<'a> {
    pub given: Content<'a>,
    pub fill: Content<'a>,
}

impl Source for Gathered<'_> {
    ghost use Rattle.r9_put.specs.fills.Content.{content};

    ghost given = { λ gathered. content gathered.given };

    ghost fill = { λ gathered. content gathered.fill };

    fn give(&self, x: Point, raws: &mut [u32]) {
        self.given.row(x, raws);
    }

    fn fills(&self, q: Point, raws: &mut [u32]) {
        self.fill.row(q, raws);
    }

    fn given_in(&self, r: &Rect) -> Supply<'_> {
        self.given.supply(r)
    }

    fn fill_in(&self, r: &Rect) -> Supply<'_> {
        self.fill.supply(r)
    }
}
