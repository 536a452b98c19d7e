//! Sets of points of the plane, each kept as disjoint rectangles.
#![tactic(auto)]

ghost use Rattle.std.specs.Prelude.{◌≡◌, ◌+◌, ◌&&◌, ◌||◌, if◌then◌else◌, map, not, false, All, IfOk, List, OnErr, OnOk};
ghost use Rattle.r9_geom.specs.declared.Point.{Point as Spot};
ghost use Rattle.r9_geom.specs.declared.Rect.{Rect as Rectangle};
ghost use Rattle.r9_geom.specs.Geometry.{holds, is_empty, meet};
ghost use Rattle.r9_region.specs.Region.{covers, how_many_hold, AreDisjoint};

use r9_geom::{Point, Rect};
use r9_memory::Memory;
use std::alloc::Global;
use std::marker::Model;

/// A set of points that rectangles cover. It is kept as disjoint rectangles, none of them empty, in no promised order.
#[derive(Drop)]
pub struct Region {
    alloc: Global,
    parts: Vec<Rect>,
}

impl Model for Region {
    ghost Value = { List Rectangle };

    ghost view = { λ region. region.parts.items };

    ghost invariant = { λ region. AreDisjoint region.parts.items };
}

impl Region {
    /// The points of a rectangle.
    pub fn of(alloc: Global, r: Rect) -> Result<Self, Memory>
        ensures { IfOk result (λ region. (p : Spot) → covers region p ≡ holds r p) }
    {
        let mut parts = Vec::new(alloc);
        if !r.is_empty() {
            parts.push(r)?;
        }
        Ok(Region { alloc, parts })
    }

    /// Adds the points of a rectangle.
    pub fn add(&mut self, r: Rect) -> Result<(), Memory>
        ensures points { OnOk result ((p : Spot) → covers self.new p ≡ (covers self.old p || holds r p)) }
        ensures err { OnErr result (self.new ≡ self.old) }
    {
        let mut parts = outside(self.alloc, &self.parts, &r)?;
        push_solid(&mut parts, &[r])?;
        self.parts = parts;
        Ok(())
    }

    /// Takes the points of a rectangle out.
    pub fn cut(&mut self, r: Rect) -> Result<(), Memory>
        ensures points { OnOk result ((p : Spot) → covers self.new p ≡ (covers self.old p && not (holds r p))) }
        ensures err { OnErr result (self.new ≡ self.old) }
    {
        self.parts = outside(self.alloc, &self.parts, &r)?;
        Ok(())
    }

    /// Keeps only the points of a rectangle. It takes no memory.
    pub fn within(&mut self, r: Rect)
        ensures { (p : Spot) → covers self.new p ≡ (covers self.old p && holds r p) }
    {
        narrow(&mut self.parts, &r);
        self.parts.retain(|part| !part.is_empty());
    }

    /// Whether a point is in the set.
    pub fn holds(&self, p: Point) -> bool
        ensures { result ≡ covers self.now p }
    {
        self.parts.iter().any(|part| part.holds(p))
    }

    /// The rectangles: each point of the set is in exactly one of them, no other point is in any, and none is empty.
    pub fn parts(&self) -> &[Rect]
        ensures value { result.now ≡ self.now }
        ensures once { (p : Spot) → how_many_hold result.now p ≡ (if covers self.now p then 1 else 0) }
        ensures solid { All (λ part. is_empty part ≡ false) result.now }
    {
        &self.parts
    }
}

// The points of the rectangles outside another one, each as often as before.
fn outside(alloc: Global, parts: &[Rect], r: &Rect) -> Result<Vec<Rect>, Memory>
    ensures points { IfOk result (λ left. (p : Spot) → how_many_hold left.items p ≡ (if holds r.now p then 0 else how_many_hold parts.now p)) }
    ensures solid { IfOk result (λ left. All (λ part. is_empty part ≡ false) left.items) }
{
    let mut left = Vec::with_capacity(alloc, parts.len())?;
    for part in parts {
        let pieces = part.minus(r);
        push_solid(&mut left, &pieces.part[..usize::from(pieces.count)])?;
    }
    Ok(left)
}

// Adds those of the rectangles that are not empty.
fn push_solid(out: &mut Vec<Rect>, pieces: &[Rect]) -> Result<(), Memory>
    ensures points { OnOk result ((p : Spot) → how_many_hold out.new.items p ≡ how_many_hold out.old.items p + how_many_hold pieces.now p) }
    ensures solid { OnOk result (All (λ part. is_empty part ≡ false) out.old.items → All (λ part. is_empty part ≡ false) out.new.items) }
{
    for piece in pieces {
        if !piece.is_empty() {
            out.push(*piece)?;
        }
    }
    Ok(())
}

// Leaves of each rectangle what is in another one.
fn narrow(parts: &mut Vec<Rect>, r: &Rect)
    ensures { parts.new.items ≡ map (λ part. meet part r.now) parts.old.items }
{
    for part in parts.iter_mut() {
        *part = part.meet(r);
    }
}
