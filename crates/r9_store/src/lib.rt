//! Tiles of 32 by 32 raw pixels, kept in one growing table.
#![tactic(auto)]

ghost use Rattle.std.specs.Prelude.{◌≡◌, ◌≢◌, ◌+◌, ◌<◌, ◌≤◌, ◌==◌, ◌&&◌, ◌||◌, ◌^◌, ℕ, false, if◌then◌else◌, length, max, not, replicate, slice_index, slice_set, vec_capacity, vec_len, ◌++◌, ◌∷◌, [], IsTrue, OnErr, OnOk};
ghost use Rattle.r9_geom.specs.declared.Point.{Point as Spot};
ghost use Rattle.r9_geom.specs.Geometry.{area_of, carried, distance, holds, is_point, strip, HasPoints, IsOrdered, IsRectNear};
ghost use Rattle.model_pixel.specs.Channels.{depth};
ghost use Rattle.r9_plane.specs.Blocks.{number_in, HasRows};
ghost use Rattle.r9_plane.specs.Pixels.{along, chan_of, pixel_at, rect_of};
ghost use Rattle.r9_store.specs.Tiles.{cell, held, is_held, pixel, place_of, spare};

use r9_geom::{Point, Rect, distance};
use r9_marks::steps::Steps;
use r9_memory::Memory;
use r9_plane::{Plane, copy_rows, count_points, fill_rows};
use std::alloc::Global;
use std::marker::Model;
use std::sync::ledger::Ledger;

/// The number of a tile.
#[derive(Clone, Copy, Debug, PartialEq, Eq)]
pub struct TileNo(usize);

impl Model for TileNo {
    ghost Value = { ℕ };

    ghost view = { λ t. t.0 };

    ghost inverse = { λ n. record { 0 = n } };
}

// How many pixels a tile has.
const PIXELS: usize = 1024;

/// How many tiles there are at most, held and spare together. Room for more counts as no memory.
pub const MOST_TILES: usize = 4_294_967_295;

/// Tiles, some of them held and the others spare. A tile that is taken is 0 everywhere.
#[derive(Drop)]
pub struct Store {
    // The pixels of all tiles that were ever held. What those of another one are is never seen.
    tiles: Vec<[u32; PIXELS]>,
    // Which of them are held.
    flags: Vec<bool>,
    // The numbers of the others, of which the last is taken first.
    given: Vec<usize>,
    // How many tiles may be held.
    room: usize,
}

impl Model for Store {
    ghost use Rattle.std.specs.Prelude.{vec_capacity};
    ghost use Rattle.r9_store.specs.Tiles.{Tiles, tiles_code};
    ghost use Rattle.r9_store.specs.Sound.{slots_of, HasRoom, IsSound};

    ghost Value = { Tiles };

    ghost coded = { tiles_code };

    ghost view = { λ store. record { slots = slots_of store.flags.items store.tiles.items; room = store.room } };

    ghost invariant = { λ store. IsSound store.flags.items store.tiles.items store.given.items store.room × HasRoom store.room (vec_capacity store.tiles) (vec_capacity store.flags) (vec_capacity store.given) };
}

impl Store {
    /// No tile held, and none spare.
    pub fn new(alloc: Global) -> Self
        ensures none { (t : ℕ) → is_held result t ≡ false }
        ensures held { held result ≡ 0 }
        ensures spare { spare result ≡ 0 }
    {
        Store {
            tiles: Vec::new(alloc),
            flags: Vec::new(alloc),
            given: Vec::new(alloc),
            room: 0,
        }
    }

    /// Makes room, so that at least so many tiles are spare.
    pub fn reserve(&mut self, tiles: usize) -> Result<(), Memory>
        ensures spare { OnOk result (spare self.new ≡ max (spare self.old) tiles) }
        ensures most { OnOk result (held self.old + tiles ≤ MOST_TILES) }
        ensures kept { self.new.slots ≡ self.old.slots }
        ensures err { OnErr result (self.new ≡ self.old) }
    {
        let held = self.held();
        if tiles > MOST_TILES - held {
            return Err(Memory);
        }
        let room = self.room.max(held + tiles);
        self.tiles.reserve(room - self.tiles.len())?;
        self.flags.reserve(room - self.flags.len())?;
        self.given.reserve(room - self.given.len())?;
        self.room = room;
        Ok(())
    }

    /// Takes a spare tile, which is 0 everywhere. It takes no memory.
    pub fn take(&mut self) -> TileNo
        requires { 0 < spare self.old }
        ensures free { is_held self.old result ≡ false }
        ensures taken { (u : ℕ) → is_held self.new u ≡ ((u == result) || is_held self.old u) }
        ensures blank { (p : Spot) → pixel self.new result p ≡ 0 }
        ensures pixels { (u : ℕ) (p : Spot) → pixel self.new u p ≡ pixel self.old u p }
        ensures held { held self.new ≡ held self.old + 1 }
        ensures spare { spare self.new + 1 ≡ spare self.old }
    {
        match self.given.pop() {
            Some(t) => {
                make_blank(&mut self.tiles[t]);
                self.flags[t] = true;
                TileNo(t)
            }
            None => {
                let t = self.tiles.len();
                push_blank(&mut self.tiles);
                self.flags.push_reserved(true);
                TileNo(t)
            }
        }
    }

    /// Gives a tile back, which is spare then. It takes no memory.
    pub fn give(&mut self, t: TileNo)
        requires { IsTrue (is_held self.old t) }
        ensures given { (u : ℕ) → is_held self.new u ≡ (not (u == t) && is_held self.old u) }
        ensures pixels { (u : ℕ) (p : Spot) → pixel self.new u p ≡ (if u == t then 0 else pixel self.old u p) }
        ensures held { held self.new + 1 ≡ held self.old }
        ensures spare { spare self.new ≡ spare self.old + 1 }
    {
        self.flags[t.0] = false;
        self.given.push_reserved(t.0);
    }

    /// The raw pixel of a tile at a point, counted from its upper left corner.
    pub fn get(&self, t: TileNo, p: Point) -> u32
        requires held { IsTrue (is_held self.now t) }
        requires inside { IsTrue (holds cell p) }
        ensures { result ≡ pixel self.now t p }
    {
        self.tiles[t.0][place_of(p)]
    }

    /// Puts a raw pixel into a tile at a point, counted from its upper left corner, a step, and changes nothing else.
    pub fn put<L: Ledger>(&mut self, t: TileNo, p: Point, raw: u32, steps: &mut Steps<L>)
        requires held { IsTrue (is_held self.old t) }
        requires inside { IsTrue (holds cell p) }
        ensures pixels { (u : ℕ) (q : Spot) → pixel self.new u q ≡ (if (u == t) && is_point q p then raw else pixel self.old u q) }
        ensures same { (u : ℕ) → is_held self.new u ≡ is_held self.old u }
        ensures held { held self.new ≡ held self.old }
        ensures spare { spare self.new ≡ spare self.old }
        ensures steps { steps.new ≡ steps.old + 1 }
    {
        put_at(&mut self.tiles[t.0], place_of(p), raw);
        steps.add(1);
    }

    /// The raw pixels side by side in a tile, from a point to the right: so many of them, as they are kept.
    pub fn row(&self, t: TileNo, at: Point, len: usize) -> &[u32]
        requires held { IsTrue (is_held self.now t) }
        requires inside { (p : Spot) → IsTrue (holds (strip at len) p) → IsTrue (holds cell p) }
        ensures len { length result.now ≡ len }
        ensures pixels { (p : Spot) → IsTrue (holds (strip at len) p) → slice_index result.now (distance at.x p.x) ≡ pixel self.now t p }
    {
        if len == 0 {
            return &[];
        }
        run(&self.tiles[t.0], place_of(at), len)
    }

    /// The raw pixels side by side in a tile, from a point to the right: as many as there is room for in `raws`.
    pub fn get_row(&self, t: TileNo, at: Point, raws: &mut [u32])
        requires held { IsTrue (is_held self.now t) }
        requires inside { (p : Spot) → IsTrue (holds (strip at (length raws.old)) p) → IsTrue (holds cell p) }
        ensures { (p : Spot) → IsTrue (holds (strip at (length raws.old)) p) → slice_index raws.new (distance at.x p.x) ≡ pixel self.now t p }
    {
        let row = self.row(t, at, raws.len());
        raws.copy_from_slice(row);
    }

    /// Puts raw pixels side by side into a tile, from a point to the right, a step for each, and changes nothing else.
    pub fn put_row<L: Ledger>(&mut self, t: TileNo, at: Point, raws: &[u32], steps: &mut Steps<L>)
        requires held { IsTrue (is_held self.old t) }
        requires inside { (p : Spot) → IsTrue (holds (strip at (length raws.now)) p) → IsTrue (holds cell p) }
        ensures pixels { (u : ℕ) (q : Spot) → pixel self.new u q ≡ (if (u == t) && holds (strip at (length raws.now)) q then slice_index raws.now (distance at.x q.x) else pixel self.old u q) }
        ensures same { (u : ℕ) → is_held self.new u ≡ is_held self.old u }
        ensures held { held self.new ≡ held self.old }
        ensures spare { spare self.new ≡ spare self.old }
        ensures steps { steps.new ≡ steps.old + length raws.now }
    {
        if raws.is_empty() {
            return;
        }
        let first = place_of(at);
        put_run(&mut self.tiles[t.0], first, raws);
        steps.add(raws.len() as u64);
    }

    /// Puts the raw pixels of a plane side by side into a tile, from a point of each to the right: so many of them, a step for
    /// each. They have no more bits than the plane's channels tell. Nothing else changes.
    pub fn copy_row<L: Ledger>(
        &mut self,
        t: TileNo,
        at: Point,
        len: usize,
        plane: &Plane,
        from: Point,
        steps: &mut Steps<L>,
    )
        requires held { IsTrue (is_held self.old t) }
        requires inside { (p : Spot) → IsTrue (holds (strip at len) p) → IsTrue (holds cell p) }
        requires inside_plane { (p : Spot) → IsTrue (holds (strip from len) p) → IsTrue (holds (rect_of plane.now) p) }
        ensures pixels { (u : ℕ) (q : Spot) → pixel self.new u q ≡ (if (u == t) && holds (strip at len) q then pixel_at plane.now (carried q at from) else pixel self.old u q) }
        ensures below { (i : ℕ) → i < len → pixel_at plane.now (along from i) < 2 ^ depth (chan_of plane.now) }
        ensures same { (u : ℕ) → is_held self.new u ≡ is_held self.old u }
        ensures held { held self.new ≡ held self.old }
        ensures spare { spare self.new ≡ spare self.old }
        ensures steps { steps.new ≡ steps.old + len }
    {
        if len == 0 {
            return;
        }
        let first = place_of(at);
        copy_run(&mut self.tiles[t.0], first, len, plane, from);
        steps.add(len as u64);
    }

    /// All raw pixels of a tile, row by row.
    pub fn tile(&self, t: TileNo) -> &[u32]
        requires held { IsTrue (is_held self.now t) }
        ensures len { length result.now ≡ 1024 }
        ensures pixels { (p : Spot) → IsTrue (holds cell p) → slice_index result.now (place_of p) ≡ pixel self.now t p }
    {
        &self.tiles[t.0]
    }

    /// Puts raw pixels into a rectangle of a tile, which stand among rows of so many, a step for each, and changes nothing else.
    pub fn put_block<L: Ledger>(
        &mut self,
        t: TileNo,
        r: &Rect,
        raws: &[u32],
        first: usize,
        width: usize,
        steps: &mut Steps<L>,
    )
        requires held { IsTrue (is_held self.old t) }
        requires some { HasPoints r.now }
        requires inside { (p : Spot) → IsTrue (holds r.now p) → IsTrue (holds cell p) }
        requires rows { HasRows r.now first width (length raws.now) }
        ensures pixels { (u : ℕ) (q : Spot) → pixel self.new u q ≡ (if (u == t) && holds r.now q then slice_index raws.now (number_in r.now first width q) else pixel self.old u q) }
        ensures same { (u : ℕ) → is_held self.new u ≡ is_held self.old u }
        ensures held { held self.new ≡ held self.old }
        ensures spare { spare self.new ≡ spare self.old }
        ensures steps { steps.new ≡ steps.old + area_of r.now }
    {
        let place = place_of(r.min);
        put_part(&mut self.tiles[t.0], place, r, raws, first, width);
        count_points(r, steps);
    }

    /// Puts one raw pixel at all points of a rectangle of a tile, a step for each, and changes nothing else.
    pub fn fill_block<L: Ledger>(&mut self, t: TileNo, r: &Rect, raw: u32, steps: &mut Steps<L>)
        requires held { IsTrue (is_held self.old t) }
        requires some { HasPoints r.now }
        requires inside { (p : Spot) → IsTrue (holds r.now p) → IsTrue (holds cell p) }
        ensures pixels { (u : ℕ) (q : Spot) → pixel self.new u q ≡ (if (u == t) && holds r.now q then raw else pixel self.old u q) }
        ensures same { (u : ℕ) → is_held self.new u ≡ is_held self.old u }
        ensures held { held self.new ≡ held self.old }
        ensures spare { spare self.new ≡ spare self.old }
        ensures steps { steps.new ≡ steps.old + area_of r.now }
    {
        let place = place_of(r.min);
        fill_part(&mut self.tiles[t.0], place, r, raw);
        count_points(r, steps);
    }

    /// Puts the raw pixels of a rectangle of a plane into a tile, from a point of that on, a step for each, and changes nothing
    /// else. They have no more bits than the plane's channels tell.
    pub fn copy_block<L: Ledger>(
        &mut self,
        t: TileNo,
        at: Point,
        plane: &Plane,
        from: &Rect,
        steps: &mut Steps<L>,
    )
        requires held { IsTrue (is_held self.old t) }
        requires near { IsRectNear from.now }
        requires some { HasPoints from.now }
        requires inside { (p : Spot) → IsTrue (holds from.now p) → IsTrue (holds cell (carried p from.now.min at)) }
        requires inside_plane { (p : Spot) → IsTrue (holds from.now p) → IsTrue (holds (rect_of plane.now) p) }
        ensures pixels { (u : ℕ) (q : Spot) → pixel self.new u q ≡ (if (u == t) && holds from.now (carried q at from.now.min) then pixel_at plane.now (carried q at from.now.min) else pixel self.old u q) }
        ensures below { (p : Spot) → IsTrue (holds from.now p) → pixel_at plane.now p < 2 ^ depth (chan_of plane.now) }
        ensures same { (u : ℕ) → is_held self.new u ≡ is_held self.old u }
        ensures held { held self.new ≡ held self.old }
        ensures spare { spare self.new ≡ spare self.old }
        ensures steps { steps.new ≡ steps.old + area_of from.now }
    {
        let place = place_of(at);
        copy_part(&mut self.tiles[t.0], place, plane, from);
        count_points(from, steps);
    }

    /// How many tiles are held.
    pub fn held(&self) -> usize
        ensures value { result ≡ held self.now }
        ensures most { result + spare self.now ≤ MOST_TILES }
    {
        self.tiles.len() - self.given.len()
    }

    /// How many tiles are spare.
    pub fn spare(&self) -> usize
        ensures { result ≡ spare self.now }
    {
        self.room - self.held()
    }
}

// Makes a tile 0 everywhere.
fn make_blank(tile: &mut [u32; PIXELS])
    ensures { tile.new ≡ replicate PIXELS 0 }
{
    tile.fill(0);
}

// Puts a blank tile behind the others.
fn push_blank(tiles: &mut Vec<[u32; PIXELS]>)
    requires { vec_len tiles.old < vec_capacity tiles.old }
    ensures items { tiles.new.items ≡ tiles.old.items ++ replicate PIXELS 0 ∷ [] }
    ensures len { vec_len tiles.new ≡ vec_len tiles.old + 1 }
    ensures capacity { vec_capacity tiles.new ≡ vec_capacity tiles.old }
{
    let blank = [0; PIXELS];
    tiles.push_reserved(blank);
}

// Puts a pixel into a tile at a place.
fn put_at(tile: &mut [u32; PIXELS], place: usize, raw: u32)
    requires { place < PIXELS }
    ensures pixels { tile.new ≡ slice_set tile.old place raw }
    ensures len { length tile.old ≡ PIXELS }
{
    tile[place] = raw;
}

// The pixels of a tile from a place on.
fn run(tile: &[u32; PIXELS], first: usize, len: usize) -> &[u32]
    requires { first + len ≤ PIXELS }
    ensures len { length result.now ≡ len }
    ensures pixels { (i : ℕ) → i < len → slice_index result.now i ≡ slice_index tile.now (first + i) }
{
    &tile[first..first + len]
}

// Puts pixels into a tile from a place on.
fn put_run(tile: &mut [u32; PIXELS], first: usize, raws: &[u32])
    requires { first + length raws.now ≤ PIXELS }
    ensures written { (i : ℕ) → i < length raws.now → slice_index tile.new (first + i) ≡ slice_index raws.now i }
    ensures others { (n : ℕ) → ((i : ℕ) → i < length raws.now → n ≢ first + i) → slice_index tile.new n ≡ slice_index tile.old n }
{
    tile[first..first + raws.len()].copy_from_slice(raws);
}

// Puts pixels of a plane into a tile from a place on.
fn copy_run(tile: &mut [u32; PIXELS], first: usize, len: usize, plane: &Plane, from: Point)
    requires fits { first + len ≤ PIXELS }
    requires inside { (p : Spot) → IsTrue (holds (strip from len) p) → IsTrue (holds (rect_of plane.now) p) }
    ensures written { (i : ℕ) → i < len → slice_index tile.new (first + i) ≡ pixel_at plane.now (along from i) }
    ensures below { (i : ℕ) → i < len → pixel_at plane.now (along from i) < 2 ^ depth (chan_of plane.now) }
    ensures others { (n : ℕ) → ((i : ℕ) → i < len → n ≢ first + i) → slice_index tile.new n ≡ slice_index tile.old n }
{
    plane.get_row(from, &mut tile[first..first + len]);
}

// Puts pixels from among rows of so many into a rectangle of a tile, whose first pixel has this place.
fn put_part(
    tile: &mut [u32; PIXELS],
    place: usize,
    r: &Rect,
    raws: &[u32],
    first: usize,
    width: usize,
)
    requires ordered { IsOrdered r.now }
    requires rows { HasRows r.now place 32 PIXELS }
    requires from_rows { HasRows r.now first width (length raws.now) }
    ensures pixels { (p : Spot) → IsTrue (holds r.now p) → slice_index tile.new (number_in r.now place 32 p) ≡ slice_index raws.now (number_in r.now first width p) }
    ensures others { (n : ℕ) → ((p : Spot) → IsTrue (holds r.now p) → n ≢ number_in r.now place 32 p) → slice_index tile.new n ≡ slice_index tile.old n }
{
    copy_rows(tile, place, 32, r, raws, first, width);
}

// Puts one pixel at all points of a rectangle of a tile, whose first pixel has this place.
fn fill_part(tile: &mut [u32; PIXELS], place: usize, r: &Rect, raw: u32)
    requires ordered { IsOrdered r.now }
    requires rows { HasRows r.now place 32 PIXELS }
    ensures pixels { (p : Spot) → IsTrue (holds r.now p) → slice_index tile.new (number_in r.now place 32 p) ≡ raw }
    ensures others { (n : ℕ) → ((p : Spot) → IsTrue (holds r.now p) → n ≢ number_in r.now place 32 p) → slice_index tile.new n ≡ slice_index tile.old n }
{
    fill_rows(tile, place, 32, r, raw);
}

// Puts the pixels of a rectangle of a plane into a tile, where the first one comes to this place.
fn copy_part(tile: &mut [u32; PIXELS], place: usize, plane: &Plane, from: &Rect)
    requires near { IsRectNear from.now }
    requires ordered { IsOrdered from.now }
    requires inside { (p : Spot) → IsTrue (holds from.now p) → IsTrue (holds (rect_of plane.now) p) }
    requires rows { HasRows from.now place 32 PIXELS }
    ensures pixels { (p : Spot) → IsTrue (holds from.now p) → slice_index tile.new (number_in from.now place 32 p) ≡ pixel_at plane.now p }
    ensures below { (p : Spot) → IsTrue (holds from.now p) → pixel_at plane.now p < 2 ^ depth (chan_of plane.now) }
    ensures others { (n : ℕ) → ((p : Spot) → IsTrue (holds from.now p) → n ≢ number_in from.now place 32 p) → slice_index tile.new n ≡ slice_index tile.old n }
{
    plane.get_block(from, tile, place, 32);
}

// Where the pixel of a point stands among those of its tile, row by row.
fn place_of(p: Point) -> usize
    requires { IsTrue (holds cell p) }
    ensures value { result ≡ place_of p }
    ensures inside { result < PIXELS }
{
    (32 * distance(0, p.y) + distance(0, p.x)) as usize
}
