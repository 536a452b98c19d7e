//! Fills of windows, gathered before what these uncover becomes bare.

ghost use Rattle.std.specs.Prelude.{◌≡◌, ◌+◌, ◌^◌, ◌<◌, ◌≤◌, ℕ, length, slice_index, vec_len, IfSome, IsTrue};
ghost use Rattle.r9_geom.specs.declared.Point.{Point as Spot};
ghost use Rattle.r9_geom.specs.Geometry.{area_of, holds, width, IsNear, IsOrdered, IsRectNear};
ghost use Rattle.r9_plane.specs.Pixels.{along, number_of};
ghost use Rattle.model_pixel.specs.Channels as channels;
ghost use Rattle.model_forest.specs.World.{IsLive};
ghost use Rattle.r9_put.specs.fills.Fills.{fill_at};

use super::images::Images;
use r9_chan::Chan;
use r9_geom::{Point, Rect};
use r9_locate::locate::along;
use r9_put::fills::{Columns, columns_in, convert, reached, strip};

// How many pixels of a row are gathered at a time.
const BLOCK: usize = 256;

/// Puts pixels side by side among others, from a number on.
pub(crate) fn put_block(room: &mut [u32], start: usize, block: &[u32])
    requires { start + length block.now ≤ length room.old }
    ensures block { (k : ℕ) → k < length block.now → slice_index room.new (start + k) ≡ slice_index block.now k }
    ensures before { (j : ℕ) → j < start → slice_index room.new j ≡ slice_index room.old j }
{
    room[start..start + block.len()].copy_from_slice(block);
}

// Puts the same pixel so many times from the first number on.
fn put_plain(room: &mut [u32], count: usize, raw: u32)
    requires { count ≤ length room.old }
    ensures { (k : ℕ) → k < count → slice_index room.new k ≡ raw }
{
    room[..count].fill(raw);
}

impl Images {
    ghost use Rattle.r9_forest.specs.Images.{world};

    // Reads what a fill gives for channels side by side, from `at` to the right.
    fn read_fill(&self, fill: u32, chan: &Chan, at: Point, raws: &mut [u32])
        requires live { IsLive (world self.now) fill }
        requires near { IsNear at }
        requires few { length raws.old ≤ 2 ^ 40 }
        ensures { (k : ℕ) → k < length raws.old → slice_index raws.new k ≡ fill_at (world self.now) chan.now fill (along at k) }
    {
        raws.fill(0);
        self.read_given(fill, chan, at, raws);
    }

    // The same into pixels that are 0.
    fn read_given(&self, fill: u32, chan: &Chan, at: Point, raws: &mut [u32])
        requires live { IsLive (world self.now) fill }
        requires near { IsNear at }
        requires few { length raws.old ≤ 2 ^ 40 }
        requires zero { (k : ℕ) → k < length raws.old → slice_index raws.old k ≡ 0 }
        ensures { (k : ℕ) → k < length raws.old → slice_index raws.new k ≡ fill_at (world self.now) chan.now fill (along at k) }
    {
        let frame = self.lists.get(fill);
        let given = reached(frame, &strip(at, raws.len()));
        if given.is_empty() {
            return;
        }
        let Columns { start, end } = columns_in(at, raws.len(), &given);
        let part = &mut raws[start..end];
        self.read_row(fill, given.min, part);
        convert(&frame.chan, chan, part);
    }

    /// The one pixel that a fill gives for channels at all points of a rectangle, where it repeats a single one there.
    pub(crate) fn plain_fill(&self, fill: u32, chan: &Chan, area: &Rect) -> Option<u32>
        requires live { IsLive (world self.now) fill }
        ensures range { IfSome result (λ raw. raw < 2 ^ channels.depth chan.now) }
        ensures inside { IfSome result (λ raw. (p : Spot) → IsTrue (holds area.now p) → fill_at (world self.now) chan.now fill p ≡ raw) }
    {
        let raw = self.single(fill)?;
        let frame = self.lists.get(fill);
        if frame.repl && area.inside(&frame.clipr) {
            Some(chan.pack(frame.chan.expand(raw)))
        } else {
            None
        }
    }

    // Gathers one pixel for all points of a rectangle.
    fn gather_plain(&mut self, raw: u32, area: &Rect)
        requires ordered { IsOrdered area.now }
        requires room { area_of area.now ≤ vec_len self.old.room }
        ensures lists { self.new.lists ≡ self.old.lists }
        ensures pixels { self.new.pixels ≡ self.old.pixels }
        ensures spare { self.new.spare ≡ self.old.spare }
        ensures len { vec_len self.new.room ≡ vec_len self.old.room }
        ensures gathered { (p : Spot) → IsTrue (holds area.now p) → slice_index self.new.room.items (number_of area.now p) ≡ raw }
    {
        let count = (area.width() * area.height()) as usize;
        put_plain(&mut self.room, count, raw);
    }

    // Gathers what a fill gives to a row of points, whose pixels have the numbers from `first` on.
    fn gather_row(&mut self, fill: u32, chan: &Chan, at: Point, width: usize, first: usize)
        requires live { IsLive (world self.old) fill }
        requires start { IsNear at }
        requires near { (k : ℕ) → k < width → IsNear (along at k) }
        requires width { width ≤ 2 ^ 41 }
        requires room { first + width ≤ vec_len self.old.room }
        ensures lists { self.new.lists ≡ self.old.lists }
        ensures pixels { self.new.pixels ≡ self.old.pixels }
        ensures spare { self.new.spare ≡ self.old.spare }
        ensures len { vec_len self.new.room ≡ vec_len self.old.room }
        ensures row { (k : ℕ) → k < width → slice_index self.new.room.items (first + k) ≡ fill_at (world self.old) chan.now fill (along at k) }
        ensures before { (j : ℕ) → j < first → slice_index self.new.room.items j ≡ slice_index self.old.room.items j }
    {
        let mut block = [0; BLOCK];
        let mut done = 0;
        while done < width {
            let size = (width - done).min(BLOCK);
            let part = &mut block[..size];
            self.read_fill(fill, chan, along(at, done), part);
            put_block(&mut self.room, first + done, part);
            done += size;
        }
    }

    /// Gathers what a fill gives at the points of a rectangle.
    pub(crate) fn gather(&mut self, fill: u32, chan: &Chan, area: &Rect)
        requires live { IsLive (world self.old) fill }
        requires near { IsRectNear area.now }
        requires ordered { IsOrdered area.now }
        requires room { area_of area.now ≤ vec_len self.old.room }
        ensures lists { self.new.lists ≡ self.old.lists }
        ensures pixels { self.new.pixels ≡ self.old.pixels }
        ensures spare { self.new.spare ≡ self.old.spare }
        ensures len { vec_len self.new.room ≡ vec_len self.old.room }
        ensures gathered { (p : Spot) → IsTrue (holds area.now p) → slice_index self.new.room.items (number_of area.now p) ≡ fill_at (world self.old) chan.now fill p }
    {
        match self.plain_fill(fill, chan, area) {
            Some(raw) => self.gather_plain(raw, area),
            None => self.gather_rows(fill, chan, area),
        }
    }

    // The same row by row.
    fn gather_rows(&mut self, fill: u32, chan: &Chan, area: &Rect)
        requires live { IsLive (world self.old) fill }
        requires near { IsRectNear area.now }
        requires ordered { IsOrdered area.now }
        requires room { area_of area.now ≤ vec_len self.old.room }
        ensures lists { self.new.lists ≡ self.old.lists }
        ensures pixels { self.new.pixels ≡ self.old.pixels }
        ensures spare { self.new.spare ≡ self.old.spare }
        ensures len { vec_len self.new.room ≡ vec_len self.old.room }
        ensures gathered { (p : Spot) → IsTrue (holds area.now p) → slice_index self.new.room.items (number_of area.now p) ≡ fill_at (world self.old) chan.now fill p }
    {
        let width = area.width() as usize;
        for row in 0..area.height() {
            let first = row as usize * width;
            self.gather_row(fill, chan, area.point_at(0, row), width, first);
        }
    }
}
