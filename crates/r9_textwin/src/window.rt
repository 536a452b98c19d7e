//! A window of text.

ghost use Rattle.std.specs.Prelude.{◌≡◌, ◌*◌, ◌^◌, ◌<◌, ◌≤◌, length, pos, All, Some, IfOk, OnOk, OnErr};
ghost use Rattle.model_client.specs.textwin.Wrap.{Page, blank, characters, wrapped};
ghost use Rattle.model_client.specs.textwin.Moves.{screen, all_moved, put_codes};
ghost use Rattle.model_client.specs.textwin.Layout as layout;
ghost use Rattle.r9_textwin.specs.Window.{IsSpot, IsWithin, SameSides, Stands};
ghost use Rattle.r9_textwin.specs.Steps.{Brings};

use crate::moves::Moves;
use crate::place::Place;
use r9_geom::{Point, Rect};
use r9_memory::Memory;
use std::alloc::Global;
use std::marker::Model;

/// A window of text: where the next character goes, and how large characters are.
#[derive(Drop)]
pub struct TextWin {
    alloc: Global,
    width: u32,
    height: u32,
    place: Place,
}

impl Model for TextWin {
    ghost use Rattle.r9_textwin.specs.Window.{Window, IsWindow};

    ghost Value = { Window };

    ghost view = { λ w. record { width = w.width; height = w.height; spot = w.place } };

    ghost invariant = { λ w. IsWindow (record { width = w.width; height = w.height; spot = w.place }) };
}

// How many pixels so many characters take.
fn pixels(count: u32, side: u32) -> i64
    requires { count * side ≤ 2 ^ 32 }
    ensures { result ≡ pos (count * side) }
{
    (u64::from(count) * u64::from(side)) as i64
}

impl TextWin {
    /// A window of so many columns and rows, for characters of so many pixels across and down, with no text.
    pub fn new(
        alloc: Global,
        columns: u32,
        rows: u32,
        width: u32,
        height: u32,
    ) -> Result<Self, Memory>
        requires columns { 1 ≤ columns }
        requires rows { 1 ≤ rows }
        requires across { columns * width ≤ 2 ^ 32 }
        requires down { rows * height ≤ 2 ^ 32 }
        ensures columns { IfOk result (λ window. window.spot.columns ≡ columns) }
        ensures rows { IfOk result (λ window. window.spot.rows ≡ rows) }
        ensures width { IfOk result (λ window. window.width ≡ width) }
        ensures height { IfOk result (λ window. window.height ≡ height) }
        ensures empty { IfOk result (λ window. Stands window blank) }
    {
        Ok(TextWin {
            alloc,
            width,
            height,
            place: Place::start(columns, rows),
        })
    }

    /// The window's rectangle, in pixels: its characters, and a border of four pixels around them.
    pub fn rect(&self) -> Rect
        ensures { result ≡ layout.window_rect self.now.spot.columns self.now.spot.rows self.now.width self.now.height }
    {
        Rect {
            min: Point { x: 0, y: 0 },
            max: Point {
                x: pixels(self.place.columns(), self.width) + 8,
                y: pixels(self.place.rows(), self.height) + 8,
            },
        }
    }

    /// The min of the character at a row and a column of the window, in pixels.
    pub fn place_of(&self, row: u32, column: u32) -> Point
        requires row { row < self.now.spot.rows }
        requires column { column < self.now.spot.columns }
        ensures { result ≡ layout.place_of self.now.width self.now.height row column }
    {
        Point {
            x: 4 + pixels(column, self.width),
            y: 4 + pixels(row, self.height),
        }
    }

    /// A piece of the text comes. The moves bring the rows that were shown before it to those after it, whatever the text
    /// was so far, and put the piece's characters in order, those that go to one row together. Where there is no memory the
    /// window is as before.
    pub fn feed(&mut self, piece: &[u8]) -> Result<Moves, Memory>
        ensures moves { IfOk result (λ moves. (p : Page) → Stands self.old p → all_moved self.old.spot.columns moves (screen self.old.spot.rows p) ≡ Some (screen self.old.spot.rows (wrapped self.old.spot.columns p piece.now))) }
        ensures codes { IfOk result (λ moves. put_codes moves ≡ characters piece.now) }
        ensures few { IfOk result (λ moves. length moves ≤ 2 * length piece.now) }
        ensures within { IfOk result (λ moves. All (IsWithin self.old.spot.columns self.old.spot.rows) moves) }
        ensures stands { OnOk result ((p : Page) → Stands self.old p → Stands self.new (wrapped self.old.spot.columns p piece.now)) }
        ensures sides { OnOk result (SameSides self.old self.new) }
        ensures err { OnErr result (self.new ≡ self.old) }
    {
        let (place, moves) = feed_all(self.alloc, self.place.known(), piece)?;
        self.place = place;
        Ok(moves)
    }
}

// All bytes of a piece come, those that go to one row together.
fn feed_all(alloc: Global, place: Place, piece: &[u8]) -> Result<(Place, Moves), Memory>
    requires { IsSpot place }
    ensures { IfOk result (λ fed. Brings place piece.now fed.1 fed.0) }
{
    let mut moves = Moves::new(alloc);
    let mut next = place;
    let mut rest = piece;
    while !rest.is_empty() {
        let (behind, len) = next.feed(alloc, rest, &mut moves)?;
        next = behind;
        rest = &rest[len..];
    }
    Ok((next, moves))
}
