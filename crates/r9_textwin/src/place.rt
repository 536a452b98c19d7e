//! Where the next character goes.

ghost use Rattle.std.specs.Prelude.{◌≡◌, ◌<◌, ◌≤◌, ◌+◌, ◌++◌, ◌==◌, ℕ, List, length, map, not, take, IfOk, OnOk};
ghost use Rattle.std.specs.List.{prefix_len};
ghost use Rattle.model_client.specs.textwin.Wrap.{code_of};
ghost use Rattle.r9_textwin.specs.Steps.{Brings, put_moves, put_place, room_moves, room_place, row_moves, row_place, run};

use crate::moves::Moves;
use model_client::textwin::Move;
use r9_memory::Memory;
use r9_text::Bytes;
use std::alloc::Global;
use std::marker::Model;

/// A row and a column of a window of so many.
#[derive(Clone, Copy)]
pub struct Place {
    columns: u32,
    rows: u32,
    row: u32,
    column: u32,
}

impl Model for Place {
    ghost use Rattle.r9_textwin.specs.Window.{Spot, IsSpot};

    ghost Value = { Spot };

    ghost view = { λ p. record { columns = p.columns; rows = p.rows; row = p.row; column = p.column } };

    ghost invariant = { λ p. IsSpot (record { columns = p.columns; rows = p.rows; row = p.row; column = p.column }) };

    ghost inverse = { λ s. record { columns = s.columns; rows = s.rows; row = s.row; column = s.column } };
}

/// The character of a byte.
fn code_of(byte: u8) -> u8
    ensures { result ≡ code_of byte }
{
    if 0x20 <= byte && byte <= 0x7E {
        byte - 0x20
    } else {
        31
    }
}

/// The characters of bytes.
fn codes_of(alloc: Global, bytes: &[u8]) -> Result<Bytes, Memory>
    ensures { IfOk result (λ codes. codes ≡ map code_of bytes.now) }
{
    let mut codes = Bytes::new(alloc);
    codes.reserve(bytes.len())?;
    for byte in bytes {
        codes.push(code_of(*byte))?;
    }
    Ok(codes)
}

/// How many bytes stand before the first newline.
fn line_len(text: &[u8]) -> usize
    ensures { result ≡ prefix_len (λ byte. not (byte == 10)) text.now }
{
    text.iter().take_while(|byte| **byte != b'\n').count()
}

/// The characters that bytes begin with, at most so many.
fn run(bytes: &[u8], most: usize) -> &[u8]
    ensures { result.now ≡ run most bytes.now }
{
    let front = &bytes[..most.min(bytes.len())];
    &front[..line_len(front)]
}

impl Place {
    ghost use Rattle.r9_textwin.specs.Window.{IsSpot, Spot};

    /// The start of a window.
    pub fn start(columns: u32, rows: u32) -> Self
        requires columns { 1 ≤ columns }
        requires rows { 1 ≤ rows }
        ensures { result ≡ record { columns = columns; rows = rows; row = 0; column = 0 } }
    {
        Place {
            columns,
            rows,
            row: 0,
            column: 0,
        }
    }

    /// How many columns the window has.
    pub fn columns(&self) -> u32
        ensures { result ≡ self.now.columns }
    {
        self.columns
    }

    /// How many rows it has.
    pub fn rows(&self) -> u32
        ensures { result ≡ self.now.rows }
    {
        self.rows
    }

    /// The same place, of which more is known.
    pub fn known(self) -> Self
        ensures same { result ≡ self }
        ensures spot { IsSpot self }
    {
        self
    }

    // A new row begins.
    fn new_row(self, moves: &mut Moves) -> Result<Place, Memory>
        ensures moves { OnOk result (moves.new ≡ moves.old ++ row_moves self) }
        ensures place { IfOk result (λ next. next ≡ row_place self) }
    {
        let row = if self.row + 1 < self.rows {
            self.row + 1
        } else {
            moves.push(Move::Scroll)?;
            self.row
        };
        Ok(Place {
            columns: self.columns,
            rows: self.rows,
            row,
            column: 0,
        })
    }

    // A new row begins where this one is full.
    fn with_room(self, moves: &mut Moves) -> Result<Place, Memory>
        ensures moves { OnOk result (moves.new ≡ moves.old ++ room_moves self) }
        ensures place { IfOk result (λ next. next ≡ room_place self) }
    {
        if self.column < self.columns {
            Ok(self)
        } else {
            self.new_row(moves)
        }
    }

    // Characters go to the place.
    fn put(self, codes: Bytes, moves: &mut Moves) -> Result<Place, Memory>
        requires { self.column + length codes ≤ self.columns }
        ensures moves { OnOk result (moves.new ≡ moves.old ++ put_moves self codes) }
        ensures place { IfOk result (λ next. next ≡ put_place self (length codes)) }
    {
        let column = self.column + codes.len() as u32;
        moves.push(Move::Put {
            row: self.row,
            column: self.column,
            codes,
        })?;
        Ok(Place {
            columns: self.columns,
            rows: self.rows,
            row: self.row,
            column,
        })
    }

    /// The front of some bytes comes: a newline, or the characters before the next one for which the row has room, or a new row
    /// where it is full. Gives the place behind them, and how many they are.
    pub fn feed(
        self,
        alloc: Global,
        bytes: &[u8],
        moves: &mut Moves,
    ) -> Result<(Place, usize), Memory>
        requires { 0 < length bytes.now }
        ensures some { IfOk result (λ fed. 0 < fed.1) }
        ensures within { IfOk result (λ fed. fed.1 ≤ length bytes.now) }
        ensures brings { IfOk result (λ fed. (s : Spot) (front : List ℕ) → Brings s front moves.old self → Brings s (front ++ take fed.1 bytes.now) moves.new fed.0) }
    {
        if bytes[0] == b'\n' {
            return Ok((self.new_row(moves)?, 1));
        }
        let place = self.with_room(moves)?;
        let line = run(bytes, (place.columns - place.column) as usize);
        let next = place.put(codes_of(alloc, line)?, moves)?;
        Ok((next, line.len()))
    }
}
