// The lines of frames.

ghost use Rattle.std.specs.Prelude.{◌≡◌, ◌↔◌, ◌&&◌, ◌<◌, ◌≤◌, IsTrue, nat_le, length, Ok, Err, IfSome, take, drop, codes};
ghost use Rattle.std.specs.Option.{option_map, MatchOption};
ghost use Rattle.std.specs.Str.{bytes_eq};
ghost use Rattle.model_client.specs.mirror.Picture.{area, is_cell};
ghost use Rattle.model_client.specs.mirror.Lines.{frame_in, size_in, cell_in};
ghost use Rattle.model_client.specs.mirror.Frames.{line_at};
ghost use Rattle.r9_mirror.specs.Words.{words_of};
ghost use Rattle.r9_mirror.specs.Sizes.{blank_of, cell_of, cut, sized, IsLawful, IsWithin};

use crate::words::{behind, len_before, pair, two};
use r9_geom::{Point, Rect};

/// How many columns and rows a picture has at most.
const MOST_SIDE: u64 = 2048;

/// How many columns and rows a cell has that is not cut.
const CELL_SIDE: u64 = 32;

/// How many columns and rows a picture has.
#[derive(Clone, Copy, PartialEq, Eq, Debug)]
pub struct Size {
    pub width: u64,
    pub height: u64,
}

// Whether both are one size, or none.
pub fn is_same(a: Option<Size>, b: Option<Size>) -> bool
    ensures { IsTrue result ↔ (a ≡ b) }
{
    a == b
}

/// A cell: where it stands in the order of cells, and its rectangle.
#[derive(Clone, Copy, Debug)]
pub struct Cell {
    pub order: u64,
    pub r: Rect,
}

// The line that begins at a place, and the place behind its newline.
pub fn line_at(text: &[u8], at: usize) -> Option<(&[u8], usize)>
    requires { at ≤ length text.now }
    ensures line { MatchOption result (line_at text.now at ≡ Err at) (λ l. line_at text.now at ≡ Ok (words_of l.0.now, l.1)) }
    ensures within { IfSome result (λ l. (at < l.1) × (l.1 ≤ length text.now)) }
{
    let rest = &text[at..];
    let len = len_before(b'\n', rest);
    if len < rest.len() {
        Some((&rest[..len], at + len + 1))
    } else {
        None
    }
}

// Whether a line `Z W H` begins at a place.
pub fn is_sized(text: &[u8], at: usize) -> bool
    requires { at ≤ length text.now }
    ensures { result ≡ bytes_eq (take 2 (drop at text.now)) (codes "Z ") }
{
    matches!(&text[at..], [b'Z', b' ', ..])
}

// The two numbers of a line `F K N`.
#[tactic(auto, using(crate::proofs::Numbers::frame_is))]
pub fn frame_in(line: &[u8]) -> Option<(u64, u64)>
    ensures { result ≡ frame_in (words_of line.now) }
{
    pair(behind(b'F', line))
}

fn is_side(side: u64) -> bool
    ensures { result ≡ (nat_le 1 side && nat_le side 2048) }
{
    1 <= side && side <= MOST_SIDE
}

fn sized(sides: (u64, u64)) -> Option<Size>
    ensures size { option_map blank_of result ≡ sized sides }
    ensures lawful { IfSome result IsLawful }
{
    let (width, height) = sides;
    if is_side(width) && is_side(height) {
        Some(Size { width, height })
    } else {
        None
    }
}

// The size of a line `Z W H`.
#[tactic(auto, using(crate::proofs::Numbers::size_is))]
pub fn size_in(line: &[u8]) -> Option<Size>
    ensures size { option_map blank_of result ≡ size_in (words_of line.now) }
    ensures lawful { IfSome result IsLawful }
{
    let sides = pair(behind(b'Z', line))?;
    sized(sides)
}

// Whether numbers are the min and the size of a cell of a picture, cut to it.
fn is_cell(size: Size, x: u64, y: u64, width: u64, height: u64) -> bool
    ensures { result ≡ is_cell (blank_of size) x y width height }
{
    x % CELL_SIDE == 0
        && y % CELL_SIDE == 0
        && x < size.width
        && y < size.height
        && width == CELL_SIDE.min(size.width - x)
        && height == CELL_SIDE.min(size.height - y)
}

fn area(x: u64, y: u64, width: u64, height: u64) -> Rect
    requires x { x < 2048 }
    requires y { y < 2048 }
    requires width { width ≤ 32 }
    requires height { height ≤ 32 }
    ensures { result ≡ area x y width height }
{
    Rect {
        min: Point {
            x: x as i64,
            y: y as i64,
        },
        max: Point {
            x: (x + width) as i64,
            y: (y + height) as i64,
        },
    }
}

// The cell of a picture at a place in it.
fn cut(size: Size, x: u64, y: u64, width: u64, height: u64) -> Option<Cell>
    requires { IsLawful size }
    ensures cell { option_map cell_of result ≡ cut (blank_of size) (x, y) (width, height) }
    ensures within { IfSome result (IsWithin size) }
{
    if is_cell(size, x, y, width, height) {
        Some(Cell {
            order: MOST_SIDE * y + x,
            r: area(x, y, width, height),
        })
    } else {
        None
    }
}

// The cell of a line `C X Y W H`.
pub fn cell_in(line: &[u8], size: Size) -> Option<Cell>
    requires { IsLawful size }
    ensures cell { option_map cell_of result ≡ cell_in (blank_of size) (words_of line.now) }
    ensures within { IfSome result (IsWithin size) }
{
    let ((x, y), rest) = two(behind(b'C', line))?;
    let (width, height) = pair(rest)?;
    cut(size, x, y, width, height)
}
