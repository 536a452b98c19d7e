// Reading of frames, step by step.

ghost use Rattle.std.specs.Prelude.{◌≡◌, ◌+◌, ◌*◌, ◌≤◌, ◌<◌, ◌==◌, ℕ, suc, length, Ok, Err, Option, Result, IfSome, IfOk, MatchResult};
ghost use Rattle.r9_geom.specs.Geometry.{height};
ghost use Rattle.model_text.specs.text.Outcome.{Outcome};
ghost use Rattle.model_pixel.specs.Channels.{depth};
ghost use Rattle.model_pixel.specs.Rows as rows;
ghost use Rattle.model_client.specs.mirror.Picture.{Picture, with_rows};
ghost use Rattle.model_client.specs.mirror.Frames.{cells, cells_on, frame_at, sized_at};
ghost use Rattle.r9_mirror.specs.Sizes.{size_of, IsLawful, IsWithin};
ghost use Rattle.r9_mirror.specs.Left.{or_blank, IsFurther, IsPlace, Leads, Leaves, Tells};

use crate::lines::{Cell, Size, cell_in, frame_in, is_sized, line_at, size_in};
use r9_chan::Chan;
use r9_geom::Rect;
use r9_plane::row_bytes;

/// Where reading stands in a text of frames, and the size of the picture there.
#[derive(Clone, Copy, Debug)]
pub struct Place {
    /// Where the next line begins.
    pub at: usize,
    /// How many cells of the frame are still to come.
    pub left: u64,
    /// What the next of them has at least in the order of cells.
    pub first: u64,
    pub size: Option<Size>,
}

/// What a step of reading does to the picture.
#[derive(Clone, Copy, Debug)]
pub enum Step<'a> {
    /// A frame begins, with a picture of zero bits or the one before.
    Frame { blank: Option<Size> },
    /// The rows of a cell are put.
    Cell { r: Rect, rows: &'a [u8] },
}

// The size of a line `Z W H` that stands at a place, none where there is no such line and none is needed; and the place behind.
fn sized_at(text: &[u8], at: usize, needed: bool) -> Result<(Option<Size>, usize), usize>
    requires { at ≤ length text.now }
    ensures sized { (picture : Option Picture) → MatchResult result (λ r. sized_at needed picture text.now at ≡ Ok (or_blank r.0 picture, r.1)) (λ place. sized_at needed picture text.now at ≡ Err place) }
    ensures within { IfOk result (λ r. (at ≤ r.1) × (r.1 ≤ length text.now) × IfSome r.0 IsLawful) }
{
    if !is_sized(text, at) {
        return if needed { Err(at) } else { Ok((None, at)) };
    }
    let Some((line, next)) = line_at(text, at) else {
        return Err(at);
    };
    let Some(size) = size_in(line) else {
        return Err(at);
    };
    Ok((Some(size), next))
}

// The front of a frame: how many cells it has, the size of the picture where it tells one, and the place of the cells.
fn front_at(text: &[u8], at: usize) -> Result<(u64, Option<Size>, usize), usize>
    requires { at ≤ length text.now }
    ensures front { (chan : ℕ) (picture : Option Picture) → MatchResult result (λ r. frame_at chan picture text.now at ≡ cells_on r.0 chan (or_blank r.1 picture) text.now r.2) (λ place. frame_at chan picture text.now at ≡ Err place) }
    ensures within { IfOk result (λ r. (at < r.2) × (r.2 ≤ length text.now) × IfSome r.1 IsLawful) }
{
    let Some((line, next)) = line_at(text, at) else {
        return Err(at);
    };
    let Some((number, count)) = frame_in(line) else {
        return Err(at);
    };
    let (blank, next) = sized_at(text, next, number == 0)?;
    Ok((count, blank, next))
}

// How many bytes the rows of a cell have.
fn rows_len(chan: Chan, size: Size, cell: Cell) -> usize
    requires { IsWithin size cell }
    ensures { result ≡ rows.row_bytes cell.r (depth chan) * height cell.r }
{
    (row_bytes(cell.r, chan.depth()) * cell.r.height()) as usize
}

// The cell that stands at a place, which has no less than `first` in the order of cells; its rows, and the place behind.
fn cell_at(
    text: &[u8],
    chan: Chan,
    at: usize,
    first: u64,
    size: Size,
) -> Result<(Cell, &[u8], usize), usize>
    requires at { at ≤ length text.now }
    requires size { IsLawful size }
    ensures cell { (n : ℕ) (picture : Picture) → size_of picture ≡ size → MatchResult result
        (λ r. cells (suc n) chan first picture text.now at ≡ cells n chan (r.0.order + 1) (with_rows chan r.0.r r.1.now picture) text.now r.2)
        (λ place. cells (suc n) chan first picture text.now at ≡ Err place) }
    ensures within { IfOk result (λ r. (at < r.2) × (r.2 ≤ length text.now) × IsWithin size r.0 × (length r.1.now ≡ rows.row_bytes r.0.r (depth chan) * height r.0.r)) }
{
    let Some((line, start)) = line_at(text, at) else {
        return Err(at);
    };
    let Some(cell) = cell_in(line, size) else {
        return Err(at);
    };
    if cell.order < first {
        return Err(at);
    }
    let rest = &text[start..];
    let len = rows_len(chan, size, cell);
    if rest.len() < len {
        return Err(at);
    }
    Ok((cell, &rest[..len], start + len))
}

impl Place {
    /// The front of a text.
    pub fn new(size: Option<Size>) -> Place
        ensures { result ≡ record { at = 0; left = 0; first = 0; size = size } }
    {
        Place {
            at: 0,
            left: 0,
            first: 0,
            size,
        }
    }

    // The next cell of a frame.
    fn cell(self, chan: Chan, text: &[u8]) -> Result<(Step<'_>, Place), usize>
        requires place { IsPlace text.now self }
        requires left { 0 < self.left }
        ensures tells { (picture : Option Picture) (outcome : Outcome (Option Picture)) → Leaves chan text.now self picture outcome → Leads chan text.now picture outcome result }
        ensures further { IfOk result (λ x. IsFurther chan text.now self x.1 x.0) }
    {
        let Some(size) = self.size else {
            return Err(self.at);
        };
        match cell_at(text, chan, self.at, self.first, size) {
            Err(place) => Err(place),
            Ok((cell, rows, at)) => {
                let next = Place {
                    at,
                    left: self.left - 1,
                    first: cell.order + 1,
                    size: self.size,
                };
                Ok((Step::Cell { r: cell.r, rows }, next))
            }
        }
    }

    // The front of the next frame.
    fn front(self, chan: Chan, text: &[u8]) -> Result<(Step<'_>, Place), usize>
        requires place { IsPlace text.now self }
        requires left { self.left ≡ 0 }
        requires some { self.at < length text.now }
        ensures tells { (picture : Option Picture) (outcome : Outcome (Option Picture)) → Leaves chan text.now self picture outcome → Leads chan text.now picture outcome result }
        ensures further { IfOk result (λ x. IsFurther chan text.now self x.1 x.0) }
    {
        match front_at(text, self.at) {
            Err(place) => Err(place),
            Ok((left, blank, at)) => {
                let next = Place {
                    at,
                    left,
                    first: 0,
                    size: blank.or(self.size),
                };
                Ok((Step::Frame { blank }, next))
            }
        }
    }

    /// What the frames do next to a picture of this size, and where reading stands then: None at the end of the text, and
    /// the place of the line that does not fit.
    pub fn step(self, chan: Chan, text: &[u8]) -> Result<Option<(Step<'_>, Place)>, usize>
        requires place { IsPlace text.now self }
        ensures tells { (picture : Option Picture) (outcome : Outcome (Option Picture)) → Leaves chan text.now self picture outcome → Tells chan text.now picture outcome result }
        ensures further { IfOk result (λ o. IfSome o (λ x. IsFurther chan text.now self x.1 x.0)) }
    {
        if self.left > 0 {
            return match self.cell(chan, text) {
                Ok(step) => Ok(Some(step)),
                Err(place) => Err(place),
            };
        }
        if self.at == text.len() {
            return Ok(None);
        }
        match self.front(chan, text) {
            Ok(step) => Ok(Some(step)),
            Err(place) => Err(place),
        }
    }
}
