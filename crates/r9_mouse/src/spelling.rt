//! An event of the mouse as text: a letter and four numbers, each 11 wide and a blank (mouse(3)).

ghost use Rattle.std.specs.Prelude.{◌≡◌, ◌≤◌, length, drop, IfOk, IfSome};
ghost use Rattle.model_files.specs.mouse.Pointer.{text, coordinate_in, natural_in, pointer_of};

use model_files::mouse::Mouse;
use r9_memory::Memory;
use r9_text::{Bytes, push_number, read_field};
use std::alloc::Global;

/// How long the text is.
const LEN: usize = 49;

/// How far a point that is read may be from the origin, in pixels.
const FARTHEST: i64 = 1 << 20;

/// The text of an event: the letter, and x, y, buttons and msec, 49 bytes.
#[tactic(auto, unfolding(model_files::specs::mouse::Pointer::text))]
pub fn text(alloc: Global, letter: u8, e: Mouse) -> Result<Bytes, Memory>
    ensures text { IfOk result (λ bytes. bytes ≡ text letter e) }
    ensures len { IfOk result (λ bytes. length bytes ≡ 49) }
{
    let mut out: Bytes = Vec::with_capacity(alloc, LEN)?.into();
    out.push_all(&[letter])?;
    push_number(&mut out, e.x.into())?;
    push_number(&mut out, e.y.into())?;
    push_number(&mut out, e.buttons.into())?;
    push_number(&mut out, e.msec.into())?;
    Ok(out)
}

/// The coordinate in the field at a place: None where there is no field, or it is too far from 0.
fn coordinate(text: &[u8], at: usize) -> Option<i32>
    ensures { result ≡ coordinate_in (drop at text.now) }
{
    let n = read_field(text, at)?;
    if -FARTHEST <= n && n <= FARTHEST {
        Some(n as i32)
    } else {
        None
    }
}

/// The number in the field at a place: None where there is no field, or it is not 0 to `most`.
fn natural(text: &[u8], at: usize, most: u32) -> Option<u32>
    ensures value { result ≡ natural_in most (drop at text.now) }
    ensures small { IfSome result (λ n. n ≤ most) }
{
    let n = read_field(text, at)?;
    if 0 <= n && n <= i64::from(most) {
        Some(n as u32)
    } else {
        None
    }
}

/// The event that a text tells: 49 bytes, `m` and four numbers, each with blanks before it and one behind it, 12 bytes
/// in all. None exactly where it is no such, or the point is further than 2^20 from the origin, the buttons are not 0
/// to 31, or the time is not 0 to 4,294,967,295.
#[tactic(auto, unfolding(model_files::specs::mouse::Pointer::pointer_of))]
pub fn read_mouse(text: &[u8]) -> Option<Mouse>
    ensures { result ≡ pointer_of text.now }
{
    if text.len() != LEN || text[0] != b'm' {
        return None;
    }
    Some(Mouse {
        x: coordinate(text, 1)?,
        y: coordinate(text, 13)?,
        buttons: natural(text, 25, 31)? as u8,
        msec: natural(text, 37, u32::MAX)?,
    })
}
