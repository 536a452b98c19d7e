//! Numbers of any size in the fields of a file.

ghost use Rattle.std.specs.Prelude.{◌≡◌, ◌≤◌, ◌+◌, ◌++◌, length, OnOk};
ghost use Rattle.model_text.specs.text.Field.{number_field};

use r9_memory::Memory;
use r9_text::Bytes;

/// How wide a field is.
const WIDTH: usize = 11;

/// Adds a number in decimal at the end, with blanks before it that make it 11 wide, and a blank behind it. A wider one
/// stands as it is. Where memory is short, some of it may have been added.
#[tactic(auto, using(crate::proofs::pane::Padded::padded))]
pub fn push_number(out: &mut Bytes, n: i64) -> Result<(), Memory>
    ensures field { OnOk result (out.new ≡ out.old ++ number_field n) }
    ensures short { OnOk result (length out.new ≤ length out.old + 22) }
{
    let mut buffer = itoa::Buffer::new();
    let digits = buffer.format(n).as_bytes();
    let blanks = [b' '; WIDTH];
    out.push_all(&blanks[..WIDTH.saturating_sub(digits.len())])?;
    out.push_all(digits)?;
    out.push(b' ')
}
