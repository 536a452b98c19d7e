//! Reading what an input has.

ghost use Rattle.std.specs.Prelude.{◌≡◌, ◌≤◌, ◌<◌, ◌+◌, ◌++◌, [], length, take, drop, IfOk, IfSome, IsErrOf, Some};
ghost use Rattle.r9_outside.specs.outside.Count.{Rose};
ghost use Rattle.r9_outside.specs.input.Taken.{HasRead};

use crate::outside::{Failed, Source};
use r9_memory::Memory;
use r9_text::Bytes;
use std::alloc::Global;

/// So many bytes are asked for at once.
const CHUNK: usize = 4096;

/// Why the input was not read.
#[derive(Clone, Copy, Debug, PartialEq, Eq)]
pub enum InputFault {
    /// A take failed.
    Failed,
    /// There was no memory.
    Memory,
}

impl From<Memory> for InputFault {
    ghost use Rattle.std.specs.Prelude.{◌≡◌};
    ghost use Rattle.r9_outside.specs.declared.input.reading.InputFault.TheVariants as fault;

    ghost from_gives = { λ _ e. e ≡ fault.Memory };

    fn from(_: Memory) -> Self {
        InputFault::Memory
    }
}

impl From<Failed> for InputFault {
    ghost use Rattle.std.specs.Prelude.{◌≡◌};
    ghost use Rattle.r9_outside.specs.declared.input.reading.InputFault.TheVariants as fault;

    ghost from_gives = { λ _ e. e ≡ fault.Failed };

    fn from(_: Failed) -> Self {
        InputFault::Failed
    }
}

/// Takes some bytes, and adds them to a text.
fn take_piece<S: Source>(
    input: &mut S,
    buffer: &mut [u8],
    text: &mut Bytes,
) -> Result<usize, InputFault>
    ensures within { IfOk result (λ n. n ≤ length buffer.old) }
    ensures len { IfOk result (λ n. length text.new ≡ length text.old + n) }
    ensures taken { IfOk result (λ n. IfSome (S.left input.old) (λ bytes.
        (text.new ≡ text.old ++ take n bytes) × (S.left input.new ≡ Some (drop n bytes)))) }
    ensures end { IfOk result (λ n. n ≡ 0 → 0 < length buffer.old → IfSome (S.left input.old) (λ bytes. bytes ≡ [])) }
    ensures failed { IsErrOf result InputFault.Failed → Rose (S.faults input.old) (S.faults input.new) }
    ensures counted { S.faults input.old ≤ S.faults input.new }
    ensures steady { ¬ IsErrOf result InputFault.Failed → S.faults input.new ≡ S.faults input.old }
{
    let count = input.take(buffer)?;
    text.push_all(&buffer[..count])?;
    Ok(count)
}

/// What the input has left up to its end, or so many of its first bytes as the limit says, where it has more. It takes memory for
/// these bytes. Where a call of the input failed it is not asked again.
pub fn read_up_to<S: Source>(
    alloc: Global,
    limit: usize,
    input: &mut S,
) -> Result<Bytes, InputFault>
    ensures read { IfOk result (λ text. HasRead limit (S.left input.old) text (S.left input.new)) }
    ensures failed { IsErrOf result InputFault.Failed → Rose (S.faults input.old) (S.faults input.new) }
    ensures counted { S.faults input.old ≤ S.faults input.new }
    ensures steady { ¬ IsErrOf result InputFault.Failed → S.faults input.new ≡ S.faults input.old }
{
    let mut text = Bytes::new(alloc);
    let mut buffer = [0u8; CHUNK];
    'taking: while text.len() < limit {
        let room = (limit - text.len()).min(CHUNK);
        if take_piece(input, &mut buffer[..room], &mut text)? == 0 {
            return Ok(text);
        }
    }
    Ok(text)
}
