//! The header of a record.

ghost use Rattle.std.specs.Prelude.{◌≡◌, ◌++◌, ℕ, IfSome, IfNone, OnOk, OnErr};
ghost use Rattle.model_history.specs.records.Line.{line};
ghost use Rattle.model_history.specs.records.Record.{header_from};
ghost use Rattle.r9_journal.specs.Header.{IsHeader};

use r9_memory::Memory;
use r9_text::{Bytes, push_decimal, read_decimal};
use std::alloc::Global;

/// The header behind which the entries are numbered from 1.
const HEADER: &[u8] = b"rio9 1";

/// What stands before the number in a header that tells one.
const NUMBERED: &[u8] = b"rio9 2 ";

/// A header tells a number below this.
const NUMBER_LIMIT: u64 = 1 << 62;

/// The number of the first entry behind a line that is a header.
pub fn first_number(line: &[u8]) -> Option<u64>
    ensures found { IfSome result (IsHeader line.now) }
    ensures none { IfNone result ((n : ℕ) → IsHeader line.now n → ⊥) }
{
    if line == HEADER {
        return Some(1);
    }
    let number = read_decimal(line.strip_prefix(NUMBERED)?)?;
    if 1 <= number && number < NUMBER_LIMIT {
        Some(number)
    } else {
        None
    }
}

/// Adds the line of the header that tells the number of the first entry at the end, or nothing for want of memory. A record
/// has a number from 1 to 2^62-1 there.
pub fn write_header(alloc: Global, first: u64, out: &mut Bytes) -> Result<(), Memory>
    ensures ok { OnOk result (out.new ≡ out.old ++ line (header_from first)) }
    ensures err { OnErr result (out.new ≡ out.old) }
{
    let mut header = Bytes::from_slice(alloc, NUMBERED)?;
    push_decimal(&mut header, first)?;
    header.push(b'\n')?;
    out.push_all(header.as_slice())
}
