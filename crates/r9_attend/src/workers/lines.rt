//! The lines of sessions that did not end plainly.
ghost use Rattle.std.specs.Prelude.{◌≡◌, ◌++◌, OnOk, IfOk, is_some, ◌||◌};
ghost use Rattle.std.specs.Fmt.{decimal};
ghost use Rattle.std.specs.Option.{option_to_list};
ghost use Rattle.r9_attend.specs.workers.Lines.{read_text, write_text, session_line, lines_of, unplain_of};

use crate::attend::{Attended, ReadEnd, WriteEnd};
use r9_memory::Memory;
use r9_text::{Bytes, push_decimal};
use std::alloc::Global;

/// A session one of whose ends has a line, with both ends.
#[derive(Clone, Copy, Debug, PartialEq, Eq)]
pub struct Unplain {
    pub session: u32,
    pub reader: ReadEnd,
    pub writer: WriteEnd,
}

fn has_line(reader: ReadEnd, writer: WriteEnd) -> bool
    ensures { result ≡ (is_some (read_text reader) || is_some (write_text writer)) }
{
    matches!(
        reader,
        ReadEnd::BadSize(_)
            | ReadEnd::Cut(_)
            | ReadEnd::Duplicate(_)
            | ReadEnd::ReadFault
            | ReadEnd::Memory
    ) || matches!(writer, WriteEnd::WriteFault | WriteEnd::Memory)
}

/// The session with its ends, where one of them has a line.
pub(crate) fn with_line(ends: Attended) -> Option<Unplain>
    ensures { option_to_list result ≡ unplain_of ends }
{
    let session = ends.session?;
    if !has_line(ends.reader, ends.writer) {
        return None;
    }
    Some(Unplain {
        session,
        reader: ends.reader,
        writer: ends.writer,
    })
}

// The bytes and the digits of a number.
fn numbered(alloc: Global, text: &[u8], number: u64) -> Result<Bytes, Memory>
    ensures { IfOk result (λ bytes. bytes ≡ text.now ++ decimal number) }
{
    let mut bytes = Bytes::from_slice(alloc, text)?;
    push_decimal(&mut bytes, number)?;
    Ok(bytes)
}

fn reader_text(alloc: Global, end: ReadEnd) -> Result<Option<Bytes>, Memory>
    ensures { IfOk result (λ text. text ≡ read_text end) }
{
    let text = match end {
        ReadEnd::BadSize(size) => numbered(alloc, b"bad size ", u64::from(size))?,
        ReadEnd::Cut(_) => Bytes::from_slice(alloc, b"cut")?,
        ReadEnd::Duplicate(tag) => numbered(alloc, b"duplicate tag ", u64::from(tag))?,
        ReadEnd::ReadFault => Bytes::from_slice(alloc, b"read fault")?,
        ReadEnd::Memory => Bytes::from_slice(alloc, b"memory")?,
        ReadEnd::Ended | ReadEnd::Closed | ReadEnd::Spent(_) | ReadEnd::Crowded => return Ok(None),
    };
    Ok(Some(text))
}

fn writer_text(alloc: Global, end: WriteEnd) -> Result<Option<Bytes>, Memory>
    ensures { IfOk result (λ text. text ≡ write_text end) }
{
    let text = match end {
        WriteEnd::WriteFault => Bytes::from_slice(alloc, b"write fault")?,
        WriteEnd::Memory => Bytes::from_slice(alloc, b"memory")?,
        WriteEnd::Done | WriteEnd::Spent(_) | WriteEnd::Crowded => return Ok(None),
    };
    Ok(Some(text))
}

// Adds the line, if there is a text.
fn push_line(out: &mut Bytes, session: u32, text: Option<Bytes>) -> Result<(), Memory>
    ensures { OnOk result (out.new ≡ out.old ++ session_line session text) }
{
    let Some(text) = text else { return Ok(()) };
    out.push_all(b"session ")?;
    push_decimal(out, u64::from(session))?;
    out.push_all(b": ")?;
    out.push_all(text.as_slice())?;
    out.push(b'\n')
}

impl Unplain {
    /// The lines that tell on standard error how the session ended, each with its newline, the reader's first.
    pub fn lines(&self, alloc: Global) -> Result<Bytes, Memory>
        ensures { IfOk result (λ text. text ≡ lines_of self.now) }
    {
        let mut text = Bytes::new(alloc);
        push_line(&mut text, self.session, reader_text(alloc, self.reader)?)?;
        push_line(&mut text, self.session, writer_text(alloc, self.writer)?)?;
        Ok(text)
    }
}
