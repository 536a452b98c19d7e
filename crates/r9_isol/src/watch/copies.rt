//! Copies of notes.

ghost use Rattle.std.specs.Prelude.{◌≡◌, IfOk};

use r9_event::event::Note;
use r9_memory::Memory;
use std::alloc::Global;

/// A note once more.
pub(crate) fn copy_note(alloc: Global, note: &Note) -> Result<Note, Memory>
    ensures { IfOk result (λ copy. copy ≡ note.now) }
{
    Ok(match note {
        Note::Made {
            number,
            serial,
            name,
            r,
            depth,
        } => Note::Made {
            number: *number,
            serial: *serial,
            name: name.try_clone(alloc)?,
            r: *r,
            depth: *depth,
        },
        Note::Moved { name, r } => Note::Moved {
            name: name.try_clone(alloc)?,
            r: *r,
        },
        Note::Resized { name, r } => Note::Resized {
            name: name.try_clone(alloc)?,
            r: *r,
        },
        Note::Current(current) => Note::Current(*current),
        Note::Hidden(hidden) => Note::Hidden(*hidden),
        Note::Mouse {
            x,
            y,
            buttons,
            msec,
        } => Note::Mouse {
            x: *x,
            y: *y,
            buttons: *buttons,
            msec: *msec,
        },
        Note::Key(bytes) => Note::Key(bytes.try_clone(alloc)?),
        Note::Deleted => Note::Deleted,
    })
}
