//! The end of a text that grows.

ghost use Rattle.std.specs.Prelude.{◌≡◌, ◌≤◌, ◌++◌, [], length, OnOk, OnErr};
ghost use Rattle.model_files.specs.console.Console.{last_of};

use r9_memory::Memory;
use std::alloc::Global;
use std::marker::Model;

/// How many bytes are kept.
const KEPT: usize = 65_536;

/// The last 65,536 bytes of a text. It holds at most twice as many and forgets the front of these at once, so that a
/// byte is moved at most once in the mean.
#[derive(Drop)]
pub struct Transcript {
    bytes: Vec<u8>,
}

impl Model for Transcript {
    ghost use Rattle.std.specs.Prelude.{List, ℕ};
    ghost use Rattle.model_files.specs.console.Console.{last_of};

    ghost Value = { List ℕ };

    ghost view = { λ t. last_of 65536 t.bytes.items };
}

/// The last bytes of a text, as many as are kept.
fn end_of(text: &[u8]) -> &[u8]
    ensures end { result.now ≡ last_of 65536 text.now }
    ensures short { length result.now ≤ 65536 }
{
    &text[text.len().saturating_sub(KEPT)..]
}

impl Transcript {
    pub fn new(alloc: Global) -> Self
        ensures { result ≡ [] }
    {
        Transcript {
            bytes: Vec::new(alloc),
        }
    }

    /// Adds a piece at the end.
    pub fn push_all(&mut self, piece: &[u8]) -> Result<(), Memory>
        ensures ok { OnOk result (self.new ≡ last_of 65536 (self.old ++ piece.now)) }
        ensures err { OnErr result (self.new ≡ self.old) }
    {
        let end = end_of(piece);
        self.make_room(end.len());
        self.bytes.extend_from_slice(end)?;
        Ok(())
    }

    /// Forgets the front, where so many more bytes would be too many.
    fn make_room(&mut self, more: usize)
        requires { more ≤ 65536 }
        ensures { self.new ≡ self.old }
    {
        let len = self.bytes.len();
        if len + more > 2 * KEPT {
            self.bytes.copy_within(len - KEPT.., 0);
            self.bytes.truncate(KEPT);
        }
    }

    pub fn as_slice(&self) -> &[u8]
        ensures { result.now ≡ self.now }
    {
        end_of(self.bytes.as_slice())
    }
}
