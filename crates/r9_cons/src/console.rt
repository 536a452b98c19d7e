//! The keys and the text of one console.

ghost use Rattle.std.specs.Prelude.{◌≡◌, ◌+◌, ◌≤◌, ◌<◌, ◌++◌, ◌∷◌, ◌||◌, [], false, length, IsTrue, IsOk, IfOk, OnOk, OnErr};
ghost use Rattle.model_files.specs.console.Console.{empty, held, has_room, is_key, keyed, cooked_key, raw_key, with_line_ended, without_last, with_raw, with_text, read, after_read, given, rest, text, remembered};

use crate::line::Line;
use crate::transcript::Transcript;
use r9_memory::Memory;
use r9_text::Bytes;
use std::alloc::Global;
use std::collections::VecDeque;
use std::marker::Model;

/// How many bytes may wait; each ended line counts as one more.
const LIMIT: usize = 8_192;

/// Control-D, backspace, newline and control-U.
const END_OF_FILE: u8 = 0x04;

const ERASE: u8 = 0x08;

const NEWLINE: u8 = 0x0a;

const KILL: u8 = 0x15;

/// A window's console: the line that is being typed, the lines that have ended and wait to be read, and the end of all
/// text that was written and typed.
#[derive(Drop)]
pub struct Console {
    line: Line,
    ended: VecDeque<Bytes>,
    /// How many bytes of the first ended line were read.
    taken: usize,
    /// How many bytes wait.
    held: usize,
    raw: bool,
    transcript: Transcript,
    alloc: Global,
}

impl Model for Console {
    ghost use Rattle.model_files.specs.console.Console as model;

    ghost Value = { model.Console };

    ghost use Rattle.r9_cons.specs.Waiting.{unread, IsConsole};

    ghost view = { λ c. record { line = c.line; ended = unread c.taken c.ended.items; raw = c.raw; written = c.transcript } };

    ghost invariant = { λ c. IsConsole (record { line = c.line; ended = unread c.taken c.ended.items; raw = c.raw; written = c.transcript }) c.taken c.held c.ended.items };
}

fn is_key(byte: u8, key: &[u8]) -> bool
    ensures { result ≡ is_key byte key.now }
{
    matches!(key, [only] if *only == byte)
}

impl Console {
    /// An empty console, which edits lines.
    pub fn new(alloc: Global) -> Self
        ensures { result ≡ empty }
    {
        Console {
            line: Line::new(alloc),
            ended: VecDeque::new(alloc),
            taken: 0,
            held: 0,
            raw: false,
            transcript: Transcript::new(alloc),
            alloc,
        }
    }

    /// The bytes of one character come from the keyboard. In raw mode they are a line of their own. Else backspace
    /// takes the line's last character away and control-U the whole line; a newline ends the line and belongs to it,
    /// control-D ends it and does not; any other character is added. What would make more than 8,192 bytes wait is
    /// dropped; each ended line counts as one byte more. Where memory is short, nothing changes.
    #[tactic(auto, unfolding(model_files::specs::console::Console::keyed))]
    pub fn key(&mut self, bytes: &[u8]) -> Result<(), Memory>
        ensures ok { OnOk result (self.new ≡ remembered (keyed bytes.now self.old)) }
        ensures err { OnErr result (self.new ≡ self.old) }
        // Taking away takes no memory.
        ensures erases { self.old.raw ≡ false → IsTrue (is_key 8 bytes.now || is_key 21 bytes.now) → IsOk result }
    {
        if self.raw {
            self.raw_key(bytes)
        } else {
            self.cooked_key(bytes)
        }
    }

    fn has_room(&self, more: usize) -> bool
        ensures room { result ≡ has_room more self.now }
        ensures whole { remembered self.now ≡ self.now }
    {
        self.held <= LIMIT && more <= LIMIT - self.held
    }

    fn raw_key(&mut self, key: &[u8]) -> Result<(), Memory>
        ensures ok { OnOk result (self.new ≡ remembered (raw_key key.now self.old)) }
        ensures err { OnErr result (self.new ≡ self.old) }
    {
        if !self.has_room(key.len().saturating_add(1)) {
            return Ok(());
        }
        self.push_key(key)
    }

    fn push_key(&mut self, key: &[u8]) -> Result<(), Memory>
        requires { held self.old + (length key.now + 1) ≤ 8192 }
        ensures ok { OnOk result (self.new ≡ remembered (record self.old { ended = self.old.ended ++ key.now ∷ [] })) }
        ensures err { OnErr result (self.new ≡ self.old) }
    {
        let line = Bytes::from_slice(self.alloc, key)?;
        self.ended.push_back(line)?;
        self.held += key.len() + 1;
        Ok(())
    }

    fn cooked_key(&mut self, key: &[u8]) -> Result<(), Memory>
        ensures ok { OnOk result (self.new ≡ remembered (cooked_key key.now self.old)) }
        ensures err { OnErr result (self.new ≡ self.old) }
        ensures erases { IsTrue (is_key 8 key.now || is_key 21 key.now) → IsOk result }
    {
        if is_key(ERASE, key) {
            self.erase();
            Ok(())
        } else if is_key(KILL, key) {
            self.kill();
            Ok(())
        } else if is_key(END_OF_FILE, key) {
            if self.has_room(1) {
                self.end_line(&[])
            } else {
                Ok(())
            }
        } else if is_key(NEWLINE, key) {
            if self.has_room(2) {
                self.end_line(key)
            } else {
                Ok(())
            }
        } else if self.has_room(key.len()) {
            self.add(key)
        } else {
            Ok(())
        }
    }

    fn erase(&mut self)
        ensures { self.new ≡ remembered (record self.old { line = without_last self.old.line }) }
    {
        let before = self.line.len();
        self.line.erase();
        self.held -= before - self.line.len();
    }

    fn kill(&mut self)
        ensures { self.new ≡ remembered (record self.old { line = [] }) }
    {
        self.held -= self.line.len();
        self.line.clear();
    }

    fn add(&mut self, key: &[u8]) -> Result<(), Memory>
        requires { held self.old + length key.now ≤ 8192 }
        ensures ok { OnOk result (self.new ≡ remembered (record self.old { line = self.old.line ++ key.now ∷ [] })) }
        ensures err { OnErr result (self.new ≡ self.old) }
    {
        self.line.push(key)?;
        self.held += key.len();
        Ok(())
    }

    /// Ends the line, with these bytes more.
    fn end_line(&mut self, key: &[u8]) -> Result<(), Memory>
        requires { held self.old + length key.now + 1 ≤ 8193 }
        ensures ok { OnOk result (self.new ≡ remembered (with_line_ended key.now self.old)) }
        ensures err { OnErr result (self.new ≡ self.old) }
    {
        self.ended.reserve(1)?;
        let line = self.line.joined(self.alloc, key)?;
        self.transcript.push_all(line.as_slice())?;
        self.ended.push_back(line)?;
        self.held += key.len() + 1;
        self.line.clear();
        Ok(())
    }

    /// What a read of so many bytes gives: at most that many of the oldest ended line, whose rest waits on. A read of 0
    /// bytes gives none and takes nothing. None exactly where the count is not 0 and no line has ended. Where memory is
    /// short, nothing changes.
    #[tactic(auto, unfolding(model_files::specs::console::Console::read, model_files::specs::console::Console::after_read))]
    pub fn read(&mut self, count: u32) -> Result<Option<Bytes>, Memory>
        ensures gives { IfOk result (λ given. given ≡ read count self.old) }
        ensures takes { OnOk result (self.new ≡ after_read count self.old) }
        ensures err { OnErr result (self.new ≡ self.old) }
        // Giving nothing takes no memory.
        ensures nothing { count ≡ 0 → IsOk result }
        ensures waits { self.old.ended ≡ [] → IsOk result }
    {
        if count == 0 {
            return Ok(Some(Bytes::new(self.alloc)));
        }
        self.read_line(count as usize)
    }

    fn read_line(&mut self, count: usize) -> Result<Option<Bytes>, Memory>
        ensures gives { IfOk result (λ bytes. bytes ≡ given count self.old.ended) }
        ensures takes { OnOk result (self.new ≡ record self.old { ended = rest count self.old.ended }) }
        ensures err { OnErr result (self.new ≡ self.old) }
        ensures waits { self.old.ended ≡ [] → IsOk result }
    {
        let Some(line) = self.ended.front() else {
            return Ok(None);
        };
        let rest = &line.as_slice()[self.taken..];
        if count < rest.len() {
            let piece = Bytes::from_slice(self.alloc, &rest[..count])?;
            self.taken += count;
            self.held -= count;
            return Ok(Some(piece));
        }
        let len = rest.len();
        let piece = if self.taken == 0 {
            None
        } else {
            Some(Bytes::from_slice(self.alloc, rest)?)
        };
        let line = self.ended.pop_front();
        self.taken = 0;
        self.held -= len + 1;
        Ok(piece.or(line))
    }

    /// Keys are given raw from now on, or lines are edited again. The first ends a line that is not empty. Where memory
    /// is short, nothing changes.
    #[tactic(auto, unfolding(model_files::specs::console::Console::with_raw))]
    pub fn set_raw(&mut self, raw: bool) -> Result<(), Memory>
        ensures ok { OnOk result (self.new ≡ remembered (with_raw raw self.old)) }
        ensures err { OnErr result (self.new ≡ self.old) }
        // Only a line that ends takes memory.
        ensures edits { raw ≡ false → IsOk result }
        ensures no_line { self.old.line ≡ [] → IsOk result }
    {
        if raw && !self.line.is_empty() {
            self.end_line(&[])?;
        }
        self.raw = raw;
        Ok(())
    }

    /// Bytes are written to the console: they are added to the text. Where memory is short, nothing changes.
    pub fn write_text(&mut self, bytes: &[u8]) -> Result<(), Memory>
        ensures ok { OnOk result (self.new ≡ remembered (with_text bytes.now self.old)) }
        ensures err { OnErr result (self.new ≡ self.old) }
    {
        self.transcript.push_all(bytes)
    }

    /// The last 65,536 bytes of what was written, and of the lines that ended by a key or by raw mode, in order.
    pub fn text(&self) -> &[u8]
        ensures { result.now ≡ text self.now }
    {
        self.transcript.as_slice()
    }
}
