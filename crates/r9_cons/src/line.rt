//! A line that is being typed.

ghost use Rattle.std.specs.Prelude.{◌≡◌, ◌+◌, ◌<◌, ◌^◌, ◌==◌, ◌++◌, [], ◌∷◌, length, IfOk, OnOk, OnErr};
ghost use Rattle.std.specs.List.{concat, sum_by};
ghost use Rattle.model_files.specs.console.Console.{without_last};

use r9_memory::Memory;
use r9_text::Bytes;
use std::alloc::Global;
use std::marker::Model;

/// The characters of a line, each the bytes of one key.
#[derive(Drop)]
pub struct Line {
    bytes: Vec<u8>,
    /// How many bytes each character has.
    lens: Vec<u16>,
}

impl Model for Line {
    ghost use Rattle.std.specs.Prelude.{◌≡◌, List, ℕ, length};
    ghost use Rattle.r9_cons.specs.Line.{cut, total};

    ghost Value = { List (List ℕ) };

    ghost view = { λ l. cut l.lens.items l.bytes.items };

    ghost invariant = { λ l. total l.lens.items ≡ length l.bytes.items };
}

impl Line {
    pub fn new(alloc: Global) -> Self
        ensures { result ≡ [] }
    {
        Line {
            bytes: Vec::new(alloc),
            lens: Vec::new(alloc),
        }
    }

    pub fn is_empty(&self) -> bool
        ensures { result ≡ (length self.now == 0) }
    {
        self.lens.is_empty()
    }

    /// How many bytes it has.
    pub fn len(&self) -> usize
        ensures { result ≡ sum_by length self.now }
    {
        self.bytes.len()
    }

    /// Adds a character.
    pub fn push(&mut self, key: &[u8]) -> Result<(), Memory>
        requires { length key.now < 2 ^ 16 }
        ensures ok { OnOk result (self.new ≡ self.old ++ key.now ∷ []) }
        ensures err { OnErr result (self.new ≡ self.old) }
    {
        self.bytes.reserve(key.len())?;
        self.lens.push(key.len() as u16)?;
        self.bytes.extend_from_slice(key)?;
        Ok(())
    }

    /// Takes the last character away.
    pub fn erase(&mut self)
        ensures { self.new ≡ without_last self.old }
    {
        if let Some(len) = self.lens.pop() {
            let end = self.bytes.len() - usize::from(len);
            self.bytes.truncate(end);
        }
    }

    pub fn clear(&mut self)
        ensures { self.new ≡ [] }
    {
        self.bytes.clear();
        self.lens.clear();
    }

    /// The bytes of the line, and some more.
    pub fn joined(&self, alloc: Global, more: &[u8]) -> Result<Bytes, Memory>
        ensures { IfOk result (λ bytes. bytes ≡ concat self.now ++ more.now) }
    {
        let mut bytes = Vec::with_capacity(alloc, self.bytes.len().saturating_add(more.len()))?;
        bytes.extend_from_slice(&self.bytes)?;
        bytes.extend_from_slice(more)?;
        Ok(bytes.into())
    }
}
