//! Waiting reads in order of arrival, each under the tag of its message.

ghost use Rattle.std.specs.Prelude.{◌≡◌, ◌==◌, ◌≤◌, ◌++◌, ◌∷◌, [], List, ℕ, Bool, None, Some, length, not, position, IfSome, OnOk, OnErr, IfErr, ◌<◌};
ghost use Rattle.std.specs.List.{filter, slice_get, remove};
ghost use Rattle.r9_tags.specs.Waiting.{waits, park_refusal, refusal_of, at, but};

use r9_memory::Memory;
use std::alloc::Global;
use std::marker::Model;

/// How many reads wait at most.
pub const LIMIT: usize = 64;

/// Why a read does not wait.
#[derive(Clone, Copy, Debug, PartialEq, Eq)]
pub enum ParkFault {
    /// A read with its tag waits.
    Duplicate,
    /// 64 reads wait.
    Full,
    /// There was no memory.
    Memory,
}

/// Waiting reads. Contracts see pairs of a tag and what waits under it, in order of arrival.
#[derive(Drop)]
pub struct Waiting<W> {
    reads: Vec<(u16, W)>,
}

impl<W> Model for Waiting<W> {
    ghost use Rattle.std.specs.Prelude.{List, ℕ, ◌≤◌, length};
    ghost use Rattle.r9_tags.specs.declared.waiting.TheConstants.{LIMIT};

    ghost Value = { List (ℕ × W) };

    ghost view = { λ waiting. waiting.reads.items };

    ghost invariant = { λ waiting. length waiting.reads.items ≤ LIMIT };
}

fn first_set(flags: &[bool]) -> Option<usize>
    ensures place { result ≡ position (λ flag. flag) flags.now }
    ensures bound { IfSome result (λ place. place < length flags.now) }
{
    flags.iter().position(|flag| *flag)
}

impl<W: Drop> Waiting<W> {
    /// No read.
    pub fn new(alloc: Global) -> Self
        ensures { result ≡ [] }
    {
        Waiting {
            reads: Vec::new(alloc),
        }
    }

    /// How many wait: at most 64.
    pub fn len(&self) -> usize
        ensures value { result ≡ length self.now }
        ensures limit { result ≤ LIMIT }
    {
        self.reads.len()
    }

    /// Whether none waits.
    pub fn is_empty(&self) -> bool
        ensures { result ≡ (length self.now == 0) }
    {
        self.reads.is_empty()
    }

    /// The reads in order of arrival.
    pub fn as_slice(&self) -> &[(u16, W)]
        ensures value { result.now ≡ self.now }
        ensures limit { length result.now ≤ LIMIT }
    {
        self.reads.as_slice()
    }

    /// Whether a read with this tag waits.
    pub fn has(&self, tag: u16) -> bool
        ensures { result ≡ waits self.now tag }
    {
        self.reads.iter().any(|read| read.0 == tag)
    }

    fn park_refusal(&self, tag: u16) -> Option<ParkFault>
        ensures { result ≡ park_refusal self.now tag }
    {
        if self.has(tag) {
            return Some(ParkFault::Duplicate);
        }
        if self.len() >= LIMIT {
            return Some(ParkFault::Full);
        }
        None
    }

    /// Adds a read as the last to have come. It is refused as a duplicate where its tag waits, and else where 64 wait.
    /// All then wait as before, and the read is dropped; so too for want of memory.
    pub fn park(&mut self, tag: u16, what: W) -> Result<(), ParkFault>
        ensures parked { OnOk result (self.new ≡ self.old ++ (tag, what) ∷ []) }
        ensures accepted { OnOk result (park_refusal self.old tag ≡ None) }
        ensures refused { IfErr result (λ fault. park_refusal self.old tag ≡ refusal_of fault) }
        ensures kept { OnErr result (self.new ≡ self.old) }
    {
        if let Some(fault) = self.park_refusal(tag) {
            return Err(fault);
        }
        match self.reads.push((tag, what)) {
            Ok(()) => Ok(()),
            Err(_) => Err(ParkFault::Memory),
        }
    }

    /// Takes out the read with this tag (flush(5)), and tells whether there was one.
    pub fn flush(&mut self, tag: u16) -> bool
        ensures waited { result ≡ waits self.old tag }
        ensures rest { self.new ≡ filter (λ read. not (read.0 == tag)) self.old }
    {
        let waited = self.has(tag);
        self.reads.retain(|read| read.0 != tag);
        waited
    }

    /// Takes out the read at a place.
    pub fn remove(&mut self, place: usize) -> (u16, W)
        requires { place < length self.old }
        ensures taken { slice_get self.old place ≡ Some result }
        ensures rest { self.new ≡ remove self.old place }
    {
        self.reads.remove(place)
    }

    /// Takes out the first read whose flag is set: None where none is set. There is one flag for each read, in order.
    pub fn take_first(&mut self, ready: &[bool]) -> Option<(u16, W)>
        requires { length ready.now ≡ length self.old }
        ensures taken { let place = position (λ flag. flag) ready.now in result ≡ at self.old place }
        ensures rest { let place = position (λ flag. flag) ready.now in self.new ≡ but self.old place }
    {
        match first_set(ready) {
            Some(place) => Some(self.reads.remove(place)),
            None => None,
        }
    }

    /// Takes out all reads.
    pub fn clear(&mut self)
        ensures { self.new ≡ [] }
    {
        self.reads.clear();
    }
}
