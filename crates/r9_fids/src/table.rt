//! A finite map from fids to what they are bound to.

ghost use Rattle.std.specs.Prelude.{◌≡◌, ◌+◌, ◌≤◌, ◌↔◌, ◌==◌, Bool, List, ℕ, [], length, IsSome, OnOk, OnErr, IfOk, IfErr};
ghost use Rattle.std.specs.Option.{option_copied, option_copied_mut};
ghost use Rattle.std.specs.Ordering.{nat_cmp};
ghost use Rattle.std.specs.Borrow.{sem};
ghost use Rattle.std.specs.Map.{lookup, remove_entry, keys_of};
ghost use Rattle.std.specs.Map.Iter.{ShowsInOrder, deref_pair};
ghost use Rattle.std.specs.List.Sorted.{IsStrictlySortedBy};
ghost use Rattle.std.specs.BTreeMap.{insert_entry};

use r9_memory::Memory;
use std::alloc::Global;
use std::collections::BTreeMap;
use std::collections::btree_map::Iter;
use std::marker::Model;

/// The number of no file. It is never bound.
pub const NO_FID: u32 = 0xffff_ffff;

/// How many fids a table binds at most.
pub const LIMIT: usize = 1024;

/// What a fid is bound to. It may be open, for reading or writing (open(5)).
pub trait Openable {
    ghost is_open: { Self → Bool };

    /// Whether it is open.
    fn is_open(&self) -> bool
        ensures { result ≡ is_open self.now };
}

/// Why a fid is not bound, or does not serve.
#[derive(Clone, Copy, Debug, PartialEq, Eq)]
pub enum FidFault {
    /// The number of the refusal: 32 unknown fid, 33 fid in use, 36 file is open, 37 file is not open, 44 too many fids.
    Refused(u8),
    /// There was no memory.
    Memory,
}

/// A finite map from fids to what they are bound to. Contracts see its pairs in ascending order of the fids.
#[derive(Drop)]
pub struct FidTable<F> {
    entries: BTreeMap<u32, F>,
}

impl<F> Model for FidTable<F> {
    ghost use Rattle.std.specs.Prelude.{List, ℕ, ◌≤◌, length};
    ghost use Rattle.r9_fids.specs.declared.table.TheConstants.{LIMIT};

    ghost Value = { List (ℕ × F) };

    ghost view = { λ table. table.entries.entries };

    ghost invariant = { λ table. length table.entries.entries ≤ LIMIT };
}

ghost use Rattle.r9_fids.specs.Fids.{is_fid, bind_refusal, use_refusal, refusal_of, answer};

impl<F: Openable + Drop> FidTable<F> {
    ghost use Rattle.r9_fids.specs.Lending.{LendsFile};

    /// No fid.
    pub fn new(alloc: Global) -> Self
        ensures { result ≡ [] }
    {
        FidTable {
            entries: BTreeMap::new(alloc),
        }
    }

    /// How many fids are bound: at most 1,024.
    pub fn len(&self) -> usize
        ensures value { result ≡ length self.now }
        ensures limit { result ≤ LIMIT }
    {
        self.entries.len()
    }

    fn bind_refusal(&self, fid: u32) -> Option<u8>
        ensures { result ≡ bind_refusal self.now fid }
    {
        if fid == NO_FID || self.entries.contains_key(&fid) {
            return Some(33);
        }
        if self.entries.len() >= LIMIT {
            return Some(44);
        }
        None
    }

    /// Binds a fid. It is refused by 33 where it is bound or is `NO_FID`, and else by 44 where 1,024 are bound. The
    /// table then stays as it was, and the value is dropped; so too for want of memory.
    pub fn bind(&mut self, fid: u32, value: F) -> Result<(), FidFault>
        ensures bound { OnOk result (self.new ≡ insert_entry nat_cmp self.old fid value) }
        ensures accepted { OnOk result (bind_refusal self.old fid ≡ None) }
        ensures refused { IfErr result (λ fault. bind_refusal self.old fid ≡ refusal_of fault) }
        ensures kept { OnErr result (self.new ≡ self.old) }
    {
        if let Some(refusal) = self.bind_refusal(fid) {
            return Err(FidFault::Refused(refusal));
        }
        match self.entries.insert(fid, value) {
            Ok(_) => Ok(()),
            Err(_) => Err(FidFault::Memory),
        }
    }

    /// What a fid is bound to: None where it is not bound.
    pub fn get(&self, fid: u32) -> Option<&F>
        ensures { option_copied result ≡ lookup (is_fid fid) self.now }
    {
        self.entries.get(&fid)
    }

    /// What a fid is bound to, to be changed: None where it is not bound.
    pub fn get_mut(&mut self, fid: u32) -> Option<&mut F>
        ensures* writes_back { sem 𝓛 (LendsFile F.row self.entry fid result) }
        ensures value { option_copied_mut result ≡ lookup (is_fid fid) self.old }
    {
        self.entries.get_mut(&fid)
    }

    /// Takes a fid out of the table (clunk(5)), and gives what it was bound to: None where it was not bound.
    pub fn clunk(&mut self, fid: u32) -> Option<F>
        ensures value { result ≡ lookup (is_fid fid) self.old }
        ensures rest { self.new ≡ remove_entry (is_fid fid) self.old }
    {
        self.entries.remove(&fid)
    }

    /// Takes all fids out of the table.
    pub fn clear(&mut self)
        ensures { self.new ≡ [] }
    {
        self.entries.clear();
    }

    /// Whether a fid may be used by a message that wants its file open, or wants it not open: refused by 32 where it is
    /// not bound, by 36 where its file is open and is not wanted so, by 37 where it is not open and is wanted so.
    pub fn check_open(&self, fid: u32, want: bool) -> Result<(), FidFault>
        ensures { result ≡ answer (use_refusal F.is_open self.now fid want) }
    {
        let Some(value) = self.get(fid) else {
            return Err(FidFault::Refused(32));
        };
        match (value.is_open(), want) {
            (true, false) => Err(FidFault::Refused(36)),
            (false, true) => Err(FidFault::Refused(37)),
            _ => Ok(()),
        }
    }

    /// Whether no fid is bound.
    pub fn is_empty(&self) -> bool
        ensures { result ≡ (length self.now == 0) }
    {
        self.entries.is_empty()
    }

    /// The fids in ascending order, each with what it is bound to.
    pub fn iter(&self) -> Iter<'_, u32, F>
        ensures rest { result ≡ self.now }
        ensures runs { ShowsInOrder (deref_pair {K = ℕ} {X = F}) }
        ensures ascending { IsStrictlySortedBy nat_cmp (keys_of self.now) }
        ensures limit { length self.now ≤ LIMIT }
    {
        self.entries.iter()
    }
}
