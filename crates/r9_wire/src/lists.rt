//! Lists of names and of qids.

ghost use Rattle.std.specs.Prelude.{◌≡◌, ◌==◌, ◌++◌, ◌∷◌, [], length, map, OnOk, OnErr};
ghost use Rattle.r9_wire.specs.Qid.{qid_of};

use crate::message::Qid;
use r9_memory::Memory;
use r9_text::Bytes;
use std::alloc::Global;
use std::marker::Model;

/// Names in their order.
#[derive(Debug, Drop)]
pub struct Names {
    items: Vec<Bytes>,
}

impl Model for Names {
    ghost use Rattle.std.specs.Prelude.{List, ℕ};

    ghost Value = { List (List ℕ) };

    ghost view = { λ n. n.items.items };
}

impl Names {
    /// No names.
    pub fn new(alloc: Global) -> Self
        ensures { result ≡ [] }
    {
        Names {
            items: Vec::new(alloc),
        }
    }

    /// Adds a name at the end.
    pub fn push(&mut self, name: Bytes) -> Result<(), Memory>
        ensures ok { OnOk result (self.new ≡ self.old ++ name ∷ []) }
        ensures err { OnErr result (self.new ≡ self.old) }
    {
        self.items.push(name)?;
        Ok(())
    }

    /// The names in order.
    pub fn as_slice(&self) -> &[Bytes]
        ensures { result.now ≡ self.now }
    {
        self.items.as_slice()
    }

    /// How many they are.
    pub fn len(&self) -> usize
        ensures { result ≡ length self.now }
    {
        self.items.len()
    }

    /// Whether there are none.
    pub fn is_empty(&self) -> bool
        ensures { result ≡ (length self.now == 0) }
    {
        self.items.is_empty()
    }
}

/// Qids in their order.
#[derive(Debug, Drop)]
pub struct Qids {
    items: Vec<Qid>,
}

impl Model for Qids {
    ghost use Rattle.std.specs.Prelude.{List, map};
    ghost use Rattle.model_files.specs.wire.Message as model;
    ghost use Rattle.r9_wire.specs.Qid.{qid_of};

    ghost Value = { List model.Qid };

    ghost view = { λ q. map qid_of q.items.items };
}

impl Qids {
    /// No qids.
    pub fn new(alloc: Global) -> Self
        ensures { result ≡ [] }
    {
        Qids {
            items: Vec::new(alloc),
        }
    }

    /// Adds a qid at the end.
    pub fn push(&mut self, qid: Qid) -> Result<(), Memory>
        ensures ok { OnOk result (self.new ≡ self.old ++ qid_of qid ∷ []) }
        ensures err { OnErr result (self.new ≡ self.old) }
    {
        self.items.push(qid)?;
        Ok(())
    }

    /// The qids in order.
    pub fn as_slice(&self) -> &[Qid]
        ensures { map qid_of result.now ≡ self.now }
    {
        self.items.as_slice()
    }

    /// How many they are.
    pub fn len(&self) -> usize
        ensures { result ≡ length self.now }
    {
        self.items.len()
    }

    /// Whether there are none.
    pub fn is_empty(&self) -> bool
        ensures { result ≡ (length self.now == 0) }
    {
        self.items.is_empty()
    }
}
