//! How often each number of a kind is referred to.

ghost use Rattle.std.specs.Prelude.{◌≡◌, ◌==◌, ◌<◌, ◌≤◌, ◌+◌, ℕ, Bool, true, false, not, cond, nat_lt, ◌&&◌, ◌||◌, OnOk, OnErr};
ghost use Rattle.std.specs.HashMap.{IsEmpty};
ghost use Rattle.r9_images.specs.uses.Tally.{count_of, gone_of, knows, room_of};

use r9_memory::Memory;
use std::alloc::Global;
use std::collections::HashMap;

/// How often one number is referred to, and whether what has the number has gone.
#[derive(Clone, Copy, PartialEq, Eq, Debug)]
pub(crate) struct Use {
    pub(crate) count: u64,
    pub(crate) gone: bool,
}

/// How often each number of a kind is referred to.
#[derive(Drop)]
pub struct Tally {
    pub(crate) uses: HashMap<u32, Use>,
    // How many references were ever made.
    pub(crate) made: u64,
    ghost most: { (q : ℕ) → count_of uses q ≤ made },
}

impl Tally {
    pub fn new(alloc: Global) -> Self
        ensures none { (q : ℕ) → count_of result.uses q ≡ 0 }
        ensures gone { (q : ℕ) → gone_of result.uses q ≡ false }
    {
        Tally {
            uses: HashMap::new(alloc),
            made: 0,
        }
    }

    /// How often the number is referred to.
    pub fn count(&self, number: u32) -> u64
        ensures { result ≡ count_of self.now.uses number }
    {
        match self.uses.get(&number) {
            Some(u) => u.count,
            None => 0,
        }
    }

    /// Whether the number is referred to, or what has it was marked as gone.
    pub fn stays(&self, number: u32) -> bool
        ensures { result ≡ (nat_lt 0 (count_of self.now.uses number) || gone_of self.now.uses number) }
    {
        match self.uses.get(&number) {
            Some(u) => u.count > 0 || u.gone,
            None => false,
        }
    }

    /// Makes room for two more references.
    pub fn reserve(&mut self) -> Result<(), Memory>
        ensures room { OnOk result (1 < room_of self.new.uses self.new.made) }
        ensures full { OnErr result (room_of self.old.uses self.old.made ≤ 1) }
        ensures more { room_of self.old.uses self.old.made ≤ room_of self.new.uses self.new.made }
        ensures counts { (q : ℕ) → count_of self.new.uses q ≡ count_of self.old.uses q }
        ensures gone { (q : ℕ) → gone_of self.new.uses q ≡ gone_of self.old.uses q }
    {
        if self.made >= u64::MAX - 1 {
            return Err(Memory);
        }
        self.uses.reserve(2)?;
        Ok(())
    }

    /// The number is referred to once more.
    pub fn add(&mut self, number: u32)
        requires { 0 < room_of self.old.uses self.old.made }
        ensures counts { (q : ℕ) → count_of self.new.uses q ≡ cond (number == q) 1 0 + count_of self.old.uses q }
        ensures gone { (q : ℕ) → gone_of self.new.uses q ≡ gone_of self.old.uses q }
        ensures known { (q : ℕ) → knows self.old.uses q ≡ true → knows self.new.uses q ≡ true }
        ensures room { room_of self.old.uses self.old.made ≤ room_of self.new.uses self.new.made + 1 }
    {
        let was = match self.uses.get(&number) {
            Some(u) => *u,
            None => Use {
                count: 0,
                gone: false,
            },
        };
        let now = Use {
            count: was.count + 1,
            gone: was.gone,
        };
        self.made += 1;
        match self.uses.insert(number, now) {
            Ok(_) => {}
            Err(_) => unreachable!(),
        }
    }

    /// The number is referred to once less.
    pub fn take(&mut self, number: u32)
        requires { 0 < count_of self.old.uses number }
        ensures counts { (q : ℕ) → count_of self.old.uses q ≡ cond (number == q) 1 0 + count_of self.new.uses q }
        ensures gone { (q : ℕ) → gone_of self.new.uses q ≡ gone_of self.old.uses q }
        ensures known { (q : ℕ) → knows self.new.uses q ≡ knows self.old.uses q }
        ensures room { room_of self.new.uses self.new.made ≡ room_of self.old.uses self.old.made }
    {
        if let Some(u) = self.uses.get_mut(&number) {
            u.count -= 1;
        }
    }

    /// What has the number is marked as gone.
    pub fn mark(&mut self, number: u32)
        requires { knows self.old.uses number ≡ true }
        ensures counts { (q : ℕ) → count_of self.new.uses q ≡ count_of self.old.uses q }
        ensures gone { (q : ℕ) → gone_of self.new.uses q ≡ ((number == q) || gone_of self.old.uses q) }
        ensures known { (q : ℕ) → knows self.new.uses q ≡ knows self.old.uses q }
        ensures room { room_of self.new.uses self.new.made ≡ room_of self.old.uses self.old.made }
    {
        if let Some(u) = self.uses.get_mut(&number) {
            u.gone = true;
        }
    }

    /// What has the number is no longer marked. A number to which nothing refers has no entry any more.
    pub fn forget(&mut self, number: u32)
        ensures counts { (q : ℕ) → count_of self.new.uses q ≡ count_of self.old.uses q }
        ensures gone { (q : ℕ) → gone_of self.new.uses q ≡ (not (number == q) && gone_of self.old.uses q) }
        ensures room { room_of self.old.uses self.old.made ≤ room_of self.new.uses self.new.made }
    {
        if self.count(number) == 0 {
            let _ = self.uses.remove(&number);
            return;
        }
        if let Some(u) = self.uses.get_mut(&number) {
            u.gone = false;
        }
    }

    /// Gives the number an entry, so that it can be marked.
    pub fn know(&mut self, number: u32) -> Result<(), Memory>
        ensures known { OnOk result (knows self.new.uses number ≡ true) }
        ensures counts { (q : ℕ) → count_of self.new.uses q ≡ count_of self.old.uses q }
        ensures gone { (q : ℕ) → gone_of self.new.uses q ≡ gone_of self.old.uses q }
        ensures room { room_of self.old.uses self.old.made ≤ room_of self.new.uses self.new.made + 1 }
    {
        if self.uses.contains_key(&number) {
            return Ok(());
        }
        self.uses.insert(
            number,
            Use {
                count: 0,
                gone: false,
            },
        )?;
        Ok(())
    }
}
