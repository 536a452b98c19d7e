//! Values by number, in a slab.
#![tactic(auto)]

ghost use Rattle.std.specs.Prelude.{◌≡◌, ◌+◌, ◌<◌, ◌≤◌, ◌==◌, ℕ, Some, None, max, min, option_copied, slice_index_or, IsSome, OnErr, OnOk, if◌then◌else◌};
ghost use Rattle.r9_locate.specs.numbered.Table.{IsTable};

use r9_memory::Memory;
use slab::Slab;
use std::alloc::Global;

/// The value of each number that was given out, where it has one. The slab picks the keys under which values are kept, and a
/// table leads from a number to its key, since numbers come back in an order of their own.
#[derive(Drop)]
pub struct Numbered<T> {
    values: Slab<T>,
    keys: Vec<Option<usize>>,
    ghost table: { IsTable values keys.items },
}

impl<T> Numbered<T> {
    ghost use Rattle.r9_locate.specs.numbered.Numbered.{count_of, value_at, CanInsert};

    /// No number was given out.
    pub fn new(alloc: Global) -> Self
        ensures values { (n : ℕ) → value_at result n ≡ None }
        ensures count { count_of result ≡ 0 }
    {
        Numbered {
            values: Slab::new(alloc),
            keys: Vec::new(alloc),
        }
    }

    /// How many numbers were given out.
    pub fn len(&self) -> usize
        ensures value { result ≡ count_of self.now }
        ensures most { result ≤ 4294967295 }
    {
        let _ = &self.values;
        self.keys.len()
    }

    /// The value of a number, where it has one.
    pub fn get(&self, number: u32) -> Option<&T>
        ensures { option_copied result ≡ value_at self.now number }
    {
        let key = key_of(&self.keys, number)?;
        self.values.get(key)
    }

    /// Makes room for one more value, also under a number that was never given out. The values stay as they are.
    pub fn reserve(&mut self) -> Result<(), Memory>
        ensures room { OnOk result ((n : ℕ) → n ≤ count_of self.old → CanInsert self.new n) }
        ensures kept { (n : ℕ) → value_at self.new n ≡ value_at self.old n }
        ensures count { count_of self.new ≡ count_of self.old }
    {
        if self.keys.len() >= u32::MAX as usize {
            return Err(Memory);
        }
        self.values.reserve(1)?;
        self.keys.reserve(1)?;
        Ok(())
    }

    /// Puts a value under a number that has none, or is the next one. It takes no memory.
    pub fn insert(&mut self, number: u32, value: T)
        requires room { CanInsert self.old number }
        requires free { value_at self.old number ≡ None }
        ensures put { (n : ℕ) → value_at self.new n ≡ (if n == number then Some value else value_at self.old n) }
        ensures count { count_of self.new ≡ max (count_of self.old) (number + 1) }
    {
        let key = self.values.insert_reserved(value);
        let at = number as usize;
        if at < self.keys.len() {
            self.keys[at] = Some(key);
        } else {
            self.keys.push_reserved(Some(key));
        }
    }

    /// Takes the value of a number out. It takes no memory, and there is room for another one then.
    pub fn remove(&mut self, number: u32) -> T
        requires { IsSome (value_at self.old number) }
        ensures value { value_at self.old number ≡ Some result }
        ensures removed { (n : ℕ) → value_at self.new n ≡ (if n == number then None else value_at self.old n) }
        ensures count { count_of self.new ≡ count_of self.old }
        ensures room { CanInsert self.new number }
    {
        match self.keys[number as usize] {
            Some(key) => {
                self.keys[number as usize] = None;
                self.values.remove(key)
            }
            None => unreachable!(),
        }
    }

    /// Takes the numbers from `count` on back, none of which has a value: they were not given out then. It takes no memory.
    pub fn shorten(&mut self, count: usize)
        requires { (n : ℕ) → count ≤ n → value_at self.old n ≡ None }
        ensures kept { (n : ℕ) → value_at self.new n ≡ value_at self.old n }
        ensures count { count_of self.new ≡ min (count_of self.old) count }
    {
        let _ = &self.values;
        self.keys.truncate(count);
    }
}

// The key of a number, where it has a value.
fn key_of(keys: &[Option<usize>], number: u32) -> Option<usize>
    ensures { result ≡ slice_index_or keys.now number None }
{
    *keys.get(number as usize)?
}
