// Two values with a history: one that keeps it, and one that keeps none of it.
ghost use Rattle.std.specs.Prelude.{◌≡◌, ◌+◌, ◌-◌, ◌^◌, ◌<◌, ◌≤◌, [], ◌∷◌, ◌++◌, length, Some, MatchOption, MatchBool};
ghost use Rattle.std.proofs.Common.{sym, ap, arith};
ghost use Rattle.std.proofs.lemmas.List.{drop_all};

use r9_lock::{Acted, Chronicle, bell_of};
use std::alloc::Global;

// The numbers that were noted. It answers how many there are, and `None` for want of memory. A note rings the bell of its number.
#[derive(Drop)]
pub struct Tape {
    pub notes: Vec<u32>,
}

impl Tape {
    pub fn new(alloc: Global) -> Tape
        ensures { result.notes.items ≡ [] }
    {
        Tape {
            notes: Vec::new(alloc),
        }
    }
}

impl Chronicle for Tape {
    // What to note, or `None` to look.
    type Ask = Option<u32>;

    type Answer = Option<u64>;

    type Entry = u32;

    ghost stored = { λ t. t.notes.items };

    ghost first = { λ _. 1 };

    ghost entries = { λ t. length t.notes.items };

    ghost stands = { λ t history. history ≡ t.notes.items };

    ghost acts = { λ before ask answer after. MatchOption ask ((after ≡ before) × (answer ≡ Some (length before))) (λ note. MatchOption answer (after ≡ before) (λ number. (after ≡ before ++ note ∷ []) × (number ≡ length after))) };

    ghost stands_for_stored = { λ t history is. record { counted = sym (ap length is); from = Prim.omega arith; to = Prim.omega arith; kept = sym is } };

    fn act(&mut self, ask: Option<u32>) -> Acted<Option<u64>> {
        let entered = match ask {
            Some(note) => self.notes.push(note).is_ok(),
            None => false,
        };
        let rings = bell_of(ask.unwrap_or(0));
        let answer = if entered || ask.is_none() {
            Some(self.notes.len() as u64)
        } else {
            None
        };
        Acted {
            answer,
            entered,
            rings,
        }
    }

    fn entries(&self) -> u64 {
        self.notes.len() as u64
    }

    fn first(&self) -> u64 {
        1
    }
}

// How many numbers were noted, which are forgotten.
#[derive(Drop)]
pub struct Count {
    made: u64,
    ghost few: { made < 2 ^ 62 },
}

impl Count {
    pub fn new() -> Count
        ensures { result.made ≡ 0 }
    {
        Count { made: 0 }
    }
}

impl Chronicle for Count {
    type Ask = u32;

    type Answer = ();

    type Entry = u32;

    ghost stored = { λ _. [] };

    ghost first = { λ c. c.made + 1 };

    ghost entries = { λ c. c.made };

    ghost stands = { λ c history. length history ≡ c.made };

    ghost acts = { λ before ask _ after. after ≡ before ++ ask ∷ [] };

    ghost stands_for_stored = { λ c history is. record { counted = sym is; from = Prim.omega arith; to = Prim.omega arith; kept = sym (drop_all (c.made + 1 - 1) history (Prim.omega arith)) } };

    fn act(&mut self, _ask: u32) -> Acted<()> {
        self.made += 1;
        Acted {
            answer: (),
            entered: true,
            rings: 0,
        }
    }

    fn entries(&self) -> u64 {
        self.made
    }

    fn first(&self) -> u64 {
        self.made + 1
    }
}
