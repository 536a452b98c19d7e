//! The bells of those who wait for entries.
ghost use Rattle.std.specs.Prelude.{◌≡◌, length};

use crate::bell::Bell;
use std::alloc::{AllocError, Global};
use std::sync::atomic::AtomicU64;
use std::sync::atomic::Ordering::SeqCst;

/// How many bells there are.
const BELLS: u32 = 64;

/// The longest pause of a thread that waits for an entry, in spins.
const ENTRY_PAUSE: u32 = 32;

/// The set of the one bell that a listener has. Listeners whose numbers differ by a multiple of 64 have the same bell.
pub fn bell_of(listener: u32) -> u64 {
    1 << (listener % BELLS)
}

/// A bell, with how many entries there were when it was last rung.
#[derive(Drop)]
pub(crate) struct Growth {
    pub(crate) bell: Bell,
    entries: AtomicU64,
}

impl Growth {
    fn new() -> Growth {
        Growth {
            bell: Bell::new(ENTRY_PAUSE),
            entries: AtomicU64::new(0),
        }
    }

    /// Whether it was rung when there were more than so many entries.
    pub(crate) fn has_rung_after(&self, entries: u64) -> bool {
        self.entries.load(SeqCst) > entries
    }

    // The number is told before those who may sleep are woken: who awaits the bell and then looks sees it, or is woken. A ring
    // for fewer entries that comes late does not hide one for more.
    pub(crate) fn ring(&self, entries: u64) {
        self.entries.fetch_max(entries, SeqCst);
        self.bell.ring_all();
    }
}

/// All bells.
#[derive(Drop)]
pub(crate) struct Bells {
    all: Vec<Growth>,
    ghost many: { length all.items ≡ 64 },
}

impl Bells {
    /// Bells that were never rung.
    pub(crate) fn start(alloc: Global) -> Result<Bells, AllocError> {
        let mut all = Vec::new(alloc);
        for _ in 0..BELLS {
            all.push(Growth::new())?;
        }
        Ok(Bells { all })
    }

    /// The bell of a listener.
    pub(crate) fn of(&self, listener: u32) -> &Growth {
        &self.all[(listener % BELLS) as usize]
    }

    /// Rings those of a set, after the step that made so many entries.
    pub(crate) fn ring(&self, set: u64, entries: u64) {
        let mut left = set;
        for bell in &self.all {
            if left == 0 {
                return;
            }
            if left % 2 == 1 {
                bell.ring(entries);
            }
            left /= 2;
        }
    }
}
