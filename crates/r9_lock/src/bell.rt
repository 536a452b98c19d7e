//! How a thread waits for a step of another one.
use std::hint::spin_loop;
use std::sync::Wait;
use std::sync::atomic::Ordering::SeqCst;
use std::sync::atomic::{AtomicBool, AtomicU64};

/// Rung after each step that another thread may sleep for. It saves time, and no promise rests on it.
#[derive(Drop)]
pub(crate) struct Bell {
    /// The longest pause of a thread before it sleeps.
    longest: u32,
    /// Whether a thread may sleep, or has just woken and may leave others asleep.
    awaited: AtomicBool,
    rings: AtomicU64,
}

/// What a thread is to do when it has looked in vain.
#[derive(Drop)]
pub(crate) enum Patience {
    /// To pause for so long.
    Pause(u32),
    /// To sleep, unless there were more rings than these.
    Sleep(u64),
}

impl Bell {
    pub(crate) fn new(longest: u32) -> Bell {
        Bell {
            longest,
            awaited: AtomicBool::new(false),
            rings: AtomicU64::new(0),
        }
    }

    // Whether a thread may sleep. The ring is then counted.
    fn is_heard(&self) -> bool {
        let heard = self.awaited.load(SeqCst) && self.awaited.swap(false, SeqCst);
        if heard {
            self.rings.fetch_add(1, SeqCst);
        }
        heard
    }

    /// Wakes a thread, if one sleeps.
    pub(crate) fn ring(&self) {
        if self.is_heard() {
            self.rings.wake_one();
        }
    }

    /// Wakes all threads that sleep.
    pub(crate) fn ring_all(&self) {
        if self.is_heard() {
            self.rings.wake_all();
        }
    }

    /// To be called after each look in vain. Each pause is twice the last one, so that many threads do not get in the way of
    /// the one whose step they wait for. Before the last look the rings are read, and then the bell is awaited: so a step
    /// that comes after that look is heard.
    pub(crate) fn pause<R: Wait>(&self, rt: &R, patience: Patience) -> Patience {
        match patience {
            Patience::Pause(spins) if spins <= self.longest => {
                for _ in 0..spins {
                    spin_loop();
                }
                Patience::Pause(spins.saturating_mul(2))
            }
            Patience::Pause(_) => {
                let rings = self.rings.load(SeqCst);
                self.awaited.store(true, SeqCst);
                Patience::Sleep(rings)
            }
            Patience::Sleep(rings) => {
                self.rings.park(rt, (rings % (1 << 32)) as u32);
                self.awaited.store(true, SeqCst);
                Patience::Pause(1)
            }
        }
    }
}
