//! How far a writer has come.
use std::sync::Wait;
use std::sync::atomic::Ordering::SeqCst;
use std::sync::atomic::{AtomicBool, AtomicU64};

/// For how many entries of the history all replies to a session were put. The writer tells it, and the reader may wait for it. No
/// promise rests on it.
#[derive(Drop)]
pub(crate) struct Progress {
    entries: AtomicU64,
    /// Whether the reader may sleep.
    awaited: AtomicBool,
}

impl Progress {
    /// None was put.
    pub(crate) fn new() -> Progress {
        Progress {
            entries: AtomicU64::new(0),
            awaited: AtomicBool::new(false),
        }
    }

    /// All was put that was replied up to so many entries.
    pub(crate) fn tell(&self, entries: u64) {
        self.entries.store(entries, SeqCst);
        if self.awaited.swap(false, SeqCst) {
            self.entries.wake_all();
        }
    }

    /// The writer has ended. Nothing more is put, and nobody waits for it.
    pub(crate) fn end(&self) {
        self.tell(u64::MAX);
    }

    /// Waits until all was put that was replied up to so many entries, or the writer has ended.
    // The number that was looked at is the one with which the thread sleeps: if it has changed by then, the thread does not sleep.
    pub(crate) fn wait<R: Wait>(&self, rt: &R, entries: u64) {
        for _ in rt.forever() {
            let put = self.entries.load(SeqCst);
            if put >= entries {
                return;
            }
            self.awaited.store(true, SeqCst);
            self.entries.park(rt, (put % (1 << 32)) as u32);
        }
    }
}
