//! Threads that begin together.
use std::sync::Wait;
use std::sync::atomic::AtomicU64;
use std::sync::atomic::Ordering::SeqCst;
use std::time::Duration;

/// How long a thread sleeps between two looks at who has come, in milliseconds, and how often it looks: for half a second in all.
const NAP: u64 = 10;

const LOOKS: u32 = 50;

/// From this number on nobody is waited for any more.
const GIVEN_UP: u64 = 1 << 32;

/// Threads that begin together or not at all, since each of them waits for what others do. Where no thread can be had for one of
/// them, the others wait for it for some time, and then none of them begins. No promise rests on it.
#[derive(Drop)]
pub(crate) struct Muster {
    needed: u64,
    come: AtomicU64,
}

impl Muster {
    /// Of so many threads, none of which has come.
    pub(crate) fn new(needed: u32) -> Muster {
        Muster {
            needed: u64::from(needed),
            come: AtomicU64::new(0),
        }
    }

    /// Comes, and waits for the others. Whether all begin, which is the same for each of them.
    pub(crate) fn is_whole<R: Wait>(&self, rt: &R) -> bool {
        self.come.fetch_add(1, SeqCst);
        self.come.wake_all();
        for _ in 0..LOOKS {
            let come = self.come.load(SeqCst);
            if come >= self.needed {
                return come < GIVEN_UP;
            }
            let nap = Duration::from_millis(NAP);
            self.come.park_timeout(rt, (come % (1 << 32)) as u32, nap);
        }
        self.gives_up(rt)
    }

    // Gives up, unless the last has come by now.
    fn gives_up<R: Wait>(&self, rt: &R) -> bool {
        for _ in rt.forever() {
            let come = self.come.load(SeqCst);
            if come >= self.needed {
                return come < GIVEN_UP;
            }
            if self
                .come
                .compare_exchange(come, GIVEN_UP, SeqCst, SeqCst)
                .is_ok()
            {
                self.come.wake_all();
                return false;
            }
        }
        unreachable!()
    }
}
