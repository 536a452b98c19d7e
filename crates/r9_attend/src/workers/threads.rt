//! Whether threads can be had.
use std::sync::Wait;
use std::sync::atomic::AtomicU64;
use std::sync::atomic::Ordering::SeqCst;
use std::thread;
use std::thread::Threads;

/// Waits until the gate is open.
fn wait_at<R: Wait>(rt: &R, gate: &AtomicU64) {
    for _ in rt.forever() {
        if gate.load(SeqCst) != 0 {
            return;
        }
        gate.park(rt, 0);
    }
}

/// Whether so many threads can be had at once: each is made, and waits until all have been. No promise rests on it, and a thread that is
/// made later may be refused all the same.
pub fn has_threads<R: Threads + Wait + Sync>(rt: &R, count: u32) -> bool {
    let gate = AtomicU64::new(0);
    let shared = &gate;
    thread::scope(thread::scope_env(), rt, |scope| {
        let mut all = true;
        for _ in 0..count {
            all = scope.spawn(move || wait_at(rt, shared)).is_ok();
            if !all {
                break;
            }
        }
        shared.store(1, SeqCst);
        shared.wake_all();
        all
    })
}
