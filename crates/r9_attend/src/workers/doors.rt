//! Doors are opened.
ghost use Rattle.std.specs.Prelude.{◌≡◌, ◌≤◌, ◌<◌, ◌-◌, true, ℕ, List, length, take, drop, OnOk, IfErr, IfSome, slice_index_or};
ghost use Rattle.std.specs.List.{AllZip};
ghost use Rattle.r9_outside.specs.outside.Count.{Rose};
ghost use Rattle.r9_attend.specs.attend.Calls.{told_ends};
ghost use Rattle.r9_attend.specs.workers.Shifts.{told_doors, Listened, NoneFails};

use r9_outside::outside::Door;

/// Opens the doors 1 to `workers` at an address, in order, up to one that fails, whose number comes back.
pub fn listen_all<D: Door>(doors: &mut [D], workers: u32, address: &str) -> Result<(), u32>
    requires { workers ≤ length doors.old }
    ensures each { AllZip (Listened (told_doors D.ended D.over D.faults (told_ends D.In.left D.In.faults D.Out.held D.Out.unflushed D.Out.faults))) doors.old doors.new }
    ensures ok { OnOk result (drop workers doors.new ≡ drop workers doors.old) }
    ensures failed { IfErr result (λ worker. (1 ≤ worker) × (worker ≤ workers) × (drop worker doors.new ≡ drop worker doors.old) × ((d : D) → Rose (D.faults (slice_index_or doors.old (worker - 1) d)) (D.faults (slice_index_or doors.new (worker - 1) d)))) }
    ensures asked { OnOk result (NoneFails D.fails_next workers doors.old) }
    ensures told { IfErr result (λ worker. NoneFails D.fails_next (worker - 1) doors.old × ((d : D) → IfSome (D.fails_next (slice_index_or doors.old (worker - 1) d)) (λ fails. fails ≡ true))) }
{
    for worker in 0..workers {
        if doors[worker as usize].listen(address).is_err() {
            return Err(worker + 1);
        }
    }
    Ok(())
}
