//! Where bytes come from.

ghost use Rattle.std.specs.Prelude.{◌≡◌, ◌<◌, ◌≤◌, ◌^◌, [], List, ℕ, Bool, length, Option, IfOk, IfSome, OnOk, OnErr, is_err};
ghost use Rattle.r9_outside.specs.outside.Count.{Rose};
ghost use Rattle.r9_outside.specs.outside.Source.{TakesFront};

use crate::outside::Failed;

/// A stream of bytes that is read once, from its front.
pub trait Source {
    /// The bytes that are left, or None where the source does not tell them.
    ghost left: { Self → Option (List ℕ) };

    /// How many calls have failed, up to 2^64-1.
    ghost faults: { Self → ℕ };

    /// Whether the next call fails, or None where the source does not tell it.
    ghost fails_next: { Self → Option Bool };

    /// Takes bytes into the front of a buffer, and answers how many. 0 for a buffer that is not empty is the end.
    fn take(&mut self, buffer: &mut [u8]) -> Result<usize, Failed>
        ensures within { IfOk result (λ n. n ≤ length buffer.old) }
        ensures taken { IfOk result (λ n. IfSome (left self.old) (λ bytes. TakesFront bytes n buffer.new (left self.new))) }
        ensures end { IfOk result (λ n. n ≡ 0 → 0 < length buffer.old → IfSome (left self.old) (λ bytes. bytes ≡ [])) }
        ensures failed { OnErr result (Rose (faults self.old) (faults self.new)) }
        ensures kept { OnErr result (left self.new ≡ left self.old) }
        ensures steady { OnOk result (faults self.new ≡ faults self.old) }
        ensures counted { faults self.old ≤ faults self.new }
        ensures told { IfSome (fails_next self.old) (λ fails. is_err result ≡ fails) };
}
