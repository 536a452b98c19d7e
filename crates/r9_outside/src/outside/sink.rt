//! Where bytes go.

ghost use Rattle.std.specs.Prelude.{◌≡◌, ◌<◌, ◌≤◌, ◌↔◌, List, ℕ, Bool, true, false, length, take, Option, IsTrue, IfOk, IfSome, OnOk, OnErr, IsErrOf, is_err};
ghost use Rattle.r9_outside.specs.outside.Count.{Rose};
ghost use Rattle.r9_outside.specs.outside.Sink.{Appends, AppendsPart};

use crate::outside::Failed;

/// Why a put did nothing.
#[derive(Clone, Copy, Debug, PartialEq, Eq)]
pub enum SinkFault {
    /// The sink failed, and counted it.
    Failed,
    /// There was no memory. The sink is as it was before.
    Memory,
}

/// A stream of bytes that is written once, at its end.
pub trait Sink {
    /// The bytes that it holds, or None where the sink does not tell them.
    ghost held: { Self → Option (List ℕ) };

    /// Whether a byte was put since the last good flush.
    ghost unflushed: { Self → Bool };

    /// How many calls have failed, up to 2^64-1.
    ghost faults: { Self → ℕ };

    /// Whether the next call fails, or None where the sink does not tell it.
    ghost fails_next: { Self → Option Bool };

    /// Puts the front of a piece, and answers how many bytes: not 0, unless the piece is empty.
    fn put(&mut self, piece: &[u8]) -> Result<usize, SinkFault>
        ensures within { IfOk result (λ n. n ≤ length piece.now) }
        ensures some { IfOk result (λ n. 0 < length piece.now → 0 < n) }
        ensures put { IfOk result (λ n. Appends (held self.old) (take n piece.now) (held self.new)) }
        ensures dirty { IfOk result (λ n. 0 < n → unflushed self.new ≡ true) }
        ensures nothing { IfOk result (λ n. n ≡ 0 → unflushed self.new ≡ unflushed self.old) }
        ensures err { OnErr result (held self.new ≡ held self.old) }
        ensures err_unflushed { OnErr result (unflushed self.new ≡ unflushed self.old) }
        ensures failed { IsErrOf result SinkFault.Failed → Rose (faults self.old) (faults self.new) }
        ensures memory { IsErrOf result SinkFault.Memory → faults self.new ≡ faults self.old }
        ensures counted { faults self.old ≤ faults self.new }
        ensures told { IfSome (fails_next self.old) (λ fails. IsErrOf result SinkFault.Failed ↔ IsTrue fails) };

    /// Sends on what was put.
    fn flush(&mut self) -> Result<(), Failed>
        ensures flushed { OnOk result (unflushed self.new ≡ false) }
        ensures err_unflushed { OnErr result (unflushed self.new ≡ unflushed self.old) }
        ensures same { held self.new ≡ held self.old }
        ensures failed { OnErr result (Rose (faults self.old) (faults self.new)) }
        ensures counted { faults self.old ≤ faults self.new }
        ensures told { IfSome (fails_next self.old) (λ fails. is_err result ≡ fails) };
}

/// Puts a whole piece. After an `Err` only a front of it was put, which may be empty.
pub fn put_all<O: Sink>(out: &mut O, piece: &[u8]) -> Result<(), SinkFault>
    ensures ok { OnOk result (Appends (O.held out.old) piece.now (O.held out.new)) }
    ensures part { AppendsPart (O.held out.old) piece.now (O.held out.new) }
    ensures failed { IsErrOf result SinkFault.Failed → Rose (O.faults out.old) (O.faults out.new) }
    ensures counted { O.faults out.old ≤ O.faults out.new }
{
    let mut done = 0;
    while done < piece.len() {
        done += out.put(&piece[done..])?;
    }
    Ok(())
}
