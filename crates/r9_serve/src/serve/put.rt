//! Putting what was made whole before.

ghost use Rattle.std.specs.Prelude.{◌≡◌, false, OnOk, IsErrOf};
ghost use Rattle.r9_outside.specs.outside.Count.{Rose};
ghost use Rattle.r9_outside.specs.outside.Sink.{Appends, AppendsPart};

use r9_outside::outside::{Sink, SinkFault, put_all};

/// Puts a text, and sends it on. After an `Err` only a front of it was put, which may be empty.
pub fn put_text<O: Sink>(text: &[u8], out: &mut O) -> Result<(), SinkFault>
    ensures ok { OnOk result (Appends (O.held out.old) text.now (O.held out.new) × (O.unflushed out.new ≡ false)) }
    ensures part { AppendsPart (O.held out.old) text.now (O.held out.new) }
    ensures failed { IsErrOf result SinkFault.Failed → Rose (O.faults out.old) (O.faults out.new) }
{
    put_all(out, text)?;
    match out.flush() {
        Ok(()) => Ok(()),
        Err(_) => Err(SinkFault::Failed),
    }
}
