//! The screen, as it is put out.

ghost use Rattle.std.specs.Prelude.{◌≡◌, ◌≤◌, ◌++◌, false, codes, IfOk, OnOk, IsErrOf};
ghost use Rattle.std.specs.Fmt.{decimal};
ghost use Rattle.model_draw.specs.draw.Files.{screen_file};
ghost use Rattle.model_history.specs.records.Line.{line};
ghost use Rattle.r9_hall.specs.hall.WorldView.{world_in};
ghost use Rattle.r9_outside.specs.outside.Count.{Rose};
ghost use Rattle.r9_outside.specs.outside.Sink.{Appends, AppendsPart};
ghost use Rattle.r9_serve.specs.replay.Replays.{screen_lines};

use r9_hall::hall::World;
use r9_memory::Memory;
use r9_outside::outside::{Sink, SinkFault, put_all};
use r9_text::{Bytes, push_decimal};
use std::alloc::Global;

/// The line that tells how many bytes the file of the screen has.
fn len_line(alloc: Global, len: usize) -> Result<Bytes, Memory>
    ensures { IfOk result (λ text. text ≡ line (codes "S " ++ decimal len)) }
{
    let mut text = Bytes::from_slice(alloc, b"S ")?;
    push_decimal(&mut text, len as u64)?;
    text.push(b'\n')?;
    Ok(text)
}

/// Puts the file of the screen behind its line, and sends them on. After an `Err` only a front of them was put, which may be
/// empty.
fn put_file<O: Sink>(alloc: Global, file: &[u8], out: &mut O) -> Result<(), SinkFault>
    ensures ok { OnOk result (Appends (O.held out.old) (screen_lines file.now) (O.held out.new) × (O.unflushed out.new ≡ false)) }
    ensures part { AppendsPart (O.held out.old) (screen_lines file.now) (O.held out.new) }
    ensures failed { IsErrOf result SinkFault.Failed → Rose (O.faults out.old) (O.faults out.new) }
{
    let Ok(line) = len_line(alloc, file.len()) else {
        return Err(SinkFault::Memory);
    };
    put_all(out, line.as_slice())?;
    put_all(out, file)?;
    match out.flush() {
        Ok(()) => Ok(()),
        Err(_) => Err(SinkFault::Failed),
    }
}

/// Puts the screen of a world, and sends it on: a line with its length in bytes, and its file. After an `Err` only a front of
/// them was put, which may be empty.
pub fn put_screen<O: Sink>(alloc: Global, world: &World, out: &mut O) -> Result<(), SinkFault>
    ensures ok { OnOk result (Appends (O.held out.old) (screen_lines (screen_file (world_in world.now).desktop.device)) (O.held out.new) × (O.unflushed out.new ≡ false)) }
    ensures part { AppendsPart (O.held out.old) (screen_lines (screen_file (world_in world.now).desktop.device)) (O.held out.new) }
    ensures failed { IsErrOf result SinkFault.Failed → Rose (O.faults out.old) (O.faults out.new) }
{
    let Ok(file) = world.screen() else {
        return Err(SinkFault::Memory);
    };
    put_file(alloc, file.as_slice(), out)
}
