//! Runs the cases of standard input one after the other, and prints what `run` puts into out and err, and the exit status. A
//! case is two equals signs and a blank, a line that says what it shows, a line with the words of the command, and the input. Cases
//! of `text` and `desk` have an input of their own, and print what the record that they put out shows; those of `mirror` tell what the frames
//! have; those of `gen` have bounds of what they count.
#![tactic(auto)]

mod counted;
mod mirrored;
mod pointed;
mod shown;

use counted::count_case;
use mirrored::mirror_case;
use pointed::point_case;
use r9_outside::outside::{MemSink, MemSource, Sink, SureDoor, SureSource, WriteSink};
use r9_serve::serve::{DOORS, run};
use shown::show_case;
use std::alloc::Global;
use std::sync::Wait;
use std::thread::Threads;
use std::{array, io};

/// Runs a command on its input, with doors to which nobody comes, and gives its exit status.
fn run_case<R: Threads + Wait + Sync, O: Sink + Send>(
    rt: &R,
    alloc: Global,
    words: &[&str],
    input: &str,
    out: &mut O,
    err: &mut O,
) -> io::Result<u8> {
    let mut input = SureSource::new(input.as_bytes().to_vec(alloc)?);
    let mut doors: [SureDoor<MemSource, MemSink>; DOORS] = array::from_fn(|_| SureDoor::new(alloc));
    Ok(run(rt, alloc, words, &mut input, out, err, &mut doors).code())
}

fn main(rt: HostRuntime) -> io::Result<()> {
    let cases = io::read_to_string(rt.alloc(), rt.stdin())?;
    for case in cases.split("== ").skip(1) {
        let (title, lines) = case.split_once('\n').unwrap_or((case, ""));
        let (command, input) = lines.split_once('\n').unwrap_or((lines, ""));
        let mut words = Vec::new(rt.alloc());
        for word in command.split(' ') {
            words.push(word)?;
        }
        println!(rt; "== {title}")?;
        let mut out = WriteSink::new(rt.stdout());
        let mut err = WriteSink::new(rt.stdout());
        if command.starts_with("text ") {
            print!(rt; "{}", show_case(&rt, rt.alloc(), &words, input, &mut err)?)?;
        } else if command.starts_with("gen ") {
            print!(rt; "{}", count_case(&rt, rt.alloc(), &words, input, &mut err)?)?;
        } else if command.starts_with("mirror ") {
            print!(rt;
                "{}",
                mirror_case(&rt, rt.alloc(), &words, input, &mut err)?
            )?;
        } else if command == "desk" {
            print!(rt; "{}", point_case(&rt, rt.alloc(), &words, input, &mut err)?)?;
        } else {
            let status = run_case(&rt, rt.alloc(), &words, input, &mut out, &mut err)?;
            println!(rt; "status {status}")?;
        }
    }
    Ok(())
}
