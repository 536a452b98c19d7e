//! Serves the cases of standard input one after the other, over doors in memory, and prints how each ended. A case is two equals
//! signs and a blank, a line that says what it shows, and a line with the words of the command. A line `in`, `out` or `err` has the
//! numbers of its calls that fail, and behind a line `record` stands the input. A line `door` with the numbers of the calls that fail, or none, begins the next worker's door; a
//! line `session` is a session that comes to it, with the bytes that it sends in hexadecimal, and behind a bar each the numbers of the
//! takes and of the puts and flushes that fail. Where a line `fronts` stands before `record`, each front of the record is an input.
//!
//! Printed are the status, what err got, the record without the lines of takes, whose places differ from run to run, and what the
//! sink of each session got; of fronts, for each length the status and what err got.
#![tactic(auto)]

use r9_outside::outside::{MemDoor, MemSink, MemSource, SureDoor};
use r9_serve::serve::{DOORS, run};
use std::alloc::Global;
use std::fmt::Write;
use std::sync::Wait;
use std::thread::Threads;
use std::{array, io};

/// The door at which a case's sessions come.
type CaseDoor = MemDoor<MemSource, MemSink>;

/// The numbers of a list.
fn numbers(alloc: Global, text: &str) -> io::Result<Vec<u64>> {
    let mut list = Vec::new(alloc);
    for word in text.split_whitespace() {
        list.push(word.parse().map_err(|_| io::ErrorKind::InvalidData)?)?;
    }
    Ok(list)
}

/// The calls that fail of what has this name, if a case has a line for it.
fn failing(alloc: Global, lines: &str, name: &str) -> io::Result<Vec<u64>> {
    for line in lines.lines() {
        if let Some(list) = line.strip_prefix(name) {
            return numbers(alloc, list);
        }
    }
    Ok(Vec::new(alloc))
}

/// The bytes of hexadecimal digits.
fn bytes_of(alloc: Global, text: &str) -> io::Result<Vec<u8>> {
    let mut bytes = Vec::new(alloc);
    for pair in text.as_bytes().chunks(2) {
        let pair = str::from_utf8(pair).map_err(|_| io::ErrorKind::InvalidData)?;
        bytes.push(u8::from_str_radix(pair, 16).map_err(|_| io::ErrorKind::InvalidData)?)?;
    }
    Ok(bytes)
}

/// Adds the session of a line to a door.
fn add_session(
    alloc: Global,
    door: &mut SureDoor<MemSource, MemSink>,
    line: &str,
) -> io::Result<()> {
    let (bytes, fails) = line.split_once('|').unwrap_or((line, ""));
    let (takes, puts) = fails.split_once('|').unwrap_or((fails, ""));
    let sent = bytes_of(alloc, bytes.trim())?;
    let source = MemSource::new(sent.clone()?, numbers(alloc, takes)?);
    let sink = MemSink::new(alloc, numbers(alloc, puts)?);
    door.add(sent, source, sink)?;
    Ok(())
}

/// The doors of a case's lines, and others to which nobody comes.
fn doors_of(alloc: Global, lines: &str) -> io::Result<[CaseDoor; DOORS]> {
    let mut doors = array::from_fn(|_| MemDoor::new(SureDoor::new(alloc), Vec::new(alloc)));
    for (place, part) in doors.iter_mut().zip(lines.split("door").skip(1)) {
        let (fails, sessions) = part.split_once('\n').unwrap_or((part, ""));
        let mut door = SureDoor::new(alloc);
        for line in sessions.split("session ").skip(1) {
            add_session(alloc, &mut door, line)?;
        }
        *place = MemDoor::new(door, numbers(alloc, fails)?);
    }
    Ok(doors)
}

/// Adds a record without the lines of takes.
fn push_record(text: &mut String, record: &str) -> io::Result<()> {
    for line in record.split_inclusive('\n') {
        if !line.starts_with("T ") {
            text.push_str(line)?;
        }
    }
    Ok(())
}

/// What the sinks of a door got, a line for each session.
fn push_sinks(text: &mut String, number: usize, door: &CaseDoor) -> io::Result<()> {
    for done in door.done_sessions() {
        match done.session {
            Some(session) => write!(text, "door {number} session {session} ")?,
            None => write!(text, "door {number} no session ")?,
        }
        for byte in done.output.bytes() {
            write!(text, "{byte:02x}")?;
        }
        text.push('\n')?;
    }
    Ok(())
}

/// Adds how a command ends on an input, where nobody comes and no call fails.
fn push_ending<R: Threads + Wait + Sync>(
    rt: &R,
    alloc: Global,
    words: &[&str],
    input: &Vec<u8>,
    text: &mut String,
) -> io::Result<()> {
    let mut doors = doors_of(alloc, "")?;
    let mut source = MemSource::new(input.clone()?, Vec::new(alloc));
    let mut out = MemSink::new(alloc, Vec::new(alloc));
    let mut err = MemSink::new(alloc, Vec::new(alloc));
    let status = run(
        rt,
        alloc,
        words,
        &mut source,
        &mut out,
        &mut err,
        &mut doors,
    );
    let line = str::from_utf8(err.bytes()).unwrap_or("?");
    let gap = if line.is_empty() { "\n" } else { " " };
    write!(text, "{}: {}{gap}{line}", input.len(), status.code())?;
    Ok(())
}

/// Tells how a command ends on each front of a record.
fn run_fronts<R: Threads + Wait + Sync>(
    rt: &R,
    alloc: Global,
    words: &[&str],
    record: &str,
) -> io::Result<String> {
    let mut text = String::new(alloc);
    let mut front = Vec::new(alloc);
    push_ending(rt, alloc, words, &front, &mut text)?;
    for byte in record.bytes() {
        front.push(byte)?;
        push_ending(rt, alloc, words, &front, &mut text)?;
    }
    Ok(text)
}

/// Serves a case, and tells how it ended.
fn run_case<R: Threads + Wait + Sync>(
    rt: &R,
    alloc: Global,
    command: &str,
    lines: &str,
) -> io::Result<String> {
    let mut words = Vec::new(alloc);
    for word in command.split(' ') {
        words.push(word)?;
    }
    let (lines, record) = lines.split_once("record\n").unwrap_or((lines, ""));
    if lines == "fronts\n" {
        return run_fronts(rt, alloc, &words, record);
    }
    let mut doors = doors_of(alloc, lines)?;
    let record = record.as_bytes().to_vec(alloc)?;
    let mut input = MemSource::new(record, failing(alloc, lines, "in ")?);
    let mut out = MemSink::new(alloc, failing(alloc, lines, "out ")?);
    let mut err = MemSink::new(alloc, failing(alloc, lines, "err ")?);
    let status = run(
        rt, alloc, &words, &mut input, &mut out, &mut err, &mut doors,
    );
    let mut text = String::new(alloc);
    writeln!(text, "status {}", status.code())?;
    text.push_str(str::from_utf8(err.bytes()).unwrap_or("?"))?;
    push_record(&mut text, str::from_utf8(out.bytes()).unwrap_or("?"))?;
    for (index, door) in doors.iter().enumerate() {
        push_sinks(&mut text, index + 1, door)?;
    }
    Ok(text)
}

fn main(rt: HostRuntime) -> io::Result<()> {
    let cases = io::read_to_string(rt.alloc(), rt.stdin())?;
    for case in cases.split("== ").skip(1) {
        let (title, lines) = case.split_once('\n').unwrap_or((case, ""));
        let (command, sessions) = lines.split_once('\n').unwrap_or((lines, ""));
        println!(rt; "== {title}")?;
        print!(rt; "{}", run_case(&rt, rt.alloc(), command, sessions)?)?;
    }
    Ok(())
}
