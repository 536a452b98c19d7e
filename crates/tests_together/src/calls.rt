//! The top call over the ends of these tests.

ghost use Rattle.std.specs.Prelude.{◌≤◌, length};

use crate::door::TestDoor;
use crate::ends::{TestSink, TestSource};
use r9_outside::outside::Door;
use r9_serve::serve::{DOORS, Status, run};
use std::alloc::Global;
use std::array;
use std::sync::Wait;
use std::thread::Threads;

/// How a call ended.
#[derive(Drop)]
pub struct Ending {
    pub status: Status,
    /// What out got.
    pub out: Vec<u8>,
    /// What err got.
    pub err: Vec<u8>,
}

/// Does what the words ask for, with these bytes as input, which come one a take where out takes one a put.
pub fn called<R: Threads + Wait + Sync, D: Door + Send>(
    rt: &R,
    alloc: Global,
    words: &[&str],
    input: Vec<u8>,
    mut out: TestSink,
    doors: &mut [D],
) -> Ending
    requires { 16 ≤ length doors.old }
{
    let mut input = TestSource::new(input, None, Vec::new(alloc), out.slow);
    let mut err = TestSink::new(alloc, None, false);
    let status = run(rt, alloc, words, &mut input, &mut out, &mut err, doors);
    Ending {
        status,
        out: out.bytes,
        err: err.bytes,
    }
}

/// How a call ended that served one session.
#[derive(Drop)]
pub struct Alone {
    pub ending: Ending,
    /// What the session's sink got, if the session has ended.
    pub got: Option<Vec<u8>>,
}

/// Serves one session with these ends.
pub fn served_alone<R: Threads + Wait + Sync>(
    rt: &R,
    alloc: Global,
    source: TestSource,
    sink: TestSink,
    out: TestSink,
) -> Alone {
    let mut doors: [_; DOORS] = array::from_fn(|_| TestDoor::nobody());
    doors[0] = TestDoor::new(source, sink);
    let words = ["serve", "--listen", "x", "--conns", "1"];
    let ending = called(rt, alloc, &words, Vec::new(alloc), out, &mut doors);
    let got = match doors[0].ended.take() {
        Some(ended) => Some(ended.got),
        None => None,
    };
    Alone { ending, got }
}
