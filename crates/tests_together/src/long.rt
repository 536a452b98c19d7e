//! A session whose lines have more bytes than a recorder keeps.

use crate::calls::served_alone;
use crate::ends::{Held, TestSink, TestSource};
use crate::talks::{REPLIES, SENT, bytes_of, record_of, without_takes};
use r9_serve::serve::Status;
use std::alloc::{AllocError, Global};
use std::sync::Arc;
use std::sync::atomic::AtomicU64;
use std::test::Fail;

/// A walk from the root to `snarf`, and an open of that for writing.
const OPENING: &str =
    "180000006e0200000000000100000001000500736e617266\n0c0000007003000100000001\n";

/// What they are replied: the qid of `snarf` twice.
const OPENED: &str =
    "160000006f0200010000000000000b00000000000000\n1800000071030000000000000b0000000000000000000000\n";

/// The tags of the writes.
const TAGS: [&str; 16] = [
    "10", "11", "12", "13", "14", "15", "16", "17", "18", "19", "1a", "1b", "1c", "1d", "1e", "1f",
];

/// Adds a write of 65,537 bytes at the front of `snarf`, each of which is its tag.
fn push_write(messages: &mut String, tag: &str) -> Result<(), AllocError> {
    for part in ["1800010076", tag, "0001000000000000000000000001000100"] {
        messages.push_str(part)?;
    }
    for _ in 0..65_537 {
        messages.push_str(tag)?;
    }
    messages.push('\n')?;
    Ok(())
}

/// All messages of the session but the last.
fn earlier_messages(alloc: Global) -> Result<String, AllocError> {
    let mut messages = String::new(alloc);
    messages.push_str(SENT[0])?;
    messages.push_str(OPENING)?;
    for tag in &TAGS[..15] {
        push_write(&mut messages, tag)?;
    }
    Ok(messages)
}

/// All its replies.
fn replies(alloc: Global) -> Result<String, AllocError> {
    let mut replies = String::new(alloc);
    replies.push_str(REPLIES[0])?;
    replies.push_str(OPENED)?;
    for tag in TAGS {
        replies.push_str("0b00000077")?;
        replies.push_str(tag)?;
        replies.push_str("0001000100\n")?;
    }
    Ok(replies)
}

/// The out of the call, whose first put fails or none, and what the source looks at.
fn out_of(alloc: Global, fails: bool) -> Result<(TestSink, Option<Held>), AllocError> {
    if fails {
        return Ok((TestSink::failing(alloc), None));
    }
    let held: Held = Arc::new(alloc, AtomicU64::new(0))?;
    let same = Arc::try_clone(&held)?;
    Ok((TestSink::new(alloc, Some(held), false), Some(same)))
}

// The source gives the last message once out holds something. Where the first put of out fails it does not look.
#[test]
fn a_record_is_written_while_a_session_goes_on(rt: HostRuntime) -> Result<(), Fail> {
    let alloc = rt.alloc();
    let mut messages = earlier_messages(alloc)?;
    let first = bytes_of(alloc, &messages)?;
    let mut last = String::new(alloc);
    push_write(&mut last, TAGS[15])?;
    let rest = bytes_of(alloc, &last)?;
    messages.push_str(&last)?;
    let record = record_of(alloc, &messages)?;
    let replies = bytes_of(alloc, &replies(alloc)?)?;
    for fails in [false, true] {
        let (out, looks_at) = out_of(alloc, fails)?;
        let source = TestSource::new(first.clone()?, looks_at, rest.clone()?, false);
        let sink = TestSink::new(alloc, None, false);
        let alone = served_alone(&rt, alloc, source, sink, out);
        assert!(rt; alone.got.ok_or("an ended session")? == replies);
        let ending = alone.ending;
        if fails {
            assert_eq!(rt; (ending.status, ending.out.len()), (Status::WriteFault, 0));
            assert_eq!(rt; ending.err.as_slice(), b"rio9: write fault\n".as_slice());
        } else {
            assert_eq!(rt; (ending.status, ending.err.len()), (Status::Done, 0));
            assert!(rt; without_takes(alloc, &ending.out)? == record);
        }
    }
    Ok(())
}
