//! Sessions beside each other, and sessions whose bytes come and go one by one.

use crate::calls::{called, served_alone};
use crate::door::TestDoor;
use crate::ends::{Held, TestSink, TestSource};
use crate::talks::{REPLIES, SENT, behind, bytes_of, record_of, without_takes};
use r9_serve::serve::{DOORS, Status};
use std::alloc::Global;
use std::sync::Arc;
use std::sync::atomic::AtomicU64;
use std::test::Fail;
use std::{array, io};

/// The doors of the two sessions, and others to which nobody comes. The first source looks at the second sink before it gives a byte.
fn two_doors(alloc: Global, slow: bool) -> io::Result<[TestDoor; DOORS]> {
    let held: Held = Arc::new(alloc, AtomicU64::new(0))?;
    let first = bytes_of(alloc, SENT[0])?;
    let second = bytes_of(alloc, SENT[1])?;
    let mut doors = array::from_fn(|_| TestDoor::nobody());
    doors[0] = TestDoor::new(
        TestSource::new(Vec::new(alloc), Some(Arc::try_clone(&held)?), first, slow),
        TestSink::new(alloc, None, slow),
    );
    doors[1] = TestDoor::new(
        TestSource::new(second, None, Vec::new(alloc), slow),
        TestSink::new(alloc, Some(held), slow),
    );
    Ok(doors)
}

/// Whether the session of a door sent these messages, by the record, and got these replies, by its sink and by the reply lines.
fn is_told(
    alloc: Global,
    door: &TestDoor,
    (record, lines): (&str, &str),
    (sent, replies): (&str, &str),
) -> io::Result<bool> {
    let Some(ended) = &door.ended else {
        return Ok(false);
    };
    let Some(session) = ended.session else {
        return Ok(false);
    };
    let there = behind(alloc, record, &format!(in alloc; "M {session} ")?)?;
    let answered = behind(alloc, lines, &format!(in alloc; "R {session} ")?)?;
    let got = bytes_of(alloc, replies)?;
    Ok(there.as_str() == sent && answered.as_str() == replies && ended.got == got)
}

// The first session sends nothing before the second has a reply. Then the record is replayed, and gives each its replies.
#[test]
fn two_sessions_are_served_at_the_same_moment(rt: HostRuntime) -> Result<(), Fail> {
    let alloc = rt.alloc();
    for slow in [false, true] {
        let mut doors = two_doors(alloc, slow)?;
        let words = ["serve", "--listen", "x", "--workers", "2", "--conns", "2"];
        let out = TestSink::new(alloc, None, slow);
        let served = called(&rt, alloc, &words, Vec::new(alloc), out, &mut doors);
        assert_eq!(rt; (served.status, served.err.len()), (Status::Done, 0));
        let out = TestSink::new(alloc, None, slow);
        let replayed = called(
            &rt,
            alloc,
            &["replay"],
            served.out.clone()?,
            out,
            &mut doors,
        );
        assert_eq!(rt; replayed.status, Status::Done);
        let record = str::from_utf8(&served.out).unwrap_or("?");
        let lines = str::from_utf8(&replayed.out).unwrap_or("?");
        assert!(rt; record.starts_with("rio9 2 1\n"));
        assert_eq!(rt; lines.lines().count(), 4);
        for index in 0..2 {
            let talk = (SENT[index], REPLIES[index]);
            assert!(rt; is_told(alloc, &doors[index], (record, lines), talk)?);
        }
    }
    Ok(())
}

// A session alone, of which all that happens is known but when its replies are taken; and its record.
#[test]
fn one_byte_comes_and_goes_a_call(rt: HostRuntime) -> Result<(), Fail> {
    let alloc = rt.alloc();
    let sent = bytes_of(alloc, SENT[0])?;
    let replies = bytes_of(alloc, REPLIES[0])?;
    let record = record_of(alloc, SENT[0])?;
    for slow in [false, true] {
        let source = TestSource::new(sent.clone()?, None, Vec::new(alloc), slow);
        let sink = TestSink::new(alloc, None, slow);
        let out = TestSink::new(alloc, None, slow);
        let alone = served_alone(&rt, alloc, source, sink, out);
        let ending = alone.ending;
        assert_eq!(rt; (ending.status, ending.err.len()), (Status::Done, 0));
        assert!(rt; without_takes(alloc, &ending.out)? == record);
        assert!(rt; alone.got.ok_or("an ended session")? == replies);
        let mut doors: [_; DOORS] = array::from_fn(|_| TestDoor::nobody());
        let out = TestSink::new(alloc, None, slow);
        let input = record.as_bytes().to_vec(alloc)?;
        let replayed = called(&rt, alloc, &["replay"], input, out, &mut doors);
        assert_eq!(rt; (replayed.status, replayed.err.len()), (Status::Done, 0));
        let lines = str::from_utf8(&replayed.out).unwrap_or("?");
        assert_eq!(rt; behind(alloc, lines, "R 1 ")?.as_str(), REPLIES[0]);
    }
    Ok(())
}
