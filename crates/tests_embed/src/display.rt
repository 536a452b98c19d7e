// A session that agrees on a version, and what a display of 64 by 48 points shows and tells.
use r9_chan::Chan;
use r9_embed::{Done, Embedded, OpenFault};
use r9_event::event::{Answer, Opening};
use r9_geom::{Point, Rect};
use std::alloc::Global;
use std::test::Fail;

const VERSION: &[u8] = b"\x13\0\0\0d\xff\xff\x18\0\x01\0\x06\x009P2000";

const VERSION_REPLY: &[u8] = b"\x13\0\0\0e\xff\xff\x18\0\x01\0\x06\x009P2000";

const RECORD: &[u8] = b"rio9 2 1\nB 1\nM 1 1300000064ffff180001000600395032303030\nE 1\n";

const RECORD_OF_FOUR: &[u8] =
    b"rio9 2 1\nB 1\nM 1 1300000064ffff180001000600395032303030\nE 1\nT 1\n";

fn opened(alloc: Global, width: u32) -> Result<Result<Embedded, OpenFault>, Fail> {
    let opening = Opening {
        width,
        height: 48,
        chan: Chan::from_text("x8r8g8b8")?,
    };
    Ok(Embedded::open(alloc, opening))
}

fn is_taken(done: &Done, bytes: &[u8]) -> bool {
    match &done.acted.answer {
        Answer::Taken(found) => found.as_slice() == bytes,
        _ => false,
    }
}

fn begins(display: &mut Embedded) -> bool {
    match display.begin() {
        Ok(done) => matches!(&done.acted.answer, Answer::Began(1)),
        Err(_) => false,
    }
}

fn answers(display: &mut Embedded) -> bool {
    match display.exchange(1, VERSION) {
        Ok(exchange) => match &exchange.taken {
            Some(done) => is_taken(done, VERSION_REPLY),
            None => false,
        },
        Err(_) => false,
    }
}

fn takes(display: &mut Embedded) -> bool {
    match display.take(1) {
        Ok(done) => is_taken(&done, VERSION_REPLY),
        Err(_) => false,
    }
}

fn loads(display: &mut Embedded) -> bool {
    display.load(RECORD).is_ok()
}

fn waits(display: &Embedded) -> bool {
    display.waiting(1) == VERSION_REPLY
}

fn records(display: &Embedded, wanted: &[u8]) -> bool {
    match display.record() {
        Ok(text) => text.as_slice() == wanted,
        Err(_) => false,
    }
}

fn shows(display: &Embedded) -> bool {
    match display.screen() {
        Ok(file) => file.len() == 60 + 64 * 48 * 4,
        Err(_) => false,
    }
}

// The rows of one point.
fn shows_grey(display: &Embedded, x: u32) -> bool {
    let x = i64::from(x);
    let r = Rect {
        min: Point { x, y: 47 },
        max: Point { x: x + 1, y: 48 },
    };
    match display.rows(r) {
        Ok(rows) => rows.as_slice() == b"www\0".as_slice(),
        Err(_) => false,
    }
}

fn is_unmarked(display: &mut Embedded) -> bool {
    display.clear_marks();
    display.marked(1, 1) == Some(false) && display.marked(2, 1).is_none()
}

fn has_size(display: &Embedded) -> bool {
    let size = display.size();
    size.width == 64
        && size.height == 48
        && display.pointer().is_none()
        && display.hall.tiles() == 0
}

#[test]
fn a_session_is_answered(rt: HostRuntime) -> Result<(), Fail> {
    let Ok(mut display) = opened(rt.alloc(), 64)? else {
        return Err(Fail::from("not opened"));
    };
    assert!(rt; begins(&mut display));
    assert!(rt; answers(&mut display));
    Ok(())
}

#[test]
fn a_record_is_loaded(rt: HostRuntime) -> Result<(), Fail> {
    let Ok(mut display) = opened(rt.alloc(), 64)? else {
        return Err(Fail::from("not opened"));
    };
    assert!(rt; loads(&mut display));
    assert!(rt; records(&display, RECORD));
    assert!(rt; waits(&display));
    assert!(rt; takes(&mut display));
    assert!(rt; records(&display, RECORD_OF_FOUR));
    display.forget();
    assert!(rt; records(&display, b"rio9 2 5\n"));
    Ok(())
}

#[test]
fn a_display_is_seen(rt: HostRuntime) -> Result<(), Fail> {
    let Ok(mut display) = opened(rt.alloc(), 64)? else {
        return Err(Fail::from("not opened"));
    };
    assert!(rt; shows(&display));
    assert!(rt; shows_grey(&display, 63));
    assert!(rt; !shows_grey(&display, 64));
    assert!(rt; is_unmarked(&mut display));
    assert!(rt; has_size(&display));
    Ok(())
}

#[test]
fn a_side_is_too_long(rt: HostRuntime) -> Result<(), Fail> {
    let opened = opened(rt.alloc(), 2049)?;
    assert!(rt; matches!(opened, Err(OpenFault::BadSize)));
    Ok(())
}
