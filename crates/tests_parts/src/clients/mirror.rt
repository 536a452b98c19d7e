use r9_chan::Chan;
use r9_geom::Point;
use r9_mirror::{ViewFault, Viewer};
use r9_text::Bytes;
use std::alloc::Global;
use std::test::Fail;

// The raw pixel that is shown at a point.
fn shown(viewer: &Viewer, x: i64, y: i64) -> Option<u32> {
    let plane = viewer.plane()?;
    let p = Point { x, y };
    if plane.rect().holds(p) {
        Some(plane.get(p))
    } else {
        None
    }
}

// Puts a line behind a text, and a byte so many times.
fn push_rows(text: &mut Bytes, line: &[u8], len: u32, byte: u8) -> Result<(), Fail> {
    text.push_all(line)?;
    for _ in 0..len {
        text.push(byte)?;
    }
    Ok(())
}

// The first frame of a display of 64 by 48: its four cells, each with another byte in its rows.
fn first_frame(alloc: Global) -> Result<Bytes, Fail> {
    let mut text = Bytes::from_slice(alloc, b"F 0 4\nZ 64 48\n")?;
    push_rows(&mut text, b"C 0 0 32 32\n", 4096, 1)?;
    push_rows(&mut text, b"C 32 0 32 32\n", 4096, 2)?;
    push_rows(&mut text, b"C 0 32 32 16\n", 2048, 3)?;
    push_rows(&mut text, b"C 32 32 32 16\n", 2048, 4)?;
    Ok(text)
}

// The cursor comes to (5,5), of which three points are put here, and goes to another cell.
#[test]
fn frames_with_a_cursor_are_shown(rt: HostRuntime) -> Result<(), Fail> {
    let mut viewer = Viewer::new(rt.alloc(), Chan::from_text("x8r8g8b8")?);
    assert_eq!(rt; shown(&viewer, 0, 0), None);
    viewer.apply(first_frame(rt.alloc())?.as_slice())?;
    assert_eq!(rt; shown(&viewer, 0, 0), Some(0x0101_0101));
    assert_eq!(rt; shown(&viewer, 63, 31), Some(0x0202_0202));
    assert_eq!(rt; shown(&viewer, 31, 47), Some(0x0303_0303));
    assert_eq!(rt; shown(&viewer, 32, 32), Some(0x0404_0404));
    assert_eq!(rt; shown(&viewer, 64, 0), None);
    let mut come = Bytes::from_slice(rt.alloc(), b"F 1 1\nC 0 0 32 32\n")?;
    for k in 0..1024 {
        come.push_all(match k {
            165 | 645 => b"\x00\x00\x00\x00",
            230 => b"\xff\xff\xff\x00",
            _ => b"\x01\x01\x01\x01",
        })?;
    }
    viewer.apply(come.as_slice())?;
    assert_eq!(rt; shown(&viewer, 5, 5), Some(0));
    assert_eq!(rt; shown(&viewer, 6, 7), Some(0x00ff_ffff));
    assert_eq!(rt; shown(&viewer, 5, 20), Some(0));
    assert_eq!(rt; shown(&viewer, 4, 5), Some(0x0101_0101));
    let mut gone = Bytes::from_slice(rt.alloc(), b"F 2 2\n")?;
    push_rows(&mut gone, b"C 0 0 32 32\n", 4096, 1)?;
    push_rows(&mut gone, b"C 32 0 32 32\n", 4096, 9)?;
    viewer.apply(gone.as_slice())?;
    assert_eq!(rt; shown(&viewer, 5, 5), Some(0x0101_0101));
    assert_eq!(rt; shown(&viewer, 40, 5), Some(0x0909_0909));
    Ok(())
}

// The second cell of a frame is beyond the picture: its line is told, and the first cell is not put.
#[test]
fn refused_frames_leave_the_picture(rt: HostRuntime) -> Result<(), Fail> {
    let mut viewer = Viewer::new(rt.alloc(), Chan::from_text("x8r8g8b8")?);
    viewer.apply(first_frame(rt.alloc())?.as_slice())?;
    let mut bad = Bytes::from_slice(rt.alloc(), b"F 1 2\n")?;
    push_rows(&mut bad, b"C 0 0 32 32\n", 4096, 9)?;
    push_rows(&mut bad, b"C 64 0 32 32\n", 4096, 9)?;
    assert_eq!(rt; viewer.apply(bad.as_slice()), Err(ViewFault::Bad(4114)));
    assert_eq!(rt; shown(&viewer, 0, 0), Some(0x0101_0101));
    Ok(())
}
