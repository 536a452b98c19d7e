use r9_dmsg::{Dmsg, DmsgFault, Listed, next_listed, next_msg};
use std::test::Fail;

// Each letter once, its spelling, and how many bytes that takes. What stands behind is not read.
#[test]
fn letters_and_lengths(rt: HostRuntime) {
    let rows: [(&[u8], usize); 8] = [
        (b"v", 1),
        (b"O\x0a", 2),
        (b"f\x05\0\0\0v", 5),
        (b"i\x07\0\0\0\x01\0\0\0\x06", 10),
        (b"N\x09\0\0\0\x01\x03pic", 10),
        (b"n\x01\0\0\0\x03picv", 9),
        (b"t\x01\x02\0\x0a\0\0\0\x0b\0\0\0", 12),
        (
            b"y\x08\0\0\0\0\0\0\0\0\0\0\0\x01\0\0\0\x04\0\0\0\x01\x02\x03\x04",
            21,
        ),
    ];
    for (bytes, len) in rows {
        let read = next_msg(rt.alloc(), bytes);
        assert!(rt; read.is_ok());
        if let Ok(message) = read {
            assert_eq!(rt; message.spelled_len(), len);
        }
    }
}

#[test]
fn refusals(rt: HostRuntime) {
    let rows: [(&[u8], DmsgFault); 7] = [
        (b"", DmsgFault::Short),
        (b"f\x05\0\0", DmsgFault::Short),
        (b"N\x09\0\0\0\x01\x03pi", DmsgFault::Short),
        (b"t\x01\x02\0\x0a\0\0\0", DmsgFault::Short),
        (b"q", DmsgFault::Unknown),
        (b"V", DmsgFault::Unknown),
        (b"L", DmsgFault::Unsupported),
    ];
    for (bytes, fault) in rows {
        assert!(rt; matches!(next_msg(rt.alloc(), bytes), Err(f) if f == fault));
    }
}

// A string on a background (draw(3)): the count stands before the background, and the indices behind it.
#[test]
fn a_string_on_a_background(rt: HostRuntime) -> Result<(), Fail> {
    let bytes =
        b"x\0\0\0\0\x06\0\0\0\x07\0\0\0\x0a\0\0\0\xff\xff\xff\xff\0\0\0\0\0\0\0\0\x40\0\0\0\x30\0\0\0\0\0\0\0\0\0\0\0\x02\0\x08\0\0\0\x01\0\0\0\x02\0\0\0\0\0\x01\x02";
    let read = next_msg(rt.alloc(), bytes)?;
    let Dmsg::LowX {
        p,
        bgid,
        bgp,
        indices,
        ..
    } = read
    else {
        return Err(Fail::from("another letter"));
    };
    assert_eq!(rt; (p.x, p.y), (10, -1));
    assert_eq!(rt; (bgid, bgp.x, bgp.y), (8, 1, 2));
    assert_eq!(rt; indices.as_slice(), [0, 513].as_slice());
    Ok(())
}

#[test]
fn a_name(rt: HostRuntime) -> Result<(), Fail> {
    let Dmsg::LowN { id, name } = next_msg(rt.alloc(), b"n\x01\x02\0\0\x03pic")? else {
        return Err(Fail::from("another letter"));
    };
    assert_eq!(rt; id, 513);
    assert_eq!(rt; name.as_slice(), b"pic".as_slice());
    Ok(())
}

// The letters with lists, and how many bytes spell each. None where one is cut short, and for another letter.
#[test]
fn lists_and_lengths(rt: HostRuntime) {
    let rows: [(&[u8], Option<usize>); 8] = [
        (b"t\x01\x02\0\x0a\0\0\0\x0b\x01\0\0v", Some(12)),
        (b"t\x01\x02\0\x0a\0\0\0\x0b\0\0", None),
        (b"N\x09\0\0\0\x01\x03picv", Some(10)),
        (b"n\x01\x02\0\0\x03pic", Some(9)),
        (
            b"s\0\0\0\0\x06\0\0\0\x07\0\0\0\x0a\0\0\0\xff\xff\xff\xff\0\0\0\0\0\0\0\0\x40\0\0\0\x30\0\0\0\0\0\0\0\0\0\0\0\x02\0\0\0\x01\x02v",
            Some(51),
        ),
        (
            b"x\0\0\0\0\x06\0\0\0\x07\0\0\0\x0a\0\0\0\xff\xff\xff\xff\0\0\0\0\0\0\0\0\x40\0\0\0\x30\0\0\0\0\0\0\0\0\0\0\0\x02\0\x08\0\0\0\x01\0\0\0\x02\0\0\0\0\0\x01\x02",
            Some(63),
        ),
        (b"v", None),
        (b"", None),
    ];
    for (bytes, len) in rows {
        let read = next_listed(bytes);
        assert_eq!(rt; read.is_some(), len.is_some());
        if let (Some(read), Some(len)) = (read, len) {
            assert_eq!(rt; read.spelled_len(), len);
        }
    }
}

#[test]
fn what_a_restacking_asks_for(rt: HostRuntime) -> Result<(), Fail> {
    let Some(Listed::Restack(asked)) = next_listed(b"t\0\x02\0\0\0\0\x01\xff\xff\xff\xff") else {
        return Err(Fail::from("another letter"));
    };
    assert_eq!(rt; (asked.top, asked.len()), (0, 2));
    if asked.len() == 2 {
        assert_eq!(rt; (asked.id(0), asked.id(1)), (0x100_0000, 0xffff_ffff));
    }
    Ok(())
}

#[test]
fn what_names_ask_for(rt: HostRuntime) -> Result<(), Fail> {
    let Some(Listed::Name(asked)) = next_listed(b"N\x09\x01\0\0\x02\x03picv") else {
        return Err(Fail::from("another letter"));
    };
    assert_eq!(rt; (asked.id, asked.tied), (265, 2));
    assert_eq!(rt; asked.name, b"pic".as_slice());

    let Some(Listed::UseName(asked)) = next_listed(b"n\x01\x02\0\0\0") else {
        return Err(Fail::from("another letter"));
    };
    assert_eq!(rt; asked.id, 513);
    assert_eq!(rt; asked.name, b"".as_slice());
    Ok(())
}

// A string on a background (draw(3)), without memory.
#[test]
fn what_a_string_asks_for(rt: HostRuntime) -> Result<(), Fail> {
    let bytes =
        b"x\0\0\0\0\x06\0\0\0\x07\0\0\0\x0a\0\0\0\xff\xff\xff\xff\0\0\0\0\0\0\0\0\x40\0\0\0\x30\0\0\0\0\0\0\0\0\0\0\0\x02\0\x08\0\0\0\x01\0\0\0\x02\0\0\0\0\0\x01\x02";
    let Some(Listed::Write(asked)) = next_listed(bytes) else {
        return Err(Fail::from("another letter"));
    };
    assert_eq!(rt; (asked.dstid, asked.srcid, asked.fontid), (0, 6, 7));
    assert_eq!(rt; (asked.p.x, asked.p.y), (10, -1));
    assert_eq!(rt; (asked.clipr.max.x, asked.clipr.max.y), (64, 48));
    let Some(background) = asked.background else {
        return Err(Fail::from("no background"));
    };
    assert_eq!(rt; (background.id, background.p.x, background.p.y), (8, 1, 2));
    assert_eq!(rt; asked.len(), 2);
    if asked.len() == 2 {
        assert_eq!(rt; (asked.index(0), asked.index(1)), (0, 513));
    }
    Ok(())
}
