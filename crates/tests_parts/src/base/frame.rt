use r9_frame::{Framer, Next};
use std::test::Fail;

// A message of 19 bytes, which comes in two pieces, and the front of one of 24.
const STREAM: [u8; 39] =
    *b"\x13\0\0\0\x64\xff\xff\x18\0\x01\0\x06\09P2000\x18\0\0\0\x68\x01\0\0\0\0\0\xff\xff\xff\xff\x01\0u\0\0";

#[test]
fn a_stream_is_cut_into_messages(rt: HostRuntime) -> Result<(), Fail> {
    let mut framer = Framer::new(rt.alloc(), 65_560);
    framer.feed(&STREAM[..7])?;
    assert!(rt; matches!(framer.next()?, Next::NeedMore));
    framer.feed(&STREAM[7..])?;
    let Next::Frame(frame) = framer.next()? else {
        return Err("a message")?;
    };
    assert_eq!(rt; frame.as_slice(), &STREAM[..19]);
    assert!(rt; matches!(framer.next()?, Next::NeedMore));
    framer.set_limit(19);
    assert!(rt; matches!(framer.next()?, Next::BadSize(24)));
    Ok(())
}
