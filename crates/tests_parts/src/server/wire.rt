use r9_wire::{NO_TAG, WireFault, read_t};
use std::test::Fail;

/// A Tversion whose size counts one byte more than there are.
const CUT: &[u8] = b"\x13\0\0\0\x64\xff\xff\x18\0\x01\0\x06\09P200";

#[test]
fn a_cut_message_is_malformed(rt: HostRuntime) -> Result<(), Fail> {
    let read = read_t(rt.alloc(), CUT);
    assert!(rt; matches!(read, Err(WireFault::Malformed(NO_TAG))));
    Ok(())
}
