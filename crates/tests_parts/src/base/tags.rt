use r9_tags::{ParkFault, Waiting};
use std::test::Fail;

#[test]
fn reads_wait_in_order_of_arrival(rt: HostRuntime) -> Result<(), Fail> {
    let mut waiting = Waiting::new(rt.alloc());
    for (tag, what, answer) in [
        (7, 'a', Ok(())),
        (3, 'b', Ok(())),
        (7, 'c', Err(ParkFault::Duplicate)),
    ] {
        assert_eq!(rt; waiting.park(tag, what), answer);
    }
    assert_eq!(rt; waiting.as_slice(), [(7, 'a'), (3, 'b')].as_slice());
    Ok(())
}
