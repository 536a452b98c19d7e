use r9_event::event::{Entries, Event, Replies, Reply};
use r9_text::Bytes;
use std::test::Fail;

#[test]
fn lists_keep_their_order(rt: HostRuntime) -> Result<(), Fail> {
    let mut entries = Entries::new(rt.alloc());
    entries.push(Event::Begin { session: 1 })?;
    entries.push(Event::Stop)?;
    assert!(rt; matches!(entries.pop_first(), Some(Event::Begin { session: 1 })));
    let mut replies = Replies::new(rt.alloc());
    for session in 1..3 {
        replies.push(Reply {
            session,
            bytes: Bytes::new(rt.alloc()),
        })?;
    }
    assert_eq!(rt; replies.as_slice().len(), 2);
    Ok(())
}
