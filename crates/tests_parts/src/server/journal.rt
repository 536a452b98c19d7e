use r9_event::event::{Entry, Event};
use r9_journal::{entry_len, read_record, write_entry, write_header};
use r9_text::Bytes;
use std::test::Fail;

const RECORD: &str = "rio9 2 1\nB 1\nM 1 0700000000ff00 !3\nT 1\nE 1\nB 2\nX\n";

#[test]
fn a_record_is_read_and_written_again(rt: HostRuntime) -> Result<(), Fail> {
    let alloc = rt.alloc();
    let mut entries = read_record(alloc, RECORD.as_bytes())?;
    let mut text = Bytes::new(alloc);
    write_header(alloc, 1, &mut text)?;
    for number in 1..8 {
        let Some(event) = entries.pop_first() else {
            break;
        };
        write_entry(&Entry { number, event }, &mut text)?;
    }
    assert_eq!(rt; text.as_slice(), RECORD.as_bytes());
    Ok(())
}

#[test]
fn lines_have_their_length(rt: HostRuntime) -> Result<(), Fail> {
    let event = Event::Msg {
        session: 10,
        bytes: Bytes::from_slice(rt.alloc(), &[0; 7])?,
        mark: Some(3),
    };
    assert_eq!(rt; entry_len(&Entry { number: 1, event }), 23);
    Ok(())
}
