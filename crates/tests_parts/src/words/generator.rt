use r9_event::event::Event;
use r9_gen::make;
use r9_text::Bytes;
use std::test::Fail;

// What another program that makes these records tells of them: how many bytes the messages have, their sum, and their sum
// where each counts as often as its place says, kept to 32 bits.
#[derive(Clone, Copy, PartialEq, Eq, Debug)]
struct Sums {
    count: u32,
    plain: u32,
    weighted: u32,
}

impl Sums {
    /// With the bytes of one message more.
    fn with(mut self, bytes: &[u8]) -> Sums {
        for byte in bytes {
            self.count = self.count.wrapping_add(1);
            self.plain = self.plain.wrapping_add(*byte as u32);
            self.weighted = self
                .weighted
                .wrapping_add(self.count.wrapping_mul(*byte as u32));
        }
        self
    }
}

// The sums over the messages of a record, of which at most 1,000 events are looked at.
fn sums_of(rt: &HostRuntime, n: u32) -> Result<Sums, Fail> {
    let mut sums = Sums {
        count: 0,
        plain: 0,
        weighted: 0,
    };
    let mut entries = make(rt.alloc(), n)?;
    for _ in 0..1000 {
        if let Some(Event::Msg { bytes, .. }) = entries.pop_first() {
            sums = sums.with(bytes.as_slice());
        }
    }
    Ok(sums)
}

// The bytes of the last message of a record with fewer than 1,000 events.
fn last_message(rt: &HostRuntime, n: u32) -> Result<Bytes, Fail> {
    let mut last = Bytes::new(rt.alloc());
    let mut entries = make(rt.alloc(), n)?;
    for _ in 0..1000 {
        if let Some(Event::Msg { bytes, .. }) = entries.pop_first() {
            last = bytes;
        }
    }
    Ok(last)
}

#[test]
fn there_are_nine_events_and_one_for_each_message(rt: HostRuntime) -> Result<(), Fail> {
    let mut entries = make(rt.alloc(), 3)?;
    let mut count = 0u32;
    for _ in 0..20 {
        if entries.pop_first().is_some() {
            count = count.wrapping_add(1);
        }
    }
    assert_eq!(rt; count, 12);
    Ok(())
}

#[test]
fn the_first_number_of_1_draws_on_window_14(rt: HostRuntime) -> Result<(), Fail> {
    let last = last_message(&rt, 1)?;
    let head = [
        b'd', 14, 0, 0, 0, 21, 0, 0, 0, 1, 0, 0, 0, 160, 0, 0, 0, 120,
    ];
    assert!(rt; last.len() == 68 && last.as_slice()[23..].starts_with(&head));
    Ok(())
}

#[test]
fn another_program_makes_the_same(rt: HostRuntime) -> Result<(), Fail> {
    let one = Sums {
        count: 941,
        plain: 37_609,
        weighted: 16_264_906,
    };
    assert_eq!(rt; sums_of(&rt, 1)?, one);
    let many = Sums {
        count: 15_036,
        plain: 318_722,
        weighted: 2_308_475_667,
    };
    assert_eq!(rt; sums_of(&rt, 300)?, many);
    Ok(())
}
