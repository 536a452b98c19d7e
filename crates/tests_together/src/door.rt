//! A door at which one session comes, or none.

ghost use Rattle.std.specs.Prelude.{◌≡◌, ◌≤◌, None};
ghost use Rattle.std.specs.Option.{option_map};

use crate::ends::{TestSink, TestSource};
use r9_outside::outside::{AcceptFault, Door, Failed};

/// A session that has ended.
#[derive(Drop)]
pub struct Ended {
    pub session: Option<u32>,
    /// What its sink got.
    pub got: Vec<u8>,
}

/// How many faults the ends of a session had when it was accepted.
#[derive(Clone, Copy)]
struct Faults {
    read: u64,
    write: u64,
}

/// A door that never fails, and tells neither who comes nor what is sent.
#[derive(Drop)]
pub struct TestDoor {
    coming: Option<(TestSource, TestSink)>,
    inside: Option<Faults>,
    over: bool,
    pub ended: Option<Ended>,
}

impl TestDoor {
    /// A door at which a session with these ends comes.
    pub fn new(source: TestSource, sink: TestSink) -> TestDoor {
        TestDoor {
            coming: Some((source, sink)),
            ..TestDoor::nobody()
        }
    }

    /// A door at which nobody comes.
    pub fn nobody() -> TestDoor {
        TestDoor {
            coming: None,
            inside: None,
            over: false,
            ended: None,
        }
    }
}

impl Door for TestDoor {
    type In = TestSource;

    type Out = TestSink;

    ghost faults = { λ d. 0 };

    ghost fails_next = { λ d. None };

    ghost coming = { λ d. None };

    ghost over = { λ d. d.over };

    ghost inside = { λ d. option_map (λ faults. record { had = None; read_faults = faults.read; write_faults = faults.write }) d.inside };

    ghost ended = { λ d. None };

    fn listen(&mut self, _address: &str) -> Result<(), Failed> {
        Ok(())
    }

    fn accept(&mut self) -> Result<Option<(TestSource, TestSink)>, AcceptFault> {
        let Some((source, sink)) = self.coming.take() else {
            self.over = true;
            return Ok(None);
        };
        self.inside = Some(Faults {
            read: source.faults,
            write: sink.faults,
        });
        Ok(Some((source, sink)))
    }

    fn done(&mut self, session: Option<u32>, _input: TestSource, output: TestSink) {
        self.inside = None;
        self.ended = Some(Ended {
            session,
            got: output.bytes,
        });
    }
}
