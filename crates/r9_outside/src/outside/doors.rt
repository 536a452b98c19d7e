//! Doors in memory: such as never fail, and such as fail at the calls of a list.

ghost use Rattle.std.specs.Prelude.{◌≡◌, ◌≤◌, ◌+◌, [], ◌∷◌, ◌++◌, List, ℕ, false, Some, None, map, length, OnOk, OnErr};
ghost use Rattle.std.specs.Option.{option_map};
ghost use Rattle.std.specs.Vec.{vec_len, vec_capacity};
ghost use Rattle.r9_outside.specs.outside.Failing.{fails_next};
ghost use Rattle.r9_outside.specs.outside.Doors.{accepted_with, ended_of, one_of};

use crate::outside::memory::Fails;
use crate::outside::{AcceptFault, Door, Failed, Sink, Source};
use std::alloc::{AllocError, Global};
use std::collections::VecDeque;

/// A session that is to come: its ends, and once more the bytes that its source has.
#[derive(Drop)]
struct Script<S: Source + Drop, O: Sink + Drop> {
    had: Vec<u8>,
    source: S,
    sink: O,
    ghost told: { S.left source ≡ Some had.items },
    ghost sound: { (S.faults source ≡ 0) × (O.faults sink ≡ 0) },
    ghost empty: { O.held sink ≡ Some [] },
}

/// A session that is done.
#[derive(Drop)]
pub struct Done<S: Source + Drop, O: Sink + Drop> {
    pub session: Option<u32>,
    /// What its source had when it was accepted.
    pub had: Vec<u8>,
    pub input: S,
    pub output: O,
}

/// A door in memory that never fails, at which sessions come that were added before.
#[derive(Drop)]
pub struct SureDoor<S: Source + Drop, O: Sink + Drop> {
    coming: VecDeque<Script<S, O>>,
    inside: Option<Vec<u8>>,
    done: Vec<Done<S, O>>,
    over: bool,
    ghost room: { vec_len done + (length coming.items + one_of inside) ≤ vec_capacity done },
}

impl<S: Source + Send + Drop, O: Sink + Send + Drop> SureDoor<S, O> {
    /// A door to which no session comes.
    pub fn new(alloc: Global) -> Self
        ensures coming { ⟦<SureDoor<S, O> as Door>⟧.coming result ≡ Some 0 }
        ensures ended { ⟦<SureDoor<S, O> as Door>⟧.ended result ≡ Some [] }
        ensures over { ⟦<SureDoor<S, O> as Door>⟧.over result ≡ false }
        ensures inside { ⟦<SureDoor<S, O> as Door>⟧.inside result ≡ None }
    {
        SureDoor {
            coming: VecDeque::new(alloc),
            inside: None,
            done: Vec::new(alloc),
            over: false,
        }
    }

    /// Adds a session with these ends, whose source has these bytes left. All its room is taken here.
    pub fn add(&mut self, had: Vec<u8>, source: S, sink: O) -> Result<(), AllocError>
        requires told { S.left source ≡ Some had.items }
        requires sound { (S.faults source ≡ 0) × (O.faults sink ≡ 0) }
        requires empty { O.held sink ≡ Some [] }
        ensures ok { OnOk result (⟦<SureDoor<S, O> as Door>⟧.coming self.new ≡ option_map (λ n. n + 1) (⟦<SureDoor<S, O> as Door>⟧.coming self.old)) }
        ensures err { OnErr result (⟦<SureDoor<S, O> as Door>⟧.coming self.new ≡ ⟦<SureDoor<S, O> as Door>⟧.coming self.old) }
        ensures same { (⟦<SureDoor<S, O> as Door>⟧.ended self.new ≡ ⟦<SureDoor<S, O> as Door>⟧.ended self.old) × (⟦<SureDoor<S, O> as Door>⟧.over self.new ≡ ⟦<SureDoor<S, O> as Door>⟧.over self.old) × (⟦<SureDoor<S, O> as Door>⟧.inside self.new ≡ ⟦<SureDoor<S, O> as Door>⟧.inside self.old) }
    {
        self.done.reserve(self.coming.len() + 2)?;
        self.coming.push_back(Script { had, source, sink })?;
        Ok(())
    }

    /// The sessions that are done, in order.
    pub fn done_sessions(&self) -> &[Done<S, O>]
        ensures { ⟦<SureDoor<S, O> as Door>⟧.ended self.now ≡ Some (map ended_of result.now) }
    {
        &self.done
    }
}

impl<S: Source + Send + Drop, O: Sink + Send + Drop> Door for SureDoor<S, O> {
    type In = S;

    type Out = O;

    ghost faults = { λ d. 0 };

    ghost fails_next = { λ d. Some false };

    ghost coming = { λ d. Some (length d.coming.items) };

    ghost over = { λ d. d.over };

    ghost inside = { λ d. option_map (λ had. accepted_with had.items) d.inside };

    ghost ended = { λ d. Some (map ended_of d.done.items) };

    fn listen(&mut self, _address: &str) -> Result<(), Failed> {
        Ok(())
    }

    fn accept(&mut self) -> Result<Option<(S, O)>, AcceptFault> {
        let Some(script) = self.coming.pop_front() else {
            self.over = true;
            return Ok(None);
        };
        let Script { had, source, sink } = script;
        self.inside = Some(had);
        Ok(Some((source, sink)))
    }

    fn done(&mut self, session: Option<u32>, input: S, output: O) {
        if let Some(had) = self.inside.take() {
            self.done.push_reserved(Done {
                session,
                had,
                input,
                output,
            });
        }
    }
}

/// A door in memory some of whose calls fail. Listens and accepts are counted together.
#[derive(Drop)]
pub struct MemDoor<S: Source + Drop, O: Sink + Drop> {
    door: SureDoor<S, O>,
    fails: Fails,
}

impl<S: Source + Send + Drop, O: Sink + Send + Drop> MemDoor<S, O> {
    /// A door with the sessions of another. The calls whose numbers, from 1, stand in `fails` will fail.
    pub fn new(door: SureDoor<S, O>, fails: Vec<u64>) -> Self
        ensures coming { ⟦<MemDoor<S, O> as Door>⟧.coming result ≡ ⟦<SureDoor<S, O> as Door>⟧.coming door }
        ensures over { ⟦<MemDoor<S, O> as Door>⟧.over result ≡ ⟦<SureDoor<S, O> as Door>⟧.over door }
        ensures inside { ⟦<MemDoor<S, O> as Door>⟧.inside result ≡ ⟦<SureDoor<S, O> as Door>⟧.inside door }
        ensures ended { ⟦<MemDoor<S, O> as Door>⟧.ended result ≡ ⟦<SureDoor<S, O> as Door>⟧.ended door }
        ensures failing { result.fails.at.items ≡ fails.items }
        ensures first { result.fails.calls ≡ 0 }
        ensures faults { ⟦<MemDoor<S, O> as Door>⟧.faults result ≡ 0 }
    {
        MemDoor {
            door,
            fails: Fails::new(fails),
        }
    }

    /// The sessions that are done, in order.
    pub fn done_sessions(&self) -> &[Done<S, O>]
        ensures { ⟦<MemDoor<S, O> as Door>⟧.ended self.now ≡ Some (map ended_of result.now) }
    {
        self.door.done_sessions()
    }
}

impl<S: Source + Send + Drop, O: Sink + Send + Drop> Door for MemDoor<S, O> {
    type In = S;

    type Out = O;

    ghost faults = { λ d. d.fails.faults };

    ghost fails_next = { λ d. Some (fails_next d.fails) };

    ghost coming = { λ d. ⟦<SureDoor<S, O> as Door>⟧.coming d.door };

    ghost over = { λ d. ⟦<SureDoor<S, O> as Door>⟧.over d.door };

    ghost inside = { λ d. ⟦<SureDoor<S, O> as Door>⟧.inside d.door };

    ghost ended = { λ d. ⟦<SureDoor<S, O> as Door>⟧.ended d.door };

    fn listen(&mut self, address: &str) -> Result<(), Failed> {
        self.fails.call()?;
        self.door.listen(address)
    }

    fn accept(&mut self) -> Result<Option<(S, O)>, AcceptFault> {
        if self.fails.call().is_err() {
            return Err(AcceptFault::Failed);
        }
        self.door.accept()
    }

    fn done(&mut self, session: Option<u32>, input: S, output: O) {
        self.door.done(session, input, output);
    }
}
