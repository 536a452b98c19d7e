//! Where sessions come from.

ghost use Rattle.std.specs.Prelude.{◌≡◌, ◌≤◌, ◌+◌, [], List, ℕ, Bool, true, Option, Some, None, IfOk, IfSome, IsSome, OnErr, IsErrOf, is_err};
ghost use Rattle.r9_outside.specs.outside.Count.{Rose};
ghost use Rattle.r9_outside.specs.outside.Door.{Accepted, Ended, OneLess, OneMore};

use crate::outside::{Failed, Sink, Source};

/// Why no session was accepted.
#[derive(Clone, Copy, Debug, PartialEq, Eq)]
pub enum AcceptFault {
    /// The door failed, and counted it.
    Failed,
    /// There was no memory. The door is as it was before.
    Memory,
}

/// A door, at which sessions come one after the other, each with a source and a sink.
pub trait Door {
    /// What a session is read from.
    type In: Source + Send;

    /// What its replies go to.
    type Out: Sink + Send;

    /// How many calls have failed, up to 2^64-1.
    ghost faults: { Self → ℕ };

    /// Whether the next listen or accept fails, or None where the door does not tell it.
    ghost fails_next: { Self → Option Bool };

    /// How many sessions are still to come, or None where the door does not tell it.
    ghost coming: { Self → Option ℕ };

    /// Whether an accept has answered that none comes.
    ghost over: { Self → Bool };

    /// The session that was accepted last, if it is not done.
    ghost inside: { Self → Option Accepted };

    /// The sessions that are done, in order, or None where the door does not tell them.
    ghost ended: { Self → Option (List (Ended Self.In Self.Out)) };

    /// Opens the door at an address.
    fn listen(&mut self, address: &str) -> Result<(), Failed>
        ensures coming { (coming self.new ≡ coming self.old) × (over self.new ≡ over self.old) }
        ensures ended { (inside self.new ≡ inside self.old) × (ended self.new ≡ ended self.old) }
        ensures failed { OnErr result (Rose (faults self.old) (faults self.new)) }
        ensures counted { faults self.old ≤ faults self.new }
        ensures told { IfSome (fails_next self.old) (λ fails. is_err result ≡ fails) };

    /// The ends of the next session, or None where none comes. A door that tells which calls fail never answers Memory.
    fn accept(&mut self) -> Result<Option<(Self::In, Self::Out)>, AcceptFault>
        ensures accepted { IfOk result (λ ends. IfSome ends (λ pair. inside self.new ≡ Some (record { had = Self.In.left pair.0; read_faults = Self.In.faults pair.0; write_faults = Self.Out.faults pair.1 }))) }
        ensures fresh { IfOk result (λ ends. IfSome ends (λ pair. IfSome (Self.Out.held pair.1) (λ held. held ≡ []))) }
        ensures less { IfOk result (λ ends. IfSome ends (λ _. OneLess (coming self.old) (coming self.new) × (over self.new ≡ over self.old))) }
        ensures none { IfOk result (λ ends. ends ≡ None → IfSome (coming self.old) (λ n. n ≡ 0) × (coming self.new ≡ coming self.old) × (over self.new ≡ true) × (inside self.new ≡ inside self.old)) }
        ensures ended { ended self.new ≡ ended self.old }
        ensures failed { IsErrOf result AcceptFault.Failed → Rose (faults self.old) (faults self.new) }
        ensures kept { OnErr result ((coming self.new ≡ coming self.old) × (over self.new ≡ over self.old) × (inside self.new ≡ inside self.old)) }
        ensures memory { IsErrOf result AcceptFault.Memory → (faults self.new ≡ faults self.old) × (fails_next self.old ≡ None) }
        ensures counted { faults self.old ≤ faults self.new }
        ensures told { IfSome (fails_next self.old) (λ fails. is_err result ≡ fails) };

    /// Takes back the ends of the session that was accepted last, with the session's number, if it began. It takes no memory.
    fn done(&mut self, session: Option<u32>, input: Self::In, output: Self::Out)
        requires { IsSome (inside self.old) }
        ensures ended { IfSome (inside self.old) (λ accepted. OneMore (ended self.old) (record { session = session; accepted = accepted; input = input; output = output }) (ended self.new)) }
        ensures inside { inside self.new ≡ None }
        ensures coming { (coming self.new ≡ coming self.old) × (over self.new ≡ over self.old) }
        ensures faults { faults self.new ≡ faults self.old };
}
