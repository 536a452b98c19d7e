//! The lock.
use crate::bell::{Bell, Patience};
use crate::bells::Bells;
use crate::chronicle::{Acted, Chronicle};
use crate::pass::Pass;
use crate::rule::{Compare, Cut, End, Glue, Look, Portion, Take, Told, Turns};
use crate::view::{Place, View};
use atomic_table::Table;
use std::alloc::Global;
use std::marker::{Brand, Model};
use std::snapshot::Snapshot;
use std::sync::Wait;

/// There was no memory. The value comes back.
#[derive(Drop)]
pub struct Refused<T> {
    pub value: T,
}

/// The lock's word was `count`, 2^62 or more, which is too large for another turn. What was asked comes back.
#[derive(Drop)]
pub struct Spent<K> {
    pub count: u64,
    pub ask: K,
}

// From this word on there are no more turns.
const MOST: u64 = 1 << 62;

// The longest pause of a thread that waits for a turn, which is mostly short, in spins.
const TURN_PAUSE: u32 = 2048;

/// A value that threads take turns at.
#[derive(Drop)]
pub struct Shared<T: Chronicle> {
    table: Table<T, View<T::Entry>, u64, Turns<T, T::Ask, T::Answer>, Global>,
    // Rung when a turn ends.
    free: Bell,
    // Rung when the history has an entry more that may concern who waits at them.
    grown: Bells,
}

// How a try to take the turn ended: with the word that it found, or in vain, since another thread has the turn.
enum Tried {
    Taken(u64),
    Spent(u64),
    Held,
}

impl<T: Chronicle> Model for Shared<T> {
    ghost use Rattle.std.specs.Prelude.{◌≡◌};
    ghost use Rattle.r9_lock.specs.Passes.{Lock};

    ghost Value = { Lock };

    ghost view = { λ s. record { id = s.table.shared.table_id; shares = s.table.shared.key } };

    ghost invariant = { λ s. (s.table.shared.table_id.words ≡ 1) × (s.table.shared.table_id.slots ≡ 1) };
}

impl<T: Chronicle + Drop> Shared<T> {
    ghost use Rattle.std.specs.Prelude.{◌≡◌, ◌<◌, [], IfOk, IfErr};
    ghost use Rattle.r9_lock.specs.Passes.{opening};

    /// A lock over a value that stands for the empty history, and a pass with all shares, which has seen and made nothing.
    pub fn start(alloc: Global, value: T, shares: u32) -> Result<(Shared<T>, Pass<T>), Refused<T>>
        requires history { T.stands value [] }
        requires first { T.first value ≡ 1 }
        requires shares { 0 < shares }
        ensures lock { IfOk result (λ r. r.0.shares ≡ shares) }
        ensures pass { IfOk result (λ r. r.1 ≡ opening r.0.id shares) }
        ensures refused { IfErr result (λ refused. refused.value ≡ value) }
    {
        let Ok(grown) = Bells::start(alloc) else {
            return Err(Refused { value });
        };
        let Ok(mut slots) = Vec::with_capacity(alloc, 1) else {
            return Err(Refused { value });
        };
        slots.push_reserved(value);
        let (table, seat) = match Table::new(alloc, &[0], slots, &u64::from(shares)) {
            Ok(made) => made,
            Err(mut refused) => {
                let Some(value) = refused.slots.pop() else {
                    unreachable!()
                };
                return Err(Refused { value });
            }
        };
        let shared = Shared {
            table,
            free: Bell::new(TURN_PAUSE),
            grown,
        };
        Ok((shared, Pass { seat, seen: 0 }))
    }
}

impl<T: Chronicle> Shared<T> {
    ghost use Rattle.std.specs.Prelude.{◌≡◌, ℕ, ◌+◌, ◌*◌, ◌/◌, ◌^◌, ◌<◌, ◌≤◌, true, length, Some, IfOk, IfErr};
    ghost use Rattle.r9_lock.specs.Histories.{IsPrefix, history_of};
    ghost use Rattle.r9_lock.specs.Passes.{known_of, left_of, given_of, both_of, IsTurn, IsWhole};
    ghost use Rattle.r9_lock.specs.Turns.{IsSameSeat, Rests, Looks, left_me, given_me, Carries, Takes, IsTried, Acts, NeverFalls, Ends};

    // One try to take the turn.
    fn try_take(&self, seat: &mut Place<T>) -> Tried
        requires lock { seat.old.table_id ≡ self.now.id }
        requires rests { Rests seat.old.me }
        ensures seat { IsSameSeat seat.old seat.new }
        ensures tried { IsTried T.stands seat.old.me seat.new.me result }
    {
        let shared = &self.table.shared;
        let found = shared.load::<Look>(seat, 0);
        if found >= MOST {
            return Tried::Spent(found);
        }
        if found % 2 == 0 && shared.compare_exchange::<Take>(seat, 0, found, found + 1) == found {
            return Tried::Taken(found);
        }
        Tried::Held
    }

    // The word that was found, where the turn was free, and else the word at which there are no more turns.
    fn take<R: Wait>(&self, rt: &R, seat: &mut Place<T>) -> Result<u64, u64>
        requires lock { seat.old.table_id ≡ self.now.id }
        requires rests { Rests seat.old.me }
        ensures seat { IsSameSeat seat.old seat.new }
        ensures ok { IfOk result (λ found. (found < 2 ^ 62) × Takes T.stands found seat.old.me seat.new.me) }
        ensures looks { IfErr result (λ _. Looks seat.old.me seat.new.me) }
        ensures err { IfErr result (λ count. (2 ^ 62 ≤ count) × (count / 2 ≤ seat.new.me.0.least)) }
    {
        let mut patience = Patience::Pause(1);
        for _ in rt.forever() {
            match self.try_take(seat) {
                Tried::Taken(found) => return Ok(found),
                Tried::Spent(count) => return Err(count),
                Tried::Held => patience = self.free.pause(rt, patience),
            }
        }
        unreachable!()
    }

    // Acts on the value that the seat has.
    fn act(&self, seat: &mut Place<T>, ask: T::Ask) -> Acted<T::Answer>
        requires lock { seat.old.table_id ≡ self.now.id }
        requires carries { Carries T.stands seat.old.me }
        requires room { length seat.old.me.0.seen < 2 ^ 61 }
        ensures seat { IsSameSeat seat.old seat.new }
        ensures view { seat.new.me.0 ≡ seat.old.me.0 }
        ensures acted { Acts T.stands T.acts ask result.answer result.entered seat.new.me }
        ensures first { NeverFalls T.first seat.old.me seat.new.me }
    {
        seat.slot_mut(&self.table.shared, 0).act(ask)
    }

    // Puts the value back, and then, where there is one entry more, wakes who waits at the bells of a set. Answers how many
    // entries there are.
    fn end<J: Told<T::Ask, T::Answer>>(
        &self,
        seat: &mut Place<T>,
        _asked: &Snapshot<T::Ask>,
        _answer: &T::Answer,
        found: u64,
        entered: bool,
        rings: u64,
    ) -> u64
        requires lock { seat.old.table_id ≡ self.now.id }
        requires told { J.told ≡ Some (_asked.now.value, _answer.now) }
        requires turn { (seat.old.me.0.turn ≡ true) × (0 < seat.old.me.0.shares) }
        requires found { (found < 2 ^ 62) × (2 * length seat.old.me.0.seen ≡ found) }
        requires acted { Acts T.stands T.acts _asked.now.value _answer.now entered seat.old.me }
        ensures seat { IsSameSeat seat.old seat.new }
        ensures count { result ≡ length seat.new.me.0.seen }
        ensures ended { Ends T.stands T.acts _asked.now.value _answer.now seat.old.me seat.new.me }
    {
        let word = if entered { found + 2 } else { found };
        self.table.shared.store::<End<J>>(seat, 0, word);
        self.free.ring();
        if entered {
            self.grown.ring(rings, word / 2);
        }
        word / 2
    }

    /// Takes a turn: acts on the value once, and adds the entry, if one was made, to the history. It may wait for the turns of
    /// other threads, and takes no memory but what the value's `act` takes. `Spent` comes only where the lock's word, which is
    /// twice the number of entries and 1 more while a turn is held, is 2^62 or more; then the value was not acted on.
    pub fn turn<R: Wait>(
        &self,
        rt: &R,
        pass: &mut Pass<T>,
        ask: T::Ask,
    ) -> Result<T::Answer, Spent<T::Ask>>
        requires { pass.old.lock ≡ self.now.id }
        ensures pass { (pass.new.lock ≡ pass.old.lock) × (pass.new.shares ≡ pass.old.shares) }
        ensures least { pass.old.least ≤ pass.new.least }
        ensures ok { IfOk result (λ answer. IsTurn T.stands T.first T.acts ask answer pass.old pass.new) }
        ensures spent { IfErr result (λ e. (e.ask ≡ ask) × (2 ^ 62 ≤ e.count) × (e.count / 2 ≤ pass.new.least)) }
        ensures unseen { IfErr result (λ _. (pass.new.seen ≡ pass.old.seen) × (pass.new.made ≡ pass.old.made)) }
    {
        let found = match self.take(rt, &mut pass.seat) {
            Ok(found) => found,
            Err(count) => return Err(Spent { count, ask }),
        };
        let asked = Snapshot::of(&ask);
        let Acted {
            answer,
            entered,
            rings,
        } = self.act(&mut pass.seat, ask);
        pass.seen = self.end::<Brand>(&mut pass.seat, &asked, &answer, found, entered, rings);
        Ok(answer)
    }

    // Looks until the bell of a listener has rung for more than so many entries, and the history has more.
    fn watch<R: Wait>(&self, rt: &R, seat: &mut Place<T>, seen: u64, listener: u32)
        requires lock { seat.old.table_id ≡ self.now.id }
        requires rests { Rests seat.old.me }
        ensures seat { IsSameSeat seat.old seat.new }
        ensures looks { Looks seat.old.me seat.new.me }
        ensures more { seen < seat.new.me.0.least }
    {
        let growth = self.grown.of(listener);
        let mut patience = Patience::Pause(1);
        for _ in rt.forever() {
            if growth.has_rung_after(seen) {
                let found = self.table.shared.load::<Look>(seat, 0);
                if found / 2 > seen {
                    return;
                }
            }
            patience = growth.bell.pause(rt, patience);
        }
    }

    /// Waits until the history has an entry that the pass has not seen, and so has more entries than those, and the bell of a
    /// listener was rung for it. So it may wait on where there are such entries, but none of them rang that bell.
    pub fn wait<R: Wait>(&self, rt: &R, pass: &mut Pass<T>, listener: u32)
        requires { pass.old.lock ≡ self.now.id }
        ensures pass { pass.new ≡ known_of pass.old pass.new.least }
        ensures least { pass.old.least ≤ pass.new.least }
        ensures more { length pass.old.seen < pass.new.least }
    {
        let seen = pass.seen;
        self.watch(rt, &mut pass.seat, seen, listener);
    }

    /// Rings the bell of a listener, who then wakes where the pass has seen an entry that the listener has not.
    pub fn ring(&self, pass: &Pass<T>, listener: u32) {
        self.grown.of(listener).ring(pass.seen);
    }

    fn cut<J: Portion>(&self, seat: &mut Place<T>, _shares: u32) -> Place<T>
        requires lock { seat.old.table_id ≡ self.now.id }
        requires rests { Rests seat.old.me }
        requires portion { J.portion ≡ _shares }
        requires shares { (0 < _shares) × (_shares < seat.old.me.0.shares) }
        ensures seat { IsSameSeat seat.old seat.new }
        ensures kept { seat.new.me ≡ left_me seat.old.me _shares }
        ensures given { (result.table_id ≡ seat.old.table_id) × (result.me ≡ given_me seat.old.me _shares) }
    {
        self.table.shared.split_seat::<Cut<J>>(seat)
    }

    /// Moves so many shares to a new pass, which has seen the same and made nothing. It takes no memory.
    pub fn split(&self, pass: &mut Pass<T>, shares: u32) -> Pass<T>
        requires lock { pass.old.lock ≡ self.now.id }
        requires shares { (0 < shares) × (shares < pass.old.shares) }
        ensures kept { pass.new ≡ left_of pass.old shares }
        ensures given { result ≡ given_of pass.old shares }
    {
        let seen = pass.seen;
        let seat = self.cut::<Brand>(&mut pass.seat, shares);
        Pass { seat, seen }
    }

    /// Takes in another pass: its shares, what it made, and what it has seen. It takes no memory.
    pub fn join(&self, pass: &mut Pass<T>, other: Pass<T>)
        requires { (pass.old.lock ≡ self.now.id) × (other.lock ≡ self.now.id) }
        ensures both { pass.new ≡ both_of pass.old other }
        ensures seen { IsPrefix pass.old.seen pass.new.seen × IsPrefix other.seen pass.new.seen }
    {
        let Pass { seat, seen } = other;
        self.table.shared.join_seat::<Glue>(&mut pass.seat, seat);
        self.table.shared.load::<Compare>(&mut pass.seat, 0);
        pass.seen = pass.seen.max(seen);
    }

    /// Ends the lock, with the pass that has all shares, and gives the value. The history is told by the pass, as far as the
    /// value has dropped its entries, and then by the value.
    pub fn close(self, pass: Pass<T>) -> T
        requires lock { pass.lock ≡ self.id }
        requires whole { pass.shares ≡ self.shares }
        ensures { IsWhole T.stands result (history_of pass.seen (T.first result) (T.stored result)) pass }
    {
        let Shared {
            table,
            free: _,
            grown: _,
        } = self;
        let Pass { seat, seen: _ } = pass;
        let mut closed = table.close_with(seat);
        let value = closed.take(0);
        closed.free();
        value
    }
}
