//! What a recorder keeps.
ghost use Rattle.std.specs.Prelude.{◌≡◌, ◌<◌, ◌+◌, ◌-◌, ◌^◌, ◌++◌, ◌∷◌, [], ℕ, List, length, MatchBool};
ghost use Rattle.r9_event.specs.declared.event.event.Entry.{Entry};
ghost use Rattle.r9_event.specs.declared.event.event.Opening.{Opening};
ghost use Rattle.model_history.specs.event.Journal.{AreNumbered, events_of};
ghost use Rattle.model_history.specs.event.Legal.{IsLegal, roll_of};
ghost use Rattle.model_served.specs.session.Acts.{May};
ghost use Rattle.model_served.specs.served.Served.{served};
ghost use Rattle.r9_lock.specs.Histories.{Stores};

use r9_event::event::{Answer, Ask, Entry};
use r9_lock::Acted;
use std::alloc::Global;

/// A server that stores the entries of its history until it is told to forget them.
pub trait Keeps {
    /// The display with which it started.
    ghost opening: { Self → Opening };

    /// The number of the first entry that it stores.
    ghost first: { Self → ℕ };

    /// The entries that it stores.
    ghost stored: { Self → List Entry };

    /// The histories that it stands for.
    ghost stands: { Self → List Entry → Type 0 };

    /// Does what a session asks, as the server of its opening may. It forgets nothing.
    fn act(&mut self, ask: Ask) -> Acted<Answer>
        requires { first self.old - 1 + length (stored self.old) < 2 ^ 61 }
        ensures opening { opening self.new ≡ opening self.old }
        ensures first { first self.new ≡ first self.old }
        ensures history { (before : List Entry) → stands self.old before
            → (after : List Entry) × stands self.new after × May (served (opening self.old)) before ask result.answer after
            × MatchBool result.entered ((entry : Entry) × (after ≡ before ++ entry ∷ [])) (after ≡ before) };

    /// The number of the first entry that is stored, and 1 more than there are entries where none is.
    fn first(&self) -> u64
        ensures { result ≡ first self.now };

    /// How many entries the history has.
    fn entries(&self) -> u64
        ensures count { result ≡ first self.now - 1 + length (stored self.now) }
        ensures few { result < 2 ^ 62 };

    /// The entries that are stored, in order.
    fn journal(&self) -> &[Entry]
        ensures { result.now ≡ stored self.now };

    /// Forgets all stored entries. The histories that it stands for stay.
    fn forget(&mut self)
        ensures opening { opening self.new ≡ opening self.old }
        ensures first { first self.new ≡ first self.old + length (stored self.old) }
        ensures stored { stored self.new ≡ [] }
        ensures stands { (history : List Entry) → stands self.old history → stands self.new history };

    /// Whether all has stopped for want of memory.
    fn is_stopped(&self) -> bool
        ensures { (history : List Entry) → stands self.now history → result ≡ (roll_of (events_of history)).stopped };

    /// Where its memory comes from.
    fn alloc(&self) -> Global;

    ghost stands_for_stored: { (h : Self) (history : List Entry) → stands h history → Stores history (first h - 1 + length (stored h)) (first h) (stored h) };

    ghost lawful: { (h : Self) (history : List Entry) → stands h history → AreNumbered 1 history × IsLegal (events_of history) };
}
