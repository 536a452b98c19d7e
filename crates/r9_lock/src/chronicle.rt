//! A value that keeps a history.
ghost use Rattle.std.specs.Prelude.{◌≡◌, ℕ, ◌+◌, ◌^◌, ◌<◌, ◌≤◌, List, [], ◌∷◌, ◌++◌, MatchBool};
ghost use Rattle.r9_lock.specs.Histories.{Stores};

/// What an act did.
#[derive(Drop)]
pub struct Acted<A> {
    pub answer: A,
    /// Whether it made an entry.
    pub entered: bool,
    /// The bells that are to be rung for its entry, as a set of bits (`bell_of`). Who waits at another bell sleeps on. No promise
    /// rests on it.
    pub rings: u64,
}

/// A value that answers what it is asked, and stands for a history of entries, numbered from 1. It may have dropped the
/// earliest of them, and then it may stand for more than one history.
pub trait Chronicle {
    /// What an act is asked.
    type Ask;

    /// What it answers.
    type Answer;

    /// What a history is made of.
    type Entry;

    // The entries that the value stores, the first of which has the number `first`.
    ghost stored: { Self → List Self.Entry };

    ghost first: { Self → ℕ };

    // The number of entries of a history that the value stands for.
    ghost entries: { Self → ℕ };

    ghost stands: { Self → List Self.Entry → Type 0 };

    // Of the history before, what was asked and answered, and the history after.
    ghost acts: { List Self.Entry → Self.Ask → Self.Answer → List Self.Entry → Type 0 };

    /// Does what it is asked. Where it entered, the history has one entry more, and else it is as it was. Which histories and
    /// answers may come, also for want of memory, is what the type says in `acts`.
    fn act(&mut self, ask: Self::Ask) -> Acted<Self::Answer>
        requires { entries self.old < 2 ^ 61 }
        ensures first { first self.old ≤ first self.new }
        ensures history { (before : List Self.Entry) → stands self.old before
            → (after : List Self.Entry) × stands self.new after × acts before ask result.answer after
            × MatchBool result.entered ((entry : Self.Entry) × (after ≡ before ++ entry ∷ [])) (after ≡ before) };

    /// The number of entries of the history.
    fn entries(&self) -> u64
        ensures { result ≡ entries self.now };

    /// The number of the first entry that is stored, and 1 more than `entries` where none is.
    fn first(&self) -> u64
        ensures { result ≡ first self.now };

    // A value stores the entries, from `first` on, of each history that it stands for.
    ghost stands_for_stored: { (v : Self) (history : List Self.Entry) → stands v history → Stores history (entries v) (first v) (stored v) };
}
