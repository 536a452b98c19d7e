//! What is reported of workers.
ghost use Rattle.std.specs.Prelude.{◌≡◌, ◌++◌, [], List, ℕ, Bool, true, false, None, IfSome, is_some, ◌||◌};
ghost use Rattle.std.specs.Option.{option_or, option_to_list};
ghost use Rattle.std.specs.List.Sorted.{IsPermutation, IsNonDecreasingBy};
ghost use Rattle.r9_attend.specs.workers.Lines.{unplain_of};
ghost use Rattle.r9_attend.specs.workers.Shifts.{lacks, spent_of};
ghost use Rattle.r9_attend.specs.workers.Steps.{Lists};
ghost use Rattle.r9_attend.specs.declared.workers.lines.Unplain.{Unplain};

use crate::attend::{Attended, ReadEnd, WriteEnd};
use crate::workers::lines::{Unplain, with_line};
use std::alloc::Global;

/// How it went with the workers.
#[derive(Debug, Drop)]
pub struct Report {
    /// The lowest worker whose door failed, from 1.
    pub door_fault: Option<u32>,
    /// Memory ran out.
    pub memory: bool,
    /// The count of a lock that had no more turns.
    pub spent: Option<u64>,
    /// The sessions that did not end plainly, in ascending order. None where there was no memory for the list.
    pub sessions: Option<Vec<Unplain>>,
}

fn lacks_memory(ends: Attended) -> bool
    ensures { result ≡ lacks ends }
{
    matches!(ends.reader, ReadEnd::Memory) || matches!(ends.writer, WriteEnd::Memory)
}

fn spent_count(ends: Attended) -> Option<u64>
    ensures { result ≡ spent_of ends }
{
    let reader = match ends.reader {
        ReadEnd::Spent(count) => Some(count),
        _ => None,
    };
    let writer = match ends.writer {
        WriteEnd::Spent(count) => Some(count),
        _ => None,
    };
    reader.or(writer)
}

// The list with one more at its end, where there is memory for it.
fn with_one(list: Option<Vec<Unplain>>, more: Option<Unplain>) -> Option<Vec<Unplain>>
    ensures { (lines : List Unplain) → IfSome list (λ l. l.items ≡ lines) → IfSome result (λ l. l.items ≡ lines ++ option_to_list more) }
{
    let mut list = list?;
    if let Some(ends) = more {
        list.push(ends).ok()?;
    }
    Some(list)
}

// One list behind the other, where there is memory for it.
fn with_all(list: Option<Vec<Unplain>>, more: Option<Vec<Unplain>>) -> Option<Vec<Unplain>>
    ensures { (lines later : List Unplain) → IfSome list (λ l. l.items ≡ lines) → IfSome more (λ l. l.items ≡ later) → IfSome result (λ l. l.items ≡ lines ++ later) }
{
    let mut list = list?;
    let mut more = more?;
    list.append(&mut more).ok()?;
    Some(list)
}

fn sorted(mut list: Vec<Unplain>) -> Vec<Unplain>
    ensures same { IsPermutation list.items result.items }
    ensures ascending { IsNonDecreasingBy (λ (ends : Unplain). ends.session) result.items }
{
    list.sort_unstable_by_key(|ends| ends.session);
    list
}

impl Report {
    /// Nothing happened.
    pub(crate) fn new(alloc: Global) -> Self
        ensures fine { (result.door_fault ≡ None) × (result.memory ≡ false) × (result.spent ≡ None) }
        ensures lists { Lists result [] }
        ensures sessions { is_some result.sessions ≡ true }
    {
        Report {
            door_fault: None,
            memory: false,
            spent: None,
            sessions: Some(Vec::new(alloc)),
        }
    }

    /// With a session more.
    pub(crate) fn with(self, ends: Attended) -> Self
        ensures door_fault { result.door_fault ≡ self.door_fault }
        ensures spent { result.spent ≡ option_or self.spent (spent_of ends) }
        ensures memory { result.memory ≡ false → (self.memory ≡ false) × (lacks ends ≡ false) × (is_some result.sessions ≡ true) }
        ensures lists { (lines : List Unplain) → Lists self lines → Lists result (lines ++ unplain_of ends) }
    {
        let sessions = with_one(self.sessions, with_line(ends));
        Report {
            door_fault: self.door_fault,
            memory: self.memory || lacks_memory(ends) || sessions.is_none(),
            spent: self.spent.or(spent_count(ends)),
            sessions,
        }
    }

    /// With the door of this worker, which failed.
    pub(crate) fn failed(self, worker: u32) -> Self
        ensures { result ≡ record self { door_fault = Some worker } }
    {
        Report {
            door_fault: Some(worker),
            ..self
        }
    }

    /// With no memory.
    pub(crate) fn short(self) -> Self
        ensures { result ≡ record self { memory = true } }
    {
        Report {
            memory: true,
            ..self
        }
    }

    /// With the report of later workers.
    pub(crate) fn and(self, later: Report) -> Self
        ensures door_fault { result.door_fault ≡ option_or self.door_fault later.door_fault }
        ensures spent { result.spent ≡ option_or self.spent later.spent }
        ensures memory { result.memory ≡ false → (self.memory ≡ false) × (later.memory ≡ false) × (is_some result.sessions ≡ true) }
        ensures lists { (lines more : List Unplain) → Lists self lines → Lists later more → Lists result (lines ++ more) }
    {
        let sessions = with_all(self.sessions, later.sessions);
        Report {
            door_fault: self.door_fault.or(later.door_fault),
            memory: self.memory || later.memory || sessions.is_none(),
            spent: self.spent.or(later.spent),
            sessions,
        }
    }

    /// With the sessions in ascending order.
    pub(crate) fn in_order(self) -> Self
        ensures same { (result.door_fault ≡ self.door_fault) × (result.memory ≡ self.memory) × (result.spent ≡ self.spent) × (is_some result.sessions ≡ is_some self.sessions) }
        ensures listed { (lines : List Unplain) → Lists self lines → IfSome result.sessions (λ list. IsPermutation lines list.items) }
        ensures ascending { IfSome result.sessions (λ list. IsNonDecreasingBy (λ (ends : Unplain). ends.session) list.items) }
    {
        Report {
            door_fault: self.door_fault,
            memory: self.memory,
            spent: self.spent,
            sessions: self.sessions.map(sorted),
        }
    }
}
