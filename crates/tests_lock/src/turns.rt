ghost use Rattle.std.specs.Prelude.{◌≡◌, ℕ, ◌≤◌, ◌∷◌, [], ◌⊎◌, length, drop, IfSome, MatchBool};
ghost use Rattle.std.specs.Thread.{IsSync};

use crate::room::{Sink, Source, attend};
use crate::values::{Count, Tape};
use r9_lock::{Chronicle, Pass, Shared, Spent};
use std::alloc::Global;
use std::sync::Wait;
use std::test::Fail;
use std::thread::{Threads, join};

// Notes a number, and says whether there was memory for it.
fn note<R: Wait>(
    rt: &R,
    lock: &Shared<Tape>,
    mut pass: Pass<Tape>,
    number: u32,
) -> (Pass<Tape>, bool)
    requires { (pass.lock ≡ lock.now.id) × (pass.made ≡ []) }
    ensures pass { (result.0.lock ≡ pass.lock) × (result.0.shares ≡ pass.shares) }
    ensures made { MatchBool result.1 ((n : ℕ) × (result.0.made ≡ (n, number) ∷ [])) (result.0.made ≡ []) }
{
    match lock.turn(rt, &mut pass, Some(number)) {
        Ok(Some(_)) => (pass, true),
        Ok(None) => (pass, false),
        Err(Spent { count: _, ask: _ }) => (pass, false),
    }
}

// Two threads note a number each. Where both did, the tape has both, in one of the two orders.
fn noted_by_two<R: Threads + Wait + Sync>(
    rt: &R,
    alloc: Global,
    tape: Tape,
    one: u32,
    two: u32,
) -> Option<Tape>
    requires { tape.notes.items ≡ [] }
    ensures { IfSome result (λ t. (t.notes.items ≡ one ∷ two ∷ []) ⊎ (t.notes.items ≡ two ∷ one ∷ [])) }
{
    let (lock, mut mine) = Shared::start(alloc, tape, 2).ok()?;
    let theirs = lock.split(&mut mine, 1);
    let (a, b) = join(
        rt,
        || -> (Pass<Tape>, bool)
            requires { (mine.lock ≡ lock.id) × (mine.made ≡ []) }
            ensures { (result.0.lock ≡ mine.lock) × (result.0.shares ≡ mine.shares) × MatchBool result.1 ((n : ℕ) × (result.0.made ≡ (n, one) ∷ [])) (result.0.made ≡ []) }
        { note(rt, &lock, mine, one) },
        || -> (Pass<Tape>, bool)
            requires { (theirs.lock ≡ lock.id) × (theirs.made ≡ []) }
            ensures { (result.0.lock ≡ theirs.lock) × (result.0.shares ≡ theirs.shares) × MatchBool result.1 ((n : ℕ) × (result.0.made ≡ (n, two) ∷ [])) (result.0.made ≡ []) }
        { note(rt, &lock, theirs, two) },
    );
    let (mut all, first) = a;
    let (other, second) = b;
    lock.join(&mut all, other);
    let tape = lock.close(all);
    if first && second { Some(tape) } else { None }
}

#[test]
fn two_threads_note_once_each(rt: HostRuntime) -> Result<(), Fail> {
    let tape = noted_by_two(&rt, rt.alloc(), Tape::new(rt.alloc()), 3, 5).ok_or("memory")?;
    let notes = tape.notes.as_slice();
    assert!(rt; notes == [3, 5].as_slice() || notes == [5, 3].as_slice());
    Ok(())
}

// What is left of these numbers.
#[derive(Drop)]
struct Numbers {
    numbers: Vec<u32>,
    at: usize,
    ghost within: { at ≤ length numbers.items },
}

impl Numbers {
    fn new(numbers: Vec<u32>) -> Numbers {
        Numbers { numbers, at: 0 }
    }
}

impl Source for Numbers {
    ghost left = { λ s. drop s.at s.numbers.items };

    fn next(&mut self) -> Option<u32> {
        let number = *self.numbers.get(self.at)?;
        self.at += 1;
        Some(number)
    }
}

#[derive(Drop)]
struct Counts {
    counts: Vec<u64>,
}

impl Sink for Counts {
    ghost held = { λ s. s.counts.items };

    fn put(&mut self, number: u64) -> bool {
        self.counts.push(number).is_ok()
    }
}

#[test]
fn a_reader_and_a_writer_take_turns(rt: HostRuntime) -> Result<(), Fail> {
    let Ok((lock, mut reader)) = Shared::start(rt.alloc(), Tape::new(rt.alloc()), 2) else {
        panic!(rt; "memory")
    };
    let mut writer = lock.split(&mut reader, 1);
    let mut input = Numbers::new(vec![in rt.alloc(); 0, 64, 192]?);
    let mut output = Counts {
        counts: Vec::new(rt.alloc()),
    };
    attend(
        &rt,
        &lock,
        &mut reader,
        &mut writer,
        &mut input,
        &mut output,
        3,
    );
    assert!(rt; reader.seen() == 3 && writer.seen() == 3 && input.at == 3);
    assert!(rt; output.counts.last() == Some(&3) && output.counts.is_sorted());
    lock.join(&mut reader, writer);
    assert!(rt; lock.close(reader).notes.as_slice() == [0, 64, 192].as_slice());
    Ok(())
}

const TURNS: u32 = 2_000;

// Notes the numbers of one thread, in order.
fn note_all<R: Wait>(rt: &R, lock: &Shared<Tape>, mut pass: Pass<Tape>, thread: u32) -> Pass<Tape>
    requires { pass.lock ≡ lock.now.id }
    ensures { (result.lock ≡ pass.lock) × (result.shares ≡ pass.shares) }
{
    let first = thread.wrapping_mul(TURNS);
    for i in 0..TURNS {
        let _ = lock.turn(rt, &mut pass, Some(first.wrapping_add(i)));
    }
    pass
}

fn note_in_two<R: Threads + Wait + Sync>(
    rt: &R,
    lock: &Shared<Tape>,
    mut mine: Pass<Tape>,
    thread: u32,
) -> Pass<Tape>
    requires { (mine.lock ≡ lock.now.id) × (2 ≤ mine.shares) }
    ensures { (result.lock ≡ mine.lock) × (result.shares ≡ mine.shares) }
{
    let theirs = lock.split(&mut mine, 1);
    let (mut a, b) = join(
        rt,
        || -> Pass<Tape>
            requires { mine.lock ≡ lock.now.id }
            ensures { (result.lock ≡ mine.lock) × (result.shares ≡ mine.shares) }
        { note_all(rt, lock, mine, thread) },
        || -> Pass<Tape>
            requires { theirs.lock ≡ lock.now.id }
            ensures { (result.lock ≡ theirs.lock) × (result.shares ≡ theirs.shares) }
        { note_all(rt, lock, theirs, thread.wrapping_add(1)) },
    );
    lock.join(&mut a, b);
    a
}

fn note_in_four<R: Threads + Wait + Sync>(
    rt: &R,
    lock: &Shared<Tape>,
    mut mine: Pass<Tape>,
) -> Pass<Tape>
    requires { (mine.lock ≡ lock.now.id) × (4 ≤ mine.shares) }
    ensures { (result.lock ≡ mine.lock) × (result.shares ≡ mine.shares) }
{
    let theirs = lock.split(&mut mine, 2);
    let (mut a, b) = join(
        rt,
        || -> Pass<Tape>
            requires { IsSync R.row × (mine.lock ≡ lock.now.id) × (2 ≤ mine.shares) }
            ensures { (result.lock ≡ mine.lock) × (result.shares ≡ mine.shares) }
        { note_in_two(rt, lock, mine, 0) },
        || -> Pass<Tape>
            requires { IsSync R.row × (theirs.lock ≡ lock.now.id) × (2 ≤ theirs.shares) }
            ensures { (result.lock ≡ theirs.lock) × (result.shares ≡ theirs.shares) }
        { note_in_two(rt, lock, theirs, 2) },
    );
    lock.join(&mut a, b);
    a
}

#[test]
fn four_threads_keep_their_own_order(rt: HostRuntime) -> Result<(), Fail> {
    let Ok((lock, pass)) = Shared::start(rt.alloc(), Tape::new(rt.alloc()), 4) else {
        panic!(rt; "memory")
    };
    let pass = note_in_four(&rt, &lock, pass);
    let tape = lock.close(pass);
    let mut next = [0u32, TURNS, 2 * TURNS, 3 * TURNS];
    for note in tape.notes.iter() {
        let Some(next) = next.get_mut((*note / TURNS) as usize) else {
            panic!(rt; "{note} is of no thread")
        };
        assert!(rt; *next == *note);
        *next = next.wrapping_add(1);
    }
    assert!(rt; next == [TURNS, 2 * TURNS, 3 * TURNS, 4 * TURNS]);
    Ok(())
}

#[test]
fn passes_see_what_they_and_others_made(rt: HostRuntime) -> Result<(), Fail> {
    let Ok((lock, mut mine)) = Shared::start(rt.alloc(), Tape::new(rt.alloc()), 3) else {
        panic!(rt; "memory")
    };
    let mut theirs = lock.split(&mut mine, 2);
    let Ok(one) = lock.turn(&rt, &mut mine, Some(7)) else {
        panic!(rt; "spent")
    };
    lock.wait(&rt, &mut theirs, 7);
    assert!(rt; one == Some(1) && mine.seen() == 1 && theirs.seen() == 0);
    let Ok(two) = lock.turn(&rt, &mut theirs, Some(8)) else {
        panic!(rt; "spent")
    };
    let Ok(none) = lock.turn(&rt, &mut mine, None) else {
        panic!(rt; "spent")
    };
    assert!(rt; two == Some(2) && none == Some(2) && mine.seen() == 2 && theirs.seen() == 2);
    lock.join(&mut mine, theirs);
    assert!(rt; mine.seen() == 2);
    let tape = lock.close(mine);
    assert!(rt; tape.notes.as_slice() == [7, 8].as_slice());
    Ok(())
}

// Waits at a bell, and then looks how many notes there are.
fn look_when_rung<R: Wait>(
    rt: &R,
    lock: &Shared<Tape>,
    mut pass: Pass<Tape>,
    listener: u32,
) -> (Pass<Tape>, u64)
    requires { pass.lock ≡ lock.now.id }
    ensures { (result.0.lock ≡ pass.lock) × (result.0.shares ≡ pass.shares) }
{
    lock.wait(rt, &mut pass, listener);
    match lock.turn(rt, &mut pass, None) {
        Ok(Some(count)) => (pass, count),
        Ok(None) => (pass, 0),
        Err(Spent { count: _, ask: _ }) => (pass, 0),
    }
}

// Notes three numbers. Only the last rings the bell 7.
fn note_three<R: Wait>(rt: &R, lock: &Shared<Tape>, mut pass: Pass<Tape>) -> Pass<Tape>
    requires { pass.lock ≡ lock.now.id }
    ensures { (result.lock ≡ pass.lock) × (result.shares ≡ pass.shares) }
{
    let _ = lock.turn(rt, &mut pass, Some(3));
    let _ = lock.turn(rt, &mut pass, Some(70));
    let _ = lock.turn(rt, &mut pass, Some(71));
    pass
}

fn look_while_noted<R: Threads + Wait + Sync>(
    rt: &R,
    lock: &Shared<Tape>,
    mut mine: Pass<Tape>,
) -> (Pass<Tape>, u64)
    requires { (mine.lock ≡ lock.now.id) × (2 ≤ mine.shares) }
    ensures { (result.0.lock ≡ mine.lock) × (result.0.shares ≡ mine.shares) }
{
    let theirs = lock.split(&mut mine, 1);
    let (a, b) = join(
        rt,
        || -> (Pass<Tape>, u64)
            requires { mine.lock ≡ lock.now.id }
            ensures { (result.0.lock ≡ mine.lock) × (result.0.shares ≡ mine.shares) }
        { look_when_rung(rt, lock, mine, 7) },
        || -> Pass<Tape>
            requires { theirs.lock ≡ lock.now.id }
            ensures { (result.lock ≡ theirs.lock) × (result.shares ≡ theirs.shares) }
        { note_three(rt, lock, theirs) },
    );
    let (mut all, count) = a;
    lock.join(&mut all, b);
    (all, count)
}

#[test]
fn who_waits_at_a_bell_sleeps_on_at_other_rings(rt: HostRuntime) -> Result<(), Fail> {
    let Ok((lock, pass)) = Shared::start(rt.alloc(), Tape::new(rt.alloc()), 2) else {
        panic!(rt; "memory")
    };
    let (pass, count) = look_while_noted(&rt, &lock, pass);
    assert!(rt; count == 3);
    assert!(rt; lock.close(pass).notes.as_slice() == [3, 70, 71].as_slice());
    Ok(())
}

#[test]
fn a_value_may_drop_its_entries(rt: HostRuntime) -> Result<(), Fail> {
    let Ok((lock, mut pass)) = Shared::start(rt.alloc(), Count::new(), 1) else {
        panic!(rt; "memory")
    };
    let first = lock.turn(&rt, &mut pass, 4).is_ok();
    let second = lock.turn(&rt, &mut pass, 9).is_ok();
    assert!(rt; first && second && pass.seen() == 2);
    let count = lock.close(pass);
    assert!(rt; count.entries() == 2 && count.first() == 3);
    Ok(())
}
