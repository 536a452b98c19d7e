//! The events that wait for reads of a mouse file.

ghost use Rattle.std.specs.Prelude.{◌≡◌, if◌then◌else◌, IfSome, IfNone, IfOk};
ghost use Rattle.model_files.specs.mouse.Queue.{no_events, fed, resized, next, answer, answered};

use circular_buffer::HeapCircularBuffer;
use model_files::mouse::Mouse;
use r9_memory::Memory;
use std::alloc::Global;
use std::marker::Model;

/// How many clicks wait at most.
const CLICKS: usize = 16;

/// The events that wait for reads of a window's mouse file: up to 16 clicks, which are events with other buttons than
/// the one before, and one move.
#[derive(Drop)]
pub struct MouseQueue {
    clicks: HeapCircularBuffer<Mouse>,
    moved: Option<Mouse>,
    last: Mouse,
    resized: bool,
}

impl Model for MouseQueue {
    ghost use Rattle.std.specs.Prelude.{◌≡◌};
    ghost use Rattle.model_files.specs.mouse.Queue.{Queue};

    ghost Value = { Queue };

    ghost view = { λ q. record { clicks = q.clicks.items; move = q.moved; last = q.last; changed = q.resized } };

    ghost invariant = { λ q. q.clicks.capacity ≡ 16 };
}

impl MouseQueue {
    /// A queue in which nothing waits. Its last event is all zeros.
    pub fn new(alloc: Global) -> Result<Self, Memory>
        ensures { IfOk result (λ queue. queue ≡ no_events) }
    {
        Ok(MouseQueue {
            clicks: HeapCircularBuffer::with_capacity(alloc, CLICKS)?,
            moved: None,
            last: Mouse {
                x: 0,
                y: 0,
                buttons: 0,
                msec: 0,
            },
            resized: false,
        })
    }

    /// An event comes. With other buttons than the last one it is a click: it takes the place of the oldest where 16
    /// wait, and of the move that waits. Otherwise it is the move that waits.
    #[tactic(auto, unfolding(model_files::specs::mouse::Queue::fed))]
    pub fn feed(&mut self, e: Mouse)
        ensures { self.new ≡ fed e self.old }
    {
        if e.buttons == self.last.buttons {
            self.moved = Some(e);
        } else {
            self.clicks.push_back(e);
            self.moved = None;
        }
        self.last = e;
    }

    /// The window has a new image, which the next answer tells.
    pub fn resized(&mut self)
        ensures { self.new ≡ resized self.old }
    {
        self.resized = true;
    }

    /// What a read gives, which waits on: `r` where the window has a new image since the last answer, else `m`, and the
    /// oldest click, else the move, else with a new image the last event again. None where it waits.
    #[tactic(auto, unfolding(model_files::specs::mouse::Queue::answer))]
    pub fn peek(&self) -> Option<(u8, Mouse)>
        ensures { result ≡ answer self.now }
    {
        let event = self.next()?;
        Some((self.letter(), event))
    }

    /// What a read gives, which then no longer waits, as `peek` tells it. None where it waits.
    pub fn answer(&mut self) -> Option<(u8, Mouse)>
        ensures given { result ≡ answer self.old }
        ensures taken { IfSome result (λ _. self.new ≡ answered self.old) }
        ensures waits { IfNone result (self.new ≡ self.old) }
    {
        let given = self.peek()?;
        self.take_next();
        Some(given)
    }

    /// The event that a read gives.
    fn next(&self) -> Option<Mouse>
        ensures { result ≡ next self.now.clicks self.now.move self.now }
    {
        match (self.clicks.front(), self.moved) {
            (Some(click), _) => Some(*click),
            (None, Some(moved)) => Some(moved),
            (None, None) if self.resized => Some(self.last),
            (None, None) => None,
        }
    }

    fn letter(&self) -> u8
        ensures { result ≡ (if self.now.changed then 114 else 109) }
    {
        if self.resized { b'r' } else { b'm' }
    }

    #[tactic(auto, unfolding(model_files::specs::mouse::Queue::answered))]
    fn take_next(&mut self)
        ensures { self.new ≡ answered self.old }
    {
        if self.clicks.pop_front().is_none() {
            self.moved = None;
        }
        self.resized = false;
    }
}
