//! Reading the input.

ghost use Rattle.std.specs.Prelude.{◌≡◌, ◌≤◌, ◌-◌, ℕ, length, take, IfOk, IfSome, Ok, Err};
ghost use Rattle.r9_clients.specs.deskfile.Events.{event_of, events_from, events_of, is_on_display};

use crate::deskfile::events::Events;
use model_files::mouse::Mouse;
use r9_memory::Memory;
use r9_mouse::read_mouse;
use std::alloc::Global;
use thiserror::Error;

/// Why an input was not read.
#[derive(Clone, Copy, Debug, PartialEq, Eq, Error)]
pub enum DeskFault {
    /// The first text that tells no event on the display begins at this place, or the input reaches the limit of 1,048,576 bytes there.
    #[error("bad input at byte {place}")]
    Bad { place: u64 },
    /// There was no memory.
    #[error("out of memory")]
    Memory,
}

impl From<Memory> for DeskFault {
    ghost use Rattle.std.specs.Prelude.{◌≡◌};
    ghost use Rattle.r9_clients.specs.declared.deskfile.input.DeskFault.TheVariants as fault;

    ghost from_gives = { λ _ e. e ≡ fault.Memory };

    fn from(_: Memory) -> Self {
        DeskFault::Memory
    }
}

/// An input is shorter than this.
const LIMIT: usize = 1 << 20;

/// How long the text of an event is.
const EVENT_LEN: usize = 49;

/// How wide and high the display is.
const WIDTH: i32 = 640;

const HEIGHT: i32 = 480;

fn is_on_display(e: Mouse) -> bool
    ensures { result ≡ is_on_display e }
{
    0 <= e.x && e.x < WIDTH && 0 <= e.y && e.y < HEIGHT
}

/// The event that a text tells, where it is on the display.
#[tactic(auto, unfolding(crate::specs::deskfile::Events::event_of))]
fn event_of(text: &[u8]) -> Option<Mouse>
    ensures { result ≡ event_of text.now }
{
    let e = read_mouse(text)?;
    if is_on_display(e) { Some(e) } else { None }
}

/// The event with which bytes begin.
fn first_event(bytes: &[u8]) -> Option<Mouse>
    ensures event { result ≡ event_of (take 49 bytes.now) }
    ensures whole { IfSome result (λ _. 49 ≤ length bytes.now) }
{
    if bytes.len() < EVENT_LEN {
        return None;
    }
    event_of(&bytes[..EVENT_LEN])
}

/// The events that bytes tell to their end.
fn read_all(alloc: Global, bytes: &[u8]) -> Result<Events, DeskFault>
    ensures events { IfOk result (λ events. events_from 0 bytes.now ≡ Ok events) }
    ensures bad { (place : ℕ) → result ≡ Err (DeskFault.Bad place) → events_from 0 bytes.now ≡ Err place }
{
    let mut events = Events::new(alloc);
    let mut rest = bytes;
    'texts: while !rest.is_empty() {
        let Some(e) = first_event(rest) else {
            return Err(DeskFault::Bad {
                place: (bytes.len() - rest.len()) as u64,
            });
        };
        events.push(e)?;
        rest = &rest[EVENT_LEN..];
    }
    Ok(events)
}

/// The events that an input is: texts of 49 bytes, one after the other, each of an event at a point of a display of 640 by 480 (mouse(3)).
#[tactic(auto, unfolding(crate::specs::deskfile::Events::events_of))]
pub fn read_events(alloc: Global, bytes: &[u8]) -> Result<Events, DeskFault>
    ensures events { IfOk result (λ events. events_of bytes.now ≡ Ok events) }
    ensures bad { (place : ℕ) → result ≡ Err (DeskFault.Bad place) → events_of bytes.now ≡ Err place }
{
    if LIMIT <= bytes.len() {
        return Err(DeskFault::Bad {
            place: LIMIT as u64,
        });
    }
    read_all(alloc, bytes)
}
