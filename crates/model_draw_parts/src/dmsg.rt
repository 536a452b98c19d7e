//! Definitions: the messages of the draw device (draw(3)), and the message that stands first in bytes. No code: the
//! functions have laws as their contracts, and no bodies.
#![tactic(auto)]

ghost use Rattle.std.specs.Prelude.{◌≡◌, ◌<◌, ◌≤◌, ℕ, List, drop, length};
ghost use Rattle.model_draw_parts.specs.dmsg.Message.{Message, spelled_len};
ghost use Rattle.model_draw_parts.specs.dmsg.Reading.{IsMessage, first_message};

/// The bytes behind the message that stands first are those behind as many bytes as spell it.
pub fn rest_is_behind()
    ensures { (bytes rest : List ℕ) (m : Message) → first_message bytes ≡ IsMessage m rest → rest ≡ drop (spelled_len m) bytes }
{}

/// The bytes that spell the message stand there.
pub fn message_is_whole()
    ensures { (bytes rest : List ℕ) (m : Message) → first_message bytes ≡ IsMessage m rest → spelled_len m ≤ length bytes }
{}

/// A message takes a byte at least.
pub fn rest_is_shorter()
    ensures { (bytes rest : List ℕ) (m : Message) → first_message bytes ≡ IsMessage m rest → length rest < length bytes }
{}
