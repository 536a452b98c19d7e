//! The message that stands first in bytes.

ghost use Rattle.std.specs.Prelude.{◌≡◌, ◌≤◌, ◌↔◌, length, IfOk, IsErrOf, true, drop, Some};
ghost use Rattle.std.specs.Option.{option_map, ok_or};
ghost use Rattle.model_draw_parts.specs.dmsg.Message.{spelled_len};
ghost use Rattle.model_draw_parts.specs.dmsg.Reading.{IsMessage, IsShort, IsUnknown, IsUnsupported, behind, first_message};
ghost use Rattle.r9_dmsg.specs.View.{message_of, message_in, IsNearMessage, Tells};
ghost use Rattle.r9_dmsg.specs.Listed.{has_list};

use crate::letters::{
    low_b, low_c, low_d, low_f, low_i, low_l, low_o, low_r, low_y, up_a, up_d, up_f, up_o, up_s,
};
use crate::lists::{low_n, low_s, low_t, low_x, up_n};
use crate::message::{Dmsg, DmsgFault};
use std::alloc::Global;

fn or_short(read: Option<Dmsg>) -> Result<Dmsg, DmsgFault>
    ensures { result ≡ ok_or read DmsgFault.Short }
{
    read.ok_or(DmsgFault::Short)
}

fn behind(alloc: Global, letter: u8, bytes: &[u8]) -> Result<Dmsg, DmsgFault>
    ensures near { IfOk result IsNearMessage }
    ensures told { Tells result (behind letter bytes.now) }
{
    match letter {
        b'b' => or_short(low_b(bytes)),
        b'A' => or_short(up_a(bytes)),
        b'c' => or_short(low_c(bytes)),
        b'd' => or_short(low_d(bytes)),
        b'D' => or_short(up_d(bytes)),
        b'f' => or_short(low_f(bytes)),
        b'F' => or_short(up_f(bytes)),
        b'i' => or_short(low_i(bytes)),
        b'l' => or_short(low_l(bytes)),
        b'N' => or_short(up_n(alloc, bytes)?),
        b'n' => or_short(low_n(alloc, bytes)?),
        b'o' => or_short(low_o(bytes)),
        b'O' => or_short(up_o(bytes)),
        b'r' => or_short(low_r(bytes)),
        b's' => or_short(low_s(alloc, bytes)?),
        b'S' => or_short(up_s(bytes)),
        b't' => or_short(low_t(alloc, bytes)?),
        b'v' => Ok(Dmsg::LowV),
        b'x' => or_short(low_x(alloc, bytes)?),
        b'y' => or_short(low_y(bytes)),
        b'Y' | b'L' | b'e' | b'E' | b'p' | b'P' => Err(DmsgFault::Unsupported),
        _ => Err(DmsgFault::Unknown),
    }
}

fn read(alloc: Global, bytes: &[u8]) -> Result<Dmsg, DmsgFault>
    ensures near { IfOk result IsNearMessage }
    ensures told { Tells result (first_message bytes.now) }
{
    match bytes {
        [] => Err(DmsgFault::Short),
        [letter, rest @ ..] => behind(alloc, *letter, rest),
    }
}

/// The message that stands first in bytes (draw(3)). Behind it stand the other bytes, those behind `spelled_len` of it, and
/// for a `y` its rows, which are not looked at. `Short` exactly where the bytes end within the message, `Unknown` exactly
/// where its letter is none of the manual's, `Unsupported` exactly where it is one of `Y L e E p P`. Memory is taken for the
/// lists of `N`, `n`, `s`, `t` and `x` alone.
pub fn next_msg(alloc: Global, bytes: &[u8]) -> Result<Dmsg, DmsgFault>
    ensures message { IfOk result (λ m. first_message bytes.now ≡ IsMessage (message_of m) (drop (spelled_len (message_of m)) bytes.now)) }
    ensures near { IfOk result IsNearMessage }
    ensures whole { IfOk result (λ m. spelled_len (message_of m) ≤ length bytes.now) }
    ensures short { IsErrOf result DmsgFault.Short ↔ (first_message bytes.now ≡ IsShort) }
    ensures unknown { IsErrOf result DmsgFault.Unknown ↔ (first_message bytes.now ≡ IsUnknown) }
    ensures unsupported { IsErrOf result DmsgFault.Unsupported ↔ (first_message bytes.now ≡ IsUnsupported) }
    ensures memory { IsErrOf result DmsgFault.Memory → option_map has_list (message_in (first_message bytes.now)) ≡ Some true }
{
    read(alloc, bytes)
}
