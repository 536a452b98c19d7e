//! Writing an open file (write(5)).

ghost use Rattle.std.specs.List.{list_any};
ghost use Rattle.std.specs.Str.{chars};
ghost use Rattle.std.specs.Prelude.{◌≡◌, ◌==◌, ◌&&◌, nat_le, ◌<◌, ◌^◌, ◌⊎◌, ◌↔◌, ℕ, length, None, Some, IsSome, IfOk, IfSome};
ghost use Rattle.model_draw.specs.draw.Act.{no_memory};
ghost use Rattle.model_files.specs.declared.tree.Kind.TheVariants.{Data};
ghost use Rattle.model_files.specs.tree.Node.{kind_numbered};
ghost use Rattle.model_world.specs.Writing.{are_keys, file_written, line_of, most_keys, raw_asked};
ghost use Rattle.r9_tree.specs.View.{node_of, IsNode};
ghost use Rattle.r9_files.specs.around.Words.{AreTold, mark_after};
ghost use Rattle.r9_files.specs.access.Reads.{HasClient};
ghost use Rattle.r9_files.specs.access.Writes.{IsDone, IsWritten, keys_left, mouse_left, raw_left, size_left, whole_of};

use crate::access::windows::write_snarf;
use crate::around::{Outside, Wrote};
use crate::files::{BAD_INPUT, BAD_WCTL_COMMAND, Fault, PERMISSION_DENIED};
use r9_mouse::read_mouse;
use r9_text::Bytes;
use r9_tree::{Kind, Node, kind_of};
use r9_wctl::sides::sides_of;
use std::alloc::Global;

/// So many characters are typed by one write at most.
const MOST_KEYS: usize = 64;

/// A write that left nothing undone, or its refusal, which leaves nothing.
fn whole(done: Result<(), Fault>) -> Result<Wrote, Fault>
    ensures written { result ≡ whole_of done }
    ensures whole { IfOk result (λ w. (w.short ≡ None) × (w.refusal ≡ None)) }
{
    done?;
    Ok(Wrote {
        refusal: None,
        short: None,
        told: None,
    })
}

/// How many characters a text has.
fn char_count(text: &str) -> usize
    ensures { result ≡ length (chars text.now) }
{
    text.chars().count()
}

/// Whether a byte is 0.
fn has_zero(bytes: &[u8]) -> bool
    ensures { result ≡ list_any (λ byte. byte == 0) bytes.now }
{
    bytes.iter().any(|byte| *byte == 0)
}

/// Whether so many characters may be typed by one write.
fn are_few(count: usize) -> bool
    ensures { result ≡ (nat_le 1 count && nat_le count most_keys) }
{
    1 <= count && count <= MOST_KEYS
}

/// Whether bytes are 1 to 64 characters of UTF-8, none of them 0.
fn are_keys(bytes: &[u8]) -> bool
    ensures { result ≡ are_keys bytes.now }
{
    let Ok(text) = str::from_utf8(bytes) else {
        return false;
    };
    are_few(char_count(text)) && !has_zero(bytes)
}

/// A text without the newline that may end it.
fn line_of(text: &[u8]) -> &[u8]
    ensures { result.now ≡ line_of text.now }
{
    match text.split_last() {
        Some((last, line)) if *last == b'\n' => line,
        _ => text,
    }
}

/// What a word written to `consctl` makes of raw mode; None where it leaves it. Refused by 47 exactly where it is no such word.
fn raw_asked(word: &[u8]) -> Result<Option<bool>, u8>
    ensures { result ≡ raw_asked word.now }
{
    if word == b"rawon".as_slice() {
        Ok(Some(true))
    } else if word == b"rawoff".as_slice() {
        Ok(Some(false))
    } else if word == b"holdon".as_slice() || word == b"holdoff".as_slice() {
        Ok(None)
    } else {
        Err(BAD_WCTL_COMMAND)
    }
}

/// The mouse does what a text tells (mouse(3)).
fn write_mouse<O: Outside>(outside: &mut O, bytes: &[u8]) -> Result<(), Fault>
    ensures { (session : ℕ) → IsDone (O.state outside.old) result (O.state outside.new) (mouse_left (O.outside session) (O.state outside.old) bytes.now) }
{
    match read_mouse(bytes) {
        Some(event) => Ok(outside.mouse(event)?),
        None => Err(Fault::Refused(BAD_INPUT)),
    }
}

/// Characters are typed.
fn write_keys<O: Outside>(alloc: Global, outside: &mut O, bytes: &[u8]) -> Result<(), Fault>
    ensures { (session : ℕ) → IsDone (O.state outside.old) result (O.state outside.new) (keys_left (O.outside session) (O.state outside.old) bytes.now) }
{
    if !are_keys(bytes) {
        return Err(Fault::Refused(BAD_INPUT));
    }
    let keys = Bytes::from_slice(alloc, bytes)?;
    Ok(outside.keys(keys)?)
}

/// The display gets the size that a text spells.
fn write_size<O: Outside>(outside: &mut O, bytes: &[u8]) -> Result<(), Fault>
    ensures { (session : ℕ) → IsDone (O.state outside.old) result (O.state outside.new) (size_left (O.outside session) (O.state outside.old) bytes.now) }
{
    match sides_of(line_of(bytes)) {
        Some(size) => outside.resize(size),
        None => Err(Fault::Refused(BAD_INPUT)),
    }
}

/// Raw mode is asked for, or its end.
fn write_consctl<O: Outside>(outside: &mut O, window: u32, bytes: &[u8]) -> Result<(), Fault>
    ensures { (session : ℕ) → IsDone (O.state outside.old) result (O.state outside.new) (raw_left (O.outside session) (O.state outside.old) window bytes.now) }
{
    match raw_asked(line_of(bytes))? {
        Some(raw) => Ok(outside.set_raw(window, raw)?),
        None => Ok(()),
    }
}

/// Writes an open file of a kind, as `write_file` does.
fn write_kind<O: Outside>(
    alloc: Global,
    outside: &mut O,
    session: u32,
    node: &Node,
    kind: Kind,
    offset: u64,
    bytes: &[u8],
    mark: Option<u32>,
) -> Result<Wrote, Fault>
    requires node { IsNode node.now }
    requires kind { kind_numbered node.now.kind ≡ kind }
    requires client { HasClient (O.has session) (node_of node.now) (O.state outside.old) }
    requires few { length bytes.now < 2 ^ 32 }
    ensures written { IsWritten mark (O.state outside.old) result (O.state outside.new) (λ m. file_written (O.outside session) (O.state outside.old) (node_of node.now) offset bytes.now m kind) }
    ensures cause { IfOk result (λ w. IfSome w.short (λ k. (kind ≡ Data) × ((mark ≡ Some k) ⊎ O.wants session (node_of node.now).connection (O.state outside.old) bytes.now k))) }
    ensures refused { IfOk result (λ w. IsSome w.short ↔ (w.refusal ≡ Some no_memory)) }
    ensures told { IfOk result (λ w. kind ≡ Data → AreTold w.told (O.tells session (node_of node.now).connection (O.state outside.old) bytes.now (mark_after mark w.short))) }
{
    let window = node.serial;
    match kind {
        Kind::Ctl => whole(outside.write_ctl(session, node.connection, bytes)),
        Kind::Data => Ok(outside.write_data(session, node.connection, bytes, mark)?),
        Kind::Mousein => whole(write_mouse(outside, bytes)),
        Kind::Kbdin => whole(write_keys(alloc, outside, bytes)),
        Kind::Hwsize => whole(write_size(outside, bytes)),
        Kind::Snarf => whole(write_snarf(alloc, outside, window, offset, bytes)),
        Kind::DeviceWctl => whole(outside.device_command(bytes)),
        Kind::Cons => whole(Ok(outside.write_text(window, bytes)?)),
        Kind::Consctl => whole(write_consctl(outside, window, bytes)),
        Kind::Mouse => whole(Ok(())),
        Kind::Label => whole(Ok(outside.set_label(window, bytes)?)),
        Kind::Wctl => whole(outside.command(window, bytes)),
        Kind::Device
        | Kind::Draw
        | Kind::New
        | Kind::Connection
        | Kind::Refresh
        | Kind::Screen
        | Kind::Wsys
        | Kind::Window
        | Kind::Text
        | Kind::Winid
        | Kind::Winname
        | Kind::Picture
        | Kind::Listed => Err(Fault::Refused(PERMISSION_DENIED)),
    }
}

/// Writes an open file. A data write does its messages up to the first that is refused; where memory ran out in it, or its mark took
/// effect, `short` tells after how many, and `told` tells of its messages what they are read again by. Refused as is defined, and then all is as before. Where memory ran out otherwise nothing is
/// said of the outside.
pub fn write_file<O: Outside>(
    alloc: Global,
    outside: &mut O,
    session: u32,
    node: &Node,
    offset: u64,
    bytes: &[u8],
    mark: Option<u32>,
) -> Result<Wrote, Fault>
    requires node { IsNode node.now }
    requires client { HasClient (O.has session) (node_of node.now) (O.state outside.old) }
    requires few { length bytes.now < 2 ^ 32 }
    ensures written { IsWritten mark (O.state outside.old) result (O.state outside.new) (λ m. file_written (O.outside session) (O.state outside.old) (node_of node.now) offset bytes.now m (node_of node.now).kind) }
    ensures cause { IfOk result (λ w. IfSome w.short (λ k. ((node_of node.now).kind ≡ Data) × ((mark ≡ Some k) ⊎ O.wants session (node_of node.now).connection (O.state outside.old) bytes.now k))) }
    ensures refused { IfOk result (λ w. IsSome w.short ↔ (w.refusal ≡ Some no_memory)) }
    ensures told { IfOk result (λ w. (node_of node.now).kind ≡ Data → AreTold w.told (O.tells session (node_of node.now).connection (O.state outside.old) bytes.now (mark_after mark w.short))) }
{
    let kind = kind_of(node.kind);
    write_kind(alloc, outside, session, node, kind, offset, bytes, mark)
}
