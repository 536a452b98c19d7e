//! What is seen of a message before it is answered.

ghost use Rattle.std.specs.Prelude.{◌≡◌, ◌≤◌, ◌==◌, ℕ, true, false, not, [], ◌∷◌, length, if◌then◌else◌, IfOk};
ghost use Rattle.r9_event.specs.declared.event.own.Use.TheVariants.{Own};
ghost use Rattle.model_files.specs.wire.Message.{no_tag};
ghost use Rattle.model_files.specs.wire.Reading.{tag_of};
ghost use Rattle.model_alone.specs.alone.Uses.{file_of_read, if_bound, open_used, reached_file, reading_used, tells_size};
ghost use Rattle.model_alone.specs.used.Look as model;
ghost use Rattle.model_world.specs.Reading.{count_within};
ghost use Rattle.model_world.specs.Whole.{client};
ghost use Rattle.model_alone.specs.used.Look.{look_at, look_at_attach, look_at_message, look_at_open, look_at_walk, look_at_write};
ghost use Rattle.r9_desktop.specs.World.{desktop_of};
ghost use Rattle.r9_used.specs.used.Words.{uses_of};
ghost use Rattle.r9_wire.specs.View.{t_of};
ghost use Rattle.r9_hall.specs.seen.View.{look_of};

use r9_desktop::Desktop;
use r9_event::event::{Use, Uses};
use r9_files::access::CTL_LEN;
use r9_memory::Memory;
use r9_session::Session;
use r9_text::Bytes;
use r9_tree::{Kind, kind_of};
use r9_used::used::{asks_for_new, asks_for_windows, chooses_display, open_used, walk_used};
use r9_wire::{NO_TAG, Tmsg, WireFault, read_t};
use std::alloc::Global;

/// The number of the reason that the display is chosen, for `ctl` to describe.
const CHOOSES_DISPLAY: u8 = 7;

/// The number of the reason that `ctl` tells of the display, which has changed its size.
const TELLS_SIZE: u8 = 12;

/// The number of the reason that a window more is asked for, or a rio in a window.
const ASKS_FOR_WINDOWS: u8 = 9;

/// What is seen of a message before it is answered.
#[derive(Drop)]
pub enum Look {
    /// It uses this, be it refused or not.
    Uses(Uses),
    /// It uses this unless it is refused.
    UsesIfDone(Uses),
    /// The name of an attach is looked at; whether it asks for a new window.
    Attaches { fid: u32, fresh: bool },
    /// Draw messages are written to a connection.
    Draws { connection: u32, bytes: Bytes },
}

/// Nothing is used.
fn unused(alloc: Global) -> Look
    ensures { look_of result ≡ model.Uses [] }
{
    Look::Uses(Uses::new(alloc))
}

/// A use as a list, empty where there is none.
fn uses_of(alloc: Global, used: Option<Use>) -> Result<Uses, Memory>
    ensures { IfOk result (λ uses. uses ≡ uses_of used) }
{
    let mut uses = Uses::new(alloc);
    if let Some(used) = used {
        uses.push(used)?;
    }
    Ok(uses)
}

/// Something that all sessions share is used, by the number of its reason, or nothing is.
fn look_at_shared(alloc: Global, used: bool, reason: u8) -> Result<Look, Memory>
    ensures { IfOk result (λ look. look_of look ≡ model.Uses (if used then Own reason ∷ [] else [])) }
{
    let used = if used { Some(Use::Own(reason)) } else { None };
    let uses = uses_of(alloc, used)?;
    Ok(Look::Uses(uses))
}

/// What is seen of an attach.
fn look_at_attach(
    alloc: Global,
    session: &Session,
    fid: u32,
    afid: u32,
    name: &[u8],
) -> Result<Look, Memory>
    ensures { IfOk result (λ look. look_of look ≡ look_at_attach session.now fid afid name.now) }
{
    if !session.looks_at_name(fid, afid) {
        return Ok(unused(alloc));
    }
    let fresh = asks_for_new(alloc, name)?;
    Ok(Look::Attaches { fid, fresh })
}

/// What is seen of a walk.
fn look_at_walk(
    alloc: Global,
    session: &Session,
    desktop: &Desktop,
    fid: u32,
    names: &[Bytes],
) -> Result<Look, Memory>
    ensures { IfOk result (λ look. (c : ℕ) → look_of look ≡ look_at_walk c session.now (desktop_of desktop.now) fid names.now) }
{
    let mut uses = Uses::new(alloc);
    let Some(from) = session.file(fid) else {
        return Ok(Look::UsesIfDone(uses));
    };
    walk_used(desktop, session.connections(), from, names, &mut uses)?;
    Ok(Look::UsesIfDone(uses))
}

/// What an open of a fid uses unless it is refused.
fn opened(session: &Session, fid: u32) -> Option<Use>
    ensures { uses_of result ≡ if_bound session.now fid (λ f. open_used f.node.kind) }
{
    match session.file(fid) {
        Some(node) => open_used(&node),
        None => None,
    }
}

/// What is seen of an open.
fn look_at_open(alloc: Global, session: &Session, fid: u32) -> Result<Look, Memory>
    ensures { IfOk result (λ look. look_of look ≡ look_at_open session.now fid) }
{
    let uses = uses_of(alloc, opened(session, fid))?;
    Ok(Look::UsesIfDone(uses))
}

/// Whether a read of the `ctl` of a session's connection, which gives so many bytes at most, tells of the display, which has changed its
/// size.
fn tells_size(desktop: &Desktop, number: u32, connection: u32, offset: u64, most: u32) -> bool
    ensures { result ≡ tells_size (client number connection) (desktop_of desktop.now) offset most }
{
    desktop.has_changed_size()
        && offset == 0
        && most >= CTL_LEN
        && desktop.describes_display(number, connection)
}

/// What is seen of a read, in the session of this number.
fn look_at_read(
    alloc: Global,
    session: &Session,
    desktop: &Desktop,
    number: u32,
    fid: u32,
    offset: u64,
    count: u32,
) -> Result<Look, Memory>
    ensures { IfOk result (λ look. look_of look ≡ model.Uses (reading_used number (desktop_of desktop.now) offset (count_within session.now count) (file_of_read number session.now (desktop_of desktop.now) fid))) }
{
    let Some(node) = session.reached_by_read(desktop, fid) else {
        return Ok(unused(alloc));
    };
    match kind_of(node.kind) {
        Kind::Ctl => {
            let most = session.most_read(count);
            let tells = tells_size(desktop, number, node.connection, offset, most);
            look_at_shared(alloc, tells, TELLS_SIZE)
        }
        _ => Ok(unused(alloc)),
    }
}

/// What is seen of a write.
fn look_at_write(
    alloc: Global,
    session: &Session,
    desktop: &Desktop,
    fid: u32,
    bytes: Bytes,
) -> Result<Look, Memory>
    ensures { IfOk result (λ look. (c : ℕ) → look_of look ≡ look_at_write bytes (reached_file c session.now (desktop_of desktop.now) fid)) }
{
    let Some(node) = session.reached(desktop, fid) else {
        return Ok(unused(alloc));
    };
    match kind_of(node.kind) {
        Kind::Data => Ok(Look::Draws {
            connection: node.connection,
            bytes,
        }),
        Kind::Ctl => look_at_shared(alloc, chooses_display(bytes.as_slice()), CHOOSES_DISPLAY),
        Kind::Wctl => look_at_shared(alloc, asks_for_windows(bytes.as_slice()), ASKS_FOR_WINDOWS),
        _ => Ok(unused(alloc)),
    }
}

/// What is seen of a message that has a tag, in the session of this number, which has agreed on a version.
fn look_at_message(
    alloc: Global,
    session: &Session,
    desktop: &Desktop,
    number: u32,
    message: Tmsg,
) -> Result<Look, Memory>
    ensures { IfOk result (λ look. look_of look ≡ look_at_message number session.now (desktop_of desktop.now) (t_of message)) }
{
    match message {
        Tmsg::Attach {
            fid,
            afid,
            aname,
            ..
        } => look_at_attach(alloc, session, fid, afid, aname.as_slice()),
        Tmsg::Walk { fid, names, .. } => {
            look_at_walk(alloc, session, desktop, fid, names.as_slice())
        }
        Tmsg::Open { fid, .. } => look_at_open(alloc, session, fid),
        Tmsg::Read {
            fid,
            offset,
            count,
            ..
        } => look_at_read(alloc, session, desktop, number, fid, offset, count),
        Tmsg::Write { fid, bytes, .. } => look_at_write(alloc, session, desktop, fid, bytes),
        _ => Ok(unused(alloc)),
    }
}

/// Whether the bytes of a message have a tag that a message may have.
fn has_tag(bytes: &[u8]) -> bool
    requires { 7 ≤ length bytes.now }
    ensures { result ≡ not (tag_of bytes.now == no_tag) }
{
    let tag = u16::from_le_bytes([bytes[5], bytes[6]]);
    tag != NO_TAG
}

/// What is seen of the bytes of a message of the session of this number before it is answered.
fn look_at_bytes(
    alloc: Global,
    session: &Session,
    desktop: &Desktop,
    number: u32,
    bytes: &[u8],
) -> Result<Look, Memory>
    requires { 7 ≤ length bytes.now }
    ensures { IfOk result (λ look. look_of look ≡ look_at number session.now (desktop_of desktop.now) bytes.now) }
{
    if !has_tag(bytes) || !session.reads(bytes) {
        return Ok(unused(alloc));
    }
    match read_t(alloc, bytes) {
        Ok(message) => look_at_message(alloc, session, desktop, number, message),
        Err(WireFault::Malformed(_)) => Ok(unused(alloc)),
        Err(WireFault::Memory) => Err(Memory),
    }
}

/// The same where the session is watched; nothing where it is not.
pub(crate) fn look_at_watched(
    alloc: Global,
    session: &Session,
    desktop: &Desktop,
    number: u32,
    bytes: &[u8],
    watches: bool,
) -> Result<Look, Memory>
    requires { 7 ≤ length bytes.now }
    ensures watched { watches ≡ true → IfOk result (λ look. look_of look ≡ look_at number session.now (desktop_of desktop.now) bytes.now) }
    ensures unwatched { watches ≡ false → IfOk result (λ look. look_of look ≡ model.Uses []) }
{
    if !watches {
        return Ok(unused(alloc));
    }
    look_at_bytes(alloc, session, desktop, number, bytes)
}
