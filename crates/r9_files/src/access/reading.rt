//! Reading an open file that is no directory (read(5)).

ghost use Rattle.std.specs.Prelude.{◌≡◌, ◌≤◌, ℕ, length, max, is_none, true, IfOk, IfSome, Ok};
ghost use Rattle.std.specs.Option.{option_map};
ghost use Rattle.model_draw.specs.imgfile.ImageFile.{file_part};
ghost use Rattle.model_files.specs.declared.tree.Kind.TheVariants as kinds;
ghost use Rattle.model_files.specs.tree.Node.{kind_numbered};
ghost use Rattle.model_rio.specs.window.Heard.{wctl_answer, winid_text};
ghost use Rattle.model_world.specs.Reading.{at_offset, ctl_read, file_read, given_now, size_text};
ghost use Rattle.r9_tree.specs.View.{node_of};
ghost use Rattle.r9_files.specs.access.Reads.{HasClient, IsFileRead, IsGivenNow, IsTold, IsToldOf, least_of, told_of};

use crate::access::windows::{label, text, wctl, winid, winname};
use crate::around::Outside;
use crate::files::{DRAW_READ_TOO_SHORT, Fault, Fid, READ_TOO_SHORT, at_offset};
use r9_memory::Memory;
use r9_text::Bytes;
use r9_tree::{Kind, Node, kind_of};
use std::alloc::Global;

/// So many bytes tell what `ctl` describes (draw(3)).
pub const CTL_LEN: u32 = 144;

/// So many bytes hold what wctl tells.
const WCTL_LEN: u32 = 72;

/// So many bytes hold an event of the mouse.
const MOUSE_LEN: u32 = 49;

/// Whether a text of wctl is the one that was given last.
fn is_told(told: Option<&[u8]>, text: &[u8]) -> bool
    ensures { result ≡ is_none (wctl_answer (option_map (λ last. last.now) told.entry) text.now) }
{
    match told {
        Some(last) => last == text,
        None => false,
    }
}

/// What a read gives of a file's contents.
fn part(alloc: Global, contents: &[u8], offset: u64, count: u32) -> Result<Bytes, Fault>
    ensures read { IsTold result (Ok (at_offset contents.now offset count)) }
    ensures short { IfOk result (λ bytes. length bytes ≤ count) }
{
    Ok(Bytes::from_slice(alloc, at_offset(contents, offset, count))?)
}

/// What a read gives of the text that tells a window's number.
fn part_of_winid<O: Outside>(
    alloc: Global,
    outside: &O,
    window: u32,
    offset: u64,
    count: u32,
) -> Result<Bytes, Fault>
    ensures read { (session : ℕ) → IsTold result (Ok (at_offset (winid_text ((O.outside session).pane (O.state outside.now) window).known) offset count)) }
    ensures short { IfOk result (λ bytes. length bytes ≤ count) }
{
    let text = winid(alloc, outside, window)?;
    part(alloc, text.as_slice(), offset, count)
}

/// What a read gives of the picture of a window, or for 0 of the display.
fn part_of_picture<O: Outside>(
    outside: &O,
    window: u32,
    offset: u64,
    count: u32,
) -> Result<Bytes, Fault>
    ensures read { (session : ℕ) → IsTold result (Ok (file_part ((O.outside session).picture (O.state outside.now) window) offset count)) }
    ensures short { IfOk result (λ bytes. length bytes ≤ count) }
{
    Ok(outside.picture_part(window, offset, count)?)
}

/// What a read gives of the text that tells the size of the display.
fn part_of_size<O: Outside>(
    alloc: Global,
    outside: &O,
    offset: u64,
    count: u32,
) -> Result<Bytes, Fault>
    ensures read { (session : ℕ) → IsTold result (Ok (at_offset (size_text ((O.outside session).size (O.state outside.now))) offset count)) }
    ensures short { IfOk result (λ bytes. length bytes ≤ count) }
{
    let text = outside.size_text()?;
    part(alloc, text.as_slice(), offset, count)
}

/// Reads what the ctl of a connection tells: all at its front, and nothing behind it.
#[tactic(auto, unfolding(model_world::specs::Reading::ctl_read))]
fn read_ctl<O: Outside>(
    alloc: Global,
    outside: &O,
    session: u32,
    node: &Node,
    offset: u64,
    count: u32,
) -> Result<Bytes, Fault>
    requires { O.has session node.now.connection (O.state outside.now) ≡ true }
    ensures read { IsTold result (ctl_read (O.outside session) (O.state outside.now) (node_of node.now) offset count) }
    ensures short { IfOk result (λ bytes. length bytes ≤ count) }
{
    if offset != 0 {
        return Ok(Bytes::new(alloc));
    }
    if count < CTL_LEN {
        return Err(Fault::Refused(DRAW_READ_TOO_SHORT));
    }
    match outside.read_ctl(session, node.connection) {
        Ok(bytes) => Ok(bytes),
        Err(Fault::Refused(refusal)) => Err(Fault::Refused(refusal)),
        Err(Fault::Memory) => Err(Fault::Memory),
    }
}

/// What a read gives of a file that it leaves as it is; None where a read may change what it reads, or wait.
fn read_told<O: Outside>(
    alloc: Global,
    outside: &O,
    session: u32,
    node: &Node,
    kind: Kind,
    offset: u64,
    count: u32,
) -> Option<Result<Bytes, Fault>>
    requires kind { kind_numbered node.now.kind ≡ kind }
    requires client { HasClient (O.has session) (node_of node.now) (O.state outside.now) }
    ensures read { IsToldOf result (told_of (O.outside session) (O.state outside.now) (node_of node.now) offset count kind) }
    ensures short { IfSome result (λ read. IfOk read (λ bytes. length bytes ≤ count)) }
{
    let window = node.serial;
    match kind {
        Kind::Ctl => Some(read_ctl(alloc, outside, session, node, offset, count)),
        Kind::Screen | Kind::Picture => Some(part_of_picture(outside, window, offset, count)),
        Kind::Snarf => Some(part(alloc, outside.snarf(window), offset, count)),
        Kind::Hwsize => Some(part_of_size(alloc, outside, offset, count)),
        Kind::Label => Some(part(alloc, label(outside, window), offset, count)),
        Kind::Text => Some(part(alloc, text(outside, window), offset, count)),
        Kind::Winid => Some(part_of_winid(alloc, outside, window, offset, count)),
        Kind::Winname => Some(part(alloc, winname(outside, window), offset, count)),
        _ => None,
    }
}

/// So many bytes at least have to be asked for.
fn least_of(kind: Kind) -> u32
    ensures { result ≡ least_of kind }
{
    match kind {
        Kind::Mouse => MOUSE_LEN,
        Kind::Wctl => WCTL_LEN,
        _ => 0,
    }
}

/// What a window's `wctl` gives now: None exactly where the fid gave that text last, and the read waits.
fn wctl_now<O: Outside>(alloc: Global, outside: &O, fid: &mut Fid) -> Result<Option<Bytes>, Memory>
    ensures given { (session count : ℕ) → IsGivenNow fid.old (O.state outside.now) result fid.new (O.state outside.now) (given_now (O.outside session) (O.state outside.now) fid.old count kinds.Wctl) }
    ensures short { IfOk result (λ given. IfSome given (λ bytes. length bytes ≤ 128)) }
    ensures file { fid.new.node ≡ fid.old.node }
    ensures mode { fid.new.mode ≡ fid.old.mode }
{
    let text = wctl(alloc, outside, fid.node().serial)?;
    if is_told(fid.told(), text.as_slice()) {
        return Ok(None);
    }
    fid.tell(text.try_clone(alloc)?);
    Ok(Some(text))
}

/// What a file gives now that may have nothing to give: an event of the mouse, of the console an ended line, the text of `wctl` where
/// it is not the one that the fid gave last. None exactly where the read waits, as that of `refresh` always does. Where memory ran
/// out nothing is said of the outside, and of the fid no more than that its file and mode stay.
pub fn read_now<O: Outside>(
    alloc: Global,
    outside: &mut O,
    session: u32,
    fid: &mut Fid,
    count: u32,
) -> Result<Option<Bytes>, Memory>
    ensures given { IsGivenNow fid.old (O.state outside.old) result fid.new (O.state outside.new) (given_now (O.outside session) (O.state outside.old) fid.old count fid.old.node.kind) }
    ensures short { IfOk result (λ given. IfSome given (λ bytes. length bytes ≤ max count 128)) }
    ensures file { fid.new.node ≡ fid.old.node }
    ensures mode { fid.new.mode ≡ fid.old.mode }
{
    let node = fid.node();
    match kind_of(node.kind) {
        Kind::Mouse => outside.read_mouse(node.serial),
        Kind::Cons => outside.read_console(node.serial, count),
        Kind::Wctl => wctl_now(alloc, outside, fid),
        _ => Ok(None),
    }
}

/// Reads an open file that is no directory, told anew by each read; of a picture each read makes the rows that it gives something of.
/// None exactly where the read waits. Refused as is defined, and then all is as before. Where memory ran out nothing is said of the
/// outside, and of the fid no more than that its file and mode stay.
pub fn read_file<O: Outside>(
    alloc: Global,
    outside: &mut O,
    session: u32,
    fid: &mut Fid,
    offset: u64,
    count: u32,
) -> Result<Option<Bytes>, Fault>
    requires client { HasClient (O.has session) fid.old.node (O.state outside.old) }
    ensures read { IsFileRead fid.old (O.state outside.old) result fid.new (O.state outside.new) (file_read (O.outside session) (O.state outside.old) fid.old offset count fid.old.node.kind) }
    ensures short { IfOk result (λ given. IfSome given (λ bytes. length bytes ≤ max count 128)) }
    ensures file { fid.new.node ≡ fid.old.node }
    ensures mode { fid.new.mode ≡ fid.old.mode }
{
    let node = fid.node();
    let kind = kind_of(node.kind);
    if let Some(read) = read_told(alloc, outside, session, &node, kind, offset, count) {
        return Ok(Some(read?));
    }
    if let Kind::Data = kind {
        return Ok(Some(outside.read_data(session, node.connection, count)?));
    }
    if count < least_of(kind) {
        return Err(Fault::Refused(READ_TOO_SHORT));
    }
    Ok(read_now(alloc, outside, session, fid, count)?)
}
