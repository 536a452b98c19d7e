//! What is fixed of each kind of file.

ghost use Rattle.std.specs.Prelude.{◌≡◌, ◌≤◌, ◌==◌, ◌<◌, ◌^◌, IsTrue};
ghost use Rattle.model_files.specs.tree.Node.{row, kind_numbered, is_directory_kind, qid, may};
ghost use Rattle.r9_tree.specs.View.{node_of, IsNode, IsKind};
ghost use Rattle.r9_wire.specs.Qid.{qid_of};

use crate::Node;
use model_files::tree::Kind;
use r9_wire::Qid;

/// The permissions of a directory: it may be read by all, and not written.
const DIRECTORY: u32 = 0x8000_016d;

/// The kind of a number from 1 to 25.
#[tactic(auto, unfolding(model_files::specs::tree::Node::kind_numbered))]
pub fn kind_of(number: u8) -> Kind
    requires { IsKind number }
    ensures { result ≡ kind_numbered number }
{
    match number {
        1 => Kind::Device,
        2 => Kind::Draw,
        3 => Kind::New,
        4 => Kind::Connection,
        5 => Kind::Ctl,
        6 => Kind::Data,
        7 => Kind::Refresh,
        8 => Kind::Mousein,
        9 => Kind::Kbdin,
        10 => Kind::Screen,
        11 => Kind::Snarf,
        12 => Kind::DeviceWctl,
        13 => Kind::Wsys,
        14 => Kind::Window,
        15 => Kind::Cons,
        16 => Kind::Consctl,
        17 => Kind::Label,
        18 => Kind::Mouse,
        19 => Kind::Text,
        20 => Kind::Wctl,
        21 => Kind::Winid,
        22 => Kind::Winname,
        23 => Kind::Picture,
        24 => Kind::Listed,
        25 => Kind::Hwsize,
        _ => unreachable!(),
    }
}

/// The number of a kind, from 1 to 25.
#[tactic(auto, unfolding(model_files::specs::tree::Node::row))]
pub(crate) fn number_of(kind: Kind) -> u8
    ensures number { result ≡ (row kind).number }
    ensures range { IsKind result }
{
    kind as u8 + 1
}

#[tactic(auto, unfolding(model_files::specs::tree::Node::row))]
pub(crate) fn name_of(kind: Kind) -> &'static [u8]
    ensures { result.now ≡ (row kind).name }
{
    match kind {
        Kind::Device | Kind::Window => b"/",
        Kind::Draw => b"draw",
        Kind::New => b"new",
        Kind::Connection | Kind::Listed => b"",
        Kind::Ctl => b"ctl",
        Kind::Data => b"data",
        Kind::Refresh => b"refresh",
        Kind::Mousein => b"mousein",
        Kind::Kbdin => b"kbdin",
        Kind::Screen => b"screen",
        Kind::Snarf => b"snarf",
        Kind::DeviceWctl | Kind::Wctl => b"wctl",
        Kind::Wsys => b"wsys",
        Kind::Cons => b"cons",
        Kind::Consctl => b"consctl",
        Kind::Label => b"label",
        Kind::Mouse => b"mouse",
        Kind::Text => b"text",
        Kind::Winid => b"winid",
        Kind::Winname => b"winname",
        Kind::Picture => b"window",
        Kind::Hwsize => b"hwsize",
    }
}

#[tactic(auto, unfolding(model_files::specs::tree::Node::row))]
pub(crate) fn mode_of(kind: Kind) -> u32
    ensures { result ≡ (row kind).mode }
{
    match kind {
        Kind::Device | Kind::Draw | Kind::Connection | Kind::Wsys | Kind::Window | Kind::Listed =>
            DIRECTORY,
        Kind::Refresh | Kind::Screen | Kind::Text | Kind::Winid | Kind::Winname | Kind::Picture =>
            0x100,
        Kind::Mousein | Kind::Kbdin | Kind::DeviceWctl | Kind::Consctl => 0x80,
        Kind::New
        | Kind::Ctl
        | Kind::Data
        | Kind::Snarf
        | Kind::Cons
        | Kind::Label
        | Kind::Mouse
        | Kind::Wctl
        | Kind::Hwsize => 0x180,
    }
}

pub(crate) fn is_directory(kind: Kind) -> bool
    ensures { result ≡ is_directory_kind kind }
{
    mode_of(kind) == DIRECTORY
}

/// What the server calls a file.
#[tactic(auto, unfolding(model_files::specs::tree::Node::row, model_files::specs::tree::Node::qid))]
pub fn qid(node: &Node) -> Qid
    requires { IsNode node.now }
    ensures { qid_of result ≡ qid (node_of node.now) }
{
    let kind = kind_of(node.kind);
    Qid {
        kind: if is_directory(kind) { 0x80 } else { 0 },
        vers: 0,
        path: number_of(kind) as u64
            + 64 * node.connection as u64
            + 0x1_0000_0000 * node.serial as u64,
    }
}

/// Whether the permissions of a file let it be opened so: mode is 0 to read, 1 to write, 2 for both, and 16 beside it has
/// no meaning; any other mode is refused (open(5)).
#[tactic(auto, unfolding(model_files::specs::tree::Node::row, model_files::specs::tree::Node::may))]
pub fn may(node: &Node, mode: u8) -> bool
    requires { IsKind node.now.kind }
    ensures { result ≡ may (node_of node.now) mode }
{
    let allowed = mode_of(kind_of(node.kind));
    let reads = allowed & 0x100 != 0;
    let writes = allowed & 0x80 != 0;
    match mode {
        0 | 16 => reads,
        1 | 17 => writes,
        2 | 18 => reads && writes,
        _ => false,
    }
}
