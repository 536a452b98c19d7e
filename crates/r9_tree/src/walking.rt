//! Walks from one file to another (walk(5)).

ghost use Rattle.std.specs.Prelude.{◌≡◌, ◌==◌, ◌≤◌, ◌&&◌, not, IfSome, IfOk, IfErr, Ok, unwrap_or};
ghost use Rattle.std.specs.List.{find, list_any, zip};
ghost use Rattle.std.specs.Option.{option_map};
ghost use Rattle.std.specs.Map.{lookup};
ghost use Rattle.std.specs.Fmt.{decimal};
ghost use Rattle.std.specs.Str.{bytes_eq};
ghost use Rattle.model_files.specs.tree.Node.{row, kind_numbered};
ghost use Rattle.model_files.specs.tree.Tree.{View, kinds_in, numbered_in, placed, connection_at, window_at, files, above, root_of, is_gone, is_of_connection, check_live, walk};
ghost use Rattle.r9_tree.specs.View.{node_of, view_of, IsNode, IsView, most_connections};

use crate::rows::{is_directory, kind_of, name_of, number_of};
use crate::{Node, TreeView};
use model_files::tree::Kind;
use r9_text::Numbers;

/// The root of the tree that an attach gave: that of a window, by its serial, or of the device tree for 0.
#[tactic(auto, using(crate::proofs::KindNumbers::kind_numbered_number))]
pub fn root_of(serial: u32) -> Node
    ensures root { node_of result ≡ root_of serial }
    ensures sound { IsNode result }
{
    Node {
        kind: number_of(if serial == 0 {
            Kind::Device
        } else {
            Kind::Window
        }),
        connection: 0,
        serial,
        root: serial,
    }
}

fn is_gone(node: &Node, view: &TreeView) -> bool
    ensures { result ≡ is_gone (view_of view.now) (node_of node.now) }
{
    node.serial != 0 && !view.live
}

/// Whether a connection is among these.
fn lives(connection: u32, connections: &Numbers) -> bool
    ensures { result ≡ list_any (λ n. n == connection) connections.now }
{
    connections.as_slice().iter().any(|n| *n == connection)
}

fn is_of_connection(kind: u8) -> bool
    ensures { result ≡ is_of_connection (kind_numbered kind) }
{
    4 <= kind && kind <= 7
}

/// Whether the connection that a file belongs to is gone, where its session has these.
pub fn is_ended(node: &Node, connections: &Numbers) -> bool
    ensures { result ≡ (is_of_connection (node_of node.now).kind && not (list_any (λ n. n == node.now.connection) connections.now)) }
{
    is_of_connection(node.kind) && !lives(node.connection, connections)
}

/// Whether a file may be used: refused by 42 where its window is gone, and by 34 where its connection is.
#[tactic(auto, unfolding(model_files::specs::tree::Tree::check_live))]
pub fn check_live(node: &Node, view: &TreeView) -> Result<(), u8>
    ensures { result ≡ check_live (view_of view.now) (node_of node.now) }
{
    if is_gone(node, view) {
        return Err(42);
    }
    if is_ended(node, &view.connections) {
        return Err(34);
    }
    Ok(())
}

#[tactic(auto, unfolding(model_files::specs::tree::Node::row))]
fn connection_for(node: &Node, kind: Kind) -> u32
    requires { IsNode node.now }
    ensures file { (view : View) → result ≡ (placed view (node_of node.now) kind).connection }
    ensures bound { result ≤ most_connections }
{
    match kind {
        Kind::Connection | Kind::Ctl | Kind::Data | Kind::Refresh => node.connection,
        Kind::Device
        | Kind::Draw
        | Kind::New
        | Kind::Mousein
        | Kind::Kbdin
        | Kind::Screen
        | Kind::Snarf
        | Kind::DeviceWctl
        | Kind::Wsys
        | Kind::Window
        | Kind::Cons
        | Kind::Consctl
        | Kind::Label
        | Kind::Mouse
        | Kind::Text
        | Kind::Wctl
        | Kind::Winid
        | Kind::Winname
        | Kind::Picture
        | Kind::Listed
        | Kind::Hwsize => 0,
    }
}

/// The serial of the file of a kind in a directory: None where it is that of the host of the rio.
#[tactic(auto, unfolding(model_files::specs::tree::Node::row))]
fn own_serial(node: &Node, kind: Kind) -> Option<u32>
    ensures { (view : View) → (placed view (node_of node.now) kind).serial ≡ unwrap_or result view.host }
{
    let serial = match kind {
        Kind::Screen | Kind::Snarf | Kind::Wsys => return None,
        Kind::Device
        | Kind::Draw
        | Kind::New
        | Kind::Connection
        | Kind::Ctl
        | Kind::Data
        | Kind::Refresh
        | Kind::Mousein
        | Kind::Kbdin
        | Kind::DeviceWctl
        | Kind::Hwsize => 0,
        Kind::Window
        | Kind::Cons
        | Kind::Consctl
        | Kind::Label
        | Kind::Mouse
        | Kind::Text
        | Kind::Wctl
        | Kind::Winid
        | Kind::Winname
        | Kind::Picture
        | Kind::Listed => node.serial,
    };
    Some(serial)
}

/// The file of a kind in a directory, by its serial.
#[tactic(auto, using(crate::proofs::Placed::owned_is, crate::proofs::KindNumbers::kind_numbered_number))]
fn with_serial(node: &Node, kind: Kind, serial: u32) -> Node
    requires { IsNode node.now }
    ensures file { (view : View) → serial ≡ (placed view (node_of node.now) kind).serial → node_of result ≡ placed view (node_of node.now) kind }
    ensures sound { IsNode result }
{
    Node {
        kind: number_of(kind),
        connection: connection_for(node, kind),
        serial,
        root: node.root,
    }
}

/// The file of a kind in a directory.
pub(crate) fn placed(node: &Node, kind: Kind, view: &TreeView) -> Node
    requires { IsNode node.now }
    ensures file { node_of result ≡ placed (view_of view.now) (node_of node.now) kind }
    ensures sound { IsNode result }
{
    let serial = own_serial(node, kind).unwrap_or(view.host);
    with_serial(node, kind, serial)
}

/// The same where no view tells its serial.
fn placed_without_view(node: &Node, kind: Kind) -> Option<Node>
    requires { IsNode node.now }
    ensures file { IfSome result (λ placed_there. (view : View) → node_of placed_there ≡ placed view (node_of node.now) kind) }
    ensures sound { IfSome result IsNode }
{
    let serial = own_serial(node, kind)?;
    Some(with_serial(node, kind, serial))
}

#[tactic(auto, using(crate::proofs::KindNumbers::kind_numbered_number))]
pub(crate) fn connection_at(node: &Node, connection: u32) -> Node
    requires { connection ≤ most_connections }
    ensures file { node_of result ≡ connection_at (node_of node.now) connection }
    ensures sound { IsNode result }
{
    Node {
        kind: number_of(Kind::Connection),
        connection,
        serial: 0,
        root: node.root,
    }
}

#[tactic(auto, using(crate::proofs::KindNumbers::kind_numbered_number))]
pub(crate) fn window_at(node: &Node, serial: u32) -> Node
    ensures file { node_of result ≡ window_at (node_of node.now) serial }
    ensures sound { IsNode result }
{
    Node {
        kind: number_of(Kind::Listed),
        connection: 0,
        serial,
        root: node.root,
    }
}

const IN_DEVICE: [Kind; 8] = [
    Kind::Draw,
    Kind::Hwsize,
    Kind::Kbdin,
    Kind::Mousein,
    Kind::Screen,
    Kind::Snarf,
    Kind::DeviceWctl,
    Kind::Wsys,
];

const IN_WINDOW: [Kind; 13] = [
    Kind::Cons,
    Kind::Consctl,
    Kind::Draw,
    Kind::Label,
    Kind::Mouse,
    Kind::Screen,
    Kind::Snarf,
    Kind::Text,
    Kind::Wctl,
    Kind::Winid,
    Kind::Winname,
    Kind::Picture,
    Kind::Wsys,
];

const IN_LISTED: [Kind; 11] = [
    Kind::Cons,
    Kind::Consctl,
    Kind::Label,
    Kind::Mouse,
    Kind::Screen,
    Kind::Snarf,
    Kind::Text,
    Kind::Wctl,
    Kind::Winid,
    Kind::Winname,
    Kind::Picture,
];

/// The kinds of the files that a directory always has.
#[tactic(auto, unfolding(model_files::specs::tree::Tree::kinds_in))]
pub(crate) fn kinds_in(kind: Kind) -> &'static [Kind]
    ensures { result.now ≡ kinds_in kind }
{
    match kind {
        Kind::Device => &IN_DEVICE,
        Kind::Draw => &[Kind::New],
        Kind::Connection => &[Kind::Ctl, Kind::Data, Kind::Refresh],
        Kind::Window => &IN_WINDOW,
        Kind::Listed => &IN_LISTED,
        Kind::New
        | Kind::Ctl
        | Kind::Data
        | Kind::Refresh
        | Kind::Mousein
        | Kind::Kbdin
        | Kind::Screen
        | Kind::Snarf
        | Kind::DeviceWctl
        | Kind::Wsys
        | Kind::Cons
        | Kind::Consctl
        | Kind::Label
        | Kind::Mouse
        | Kind::Text
        | Kind::Wctl
        | Kind::Winid
        | Kind::Winname
        | Kind::Picture
        | Kind::Hwsize => &[],
    }
}

fn kind_named(kinds: &[Kind], name: &[u8]) -> Option<Kind>
    ensures { result ≡ find (λ kind. bytes_eq name.now (row kind).name) kinds.now }
{
    kinds.iter().copied().find(|kind| name == name_of(*kind))
}

fn is_number(name: &[u8], number: u32) -> bool
    ensures { result ≡ bytes_eq name.now (decimal number) }
{
    let mut buffer = itoa::Buffer::new();
    name == buffer.format(number).as_bytes()
}

#[tactic(auto, using(crate::proofs::Finds::found_has))]
fn connection_named(view: &TreeView, name: &[u8]) -> Option<u32>
    requires { IsView view.now }
    ensures connection { result ≡ find (λ n. bytes_eq name.now (decimal n)) view.now.connections }
    ensures bound { IfSome result (λ n. n ≤ most_connections) }
{
    let connections = view.connections.as_slice();
    connections.iter().copied().find(|n| is_number(name, *n))
}

fn window_in(numbers: &[u32], serials: &[u32], name: &[u8]) -> Option<(u32, u32)>
    ensures { result ≡ find (λ w. bytes_eq name.now (decimal w.0)) (zip numbers.now serials.now) }
{
    let mut windows = numbers.iter().copied().zip(serials.iter().copied());
    windows.find(|window| is_number(name, window.0))
}

fn window_named(view: &TreeView, name: &[u8]) -> Option<(u32, u32)>
    ensures { result ≡ find (λ w. bytes_eq name.now (decimal w.0)) (view_of view.now).windows }
{
    window_in(view.numbers.as_slice(), view.serials.as_slice(), name)
}

/// The directory with a number as its name.
#[tactic(auto, using(crate::proofs::Finds::lookup_map))]
fn numbered(node: &Node, kind: Kind, name: &[u8], view: &TreeView) -> Option<Node>
    requires { IsView view.now }
    ensures file { option_map node_of result ≡ lookup (λ n. bytes_eq name.now (decimal n)) (numbered_in (view_of view.now) (node_of node.now) kind) }
    ensures sound { IfSome result IsNode }
{
    match kind {
        Kind::Draw => {
            let connection = connection_named(view, name)?;
            Some(connection_at(node, connection))
        }
        Kind::Wsys => {
            let (_, serial) = window_named(view, name)?;
            Some(window_at(node, serial))
        }
        _ => None,
    }
}

/// The file of a directory that has a name.
fn child(node: &Node, kind: Kind, name: &[u8], view: &TreeView) -> Option<Node>
    requires node { IsNode node.now }
    requires kind { kind_numbered node.now.kind ≡ kind }
    requires view { IsView view.now }
    ensures file { option_map node_of result ≡ lookup (bytes_eq name.now) (files (view_of view.now) (node_of node.now)) }
    ensures sound { IfSome result IsNode }
{
    match kind_named(kinds_in(kind), name) {
        Some(named) => Some(placed(node, named, view)),
        None => numbered(node, kind, name, view),
    }
}

/// The directory above a directory.
fn above(node: &Node, kind: Kind, view: &TreeView) -> Node
    requires { IsNode node.now }
    ensures file { node_of result ≡ above (view_of view.now) (node_of node.now) kind }
    ensures sound { IsNode result }
{
    match kind {
        Kind::Connection => placed(node, Kind::Draw, view),
        Kind::Listed => placed(node, Kind::Wsys, view),
        _ => root_of(node.root),
    }
}

/// One step of a walk from a file: refused by 42 where its window is gone, by 34 where its connection is, by 35 where it is
/// no directory, and by 34 where it has no file of that name. Two periods lead to the directory above, and at the root of
/// the attach to itself.
#[tactic(auto, unfolding(model_files::specs::tree::Tree::walk))]
pub fn walk(node: &Node, name: &[u8], view: &TreeView) -> Result<Node, u8>
    requires node { IsNode node.now }
    requires view { IsView view.now }
    ensures found { IfOk result (λ next. walk (view_of view.now) (node_of node.now) name.now ≡ Ok (node_of next)) }
    ensures sound { IfOk result IsNode }
    ensures refused { IfErr result (λ n. walk (view_of view.now) (node_of node.now) name.now ≡ Err n) }
{
    check_live(node, view)?;
    let kind = kind_of(node.kind);
    if !is_directory(kind) {
        return Err(35);
    }
    if name == b"..".as_slice() {
        return Ok(above(node, kind, view));
    }
    match child(node, kind, name, view) {
        Some(next) => Ok(next),
        None => Err(34),
    }
}

/// One step of a walk from a file that may be used, to a file of which no view tells. None where a view is to be asked, or the step is
/// refused.
#[tactic(auto, unfolding(model_files::specs::tree::Tree::walk))]
pub fn walk_without_view(node: &Node, name: &[u8]) -> Option<Node>
    requires { IsNode node.now }
    ensures found { IfSome result (λ next. (view : View) → check_live view (node_of node.now) ≡ Ok tt → walk view (node_of node.now) name.now ≡ Ok (node_of next)) }
    ensures sound { IfSome result IsNode }
{
    let kind = kind_of(node.kind);
    if !is_directory(kind) || name == b"..".as_slice() {
        return None;
    }
    let named = kind_named(kinds_in(kind), name)?;
    placed_without_view(node, named)
}
