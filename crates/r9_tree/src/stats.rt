//! What stat(5) tells of files, and the listings of directories.

ghost use Rattle.std.specs.Prelude.{◌≡◌, ◌++◌, ◌==◌, ◌≤◌, length, IfOk, IfSome, IfNone, OnOk, ◌<◌, ◌^◌};
ghost use Rattle.std.specs.List.{All, find, flat_map, zip};
ghost use Rattle.std.specs.Fmt.{decimal};
ghost use Rattle.std.specs.Option.{option_map_or};
ghost use Rattle.model_files.specs.wire.Spelling.{FitsStat, stat_bytes};
ghost use Rattle.model_files.specs.tree.Node.{row};
ghost use Rattle.model_files.specs.declared.tree.Kind.TheVariants.{Listed};
ghost use Rattle.model_files.specs.tree.Tree.{View, numbered_in, number_of, name_by, stat, stat_named, placed, connection_at, window_at};
ghost use Rattle.model_files.specs.tree.Listing.{listing};
ghost use Rattle.r9_wire.specs.View.{stat_of};
ghost use Rattle.r9_tree.specs.View.{node_of, view_of, IsNode, IsView, IsName, most_connections};
ghost use Rattle.r9_tree.specs.Stats.{kind_stat, connection_stat, window_stat, numbered_stat};

use crate::rows::{kind_of, mode_of, name_of, qid};
use crate::walking::{connection_at, kinds_in, placed, window_at};
use crate::{Node, TreeView};
use model_files::tree::Kind;
use r9_memory::Memory;
use r9_text::{Bytes, push_decimal};
use r9_wire::{Stat, write_stat};
use std::alloc::Global;

/// The owner of every file.
const OWNER: [u8; 4] = *b"rio9";

fn stat_named(alloc: Global, name: Bytes, node: &Node) -> Result<Stat, Memory>
    requires { IsNode node.now }
    ensures { IfOk result (λ s. stat_of s ≡ stat_named name (node_of node.now)) }
{
    Ok(Stat {
        kind: 0,
        dev: 0,
        qid: qid(node),
        mode: mode_of(kind_of(node.kind)),
        atime: 0,
        mtime: 0,
        length: 0,
        name,
        uid: Bytes::from_slice(alloc, &OWNER)?,
        gid: Bytes::from_slice(alloc, &OWNER)?,
        muid: Bytes::from_slice(alloc, &OWNER)?,
    })
}

#[tactic(auto, using(crate::proofs::Named::decimal_is_named))]
fn number_name(alloc: Global, number: u32) -> Result<Bytes, Memory>
    ensures name { IfOk result (λ name. name ≡ decimal number) }
    ensures sound { IfOk result IsName }
{
    let mut name = Bytes::new(alloc);
    push_decimal(&mut name, number as u64)?;
    Ok(name)
}

fn window_of(numbers: &[u32], serials: &[u32], serial: u32) -> Option<(u32, u32)>
    ensures { result ≡ find (λ w. w.1 == serial) (zip numbers.now serials.now) }
{
    let mut windows = numbers.iter().copied().zip(serials.iter().copied());
    windows.find(|window| window.1 == serial)
}

fn window_number(serial: u32, view: &TreeView) -> u32
    ensures { result ≡ number_of (view_of view.now) serial }
{
    match window_of(view.numbers.as_slice(), view.serials.as_slice(), serial) {
        Some((number, _)) => number,
        None => 0,
    }
}

#[tactic(auto, using(crate::proofs::Named::row_is_named))]
fn fixed_name(alloc: Global, kind: Kind) -> Result<Bytes, Memory>
    ensures name { IfOk result (λ name. name ≡ (row kind).name) }
    ensures sound { IfOk result IsName }
{
    Bytes::from_slice(alloc, name_of(kind))
}

fn name_by(alloc: Global, node: &Node, kind: Kind, view: &TreeView) -> Result<Bytes, Memory>
    ensures name { IfOk result (λ name. name ≡ name_by (view_of view.now) (node_of node.now) kind) }
    ensures sound { IfOk result IsName }
{
    match kind {
        Kind::Connection => number_name(alloc, node.connection),
        Kind::Listed => number_name(alloc, window_number(node.serial, view)),
        _ => fixed_name(alloc, kind),
    }
}

/// What stat(5) tells of a file. A window in the directory of windows has its number in the view as its name.
#[tactic(auto, unfolding(model_files::specs::tree::Tree::stat, model_files::specs::tree::Tree::name_of))]
pub fn stat(alloc: Global, node: &Node, view: &TreeView) -> Result<Stat, Memory>
    requires { IsNode node.now }
    ensures stat { IfOk result (λ s. stat_of s ≡ stat (view_of view.now) (node_of node.now)) }
    ensures fits { IfOk result (λ s. FitsStat (stat_of s) × (length (stat_bytes (stat_of s)) < 2 ^ 16)) }
{
    let name = name_by(alloc, node, kind_of(node.kind), view)?;
    stat_named(alloc, name, node)
}

/// The name of a file that no view tells: None for a window in the directory of windows.
fn own_name(alloc: Global, node: &Node, kind: Kind) -> Result<Option<Bytes>, Memory>
    ensures name { IfOk result (λ found. IfSome found (λ name. (view : View) → name ≡ name_by view (node_of node.now) kind)) }
    ensures sound { IfOk result (λ found. IfSome found IsName) }
    ensures none { IfOk result (λ found. IfNone found (kind ≡ Listed)) }
{
    let name = match kind {
        Kind::Listed => return Ok(None),
        Kind::Connection => number_name(alloc, node.connection)?,
        _ => fixed_name(alloc, kind)?,
    };
    Ok(Some(name))
}

/// The same of a file whose name no view tells: None exactly for a window in the directory of windows.
#[tactic(auto, unfolding(model_files::specs::tree::Tree::stat, model_files::specs::tree::Tree::name_of))]
pub fn stat_without_view(alloc: Global, node: &Node) -> Result<Option<Stat>, Memory>
    requires { IsNode node.now }
    ensures stat { IfOk result (λ found. IfSome found (λ s. (view : View) → stat_of s ≡ stat view (node_of node.now))) }
    ensures fits { IfOk result (λ found. IfSome found (λ s. FitsStat (stat_of s) × (length (stat_bytes (stat_of s)) < 2 ^ 16))) }
    ensures none { IfOk result (λ found. IfNone found ((node_of node.now).kind ≡ Listed)) }
{
    let Some(name) = own_name(alloc, node, kind_of(node.kind))? else {
        return Ok(None);
    };
    let stat = stat_named(alloc, name, node)?;
    Ok(Some(stat))
}

fn put_stat(alloc: Global, name: Bytes, node: &Node, out: &mut Bytes) -> Result<(), Memory>
    requires node { IsNode node.now }
    requires name { IsName name }
    ensures { OnOk result (out.new ≡ out.old ++ stat_bytes (stat_named name (node_of node.now))) }
{
    let stat = stat_named(alloc, name, node)?;
    write_stat(alloc, &stat, out)
}

fn put_kinds(
    alloc: Global,
    node: &Node,
    kinds: &[Kind],
    view: &TreeView,
    out: &mut Bytes,
) -> Result<(), Memory>
    requires { IsNode node.now }
    ensures { OnOk result (out.new ≡ out.old ++ flat_map (kind_stat (view_of view.now) (node_of node.now)) kinds.now) }
{
    for kind in kinds {
        let name = fixed_name(alloc, *kind)?;
        put_stat(alloc, name, &placed(node, *kind, view), out)?;
    }
    Ok(())
}

fn put_connections(
    alloc: Global,
    node: &Node,
    connections: &[u32],
    out: &mut Bytes,
) -> Result<(), Memory>
    requires bound { All (λ n. n ≤ most_connections) connections.now }
    ensures { OnOk result (out.new ≡ out.old ++ flat_map (connection_stat (node_of node.now)) connections.now) }
{
    for n in connections {
        let name = number_name(alloc, *n)?;
        put_stat(alloc, name, &connection_at(node, *n), out)?;
    }
    Ok(())
}

fn put_windows(
    alloc: Global,
    node: &Node,
    numbers: &[u32],
    serials: &[u32],
    out: &mut Bytes,
) -> Result<(), Memory>
    requires { length numbers.now ≡ length serials.now }
    ensures { OnOk result (out.new ≡ out.old ++ flat_map (window_stat (node_of node.now)) (zip numbers.now serials.now)) }
{
    for i in 0..numbers.len() {
        let name = number_name(alloc, numbers[i])?;
        put_stat(alloc, name, &window_at(node, serials[i]), out)?;
    }
    Ok(())
}

fn put_numbered(
    alloc: Global,
    node: &Node,
    kind: Kind,
    view: &TreeView,
    out: &mut Bytes,
) -> Result<(), Memory>
    requires { IsView view.now }
    ensures { OnOk result (out.new ≡ out.old ++ flat_map numbered_stat (numbered_in (view_of view.now) (node_of node.now) kind)) }
{
    match kind {
        Kind::Draw => put_connections(alloc, node, view.connections.as_slice(), out),
        Kind::Wsys => {
            let serials = view.serials.as_slice();
            put_windows(alloc, node, view.numbers.as_slice(), serials, out)
        }
        _ => Ok(()),
    }
}

/// The stats of the files of a directory, in the order in which they are listed, one behind the other (read(5)): none for
/// what is no directory.
pub fn listing(alloc: Global, node: &Node, view: &TreeView) -> Result<Bytes, Memory>
    requires node { IsNode node.now }
    requires view { IsView view.now }
    ensures { IfOk result (λ bytes. bytes ≡ listing (view_of view.now) (node_of node.now)) }
{
    let kind = kind_of(node.kind);
    let mut out = Bytes::new(alloc);
    put_kinds(alloc, node, kinds_in(kind), view, &mut out)?;
    put_numbered(alloc, node, kind, view, &mut out)?;
    Ok(out)
}
