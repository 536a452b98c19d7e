//! Where reads wait, so that what happens elsewhere costs them nothing (read(5), rio(4)).

ghost use Rattle.std.specs.Prelude.{◌≡◌, ◌==◌, ℕ, true, false, length, OnOk};
ghost use Rattle.std.specs.List.{list_any};
ghost use Rattle.model_world.specs.Session as model;
ghost use Rattle.model_world.specs.Links.{is_among};
ghost use Rattle.model_world.specs.Sleeping.{has_place, may_wake};
ghost use Rattle.r9_tree.specs.View.{node_of, IsNode};
ghost use Rattle.r9_session.specs.Places.{is_awaited};

use crate::session::Session;
use crate::wait::Wait;
use r9_files::files::is_kind;
use r9_memory::Memory;
use r9_tags::Waiting;
use r9_text::Numbers;
use r9_tree::{Kind, Node};

/// Whether a number is among others.
fn is_among(numbers: &[u32], number: u32) -> bool
    ensures { result ≡ is_among numbers.now number }
{
    numbers.iter().any(|other| *other == number)
}

/// Adds a place, where it is not there yet.
fn add_place(places: &mut Numbers, serial: u32) -> Result<(), Memory>
    ensures kept { (n : ℕ) → is_among places.old n ≡ true → is_among places.new n ≡ true }
    ensures here { OnOk result (is_among places.new serial ≡ true) }
{
    if is_among(places.as_slice(), serial) {
        return Ok(());
    }
    places.push(serial)
}

/// Whether a read of a file may wait for what happens at a window: one of `refresh` waits whatever happens.
fn has_place(node: &Node) -> bool
    requires { IsNode node.now }
    ensures { (fid : model.Fid) → fid.node ≡ node_of node.now → has_place fid ≡ true → result ≡ true }
{
    node.serial != 0 || !is_kind(node, Kind::Refresh)
}

/// Keeps the place of a file whose read is about to wait. The places of reads that wait no more go where none waits.
pub(crate) fn place_read(
    waiting: &Waiting<Wait>,
    places: &mut Numbers,
    node: &Node,
) -> Result<(), Memory>
    requires { IsNode node.now }
    ensures kept { (length waiting.now == 0) ≡ false → (n : ℕ) → is_among places.old n ≡ true → is_among places.new n ≡ true }
    ensures here { OnOk result ((fid : model.Fid) → fid.node ≡ node_of node.now → has_place fid ≡ true → is_among places.new fid.node.serial ≡ true) }
{
    if waiting.is_empty() {
        places.clear();
    }
    if has_place(node) {
        return add_place(places, node.serial);
    }
    Ok(())
}

/// Whether a read that waits names a fid.
fn names(wait: &Wait, fid: u32) -> bool
    ensures { result ≡ (wait.now.fid == fid) }
{
    wait.fid == fid
}

fn is_awaited(waiting: &Waiting<Wait>, fid: u32) -> bool
    ensures { result ≡ is_awaited waiting.now fid }
{
    waiting.as_slice().iter().any(|read| names(&read.1, fid))
}

/// Keeps the place of a file that a fid is about to stand for, where a read waits that names the fid.
pub(crate) fn place_fid(
    waiting: &Waiting<Wait>,
    places: &mut Numbers,
    fid: u32,
    serial: u32,
) -> Result<(), Memory>
    ensures kept { (n : ℕ) → is_among places.old n ≡ true → is_among places.new n ≡ true }
    ensures here { OnOk result (is_awaited waiting.now fid ≡ true → is_among places.new serial ≡ true) }
{
    if is_awaited(waiting, fid) {
        return add_place(places, serial);
    }
    Ok(())
}

/// Whether some place is among windows.
fn are_among(places: &[u32], windows: &[u32]) -> bool
    ensures { result ≡ list_any (λ place. is_among windows.now place) places.now }
{
    places.iter().any(|place| is_among(windows, *place))
}

impl Session {
    /// Whether something that happened at these windows may have woken a read that waits. False only where it has not; no memory is
    /// taken.
    pub fn may_wake(&self, windows: &[u32]) -> bool
        ensures { result ≡ false → may_wake self.now windows.now ≡ false }
    {
        if self.waiting.is_empty() {
            return false;
        }
        are_among(self.places.as_slice(), windows)
    }
}
