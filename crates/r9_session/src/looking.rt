//! What a message is looked at for, before it is answered and after it: names of attaches, and the files of fids.

ghost use Rattle.std.specs.Prelude.{◌≡◌, ◌≤◌, ◌==◌, ◌&&◌, ◌↔◌, ℕ, Ok, true, false, not, is_ok, All, IsTrue, IfNone, IfSome, length};
ghost use Rattle.std.specs.Option.{option_map};
ghost use Rattle.model_text.specs.text.Map.{lookup};
ghost use Rattle.model_files.specs.wire.Message.{no_fid};
ghost use Rattle.model_world.specs.Answer.{Reads, taking};
ghost use Rattle.model_world.specs.Fids.{is_bound, is_full};
ghost use Rattle.r9_tree.specs.View.{node_of, most_connections, IsNode};
ghost use Rattle.r9_session.specs.Reached.{reached};

use crate::reading::reads;
use crate::session::Session;
use crate::taking::Taking;
use crate::writing::writes;
use r9_files::around::Outside;
use r9_text::Numbers;
use r9_tree::Node;
use r9_wire::NO_FID;

impl Session {
    /// Whether the bytes of a message are taken as what they spell, and a version is agreed (version(5)).
    pub fn reads(&self, bytes: &[u8]) -> bool
        requires { 7 ≤ length bytes.now }
        ensures { IsTrue result ↔ ((taking self.now bytes.now ≡ Reads) × (self.now.agreed ≡ true)) }
    {
        self.agreed && matches!(self.taking(bytes), Taking::Reads)
    }

    /// The connections to the draw device that live, in ascending order.
    #[tactic(auto, using(crate::proofs::Clients::all_from_within))]
    pub fn connections(&self) -> &Numbers
        ensures connections { result.now ≡ self.now.connections }
        ensures within { All (λ n. n ≤ most_connections) result.now }
    {
        &self.connections
    }

    /// The file that a fid stands for; None where it is not bound.
    pub fn file(&self, fid: u32) -> Option<Node>
        ensures file { option_map node_of result ≡ option_map (λ f. f.node) (lookup self.now.fids fid) }
        ensures sound { IfSome result IsNode }
    {
        match self.fids.get(fid) {
            Some(found) => Some(found.node()),
            None => None,
        }
    }

    /// Whether an attach comes so far that its name is looked at: it asks for no authentication, and its fid is free and there is room
    /// for it.
    pub fn looks_at_name(&self, fid: u32, afid: u32) -> bool
        ensures { result ≡ ((afid == no_fid) && not (is_bound self.now fid) && not (is_full self.now)) }
    {
        afid == NO_FID && self.check_free(fid).is_ok()
    }

    /// The file that a write of a fid reaches; None where the fid is not bound or not open for writing, or its file's window or
    /// connection is gone.
    pub fn reached<O: Outside>(&self, outside: &O, fid: u32) -> Option<Node>
        ensures file { IfSome result (λ node. (number : ℕ) → reached true (O.outside number) self.now (O.state outside.now) fid ≡ Ok (node_of node)) }
        ensures none { IfNone result ((number : ℕ) → is_ok (reached true (O.outside number) self.now (O.state outside.now) fid) ≡ false) }
        ensures sound { IfSome result IsNode }
    {
        self.open_file(outside, fid, true)
    }

    /// The file that a read of a fid reaches; None where the fid is not bound or not open for reading, or its file's window or
    /// connection is gone.
    pub fn reached_by_read<O: Outside>(&self, outside: &O, fid: u32) -> Option<Node>
        ensures file { IfSome result (λ node. (number : ℕ) → reached false (O.outside number) self.now (O.state outside.now) fid ≡ Ok (node_of node)) }
        ensures none { IfNone result ((number : ℕ) → is_ok (reached false (O.outside number) self.now (O.state outside.now) fid) ≡ false) }
        ensures sound { IfSome result IsNode }
    {
        self.open_file(outside, fid, false)
    }

    /// The file of a fid that is open for writing, or for reading, where its window and its connection live.
    fn open_file<O: Outside>(&self, outside: &O, fid: u32, writing: bool) -> Option<Node>
        ensures file { IfSome result (λ node. (number : ℕ) → reached writing (O.outside number) self.now (O.state outside.now) fid ≡ Ok (node_of node)) }
        ensures none { IfNone result ((number : ℕ) → is_ok (reached writing (O.outside number) self.now (O.state outside.now) fid) ≡ false) }
        ensures sound { IfSome result IsNode }
    {
        let Some(found) = self.fids.get(fid) else {
            return None;
        };
        let Some(mode) = found.mode() else {
            return None;
        };
        let node = found.node();
        let is_open = if writing { writes(mode) } else { reads(mode) };
        if !is_open || self.check_live(outside, &node).is_err() {
            return None;
        }
        Some(node)
    }
}
