//! Opening files (open(5)), and beginning connections to the draw device (draw(3)).

ghost use Rattle.std.specs.Prelude.{◌≡◌, ◌≤◌, ◌<◌, ◌==◌, ◌&&◌, ℕ, Some, IfOk, false};
ghost use Rattle.std.specs.List.{list_any};
ghost use Rattle.model_text.specs.text.Map.{lookup};
ghost use Rattle.model_files.specs.wire.Spelling.{FitsR};
ghost use Rattle.model_files.specs.tree.Node as model;
ghost use Rattle.model_world.specs.Session.{Fid, fid_at};
ghost use Rattle.model_world.specs.Fids.{with_fid, is_open_on};
ghost use Rattle.model_world.specs.Sleeping.{has_place};
ghost use Rattle.model_world.specs.Walking.{ctl_of, is_taken, most_made, open_answer, opened_new};
ghost use Rattle.r9_tree.specs.View.{node_of, IsNode};
ghost use Rattle.r9_wire.specs.View.{r_of};
ghost use Rattle.r9_session.specs.Answers.{IsClosed, IsReach};

use crate::holding::{hold, is_held};
use crate::session::Session;
use r9_files::around::Outside;
use r9_files::files::{
    FID_IS_OPEN, FILE_IN_USE, Fault, PERMISSION_DENIED, TOO_MANY_FIDS, UNKNOWN_FID, is_kind,
};
use r9_memory::Memory;
use r9_tree::{Kind, Node, may, qid};
use r9_wire::Rmsg;

/// So many connections of a session live at once at most.
const MOST_AT_ONCE: usize = 4;

/// So many connections may be made in a session.
const MOST_MADE: u32 = 67_108_863;

/// The ctl of a connection, which an open of `new` becomes.
#[tactic(auto, unfolding(model_files::specs::tree::Node::kind_numbered))]
fn ctl_of(node: &Node, connection: u32) -> Node
    requires { connection ≤ most_made }
    ensures ctl { node_of result ≡ ctl_of (node_of node.now) connection }
    ensures is_node { IsNode result }
{
    Node {
        kind: Kind::Ctl as u8 + 1,
        connection,
        serial: 0,
        root: node.root,
    }
}

impl Session {
    /// Whether the ctl of a connection is open.
    fn has_open_ctl(&self, connection: u32) -> bool
        ensures { result ≡ list_any (λ entry. (entry.1.node.connection == connection) && is_open_on Kind.Ctl entry.1) self.now.fids }
    {
        self.fids.iter().any(|entry| entry.1.node().connection == connection
            && entry.1.is_open_on(Kind::Ctl))
    }

    /// Whether the session has all its connections, or the one ctl of a connection, or the `mouse` or `consctl` of a window is open
    /// already.
    fn is_taken<O: Outside>(&self, outside: &O, node: &Node) -> bool
        requires { IsNode node.now }
        ensures { (number : ℕ) → result ≡ is_taken (O.outside number) self.now (O.state outside.now) (node_of node.now) }
    {
        is_kind(node, Kind::New) && self.connections.len() >= MOST_AT_ONCE
            || is_kind(node, Kind::Ctl) && self.has_open_ctl(node.connection)
            || is_held(outside, node)
    }

    /// Opens the file that a fid stands for.
    fn set_mode(&mut self, fid: u32, mode: u8)
        ensures { (found : Fid) → lookup self.old.fids fid ≡ Some found → self.new ≡ with_fid self.old fid (record found { mode = Some mode }) }
    {
        if let Some(found) = self.fids.get_mut(fid) {
            found.open(mode);
        }
    }

    /// Opens a fid as another file, at no window.
    fn open_as(&mut self, fid: u32, node: Node, mode: u8)
        requires closed { IsClosed self.old fid }
        requires node { IsNode node }
        requires nowhere { has_place (fid_at (node_of node)) ≡ false }
        ensures { (found : Fid) → lookup self.old.fids fid ≡ Some found → self.new ≡ with_fid self.old fid (record found { node = node_of node; mode = Some mode }) }
    {
        if let Some(found) = self.fids.get_mut(fid) {
            found.open_as(node, mode);
        }
    }

    /// Begins a connection, whose ctl is open from then on by the fid that stood for `new`.
    fn open_new<O: Outside>(
        &mut self,
        outside: &mut O,
        number: u32,
        tag: u16,
        fid: u32,
        node: &Node,
        mode: u8,
    ) -> Result<Rmsg, Memory>
        requires linked { O.linked number self.old.made self.old.connections (O.state outside.old) }
        requires room { self.old.made < most_made }
        requires closed { IsClosed self.old fid }
        ensures opened { IfOk result (λ reply. (found : Fid) → lookup self.old.fids fid ≡ Some found → node_of node.now ≡ found.node →
            opened_new (O.outside number) self.old (O.state outside.old) tag fid mode found ≡ record { session = self.new; rest = O.state outside.new; reply = Some (r_of reply) }) }
        ensures fits { IfOk result (λ reply. FitsR (r_of reply)) }
    {
        let connection = self.made + 1;
        outside.connect(number, connection)?;
        let ctl = ctl_of(node, connection);
        self.open_as(fid, ctl, mode);
        self.connections.push(connection)?;
        self.made = connection;
        Ok(Rmsg::Open {
            tag,
            qid: qid(&ctl),
            iounit: 0,
        })
    }

    /// Opens a file. What its permissions forbid does not open, nor what one fid at a time may have open and some fid has. An open of
    /// `new` begins a connection.
    #[tactic(auto, unfolding(model_world::specs::Walking::open_answer))]
    pub fn open<O: Outside>(
        &mut self,
        outside: &mut O,
        number: u32,
        tag: u16,
        fid: u32,
        mode: u8,
    ) -> Result<Rmsg, Fault>
        requires { O.linked number self.old.made self.old.connections (O.state outside.old) }
        ensures { IsReach self.old (O.state outside.old) result self.new (O.state outside.new) (open_answer (O.outside number) self.old (O.state outside.old) tag fid mode) }
    {
        let Some(found) = self.fids.get(fid) else {
            return Err(Fault::Refused(UNKNOWN_FID));
        };
        if found.mode().is_some() {
            return Err(Fault::Refused(FID_IS_OPEN));
        }
        let node = found.node();
        self.check_live(outside, &node)?;
        if !may(&node, mode) {
            return Err(Fault::Refused(PERMISSION_DENIED));
        }
        if self.is_taken(outside, &node) {
            return Err(Fault::Refused(FILE_IN_USE));
        }
        if is_kind(&node, Kind::New) {
            if self.made >= MOST_MADE {
                return Err(Fault::Refused(TOO_MANY_FIDS));
            }
            return Ok(self.open_new(outside, number, tag, fid, &node, mode)?);
        }
        self.set_mode(fid, mode);
        hold(outside, &node, true);
        Ok(Rmsg::Open {
            tag,
            qid: qid(&node),
            iounit: 0,
        })
    }
}
