//! Letting go of fids (clunk(5)), and what goes with them: connections to the draw device (draw(3)), and the use of windows
//! (rio(4)).

ghost use Rattle.std.specs.Prelude.{◌≡◌, ◌≤◌, ◌==◌, ◌&&◌, [], ◌∷◌, filter, length, map, nat_le, not, IfOk, IsSome, OnOk};
ghost use Rattle.std.specs.List.{fold, list_any, position_or_len};
ghost use Rattle.std.specs.Map.{keys_of};
ghost use Rattle.model_text.specs.map.Ascending.{Ascend};
ghost use Rattle.model_world.specs.Answer.{clunk_answer};
ghost use Rattle.model_text.specs.text.Map.{lookup};
ghost use Rattle.model_world.specs.Session as model;
ghost use Rattle.model_world.specs.Fids.{cleared, has_root, is_kept, keeps, left_by, put};
ghost use Rattle.model_files.specs.wire.Message.{R};
ghost use Rattle.r9_session.specs.Answers.{IsDone};
ghost use Rattle.r9_session.specs.Clients.{MayLeave, left_of, without_fid};
ghost use Rattle.r9_session.specs.Roots.{roots_of, without_fids};

use crate::holding::let_go;
use crate::session::Session;
use r9_files::around::Outside;
use r9_files::files::{Fault, Fid, UNKNOWN_FID};
use r9_memory::Memory;
use r9_text::Numbers;
use std::alloc::Global;

/// Ends connections of a session, one after the other.
fn leave_all<O: Outside>(outside: &mut O, number: u32, connections: &[u32]) -> Result<(), Memory>
    requires { MayLeave (O.outside number) (O.has number) connections.now (O.state outside.old) }
    ensures { OnOk result (O.state outside.new ≡ fold (O.outside number).leave (O.state outside.old) connections.now) }
{
    let [first, others @ ..] = connections else {
        return Ok(());
    };
    outside.leave(number, *first)?;
    leave_all(outside, number, others)
}

/// Where a number stands in an ascending list, or belongs.
fn place_of(numbers: &[u32], number: u32) -> usize
    ensures place { result ≡ position_or_len (λ other. nat_le number other) numbers.now }
    ensures within { result ≤ length numbers.now }
{
    numbers
        .iter()
        .position(|other| number <= *other)
        .unwrap_or(numbers.len())
}

/// Puts a number into an ascending list, where it is not there yet.
fn put(numbers: &mut Vec<u32>, number: u32) -> Result<(), Memory>
    ensures { OnOk result (numbers.new.items ≡ put number numbers.old.items) }
{
    let place = place_of(numbers, number);
    if place < numbers.len() && numbers[place] == number {
        return Ok(());
    }
    numbers.insert(place, number)?;
    Ok(())
}

/// Puts numbers into an ascending list, one after the other.
fn put_all(ordered: &mut Vec<u32>, numbers: &[u32]) -> Result<(), Memory>
    ensures { OnOk result (ordered.new.items ≡ fold (λ others number. put number others) ordered.old.items numbers.now) }
{
    let [first, others @ ..] = numbers else {
        return Ok(());
    };
    put(ordered, *first)?;
    put_all(ordered, others)
}

/// Whether a number is another than that of a fid, and its fid keeps a connection alive.
fn keeps_beside(fid: u32, number: u32, found: &Fid, connection: u32) -> bool
    ensures { result ≡ (not (number == fid) && keeps connection found.now) }
{
    number != fid && found.keeps(connection)
}

impl Session {
    /// The numbers of fids ascend: nothing is done.
    fn ascends(&self)
        ensures { Ascend (keys_of self.now.fids) }
    {
        let _ = self.fids.iter();
    }

    /// Whether some fid of another number keeps a connection alive.
    fn has_other_keeper(&self, fid: u32, connection: u32) -> bool
        ensures { result ≡ list_any (λ entry. not (entry.0 == fid) && keeps connection entry.1) self.now.fids }
    {
        self.fids
            .iter()
            .any(|entry| keeps_beside(fid, *entry.0, entry.1, connection))
    }

    /// Whether some fid keeps a connection alive where this one is let go.
    fn is_kept_beside(&self, fid: u32, connection: u32) -> bool
        ensures { result ≡ is_kept (without_fid self.now fid) connection }
    {
        self.ascends();
        self.has_other_keeper(fid, connection)
    }

    /// The session's connections but for one.
    fn others(&self, alloc: Global, connection: u32) -> Result<Numbers, Memory>
        ensures { IfOk result (λ others. others ≡ filter (λ n. not (n == connection)) self.now.connections) }
    {
        let connections = self.connections.as_slice().iter().copied();
        let others: Vec<u32> = connections.filter(|n| *n != connection).collect(alloc)?;
        Ok(Numbers::from(others))
    }

    /// That one, if it is a connection of the session.
    fn only(&self, alloc: Global, connection: u32) -> Result<Numbers, Memory>
        ensures { IfOk result (λ only. only ≡ filter (λ n. n == connection) self.now.connections) }
    {
        let connections = self.connections.as_slice().iter().copied();
        let only: Vec<u32> = connections.filter(|n| *n == connection).collect(alloc)?;
        Ok(Numbers::from(only))
    }

    /// Ends a connection, if it is one of the session's.
    fn end<O: Outside>(
        &mut self,
        alloc: Global,
        outside: &mut O,
        number: u32,
        connection: u32,
    ) -> Result<(), Memory>
        requires { O.linked number self.old.made self.old.connections (O.state outside.old) }
        ensures session { OnOk result (self.new ≡ record self.old { connections = filter (λ n. not (n == connection)) self.old.connections }) }
        ensures outside { OnOk result (O.state outside.new ≡ fold (O.outside number).leave (O.state outside.old) (filter (λ n. n == connection) self.old.connections)) }
    {
        let others = self.others(alloc, connection)?;
        let ended = self.only(alloc, connection)?;
        leave_all(outside, number, ended.as_slice())?;
        self.connections = others;
        Ok(())
    }

    /// Ends the connection that a fid alone keeps alive, if there is one. The other connections are kept alive by other fids.
    fn settle<O: Outside>(
        &mut self,
        alloc: Global,
        outside: &mut O,
        number: u32,
        fid: u32,
    ) -> Result<(), Memory>
        requires linked { O.linked number self.old.made self.old.connections (O.state outside.old) }
        requires bound { IsSome (lookup self.old.fids fid) }
        ensures session { OnOk result (self.new ≡ record self.old { connections = filter (is_kept (without_fid self.old fid)) self.old.connections }) }
        ensures outside { OnOk result (O.state outside.new ≡ fold (O.outside number).leave (O.state outside.old) (filter (λ n. not (is_kept (without_fid self.old fid) n)) self.old.connections)) }
    {
        let Some(found) = self.fids.get(fid) else {
            return Ok(());
        };
        let connection = found.node().connection;
        if !found.keeps(connection) {
            return Ok(());
        }
        if self.is_kept_beside(fid, connection) {
            return Ok(());
        }
        self.end(alloc, outside, number, connection)
    }

    /// Whether some fid has a window as the root of its attach.
    fn has_root(&self, window: u32) -> bool
        ensures { result ≡ has_root self.now window }
    {
        self.fids.iter().any(|entry| entry.1.node().root == window)
    }

    /// The window that the session uses no longer where a fid has gone whose attach named it, if there is one.
    fn left_by(&self, alloc: Global, root: u32) -> Result<Numbers, Memory>
        ensures { IfOk result (λ windows. (gone : model.Fid) → gone.node.root ≡ root → windows ≡ left_by self.now (gone ∷ [])) }
    {
        if root == 0 || self.has_root(root) {
            return Ok(Numbers::new(alloc));
        }
        Numbers::from_slice(alloc, &[root])
    }

    /// A fid whose attach named a window has gone: without another one the session uses that window no longer.
    fn leave_root<O: Outside>(
        &self,
        alloc: Global,
        outside: &mut O,
        number: u32,
        root: u32,
    ) -> Result<(), Memory>
        ensures { (gone : model.Fid) → gone.node.root ≡ root → OnOk result (O.state outside.new ≡ (O.outside number).left (O.state outside.old) (left_by self.now (gone ∷ []))) }
    {
        let windows = self.left_by(alloc, root)?;
        outside.left(number, &windows)
    }

    /// Lets a fid go, ends the connection that it alone kept alive and what it had open for itself, and leaves the window that it alone
    /// had as its root.
    #[tactic(auto, unfolding(model_world::specs::Answer::clunk_answer, model_world::specs::Fids::settled, model_world::specs::Fids::fids_gone))]
    pub(crate) fn clunk<O: Outside>(
        &mut self,
        alloc: Global,
        outside: &mut O,
        number: u32,
        fid: u32,
    ) -> Result<(), Fault>
        requires { O.linked number self.old.made self.old.connections (O.state outside.old) }
        ensures { (reply : R) → IsDone self.old (O.state outside.old) reply result self.new (O.state outside.new) (clunk_answer (O.outside number) self.old (O.state outside.old) fid reply) }
    {
        if self.fids.get(fid).is_none() {
            return Err(Fault::Refused(UNKNOWN_FID));
        }
        self.settle(alloc, outside, number, fid)?;
        self.ascends();
        if let Some(gone) = self.fids.clunk(fid) {
            let_go(outside, &gone);
            self.leave_root(alloc, outside, number, gone.node().root)?;
        }
        Ok(())
    }

    /// The root of the attach of each fid.
    fn roots(&self, alloc: Global) -> Result<Vec<u32>, Memory>
        ensures { IfOk result (λ roots. roots.items ≡ map (λ entry. entry.1.node.root) self.now.fids) }
    {
        let fids = self.fids.iter();
        Ok(fids.map(|entry| entry.1.node().root).collect(alloc)?)
    }

    /// The windows at the roots of all fids, in ascending serial; 0 among them where a fid has the device tree's.
    #[tactic(auto, using(crate::proofs::Gone::roots_are))]
    fn distinct_roots(&self, alloc: Global) -> Result<Vec<u32>, Memory>
        ensures { IfOk result (λ roots. roots.items ≡ roots_of self.now.fids) }
    {
        let roots = self.roots(alloc)?;
        let mut distinct = Vec::new(alloc);
        put_all(&mut distinct, &roots)?;
        Ok(distinct)
    }

    /// The windows that the session uses no longer where all fids go.
    fn windows(&self, alloc: Global) -> Result<Numbers, Memory>
        ensures { IfOk result (λ windows. windows ≡ left_by (without_fids self.now) (map (λ entry. entry.1) self.now.fids)) }
    {
        let roots = self.distinct_roots(alloc)?;
        let windows = roots.iter().copied();
        let windows: Vec<u32> = windows.filter(|window| *window != 0).collect(alloc)?;
        Ok(Numbers::from(windows))
    }

    /// Ends all connections of the session, which has the number that is given, what its fids had open for themselves, and its use of
    /// windows. Nothing is said of the outside where memory ran out.
    pub fn leave<O: Outside>(
        &self,
        alloc: Global,
        outside: &mut O,
        number: u32,
    ) -> Result<(), Memory>
        requires { O.linked number self.now.made self.now.connections (O.state outside.old) }
        ensures outside { OnOk result (O.state outside.new ≡ (cleared (O.outside number) self.now (O.state outside.old)).1) }
        ensures linked { OnOk result (O.linked number self.now.made [] (O.state outside.new)) }
        ensures others { OnOk result (O.others number (O.state outside.old) (O.state outside.new)) }
    {
        let windows = self.windows(alloc)?;
        leave_all(outside, number, self.connections.as_slice())?;
        self.let_all_go(outside);
        outside.left(number, &windows)
    }

    /// All fids go, and with them all connections; the reads that wait go without a reply.
    pub(crate) fn clear<O: Outside>(
        &mut self,
        alloc: Global,
        outside: &mut O,
        number: u32,
    ) -> Result<(), Memory>
        requires { O.linked number self.old.made self.old.connections (O.state outside.old) }
        ensures cleared { OnOk result (cleared (O.outside number) self.old (O.state outside.old) ≡ left_of self.new (O.state outside.new)) }
        ensures linked { OnOk result (O.linked number self.new.made self.new.connections (O.state outside.new)) }
        ensures others { OnOk result (O.others number (O.state outside.old) (O.state outside.new)) }
    {
        self.leave(alloc, outside, number)?;
        self.fids.clear();
        self.waiting.clear();
        self.connections.clear();
        Ok(())
    }
}
