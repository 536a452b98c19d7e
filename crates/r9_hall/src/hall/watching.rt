//! What an event used by which a session could notice another one, as far as it is seen when it ends.

ghost use Rattle.std.specs.Prelude.{◌≡◌, ◌≤◌, ◌++◌, true, length, option_map, IfOk, IfSome, IsSome};
ghost use Rattle.model_text.specs.text.Map.{lookup};
ghost use Rattle.model_draw.specs.draw.Act.{no_memory};
ghost use Rattle.model_rio.specs.rio.Table.{Table};
ghost use Rattle.model_alone.specs.alone.Uses.{new_hosts};
ghost use Rattle.model_alone.specs.used.Look.{used_last};
ghost use Rattle.model_files.specs.wire.Spelling.{FitsR};
ghost use Rattle.model_world.specs.Answer.{answer};
ghost use Rattle.model_world.specs.Cut.{IsCutMessage, wants_for};
ghost use Rattle.model_world.specs.Links.{IsLinked};
ghost use Rattle.model_world.specs.Refusal.{IsRefused};
ghost use Rattle.model_world.specs.Sleeping.{written_at};
ghost use Rattle.model_world.specs.Whole.{desktop_for};
ghost use Rattle.r9_files.specs.around.Words.{mark_after};
ghost use Rattle.r9_desktop.specs.World.{began_of, desktop_of};
ghost use Rattle.r9_hall.specs.hall.Watching.{IsSeenAs};
ghost use Rattle.r9_hall.specs.seen.View.{hosts_of, look_of};
ghost use Rattle.r9_wire.specs.View.{r_of};

use crate::hall::sessions::Sessions;
use crate::seen::{Look, answer as answer_seen, push_new_hosts, used_last};
use crate::shared::answer as answer_shared;
use r9_desktop::Desktop;
use r9_event::event::Uses;
use r9_memory::Memory;
use r9_session::{Answered, Session};
use std::alloc::Global;

/// What is seen of a message where events are watched: the serials of the hosts of all rios before it, what it used as far as that is seen
/// when it was answered, and what was seen of it before.
#[derive(Drop)]
pub(crate) struct Sight {
    hosts: Vec<u32>,
    uses: Uses,
    look: Look,
}

/// Answers the bytes of a message of the session of this number, as the session does. Nothing is seen of it where events are not watched.
pub(crate) fn answer_watched(
    alloc: Global,
    found: &mut Session,
    desktop: &mut Desktop,
    session: u32,
    bytes: &[u8],
    mark: Option<u32>,
    watches: bool,
    sight: &mut Option<Sight>,
) -> Result<Answered, Memory>
    requires long { 7 ≤ length bytes.now }
    requires linked { IsLinked session found.old.made found.old.connections (desktop_of desktop.old).device }
    ensures answer { IfOk result (λ a. answer (desktop_for session) found.old (desktop_of desktop.old) bytes.now (mark_after mark a.short) ≡ record { session = found.new; rest = desktop_of desktop.new; reply = option_map r_of a.reply }) }
    ensures fits { IfOk result (λ a. IfSome a.reply (λ reply. FitsR (r_of reply))) }
    ensures short { IfOk result (λ a. IfSome a.short (λ k. IsCutMessage (desktop_for session) (wants_for session) found.old (desktop_of desktop.old) bytes.now mark k)) }
    ensures told { IfOk result (λ a. IsRefused no_memory (option_map r_of a.reply) → IsSome a.short) }
    ensures wrote { IfOk result (λ a. a.wrote ≡ written_at found.old bytes.now) }
    ensures began { began_of desktop.new ≡ began_of desktop.old }
    ensures seen { watches ≡ true → IfOk result (λ a. IsSeenAs session found.old (desktop_of desktop.old) bytes.now mark a.short sight.new) }
{
    if !watches {
        return answer_shared(alloc, found, desktop, session, bytes, mark);
    }
    let hosts = desktop.hosts()?;
    let seen = answer_seen(alloc, found, desktop, session, bytes, mark, true)?;
    *sight = Some(Sight {
        hosts,
        uses: seen.uses,
        look: seen.look,
    });
    Ok(seen.answered)
}

impl Sessions {
    /// What a message used, with what is seen of it when its event has ended.
    fn used_at_end(&self, session: u32, sight: Sight) -> Result<Uses, Memory>
        ensures { IfOk result (λ used. (table : Table) → sight.hosts.items ≡ hosts_of table → used ≡ sight.uses ++ used_last (lookup self.now.live.entries session) (desktop_of self.now.desktop).table (look_of sight.look) ++ new_hosts table (desktop_of self.now.desktop).table) }
    {
        let mut uses = sight.uses;
        if let Some(used) = used_last(&sight.look, &self.live, session, &self.desktop) {
            uses.push(used)?;
        }
        let after = self.desktop.hosts()?;
        push_new_hosts(&sight.hosts, &after, &mut uses)?;
        Ok(uses)
    }

    /// The same where something was seen of the message, and nothing where nothing was.
    pub(crate) fn uses_at_end(
        &self,
        alloc: Global,
        session: u32,
        sight: Option<Sight>,
    ) -> Result<Uses, Memory>
        ensures { IfOk result (λ used. IfSome sight (λ s. (table : Table) → s.hosts.items ≡ hosts_of table → used ≡ s.uses ++ used_last (lookup self.now.live.entries session) (desktop_of self.now.desktop).table (look_of s.look) ++ new_hosts table (desktop_of self.now.desktop).table)) }
    {
        match sight {
            Some(sight) => self.used_at_end(session, sight),
            None => Ok(Uses::new(alloc)),
        }
    }
}
