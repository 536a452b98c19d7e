//! The session's connections to the draw device (draw(3)).

ghost use Rattle.std.specs.Prelude.{◌≡◌, ◌≤◌, ◌<◌, ◌^◌, ◌⊎◌, ◌↔◌, true, length, None, Some, Ok, Err, IfOk, IfErr, IfSome, IsSome, OnOk, OnErr};
ghost use Rattle.model_alone.specs.alone.Lone.{lone_desktop};
ghost use Rattle.model_draw.specs.draw.Act.{no_memory};
ghost use Rattle.model_draw.specs.draw.Memory.{MayRunOut};
ghost use Rattle.model_text.specs.text.Map.{lookup};
ghost use Rattle.model_world.specs.Whole.{client};
ghost use Rattle.r9_files.specs.around.Words.{AreTold, IfRefused, mark_after};
ghost use Rattle.r9_isol.specs.isol.Words.{fault_of_draw};
ghost use Rattle.r9_isol.specs.isol.World.{desktop_of};

use crate::isol::desktop::Desktop;
use crate::isol::uncounted::{leave, write, write_first};
use r9_draw::draw::{DrawFault, Wrote as Done};
use r9_files::around::{Told, Wrote};
use r9_files::files::{Fault, NO_IMAGE_MEMORY};
use r9_memory::Memory;
use r9_text::Bytes;
use std::marker::Brand;
use std::sync::ledger::Blank;

/// The draw device's number of a connection of the session, which is session 1 there: each session has 2^26 of its own.
fn client(connection: u32) -> u64
    ensures { result ≡ client 1 connection }
{
    0x400_0000 + u64::from(connection)
}

/// The same fault as one of a file.
fn fault_of(fault: DrawFault) -> Fault
    ensures { result ≡ fault_of_draw fault }
{
    match fault {
        DrawFault::Refused(number) => Fault::Refused(number),
        DrawFault::Memory => Fault::Memory,
    }
}

/// A data write that ended so.
fn ended(wrote: Done, refusal: Option<u8>, short: Option<u32>) -> Wrote
    ensures refusal { result.refusal ≡ refusal }
    ensures short { result.short ≡ short }
    ensures told { AreTold result.told (λ _. Unit {0}) }
{
    Wrote {
        refusal,
        short,
        told: Some(Told {
            done: wrote.done,
            rows: wrote.rows,
        }),
    }
}

impl Desktop {
    /// A connection begins. After Memory all is as before.
    #[tactic(auto, unfolding(crate::specs::isol::World::desktop_of))]
    pub(crate) fn connect(&mut self, connection: u32) -> Result<(), Memory>
        requires fresh { lookup (desktop_of self.old).device.clients (client 1 connection) ≡ None }
        ensures made { OnOk result (desktop_of self.new ≡ lone_desktop.connect (desktop_of self.old) connection) }
        ensures kept { OnErr result (desktop_of self.new ≡ desktop_of self.old) }
    {
        self.device.connect(client(connection))
    }

    /// A connection ends. After Memory all is as before.
    #[tactic(auto, unfolding(crate::specs::isol::World::desktop_of))]
    pub(crate) fn leave(&mut self, connection: u32) -> Result<(), Memory>
        requires { IsSome (lookup (desktop_of self.old).device.clients (client 1 connection)) }
        ensures left { OnOk result (desktop_of self.new ≡ lone_desktop.leave (desktop_of self.old) connection) }
        ensures kept { OnErr result (desktop_of self.new ≡ desktop_of self.old) }
    {
        leave::<Brand>(&mut self.device, client(connection), Blank::new(1))
    }

    /// Does so many messages at most, and looks at none behind them: memory ran out there.
    #[tactic(auto, unfolding(crate::specs::isol::World::desktop_of))]
    fn write_first(&mut self, connection: u32, bytes: &[u8], most: u32) -> Wrote
        requires live { IsSome (lookup (desktop_of self.old).device.clients (client 1 connection)) }
        requires few { length bytes.now < 2 ^ 32 }
        ensures written { lone_desktop.write_data (desktop_of self.old) connection bytes.now (mark_after (Some most) result.short) ≡ (desktop_of self.new, result.refusal) }
        ensures cause { IfSome result.short (λ k. (Some most ≡ Some k) ⊎ MayRunOut (client 1 connection) (desktop_of self.old).device bytes.now k) }
        ensures refused { IsSome result.short ↔ (result.refusal ≡ Some no_memory) }
        ensures told { AreTold result.told (λ _. Unit {0}) }
    {
        let wrote = write_first::<Brand>(
            &mut self.device,
            client(connection),
            bytes,
            most,
            Blank::new(1),
        );
        if wrote.short {
            let done = wrote.done;
            return ended(wrote, Some(NO_IMAGE_MEMORY), Some(done));
        }
        match wrote.refusal {
            Some(number) => ended(wrote, Some(number), None),
            None => ended(wrote, Some(NO_IMAGE_MEMORY), Some(most)),
        }
    }

    /// Does all messages until one is refused, or memory runs out. Memory where that is the first one; then all is as before.
    #[tactic(auto, unfolding(crate::specs::isol::World::desktop_of))]
    fn write_all(&mut self, connection: u32, bytes: &[u8]) -> Result<Wrote, Memory>
        requires live { IsSome (lookup (desktop_of self.old).device.clients (client 1 connection)) }
        requires few { length bytes.now < 2 ^ 32 }
        ensures written { IfOk result (λ w. lone_desktop.write_data (desktop_of self.old) connection bytes.now (mark_after None w.short) ≡ (desktop_of self.new, w.refusal)) }
        ensures cause { IfOk result (λ w. IfSome w.short (λ k. (None ≡ Some k) ⊎ MayRunOut (client 1 connection) (desktop_of self.old).device bytes.now k)) }
        ensures refused { IfOk result (λ w. IsSome w.short ↔ (w.refusal ≡ Some no_memory)) }
        ensures told { IfOk result (λ w. AreTold w.told (λ _. Unit {0})) }
        ensures kept { OnErr result (desktop_of self.new ≡ desktop_of self.old) }
    {
        let wrote = write::<Brand>(&mut self.device, client(connection), bytes, Blank::new(1))?;
        if wrote.short {
            let done = wrote.done;
            return Ok(ended(wrote, Some(NO_IMAGE_MEMORY), Some(done)));
        }
        let refusal = wrote.refusal;
        Ok(ended(wrote, refusal, None))
    }

    /// Does the messages that the bytes spell, until one is refused; those before it stand. With a mark it does so many, and does
    /// not look at the next. Memory where memory runs out in the first one; then all is as before.
    pub(crate) fn write_data(
        &mut self,
        connection: u32,
        bytes: &[u8],
        mark: Option<u32>,
    ) -> Result<Wrote, Memory>
        requires live { IsSome (lookup (desktop_of self.old).device.clients (client 1 connection)) }
        requires few { length bytes.now < 2 ^ 32 }
        ensures written { IfOk result (λ w. lone_desktop.write_data (desktop_of self.old) connection bytes.now (mark_after mark w.short) ≡ (desktop_of self.new, w.refusal)) }
        ensures cause { IfOk result (λ w. IfSome w.short (λ k. (mark ≡ Some k) ⊎ MayRunOut (client 1 connection) (desktop_of self.old).device bytes.now k)) }
        ensures refused { IfOk result (λ w. IsSome w.short ↔ (w.refusal ≡ Some no_memory)) }
        ensures told { IfOk result (λ w. AreTold w.told (λ _. Unit {0})) }
        ensures kept { OnErr result (desktop_of self.new ≡ desktop_of self.old) }
    {
        match mark {
            Some(most) => Ok(self.write_first(connection, bytes, most)),
            None => self.write_all(connection, bytes),
        }
    }

    /// The pending bytes of a connection, which are then gone. Refused by 26 exactly where there are none, and by 25 exactly
    /// where they are more than the most that may be read. After an `Err` all is as before.
    #[tactic(auto, unfolding(crate::specs::isol::World::desktop_of))]
    pub(crate) fn read_data(&mut self, connection: u32, most: u32) -> Result<Bytes, Fault>
        requires { IsSome (lookup (desktop_of self.old).device.clients (client 1 connection)) }
        ensures read { IfOk result (λ bytes. lone_desktop.read_data (desktop_of self.old) connection most ≡ Ok (bytes, desktop_of self.new)) }
        ensures short { IfOk result (λ bytes. length bytes ≤ most) }
        ensures refused { IfErr result (λ f. IfRefused f (λ n. lone_desktop.read_data (desktop_of self.old) connection most ≡ Err n)) }
        ensures kept { OnErr result (desktop_of self.new ≡ desktop_of self.old) }
    {
        match self.device.read_data(client(connection), most) {
            Ok(bytes) => Ok(bytes),
            Err(fault) => Err(fault_of(fault)),
        }
    }

    /// What `ctl` says of the image that it describes. Refused by 4 exactly where the image's id is gone, and by 18 exactly
    /// where its tie has ended.
    #[tactic(auto, unfolding(crate::specs::isol::World::desktop_of))]
    pub(crate) fn read_ctl(&self, connection: u32) -> Result<Bytes, Fault>
        requires { IsSome (lookup (desktop_of self.now).device.clients (client 1 connection)) }
        ensures read { IfOk result (λ bytes. lone_desktop.read_ctl (desktop_of self.now) connection ≡ Ok bytes) }
        ensures len { IfOk result (λ bytes. length bytes ≡ 144) }
        ensures refused { IfErr result (λ f. IfRefused f (λ n. lone_desktop.read_ctl (desktop_of self.now) connection ≡ Err n)) }
    {
        match self.device.read_ctl(client(connection), connection) {
            Ok(bytes) => Ok(bytes),
            Err(fault) => Err(fault_of(fault)),
        }
    }

    /// Chooses the image id that `ctl` describes from now on. Refused by 27 exactly where there are not four bytes, and by 4
    /// exactly where the connection does not know the id. After an `Err` all is as before.
    #[tactic(auto, unfolding(crate::specs::isol::World::desktop_of))]
    pub(crate) fn write_ctl(&mut self, connection: u32, bytes: &[u8]) -> Result<(), Fault>
        requires { IsSome (lookup (desktop_of self.old).device.clients (client 1 connection)) }
        ensures chosen { OnOk result (lone_desktop.write_ctl (desktop_of self.old) connection bytes.now ≡ Ok (desktop_of self.new)) }
        ensures refused { IfErr result (λ f. IfRefused f (λ n. lone_desktop.write_ctl (desktop_of self.old) connection bytes.now ≡ Err n)) }
        ensures kept { OnErr result (desktop_of self.new ≡ desktop_of self.old) }
    {
        match self.device.write_ctl(client(connection), bytes) {
            Ok(()) => Ok(()),
            Err(fault) => Err(fault_of(fault)),
        }
    }
}
