//! Connections of sessions to the draw device (draw(3)).

ghost use Rattle.std.specs.Prelude.{◌≡◌, ◌==◌, ◌≤◌, ◌<◌, ◌^◌, ◌⊎◌, ◌↔◌, length, None, Some, Ok, Err, IfOk, IfErr, IfSome, IsSome, OnOk, OnErr};
ghost use Rattle.model_text.specs.text.Map.{lookup};
ghost use Rattle.model_draw.specs.draw.Act.{no_memory};
ghost use Rattle.model_draw.specs.draw.Memory.{MayRunOut};
ghost use Rattle.model_draw.specs.draw.World.{client_of};
ghost use Rattle.model_world.specs.Whole.{client, connection_left, desktop_for, written_data};
ghost use Rattle.r9_files.specs.around.Words.{AreTold, IfRefused, mark_after};
ghost use Rattle.r9_desktop.specs.Words.{AreDone, fault_of_draw, tells_for};
ghost use Rattle.r9_desktop.specs.World.{began_in, began_of, desktop_of, parts_of};

use crate::desktop::Desktop;
use crate::spending::{Leave, Messages};
use r9_draw::draw::DrawFault;
use r9_files::around::{Told, Wrote};
use r9_files::files::Fault;
use r9_marks::steps::Steps;
use r9_memory::Memory;
use r9_text::Bytes;
use std::marker::Brand;
use std::snapshot::Snapshot;
use std::sync::ledger::{Blank, Ledger};

/// The refusal where memory ran out in a data write.
const NO_IMAGE_MEMORY: u8 = 24;

/// The draw device's number of a session's connection: each session has 2^26 of its own.
pub fn client(session: u32, connection: u32) -> u64
    ensures { result ≡ client session connection }
{
    0x400_0000 * u64::from(session) + u64::from(connection)
}

/// The same fault as one of a file.
fn fault_of(fault: DrawFault) -> Fault
    ensures { result ≡ fault_of_draw fault }
{
    match fault {
        DrawFault::Refused(number) => Fault::Refused(number),
        DrawFault::Memory => Fault::Memory,
    }
}

impl Desktop {
    /// A connection of a session begins. After Memory all is as before.
    #[tactic(auto, unfolding(crate::specs::World::desktop_of, crate::specs::World::began_of))]
    pub fn connect(&mut self, session: u32, connection: u32) -> Result<(), Memory>
        requires some { 1 ≤ client session connection }
        requires fresh { lookup (desktop_of self.old).device.clients (client session connection) ≡ None }
        ensures made { OnOk result (desktop_of self.new ≡ (desktop_for session).connect (desktop_of self.old) connection) }
        ensures kept { OnErr result (desktop_of self.new ≡ desktop_of self.old) }
        ensures began { began_of self.new ≡ began_of self.old }
    {
        self.device.connect(client(session, connection))
    }

    /// A connection ends, with a count of the pixels that this writes.
    fn leave_counted<L: Ledger>(&mut self, client: u64, blank: Blank) -> Result<(), Memory>
        requires name { blank.name ≡ L.name }
        requires parts { blank.parts ≡ L.parts }
        requires some { 0 < L.parts }
        requires live { IsSome (lookup (parts_of self.old).device.clients client) }
        ensures left { OnOk result (parts_of self.new ≡ connection_left client (parts_of self.old)) }
        ensures kept { OnErr result (parts_of self.new ≡ parts_of self.old) }
        ensures began { began_in self.new ≡ began_in self.old }
    {
        let mut pixels = Steps::<L>::new(blank);
        let device = Snapshot::of(&self.device);
        self.device.leave(client, &mut pixels)?;
        self.spending.add(pixels.count(), &Leave { device, client });
        Ok(())
    }

    /// A connection of a session ends: its ids are freed, and what nothing refers to any more goes. After Memory all is as
    /// before.
    #[tactic(auto, unfolding(crate::specs::World::desktop_of, crate::specs::World::began_of))]
    pub fn leave(&mut self, session: u32, connection: u32) -> Result<(), Memory>
        requires { IsSome (lookup (desktop_of self.old).device.clients (client session connection)) }
        ensures left { OnOk result (desktop_of self.new ≡ (desktop_for session).leave (desktop_of self.old) connection) }
        ensures kept { OnErr result (desktop_of self.new ≡ desktop_of self.old) }
        ensures began { began_of self.new ≡ began_of self.old }
    {
        self.leave_counted::<Brand>(client(session, connection), Blank::new(1))
    }

    /// Does the messages of a write of a connection, with a count of the pixels that they write.
    #[tactic(auto, unfolding(model_world::specs::Whole::written_data))]
    fn write_counted<L: Ledger>(
        &mut self,
        client: u64,
        bytes: &[u8],
        mark: Option<u32>,
        blank: Blank,
    ) -> Result<Wrote, Memory>
        requires name { blank.name ≡ L.name }
        requires parts { blank.parts ≡ L.parts }
        requires some { 0 < L.parts }
        requires live { IsSome (lookup (parts_of self.old).device.clients client) }
        requires few { length bytes.now < 2 ^ 32 }
        ensures written { IfOk result (λ w. written_data client (parts_of self.old) bytes.now (mark_after mark w.short) ≡ (parts_of self.new, w.refusal)) }
        ensures cause { IfOk result (λ w. IfSome w.short (λ k. (mark ≡ Some k) ⊎ MayRunOut client (parts_of self.old).device bytes.now k)) }
        ensures refused { IfOk result (λ w. IsSome w.short ↔ (w.refusal ≡ Some no_memory)) }
        ensures told { IfOk result (λ w. AreTold w.told (AreDone client (parts_of self.old).device bytes.now (mark_after mark w.short))) }
        ensures kept { OnErr result (parts_of self.new ≡ parts_of self.old) }
        ensures began { began_in self.new ≡ began_in self.old }
    {
        let mut pixels = Steps::<L>::new(blank);
        let device = Snapshot::of(&self.device);
        let wrote = self.device.write(client, bytes, mark, &mut pixels)?;
        let done = wrote.done;
        let asked = Messages {
            device,
            client,
            bytes,
            done,
        };
        self.spending.add(pixels.count(), &asked);
        let told = Some(Told {
            done,
            rows: wrote.rows,
        });
        if wrote.short {
            return Ok(Wrote {
                refusal: Some(NO_IMAGE_MEMORY),
                short: Some(done),
                told,
            });
        }
        Ok(Wrote {
            refusal: wrote.refusal,
            short: None,
            told,
        })
    }

    /// Does the messages that the bytes spell, until one is refused; those before it stand. It stops before a message that is
    /// not refused where its mark stands or memory runs out, which is the refusal 24. Memory where that is the first one; then
    /// all is as before.
    #[tactic(auto, unfolding(crate::specs::World::desktop_of, crate::specs::World::began_of))]
    pub fn write_data(
        &mut self,
        session: u32,
        connection: u32,
        bytes: &[u8],
        mark: Option<u32>,
    ) -> Result<Wrote, Memory>
        requires live { IsSome (lookup (desktop_of self.old).device.clients (client session connection)) }
        requires few { length bytes.now < 2 ^ 32 }
        ensures written { IfOk result (λ w. (desktop_for session).write_data (desktop_of self.old) connection bytes.now (mark_after mark w.short) ≡ (desktop_of self.new, w.refusal)) }
        ensures cause { IfOk result (λ w. IfSome w.short (λ k. (mark ≡ Some k) ⊎ MayRunOut (client session connection) (desktop_of self.old).device bytes.now k)) }
        ensures refused { IfOk result (λ w. IsSome w.short ↔ (w.refusal ≡ Some no_memory)) }
        ensures told { IfOk result (λ w. AreTold w.told (tells_for session connection (desktop_of self.old) bytes.now (mark_after mark w.short))) }
        ensures kept { OnErr result (desktop_of self.new ≡ desktop_of self.old) }
        ensures began { began_of self.new ≡ began_of self.old }
    {
        self.write_counted::<Brand>(client(session, connection), bytes, mark, Blank::new(1))
    }

    /// The pending bytes of a connection, which are then gone. Refused by 26 exactly where there are none, and by 25 exactly
    /// where they are more than the most that may be read. After an `Err` all is as before.
    #[tactic(auto, unfolding(crate::specs::World::desktop_of, crate::specs::World::began_of, model_world::specs::Whole::data_read))]
    pub fn read_data(&mut self, session: u32, connection: u32, most: u32) -> Result<Bytes, Fault>
        requires { IsSome (lookup (desktop_of self.old).device.clients (client session connection)) }
        ensures read { IfOk result (λ bytes. (desktop_for session).read_data (desktop_of self.old) connection most ≡ Ok (bytes, desktop_of self.new)) }
        ensures short { IfOk result (λ bytes. length bytes ≤ most) }
        ensures refused { IfErr result (λ f. IfRefused f (λ n. (desktop_for session).read_data (desktop_of self.old) connection most ≡ Err n)) }
        ensures kept { OnErr result (desktop_of self.new ≡ desktop_of self.old) }
        ensures began { began_of self.new ≡ began_of self.old }
    {
        match self.device.read_data(client(session, connection), most) {
            Ok(bytes) => Ok(bytes),
            Err(fault) => Err(fault_of(fault)),
        }
    }

    /// What `ctl` says of the image that it describes. Refused by 4 exactly where the image's id is gone, and by 18 exactly
    /// where its tie has ended.
    #[tactic(auto, unfolding(crate::specs::World::desktop_of))]
    pub fn read_ctl(&self, session: u32, connection: u32) -> Result<Bytes, Fault>
        requires { IsSome (lookup (desktop_of self.now).device.clients (client session connection)) }
        ensures read { IfOk result (λ bytes. (desktop_for session).read_ctl (desktop_of self.now) connection ≡ Ok bytes) }
        ensures len { IfOk result (λ bytes. length bytes ≡ 144) }
        ensures refused { IfErr result (λ f. IfRefused f (λ n. (desktop_for session).read_ctl (desktop_of self.now) connection ≡ Err n)) }
    {
        match self
            .device
            .read_ctl(client(session, connection), connection)
        {
            Ok(bytes) => Ok(bytes),
            Err(fault) => Err(fault_of(fault)),
        }
    }

    /// Whether the `ctl` of a session's connection describes the display.
    #[tactic(auto, unfolding(crate::specs::World::desktop_of))]
    pub fn describes_display(&self, session: u32, connection: u32) -> bool
        ensures { result ≡ ((client_of (desktop_of self.now).device (client session connection)).described == 0) }
    {
        self.device.described(client(session, connection)) == 0
    }

    /// Chooses the image id that `ctl` describes from now on. Refused by 27 exactly where there are not four bytes, and by 4
    /// exactly where the connection does not know the id. After an `Err` all is as before.
    #[tactic(auto, unfolding(crate::specs::World::desktop_of, crate::specs::World::began_of, model_world::specs::Whole::ctl_written))]
    pub fn write_ctl(&mut self, session: u32, connection: u32, bytes: &[u8]) -> Result<(), Fault>
        requires { IsSome (lookup (desktop_of self.old).device.clients (client session connection)) }
        ensures chosen { OnOk result ((desktop_for session).write_ctl (desktop_of self.old) connection bytes.now ≡ Ok (desktop_of self.new)) }
        ensures refused { IfErr result (λ f. IfRefused f (λ n. (desktop_for session).write_ctl (desktop_of self.old) connection bytes.now ≡ Err n)) }
        ensures kept { OnErr result (desktop_of self.new ≡ desktop_of self.old) }
        ensures began { began_of self.new ≡ began_of self.old }
    {
        match self.device.write_ctl(client(session, connection), bytes) {
            Ok(()) => Ok(()),
            Err(fault) => Err(fault_of(fault)),
        }
    }
}
