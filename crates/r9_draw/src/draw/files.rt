//! The files `data` and `ctl` of a connection.

ghost use Rattle.std.specs.Prelude.{◌≡◌, ◌==◌, ◌≤◌, ◌^◌, true, false, length, MatchOption, Ok, Err, IfOk, IfErr, OnOk, OnErr, IsSome};
ghost use Rattle.std.specs.Int.{w32, from_le_bytes};
ghost use Rattle.r9_geom.specs.Geometry.{IsRectNearBy};
ghost use Rattle.model_text.specs.text.Map.{lookup};
ghost use Rattle.r9_draw.specs.draw.Described.{fields_of};
ghost use Rattle.model_draw.specs.draw.Files.{read_data, read_ctl, write_ctl};
ghost use Rattle.model_draw.specs.draw.World.{client_of};
ghost use Rattle.r9_draw.specs.draw.Refused.{IfRefused};
ghost use Rattle.r9_draw.specs.draw.World.{moment_of, world_of, writes_of};

use crate::draw::draw::Draw;
use crate::draw::fault::DrawFault;
use r9_device::client::{describe, described_by, pending_len, replace_pending};
use r9_device::device::Info;
use r9_imgfile::push_rect;
use r9_memory::Memory;
use r9_text::{Bytes, push_number, push_word};
use std::alloc::Global;

// Twelve fields: the connection, the image id, the channels, repl, the rectangle and the clip rectangle.
fn description(alloc: Global, number: u32, id: u32, info: &Info) -> Result<Bytes, Memory>
    requires near { IsRectNearBy (2 ^ 33) info.now.r }
    requires clip { IsRectNearBy (2 ^ 33) info.now.clipr }
    ensures { IfOk result (λ bytes. bytes ≡ fields_of number id info.now) }
{
    let mut out = Bytes::new(alloc);
    push_number(&mut out, i64::from(number))?;
    push_number(&mut out, i64::from(id))?;
    let name = info.chan.text();
    push_word(&mut out, &name.bytes[..usize::from(name.len)])?;
    push_number(&mut out, i64::from(info.repl))?;
    push_rect(&mut out, info.r)?;
    push_rect(&mut out, info.clipr)?;
    Ok(out)
}

// The number that four bytes spell, the lowest first.
fn id_of(bytes: &[u8]) -> Option<u32>
    ensures { MatchOption result ((length bytes.now == 4) ≡ false) (λ id. ((length bytes.now == 4) ≡ true) × (id ≡ from_le_bytes w32 bytes.now)) }
{
    match bytes {
        [a, b, c, d] => Some(u32::from_le_bytes([*a, *b, *c, *d])),
        _ => None,
    }
}

impl Draw {
    /// The pending bytes of the connection, which are then gone. Refused by 26 exactly where there are none, and by 25 exactly
    /// where they are more than the most that may be read.
    #[tactic(auto, unfolding(model_draw::specs::draw::Files::read_data))]
    pub fn read_data(&mut self, client: u64, most: u32) -> Result<Bytes, DrawFault>
        requires { IsSome (lookup (world_of self.old).clients client) }
        ensures read { IfOk result (λ bytes. read_data client (world_of self.old) most ≡ Ok (bytes, world_of self.new)) }
        ensures short { IfOk result (λ bytes. length bytes ≤ most) }
        ensures refused { IfErr result (λ f. IfRefused f (λ n. read_data client (world_of self.old) most ≡ Err n)) }
        ensures kept { OnErr result (world_of self.new ≡ world_of self.old) }
        ensures moment { moment_of self.new ≡ moment_of self.old }
        ensures writes { writes_of self.new ≡ writes_of self.old }
    {
        let len = pending_len(&self.device.clients, client);
        if len == 0 {
            return Err(DrawFault::Refused(26));
        }
        if len > most as usize {
            return Err(DrawFault::Refused(25));
        }
        let none = Bytes::new(self.device.alloc);
        Ok(replace_pending(&mut self.device.clients, client, none))
    }

    /// The image id that `ctl` of a connection describes, 0 where there is no such connection. It takes no memory.
    pub fn described(&self, client: u64) -> u32
        ensures { result ≡ (client_of (world_of self.now) client).described }
    {
        if !self.device.is_live(client) {
            return 0;
        }
        described_by(&self.device.clients, client)
    }

    /// What `ctl` says of the image that it describes: twelve fields, of which the first is the number of the connection that
    /// is given. Refused by 4 exactly where the image's id is gone, and by 18 exactly where its tie has ended.
    #[tactic(auto, unfolding(model_draw::specs::draw::Files::read_ctl))]
    pub fn read_ctl(&self, client: u64, number: u32) -> Result<Bytes, DrawFault>
        requires { IsSome (lookup (world_of self.now).clients client) }
        ensures read { IfOk result (λ bytes. read_ctl client (world_of self.now) number ≡ Ok bytes) }
        ensures len { IfOk result (λ bytes. length bytes ≡ 144) }
        ensures refused { IfErr result (λ f. IfRefused f (λ n. read_ctl client (world_of self.now) number ≡ Err n)) }
    {
        let id = described_by(&self.device.clients, client);
        let image = match self.device.look(client, id) {
            Ok(image) => image,
            Err(refusal) => return Err(DrawFault::Refused(refusal)),
        };
        let info = self.device.image_info(image);
        let bytes = description(self.device.alloc, number, id, &info)?;
        Ok(bytes)
    }

    /// Chooses the image id that `ctl` describes from now on. Refused by 27 exactly where there are not four bytes, and by 4
    /// exactly where the connection does not know the id.
    #[tactic(auto, unfolding(model_draw::specs::draw::Files::write_ctl))]
    pub fn write_ctl(&mut self, client: u64, bytes: &[u8]) -> Result<(), DrawFault>
        requires { IsSome (lookup (world_of self.old).clients client) }
        ensures chosen { OnOk result (write_ctl client (world_of self.old) bytes.now ≡ Ok (world_of self.new)) }
        ensures refused { IfErr result (λ f. IfRefused f (λ n. write_ctl client (world_of self.old) bytes.now ≡ Err n)) }
        ensures kept { OnErr result (world_of self.new ≡ world_of self.old) }
        ensures moment { moment_of self.new ≡ moment_of self.old }
        ensures writes { writes_of self.new ≡ writes_of self.old }
    {
        let Some(id) = id_of(bytes) else {
            return Err(DrawFault::Refused(27));
        };
        if id != 0 && !self.device.knows(client, id) {
            return Err(DrawFault::Refused(4));
        }
        describe(&mut self.device.clients, client, id);
        Ok(())
    }
}
