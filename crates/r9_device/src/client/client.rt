//! What a connection has beside its ids.

ghost use Rattle.std.specs.Prelude.{◌≡◌, ◌^◌, [], true, length, is_some, IfSome, IsSome, OnOk, OnErr};
ghost use Rattle.std.specs.Option.{option_map};
ghost use Rattle.r9_chan.specs.Op.{number};
ghost use Rattle.r9_geom.specs.Geometry.{IsRectNearBy};
ghost use Rattle.model_text.specs.text.Map.{lookup, with, and, without};
ghost use Rattle.model_draw_parts.specs.fonts.Font.{has_index, AreWithin};
ghost use Rattle.model_draw.specs.draw.World.{new_client};
ghost use Rattle.model_draw.specs.draw.Making.{forget_id};
ghost use Rattle.r9_device.specs.client.Clients.{entry_of};
ghost use Rattle.r9_device.specs.client.Fonts.{font_at, with_character_of};

use crate::client::fonts::{ClientFont, Fonts, set_character};
use crate::client::sizes::Sizes;
use r9_chan::Op;
use r9_fonts::{Cell, Font};
use r9_memory::Memory;
use r9_text::Bytes;
use std::alloc::Global;
use std::collections::BTreeMap;
use std::marker::Model;

/// What a connection has beside its ids.
#[derive(Drop)]
pub struct Client {
    // The operator of the next drawing.
    op: Op,
    // The image id that `ctl` describes.
    described: u32,
    // The bytes of the last `r` that have not been read.
    pending: Bytes,
    /// What the connection's images count for the limit on them.
    pub sizes: Sizes,
    fonts: Fonts,
}

impl Model for Client {
    ghost use Rattle.r9_chan.specs.Op.{number};
    ghost use Rattle.model_draw.specs.draw.World.{Client};

    ghost Value = { Client };

    ghost view = { λ c. record { op = number c.op; described = c.described; pending = c.pending; sizes = c.sizes.entries; fonts = c.fonts.entries } };
}

impl Client {
    /// A connection that has just begun.
    pub fn new(alloc: Global) -> Self
        ensures { result ≡ new_client }
    {
        Client {
            op: Op::SoverD,
            described: 0,
            pending: Bytes::new(alloc),
            sizes: Sizes::new(alloc),
            fonts: BTreeMap::new(alloc),
        }
    }
}

/// The connections by number.
pub type Clients = BTreeMap<u64, Client>;

/// Whether the connection lives.
pub fn lives(clients: &Clients, client: u64) -> bool
    ensures { result ≡ is_some (lookup clients.now.entries client) }
{
    clients.get(&client).is_some()
}

/// The operator of a connection's next drawing.
pub fn op_of(clients: &Clients, client: u64) -> Op
    requires { IsSome (lookup clients.now.entries client) }
    ensures { number result ≡ (entry_of clients.now.entries client).op }
{
    match clients.get(&client) {
        Some(owner) => owner.op,
        None => Op::SoverD,
    }
}

/// The image id that a connection's `ctl` describes.
pub fn described_by(clients: &Clients, client: u64) -> u32
    requires { IsSome (lookup clients.now.entries client) }
    ensures { result ≡ (entry_of clients.now.entries client).described }
{
    match clients.get(&client) {
        Some(owner) => owner.described,
        None => 0,
    }
}

/// How many bytes of a connection are pending.
pub fn pending_len(clients: &Clients, client: u64) -> usize
    requires { IsSome (lookup clients.now.entries client) }
    ensures { result ≡ length (entry_of clients.now.entries client).pending }
{
    match clients.get(&client) {
        Some(owner) => owner.pending.len(),
        None => 0,
    }
}

/// Another operator for a connection's next drawing.
pub fn set_op(clients: &mut Clients, client: u64, op: Op)
    requires { IsSome (lookup clients.old.entries client) }
    ensures { clients.new.entries ≡ with clients.old.entries client (record (entry_of clients.old.entries client) { op = number op }) }
{
    if let Some(owner) = clients.get_mut(&client) {
        owner.op = op;
    }
}

/// Another image id for a connection's `ctl`.
pub fn describe(clients: &mut Clients, client: u64, id: u32)
    requires { IsSome (lookup clients.old.entries client) }
    ensures { clients.new.entries ≡ with clients.old.entries client (record (entry_of clients.old.entries client) { described = id }) }
{
    if let Some(owner) = clients.get_mut(&client) {
        owner.described = id;
    }
}

/// Puts bytes in the place of those that were pending, and gives these.
pub fn replace_pending(clients: &mut Clients, client: u64, rows: Bytes) -> Bytes
    requires { IsSome (lookup clients.old.entries client) }
    ensures before { result ≡ (entry_of clients.old.entries client).pending }
    ensures after { clients.new.entries ≡ with clients.old.entries client (record (entry_of clients.old.entries client) { pending = rows }) }
{
    match clients.get_mut(&client) {
        Some(owner) => std::mem::replace(&mut owner.pending, rows),
        None => rows,
    }
}

/// The font that an image id of a connection is, where it is one. Its characters are within 2^32 of 0.
pub fn font_of(clients: &Clients, client: u64, id: u32) -> Option<&Font>
    requires { IsSome (lookup clients.now.entries client) }
    ensures found { option_map (λ f. f.now) result ≡ lookup (entry_of clients.now.entries client).fonts id }
    ensures near { IfSome result (λ f. AreWithin (2 ^ 32) f.now.cells) }
{
    let owner = clients.get(&client)?;
    let font = owner.fonts.get(&id)?;
    Some(font.get())
}

/// An image id of a connection becomes a font; the font that it was goes. The font's characters are within 2^32 of 0. After
/// Memory all is as before.
pub fn put_font(clients: &mut Clients, client: u64, id: u32, font: Font) -> Result<(), Memory>
    requires live { IsSome (lookup clients.old.entries client) }
    requires near { AreWithin (2 ^ 32) font.cells }
    ensures ok { OnOk result (clients.new.entries ≡ with clients.old.entries client (record (entry_of clients.old.entries client) { fonts = and (entry_of clients.old.entries client).fonts id font })) }
    ensures kept { OnErr result (clients.new.entries ≡ clients.old.entries) }
{
    if let Some(owner) = clients.get_mut(&client) {
        owner.fonts.insert(id, ClientFont::new(font))?;
    }
    Ok(())
}

/// Another character at an index of the font that an image id of a connection is. Its rectangle is within 2^32 of 0. After
/// Memory all is as before.
pub fn set_cell(
    clients: &mut Clients,
    client: u64,
    id: u32,
    index: u16,
    cell: Cell,
) -> Result<(), Memory>
    requires live { IsSome (lookup clients.old.entries client) }
    requires font { IsSome (lookup (entry_of clients.old.entries client).fonts id) }
    requires index { has_index (font_at (entry_of clients.old.entries client).fonts id) index ≡ true }
    requires near { IsRectNearBy (2 ^ 32) cell.r }
    ensures ok { OnOk result (clients.new.entries ≡ with clients.old.entries client (record (entry_of clients.old.entries client) { fonts = with_character_of (entry_of clients.old.entries client).fonts id index cell })) }
    ensures kept { OnErr result (clients.new.entries ≡ clients.old.entries) }
{
    if let Some(owner) = clients.get_mut(&client) {
        set_character(&mut owner.fonts, id, index, cell)?;
    }
    Ok(())
}

/// An image id of a connection counts no longer for the limit, and is no font any more.
pub fn forget(clients: &mut Clients, client: u64, id: u32)
    requires { IsSome (lookup clients.old.entries client) }
    ensures { clients.new.entries ≡ with clients.old.entries client (forget_id (entry_of clients.old.entries client) id) }
{
    if let Some(owner) = clients.get_mut(&client) {
        owner.sizes.forget(id);
        owner.fonts.remove(&id);
    }
}

/// A connection goes.
pub fn remove(clients: &mut Clients, client: u64)
    ensures { clients.new.entries ≡ without clients.old.entries client }
{
    clients.remove(&client);
}
