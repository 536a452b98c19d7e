//! Images that are made, freed, and made to repeat or not (draw(3)).

ghost use Rattle.model_draw.specs.cost.Cost.{coming, going_all};
ghost use Rattle.model_draw.specs.draw.Making.{allocate, clashes, fill_raw, free_image, is_too_large, overhead, set_clip, with_size};
ghost use Rattle.model_draw.specs.draw.World.{Client as Connection, client_of, with_images};
ghost use Rattle.model_forest.specs.World.{IsLive};
ghost use Rattle.model_forest.specs.Numbers.{next_number, taken};
ghost use Rattle.model_forest.specs.Steps.{after_set};
ghost use Rattle.model_draw_parts.specs.images.Book.{add_id, image_of, is_image_id_taken, screen_numbered};
ghost use Rattle.model_draw_parts.specs.images.Release.{free_id};
ghost use Rattle.model_pixel.specs.Channels as channels;
ghost use Rattle.model_pixel.specs.Channels.{is_descriptor};
ghost use Rattle.model_text.specs.text.Map.{lookup, with};
ghost use Rattle.r9_chan.specs.Op.{number};
ghost use Rattle.r9_device.specs.client.Clients.{entry_of};
ghost use Rattle.r9_device.specs.device.Live.{CanHold, IsLiveIn};
ghost use Rattle.r9_draw.specs.messages.Costs.{making_cost};
ghost use Rattle.r9_draw.specs.messages.Plans.{CanMake, CanSet, after_free, after_make, freed_by, images_made, one_pixel, screen_for};
ghost use Rattle.r9_device.specs.device.World.{moment_of, world_of, writes_of};
ghost use Rattle.r9_geom.specs.Geometry.{HasPoints, IsRectNearBy};
ghost use Rattle.r9_layers.specs.Forest.{moment, numbers, room, world, writes};
ghost use Rattle.std.specs.List.{sum_by};
ghost use Rattle.std.specs.Prelude.{ℕ, Err, IfErr, IfNone, IfOk, IfSome, IsSome, None, Ok, OnErr, OnOk, false, if◌then◌else◌, is_ok, is_some, not, true, ◌+◌, ◌<◌, ◌==◌, ◌^◌, ◌≡◌, ◌≤◌};

use crate::messages::lookup::rows_len;
use crate::messages::plan::Making;
use crate::messages::screen::screen_named;
use model_draw_parts::images::free_id_frees;
use r9_chan::{Chan, Colour};
use r9_device::client::{Client, Clients, forget};
use r9_device::device::{DISPLAY, Device, is_near_rect, release};
use r9_geom::Rect;
use r9_images::images::Book;
use r9_layers::{Forest, ImageNo};
use r9_marks::steps::Steps;
use r9_memory::Memory;
use std::sync::ledger::Ledger;

/// What `b` asks for.
#[derive(Clone, Copy)]
pub(crate) struct Asked {
    pub id: u32,
    pub screenid: u32,
    pub refresh: u8,
    pub chan: u32,
    pub repl: bool,
    pub r: Rect,
    pub clipr: Rect,
    pub color: u32,
}

// Most bytes of one image, and most of all that a connection made with what each counts beside.
const MOST_BYTES: u64 = 1 << 24;

const MOST_TOTAL: u64 = 1 << 25;

/// What an image counts beside its rows.
pub(crate) const OVERHEAD: u32 = 256;

// The colour word that asks for zero bits.
const NO_COLOR: u32 = 0xffff_ff00;

// The channels of a word, where it is a descriptor.
pub(crate) fn chan_of(word: u32) -> Option<Chan>
    ensures known { IfSome result (λ chan. chan ≡ word) }
    ensures lawful { IsSome result → is_descriptor word ≡ true }
    ensures unknown { IfNone result (is_descriptor word ≡ false) }
{
    match Chan::from_word(word) {
        Ok(chan) => Some(chan),
        Err(_) => None,
    }
}

// The raw pixel of a new image.
fn fill_raw(chan: Chan, color: u32) -> u32
    ensures value { result ≡ fill_raw chan color }
    ensures range { result < 2 ^ channels.depth chan }
{
    if color == NO_COLOR {
        return 0;
    }
    chan.pack(Colour::of_word(color))
}

// The image of `b`, topmost on its screen where it has one.
fn one_pixel<L: Ledger>(
    forest: &mut Forest,
    book: &Book,
    making: &Making,
    steps: &mut Steps<L>,
) -> Result<ImageNo, Memory>
    requires near { IsRectNearBy (2 ^ 32) making.now.r }
    requires points { HasPoints making.now.r }
    requires raw { making.now.raw < 2 ^ channels.depth making.now.chan }
    requires screen { IfSome making.now.screen (λ s. CanHold (world forest.old) book.now.book s making.now.chan) }
    ensures number { IfOk result (λ i. i.0 ≡ next_number (numbers forest.old)) }
    ensures free { IfOk result (λ i. world forest.old i.0 ≡ None) }
    ensures made { IfOk result (λ i. world forest.new ≡ one_pixel (world forest.old) book.now.book i.0 making.now.screen making.now.r making.now.chan making.now.raw) }
    ensures taken { OnOk result (numbers forest.new ≡ taken (numbers forest.old)) }
    ensures room { room forest.old ≤ room forest.new }
    ensures kept_images { OnErr result (world forest.new ≡ world forest.old) }
    ensures kept_numbers { OnErr result (numbers forest.new ≡ numbers forest.old) }
    ensures steps { steps.new ≤ steps.old + making_cost making.now }
    ensures uncounted { OnErr result (steps.new ≡ steps.old) }
    ensures moment { (j : ℕ) → IsLive (world forest.old) j → moment forest.new j ≡ moment forest.old j }
    ensures writes { writes forest.new + steps.old ≡ writes forest.old + steps.new }
{
    match making.screen {
        None => forest.image(making.r, making.chan, making.raw),
        Some(screen) => {
            let parent = ImageNo(book.image_of(screen));
            let fill = ImageNo(book.fill_of(screen));
            forest.window(parent, fill, making.r, making.raw, steps)
        }
    }
}

// `b` for a connection: the image, its id, and what it counts. Room for these is made first, so that nothing is half done.
#[tactic(auto, unfolding(crate::specs::messages::Plans::after_make))]
fn make<L: Ledger>(
    forest: &mut Forest,
    book: &mut Book,
    owner: &mut Client,
    client: u64,
    making: &Making,
    steps: &mut Steps<L>,
) -> Result<(), Memory>
    requires near { IsRectNearBy (2 ^ 32) making.now.r }
    requires points { HasPoints making.now.r }
    requires clip { IsRectNearBy (2 ^ 33) making.now.clipr }
    requires raw { making.now.raw < 2 ^ channels.depth making.now.chan }
    requires fits { sum_by (λ e. e.1) owner.old.sizes + making.now.len + overhead ≤ 2 ^ 25 }
    requires fresh { is_image_id_taken book.old.book client making.now.id ≡ false }
    requires screen { IfSome making.now.screen (λ s. CanHold (world forest.old) book.old.book s making.now.chan) }
    ensures images { OnOk result (world forest.new ≡ images_made (world forest.old) book.old.book (next_number (numbers forest.old)) making.now) }
    ensures free { OnOk result (world forest.old (next_number (numbers forest.old)) ≡ None) }
    ensures numbers { OnOk result (numbers forest.new ≡ taken (numbers forest.old)) }
    ensures book { OnOk result (add_id book.old.book client making.now.id (next_number (numbers forest.old)) making.now.screen ≡ Ok book.new.book) }
    ensures owner { OnOk result (owner.new ≡ with_size owner.old making.now.id making.now.len) }
    ensures room { room forest.old ≤ room forest.new }
    ensures kept_images { OnErr result (world forest.new ≡ world forest.old) }
    ensures kept_numbers { OnErr result (numbers forest.new ≡ numbers forest.old) }
    ensures kept_book { OnErr result (book.new.book ≡ book.old.book) }
    ensures kept_owner { OnErr result (owner.new ≡ owner.old) }
    ensures steps { steps.new ≤ steps.old + making_cost making.now }
    ensures uncounted { OnErr result (steps.new ≡ steps.old) }
    ensures moment { (j : ℕ) → IsLive (world forest.old) j → moment forest.new j ≡ moment forest.old j }
    ensures writes { writes forest.new + steps.old ≡ writes forest.old + steps.new }
{
    owner.sizes.reserve()?;
    book.reserve()?;
    let image = one_pixel(forest, book, making, steps)?;
    forest.set(image, making.repl, making.clipr);
    match book.add_id(client, making.id, image.0, making.screen) {
        Ok(()) => {}
        Err(_) => unreachable!(),
    }
    owner.sizes.set(making.id, making.len + OVERHEAD);
    Ok(())
}

// The same for the connection of a number.
fn make_for<L: Ledger>(
    forest: &mut Forest,
    book: &mut Book,
    clients: &mut Clients,
    client: u64,
    making: &Making,
    steps: &mut Steps<L>,
) -> Result<(), Memory>
    requires live { IsSome (lookup clients.old.entries client) }
    requires near { IsRectNearBy (2 ^ 32) making.now.r }
    requires points { HasPoints making.now.r }
    requires clip { IsRectNearBy (2 ^ 33) making.now.clipr }
    requires raw { making.now.raw < 2 ^ channels.depth making.now.chan }
    requires fits { sum_by (λ e. e.1) (entry_of clients.old.entries client).sizes + making.now.len + overhead ≤ 2 ^ 25 }
    requires fresh { is_image_id_taken book.old.book client making.now.id ≡ false }
    requires screen { IfSome making.now.screen (λ s. CanHold (world forest.old) book.old.book s making.now.chan) }
    ensures images { OnOk result (world forest.new ≡ images_made (world forest.old) book.old.book (next_number (numbers forest.old)) making.now) }
    ensures free { OnOk result (world forest.old (next_number (numbers forest.old)) ≡ None) }
    ensures numbers { OnOk result (numbers forest.new ≡ taken (numbers forest.old)) }
    ensures book { OnOk result (add_id book.old.book client making.now.id (next_number (numbers forest.old)) making.now.screen ≡ Ok book.new.book) }
    ensures clients { (owner : Connection) × (clients.new.entries ≡ with clients.old.entries client owner) × OnOk result (owner ≡ with_size (entry_of clients.old.entries client) making.now.id making.now.len) × OnErr result (owner ≡ entry_of clients.old.entries client) }
    ensures room { room forest.old ≤ room forest.new }
    ensures kept_images { OnErr result (world forest.new ≡ world forest.old) }
    ensures kept_numbers { OnErr result (numbers forest.new ≡ numbers forest.old) }
    ensures kept_book { OnErr result (book.new.book ≡ book.old.book) }
    ensures steps { steps.new ≤ steps.old + making_cost making.now }
    ensures uncounted { OnErr result (steps.new ≡ steps.old) }
    ensures moment { (j : ℕ) → IsLive (world forest.old) j → moment forest.new j ≡ moment forest.old j }
    ensures writes { writes forest.new + steps.old ≡ writes forest.old + steps.new }
{
    match clients.get_mut(&client) {
        Some(owner) => make(forest, book, owner, client, making, steps),
        None => unreachable!(),
    }
}

// Whether the images of the connection count too much with one more whose rows have so many bytes.
pub(crate) fn is_too_large(device: &Device, client: u64, len: u64) -> bool
    requires { IsSome (lookup (world_of device.now).clients client) }
    ensures { result ≡ is_too_large (client_of (world_of device.now) client) len }
{
    let Some(owner) = device.clients.get(&client) else {
        return true;
    };
    let total = owner.sizes.total();
    len > MOST_BYTES || total > MOST_TOTAL || total + len + u64::from(OVERHEAD) > MOST_TOTAL
}

// Whether a window on a screen would differ from its image, or repeat.
pub(crate) fn clashes(device: &Device, chan: Chan, repl: bool, screen: u32) -> bool
    requires there { is_some (screen_numbered (world_of device.now).book screen) ≡ true }
    requires live { IsLiveIn (world_of device.now) (image_of (world_of device.now).book screen) }
    ensures { result ≡ clashes (world_of device.now) chan repl screen }
{
    let image = ImageNo(device.book.image_of(screen));
    repl || chan.word() != device.forest.info(image).chan.word()
}

// The screen of an id for a window of these channels, which repeats or not, or none where the id is 0.
#[tactic(auto, unfolding(crate::specs::messages::Plans::screen_for))]
pub(crate) fn screen_for(
    device: &Device,
    client: u64,
    id: u32,
    chan: Chan,
    repl: bool,
) -> Result<Option<u32>, u8>
    ensures found { IfOk result (λ s. screen_for client (world_of device.now) id chan repl ≡ Ok s) }
    ensures holds { IfOk result (λ s. IfSome s (λ n. CanHold (world_of device.now).images (world_of device.now).book n chan)) }
    ensures named { IfOk result (λ s. is_some s ≡ not (id == 0)) }
    ensures refused { IfErr result (λ n. screen_for client (world_of device.now) id chan repl ≡ Err n) }
{
    let named = screen_named(device, client, id)?;
    match named {
        Some(screen) if clashes(device, chan, repl, screen) => Err(11),
        _ => Ok(named),
    }
}

// `b`.
#[tactic(auto, unfolding(model_draw::specs::draw::Making::allocate, crate::specs::messages::Plans::after_make))]
pub(crate) fn allocate(device: &Device, client: u64, asked: &Asked) -> Result<Making, u8>
    requires live { IsSome (lookup (world_of device.now).clients client) }
    requires clip { IsRectNearBy (2 ^ 33) asked.now.clipr }
    ensures made { IfOk result (λ m. allocate client (world_of device.now) asked.now.id asked.now.screenid asked.now.refresh asked.now.chan asked.now.repl asked.now.r asked.now.clipr asked.now.color ≡ Ok (after_make client (world_of device.now) m)) }
    ensures ready { IfOk result (λ m. CanMake client (world_of device.now) m) }
    ensures cost { IfOk result (λ m. making_cost m ≡ (if asked.now.screenid == 0 then 0 else coming asked.now.r)) }
    ensures refused { IfErr result (λ n. allocate client (world_of device.now) asked.now.id asked.now.screenid asked.now.refresh asked.now.chan asked.now.repl asked.now.r asked.now.clipr asked.now.color ≡ Err n) }
{
    if asked.id == 0 || device.knows(client, asked.id) {
        return Err(6);
    }
    if asked.refresh > 2 {
        return Err(23);
    }
    let Some(chan) = chan_of(asked.chan) else {
        return Err(8);
    };
    if asked.r.is_empty() || !is_near_rect(&asked.r) {
        return Err(9);
    }
    let len = match rows_len(chan, &asked.r) {
        Some(len) if !is_too_large(device, client, len) => len,
        _ => return Err(10),
    };
    let screen = screen_for(device, client, asked.screenid, chan, asked.repl)?;
    Ok(Making {
        id: asked.id,
        screen,
        chan,
        repl: asked.repl,
        r: asked.r,
        clipr: asked.clipr,
        raw: fill_raw(chan, asked.color),
        len: len as u32,
    })
}

// `c`.
#[tactic(auto, unfolding(model_draw::specs::draw::Making::set_clip))]
pub(crate) fn set_clip(
    device: &Device,
    client: u64,
    dstid: u32,
    repl: bool,
    clipr: &Rect,
) -> Result<ImageNo, u8>
    requires near { IsRectNearBy (2 ^ 33) clipr.now }
    ensures set { IfOk result (λ i. set_clip client (world_of device.now) dstid repl clipr.now ≡ Ok (with_images (world_of device.now) (after_set (world_of device.now).images i.0 repl clipr.now))) }
    ensures ready { IfOk result (λ i. CanSet (world_of device.now) i.0 repl clipr.now) }
    ensures refused { IfErr result (λ n. set_clip client (world_of device.now) dstid repl clipr.now ≡ Err n) }
{
    let dst = device.look(client, dstid)?;
    if dst.0 == DISPLAY {
        return Err(23);
    }
    if repl && (device.book.screen_of(dst.0).is_some() || device.book.has_screen(dst.0)) {
        return Err(11);
    }
    Ok(dst)
}

// `f`.
#[tactic(auto, unfolding(model_draw::specs::draw::Making::free_image, crate::specs::messages::Plans::after_free, model_draw_parts::specs::images::Release::free_id))]
pub(crate) fn free(device: &Device, client: u64, id: u32) -> Result<(), u8>
    requires live { IsSome (lookup (world_of device.now).clients client) }
    ensures freed { OnOk result (free_image client (world_of device.now) id ≡ Ok (after_free client (world_of device.now) id)) }
    ensures ready { OnOk result (is_ok (free_id (world_of device.now).book client id) ≡ true) }
    ensures refused { IfErr result (λ n. free_image client (world_of device.now) id ≡ Err n) }
{
    if id == 0 {
        return Err(23);
    }
    if !device.knows(client, id) {
        return Err(4);
    }
    Ok(())
}

// `b`.
#[tactic(auto, unfolding(crate::specs::messages::Plans::after_make))]
pub(crate) fn make_image<L: Ledger>(
    device: &mut Device,
    client: u64,
    making: &Making,
    steps: &mut Steps<L>,
) -> Result<(), Memory>
    requires live { IsSome (lookup (world_of device.old).clients client) }
    requires ready { CanMake client (world_of device.old) making.now }
    ensures made { OnOk result (world_of device.new ≡ after_make client (world_of device.old) making.now) }
    ensures kept { OnErr result (world_of device.new ≡ world_of device.old) }
    ensures steps { steps.new ≤ steps.old + making_cost making.now }
    ensures uncounted { OnErr result (steps.new ≡ steps.old) }
    ensures moment { moment_of device.new ≡ moment_of device.old }
    ensures writes { writes_of device.new + steps.old ≡ writes_of device.old + steps.new }
{
    make_for(
        &mut device.forest,
        &mut device.book,
        &mut device.clients,
        client,
        making,
        steps,
    )
}

// `c`.
pub(crate) fn clip(device: &mut Device, image: ImageNo, repl: bool, clipr: Rect)
    requires { CanSet (world_of device.old) image.0 repl clipr }
    ensures world { world_of device.new ≡ with_images (world_of device.old) (after_set (world_of device.old).images image.0 repl clipr) }
    ensures moment { moment_of device.new ≡ moment_of device.old }
    ensures writes { writes_of device.new ≡ writes_of device.old }
{
    device.forest.set(image, repl, clipr);
}

// `f`.
#[tactic(auto, unfolding(crate::specs::messages::Plans::after_free))]
pub(crate) fn free_id<L: Ledger>(
    device: &mut Device,
    client: u64,
    id: u32,
    steps: &mut Steps<L>,
) -> Result<(), Memory>
    requires live { IsSome (lookup (world_of device.old).clients client) }
    requires ready { is_ok (free_id (world_of device.old).book client id) ≡ true }
    ensures freed { OnOk result (world_of device.new ≡ after_free client (world_of device.old) id) }
    ensures kept { OnErr result (world_of device.new ≡ world_of device.old) }
    ensures steps { steps.new ≤ steps.old + going_all (world_of device.old).images (freed_by (world_of device.old) client id).gone }
    ensures uncounted { OnErr result (steps.new ≡ steps.old) }
    ensures moment { moment_of device.new ≡ moment_of device.old }
    ensures writes { writes_of device.new + steps.old ≡ writes_of device.old + steps.new }
{
    free_id_frees();
    device.forest.keeps();
    let Ok(gone) = device.book.free_id(client, id) else {
        return Err(Memory);
    };
    release(&mut device.forest, gone.as_slice(), steps);
    forget(&mut device.clients, client, id);
    Ok(())
}
