//! Screens: images on which windows stand (draw(3)).

ghost use Rattle.model_draw.specs.cost.Cost.{going_all};
ghost use Rattle.model_draw.specs.draw.Making.{free_screen_id, make_screen, screen_named, share_screen};
ghost use Rattle.model_draw_parts.specs.images.Book.{fill_of, image_of, is_screen_id_taken, public, screen_numbered};
ghost use Rattle.model_draw_parts.specs.images.Release.{free_screen};
ghost use Rattle.model_text.specs.text.Map.{lookup};
ghost use Rattle.r9_device.specs.device.Live.{IsLiveIn};
ghost use Rattle.r9_draw.specs.messages.Plans.{CanScreen, after_free_screen, after_make_screen, after_share, screen_freed_by};
ghost use Rattle.r9_device.specs.device.World.{moment_of, world_of, writes_of};
ghost use Rattle.std.specs.Prelude.{Err, IfErr, IfOk, IfSome, IsSome, Ok, OnErr, OnOk, is_ok, is_some, not, true, ◌+◌, ◌==◌, ◌≡◌, ◌≤◌};

use crate::messages::plan::Screening;
use model_draw_parts::images::free_screen_frees;
use r9_device::device::{Device, release};
use r9_layers::ImageNo;
use r9_marks::steps::Steps;
use r9_memory::Memory;
use std::sync::ledger::Ledger;

// How deep an image may stand that is made a screen.
const DEEPEST_SCREEN: u32 = 15;

// The screen of an id, or none where it is 0.
pub(crate) fn screen_named(device: &Device, client: u64, id: u32) -> Result<Option<u32>, u8>
    ensures found { IfOk result (λ s. screen_named (world_of device.now) client id ≡ Ok s) }
    ensures there { IfOk result (λ s. IfSome s (λ n. is_some (screen_numbered (world_of device.now).book n) ≡ true)) }
    ensures image { IfOk result (λ s. IfSome s (λ n. IsLiveIn (world_of device.now) (image_of (world_of device.now).book n))) }
    ensures fill { IfOk result (λ s. IfSome s (λ n. IsLiveIn (world_of device.now) (fill_of (world_of device.now).book n))) }
    ensures named { IfOk result (λ s. is_some s ≡ not (id == 0)) }
    ensures refused { IfErr result (λ n. screen_named (world_of device.now) client id ≡ Err n) }
{
    if id == 0 {
        return Ok(None);
    }
    let screen = device.book.screen(client, id)?;
    Ok(Some(screen))
}

// Whether the connection has the screen id, or it is to be public and there is a public screen of it.
#[tactic(auto, unfolding(model_draw_parts::specs::images::Book::screen, model_draw_parts::specs::images::Book::public))]
pub(crate) fn is_screen_taken(device: &Device, client: u64, id: u32, public: bool) -> bool
    ensures { result ≡ is_screen_id_taken (world_of device.now).book client id public }
{
    device.book.screen(client, id).is_ok() || public && device.book.public(id).is_ok()
}

// `A`.
#[tactic(auto, unfolding(model_draw::specs::draw::Making::make_screen, crate::specs::messages::Plans::after_make_screen))]
pub(crate) fn screening(
    device: &Device,
    client: u64,
    id: u32,
    imageid: u32,
    fillid: u32,
    public: bool,
) -> Result<Screening, u8>
    ensures made { IfOk result (λ s. make_screen client (world_of device.now) id imageid fillid public ≡ Ok (after_make_screen client (world_of device.now) s)) }
    ensures ready { IfOk result (λ s. CanScreen (world_of device.now) s) }
    ensures refused { IfErr result (λ n. make_screen client (world_of device.now) id imageid fillid public ≡ Err n) }
{
    if id == 0 {
        return Err(23);
    }
    if is_screen_taken(device, client, id, public) {
        return Err(7);
    }
    let image = device.look(client, imageid)?;
    let fill = device.look(client, fillid)?;
    let info = device.forest.info(image);
    if info.repl {
        return Err(11);
    }
    if info.depth > DEEPEST_SCREEN {
        return Err(23);
    }
    Ok(Screening {
        id,
        public,
        image,
        fill,
    })
}

// The public screen of an id.
pub(crate) fn public_screen(device: &Device, id: u32) -> Result<u32, u8>
    ensures found { IfOk result (λ s. public (world_of device.now).book id ≡ Ok s) }
    ensures there { IfOk result (λ s. is_some (screen_numbered (world_of device.now).book s) ≡ true) }
    ensures image { IfOk result (λ s. IsLiveIn (world_of device.now) (image_of (world_of device.now).book s)) }
    ensures refused { IfErr result (λ n. public (world_of device.now).book id ≡ Err n) }
{
    let screen = device.book.public(id)?;
    Ok(screen)
}

// `S`.
#[tactic(auto, unfolding(model_draw::specs::draw::Making::share_screen, crate::specs::messages::Plans::after_share))]
pub(crate) fn sharing(device: &Device, client: u64, id: u32, chan: u32) -> Result<u32, u8>
    ensures shared { IfOk result (λ s. share_screen client (world_of device.now) id chan ≡ Ok (after_share client (world_of device.now) id s)) }
    ensures ready { IfOk result (λ s. is_some (screen_numbered (world_of device.now).book s) ≡ true) }
    ensures refused { IfErr result (λ n. share_screen client (world_of device.now) id chan ≡ Err n) }
{
    if id == 0 {
        return Err(23);
    }
    if is_screen_taken(device, client, id, false) {
        return Err(7);
    }
    let screen = public_screen(device, id)?;
    let image = ImageNo(device.book.image_of(screen));
    if device.forest.info(image).chan.word() != chan {
        return Err(11);
    }
    Ok(screen)
}

// `F`.
#[tactic(auto, unfolding(model_draw::specs::draw::Making::free_screen_id, crate::specs::messages::Plans::after_free_screen, model_draw_parts::specs::images::Release::free_screen, model_draw_parts::specs::images::Book::screen))]
pub(crate) fn free_screen(device: &Device, client: u64, id: u32) -> Result<(), u8>
    ensures freed { OnOk result (free_screen_id client (world_of device.now) id ≡ Ok (after_free_screen client (world_of device.now) id)) }
    ensures ready { OnOk result (is_ok (free_screen (world_of device.now).book client id) ≡ true) }
    ensures refused { IfErr result (λ n. free_screen_id client (world_of device.now) id ≡ Err n) }
{
    device.book.screen(client, id)?;
    Ok(())
}

// `A`.
#[tactic(auto, unfolding(crate::specs::messages::Plans::after_make_screen))]
pub(crate) fn make_screen(
    device: &mut Device,
    client: u64,
    screening: &Screening,
) -> Result<(), Memory>
    requires { CanScreen (world_of device.old) screening.now }
    ensures made { OnOk result (world_of device.new ≡ after_make_screen client (world_of device.old) screening.now) }
    ensures kept { OnErr result (world_of device.new ≡ world_of device.old) }
    ensures moment { moment_of device.new ≡ moment_of device.old }
    ensures writes { writes_of device.new ≡ writes_of device.old }
{
    let Screening {
        id,
        public,
        image,
        fill,
    } = *screening;
    match device.book.new_screen(client, id, public, image.0, fill.0) {
        Ok(_) => Ok(()),
        Err(_) => Err(Memory),
    }
}

// `S`.
#[tactic(auto, unfolding(crate::specs::messages::Plans::after_share))]
pub(crate) fn share_screen(
    device: &mut Device,
    client: u64,
    id: u32,
    screen: u32,
) -> Result<(), Memory>
    requires { is_some (screen_numbered (world_of device.old).book screen) ≡ true }
    ensures shared { OnOk result (world_of device.new ≡ after_share client (world_of device.old) id screen) }
    ensures kept { OnErr result (world_of device.new ≡ world_of device.old) }
    ensures moment { moment_of device.new ≡ moment_of device.old }
    ensures writes { writes_of device.new ≡ writes_of device.old }
{
    match device.book.add_screen(client, id, screen, false) {
        Ok(()) => Ok(()),
        Err(_) => Err(Memory),
    }
}

// `F`.
#[tactic(auto, unfolding(crate::specs::messages::Plans::after_free_screen))]
pub(crate) fn free_screen_id<L: Ledger>(
    device: &mut Device,
    client: u64,
    id: u32,
    steps: &mut Steps<L>,
) -> Result<(), Memory>
    requires live { IsSome (lookup (world_of device.old).clients client) }
    requires ready { is_ok (free_screen (world_of device.old).book client id) ≡ true }
    ensures freed { OnOk result (world_of device.new ≡ after_free_screen client (world_of device.old) id) }
    ensures kept { OnErr result (world_of device.new ≡ world_of device.old) }
    ensures steps { steps.new ≤ steps.old + going_all (world_of device.old).images (screen_freed_by (world_of device.old) client id).gone }
    ensures uncounted { OnErr result (steps.new ≡ steps.old) }
    ensures moment { moment_of device.new ≡ moment_of device.old }
    ensures writes { writes_of device.new + steps.old ≡ writes_of device.old + steps.new }
{
    free_screen_frees();
    device.forest.keeps();
    let Ok(gone) = device.book.free_screen(client, id) else {
        return Err(Memory);
    };
    release(&mut device.forest, gone.as_slice(), steps);
    Ok(())
}
