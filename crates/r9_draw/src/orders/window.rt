//! Windows that come, move, get another image, and go.

ghost use Rattle.model_draw.specs.cost.Cost.{border, coming, dropping, going_all, moving, rect_shown, replacing};
ghost use Rattle.model_draw.specs.draw.Orders.{bordered, corner, fits, new_white, replace_window, drop_window, has_rio, has_window, image_freed, image_shown, is_near_point, is_window_rect, make_window, place_window, rio_screen, white, with_window_id, with_window_name};
ghost use Rattle.model_draw.specs.draw.Making.{with_made};
ghost use Rattle.model_draw.specs.draw.World.{after_freed, at_number, next_image, with_book, with_images};
ghost use Rattle.model_forest.specs.Stack.{after_lower, after_raise};
ghost use Rattle.model_forest.specs.Steps.{after_origin, carried_rect, outside};
ghost use Rattle.model_draw_parts.specs.images.Book.{fill_of, image_id, image_of};
ghost use Rattle.model_draw_parts.specs.images.Release.{is_used};
ghost use Rattle.model_draw_parts.specs.declared.images.Thing.TheVariants.{Screen};
ghost use Rattle.r9_draw.specs.orders.Ordering.{CanReplace, IsNext, StandsAt, is_used_by_id, renewed, renewing, with_white};
ghost use Rattle.r9_device.specs.device.Live.{IsLiveIn};
ghost use Rattle.r9_device.specs.device.World.{moment_of, world_of, writes_of};
ghost use Rattle.r9_event.specs.declared.event.rio.Order.TheVariants.{Replace};
ghost use Rattle.r9_geom.specs.Geometry.{HasPoints, IsRectNearBy, at_min};
ghost use Rattle.std.specs.Prelude.{IfOk, IfSome, List, OnErr, OnOk, [], false, is_none, is_some, true, ℕ, ◌+◌, ◌<◌, ◌==◌, ◌^◌, ◌≡◌, ◌≤◌, ◌∷◌};

use crate::orders::going::{drop_alone, goes_unseen};
use crate::orders::image::{add_border, add_window, put_white, tie_window};
use crate::orders::next::{Next, next_window};
use crate::orders::rects::OUTSIDE;
use crate::orders::rio::close_rio;
use crate::orders::there::{can_come, has_rio, rio_screen, window_shown};
use model_draw_parts::images::free_id_frees;
use r9_device::device::{Device, release};
use r9_geom::{Point, Rect};
use r9_images::images::BookFault;
use r9_layers::ImageNo;
use r9_marks::steps::Steps;
use r9_memory::Memory;
use std::sync::ledger::Ledger;

// The window's image gets another corner on the image that it stands on.
pub(crate) fn place_window<L: Ledger>(
    device: &mut Device,
    window: u32,
    at: Point,
    steps: &mut Steps<L>,
) -> Result<(), Memory>
    requires { is_near_point at ≡ true }
    ensures placed { OnOk result (world_of device.new ≡ place_window (world_of device.old) window at) }
    ensures kept { OnErr result (world_of device.new ≡ world_of device.old) }
    ensures steps { steps.new ≤ steps.old + moving (rect_shown (world_of device.old) window) }
    ensures moment { moment_of device.new ≡ moment_of device.old }
    ensures writes { writes_of device.new + steps.old ≡ writes_of device.old + steps.new }
{
    device.forest.keeps();
    let image = device.image_shown(window);
    let min = device.rect(image).min;
    device.forest.origin(image, min, at, steps)
}

// The image id of a window goes.
fn free_window<L: Ledger>(
    device: &mut Device,
    window: u32,
    steps: &mut Steps<L>,
) -> Result<(), Memory>
    requires { (window == 0) ≡ false }
    ensures freed { OnOk result (world_of device.new ≡ after_freed (world_of device.old) (image_freed (world_of device.old).book window)) }
    ensures kept { OnErr result (world_of device.new ≡ world_of device.old) }
    ensures steps { OnOk result (steps.new ≤ steps.old + going_all (world_of device.old).images (image_freed (world_of device.old).book window).gone) }
    ensures moment { moment_of device.new ≡ moment_of device.old }
    ensures writes { writes_of device.new + steps.old ≡ writes_of device.old + steps.new }
{
    free_id_frees();
    device.forest.keeps();
    match device.book.free_id(0, window) {
        Ok(gone) => {
            release(&mut device.forest, gone.as_slice(), steps);
            Ok(())
        }
        Err(BookFault::Refused(_)) => Ok(()),
        Err(BookFault::Memory) => Err(Memory),
    }
}

// A window goes, and the screen of the rio in it, where there is one.
#[tactic(auto, unfolding(model_draw::specs::draw::Orders::drop_window))]
pub(crate) fn drop_window<L: Ledger>(
    device: &mut Device,
    window: u32,
    steps: &mut Steps<L>,
) -> Result<(), Memory>
    requires { has_window (world_of device.old) window ≡ true }
    ensures dropped { OnOk result (world_of device.new ≡ drop_window (world_of device.old) window) }
    ensures steps { OnOk result (steps.new ≤ steps.old + dropping (world_of device.old) window) }
    ensures moment { moment_of device.new ≡ moment_of device.old }
    ensures writes { writes_of device.new + steps.old ≡ writes_of device.old + steps.new }
{
    if !has_rio(device, window) {
        return drop_alone(device, window, steps);
    }
    place_window(device, window, OUTSIDE, steps)?;
    close_rio(device, window, steps)?;
    free_window(device, window, steps)
}

// The window comes to the top of its rio.
pub(crate) fn raise_window<L: Ledger>(
    device: &mut Device,
    window: u32,
    steps: &mut Steps<L>,
) -> Result<(), Memory>
    requires { has_window (world_of device.old) window ≡ true }
    ensures raised { OnOk result (world_of device.new ≡ with_images (world_of device.old) (after_raise (world_of device.old).images (image_shown (world_of device.old) window ∷ []))) }
    ensures steps { steps.new ≤ steps.old + moving (rect_shown (world_of device.old) window) }
    ensures moment { moment_of device.new ≡ moment_of device.old }
    ensures writes { writes_of device.new + steps.old ≡ writes_of device.old + steps.new }
{
    device.forest.keeps();
    let image = device.image_shown(window);
    device.forest.raise(&[image], steps)
}

// The window goes to the bottom of its rio.
pub(crate) fn lower_window<L: Ledger>(
    device: &mut Device,
    window: u32,
    steps: &mut Steps<L>,
) -> Result<(), Memory>
    requires { has_window (world_of device.old) window ≡ true }
    ensures lowered { OnOk result (world_of device.new ≡ with_images (world_of device.old) (after_lower (world_of device.old).images (image_shown (world_of device.old) window ∷ []))) }
    ensures steps { steps.new ≤ steps.old + moving (rect_shown (world_of device.old) window) }
    ensures moment { moment_of device.new ≡ moment_of device.old }
    ensures writes { writes_of device.new + steps.old ≡ writes_of device.old + steps.new }
{
    device.forest.keeps();
    let image = device.image_shown(window);
    device.forest.lower(&[image], steps)
}

// A white image comes, topmost on a screen, and has the id of a window.
fn add_white<L: Ledger>(
    device: &mut Device,
    window: u32,
    screen: u32,
    place: Rect,
    steps: &mut Steps<L>,
) -> Result<ImageNo, Memory>
    requires fresh { is_none (image_id (world_of device.old).book 0 window) ≡ true }
    requires screen { is_used (world_of device.old).book (Screen screen) ≡ true }
    requires near { IsRectNearBy (2 ^ 32) place }
    requires points { HasPoints place }
    ensures number { IfOk result (λ i. i.0 ≡ next_image (world_of device.old)) }
    ensures made { OnOk result (world_of device.new ≡ with_white (world_of device.old) window screen place) }
    ensures live { IfOk result (λ i. IsLiveIn (world_of device.new) i.0) }
    ensures rect { IfOk result (λ i. (at_number (world_of device.new) i.0).r ≡ place) }
    ensures stands { IfOk result (λ i. StandsAt (world_of device.new).images i.0 place) }
    ensures kept { OnErr result (world_of device.new ≡ world_of device.old) }
    ensures steps { steps.new ≤ steps.old + coming place }
    ensures moment { moment_of device.new ≡ moment_of device.old }
    ensures writes { writes_of device.new + steps.old ≡ writes_of device.old + steps.new }
{
    put_white(
        &mut device.forest,
        &mut device.book,
        window,
        screen,
        place,
        steps,
    )
}

// An image gets a corner of its own coordinates, and stands far outside.
fn hide_image<L: Ledger>(
    device: &mut Device,
    image: ImageNo,
    min: Point,
    steps: &mut Steps<L>,
) -> Result<(), Memory>
    requires live { IsLiveIn (world_of device.old) image.0 }
    requires near { IsRectNearBy (2 ^ 32) (at_min (at_number (world_of device.old) image.0).r min) }
    ensures moved { OnOk result (world_of device.new ≡ with_images (world_of device.old) (after_origin (world_of device.old).images image.0 min outside)) }
    ensures live { IsLiveIn (world_of device.new) image.0 }
    ensures rect { OnOk result ((at_number (world_of device.new) image.0).r ≡ carried_rect (at_number (world_of device.old) image.0).r (at_number (world_of device.old) image.0).r.min min) }
    ensures kept { OnErr result (world_of device.new ≡ world_of device.old) }
    ensures still { StandsAt (world_of device.old).images image.0 (carried_rect (at_number (world_of device.old) image.0).r (at_number (world_of device.old) image.0).r.min outside) → steps.new ≡ steps.old }
    ensures moment { moment_of device.new ≡ moment_of device.old }
    ensures writes { writes_of device.new + steps.old ≡ writes_of device.old + steps.new }
{
    device.forest.keeps();
    device.forest.origin(image, min, OUTSIDE, steps)
}

// An image gets the border of a window.
fn frame<L: Ledger>(device: &mut Device, image: ImageNo, steps: &mut Steps<L>)
    requires { IsLiveIn (world_of device.old) image.0 }
    ensures framed { world_of device.new ≡ with_images (world_of device.old) (bordered (world_of device.old).images image.0) }
    ensures steps { steps.new ≤ steps.old + border (at_number (world_of device.old) image.0).r }
    ensures moment { moment_of device.new ≡ moment_of device.old }
    ensures writes { writes_of device.new + steps.old ≡ writes_of device.old + steps.new }
{
    add_border(&mut device.forest, image, steps);
}

// A window has a name from now on, unless another has it.
fn name_window(device: &mut Device, window: u32, name: &[u8]) -> Result<(), Memory>
    ensures named { OnOk result (world_of device.new ≡ with_book (world_of device.old) (with_window_name (world_of device.old).book window name.now)) }
    ensures kept { OnErr result (world_of device.new ≡ world_of device.old) }
    ensures moment { moment_of device.new ≡ moment_of device.old }
    ensures writes { writes_of device.new ≡ writes_of device.old }
{
    tie_window(&mut device.book, window, name)
}

// A white image of a window comes, which stands far outside where it is hidden.
fn white_window<L: Ledger>(
    device: &mut Device,
    window: u32,
    screen: u32,
    r: Rect,
    hide: bool,
    steps: &mut Steps<L>,
) -> Result<ImageNo, Memory>
    requires fresh { is_none (image_id (world_of device.old).book 0 window) ≡ true }
    requires screen { is_used (world_of device.old).book (Screen screen) ≡ true }
    requires rect { is_window_rect r ≡ true }
    ensures number { IfOk result (λ i. i.0 ≡ next_image (world_of device.old)) }
    ensures made { OnOk result (world_of device.new ≡ with_made (world_of device.old) (new_white (world_of device.old) screen r hide) (with_window_id (world_of device.old).book window (next_image (world_of device.old)) screen)) }
    ensures live { IfOk result (λ i. IsLiveIn (world_of device.new) i.0) }
    ensures rect { IfOk result (λ i. (at_number (world_of device.new) i.0).r ≡ r) }
    ensures steps { steps.new ≤ steps.old + coming r }
    ensures moment { moment_of device.new ≡ moment_of device.old }
    ensures writes { writes_of device.new + steps.old ≡ writes_of device.old + steps.new }
{
    if !hide {
        return add_white(device, window, screen, r, steps);
    }
    let image = add_white(device, window, screen, r.at_min(OUTSIDE), steps)?;
    hide_image(device, image, r.min, steps)?;
    Ok(image)
}

// A window comes with an image, white with its border.
#[tactic(auto, unfolding(model_draw::specs::draw::Orders::make_window))]
pub(crate) fn make_window<L: Ledger>(
    device: &mut Device,
    window: u32,
    host: u32,
    r: Rect,
    name: &[u8],
    hide: bool,
    steps: &mut Steps<L>,
) -> Result<(), Memory>
    requires rio { has_rio (world_of device.old) host ≡ true }
    requires fresh { is_none (image_id (world_of device.old).book 0 window) ≡ true }
    requires rect { is_window_rect r ≡ true }
    ensures made { OnOk result (world_of device.new ≡ make_window (world_of device.old) window host r name.now hide) }
    ensures steps { OnOk result (steps.new ≤ steps.old + (coming r + border r)) }
    ensures moment { moment_of device.new ≡ moment_of device.old }
    ensures writes { writes_of device.new + steps.old ≡ writes_of device.old + steps.new }
{
    let screen = rio_screen(device, host);
    let image = white_window(device, window, screen, r, hide, steps)?;
    frame(device, image, steps);
    name_window(device, window, name)
}

// What a window gets in place of its image, where the order for that fits.
pub(crate) fn next_of(
    device: &Device,
    window: u32,
    host: u32,
    r: Rect,
    keep: bool,
    hidden: bool,
) -> Option<Next>
    ensures fits { (name : List ℕ) → is_some result ≡ fits (world_of device.now) (Replace window host r name keep hidden) }
    ensures screen { IfSome result (λ next. next.screen ≡ rio_screen (world_of device.now) host) }
    ensures next { IfSome result (λ next. IsNext (world_of device.now) window next.screen next) }
    ensures rect { IfSome result (λ next. next.r ≡ r) }
    ensures keep { IfSome result (λ next. next.keep ≡ keep) }
    ensures hidden { IfSome result (λ next. next.hidden ≡ hidden) }
    ensures ready { IfSome result (λ next. CanReplace (world_of device.now).images next) }
{
    let shown = match window_shown(device, window) {
        Some(shown) => shown,
        None => return None,
    };
    let screen = match device.book.screen(0, host) {
        Ok(screen) => screen,
        Err(_) => return None,
    };
    let parent = ImageNo(device.book.image_of(screen));
    if !can_come(device, shown.image, parent, &r, keep) {
        return None;
    }
    Some(Next {
        old: shown.image,
        screen,
        above: shown.screen == screen,
        parent,
        fill: ImageNo(device.book.fill_of(screen)),
        r,
        keep,
        hidden,
    })
}

// A window has another image. The id of the old one goes first, and what nothing refers to any more goes when the new one
// is there, so that after Memory each image has an id or has gone. Where the old one goes at once and unseen, nothing of
// it is saved first.
fn renew_window<L: Ledger>(
    device: &mut Device,
    window: u32,
    next: &Next,
    steps: &mut Steps<L>,
) -> Result<(), Memory>
    requires window { has_window (world_of device.old) window ≡ true }
    requires screen { is_used_by_id (world_of device.old).book next.now.screen ≡ true }
    requires next { IsNext (world_of device.old) window next.now.screen next.now }
    requires ready { CanReplace (world_of device.old).images next.now }
    ensures renewed { OnOk result (world_of device.new ≡ renewed (world_of device.old) window next.now.screen next.now) }
    ensures steps { OnOk result (steps.new ≤ steps.old + (renewing (world_of device.old).images next.now + going_all (world_of device.old).images (image_freed (world_of device.old).book window).gone)) }
    ensures moment { moment_of device.new ≡ moment_of device.old }
    ensures writes { writes_of device.new + steps.old ≡ writes_of device.old + steps.new }
{
    free_id_frees();
    device.forest.keeps();
    let gone = match device.book.free_id(0, window) {
        Ok(gone) => gone,
        Err(_) => return Err(Memory),
    };
    let stays = goes_unseen(&device.forest, next.old, next.parent, gone.as_slice());
    let made = next_window(&mut device.forest, &mut device.book, next, stays, steps);
    device.forest.keeps();
    release(&mut device.forest, gone.as_slice(), steps);
    match made {
        Ok(image) => {
            add_window(&mut device.book, window, image, next.screen);
            Ok(())
        }
        Err(memory) => Err(memory),
    }
}

// A window has another image, and another name.
#[tactic(auto, unfolding(model_draw::specs::draw::Orders::replace_window))]
pub(crate) fn replace_window<L: Ledger>(
    device: &mut Device,
    window: u32,
    next: &Next,
    name: &[u8],
    steps: &mut Steps<L>,
) -> Result<(), Memory>
    requires window { has_window (world_of device.old) window ≡ true }
    requires screen { is_used_by_id (world_of device.old).book next.now.screen ≡ true }
    requires next { IsNext (world_of device.old) window next.now.screen next.now }
    requires ready { CanReplace (world_of device.old).images next.now }
    ensures replaced { (host : ℕ) → next.now.screen ≡ rio_screen (world_of device.old) host → OnOk result (world_of device.new ≡ replace_window (world_of device.old) window host next.now.r name.now next.now.keep next.now.hidden) }
    ensures steps { (host : ℕ) → next.now.screen ≡ rio_screen (world_of device.old) host → OnOk result (steps.new ≤ steps.old + replacing (world_of device.old) window host next.now.r next.now.keep) }
    ensures moment { moment_of device.new ≡ moment_of device.old }
    ensures writes { writes_of device.new + steps.old ≡ writes_of device.old + steps.new }
{
    renew_window(device, window, next, steps)?;
    name_window(device, window, name)
}
