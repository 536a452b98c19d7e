//! Windows that are moved, and those that go to the top or to the bottom of the image that they stand on (draw(3)). What a
//! message is refused for is found without memory.

ghost use Rattle.model_draw.specs.cost.Cost.{of_found, window_moved};
ghost use Rattle.model_draw.specs.draw.Making.{flag};
ghost use Rattle.model_draw.specs.draw.Moving.{are_on_one_screen, is_on_screen, look_window, look_windows, move_window, restack};
ghost use Rattle.model_draw.specs.draw.World.{with_images};
ghost use Rattle.model_forest.specs.Steps.{after_origin};
ghost use Rattle.r9_draw.specs.messages.Plans.{CanMove};
ghost use Rattle.r9_draw.specs.messages.Restacking.{ShowWindows, after_restacking, group_of, ids_of};
ghost use Rattle.r9_device.specs.device.World.{moment_of, world_of, writes_of};
ghost use Rattle.std.specs.List.{sum_by};
ghost use Rattle.std.specs.Prelude.{Err, IfErr, IfOk, Ok, OnErr, OnOk, length, map, slice_index, ◌+◌, ◌/◌, ◌<◌, ◌≡◌, ◌≤◌};

use crate::messages::lookup::{is_near_at, look_window};
use r9_device::device::Device;
use r9_dmsg::Restacking;
use r9_geom::Point;
use r9_layers::ImageNo;
use r9_marks::steps::Steps;
use r9_memory::Memory;
use std::sync::ledger::Ledger;

// `o`.
#[tactic(auto, unfolding(model_draw::specs::draw::Moving::move_window))]
pub(crate) fn moving(
    device: &Device,
    client: u64,
    id: u32,
    rmin: Point,
    scr: Point,
) -> Result<ImageNo, u8>
    ensures moved { IfOk result (λ i. move_window client (world_of device.now) id rmin scr ≡ Ok (with_images (world_of device.now) (after_origin (world_of device.now).images i.0 rmin scr))) }
    ensures found { IfOk result (λ i. look_window (world_of device.now) client id ≡ Ok i.0) }
    ensures ready { IfOk result (λ i. CanMove (world_of device.now) i.0 rmin scr) }
    ensures refused { IfErr result (λ n. move_window client (world_of device.now) id rmin scr ≡ Err n) }
{
    let image = look_window(device, client, id)?;
    let r = device.rect(image);
    if !is_near_at(&r, rmin) || !is_near_at(&r, scr) {
        return Err(9);
    }
    Ok(image)
}

// `o`.
pub(crate) fn move_window<L: Ledger>(
    device: &mut Device,
    image: ImageNo,
    rmin: Point,
    scr: Point,
    steps: &mut Steps<L>,
) -> Result<(), Memory>
    requires { CanMove (world_of device.old) image.0 rmin scr }
    ensures moved { OnOk result (world_of device.new ≡ with_images (world_of device.old) (after_origin (world_of device.old).images image.0 rmin scr)) }
    ensures kept { OnErr result (world_of device.new ≡ world_of device.old) }
    ensures steps { steps.new ≤ steps.old + window_moved (world_of device.old) image.0 }
    ensures uncounted { OnErr result (steps.new ≡ steps.old) }
    ensures moment { moment_of device.new ≡ moment_of device.old }
    ensures writes { writes_of device.new + steps.old ≡ writes_of device.old + steps.new }
{
    device.forest.keeps();
    device.forest.origin(image, rmin, scr, steps)
}

// The first refusal of the ids, where one shows no window.
pub(crate) fn look_windows(device: &Device, client: u64, asked: &Restacking<'_>) -> Result<(), u8>
    ensures found { OnOk result (ShowWindows client (world_of device.now) asked.now) }
    ensures refused { IfErr result (λ n. look_windows (world_of device.now) client (ids_of asked.now) ≡ Err n) }
{
    for k in 0..asked.len() {
        look_window(device, client, asked.id(k))?;
    }
    Ok(())
}

// The window of the id at a place.
pub(crate) fn window_at(device: &Device, client: u64, asked: &Restacking<'_>, k: usize) -> ImageNo
    requires windows { ShowWindows client (world_of device.now) asked.now }
    requires place { k < length asked.now.ids.now / 4 }
    ensures { result.0 ≡ slice_index (group_of client (world_of device.now) asked.now) k }
{
    match look_window(device, client, asked.id(k)) {
        Ok(image) => image,
        Err(_) => unreachable!(),
    }
}

// Whether an image stands on this screen.
pub(crate) fn is_on_screen(device: &Device, screen: Option<u32>, image: ImageNo) -> bool
    ensures { result ≡ is_on_screen (world_of device.now).book screen image.0 }
{
    match (screen, device.book.screen_of(image.0)) {
        (Some(screen), Some(other)) => screen == other,
        _ => false,
    }
}

// Whether the windows all stand on the screen of the first.
pub(crate) fn are_on_one_screen(device: &Device, client: u64, asked: &Restacking<'_>) -> bool
    requires { ShowWindows client (world_of device.now) asked.now }
    ensures { result ≡ are_on_one_screen (world_of device.now).book (group_of client (world_of device.now) asked.now) }
{
    if asked.len() == 0 {
        return true;
    }
    let first = window_at(device, client, asked, 0);
    let screen = device.book.screen_of(first.0);
    for k in 1..asked.len() {
        if !is_on_screen(device, screen, window_at(device, client, asked, k)) {
            return false;
        }
    }
    true
}

// The first refusal of a `t`.
#[tactic(auto, unfolding(model_draw::specs::draw::Moving::restack, crate::specs::messages::Restacking::after_restacking))]
pub(crate) fn restacking(device: &Device, client: u64, asked: &Restacking<'_>) -> Result<(), u8>
    ensures restacked { OnOk result (restack client (world_of device.now) (flag asked.now.top) (ids_of asked.now) ≡ Ok (after_restacking client (world_of device.now) asked.now)) }
    ensures windows { OnOk result (ShowWindows client (world_of device.now) asked.now) }
    ensures refused { IfErr result (λ n. restack client (world_of device.now) (flag asked.now.top) (ids_of asked.now) ≡ Err n) }
{
    look_windows(device, client, asked)?;
    if !are_on_one_screen(device, client, asked) {
        return Err(22);
    }
    Ok(())
}

// The windows, in the order of their ids.
pub(crate) fn group(
    device: &Device,
    client: u64,
    asked: &Restacking<'_>,
) -> Result<Vec<ImageNo>, Memory>
    requires { ShowWindows client (world_of device.now) asked.now }
    ensures { IfOk result (λ group. map (λ i. i.0) group.items ≡ group_of client (world_of device.now) asked.now) }
{
    let mut group = Vec::with_capacity(device.alloc, asked.len())?;
    for k in 0..asked.len() {
        group.push(window_at(device, client, asked, k))?;
    }
    Ok(group)
}

// `t`.
#[tactic(auto, unfolding(crate::specs::messages::Restacking::after_restacking))]
pub(crate) fn restack<L: Ledger>(
    device: &mut Device,
    client: u64,
    asked: &Restacking<'_>,
    steps: &mut Steps<L>,
) -> Result<(), Memory>
    requires { ShowWindows client (world_of device.old) asked.now }
    ensures restacked { OnOk result (world_of device.new ≡ after_restacking client (world_of device.old) asked.now) }
    ensures kept { OnErr result (world_of device.new ≡ world_of device.old) }
    ensures steps { steps.new ≤ steps.old + of_found (sum_by (window_moved (world_of device.old))) (look_windows (world_of device.old) client (ids_of asked.now)) }
    ensures uncounted { OnErr result (steps.new ≡ steps.old) }
    ensures moment { moment_of device.new ≡ moment_of device.old }
    ensures writes { writes_of device.new + steps.old ≡ writes_of device.old + steps.new }
{
    device.forest.keeps();
    let group = group(device, client, asked)?;
    if asked.top != 0 {
        device.forest.raise(&group, steps)
    } else {
        device.forest.lower(&group, steps)
    }
}
