//! What an id shows that a message names, and tests of rectangles.

ghost use Rattle.model_draw.specs.draw.Making.{farthest, is_near_rect, is_window};
ghost use Rattle.model_draw.specs.draw.Moving.{look_window};
ghost use Rattle.model_draw.specs.draw.World.{at_number, look};
ghost use Rattle.model_draw.specs.imgfile.ImageFile.{rows_len};
ghost use Rattle.r9_device.specs.device.Live.{IsLiveIn};
ghost use Rattle.r9_draw.specs.messages.Plans.{IsPart, part_of};
ghost use Rattle.r9_device.specs.device.World.{world_of};
ghost use Rattle.r9_geom.specs.Geometry.{HasPoints, IsRectNearBy, at_min};
ghost use Rattle.std.specs.Prelude.{Err, IfErr, IfOk, MatchOption, Ok, true, ◌^◌, ◌≡◌, ◌≤◌};

use r9_chan::Chan;
use r9_device::device::{Device, is_near_point, is_near_rect};
use r9_geom::{Point, Rect};
use r9_layers::ImageNo;
use r9_plane::row_bytes;

// How many bytes the rows of a rectangle have, where that is below 2^64.
pub(crate) fn rows_len(chan: Chan, r: &Rect) -> Option<u64>
    requires near { IsRectNearBy (2 ^ 33) r.now }
    requires points { HasPoints r.now }
    ensures { MatchOption result (2 ^ 64 ≤ rows_len chan r.now) (λ len. len ≡ rows_len chan r.now) }
{
    r.height().checked_mul(row_bytes(*r, chan.depth()))
}

// Whether a rectangle is near 0 once it has another min.
pub(crate) fn is_near_at(r: &Rect, min: Point) -> bool
    requires { IsRectNearBy (2 ^ 33) r.now }
    ensures { result ≡ is_near_rect farthest (at_min r.now min) }
{
    if !is_near_point(&min) {
        return false;
    }
    is_near_rect(&r.at_min(min))
}

// The window of an id that no name made.
pub(crate) fn look_window(device: &Device, client: u64, id: u32) -> Result<ImageNo, u8>
    ensures found { IfOk result (λ i. look_window (world_of device.now) client id ≡ Ok i.0) }
    ensures live { IfOk result (λ i. IsLiveIn (world_of device.now) i.0) }
    ensures window { IfOk result (λ i. is_window (world_of device.now) i.0 ≡ true) }
    ensures refused { IfErr result (λ n. look_window (world_of device.now) client id ≡ Err n) }
{
    let image = device.look(client, id)?;
    if device.book.screen_of(image.0).is_none() || device.book.by_name(client, id) {
        return Err(20);
    }
    Ok(image)
}

// The image of an id, of which the rectangle is a part that has points; else the refusal.
#[tactic(auto, unfolding(crate::specs::messages::Plans::part_of))]
pub(crate) fn part(
    device: &Device,
    client: u64,
    id: u32,
    r: &Rect,
    refusal: u8,
) -> Result<ImageNo, u8>
    requires { IsRectNearBy (2 ^ 33) r.now }
    ensures found { IfOk result (λ i. look (world_of device.now) client id ≡ Ok i.0) }
    ensures part { IfOk result (λ i. IsPart (world_of device.now) i.0 r.now) }
    ensures refused { IfErr result (λ n. part_of (world_of device.now) client id r.now refusal ≡ Err n) }
{
    let image = device.look(client, id)?;
    if r.is_empty() || !r.inside(&device.forest.info(image).r) {
        return Err(refusal);
    }
    Ok(image)
}

// How many bytes the rows of a rectangle of an image have, where that is below 2^64.
pub(crate) fn rows_of_part(device: &Device, image: ImageNo, r: &Rect) -> Option<u64>
    requires { IsPart (world_of device.now) image.0 r.now }
    ensures { MatchOption result (2 ^ 64 ≤ rows_len (at_number (world_of device.now) image.0).chan r.now) (λ len. len ≡ rows_len (at_number (world_of device.now) image.0).chan r.now) }
{
    rows_len(device.forest.info(image).chan, r)
}
