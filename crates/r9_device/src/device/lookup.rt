//! What an id shows, what an image tells of itself, and tests of rectangles. Looking changes nothing.

ghost use Rattle.model_draw.specs.draw.Making.{farthest, is_near, is_near_rect};
ghost use Rattle.model_draw.specs.draw.Orders.{image_shown};
ghost use Rattle.model_draw.specs.draw.World.{at_number, look};
ghost use Rattle.model_draw_parts.specs.images.Book.{image_id};
ghost use Rattle.r9_device.specs.device.Live.{IsLiveIn};
ghost use Rattle.r9_device.specs.device.World.{world_of};
ghost use Rattle.r9_geom.specs.Geometry.{IsOrdered, IsRectNearBy};
ghost use Rattle.r9_layers.specs.Told.{info_of};
ghost use Rattle.std.specs.Prelude.{Err, IfErr, IfOk, Ok, is_some, true, ◌&&◌, ◌^◌, ◌≡◌, ◌≤◌};

use crate::device::device::Device;
use r9_geom::{Point, Rect};
use r9_layers::{ImageNo, Info};

/// The number of the display's image.
pub const DISPLAY: u32 = 0;

// How far a coordinate of an image's rectangle may be from 0.
const FARTHEST: i64 = 1 << 29;

fn is_near(x: i64) -> bool
    ensures { result ≡ is_near farthest x }
{
    -FARTHEST <= x && x <= FARTHEST
}

/// Whether a rectangle is as near to 0 as an image's may be.
pub fn is_near_rect(r: &Rect) -> bool
    ensures { result ≡ is_near_rect farthest r.now }
{
    is_near(r.min.x) && is_near(r.min.y) && is_near(r.max.x) && is_near(r.max.y)
}

/// Whether a point is.
pub fn is_near_point(p: &Point) -> bool
    ensures { result ≡ (is_near farthest p.now.x && is_near farthest p.now.y) }
{
    is_near(p.x) && is_near(p.y)
}

impl Device {
    /// Whether the connection has the image id, of which the name may have no tie any more.
    #[tactic(auto, unfolding(model_draw_parts::specs::images::Book::image))]
    pub fn knows(&self, client: u64, id: u32) -> bool
        ensures { result ≡ is_some (image_id (world_of self.now).book client id) }
    {
        !matches!(self.book.image(client, id), Err(4))
    }

    /// The image of an id.
    pub fn look(&self, client: u64, id: u32) -> Result<ImageNo, u8>
        ensures found { IfOk result (λ i. look (world_of self.now) client id ≡ Ok i.0) }
        ensures live { IfOk result (λ i. IsLiveIn (world_of self.now) i.0) }
        ensures refused { IfErr result (λ n. look (world_of self.now) client id ≡ Err n) }
    {
        let image = self.book.image(client, id)?;
        Ok(ImageNo(image))
    }

    /// The rectangle of an image.
    pub fn rect(&self, image: ImageNo) -> Rect
        requires { IsLiveIn (world_of self.now) image.0 }
        ensures rect { result ≡ (at_number (world_of self.now) image.0).r }
        ensures near { IsRectNearBy (2 ^ 32) result }
    {
        self.forest.info(image).r
    }

    /// What an image tells of itself.
    pub fn image_info(&self, image: ImageNo) -> Info
        requires { IsLiveIn (world_of self.now) image.0 }
        ensures told { result ≡ info_of (at_number (world_of self.now) image.0) }
        ensures near { IsRectNearBy (2 ^ 33) result.r }
        ensures clip { IsRectNearBy (2 ^ 33) result.clipr }
        ensures ordered { IsOrdered result.r }
    {
        self.forest.info(image)
    }

    /// The image that a window has now, or the display where it has none.
    pub fn image_shown(&self, window: u32) -> ImageNo
        ensures shown { result.0 ≡ image_shown (world_of self.now) window }
        ensures live { IsLiveIn (world_of self.now) result.0 }
    {
        match self.book.shown(0, window) {
            Some(image) => ImageNo(image),
            None => ImageNo(DISPLAY),
        }
    }
}
