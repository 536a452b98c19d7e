//! What the display and the windows show, to be looked at from outside of any connection (image(6)).

ghost use Rattle.std.specs.Prelude.{◌≡◌, ◌++◌, ◌^◌, ◌≤◌, length, IfOk, IsTrue};
ghost use Rattle.r9_geom.specs.declared.Point.{Point};
ghost use Rattle.r9_geom.specs.Geometry.{holds, IsOrdered, IsRectNearBy};
ghost use Rattle.model_pixel.specs.Channels.{depth};
ghost use Rattle.model_pixel.specs.Rows.{rows_of};
ghost use Rattle.model_forest.specs.Paint.{paint};
ghost use Rattle.model_draw.specs.imgfile.ImageFile.{file_part};
ghost use Rattle.model_draw.specs.cost.Cells.{cells};
ghost use Rattle.model_draw.specs.draw.Files.{screen_file};
ghost use Rattle.model_draw.specs.draw.Orders.{picture_of};
ghost use Rattle.model_draw.specs.draw.World.{at_number};
ghost use Rattle.r9_device.specs.device.Told.{info_of};
ghost use Rattle.r9_device.specs.device.Live.{IsLiveIn};
ghost use Rattle.r9_draw.specs.draw.Shown.{picture_in, shown_in};
ghost use Rattle.r9_draw.specs.draw.World.{world_of};

use crate::draw::draw::Draw;
use r9_device::device::{DISPLAY, ImageNo, Info};
use r9_geom::Rect;
use r9_imgfile::{header, part, touched_rows};
use r9_memory::Memory;
use r9_text::Bytes;

/// What can be looked at: the display, or the window of a serial. Where there is no such window it is the display.
#[derive(Clone, Copy, Debug, PartialEq, Eq)]
pub enum Shown {
    Display,
    Window(u32),
}

impl Draw {
    // The image that is looked at.
    fn image_of(&self, image: Shown) -> ImageNo
        ensures shown { result.0 ≡ shown_in (world_of self.now) image }
        ensures live { IsLiveIn (world_of self.now) result.0 }
    {
        match image {
            Shown::Display => ImageNo(DISPLAY),
            Shown::Window(serial) => self.device.image_shown(serial),
        }
    }

    /// What it tells of itself.
    pub fn info(&self, image: Shown) -> Info
        ensures told { result ≡ info_of (at_number (world_of self.now) (shown_in (world_of self.now) image)) }
        ensures near { IsRectNearBy (2 ^ 33) result.r }
        ensures ordered { IsOrdered result.r }
    {
        self.device.image_info(self.image_of(image))
    }

    /// The rows of a rectangle of it (image(6)): what is painted from back to front, on it and on all that stands on it.
    pub fn unload(&self, image: Shown, r: Rect) -> Result<Bytes, Memory>
        requires near { IsRectNearBy (2 ^ 34) r }
        requires ordered { IsOrdered r }
        requires inside { (p : Point) → IsTrue (holds r p) → IsTrue (holds (at_number (world_of self.now) (shown_in (world_of self.now) image)).r p) }
        ensures { IfOk result (λ rows. rows ≡ rows_of r (depth (at_number (world_of self.now) (shown_in (world_of self.now) image)).chan) (paint (world_of self.now).images (shown_in (world_of self.now) image))) }
    {
        self.device.forest.unload(self.image_of(image), r)
    }

    /// Bytes with the rows of a part of an image behind them (image(6)): of what is painted from back to front, on it and on all that
    /// stands on it. For want of memory there are none.
    pub fn with_rows(&self, image: Shown, r: Rect, front: Vec<u8>) -> Result<Vec<u8>, Memory>
        requires near { IsRectNearBy (2 ^ 34) r }
        requires ordered { IsOrdered r }
        requires inside { (p : Point) → IsTrue (holds r p) → IsTrue (holds (at_number (world_of self.now) (shown_in (world_of self.now) image)).r p) }
        ensures { IfOk result (λ all. all.items ≡ front.items ++ rows_of r (depth (at_number (world_of self.now) (shown_in (world_of self.now) image)).chan) (paint (world_of self.now).images (shown_in (world_of self.now) image))) }
    {
        self.device.forest.with_rows(self.image_of(image), r, front)
    }

    /// How many tiles keep hidden pixels: one for each pair of a window and a cell of it, of 32 by 32 points counted from the window's
    /// min, that has a hidden point. It takes no memory.
    pub fn tiles(&self) -> usize
        ensures { result ≡ cells (world_of self.now) }
    {
        self.device.forest.tiles()
    }

    /// The display as an image file: what is painted from back to front, on it and on all that stands on it (image(6)). It is the
    /// picture of 0, too, as the file `screen` outside of windows has it.
    pub fn screen(&self) -> Result<Bytes, Memory>
        ensures file { IfOk result (λ file. file ≡ screen_file (world_of self.now)) }
        ensures picture { picture_of (world_of self.now) 0 ≡ screen_file (world_of self.now) }
    {
        let info = self.info(Shown::Display);
        let mut file = header(self.device.alloc, &info)?;
        let rows = self.unload(Shown::Display, info.r)?;
        file.push_all(rows.as_slice())?;
        Ok(file)
    }

    /// The bytes of such an image file from an offset on, at most `count`. No more rows are put together than hold one of them.
    pub fn picture_part(&self, image: Shown, offset: u64, count: u32) -> Result<Bytes, Memory>
        ensures part { IfOk result (λ bytes. bytes ≡ file_part (picture_in (world_of self.now) image) offset count) }
        ensures short { IfOk result (λ bytes. length bytes ≤ count) }
    {
        let info = self.info(image);
        let rows = self.unload(image, touched_rows(&info, offset, count))?;
        part(self.device.alloc, &info, rows.as_slice(), offset, count)
    }
}
