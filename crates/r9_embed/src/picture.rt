//! What the display shows.

ghost use Rattle.std.specs.Prelude.{◌≡◌, ◌<◌, ◌&&◌, ◌||◌, not, true, false, Err, IfOk, IfSome, IfNone, IsTrue};
ghost use Rattle.model_draw.specs.draw.Files.{screen_file};
ghost use Rattle.model_draw.specs.draw.Orders.{is_side};
ghost use Rattle.model_draw.specs.draw.World.{at_number};
ghost use Rattle.model_forest.specs.Paint.{paint};
ghost use Rattle.model_pixel.specs.Channels.{depth};
ghost use Rattle.model_pixel.specs.Rows.{rows_of};
ghost use Rattle.model_world.specs.Replay.{replay};
ghost use Rattle.r9_geom.specs.Geometry.{height, is_empty, is_inside, width, IsNear};
ghost use Rattle.r9_hall.specs.hall.HallView.{IsAsStored, OfHistories, StandsOn};
ghost use Rattle.r9_hall.specs.hall.WorldView.{IsSizeOf, display_in, world_in};
ghost use Rattle.r9_hall.specs.hall.Marks.{IsCleared};
ghost use Rattle.r9_marks.specs.marks.Cells.{cells_over};
ghost use Rattle.r9_embed.specs.Picture.{IsCell};

use crate::embedded::Embedded;
use model_history::words::Size;
use r9_geom::{Point, Rect};
use r9_marks::marks::cells_over;
use r9_memory::Memory;
use r9_text::Bytes;

/// Why no rows were given.
#[derive(Clone, Copy, Debug, PartialEq, Eq)]
pub enum RowsFault {
    /// The rectangle has no point, or one that is not the display's.
    BadRectangle,
    /// There was no memory.
    Memory,
}

impl From<Memory> for RowsFault {
    ghost use Rattle.std.specs.Prelude.{◌≡◌};
    ghost use Rattle.r9_embed.specs.declared.picture.RowsFault.TheVariants as fault;

    ghost from_gives = { λ _ e. e ≡ fault.Memory };

    fn from(_: Memory) -> Self {
        RowsFault::Memory
    }
}

impl Embedded {
    /// The display as an image(6) file. Nothing is said of that of a broken display.
    pub fn screen(&self) -> Result<Bytes, Memory>
        ensures { IfOk result (λ file. self.now.hall.broken ≡ false → file ≡ screen_file (world_in self.now.hall.world).desktop.device) }
    {
        self.hall.screen()
    }

    /// The rows of a part of the display (image(6)): what painting all windows from back to front gives. Nothing is said of those of a
    /// broken display.
    pub fn rows(&self, r: Rect) -> Result<Bytes, RowsFault>
        ensures rows { IfOk result (λ rows. OfHistories self.now.hall (λ events. rows ≡ rows_of r (depth (at_number (replay self.now.hall.opening events).desktop.device 0).chan) (paint (replay self.now.hall.opening events).desktop.device.images 0))) }
        ensures part { IfOk result (λ _. (not (is_empty r) && is_inside r (display_in self.now.hall.world).r) ≡ true) }
        ensures bad { result ≡ Err RowsFault.BadRectangle → (not (is_empty r) && is_inside r (display_in self.now.hall.world).r) ≡ false }
    {
        if r.is_empty() || !r.inside(&self.hall.display()) {
            return Err(RowsFault::BadRectangle);
        }
        let rows = self.hall.rows(r)?;
        Ok(rows)
    }

    /// Whether a cell of the display, of 32 by 32 pixels, is marked: whether a pixel of it was written since the marks were cleared.
    /// None if the display has no such cell.
    pub fn marked(&self, column: u32, row: u32) -> Option<bool>
        ensures marked { IfSome result (λ marked. marked ≡ (display_in self.now.hall.world).marked column row) }
        ensures cell { IfSome result (λ _. IsCell (display_in self.now.hall.world).r column row) }
        ensures none { IfNone result (IsCell (display_in self.now.hall.world).r column row → ⊥) }
    {
        let display = self.hall.display();
        let across = cells_over(display.width() as usize);
        let down = cells_over(display.height() as usize);
        if column as usize >= across || row as usize >= down {
            return None;
        }
        Some(self.hall.marked(column, row))
    }

    /// Clears the marks of the display. All else stays.
    pub fn clear_marks(&mut self)
        ensures stored { IsAsStored self.old.hall self.new.hall }
        ensures whole { self.new.hall.broken ≡ self.old.hall.broken }
        ensures opening { self.new.hall.opening ≡ self.old.hall.opening }
        ensures first { self.new.hall.first ≡ self.old.hall.first }
        ensures world { world_in self.new.hall.world ≡ world_in self.old.hall.world }
        ensures cleared { IsCleared (display_in self.old.hall.world) (display_in self.new.hall.world) }
    {
        self.hall.clear_marks();
    }

    /// Where the mouse was last, in pixels of the display. None before any event of it. Nothing is said of that of a broken display.
    pub fn pointer(&self) -> Option<Point>
        ensures pointer { OfHistories self.now.hall (λ events. result ≡ (replay self.now.hall.opening events).desktop.pointer) }
        ensures near { IfSome result IsNear }
    {
        self.hall.pointer()
    }

    /// The sides of the display, in pixels. Nothing is said of those of a broken display.
    pub fn size(&self) -> Size
        ensures { is_side self.now.hall.opening.width ≡ true → is_side self.now.hall.opening.height ≡ true → OfHistories self.now.hall (λ events. IsSizeOf (at_number (replay self.now.hall.opening events).desktop.device 0).r result) }
    {
        self.hall.size()
    }
}
