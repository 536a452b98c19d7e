//! Images that stand nowhere and get another size.

ghost use Rattle.std.specs.Prelude.{◌≡◌, ◌+◌, ◌*◌, ◌^◌, ◌<◌, ◌≤◌, OnErr, OnOk};
ghost use Rattle.r9_geom.specs.Geometry.{area_of};
ghost use Rattle.model_pixel.specs.Channels as channels;
ghost use Rattle.model_forest.specs.World.{image_at};
ghost use Rattle.model_exchanged.specs.resize.Resize.{after_resize, CanResize};

use super::images::Images;
use r9_marks::steps::Steps;
use r9_memory::Memory;
use r9_relist::resize::resize;
use std::sync::ledger::Ledger;

impl Images {
    ghost use Rattle.r9_forest.specs.Images.{moment, numbers, world, writes, IsUnchanged};

    /// Gives an image that stands nowhere, such as the display, another size, and all of it as its clip rectangle. Its windows
    /// stay where they stand; points that it had keep their pixels, and each other one has a raw pixel. At most two pixels are
    /// written for each point that it had, and two for each that it has then.
    pub fn resize<L: Ledger>(
        &mut self,
        i: u32,
        width: u32,
        height: u32,
        raw: u32,
        steps: &mut Steps<L>,
    ) -> Result<(), Memory>
        requires can { CanResize (world self.old) i }
        requires raw { raw < 2 ^ channels.depth (image_at (world self.old) i).chan }
        ensures resized { OnOk result (world self.new ≡ after_resize (world self.old) i width height raw) }
        ensures numbers { numbers self.new ≡ numbers self.old }
        ensures err { OnErr result (IsUnchanged self.old self.new) }
        ensures steps { steps.new ≤ steps.old + 2 * area_of (image_at (world self.old) i).r + 2 * (width * height) }
        ensures uncounted { OnErr result (steps.new ≡ steps.old) }
        ensures moment { moment self.new ≡ moment self.old }
        ensures writes { writes self.new + steps.old ≡ writes self.old + steps.new }
    {
        resize(
            self.alloc,
            &mut self.lists,
            &mut self.pixels,
            i,
            width,
            height,
            raw,
            steps,
        )?;
        Ok(())
    }
}
