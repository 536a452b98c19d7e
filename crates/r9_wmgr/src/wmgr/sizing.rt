//! Another size of the display.

ghost use Rattle.std.specs.Prelude.{◌≡◌, ◌^◌, pos, true, Ok, Err, IfOk, IfErr, OnOk};
ghost use Rattle.r9_geom.specs.Geometry.{IsRectNearBy};
ghost use Rattle.model_files.specs.wctl.Rectangle.{box};
ghost use Rattle.model_rio.specs.rio.Moving.{each};
ghost use Rattle.model_rio.specs.rio.Rio as model;
ghost use Rattle.r9_wmgr.specs.wmgr.Acts.{IfRefused};

use crate::wmgr::act::ActFault;
use crate::wmgr::draft::Draft;
use r9_event::event::Order;
use r9_event::window::Window;
use r9_geom::{Point, Rect};
use r9_memory::Memory;
use r9_wctl::wctl::{Amount, Choice, Options};
use std::alloc::Global;

// A display of so many columns and rows.
fn display(width: u32, height: u32) -> Rect
    ensures value { result ≡ box (pos 0) (pos 0) (pos width) (pos height) }
    ensures near { IsRectNearBy (2 ^ 33) result }
{
    Rect {
        min: Point { x: 0, y: 0 },
        max: Point {
            x: i64::from(width),
            y: i64::from(height),
        },
    }
}

// The options of a move to the corner of the display.
fn to_corner(alloc: Global) -> Result<Options, Memory>
    ensures { IfOk result (λ options. options ≡ model.to_corner) }
{
    let mut options = Options::new(alloc);
    options.push(Choice::Minx(Amount::Is(0)))?;
    options.push(Choice::Miny(Amount::Is(0)))?;
    Ok(options)
}

impl Draft {
    // Windows move by these options, one after the other.
    fn move_each(&mut self, options: &Options, windows: &[Window]) -> Result<(), ActFault>
        ensures done { OnOk result (each (model.moved_by true options.now) windows.now self.old ≡ Ok self.new) }
        ensures refused { IfErr result (λ f. IfRefused f (λ n. each (model.moved_by true options.now) windows.now self.old ≡ Err n)) }
    {
        for w in windows {
            self.move_by(true, options, w)?;
        }
        Ok(())
    }

    /// The display has another size, and then the windows that have no point of it move to its corner.
    #[tactic(auto, unfolding(model_rio::specs::rio::Rio::resized))]
    pub(crate) fn resize(&mut self, width: u32, height: u32) -> Result<(), ActFault>
        ensures done { OnOk result (model.resized width height self.old ≡ Ok self.new) }
        ensures refused { IfErr result (λ f. IfRefused f (λ n. model.resized width height self.old ≡ Err n)) }
    {
        let r = display(width, height);
        let options = to_corner(self.table.alloc)?;
        let windows = self.table.windows_off(&r)?;
        self.table.set_rect(r);
        self.order(Order::Size { width, height })?;
        self.move_each(&options, &windows)
    }
}
