//! What a session alone with its window finds outside itself, as one value.

ghost use Rattle.std.specs.Prelude.{◌≡◌, ◌^◌, ◌<ℤ◌, pos, None, IfOk};
ghost use Rattle.r9_geom.specs.Geometry.{IsOrdered, IsRectNear};
ghost use Rattle.model_draw.specs.draw.Orders.{with_root_rio};
ghost use Rattle.model_draw.specs.draw.World.{started};

use r9_chan::Chan;
use r9_draw::draw::Draw;
use r9_files::pane::Pane;
use r9_geom::Rect;
use r9_memory::Memory;
use std::alloc::Global;

/// The window of a session, by its serial in the server, with what its files have.
#[derive(Drop)]
pub(crate) struct Window {
    pub(crate) serial: u32,
    pub(crate) pane: Pane,
    ghost near: { IsRectNear pane.known.r },
}

/// A draw device; the session's window, where it has one; and the serial of the window that is made in this step.
#[derive(Drop)]
pub struct Desktop {
    pub(crate) alloc: Global,
    pub(crate) device: Draw,
    pub(crate) window: Option<Window>,
    pub(crate) made: Option<u32>,
}

impl Desktop {
    ghost use Rattle.r9_isol.specs.isol.World.{desktop_of};

    /// A display with these channels, and no window.
    #[tactic(auto, unfolding(crate::specs::isol::World::desktop_of))]
    pub fn start(alloc: Global, r: Rect, chan: Chan) -> Result<Self, Memory>
        requires left { r.min.x ≡ pos 0 }
        requires top { r.min.y ≡ pos 0 }
        requires ordered { IsOrdered r }
        requires width { r.max.x <ℤ pos (2 ^ 32) }
        requires height { r.max.y <ℤ pos (2 ^ 32) }
        ensures { IfOk result (λ desktop. desktop_of desktop ≡ record { device = with_root_rio (started (record { r = r; chan = chan })); window = None; made = None }) }
    {
        Ok(Desktop {
            alloc,
            device: Draw::start(alloc, r, chan)?,
            window: None,
            made: None,
        })
    }

    /// The serial of the window that is made in this step, which an attach for a new window then gets; none where none is made.
    #[tactic(auto, unfolding(crate::specs::isol::World::desktop_of))]
    pub fn set_made(&mut self, made: Option<u32>)
        ensures { desktop_of self.new ≡ record (desktop_of self.old) { made = made } }
    {
        self.made = made;
    }
}
