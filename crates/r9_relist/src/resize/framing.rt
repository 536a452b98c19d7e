//! Images with other rectangles, without their pixels.

ghost use Rattle.std.specs.Prelude.{◌≡◌};
ghost use Rattle.model_forest.specs.World.{IsForest, IsLive};
ghost use Rattle.r9_locate.specs.locate.Lists.{frame_image};
ghost use Rattle.r9_locate.specs.locate.Table.{made, shape};
ghost use Rattle.r9_relist.specs.resize.Sizes.{with_rects};

use model_forest::Window;
use r9_geom::Rect;
use r9_locate::locate::{Frame, Lists};
use std::alloc::Global;

// The frame with other rectangles, and with windows.
fn sized_frame(frame: &Frame, windows: Vec<Window>, r: Rect, clipr: Rect) -> Frame
    ensures { frame_image result ≡ record (frame_image frame.now) { r = r; clipr = clipr; windows = windows.items } }
{
    Frame {
        r,
        clipr,
        repl: frame.repl,
        chan: frame.chan,
        standing: frame.standing,
        depth: frame.depth,
        windows,
    }
}

/// Gives an image another rectangle and another clip rectangle. It takes no memory.
pub(crate) fn set_rects(alloc: Global, lists: &mut Lists, i: u32, r: Rect, clipr: Rect)
    requires live { IsLive (shape lists.old) i }
    requires before { IsForest (shape lists.old) }
    requires after { IsForest (with_rects (shape lists.old) i r clipr) }
    ensures world { shape lists.new ≡ with_rects (shape lists.old) i r clipr }
    ensures made { made lists.new ≡ made lists.old }
{
    let windows = lists.set_windows(i, Vec::new(alloc));
    let frame = sized_frame(lists.get(i), windows, r, clipr);
    let _ = lists.replace(i, frame);
}
