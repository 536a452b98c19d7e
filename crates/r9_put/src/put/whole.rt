//! Images that keep all of their pixels themselves.

ghost use Rattle.std.specs.Prelude.{◌≡◌, None, true, length};
ghost use Rattle.model_forest.specs.World.{image_at, parent_of, IsLive};
ghost use Rattle.r9_locate.specs.locate.Table.{shape};

use r9_locate::locate::Lists;

/// Whether an image stands nowhere and nothing stands on it.
pub(crate) fn is_whole(lists: &Lists, i: u32) -> bool
    requires { IsLive (shape lists.now) i }
    ensures { result ≡ true → (parent_of (shape lists.now) i ≡ None) × (length (image_at (shape lists.now) i).windows ≡ 0) }
{
    let frame = lists.get(i);
    frame.standing.is_none() && frame.windows.is_empty()
}
