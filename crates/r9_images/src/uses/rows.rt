//! Windows as rows.

ghost use Rattle.std.specs.Prelude.{◌≡◌};
ghost use Rattle.r9_ids.specs.sorted.Order.{key};

use model_draw_parts::images::OnScreen;
use r9_ids::sorted::{Key, Keyed};

/// A window, in the order of the images, and of each image in the order in which they were made.
#[derive(Clone, Copy)]
pub(crate) struct WindowRow {
    pub(crate) window: OnScreen,
    // How many windows were made before it.
    pub(crate) made: u64,
}

/// What the row of a window is known by.
pub(crate) fn key_of_window(image: u32, made: u64) -> Key
    ensures { result ≡ key image made 0 }
{
    Key {
        first: u64::from(image),
        second: made,
        third: 0,
    }
}

impl Keyed for WindowRow {
    ghost use Rattle.r9_ids.specs.sorted.Order.{key};

    ghost key_of = { λ row. key row.window.image row.made 0 };

    fn key(&self) -> Key {
        key_of_window(self.window.image, self.made)
    }
}
