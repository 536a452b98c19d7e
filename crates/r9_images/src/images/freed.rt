//! What has gone.

ghost use Rattle.std.specs.Prelude.{◌≡◌, ◌==◌, length};

use model_draw_parts::images::Thing;
use std::marker::Model;

/// The images and screens that have gone, in their order: a window before its screen, a screen before its image, and its image
/// before its fill.
#[derive(Debug, Drop)]
pub struct Freed {
    pub(crate) things: Vec<Thing>,
}

impl Model for Freed {
    ghost use Rattle.std.specs.Prelude.{List};
    ghost use Rattle.model_draw_parts.specs.declared.images.Thing.{Thing};

    ghost Value = { List Thing };

    ghost view = { λ f. f.things.items };
}

impl Freed {
    /// The things in order.
    pub fn as_slice(&self) -> &[Thing]
        ensures { result.now ≡ self.now }
    {
        self.things.as_slice()
    }

    /// How many they are.
    pub fn len(&self) -> usize
        ensures { result ≡ length self.now }
    {
        self.things.len()
    }

    /// Whether nothing has gone.
    pub fn is_empty(&self) -> bool
        ensures { result ≡ (length self.now == 0) }
    {
        self.things.is_empty()
    }
}
