//! The fonts of a connection.

ghost use Rattle.std.specs.Prelude.{◌≡◌, ◌^◌, Ok, true, IsSome, OnOk, OnErr};
ghost use Rattle.r9_geom.specs.Geometry.{IsRectNearBy};
ghost use Rattle.model_text.specs.text.Map.{lookup};
ghost use Rattle.model_draw_parts.specs.fonts.Font.{has_index, AreWithin, Font, with_cell};
ghost use Rattle.r9_device.specs.client.Fonts.{font_at, with_character_of};

use r9_fonts::{Cell, Font, FontFault};
use r9_memory::Memory;
use std::collections::BTreeMap;
use std::marker::Model;

/// A font of a connection: the rectangles of its characters are within 2^32 of 0, as the numbers of messages are.
#[derive(Drop)]
pub(crate) struct ClientFont {
    font: Font,
}

impl Model for ClientFont {
    ghost Value = { Font };

    ghost view = { λ f. f.font };

    ghost invariant = { λ f. AreWithin (2 ^ 32) f.font.cells };
}

impl ClientFont {
    /// The font as one of a connection.
    pub(crate) fn new(font: Font) -> Self
        requires { AreWithin (2 ^ 32) font.cells }
        ensures { result ≡ font }
    {
        ClientFont { font }
    }

    /// The font.
    pub(crate) fn get(&self) -> &Font
        ensures value { result.now ≡ self.now }
        ensures near { AreWithin (2 ^ 32) result.now.cells }
    {
        &self.font
    }

    // Another character at an index.
    fn set(&mut self, index: u16, cell: Cell) -> Result<(), Memory>
        requires index { has_index self.old index ≡ true }
        requires near { IsRectNearBy (2 ^ 32) cell.r }
        ensures set { OnOk result (with_cell self.old index cell ≡ Ok self.new) }
        ensures kept { OnErr result (self.new ≡ self.old) }
    {
        match self.font.set(index, cell) {
            Ok(()) => Ok(()),
            Err(FontFault::Memory) => Err(Memory),
            Err(FontFault::Refused(_)) => unreachable!(),
        }
    }
}

/// The fonts, each under the image id that was made one.
pub(crate) type Fonts = BTreeMap<u32, ClientFont>;

/// Another character at an index of the font that an id is. After Memory all is as before.
pub(crate) fn set_character(
    fonts: &mut Fonts,
    id: u32,
    index: u16,
    cell: Cell,
) -> Result<(), Memory>
    requires font { IsSome (lookup fonts.old.entries id) }
    requires index { has_index (font_at fonts.old.entries id) index ≡ true }
    requires near { IsRectNearBy (2 ^ 32) cell.r }
    ensures set { OnOk result (fonts.new.entries ≡ with_character_of fonts.old.entries id index cell) }
    ensures kept { OnErr result (fonts.new.entries ≡ fonts.old.entries) }
{
    let Some(font) = fonts.get_mut(&id) else {
        unreachable!()
    };
    font.set(index, cell)
}
