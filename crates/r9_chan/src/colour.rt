ghost use Rattle.std.specs.Prelude.{◌≡◌};
ghost use Rattle.model_pixel.specs.Channels.{colour_of};

use std::marker::Model;

/// A colour, each component from 0 to 255 and premultiplied by the alpha.
#[derive(Clone, Copy, PartialEq, Eq, Debug)]
pub struct Colour {
    pub r: u8,
    pub g: u8,
    pub b: u8,
    pub a: u8,
}

impl Model for Colour {
    ghost use Rattle.model_pixel.specs.Channels.{Colour};

    ghost Value = { Colour };

    ghost view = { λ c. record { r = c.r; g = c.g; b = c.b; a = c.a } };

    ghost inverse = { λ c. record { r = c.r; g = c.g; b = c.b; a = c.a } };
}

impl Colour {
    /// The colour of a colour word: red in the highest byte, then green, blue and alpha.
    pub fn of_word(word: u32) -> Colour
        ensures { result ≡ colour_of word }
    {
        let [r, g, b, a] = word.to_be_bytes();
        Colour { r, g, b, a }
    }
}
