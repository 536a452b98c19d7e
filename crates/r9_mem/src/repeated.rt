ghost use Rattle.std.specs.Prelude.{◌≡◌, ◌↔◌, ℕ, IfSome, IsSome, IsTrue};
ghost use Rattle.model_pixel.specs.Composition.{composed_raw};
ghost use Rattle.r9_chan.specs.Op.{number};
ghost use Rattle.r9_mem.specs.Covering.{covers, hides};

use r9_chan::{Chan, Colour, Op, comp};

fn is_covering(op: Op, alpha: u8, through: u8) -> bool
    ensures { result ≡ covers (number op) alpha through }
{
    match op {
        Op::Clear | Op::S => true,
        Op::SoverD => alpha == 255 && through == 255,
        _ => false,
    }
}

/// The raw pixel that the composition of a source pixel, seen through a mask pixel, gives on any target pixel. It is
/// told for `Clear` and `S`, and for `SoverD` where source and mask are opaque; then the target need not be read.
pub fn solid(dst: Chan, src: Chan, mask: Chan, op: Op, s: u32, m: u32) -> Option<u32>
    ensures value { IfSome result (λ raw. (d : ℕ) → composed_raw dst src mask (number op) s m d ≡ raw) }
    ensures told { IsSome result ↔ IsTrue (hides (number op) src s mask m) }
{
    let through = mask.mask(m);
    let above = src.expand(s);
    if is_covering(op, above.a, through) {
        Some(dst.pack(comp(op, above, through, Colour::of_word(0))))
    } else {
        None
    }
}
