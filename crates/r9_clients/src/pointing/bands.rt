//! The draw messages that show the bands of a menu (draw(3)).

ghost use Rattle.std.specs.Prelude.{◌≡◌, ◌≤◌, ◌<◌, ◌+◌, ◌*◌, ◌^◌, ◌++◌, length, codes, IfOk, OnOk};
ghost use Rattle.std.specs.Fmt.{decimal};
ghost use Rattle.std.specs.List.{flat_map, range_with_len};
ghost use Rattle.r9_geom.specs.Geometry.{natural};
ghost use Rattle.model_clients.specs.bands.Bands.{inks};
ghost use Rattle.law_desk.specs.bands.Bands.{band, bands, freed};

use crate::drawing::{Area, Drawing, ORIGIN, colour, draw, named};
use model_client::desk::Spot;
use r9_memory::Memory;
use r9_text::{Bytes, push_decimal};
use std::alloc::Global;

/// The id of white, through which all is drawn.
const WHITE: u32 = 1;

/// The id of the colour of the first band; the others follow.
const FIRST_INK: u32 = 2;

/// The id of the menu's window, while the bands are drawn.
const MENU: u32 = 7;

/// The messages that make white and the colours of the bands from the top.
#[tactic(auto, unfolding(model_clients::specs::bands::Bands::inks))]
pub fn inks(alloc: Global) -> Result<Bytes, Memory>
    ensures { IfOk result (λ bytes. bytes ≡ inks) }
{
    let mut out = Bytes::new(alloc);
    out.push_all(colour(alloc, WHITE, 0xffff_ffff)?.as_slice())?;
    out.push_all(colour(alloc, FIRST_INK, 0xff00_00ff)?.as_slice())?;
    out.push_all(colour(alloc, FIRST_INK + 1, 0x00ff_00ff)?.as_slice())?;
    out.push_all(colour(alloc, FIRST_INK + 2, 0x0000_ffff)?.as_slice())?;
    out.push_all(colour(alloc, FIRST_INK + 3, 0xffff_00ff)?.as_slice())?;
    out.push_all(colour(alloc, FIRST_INK + 4, 0x8080_80ff)?.as_slice())?;
    Ok(out)
}

/// Lets an id go.
#[tactic(auto, unfolding(law_desk::specs::bands::Bands::freed))]
fn freed(alloc: Global, id: u32) -> Result<Bytes, Memory>
    ensures { IfOk result (λ bytes. bytes ≡ freed id) }
{
    let mut out = Bytes::from_slice(alloc, b"f")?;
    out.push_all(&id.to_le_bytes())?;
    Ok(out)
}

/// The name of a window's first image.
fn image_name(alloc: Global, window: u64) -> Result<Bytes, Memory>
    ensures name { IfOk result (λ name. name ≡ codes "window." ++ decimal window ++ codes ".1") }
    ensures short { IfOk result (λ name. length name < 2 ^ 8) }
{
    let mut name = Bytes::from_slice(alloc, b"window.")?;
    push_decimal(&mut name, window)?;
    name.push_all(b".1")?;
    Ok(name)
}

/// A coordinate, or 0 where it is negative.
fn natural(n: i32) -> u32
    ensures value { result ≡ natural n }
    ensures near { result < 2147483648 }
{
    n.max(0) as u32
}

/// A band of the menu whose min is at these coordinates.
fn band(alloc: Global, x: u32, y: u32, item: u32) -> Result<Bytes, Memory>
    requires x { x < 2147483648 }
    requires y { y < 2147483648 }
    requires item { item < 5 }
    ensures { IfOk result (λ bytes. bytes ≡ band x y item) }
{
    let upper = y + 4 + 16 * item;
    draw(
        alloc,
        Drawing {
            dst: MENU,
            src: FIRST_INK + item,
            mask: WHITE,
            r: Area {
                left: x + 4,
                upper,
                right: x + 44,
                lower: upper + 16,
            },
            sp: ORIGIN,
            mp: ORIGIN,
        },
    )
}

/// Adds the bands of the menu from the top.
fn push_bands(alloc: Global, x: u32, y: u32, out: &mut Bytes) -> Result<(), Memory>
    requires x { x < 2147483648 }
    requires y { y < 2147483648 }
    ensures { OnOk result (out.new ≡ out.old ++ flat_map (band x y) (range_with_len 0 5)) }
{
    for item in 0..5 {
        let message = band(alloc, x, y, item)?;
        out.push_all(message.as_slice())?;
    }
    Ok(())
}

/// The messages that show the bands of a menu in its window.
#[tactic(auto, unfolding(law_desk::specs::bands::Bands::bands))]
pub fn bands(alloc: Global, window: u64, at: Spot) -> Result<Bytes, Memory>
    ensures bands { IfOk result (λ bytes. bytes ≡ bands window (natural at.x) (natural at.y)) }
    ensures short { IfOk result (λ bytes. length bytes ≤ 300) }
{
    let name = image_name(alloc, window)?;
    let mut out = named(alloc, MENU, name.as_slice())?;
    push_bands(alloc, natural(at.x), natural(at.y), &mut out)?;
    out.push_all(freed(alloc, MENU)?.as_slice())?;
    Ok(out)
}
