//! Draw messages (draw(3)), each whole.

ghost use Rattle.std.specs.Prelude.{◌≡◌, ◌<◌, ◌^◌, length, IfOk};
ghost use Rattle.model_clients.specs.client.Messages.{character, drawing, font, image, named, rows, string};
ghost use Rattle.model_clients.specs.client.Messages as messages;
ghost use Rattle.model_clients.specs.page.Text as text;
ghost use Rattle.r9_clients.specs.drawing.Shown.{point_of, rect_of, writing_of};

use crate::drawing::fields::{Area, Place, put_area, put_long, put_place, put_short, put_shorts};
use r9_memory::Memory;
use r9_text::Bytes;
use std::alloc::Global;

/// What an image is made of, on no screen.
#[derive(Clone, Copy)]
pub struct Image {
    pub id: u32,
    pub chan: u32,
    pub repl: u8,
    pub r: Area,
    pub clipr: Area,
    pub color: u32,
}

/// Makes an image.
#[tactic(auto, unfolding(model_clients::specs::client::Messages::image))]
pub fn make_image(alloc: Global, made: Image) -> Result<Bytes, Memory>
    ensures { IfOk result (λ bytes. bytes ≡ image made.id made.chan made.repl (rect_of made.r) (rect_of made.clipr) made.color) }
{
    let mut out = Bytes::new(alloc);
    out.push(b'b')?;
    put_long(&mut out, made.id)?;
    put_long(&mut out, 0)?;
    out.push(0)?;
    put_long(&mut out, made.chan)?;
    out.push(made.repl)?;
    put_area(&mut out, made.r)?;
    put_area(&mut out, made.clipr)?;
    put_long(&mut out, made.color)?;
    Ok(out)
}

/// The channels x8r8g8b8.
pub const RGB24: u32 = 0x6808_1828;

/// How far the greatest clip rectangle goes.
const FAR: u32 = 0x3fff_ffff;

/// Makes an image of one pixel of a colour that repeats, in `RGB24`.
pub fn colour(alloc: Global, id: u32, color: u32) -> Result<Bytes, Memory>
    ensures { IfOk result (λ bytes. bytes ≡ messages.image id text.rgb24 1 text.dot text.everywhere color) }
{
    make_image(
        alloc,
        Image {
            id,
            chan: RGB24,
            repl: 1,
            r: Area {
                left: 0,
                upper: 0,
                right: 1,
                lower: 1,
            },
            clipr: Area {
                left: 0,
                upper: 0,
                right: FAR,
                lower: FAR,
            },
            color,
        },
    )
}

/// What is drawn where, and through which mask.
#[derive(Clone, Copy)]
pub struct Drawing {
    pub dst: u32,
    pub src: u32,
    pub mask: u32,
    pub r: Area,
    pub sp: Place,
    pub mp: Place,
}

/// Draws.
#[tactic(auto, unfolding(model_clients::specs::client::Messages::drawing))]
pub fn draw(alloc: Global, d: Drawing) -> Result<Bytes, Memory>
    ensures { IfOk result (λ bytes. bytes ≡ drawing d.dst d.src d.mask (rect_of d.r) (point_of d.sp) (point_of d.mp)) }
{
    let mut out = Bytes::new(alloc);
    out.push(b'd')?;
    put_long(&mut out, d.dst)?;
    put_long(&mut out, d.src)?;
    put_long(&mut out, d.mask)?;
    put_area(&mut out, d.r)?;
    put_place(&mut out, d.sp)?;
    put_place(&mut out, d.mp)?;
    Ok(out)
}

/// Makes an image a font of so many characters.
#[tactic(auto, unfolding(model_clients::specs::client::Messages::font))]
pub fn font(alloc: Global, id: u32, count: u32, ascent: u8) -> Result<Bytes, Memory>
    ensures { IfOk result (λ bytes. bytes ≡ font id count ascent) }
{
    let mut out = Bytes::new(alloc);
    out.push(b'i')?;
    put_long(&mut out, id)?;
    put_long(&mut out, count)?;
    out.push(ascent)?;
    Ok(out)
}

/// A character of a font, and where it stands in an image.
#[derive(Clone, Copy)]
pub struct Character {
    pub font: u32,
    pub src: u32,
    pub index: u16,
    pub r: Area,
    pub sp: Place,
    pub width: u8,
}

/// Takes a character into a font.
#[tactic(auto, unfolding(model_clients::specs::client::Messages::character))]
pub fn take_character(alloc: Global, c: Character) -> Result<Bytes, Memory>
    ensures { IfOk result (λ bytes. bytes ≡ character c.font c.src c.index (rect_of c.r) (point_of c.sp) c.width) }
{
    let mut out = Bytes::new(alloc);
    out.push(b'l')?;
    put_long(&mut out, c.font)?;
    put_long(&mut out, c.src)?;
    put_short(&mut out, c.index)?;
    put_area(&mut out, c.r)?;
    put_place(&mut out, c.sp)?;
    out.push(0)?;
    out.push(c.width)?;
    Ok(out)
}

/// Takes an id for the image with a name.
#[tactic(auto, unfolding(model_clients::specs::client::Messages::named))]
pub fn named(alloc: Global, id: u32, name: &[u8]) -> Result<Bytes, Memory>
    requires { length name.now < 2 ^ 8 }
    ensures { IfOk result (λ bytes. bytes ≡ named id name.now) }
{
    let mut out = Bytes::new(alloc);
    out.push(b'n')?;
    put_long(&mut out, id)?;
    out.push(name.len() as u8)?;
    out.push_all(name)?;
    Ok(out)
}

/// Where a string is written, with which font and from which image.
#[derive(Clone, Copy)]
pub struct Writing {
    pub dst: u32,
    pub src: u32,
    pub font: u32,
    pub p: Place,
    pub clipr: Area,
    pub sp: Place,
}

/// Writes characters by their indices.
#[tactic(auto, unfolding(model_clients::specs::client::Messages::string))]
pub fn string(alloc: Global, w: Writing, indices: &[u8]) -> Result<Bytes, Memory>
    requires { length indices.now < 2 ^ 16 }
    ensures { IfOk result (λ bytes. bytes ≡ string (writing_of w indices.now)) }
{
    let mut out = Bytes::new(alloc);
    out.push(b's')?;
    put_long(&mut out, w.dst)?;
    put_long(&mut out, w.src)?;
    put_long(&mut out, w.font)?;
    put_place(&mut out, w.p)?;
    put_area(&mut out, w.clipr)?;
    put_place(&mut out, w.sp)?;
    put_short(&mut out, indices.len() as u16)?;
    put_shorts(&mut out, indices)?;
    Ok(out)
}

/// Writes the rows of a rectangle's pixels.
#[tactic(auto, unfolding(model_clients::specs::client::Messages::rows))]
pub fn rows(alloc: Global, id: u32, r: Area, pixels: &[u8]) -> Result<Bytes, Memory>
    ensures { IfOk result (λ bytes. bytes ≡ rows id (rect_of r) pixels.now) }
{
    let mut out = Bytes::new(alloc);
    out.push(b'y')?;
    put_long(&mut out, id)?;
    put_area(&mut out, r)?;
    out.push_all(pixels)?;
    Ok(out)
}
