//! What a client draws with: white, black, a font, and its window's image.

ghost use Rattle.std.specs.Prelude.{◌≡◌, ◌<◌, ◌++◌, OnOk, IfOk};
ghost use Rattle.std.specs.List.{flat_map, range_with_len};
ghost use Rattle.model_clients.specs.client.Messages as messages;
ghost use Rattle.model_clients.specs.page.Text as text;
ghost use Rattle.model_clients.specs.page.Text.{cell, cells, font_rect, making};
ghost use Rattle.law_text.specs.page.Page.{IsShape};
ghost use Rattle.r9_clients.specs.drawing.Shown.{rect_of};
ghost use Rattle.r9_clients.specs.page.Shown.{shape_of};

use crate::drawing::{
    Area, Character, Image, Place, colour, font, make_image, named, rows, take_character,
};
use crate::page::shape::Shape;
use r9_memory::Memory;
use r9_text::Bytes;
use std::alloc::Global;

/// The id of an image of white.
pub const WHITE: u32 = 1;

/// The id of an image of black.
pub const BLACK: u32 = 2;

/// The id of the font, whose image has its characters side by side.
pub const LETTERS: u32 = 3;

/// The id of the window's image.
pub const WINDOW: u32 = 4;

/// How many characters a font has.
const CELLS: u16 = 95;

/// The channels k8.
const GREY8: u32 = 0x38;

/// The rectangle of a font's characters, side by side.
fn font_area(shape: Shape) -> Area
    requires { IsShape (shape_of shape) }
    ensures { rect_of result ≡ font_rect (shape_of shape) }
{
    Area {
        left: 0,
        upper: 0,
        right: u32::from(CELLS) * shape.width,
        lower: shape.height,
    }
}

/// The image of the font.
fn letters(alloc: Global, shape: Shape) -> Result<Bytes, Memory>
    requires { IsShape (shape_of shape) }
    ensures { IfOk result (λ bytes. bytes ≡ messages.image text.letters text.grey8 0 (font_rect (shape_of shape)) (font_rect (shape_of shape)) 0x000000ff) }
{
    let r = font_area(shape);
    make_image(
        alloc,
        Image {
            id: LETTERS,
            chan: GREY8,
            repl: 0,
            r,
            clipr: r,
            color: 0x0000_00ff,
        },
    )
}

/// A character of the font.
fn cell(alloc: Global, shape: Shape, code: u16) -> Result<Bytes, Memory>
    requires shape { IsShape (shape_of shape) }
    requires code { code < cells }
    ensures { IfOk result (λ bytes. bytes ≡ cell (shape_of shape) code) }
{
    let left = u32::from(code) * shape.width;
    take_character(
        alloc,
        Character {
            font: LETTERS,
            src: LETTERS,
            index: code,
            r: Area {
                left,
                upper: 0,
                right: left + shape.width,
                lower: shape.height,
            },
            sp: Place { x: left, y: 0 },
            width: shape.width as u8,
        },
    )
}

/// The characters of the font.
fn push_cells(alloc: Global, shape: Shape, out: &mut Bytes) -> Result<(), Memory>
    requires { IsShape (shape_of shape) }
    ensures { OnOk result (out.new ≡ out.old ++ flat_map (cell (shape_of shape)) (range_with_len 0 cells)) }
{
    for code in 0..CELLS {
        let message = cell(alloc, shape, code)?;
        out.push_all(message.as_slice())?;
    }
    Ok(())
}

/// The draw messages that make white and black, the font, whose pixels are rows of one byte for each, and the window's image.
#[tactic(auto, unfolding(model_clients::specs::page::Text::making))]
pub fn making(alloc: Global, shape: Shape, pixels: &[u8]) -> Result<Bytes, Memory>
    requires { IsShape (shape_of shape) }
    ensures { IfOk result (λ bytes. bytes ≡ making (shape_of shape) pixels.now) }
{
    let mut out = Bytes::new(alloc);
    out.push_all(colour(alloc, WHITE, 0xffff_ffff)?.as_slice())?;
    out.push_all(colour(alloc, BLACK, 0x0000_00ff)?.as_slice())?;
    out.push_all(letters(alloc, shape)?.as_slice())?;
    out.push_all(font(alloc, LETTERS, u32::from(CELLS), 0)?.as_slice())?;
    push_cells(alloc, shape, &mut out)?;
    out.push_all(rows(alloc, LETTERS, font_area(shape), pixels)?.as_slice())?;
    out.push_all(named(alloc, WINDOW, b"window.1.1")?.as_slice())?;
    Ok(out)
}
