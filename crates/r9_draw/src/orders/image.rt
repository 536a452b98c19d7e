//! White images with the border of a window, and what the book of ids has of them.

ghost use Rattle.model_draw.specs.cost.Cost.{border, coming};
ghost use Rattle.model_draw.specs.draw.Orders.{bordered, new_white, inside_border, white, with_window_id, with_window_name};
ghost use Rattle.model_forest.specs.Draw.{with_canvas};
ghost use Rattle.model_forest.specs.Numbers.{next_number, taken};
ghost use Rattle.model_forest.specs.Stack.{after_window};
ghost use Rattle.model_forest.specs.World.{image_at};
ghost use Rattle.model_draw_parts.specs.images.Book.{fill_of, image_of, is_image_id_taken};
ghost use Rattle.model_pixel.specs.Channels as channels;
ghost use Rattle.model_pixel.specs.Channels.{pack};
ghost use Rattle.r9_draw.specs.orders.Ordering.{CanFill};
ghost use Rattle.r9_device.specs.device.Live.{CanHold};
ghost use Rattle.r9_geom.specs.Geometry.{HasPoints, IsRectNearBy, area_of, holds};
ghost use Rattle.r9_layers.specs.Forest.{moment, numbers, room, world, writes};
ghost use Rattle.std.specs.List.{list_any, sum_by};
ghost use Rattle.std.specs.Prelude.{All, IfOk, None, OnErr, OnOk, false, is_some, true, ◌+◌, ◌<◌, ◌==◌, ◌^◌, ◌≡◌, ◌≤◌};

use crate::orders::rects::inside_border;
use r9_chan::{Chan, Colour};
use r9_geom::Rect;
use r9_images::images::{Book, BookFault};
use r9_layers::{Forest, ImageNo};
use r9_marks::steps::Steps;
use r9_memory::Memory;
use std::sync::ledger::Ledger;

// The raw pixel of a window that nothing was drawn on.
pub(crate) fn white(chan: Chan) -> u32
    ensures value { result ≡ white chan }
    ensures range { result < 2 ^ channels.depth chan }
{
    chan.pack(Colour::of_word(0xffff_ffff))
}

// Parts of an image become one raw pixel, where they are bare.
fn fill_parts<L: Ledger>(
    forest: &mut Forest,
    image: ImageNo,
    parts: &[Rect],
    raw: u32,
    steps: &mut Steps<L>,
)
    requires live { is_some (world forest.old image.0) ≡ true }
    requires parts { All (CanFill (image_at (world forest.old) image.0).r) parts.now }
    requires raw { raw < 2 ^ channels.depth (image_at (world forest.old) image.0).chan }
    ensures world { world forest.new ≡ with_canvas (world forest.old) image.0 (λ p. list_any (λ r. holds r p) parts.now) (λ _. raw) }
    ensures numbers { numbers forest.new ≡ numbers forest.old }
    ensures room { room forest.old ≤ room forest.new }
    ensures steps { steps.new ≤ steps.old + sum_by area_of parts.now }
    ensures moment { moment forest.new ≡ moment forest.old }
    ensures writes { writes forest.new + steps.old ≡ writes forest.old + steps.new }
{
    for part in parts {
        forest.fill(image, *part, raw, steps);
    }
}

// An image gets the border of a window.
pub(crate) fn add_border<L: Ledger>(forest: &mut Forest, image: ImageNo, steps: &mut Steps<L>)
    requires live { is_some (world forest.old image.0) ≡ true }
    requires near { IsRectNearBy (2 ^ 32) (image_at (world forest.old) image.0).r }
    ensures world { world forest.new ≡ bordered (world forest.old) image.0 }
    ensures numbers { numbers forest.new ≡ numbers forest.old }
    ensures room { room forest.old ≤ room forest.new }
    ensures steps { steps.new ≤ steps.old + border (image_at (world forest.old) image.0).r }
    ensures moment { moment forest.new ≡ moment forest.old }
    ensures writes { writes forest.new + steps.old ≡ writes forest.old + steps.new }
{
    forest.keeps();
    let info = forest.info(image);
    let raw = info.chan.pack(Colour::of_word(0x55aa_aaff));
    let border = info.r.minus(&inside_border(&info.r));
    fill_parts(
        forest,
        image,
        &border.part[..usize::from(border.count)],
        raw,
        steps,
    );
}

// A white image, topmost on a screen.
fn new_white<L: Ledger>(
    forest: &mut Forest,
    book: &Book,
    screen: u32,
    place: Rect,
    steps: &mut Steps<L>,
) -> Result<ImageNo, Memory>
    requires near { IsRectNearBy (2 ^ 32) place }
    requires points { HasPoints place }
    requires screen { CanHold (world forest.old) book.now.book screen (image_at (world forest.old) (image_of book.now.book screen)).chan }
    ensures number { IfOk result (λ i. i.0 ≡ next_number (numbers forest.old)) }
    ensures free { IfOk result (λ i. world forest.old i.0 ≡ None) }
    ensures made { IfOk result (λ i. world forest.new ≡ after_window (world forest.old) i.0 (image_of book.now.book screen) (fill_of book.now.book screen) place (white (image_at (world forest.old) (image_of book.now.book screen)).chan)) }
    ensures taken { OnOk result (numbers forest.new ≡ taken (numbers forest.old)) }
    ensures room { room forest.old ≤ room forest.new }
    ensures kept_images { OnErr result (world forest.new ≡ world forest.old) }
    ensures kept_numbers { OnErr result (numbers forest.new ≡ numbers forest.old) }
    ensures steps { steps.new ≤ steps.old + coming place }
    ensures moment { moment forest.new ≡ moment forest.old }
    ensures writes { writes forest.new + steps.old ≡ writes forest.old + steps.new }
{
    let parent = ImageNo(book.image_of(screen));
    let fill = ImageNo(book.fill_of(screen));
    let white = white(forest.info(parent).chan);
    forest.window(parent, fill, place, white, steps)
}

// An image gets the id of a window, and stands on a screen. There is room for it.
pub(crate) fn add_window(book: &mut Book, window: u32, image: ImageNo, screen: u32)
    requires fresh { is_image_id_taken book.old.book 0 window ≡ false }
    requires room { 0 < book.old.room }
    ensures { book.new.book ≡ with_window_id book.old.book window image.0 screen }
{
    match book.add_id(0, window, image.0, Some(screen)) {
        Ok(()) => {}
        Err(_) => unreachable!(),
    }
}

// A white image, topmost on a screen, with the id of a window. Room for the id is made first.
pub(crate) fn put_white<L: Ledger>(
    forest: &mut Forest,
    book: &mut Book,
    window: u32,
    screen: u32,
    place: Rect,
    steps: &mut Steps<L>,
) -> Result<ImageNo, Memory>
    requires fresh { is_image_id_taken book.old.book 0 window ≡ false }
    requires near { IsRectNearBy (2 ^ 32) place }
    requires points { HasPoints place }
    requires screen { CanHold (world forest.old) book.old.book screen (image_at (world forest.old) (image_of book.old.book screen)).chan }
    ensures number { IfOk result (λ i. i.0 ≡ next_number (numbers forest.old)) }
    ensures free { OnOk result (world forest.old (next_number (numbers forest.old)) ≡ None) }
    ensures made { OnOk result (world forest.new ≡ after_window (world forest.old) (next_number (numbers forest.old)) (image_of book.old.book screen) (fill_of book.old.book screen) place (white (image_at (world forest.old) (image_of book.old.book screen)).chan)) }
    ensures taken { OnOk result (numbers forest.new ≡ taken (numbers forest.old)) }
    ensures book { OnOk result (book.new.book ≡ with_window_id book.old.book window (next_number (numbers forest.old)) screen) }
    ensures room { room forest.old ≤ room forest.new }
    ensures kept_images { OnErr result (world forest.new ≡ world forest.old) }
    ensures kept_numbers { OnErr result (numbers forest.new ≡ numbers forest.old) }
    ensures kept_book { OnErr result (book.new.book ≡ book.old.book) }
    ensures steps { steps.new ≤ steps.old + coming place }
    ensures moment { moment forest.new ≡ moment forest.old }
    ensures writes { writes forest.new + steps.old ≡ writes forest.old + steps.new }
{
    book.reserve()?;
    let image = new_white(forest, book, screen, place, steps)?;
    add_window(book, window, image, screen);
    Ok(image)
}

// A window has a name from now on, unless another has it.
pub(crate) fn tie_window(book: &mut Book, window: u32, name: &[u8]) -> Result<(), Memory>
    ensures named { OnOk result (book.new.book ≡ with_window_name book.old.book window name.now) }
    ensures kept { OnErr result (book.new.book ≡ book.old.book) }
{
    match book.tie(0, window, name) {
        Ok(()) | Err(BookFault::Refused(_)) => Ok(()),
        Err(BookFault::Memory) => Err(Memory),
    }
}
