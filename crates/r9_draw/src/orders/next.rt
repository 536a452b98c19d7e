//! The image that a window gets in place of another.

ghost use Rattle.model_draw.specs.cost.Cost.{coming};
ghost use Rattle.model_draw.specs.draw.Orders.{corner, white};
ghost use Rattle.model_forest.specs.Numbers.{next_number, taken};
ghost use Rattle.r9_draw.specs.orders.Ordering.{CanReplace, images_come, images_next, images_put, images_replaced, renewing, replacing_images};
ghost use Rattle.r9_layers.specs.Forest.{moment, numbers, room, world, writes};
ghost use Rattle.std.specs.Prelude.{IfOk, None, OnErr, OnOk, ◌+◌, ◌<◌, ◌≡◌, ◌≤◌};

use crate::orders::image::{add_border, white};
use crate::orders::rects::corner;
use r9_geom::Rect;
use r9_images::images::Book;
use r9_layers::{Forest, ImageNo};
use r9_marks::steps::Steps;
use r9_memory::Memory;
use std::sync::ledger::Ledger;

// What a window gets in place of its image: an image among the windows where the old one stands, or topmost on a parent.
#[derive(Clone, Copy)]
pub(crate) struct Next {
    pub old: ImageNo,
    pub screen: u32,
    pub above: bool,
    pub parent: ImageNo,
    pub fill: ImageNo,
    pub r: Rect,
    pub keep: bool,
    pub hidden: bool,
}

// A white image, or one of the same contents, that comes directly below another or topmost on a parent. The other stays
// where it stands.
fn put_next<L: Ledger>(
    forest: &mut Forest,
    next: &Next,
    steps: &mut Steps<L>,
) -> Result<ImageNo, Memory>
    requires next { CanReplace (world forest.old) next.now }
    ensures number { IfOk result (λ i. i.0 ≡ next_number (numbers forest.old)) }
    ensures free { IfOk result (λ i. world forest.old i.0 ≡ None) }
    ensures made { IfOk result (λ i. world forest.new ≡ images_put (world forest.old) i.0 next.now) }
    ensures taken { OnOk result (numbers forest.new ≡ taken (numbers forest.old)) }
    ensures room { room forest.old ≤ room forest.new }
    ensures kept_images { OnErr result (world forest.new ≡ world forest.old) }
    ensures kept_numbers { OnErr result (numbers forest.new ≡ numbers forest.old) }
    ensures steps { steps.new ≤ steps.old + coming next.now.r }
    ensures moment { moment forest.new ≡ moment forest.old }
    ensures writes { writes forest.new + steps.old ≡ writes forest.old + steps.new }
{
    let corner = corner(&next.r, next.hidden);
    if next.above {
        let raw = white(forest.info(next.old).chan);
        return forest.put_under(next.old, next.r, corner, raw, next.keep, steps);
    }
    let raw = white(forest.info(next.parent).chan);
    forest.put_on(
        next.old,
        next.parent,
        next.fill,
        next.r,
        corner,
        raw,
        next.keep,
        steps,
    )
}

// A white image in place of another, which moves far outside, or one of the same contents.
fn replace_next<L: Ledger>(
    forest: &mut Forest,
    next: &Next,
    steps: &mut Steps<L>,
) -> Result<ImageNo, Memory>
    requires next { CanReplace (world forest.old) next.now }
    ensures number { IfOk result (λ i. i.0 ≡ next_number (numbers forest.old)) }
    ensures free { IfOk result (λ i. world forest.old i.0 ≡ None) }
    ensures made { IfOk result (λ i. world forest.new ≡ images_replaced (world forest.old) i.0 next.now) }
    ensures taken { OnOk result (numbers forest.new ≡ taken (numbers forest.old)) }
    ensures room { room forest.old ≤ room forest.new }
    ensures kept_images { OnErr result (world forest.new ≡ world forest.old) }
    ensures kept_numbers { OnErr result (numbers forest.new ≡ numbers forest.old) }
    ensures steps { steps.new ≤ steps.old + replacing_images (world forest.old) next.now }
    ensures moment { moment forest.new ≡ moment forest.old }
    ensures writes { writes forest.new + steps.old ≡ writes forest.old + steps.new }
{
    let corner = corner(&next.r, next.hidden);
    if next.above {
        let raw = white(forest.info(next.old).chan);
        return forest.replace(next.old, next.r, corner, raw, next.keep, steps);
    }
    let raw = white(forest.info(next.parent).chan);
    forest.replace_on(
        next.old,
        next.parent,
        next.fill,
        next.r,
        corner,
        raw,
        next.keep,
        steps,
    )
}

// The one or the other.
fn next_white<L: Ledger>(
    forest: &mut Forest,
    next: &Next,
    stays: bool,
    steps: &mut Steps<L>,
) -> Result<ImageNo, Memory>
    requires next { CanReplace (world forest.old) next.now }
    ensures number { IfOk result (λ i. i.0 ≡ next_number (numbers forest.old)) }
    ensures free { IfOk result (λ i. world forest.old i.0 ≡ None) }
    ensures made { IfOk result (λ i. world forest.new ≡ images_next (world forest.old) i.0 next.now stays) }
    ensures taken { OnOk result (numbers forest.new ≡ taken (numbers forest.old)) }
    ensures room { room forest.old ≤ room forest.new }
    ensures kept_images { OnErr result (world forest.new ≡ world forest.old) }
    ensures kept_numbers { OnErr result (numbers forest.new ≡ numbers forest.old) }
    ensures steps { steps.new ≤ steps.old + replacing_images (world forest.old) next.now }
    ensures moment { moment forest.new ≡ moment forest.old }
    ensures writes { writes forest.new + steps.old ≡ writes forest.old + steps.new }
{
    if stays {
        put_next(forest, next, steps)
    } else {
        replace_next(forest, next, steps)
    }
}

// With its border, where it does not keep the contents. There is room in the book for its id first.
pub(crate) fn next_window<L: Ledger>(
    forest: &mut Forest,
    book: &mut Book,
    next: &Next,
    stays: bool,
    steps: &mut Steps<L>,
) -> Result<ImageNo, Memory>
    requires next { CanReplace (world forest.old) next.now }
    ensures number { IfOk result (λ i. i.0 ≡ next_number (numbers forest.old)) }
    ensures free { OnOk result (world forest.old (next_number (numbers forest.old)) ≡ None) }
    ensures made { OnOk result (world forest.new ≡ images_come (world forest.old) (next_number (numbers forest.old)) next.now stays) }
    ensures taken { OnOk result (numbers forest.new ≡ taken (numbers forest.old)) }
    ensures room { room forest.old ≤ room forest.new }
    ensures kept_images { OnErr result (world forest.new ≡ world forest.old) }
    ensures kept_numbers { OnErr result (numbers forest.new ≡ numbers forest.old) }
    ensures book { book.new.book ≡ book.old.book }
    ensures space { OnOk result (0 < book.new.room) }
    ensures steps { steps.new ≤ steps.old + renewing (world forest.old) next.now }
    ensures moment { moment forest.new ≡ moment forest.old }
    ensures writes { writes forest.new + steps.old ≡ writes forest.old + steps.new }
{
    forest.keeps();
    book.reserve()?;
    let image = next_white(forest, next, stays, steps)?;
    if !next.keep {
        add_border(forest, image, steps);
    }
    Ok(image)
}
