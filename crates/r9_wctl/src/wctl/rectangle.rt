//! What the options of a command make of a rectangle.

ghost use Rattle.std.specs.Prelude.{◌≡◌, ◌+ℤ◌, ◌-ℤ◌, ◌^◌, if◌then◌else◌, Some, None, IfOk, IfErr};
ghost use Rattle.model_files.specs.wctl.Rectangle.{given, after_choice, with_minx, with_miny, is_side, is_coordinate, is_near, is_window, applied};
ghost use Rattle.r9_geom.specs.Geometry.{IsRectNear};
ghost use Rattle.r9_wctl.specs.wctl.Small.{IsSmall, IsSmallChoice, number_of};
ghost use Rattle.r9_wctl.specs.wctl.Reach.{IsWithin, IsFar, IsFarRect};

use crate::wctl::options::Options;
use model_files::wctl::{Amount, Choice};
use r9_geom::{Point, Rect};

/// The refusal of a command (rio(4)).
const BAD_COMMAND: u8 = 47;

/// The sides of a window and its greatest coordinate, in pixels.
const LEAST_SIDE: i64 = 12;

const GREATEST_SIDE: i64 = 2_048;

const FARTHEST: i64 = 1_048_576;

/// The number that an amount gives, from the quantity so far.
#[tactic(auto, using(crate::proofs::wctl::Bounds::given_far))]
fn given(so_far: i64, amount: Amount) -> i64
    requires far { IsWithin (2 ^ 51) so_far }
    requires small { IsSmall (number_of amount) }
    ensures value { result ≡ given so_far amount }
    ensures far { IsWithin (2 ^ 52) result }
{
    match amount {
        Amount::Is(n) => n,
        Amount::Plus(n) => so_far + n,
        Amount::Minus(n) => so_far - n,
    }
}

/// The size of a side.
#[tactic(auto, using(crate::proofs::wctl::Bounds::side_far))]
fn side(low: i64, high: i64) -> i64
    requires low { IsFar low }
    requires high { IsFar high }
    ensures value { result ≡ high -ℤ low }
    ensures far { IsWithin (2 ^ 51) result }
{
    high - low
}

/// How far an edge has moved.
#[tactic(auto, using(crate::proofs::wctl::Bounds::moved_far))]
fn offset(from: i64, to: i64) -> i64
    requires from { IsFar from }
    requires to { IsWithin (2 ^ 52) to }
    ensures value { result ≡ to -ℤ from }
    ensures far { IsWithin (2 ^ 53) result }
{
    to - from
}

/// The place so far from another.
fn at_distance(place: i64, distance: i64) -> i64
    requires place { IsFar place }
    requires distance { IsWithin (2 ^ 53) distance }
    ensures { result ≡ place +ℤ distance }
{
    place + distance
}

/// The upper edge where the lower one is another: it follows in a move.
fn following(high: i64, low: i64, other: i64, moves: bool) -> i64
    requires low { IsFar low }
    requires high { IsFar high }
    requires other { IsWithin (2 ^ 52) other }
    ensures { result ≡ (if moves then high +ℤ (other -ℤ low) else high) }
{
    if moves {
        at_distance(high, offset(low, other))
    } else {
        high
    }
}

fn with_minx(r: Rect, x: i64, moves: bool) -> Rect
    requires rect { IsFarRect r }
    requires edge { IsWithin (2 ^ 52) x }
    ensures { result ≡ with_minx moves r x }
{
    Rect {
        min: Point { x, y: r.min.y },
        max: Point {
            x: following(r.max.x, r.min.x, x, moves),
            y: r.max.y,
        },
    }
}

fn with_miny(r: Rect, y: i64, moves: bool) -> Rect
    requires rect { IsFarRect r }
    requires edge { IsWithin (2 ^ 52) y }
    ensures { result ≡ with_miny moves r y }
{
    Rect {
        min: Point { x: r.min.x, y },
        max: Point {
            x: r.max.x,
            y: following(r.max.y, r.min.y, y, moves),
        },
    }
}

/// The edge so far from another.
fn at_size(low: i64, size: i64) -> i64
    requires low { IsFar low }
    requires size { IsWithin (2 ^ 52) size }
    ensures { result ≡ low +ℤ size }
{
    low + size
}

/// The rectangle after one option.
fn after_choice(r: Rect, choice: Choice, moves: bool) -> Rect
    requires rect { IsFarRect r }
    requires small { IsSmallChoice choice }
    ensures { result ≡ after_choice moves r choice }
{
    match choice {
        Choice::R(other) => other,
        Choice::Minx(amount) => with_minx(r, given(r.min.x, amount), moves),
        Choice::Miny(amount) => with_miny(r, given(r.min.y, amount), moves),
        Choice::Maxx(amount) => Rect {
            min: r.min,
            max: Point {
                x: given(r.max.x, amount),
                y: r.max.y,
            },
        },
        Choice::Maxy(amount) => Rect {
            min: r.min,
            max: Point {
                x: r.max.x,
                y: given(r.max.y, amount),
            },
        },
        Choice::Dx(amount) => Rect {
            min: r.min,
            max: Point {
                x: at_size(r.min.x, given(side(r.min.x, r.max.x), amount)),
                y: r.max.y,
            },
        },
        Choice::Dy(amount) => Rect {
            min: r.min,
            max: Point {
                x: r.max.x,
                y: at_size(r.min.y, given(side(r.min.y, r.max.y), amount)),
            },
        },
    }
}

fn is_side(n: i64) -> bool
    ensures { result ≡ is_side n }
{
    LEAST_SIDE <= n && n <= GREATEST_SIDE
}

fn is_coordinate(n: i64) -> bool
    ensures { result ≡ is_coordinate n }
{
    -FARTHEST <= n && n <= FARTHEST
}

fn is_near(r: Rect) -> bool
    ensures { result ≡ is_near r }
{
    if !is_coordinate(r.min.x) {
        return false;
    }
    if !is_coordinate(r.min.y) {
        return false;
    }
    if !is_coordinate(r.max.x) {
        return false;
    }
    is_coordinate(r.max.y)
}

fn is_sized(low: i64, high: i64) -> bool
    requires low { IsFar low }
    requires high { IsFar high }
    ensures { result ≡ is_side (high -ℤ low) }
{
    is_side(side(low, high))
}

fn is_window(r: Rect) -> bool
    requires { IsFarRect r }
    ensures { result ≡ is_window r }
{
    if !is_sized(r.min.x, r.max.x) {
        return false;
    }
    if !is_sized(r.min.y, r.max.y) {
        return false;
    }
    is_near(r)
}

/// The rectangle that options make of a first one, from left to right; with `moves`, as in the command `move`, another
/// min takes the max along. Refused by 47 exactly where a side of it is below 12 or above 2,048 pixels, or a coordinate
/// is further than 1,048,576 from 0.
#[tactic(auto, unfolding(model_files::specs::wctl::Rectangle::applied))]
pub fn apply(o: &Options, start: Rect, moves: bool) -> Result<Rect, u8>
    requires near { IsRectNear start }
    ensures rectangle { IfOk result (λ r. applied moves o.now start ≡ Some r) }
    ensures refused { IfErr result (λ n. (n ≡ 47) × (applied moves o.now start ≡ None)) }
{
    let mut r = start;
    for choice in o.as_slice() {
        r = after_choice(r, *choice, moves);
    }
    if is_window(r) {
        Ok(r)
    } else {
        Err(BAD_COMMAND)
    }
}
