//! Lists of windows, topmost first, and how they change.
#![tactic(auto)]

ghost use Rattle.std.specs.Prelude.{◌≡◌, ◌+◌, ◌<◌, ◌≤◌, ◌^◌, ◌∷◌, [], length, map, vec_len, vec_capacity, All, IfOk};
ghost use Rattle.std.specs.List.Sorted.{IsNonDecreasing};
ghost use Rattle.r9_geom.specs.Geometry.{IsNearBy, IsRectNear};
ghost use Rattle.model_forest.specs.Stack as stack;
ghost use Rattle.model_forest.specs.Steps as steps;

use crate::info::ImageNo;
use model_forest::Window;
use r9_geom::{Point, Rect};
use r9_memory::Memory;
use std::alloc::Global;

// The numbers of a group of images, among which a window is found by halves.
#[derive(Drop)]
struct Group {
    // In ascending order.
    numbers: Vec<u32>,
    ghost ascending: { IsNonDecreasing numbers.items },
}

impl Group {
    fn new(alloc: Global, images: &[ImageNo]) -> Result<Group, Memory>
        ensures { IfOk result (λ group. stack.is_in group.numbers.items ≡ stack.is_in (map (λ i. i.0) images.now)) }
    {
        let mut numbers: Vec<u32> = images.iter().map(|i| i.0).collect(alloc)?;
        numbers.sort_unstable();
        Ok(Group { numbers })
    }

    // Whether a window is one of these images.
    fn has(&self, w: &Window) -> bool
        ensures { result ≡ stack.is_in self.now.numbers.items w.now }
    {
        self.numbers.binary_search(&w.image).is_ok()
    }

    fn raised(&self, alloc: Global, windows: &[Window]) -> Result<Vec<Window>, Memory>
        ensures { IfOk result (λ list. list.items ≡ stack.raised self.now.numbers.items windows.now) }
    {
        let first = windows.iter().filter(|w| self.has(w)).copied();
        let others = windows.iter().filter(|w| !self.has(w)).copied();
        Ok(first.chain(others).collect(alloc)?)
    }

    fn lowered(&self, alloc: Global, windows: &[Window]) -> Result<Vec<Window>, Memory>
        ensures { IfOk result (λ list. list.items ≡ stack.lowered self.now.numbers.items windows.now) }
    {
        let others = windows.iter().filter(|w| !self.has(w)).copied();
        let last = windows.iter().filter(|w| self.has(w)).copied();
        Ok(others.chain(last).collect(alloc)?)
    }
}

/// The list with a group of images on top, in their order in it.
pub fn raised(alloc: Global, windows: &[Window], images: &[ImageNo]) -> Result<Vec<Window>, Memory>
    ensures { IfOk result (λ list. list.items ≡ stack.raised (map (λ i. i.0) images.now) windows.now) }
{
    let group = Group::new(alloc, images)?;
    group.raised(alloc, windows)
}

/// The list with a group of images at the bottom, in their order in it.
pub fn lowered(alloc: Global, windows: &[Window], images: &[ImageNo]) -> Result<Vec<Window>, Memory>
    ensures { IfOk result (λ list. list.items ≡ stack.lowered (map (λ i. i.0) images.now) windows.now) }
{
    let group = Group::new(alloc, images)?;
    group.lowered(alloc, windows)
}

/// The rectangle that stands to `to` as r stands to `from`.
pub fn carried_rect(r: &Rect, from: Point, to: Point) -> Rect
    requires rect { IsRectNear r.now }
    requires from { IsNearBy (2 ^ 40) from }
    requires to { IsNearBy (2 ^ 40) to }
    ensures { result ≡ steps.carried_rect r.now from to }
{
    Rect {
        min: r.min.carried(from, to),
        max: r.max.carried(from, to),
    }
}

/// Moves all windows along with a point of the image on which they stand.
pub fn carried(windows: &mut Vec<Window>, from: Point, to: Point)
    requires places { All (λ w. IsRectNear w.place) windows.old.items }
    requires from { IsNearBy (2 ^ 40) from }
    requires to { IsNearBy (2 ^ 40) to }
    ensures items { windows.new.items ≡ map (λ w. record { image = w.image; place = steps.carried_rect w.place from to }) windows.old.items }
    ensures len { vec_len windows.new ≡ vec_len windows.old }
{
    carry_each(windows, from, to);
}

fn carry_each(windows: &mut [Window], from: Point, to: Point)
    requires places { All (λ w. IsRectNear w.place) windows.old }
    requires from { IsNearBy (2 ^ 40) from }
    requires to { IsNearBy (2 ^ 40) to }
    ensures { windows.new ≡ map (λ w. record { image = w.image; place = steps.carried_rect w.place from to }) windows.old }
{
    for k in 0..windows.len() {
        let Window { image, place } = windows[k];
        windows[k] = Window {
            image,
            place: carried_rect(&place, from, to),
        };
    }
}

// Puts a window directly above another, for which there is room.
fn put_above(windows: &mut Vec<Window>, w: Window, old: u32)
    requires { vec_len windows.old < vec_capacity windows.old }
    ensures items { windows.new.items ≡ steps.put_above w old windows.old.items }
    ensures more { vec_len windows.new ≤ vec_len windows.old + 1 }
{
    for k in 0..windows.len() {
        if windows[k].image == old {
            let _ = windows.insert(k, w);
            return;
        }
    }
}

/// A window above others, in an empty list with room for all.
pub fn on_top(list: &mut Vec<Window>, w: Window, windows: &[Window])
    requires empty { list.old.items ≡ [] }
    requires room { length windows.now < vec_capacity list.old }
    ensures items { list.new.items ≡ w ∷ windows.now }
    ensures len { vec_len list.new ≡ length windows.now + 1 }
{
    let _ = list.push(w);
    let _ = list.extend_from_slice(windows);
}

/// A window directly above another of a list, in an empty list with room for all.
pub fn above(list: &mut Vec<Window>, w: Window, old: u32, windows: &[Window])
    requires empty { list.old.items ≡ [] }
    requires room { length windows.now < vec_capacity list.old }
    ensures items { list.new.items ≡ steps.put_above w old windows.now }
    ensures len { vec_len list.new ≤ length windows.now + 1 }
{
    let _ = list.extend_from_slice(windows);
    put_above(list, w, old);
}
