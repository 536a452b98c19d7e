//! The size of the display (rio(4)).

ghost use Rattle.std.specs.Prelude.{◌≡◌, ◌^◌, ◌++◌, ◌≤ℤ◌, neg_ℤ, pos, Ok, Err, IfErr, IfOk, OnOk};
ghost use Rattle.r9_geom.specs.Geometry.{distance, height, width, IsRectNearBy};
ghost use Rattle.model_text.specs.text.Field.{number_field};
ghost use Rattle.model_world.specs.Desktop.{is_as_large};
ghost use Rattle.model_world.specs.Reading.{size_text};
ghost use Rattle.model_world.specs.Whole.{resized, size_of};
ghost use Rattle.r9_files.specs.around.Words.{IfRefused};
ghost use Rattle.r9_desktop.specs.Words.{SameClients};
ghost use Rattle.r9_desktop.specs.World.{began_of, desktop_of};

use crate::desktop::Desktop;
use model_history::words::Size;
use r9_files::files::Fault;
use r9_geom::{Rect, distance};
use r9_memory::Memory;
use r9_text::{Bytes, push_number};
use r9_wmgr::wmgr::Act;
use std::alloc::Global;

/// How far the second coordinate is above the first; 0 where it is below.
#[tactic(auto, using(crate::proofs::Sides::distance_none))]
fn side(from: i64, to: i64) -> u64
    ensures { result ≡ distance from to }
{
    if from <= to { distance(from, to) } else { 0 }
}

/// Whether two rectangles have one size.
pub(crate) fn is_as_large(a: &Rect, b: &Rect) -> bool
    ensures { result ≡ is_as_large a.now b.now }
{
    side(a.min.x, a.max.x) == side(b.min.x, b.max.x)
        && side(a.min.y, a.max.y) == side(b.min.y, b.max.y)
}

/// Adds how far one coordinate is above another as a number in a field.
#[tactic(auto, using(crate::proofs::Sides::distance_most))]
fn push_side(out: &mut Bytes, from: i64, to: i64) -> Result<(), Memory>
    requires from { neg_ℤ (pos (2 ^ 33)) ≤ℤ from }
    requires to { to ≤ℤ pos (2 ^ 33) }
    ensures { OnOk result (out.new ≡ out.old ++ number_field (pos (distance from to))) }
{
    push_number(out, side(from, to) as i64)
}

/// The sides of a rectangle, each as a number in a field.
fn size_text(alloc: Global, r: &Rect) -> Result<Bytes, Memory>
    requires { IsRectNearBy (2 ^ 33) r.now }
    ensures { IfOk result (λ text. text ≡ size_text (record { width = width r.now; height = height r.now })) }
{
    let mut text = Bytes::new(alloc);
    push_side(&mut text, r.min.x, r.max.x)?;
    push_side(&mut text, r.min.y, r.max.y)?;
    Ok(text)
}

impl Desktop {
    /// Whether the display has changed its size.
    #[tactic(auto, unfolding(crate::specs::World::desktop_of))]
    pub fn has_changed_size(&self) -> bool
        ensures { result ≡ (desktop_of self.now).sized }
    {
        self.sized
    }

    /// What `hwsize` tells: how many pixels the display has across and down, each in a field.
    #[tactic(auto, unfolding(crate::specs::World::desktop_of))]
    pub fn size_text(&self) -> Result<Bytes, Memory>
        ensures { IfOk result (λ text. text ≡ size_text (size_of (desktop_of self.now).table)) }
    {
        size_text(self.alloc, &self.manager.rect())
    }

    /// Gives the display another size; windows that have no point of it move to its corner. Refused by 47 exactly where a window
    /// in one that moves would come too far out, and then all is as before; of Memory nothing is said.
    #[tactic(auto, unfolding(crate::specs::World::desktop_of, crate::specs::World::began_of, model_world::specs::Whole::resized))]
    pub fn resize(&mut self, size: Size) -> Result<(), Fault>
        ensures done { OnOk result (resized (desktop_of self.old) size ≡ Ok (desktop_of self.new)) }
        ensures refused { IfErr result (λ f. IfRefused f (λ n. resized (desktop_of self.old) size ≡ Err n)) }
        ensures kept { IfErr result (λ f. IfRefused f (λ n. desktop_of self.new ≡ desktop_of self.old)) }
        ensures clients { OnOk result (SameClients (desktop_of self.old) (desktop_of self.new)) }
        ensures began { began_of self.new ≡ began_of self.old }
    {
        let Size { width, height } = size;
        self.step(Act::Size { width, height })
    }
}
