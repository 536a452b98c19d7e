//! The viewer.

ghost use Rattle.std.specs.Prelude.{◌≡◌, ◌<◌, ℕ, Ok, Err, Some, None, Option, IfSome, IfOk, MatchResult, is_some, if◌then◌else◌};
ghost use Rattle.std.specs.Option.{option_map};
ghost use Rattle.std.proofs.Props.{props};
ghost use Rattle.r9_plane.specs.Pixels.{rect_of};
ghost use Rattle.r9_plane.specs.Pixels as planes;
ghost use Rattle.model_client.specs.mirror.Picture.{Picture};
ghost use Rattle.model_client.specs.mirror.Frames.{viewed};
ghost use Rattle.r9_mirror.specs.Sizes.{blank_of, size_of, IsLawful};
ghost use Rattle.r9_mirror.specs.Left.{stepped, Keeps};
ghost use Rattle.r9_mirror.specs.Shown.{shown, IsScreen};

use crate::fault::ViewFault;
use crate::lines::{Size, is_same};
use crate::place::{Place, Step};
use r9_chan::Chan;
use r9_geom::{Point, Rect};
use r9_marks::steps::Steps;
use r9_memory::Memory;
use r9_plane::Plane;
use std::alloc::Global;
use std::marker::Brand;
use std::sync::ledger::{Blank, Ledger};

/// The picture that the frames of a mirror make, none before the first of them.
#[derive(Drop)]
pub struct Viewer {
    alloc: Global,
    chan: Chan,
    plane: Option<Plane>,
    ghost screen: { IfSome plane (IsScreen chan) } by { Prim.hlevel props },
}

fn size_of(plane: &Plane) -> Size
    ensures { result ≡ size_of (shown plane.now) }
{
    let r = plane.rect();
    Size {
        width: r.width(),
        height: r.height(),
    }
}

// A plane of a size, where there is one.
fn plane_of(alloc: Global, chan: Chan, size: Option<Size>) -> Result<Option<Plane>, Memory>
    requires { IfSome size IsLawful }
    ensures size { IfOk result (λ plane. option_map (λ p. size_of (shown p)) plane ≡ size) }
    ensures screen { IfOk result (λ plane. IfSome plane (IsScreen chan)) }
{
    let Some(size) = size else { return Ok(None) };
    let r = Rect {
        min: Point { x: 0, y: 0 },
        max: Point {
            x: size.width as i64,
            y: size.height as i64,
        },
    };
    let plane = Plane::new(alloc, r, chan, 0)?;
    Ok(Some(plane))
}

// The size of the picture after frames, from the one before, or the place of the first line that does not fit.
fn check(chan: Chan, size: Option<Size>, text: &[u8]) -> Result<Option<Size>, usize>
    requires { IfSome size IsLawful }
    ensures last { (before : Option Picture) → option_map size_of before ≡ size → MatchResult result
        (λ last. (after : Option Picture) × (viewed chan before text.now ≡ Ok after) × (option_map size_of after ≡ last))
        (λ place. viewed chan before text.now ≡ Err place) }
    ensures lawful { IfOk result (λ last. IfSome last IsLawful) }
{
    let mut place = Place::new(size);
    'steps: while let Some((_, next)) = place.step(chan, text)? {
        place = next;
    }
    Ok(place.size)
}

// A frame begins on a plane, with a picture of zero bits or the one before.
fn begin<L: Ledger>(plane: &mut Plane, blank: Option<Size>, steps: &mut Steps<L>)
    ensures shown { shown plane.new ≡ (if is_some blank then blank_of (size_of (shown plane.old)) else shown plane.old) }
    ensures rect { rect_of plane.new ≡ rect_of plane.old }
    ensures chan { planes.chan_of plane.new ≡ planes.chan_of plane.old }
{
    if blank.is_none() {
        return;
    }
    plane.fill(plane.rect(), 0, steps);
}

// Shows a step on a plane of the size that the picture has after it.
fn show<L: Ledger>(plane: &mut Plane, step: Step<'_>, steps: &mut Steps<L>)
    requires screen { IsScreen (planes.chan_of plane.old) plane.old }
    requires keeps { (before : Option Size) × Keeps (planes.chan_of plane.old) before (Some (size_of (shown plane.old))) step }
    ensures shown { (before : Option Size) → (picture : Option Picture) → Keeps (planes.chan_of plane.old) before (Some (size_of (shown plane.old))) step.entry
        → (before ≡ Some (size_of (shown plane.old)) → picture ≡ Some (shown plane.old)) → stepped (planes.chan_of plane.old) step.entry picture ≡ Some (shown plane.new) }
    ensures rect { rect_of plane.new ≡ rect_of plane.old }
    ensures chan { planes.chan_of plane.new ≡ planes.chan_of plane.old }
{
    match step {
        Step::Frame { blank } => begin(plane, blank, steps),
        Step::Cell { r, rows } => plane.load(r, rows, steps),
    }
}

// Puts frames that fit on a plane of the size that the picture has after them. The plane has the picture before them where
// that has the same size. Nobody asks how many pixels it writes.
fn put<L: Ledger>(plane: &mut Plane, size: Option<Size>, text: &[u8], blank: Blank)
    requires name { blank.name ≡ L.name }
    requires parts { blank.parts ≡ L.parts }
    requires some { 0 < L.parts }
    requires screen { IsScreen (planes.chan_of plane.old) plane.old }
    requires size { IfSome size IsLawful }
    ensures shown { (before after : Option Picture) → option_map size_of before ≡ size → (size ≡ Some (size_of (shown plane.old)) → before ≡ Some (shown plane.old))
        → viewed (planes.chan_of plane.old) before text.now ≡ Ok after → option_map size_of after ≡ Some (size_of (shown plane.old)) → after ≡ Some (shown plane.new) }
    ensures rect { rect_of plane.new ≡ rect_of plane.old }
    ensures chan { planes.chan_of plane.new ≡ planes.chan_of plane.old }
{
    let own = Some(size_of(plane));
    let chan = plane.chan();
    let mut place = Place::new(size);
    let mut written = Steps::<L>::new(blank);
    'steps: while let Some((step, next)) = place.step(chan, text).unwrap_or(None) {
        place = next;
        if is_same(place.size, own) {
            show(plane, step, &mut written);
        }
    }
}

impl Viewer {
    ghost use Rattle.std.specs.Prelude.{OnErr, OnOk, IfErr};
    ghost use Rattle.std.specs.Option.{MatchOption};
    ghost use Rattle.r9_mirror.specs.declared.fault.ViewFault.TheVariants as fault;
    ghost use Rattle.r9_mirror.specs.View.{chan_of, picture_of};

    /// A viewer without a picture, of a mirror with these channels. It takes no memory.
    pub fn new(alloc: Global, chan: Chan) -> Viewer
        ensures picture { picture_of result ≡ None }
        ensures chan { chan_of result ≡ chan }
    {
        Viewer {
            alloc,
            chan,
            plane: None,
        }
    }

    /// The picture, with raw pixels in the mirror's channels, none before the first frame. It takes no memory.
    pub fn plane(&self) -> Option<&Plane>
        ensures picture { option_map (λ plane. shown plane.now) result ≡ picture_of self.now }
        ensures screen { IfSome result (λ plane. IsScreen (chan_of self.now) plane.now) }
    {
        self.plane.as_ref()
    }

    fn size(&self) -> Option<Size>
        ensures size { result ≡ option_map size_of (picture_of self.now) }
        ensures lawful { IfSome result IsLawful }
    {
        match &self.plane {
            Some(plane) => Some(size_of(plane)),
            None => None,
        }
    }

    // The picture has this size then, if any: it is the one before where that has it too.
    fn resize(&mut self, size: Option<Size>) -> Result<(), Memory>
        requires { IfSome size IsLawful }
        ensures size { OnOk result (option_map size_of (picture_of self.new) ≡ size) }
        ensures same { OnOk result (option_map size_of (picture_of self.old) ≡ size → picture_of self.new ≡ picture_of self.old) }
        ensures err { OnErr result (picture_of self.new ≡ picture_of self.old) }
        ensures chan { chan_of self.new ≡ chan_of self.old }
    {
        if is_same(self.size(), size) {
            return Ok(());
        }
        self.plane = plane_of(self.alloc, self.chan, size)?;
        Ok(())
    }

    /// Frames come. The picture is the one that they make of the one before. Bad tells the place of the first line that
    /// does not fit, where there is one, and Memory comes only where there is none; after either the picture is as before.
    /// Memory is taken only where the picture's last size is another than before, for the new picture.
    pub fn apply(&mut self, text: &[u8]) -> Result<(), ViewFault>
        ensures ok { OnOk result (viewed (chan_of self.old) (picture_of self.old) text.now ≡ Ok (picture_of self.new)) }
        ensures bad { IfErr result (λ e. (place : ℕ) → e ≡ fault.Bad place → viewed (chan_of self.old) (picture_of self.old) text.now ≡ Err place) }
        ensures memory { IfErr result (λ e. e ≡ fault.Memory → (after : Option Picture) × (viewed (chan_of self.old) (picture_of self.old) text.now ≡ Ok after)) }
        ensures before { IfErr result (λ _. picture_of self.new ≡ picture_of self.old) }
        ensures chan { chan_of self.new ≡ chan_of self.old }
    {
        let size = self.size();
        let last = match check(self.chan, size, text) {
            Ok(last) => last,
            Err(place) => return Err(ViewFault::Bad(place)),
        };
        self.resize(last)?;
        if let Some(plane) = &mut self.plane {
            put::<Brand>(plane, size, text, Blank::new(1));
        }
        Ok(())
    }
}
