//! Images that get another min in their own coordinates.

ghost use Rattle.std.specs.Prelude.{◌≡◌, option_map, IsSome};
ghost use Rattle.r9_geom.specs.Geometry.{at_min, carried, IsNear, IsRectNear};
ghost use Rattle.model_kept.specs.Keeping.{own};
ghost use Rattle.model_kept.specs.Restack.{with_shifted};
ghost use Rattle.r9_pixels.specs.Places.{shifted_form, with_form, with_places};

use super::keeping::KeptPixels;
use r9_geom::Point;

impl KeptPixels {
    ghost use Rattle.r9_pixels.specs.Kept.{form_at, has_place, kept_at, moment, rect_at, writes};

    /// Gives an image another min in its own coordinates, where its pixels move along. None is written.
    pub fn shift(&mut self, i: u32, min: Point)
        requires live { IsSome (form_at self.old i) }
        requires rect { IsRectNear (rect_at self.old i) }
        requires min { IsNear min }
        requires near { IsRectNear (at_min (rect_at self.old i) min) }
        ensures kept { kept_at self.new ≡ with_shifted i (rect_at self.old i).min min (kept_at self.old) }
        ensures has { has_place self.new ≡ with_places i (λ p. has_place self.old (own i (carried p min (rect_at self.old i).min))) (has_place self.old) }
        ensures forms { form_at self.new ≡ with_form i (option_map (shifted_form min) (form_at self.old i)) (form_at self.old) }
        ensures moment { moment self.new ≡ moment self.old }
        ensures writes { writes self.new ≡ writes self.old }
    {
        match &mut self.owns[i as usize] {
            Some(own) => own.shift(min),
            None => unreachable!(),
        }
    }
}
