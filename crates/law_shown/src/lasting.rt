//! Each order of the window manager and each message of a connection leaves what a draw device shows of the windows: a law as the
//! contract of a function that does nothing.
#![tactic(auto)]

ghost use Rattle.std.specs.Prelude.{◌≡◌, ◌==◌, ℕ, List, Option, false};
ghost use Rattle.r9_geom.specs.declared.Rect.{Rect};
ghost use Rattle.model_draw.specs.draw.World.{World, after_leave};
ghost use Rattle.model_draw.specs.draw.Act.{written};
ghost use Rattle.law_shown.specs.shown.Showing.{IsOrderly, ShowsRio, ShowsWindow};

/// What a connection writes, refused or not, and its end leave each window and each rio that the device shows: no connection but the
/// window manager's frees their images and screens, or gives them another size or other channels.
pub fn connections_leave_windows_and_rios()
    ensures orderly { (k : ℕ) (device : World) (bytes : List ℕ) (mark : Option ℕ) → (k == 0) ≡ false → IsOrderly device → IsOrderly (written k device bytes mark).world }
    ensures windows { (k : ℕ) (device : World) (bytes : List ℕ) (mark : Option ℕ) (window : ℕ) (r : Rect) → (k == 0) ≡ false → IsOrderly device → ShowsWindow device window r → ShowsWindow (written k device bytes mark).world window r }
    ensures rios { (k : ℕ) (device : World) (bytes : List ℕ) (mark : Option ℕ) (host : ℕ) → (k == 0) ≡ false → IsOrderly device → ShowsRio device host → ShowsRio (written k device bytes mark).world host }
    ensures left { (k : ℕ) (device : World) → (k == 0) ≡ false → IsOrderly device → IsOrderly (after_leave device k) }
    ensures left_windows { (k : ℕ) (device : World) (window : ℕ) (r : Rect) → (k == 0) ≡ false → IsOrderly device → ShowsWindow device window r → ShowsWindow (after_leave device k) window r }
    ensures left_rios { (k : ℕ) (device : World) (host : ℕ) → (k == 0) ≡ false → IsOrderly device → ShowsRio device host → ShowsRio (after_leave device k) host }
{}
