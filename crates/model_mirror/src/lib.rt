//! What a mirror of a history puts out: definitions, and laws as the contracts of functions that do nothing.
#![tactic(auto)]

ghost use Rattle.std.specs.Prelude.{◌≡◌, ◌+◌, ◌^◌, ◌<◌, ◌≤◌, ◌++◌, ℕ, Bool, true, false, List, Option, Some, Ok};
ghost use Rattle.r9_geom.specs.declared.Point.{Point};
ghost use Rattle.r9_marks.specs.marks.Cells.{count_cells};
ghost use Rattle.model_client.specs.mirror.Picture.{Picture};
ghost use Rattle.model_client.specs.mirror.Frames.{viewer};
ghost use Rattle.model_mirror.specs.Sent.{sent_after};
ghost use Rattle.model_mirror.specs.Frame.{IsEntry, IsFrame};
ghost use Rattle.model_mirror.specs.Pictures.{IsLawful, IsSameWhereUnsent};

/// A frame that tells the size and sends each cell makes its picture, whatever was shown before. One that tells no size, or none where
/// no cell is sent, makes its picture of one with that size that is the same in all cells which are not sent.
pub fn frames_show_what_they_send()
    ensures sized { (chan number : ℕ) (before : Option Picture) (picture : Picture) (frames frame : List ℕ) → IsLawful picture → number < 10 ^ 18 → viewer chan frames ≡ Ok before
        → IsFrame chan number true picture (λ column row. true) frame → viewer chan (frames ++ frame) ≡ Ok (Some picture) }
    ensures changed { (chan number : ℕ) (before after : Picture) (sent : (column row : ℕ) → Bool) (frames entry : List ℕ) → IsLawful after → IsSameWhereUnsent sent before after
        → 0 < number → number < 10 ^ 18 → viewer chan frames ≡ Ok (Some before) → IsEntry chan number false after sent entry → viewer chan (frames ++ entry) ≡ Ok (Some after) }
{}

/// Where the display has the size that it had, no more cells are sent than are marked, and 8: the cursor's square of 16 by 16 meets at most
/// 4 cells where it was, and 4 where it is.
pub fn few_cells_meet_the_cursor()
    ensures few { (across down : ℕ) (old new : Option Point) (marked : (column row : ℕ) → Bool) → count_cells across down (sent_after false old new marked) ≤ count_cells across down marked + 8 }
{}
