//! What the queue is, said of the whole list of what happened.

ghost use Rattle.std.specs.Prelude.{◌≡◌, ◌≤◌, ◌<◌, ℕ, List, [], ◌∷◌, ◌++◌, length, slice_get, Some};
ghost use Rattle.model_files.specs.declared.mouse.Mouse.{Mouse};
ghost use Rattle.model_files.specs.mouse.Queue.{Queue, next};
ghost use Rattle.model_files.specs.mouse.Happening.{Happening, happened, queue_after, clicks_of, last_of_all, EndsIn};

/// What happens next acts on the queue alone: all that happened before shows in it.
pub fn queue_goes_on()
    ensures { (before : List Happening) (now : Happening) → queue_after (before ++ now ∷ []) ≡ happened (queue_after before) now }
{}

/// The clicks that wait are at most 16, and the latest of all clicks that came. The last event is the last that came.
pub fn clicks_stand_in_order()
    ensures few { (all : List Happening) → length (queue_after all).clicks ≤ 16 }
    ensures latest { (all : List Happening) → EndsIn (clicks_of all) (queue_after all).clicks }
    ensures last { (all : List Happening) → (queue_after all).last ≡ last_of_all all }
{}

/// A read gives the oldest click that waits, whatever moves wait beside it.
pub fn read_is_oldest()
    ensures { (q : Queue) (e : Mouse) → slice_get q.clicks 0 ≡ Some e → next q.clicks q.move q ≡ Some e }
{}
