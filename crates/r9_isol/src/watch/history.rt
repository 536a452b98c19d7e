//! What is watched one entry after the other is what is defined of the whole history.

ghost use Rattle.std.specs.Prelude.{◌≡◌, ℕ, [], List, None, true, false};
ghost use Rattle.r9_event.specs.declared.event.event.Did.{Did};
ghost use Rattle.r9_event.specs.declared.event.event.Entry.{Entry};
ghost use Rattle.r9_event.specs.declared.event.event.Event.{Event};
ghost use Rattle.r9_event.specs.declared.event.event.Opening.{Opening};
ghost use Rattle.model_alone.specs.alone.Own.{is_empty, not_alone, unseen};
ghost use Rattle.r9_isol.specs.watch.History.{next_judged, watched_in, Ends, GoesOn, ShowsTheSame};

/// A watch that begins with nothing and sees each entry of a history has what the session is told in it, and stops at the first entry
/// by which the session is not alone, with the lowest reason.
pub fn watches_hold_histories()
    ensures starts { (opening : Opening) (c : ℕ) → watched_in opening c [] ≡ record { session = c; seen = unseen; items = [] } }
    ensures shows { (opening : Opening) (c : ℕ) (events : List Event) (entry : Entry) (did : Did) → ShowsTheSame opening c events entry did }
    ensures goes_on { (opening : Opening) (c : ℕ) (events : List Event) (event : Event) → not_alone opening c events ≡ None → is_empty (next_judged opening c events event).reasons ≡ true → GoesOn opening c events event }
    ensures ends { (opening : Opening) (c : ℕ) (events : List Event) (event : Event) → not_alone opening c events ≡ None → is_empty (next_judged opening c events event).reasons ≡ false → Ends opening c events event }
{}
