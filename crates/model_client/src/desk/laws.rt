//! What the table is, said of the whole list of events.

ghost use Rattle.std.specs.Prelude.{◌≡◌, List, [], ◌∷◌, ◌++◌};
ghost use Rattle.model_files.specs.declared.mouse.Mouse.{Mouse};
ghost use Rattle.model_client.specs.desk.Table.{Desk};
ghost use Rattle.model_client.specs.desk.Pilot.{after, written, pilot, after_all};

/// An event that comes next writes its texts behind all others, and acts on the table alone.
pub fn pilot_goes_on()
    ensures texts { (before : List Mouse) (e : Mouse) → pilot (before ++ e ∷ []) ≡ pilot before ++ written (after_all before) e }
    ensures table { (before : List Mouse) (e : Mouse) → after_all (before ++ e ∷ []) ≡ after (after_all before) e }
{}
