//! What the definitions say of the mouse, of the order of windows and of notes, and of what each table keeps.

ghost use Rattle.std.specs.Prelude.{◌≡◌, ◌==◌, ◌<◌, ◌≤◌, All, AllPairs, Contains, IsSomeAnd, length, ℕ, true, false, not, List, [], ◌∷◌, map, Some, is_some, Ok, Err};
ghost use Rattle.r9_geom.specs.declared.Point.{Point};
ghost use Rattle.r9_geom.specs.declared.Rect.{Rect};
ghost use Rattle.r9_geom.specs.Geometry.{holds};
ghost use Rattle.r9_event.specs.declared.window.Window.{Window};
ghost use Rattle.r9_event.specs.declared.event.rio.Note.TheVariants as note;
ghost use Rattle.model_files.specs.declared.mouse.Mouse.{Mouse};
ghost use Rattle.model_rio.specs.rio.Table.{Table, Held, hold_of, is_host, topmost, opened, window_of, path_up, path_of, found, serials_of};
ghost use Rattle.model_rio.specs.rio.Act.{Act};
ghost use Rattle.model_rio.specs.rio.Act as act;
ghost use Rattle.model_rio.specs.rio.Step.{Step, in_place};
ghost use Rattle.model_rio.specs.rio.Sound.{IsSound};
ghost use Rattle.model_rio.specs.rio.Notes.{AreInTurn, is_told};
ghost use Rattle.r9_event.specs.event.Orders.{EndNoConnection};
ghost use Rattle.model_rio.specs.rio.Rio.{rio};

/// While a window holds the mouse and buttons stay pressed, it alone is told of each event, wherever the pointer is, and
/// nothing else changes.
pub fn drag_goes_to_holder()
    ensures { (table : Table) (e : Mouse) (serial : ℕ) → hold_of table 0 ≡ Held serial → is_host table serial ≡ false → (e.buttons == 0) ≡ false → rio table (act.Mouse e) ≡ Ok (record { table = table; orders = []; notes = (serial, note.Mouse e.x e.y e.buttons e.msec) ∷ [] }) }
{}

/// A window that takes the place of the one with its serial leaves the order of the windows as it is.
pub fn replaced_windows_keep_their_places()
    ensures { (w : Window) (ws : List Window) → map (λ v. v.serial) (in_place w ws) ≡ map (λ v. v.serial) ws }
{}

/// The topmost window at a point is one of that rio, has the point, and is not hidden.
pub fn topmost_is_seen()
    ensures { (table : Table) (host : ℕ) (p : Point) (w : Window) → topmost table host p ≡ Some w → ((w.host == host) ≡ true) × (not w.hidden ≡ true) × (holds w.r p ≡ true) }
{}

/// A display with no windows is sound.
pub fn opening_is_sound()
    ensures { (r : Rect) → IsSound (opened r) }
{}

/// Each act that is not refused leaves a sound table sound.
pub fn acts_keep_tables_sound()
    ensures { (table : Table) (a : Act) (step : Step) → IsSound table → rio table a ≡ Ok step → IsSound step.table }
{}

/// The path of a window has at most nine numbers, and looking further up finds no more of it.
pub fn paths_have_at_most_nine_numbers()
    ensures { (table : Table) (serial : ℕ) (w : Window) → IsSound table → window_of table serial ≡ Some w → (levels : ℕ) → 9 ≤ levels → (path_up levels table serial ≡ path_up 9 table serial) × (length (path_up levels table serial) ≤ 9) }
{}

/// A window of a sound table is found by its path, and each path finds at most the one window whose path it is.
pub fn paths_name_windows()
    ensures found { (table : Table) (serial : ℕ) (w : Window) → IsSound table → window_of table serial ≡ Some w → found table (path_of table serial) ≡ Some serial }
    ensures path { (table : Table) (path : List ℕ) (serial : ℕ) → IsSound table → found table path ≡ Some serial → path_of table serial ≡ path }
{}

/// The windows of a rio are listed in ascending serial, each of them once and no other.
pub fn windows_are_listed_in_order()
    ensures ascending { (table : Table) (host : ℕ) → IsSound table → AllPairs ◌<◌ (serials_of table host) }
    ensures there { (table : Table) (host : ℕ) → IsSound table → All (λ serial. IsSomeAnd (window_of table serial) (λ w. w.host ≡ host)) (serials_of table host) }
    ensures each { (table : Table) (host serial : ℕ) (w : Window) → IsSound table → window_of table serial ≡ Some w → w.host ≡ host → Contains (serials_of table host) serial }
{}

/// What an act tells one window stands in the order made, moved or resized, hidden, current, mouse, key, deleted.
pub fn notes_stand_in_turn()
    ensures { (table : Table) (a : Act) (step : Step) → IsSound table → rio table a ≡ Ok step → AreInTurn step.notes }
{}

/// What an act orders of the draw device ends no connection.
pub fn acts_end_no_connection()
    ensures { (table : Table) (a : Act) (step : Step) → rio table a ≡ Ok step → EndNoConnection step.orders }
{}

/// A window that an act does not tell anything lives after it exactly where it lived before.
pub fn windows_come_and_go_with_notes()
    ensures { (table : Table) (a : Act) (step : Step) (window : ℕ) → rio table a ≡ Ok step → is_told window step.notes ≡ false → is_some (window_of step.table window) ≡ is_some (window_of table window) }
{}

/// Another size of the display is refused by 47 alone, where a window in one that would move would come too far out.
pub fn sizes_are_refused_as_bad_commands()
    ensures { (table : Table) (width height n : ℕ) → rio table (act.Size width height) ≡ Err n → n ≡ 47 }
{}
