//! What reads of a window's console give (cons(3), rio(4)): the definitions that contracts of other crates cite, and laws
//! about them as contracts of functions that do nothing.
#![tactic(auto)]

ghost use Rattle.std.specs.Prelude.{◌≡◌, ◌≤◌, ℕ, List, [], ◌∷◌, ◌++◌};
ghost use Rattle.std.specs.List.{concat, fold};
ghost use Rattle.std.specs.Option.{unwrap_or};
ghost use Rattle.model_files.specs.console.Console.{Console, empty, held, read, after_read, text, remembered};
ghost use Rattle.model_files.specs.console.Happening.{Happening, happened, console_after, kept_after};

/// What happens next acts on the console alone: all that happened before shows in it.
pub fn console_goes_on()
    ensures { (before : List Happening) (now : Happening) → console_after (before ++ now ∷ []) ≡ happened (console_after before) now }
{}

/// It is enough to remember the end of the text after each step: what is kept so is the console after all that happened,
/// but for the front of its text.
pub fn end_of_text_is_enough()
    ensures kept { (all : List Happening) → kept_after all ≡ remembered (console_after all) }
    ensures text { (c : Console) → text (remembered c) ≡ text c }
    ensures read { (count : ℕ) (c : Console) → read count (remembered c) ≡ read count c }
{}

/// Nothing that waits is lost or given twice: what a read gives and what waits after it are what waited before.
pub fn reads_take_the_front()
    ensures { (count : ℕ) (c : Console) → unwrap_or (read count c) [] ++ concat (after_read count c).ended ≡ concat c.ended }
{}

/// At most 8,192 bytes wait, and where a full line was ended by raw mode, one more.
pub fn console_is_bounded()
    ensures { (all : List Happening) → held (console_after all) ≤ 8193 }
{}
