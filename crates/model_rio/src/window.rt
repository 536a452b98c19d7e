//! Definitions: what happened at a window, as one list, what the window's files give after it (rio(4)), and what has to be
//! kept of a window for that. Laws about them are contracts of functions that do nothing.
#![tactic(auto)]

ghost use Rattle.std.specs.Prelude.{◌≡◌, ℕ, List, [], ◌∷◌, ◌++◌};
ghost use Rattle.model_files.specs.mouse.Queue.{answer_text};
ghost use Rattle.model_files.specs.console.Console.{read, text};
ghost use Rattle.model_rio.specs.window.Heard.{Heard, known_after, label_of, mouse_answer, console_answer, text_of, is_held_by, mouse_held_in, consctl_held_in};
ghost use Rattle.model_rio.specs.window.Pane.{pane_heard, pane_after};

/// What happens next acts on what is kept alone: all that happened before shows in it.
pub fn pane_goes_on()
    ensures { (before : List Heard) (now : Heard) → pane_after (before ++ now ∷ []) ≡ pane_heard (pane_after before) now }
{}

/// What is kept of a window is enough for its files: they give what they give after the list of all that happened.
pub fn pane_is_enough()
    ensures known { (heard : List Heard) → known_after heard ≡ (pane_after heard).known }
    ensures label { (heard : List Heard) → label_of heard ≡ (pane_after heard).label }
    ensures mouse { (heard : List Heard) → mouse_answer heard ≡ answer_text (pane_after heard).mouse }
    ensures console { (count : ℕ) (heard : List Heard) → console_answer count heard ≡ read count (pane_after heard).console }
    ensures text { (heard : List Heard) → text_of heard ≡ text (pane_after heard).console }
    ensures mouse_held { (heard : List Heard) → is_held_by mouse_held_in heard ≡ (pane_after heard).mouse_held }
    ensures consctl_held { (heard : List Heard) → is_held_by consctl_held_in heard ≡ (pane_after heard).consctl_held }
{}
