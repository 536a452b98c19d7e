//! What a desk writes for events of the mouse, with the bands of the menus that it opens, and the law that such a history does what the
//! mouse says. Definitions, and a law about them as the contract of a function that does nothing; no code.
#![tactic(auto)]

ghost use Rattle.std.specs.Prelude.{◌≤◌, ◌^◌, List, All, length};
ghost use Rattle.model_files.specs.declared.mouse.Mouse.{Mouse};
ghost use Rattle.law_text.specs.client.Saying.{AreMessages};
ghost use Rattle.law_desk.specs.piloted.Following.{IsEvent};
ghost use Rattle.model_clients.specs.piloted.History.{IsPiloted};
ghost use Rattle.law_menus.specs.menus.Writes.{desk_history, desk_messages};

/// Where the events of the mouse are on the display, and each message that a desk says is whole, its history does what they say.
pub fn desk_histories_are_piloted()
    ensures { (events : List Mouse) → All IsEvent events → length events ≤ 10 ^ 8 → AreMessages (desk_messages events) → IsPiloted events (desk_history events) }
{}
