//! What windows show is what painting from back to front gives, in all that histories lead to: definitions, and laws as the contracts of
//! functions that do nothing.
#![tactic(auto)]

ghost use Rattle.std.specs.Prelude.{◌≡◌, ◌==◌, ℕ, false, List, Some};
ghost use Rattle.r9_event.specs.declared.event.event.Event.{Event};
ghost use Rattle.r9_event.specs.declared.event.event.Opening.{Opening};
ghost use Rattle.model_history.specs.event.Legal.{IsLegal};
ghost use Rattle.model_draw.specs.draw.World.{World as Device};
ghost use Rattle.model_draw.specs.draw.Memory.{reached};
ghost use Rattle.model_world.specs.Replay.{replay};
ghost use Rattle.law_screen.specs.Painted.{IsPainted, ReadsPainting};
ghost use Rattle.law_screen.specs.Trees.{AreTrees};

/// After each event of each legal history, each image shows what painting it from back to front gives, at each of its points and at
/// every depth of windows; and reading it gives that. Each window is in one list, once, so that it is painted in one place.
pub fn each_image_shows_its_painting()
    ensures shown { (opening : Opening) (events : List Event) → IsLegal events → IsPainted (replay opening events).desktop.device.images }
    ensures read { (opening : Opening) (events : List Event) → IsLegal events → ReadsPainting (replay opening events).desktop.device }
    ensures stands { (opening : Opening) (events : List Event) → IsLegal events → AreTrees (replay opening events).desktop.device.images }
{}

/// The same is so behind each message of a write that a session then makes.
pub fn each_message_leaves_paintings()
    ensures shown { (opening : Opening) (events : List Event) (connection done : ℕ) (bytes rest : List ℕ) (device : Device) → IsLegal events → (connection == 0) ≡ false → reached done connection (replay opening events).desktop.device bytes ≡ Some (device, rest) → IsPainted device.images }
    ensures read { (opening : Opening) (events : List Event) (connection done : ℕ) (bytes rest : List ℕ) (device : Device) → IsLegal events → (connection == 0) ≡ false → reached done connection (replay opening events).desktop.device bytes ≡ Some (device, rest) → ReadsPainting device }
    ensures stands { (opening : Opening) (events : List Event) (connection done : ℕ) (bytes rest : List ℕ) (device : Device) → IsLegal events → (connection == 0) ≡ false → reached done connection (replay opening events).desktop.device bytes ≡ Some (device, rest) → AreTrees device.images }
{}
