//! What a server leaves of its world, and answers, when its only client shows a text in a window. Definitions, a law about them as the
//! contract of a function that does nothing, and the lemmas that proofs of other crates cite; no code.
#![tactic(auto)]

ghost use Rattle.std.specs.Prelude.{◌≡◌, ◌*◌, ℕ, List, [], length, map, replicate, true};
ghost use Rattle.std.specs.List.{flat_map};
ghost use Rattle.r9_geom.specs.declared.Point.{Point};
ghost use Rattle.r9_geom.specs.Geometry.{holds};
ghost use Rattle.model_history.specs.event.Legal.{IsLegal};
ghost use Rattle.model_forest.specs.View.{view};
ghost use Rattle.model_draw.specs.draw.Orders.{image_shown};
ghost use Rattle.model_world.specs.World.{World};
ghost use Rattle.law_text.specs.client.Saying.{AreMessages};
ghost use Rattle.model_text.specs.text.Number.{AreBytes};
ghost use Rattle.model_client.specs.textwin.Moves.{put_codes};
ghost use Rattle.model_client.specs.textwin.Pieces.{pieces};
ghost use Rattle.model_client.specs.textwin.Wrap.{blank, characters};
ghost use Rattle.model_clients.specs.page.Text.{Shape, cells, page_rect};
ghost use Rattle.model_clients.specs.page.Page.{page};
ghost use Rattle.law_text.specs.page.Page.{IsShape, Numbers};
ghost use Rattle.law_text.specs.typed.Typing.{AllFit, Piece, ShowsPage, ShowsText, text_history, text_messages};
ghost use Rattle.model_clients.specs.typed.Shown.{IsShown};
ghost use Rattle.law_text.specs.typed.Shown.{pages};

/// A client that is a server's only session shows a text in a window: what it says before the first piece is answered without
/// an error, and leaves the empty page; each piece is answered by the number of its bytes, and leaves the page after it. A page that
/// shows is what window 1 shows. The history is legal, where each of its messages is whole.
pub fn texts_are_shown()
    ensures shown { (shape : Shape) (pixels : List ℕ) (pieces : List Piece) → IsShape shape → AreBytes pixels → length pixels ≡ shape.height * (cells * shape.width) → AllFit shape (replicate shape.rows []) pieces → ShowsText shape pixels pieces }
    ensures viewed { (shape : Shape) (pixels : List ℕ) (n : Numbers) (rows : List (List ℕ)) (world : World) (p : Point) → ShowsPage shape pixels n rows world → holds (page_rect shape) p ≡ true → view world.desktop.device.images (image_shown world.desktop.device 1) p ≡ page shape pixels rows p }
    ensures legal { (shape : Shape) (pixels : List ℕ) (pieces : List Piece) → AreMessages (text_messages shape pixels pieces) → IsLegal (text_history shape pixels pieces) }
{}

/// Where the moves of each piece of a text lead to the rows of the page after it, put the characters of the text in order, and each
/// message is whole, the history shows the text.
pub fn text_histories_show_texts()
    ensures { (shape : Shape) (pixels text : List ℕ) (all : List Piece) → IsShape shape → AreBytes pixels → length pixels ≡ shape.height * (cells * shape.width) → AllFit shape (replicate shape.rows []) all → map (λ piece. piece.1) all ≡ pages shape blank (pieces text) → flat_map (λ piece. put_codes piece.0) all ≡ characters text → AreMessages (text_messages shape pixels all) → IsShown shape pixels text (text_history shape pixels all) }
{}
