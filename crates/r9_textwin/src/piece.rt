//! The pieces that a text is cut into.

ghost use Rattle.std.specs.Prelude.{◌≡◌, ◌∷◌, ◌++◌, ◌<◌, ◌≤◌, ◌==◌, length, drop, position, IfSome};
ghost use Rattle.model_client.specs.textwin.Pieces.{pieces};

/// How many bytes a piece has at most.
const LONGEST: usize = 100;

fn first_newline(text: &[u8]) -> Option<usize>
    ensures first { result ≡ position (λ byte. byte == 10) text.now }
    ensures within { IfSome result (λ at. at < length text.now) }
{
    text.iter().position(|byte| *byte == b'\n')
}

/// The first piece of a text that is not empty: it ends with the first newline or with byte 100, whichever comes first,
/// or with the text.
pub fn first_piece(text: &[u8]) -> &[u8]
    requires some { 0 < length text.now }
    ensures cut { pieces text.now ≡ result.now ∷ pieces (drop (length result.now) text.now) }
    ensures front { text.now ≡ result.now ++ drop (length result.now) text.now }
    ensures some { 0 < length result.now }
    ensures short { length result.now ≤ 100 }
{
    let most = text.len().min(LONGEST);
    match first_newline(&text[..most]) {
        Some(at) => &text[..at + 1],
        None => &text[..most],
    }
}
