//! Words among blanks and tabs.

ghost use Rattle.std.specs.Prelude.{◌≡◌, ◌≤◌, ◌<◌, not, length, drop, IfSome};
ghost use Rattle.std.specs.List.{prefix_len};
ghost use Rattle.model_text.specs.text.Word.{is_blank, next_word};

fn is_blank(byte: u8) -> bool
    ensures { result ≡ is_blank byte }
{
    byte == b' ' || byte == b'\t'
}

/// How many blanks and tabs a text begins with.
fn blanks(text: &[u8]) -> usize
    ensures len { result ≡ prefix_len is_blank text.now }
    ensures within { result ≤ length text.now }
{
    text.iter().take_while(|byte| is_blank(**byte)).count()
}

/// How many bytes that are no blank or tab a text begins with.
fn letters(text: &[u8]) -> usize
    ensures len { result ≡ prefix_len (λ byte. not (is_blank byte)) text.now }
    ensures within { result ≤ length text.now }
{
    text.iter().take_while(|byte| !is_blank(**byte)).count()
}

/// Where the first word begins and ends, none of it before a place: a run of bytes that are no blank or tab.
/// None exactly where there is none.
#[tactic(auto, unfolding(model_text::specs::text::Word::next_word))]
pub fn next_word(text: &[u8], at: usize) -> Option<(usize, usize)>
    ensures word { result ≡ next_word text.now at }
    ensures within { IfSome result (λ w. (at ≤ w.0) × (w.0 < w.1) × (w.1 ≤ length text.now)) }
{
    if text.len() < at {
        return None;
    }
    let start = at + blanks(&text[at..]);
    let len = letters(&text[start..]);
    if len == 0 {
        None
    } else {
        Some((start, start + len))
    }
}
