//! Comparing words.

ghost use Rattle.std.specs.Prelude.{◌≡◌, ◌-◌, length, slice_index};
ghost use Rattle.std.specs.Str.{bytes_eq};

/// The last byte of a word, 0 where it is empty.
fn last_byte(word: &[u8]) -> u8
    ensures { result ≡ slice_index word.now (length word.now - 1) }
{
    if word.is_empty() {
        0
    } else {
        word[word.len() - 1]
    }
}

/// Whether a word is this one. Only words of one length that end in one byte are compared wholly.
#[tactic(auto, using(crate::proofs::wctl::Unlike::unlike_lengths, crate::proofs::wctl::Unlike::unlike_ends))]
pub fn is_word(word: &[u8], other: &[u8]) -> bool
    ensures { result ≡ bytes_eq word.now other.now }
{
    if word.len() != other.len() {
        return false;
    }
    if last_byte(word) != last_byte(other) {
        return false;
    }
    word == other
}
