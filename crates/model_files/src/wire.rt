//! The messages of 9P2000 (intro(5)) and what spells them: the definitions that contracts of other crates cite, and their laws.
#![tactic(auto)]

ghost use Rattle.std.specs.Prelude.{◌≡◌, ◌++◌, [], List, ℕ, Some};
ghost use Rattle.model_text.specs.text.Number.{AreBytes};
ghost use Rattle.model_files.specs.wire.Message.{T, R, Stat};
ghost use Rattle.model_files.specs.wire.Spelling.{SpellsT, SpellsR, SpellsStat};
ghost use Rattle.model_files.specs.wire.Reading.{message_of, reply_of, front_of, stat_at};

/// The client's message that reading gives is the one that the bytes spell, and bytes spell no other.
/// So each message that fits has one spelling, and each spelling one message.
pub fn reads_what_is_spelled()
    ensures read { (bytes : List ℕ) (m : T) → AreBytes bytes → message_of bytes ≡ Some m → SpellsT bytes m }
    ensures spelled { (bytes : List ℕ) (m : T) → SpellsT bytes m → message_of bytes ≡ Some m }
{}

/// The same of replies.
pub fn reads_replies()
    ensures read { (bytes : List ℕ) (m : R) → AreBytes bytes → reply_of bytes ≡ Some m → SpellsR bytes m }
    ensures spelled { (bytes : List ℕ) (m : R) → SpellsR bytes m → reply_of bytes ≡ Some m }
{}

/// The same of stats, each with what stands behind it.
pub fn reads_stats()
    ensures read { (bytes rest : List ℕ) (s : Stat) → AreBytes bytes → stat_at bytes ≡ Some (s, rest) → (text : List ℕ) × SpellsStat text s × (bytes ≡ text ++ rest) }
    ensures spelled { (bytes rest : List ℕ) (s : Stat) → SpellsStat bytes s → stat_at (bytes ++ rest) ≡ Some (s, rest) }
{}

/// A message is read back from the front of bytes, whatever stands behind it.
pub fn reads_what_is_in_front()
    ensures t { (bytes rest : List ℕ) (m : T) → SpellsT bytes m → front_of message_of (bytes ++ rest) ≡ Some (m, rest) }
    ensures r { (bytes rest : List ℕ) (m : R) → SpellsR bytes m → front_of reply_of (bytes ++ rest) ≡ Some (m, rest) }
{}

/// No spelling is the front of another.
pub fn no_spelling_goes_on()
    ensures t { (bytes more : List ℕ) (m n : T) → SpellsT bytes m → SpellsT (bytes ++ more) n → more ≡ [] }
    ensures r { (bytes more : List ℕ) (m n : R) → SpellsR bytes m → SpellsR (bytes ++ more) n → more ≡ [] }
    ensures stat { (bytes more : List ℕ) (s u : Stat) → SpellsStat bytes s → SpellsStat (bytes ++ more) u → more ≡ [] }
{}
