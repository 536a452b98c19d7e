//! How a stream of 9P2000 is cut into messages (intro(5)): the definitions that contracts of other crates cite, and their laws.
#![tactic(auto)]

ghost use Rattle.std.specs.Prelude.{◌≡◌, ◌≤◌, ◌++◌, [], ◌∷◌, List, ℕ, length, drop};
ghost use Rattle.std.specs.List.{concat};
ghost use Rattle.model_files.specs.frame.Frame.{Frame, BadSize, size_of, first, given};
ghost use Rattle.model_files.specs.frame.Stream.{messages, messages_from, Reader, ready, all_taken, all_taken_from, read_in_pieces, Step, read_by, pieces_of};

/// However a stream is cut into pieces, the frames given so far and the bytes held are the stream's cut: what stands behind a frame changes nothing of it, a frame and the bytes behind it are all the bytes, and a bad size stays.
pub fn pieces_change_nothing()
    ensures frame { (limit : ℕ) (bytes more frame : List ℕ) → first limit bytes ≡ Frame frame → first limit (bytes ++ more) ≡ Frame frame }
    ensures bad { (limit size : ℕ) (bytes more : List ℕ) → first limit bytes ≡ BadSize size → first limit (bytes ++ more) ≡ BadSize size }
    ensures parts { (limit : ℕ) (bytes frame : List ℕ) → first limit bytes ≡ Frame frame → bytes ≡ frame ++ drop (length frame) bytes }
    ensures lawful { (limit : ℕ) (bytes frame : List ℕ) → first limit bytes ≡ Frame frame → (length frame ≡ size_of bytes) × (7 ≤ length frame) × (length frame ≤ limit) }
{}

/// However a stream is cut into pieces, and whatever limit each message gets by the messages before it, a reader that
/// takes all messages after each piece reads those of the whole stream, in order. What it holds at the end, and the bad
/// size if any, are those that the stream as one piece leaves; the messages and what is held are all the bytes. In front of
/// what is held no message stands, and what comes next, a bad size or that more bytes are needed, is what stands there.
/// The messages of bytes are the first one and those behind it, up to where none stands.
pub fn stream_in_pieces_is_cut_whole()
    ensures messages { (limits : List (List ℕ) → ℕ) (pieces : List (List ℕ)) → (read_in_pieces limits pieces).read ≡ messages limits [] (concat pieces) }
    ensures end { (limits : List (List ℕ) → ℕ) (pieces : List (List ℕ)) → read_in_pieces limits pieces ≡ read_in_pieces limits (concat pieces ∷ []) }
    ensures bytes { (limits : List (List ℕ) → ℕ) (pieces : List (List ℕ)) → concat (read_in_pieces limits pieces).read ++ (read_in_pieces limits pieces).framing.held ≡ concat pieces }
    ensures next { (limits : List (List ℕ) → ℕ) (pieces : List (List ℕ)) → let r = read_in_pieces limits pieces in given (ready limits r) ≡ first (limits r.read) r.framing.held }
    ensures none_left { (limits : List (List ℕ) → ℕ) (pieces : List (List ℕ)) → let r = read_in_pieces limits pieces in messages limits r.read r.framing.held ≡ [] }
    ensures first { (limits : List (List ℕ) → ℕ) (before : List (List ℕ)) (bytes : List ℕ) → messages limits before bytes ≡ messages_from limits before bytes (first (limits before) bytes) }
{}

/// A reader may also take messages at any time, some or none behind each piece. What it has read is then a front of the
/// messages of all bytes that came, it and what is held are all those bytes, and what comes next is what stands in front
/// of what is held. Once all is taken the reader is the one that took all after each piece. To take all is to take the
/// next, and on while that is a message.
pub fn messages_may_be_taken_at_any_time()
    ensures front { (limits : List (List ℕ) → ℕ) (steps : List Step) → (rest : List (List ℕ)) × (messages limits [] (concat (pieces_of steps)) ≡ (read_by limits steps).read ++ rest) }
    ensures bytes { (limits : List (List ℕ) → ℕ) (steps : List Step) → concat (read_by limits steps).read ++ (read_by limits steps).framing.held ≡ concat (pieces_of steps) }
    ensures end { (limits : List (List ℕ) → ℕ) (steps : List Step) → all_taken limits (read_by limits steps) ≡ read_in_pieces limits (pieces_of steps) }
    ensures next { (limits : List (List ℕ) → ℕ) (steps : List Step) → let r = read_by limits steps in given (ready limits r) ≡ first (limits r.read) r.framing.held }
    ensures all { (limits : List (List ℕ) → ℕ) (r : Reader) → all_taken limits r ≡ all_taken_from limits r (given (ready limits r)) }
{}
