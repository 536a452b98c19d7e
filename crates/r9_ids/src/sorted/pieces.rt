//! Rows in pieces, which together ascend.

ghost use Rattle.std.specs.Prelude.{◌≡◌, ◌+◌, ◌<◌, ◌≤◌, [], ◌∷◌, None, Some, suc, find, length, take, drop, slice_index_or, slice_set, vec_len, vec_capacity, IsSome};
ghost use Rattle.std.specs.List.{insert};
ghost use Rattle.r9_ids.specs.sorted.Rows.{Ascend, has_key, first_from, put_in_order, without_key, set_row};
ghost use Rattle.r9_ids.specs.sorted.Pieces.{AreFilled, joined, place, slot};
ghost use Rattle.r9_ids.specs.declared.sorted.piece.TheConstants.{HALF, MOST};

use crate::sorted::key::{Key, Keyed};
use crate::sorted::piece::Piece;

// The place of the first piece with a row whose key is not smaller, or how many pieces there are.
fn place<T: Keyed>(pieces: &[Piece<T>], key: Key) -> usize
    requires ascend { Ascend T.key_of (joined pieces.now) }
    requires filled { AreFilled pieces.now }
    ensures { result ≡ place T.key_of key pieces.now }
{
    pieces.partition_point(|piece| piece.ends_before(key))
}

pub(crate) fn first_among<T: Keyed>(pieces: &[Piece<T>], key: Key) -> Option<T>
    requires ascend { Ascend T.key_of (joined pieces.now) }
    requires filled { AreFilled pieces.now }
    ensures { result ≡ first_from T.key_of key (joined pieces.now) }
{
    match pieces.get(place(pieces, key)) {
        Some(piece) => piece.first_from(key),
        None => None,
    }
}

// Adds a row to the piece in which it belongs, and gives that piece's place.
pub(crate) fn put_among<T: Keyed>(pieces: &mut Vec<Piece<T>>, row: T) -> usize
    requires ascend { Ascend T.key_of (joined pieces.old.items) }
    requires filled { AreFilled pieces.old.items }
    requires some { 0 < vec_len pieces.old }
    requires absent { find (has_key T.key_of (T.key_of row)) (joined pieces.old.items) ≡ None }
    ensures place { result ≡ slot T.key_of (T.key_of row) pieces.old.items }
    ensures pieces { pieces.new.items ≡ slice_set pieces.old.items result (put_in_order T.key_of row (slice_index_or pieces.old.items result [])) }
    ensures len { vec_len pieces.new ≡ vec_len pieces.old }
    ensures capacity { vec_capacity pieces.new ≡ vec_capacity pieces.old }
{
    let at = place(pieces, row.key()).min(pieces.len() - 1);
    let piece = &mut pieces[at];
    piece.put(row);
    at
}

// Takes the row with a key, where there is one, out of its piece, which goes where no row is left.
pub(crate) fn remove_among<T: Keyed>(pieces: &mut Vec<Piece<T>>, key: Key) -> Option<T>
    requires ascend { Ascend T.key_of (joined pieces.old.items) }
    requires filled { AreFilled pieces.old.items }
    ensures found { result ≡ find (has_key T.key_of key) (joined pieces.old.items) }
    ensures rows { joined pieces.new.items ≡ without_key T.key_of key (joined pieces.old.items) }
    ensures filled { AreFilled pieces.new.items }
    ensures len { vec_len pieces.new ≤ vec_len pieces.old }
    ensures capacity { vec_capacity pieces.new ≡ vec_capacity pieces.old }
{
    let at = place(pieces, key);
    if at == pieces.len() {
        return None;
    }
    let piece = &mut pieces[at];
    let found = piece.remove(key);
    if piece.len() == 0 {
        pieces.remove(at);
    }
    found
}

// Puts the row in the place of that with its key, which is there.
pub(crate) fn set_among<T: Keyed>(pieces: &mut Vec<Piece<T>>, row: T)
    requires ascend { Ascend T.key_of (joined pieces.old.items) }
    requires filled { AreFilled pieces.old.items }
    requires there { IsSome (find (has_key T.key_of (T.key_of row)) (joined pieces.old.items)) }
    ensures rows { joined pieces.new.items ≡ set_row T.key_of row (joined pieces.old.items) }
    ensures filled { AreFilled pieces.new.items }
    ensures len { vec_len pieces.new ≡ vec_len pieces.old }
    ensures capacity { vec_capacity pieces.new ≡ vec_capacity pieces.old }
{
    let at = place(pieces, row.key());
    let piece = &mut pieces[at];
    piece.set(row);
}

// Makes the piece that was kept the first, of this row.
pub(crate) fn put_first<T: Keyed>(pieces: &mut Vec<Piece<T>>, spare: &mut Option<Piece<T>>, row: T)
    requires none { pieces.old.items ≡ [] }
    requires room { vec_len pieces.old < vec_capacity pieces.old }
    requires kept { spare.old ≡ Some [] }
    ensures pieces { pieces.new.items ≡ (row ∷ []) ∷ [] }
    ensures spare { spare.new ≡ None }
{
    let Some(mut piece) = spare.take() else {
        unreachable!();
    };
    piece.put(row);
    pieces.push_reserved(piece);
}

// Moves the upper half of a full piece into the one that was kept, which follows it then.
pub(crate) fn split<T: Keyed>(pieces: &mut Vec<Piece<T>>, at: usize, spare: &mut Option<Piece<T>>)
    requires within { at < vec_len pieces.old }
    requires full { length (slice_index_or pieces.old.items at []) ≡ MOST }
    requires room { vec_len pieces.old < vec_capacity pieces.old }
    requires kept { spare.old ≡ Some [] }
    ensures pieces { pieces.new.items ≡ insert (slice_set pieces.old.items at (take HALF (slice_index_or pieces.old.items at []))) (suc at) (drop HALF (slice_index_or pieces.old.items at [])) }
    ensures spare { spare.new ≡ None }
{
    let Some(mut upper) = spare.take() else {
        unreachable!();
    };
    let piece = &mut pieces[at];
    piece.split(&mut upper);
    match pieces.insert(at + 1, upper) {
        Ok(()) => {}
        Err(_) => unreachable!(),
    }
}
