//! What is left of a directory's listing, which goes out by whole stats.

ghost use Rattle.std.specs.Prelude.{◌≡◌, ◌≤◌, ◌++◌, ℕ, List, length, Some, Ok, Err, IfOk, IfSome, OnErr};
ghost use Rattle.std.specs.List.{All, concat};
ghost use Rattle.model_files.specs.tree.Listing.{IsSized, fitting};
ghost use Rattle.model_world.specs.Reading.{given};
ghost use Rattle.r9_files.specs.declared.files.fault.Fault.{Fault};

use crate::files::fault::{Fault, READ_TOO_SHORT};
use r9_memory::Memory;
use r9_text::Bytes;
use std::alloc::Global;
use std::marker::Model;

/// What a fid keeps of a directory's listing: its stats, how many of them were given, and the offset of the read that
/// goes on (read(5)).
#[derive(Debug, Drop)]
pub struct Kept {
    stats: Vec<Bytes>,
    given: usize,
    next: u64,
}

impl Model for Kept {
    ghost use Rattle.model_world.specs.Session as model;

    ghost Value = { model.Kept };

    ghost use Rattle.r9_files.specs.files.FileView.{kept_of, IsKept};

    ghost view = { kept_of };

    ghost invariant = { IsKept };
}

/// How many bytes the stat takes with which a listing begins: None where it is cut off.
fn first_len(listing: &[u8]) -> Option<usize>
    ensures within { IfSome result (λ len. (1 ≤ len) × (len ≤ length listing.now)) }
    ensures sized { (piece rest : List ℕ) → IsSized piece → listing.now ≡ piece ++ rest → result ≡ Some (length piece) }
{
    let [low, high, rest @ ..] = listing else {
        return None;
    };
    let len = u16::from_le_bytes([*low, *high]) as usize;
    if len <= rest.len() {
        Some(2 + len)
    } else {
        None
    }
}

/// How many whole stats from the front fit into so many bytes.
fn fitting(stats: &[Bytes], count: usize) -> usize
    ensures { result ≡ length (fitting count stats.now) }
{
    let mut room = count;
    for (fit, stat) in stats.iter().enumerate() {
        if room < stat.len() {
            return fit;
        }
        room -= stat.len();
    }
    stats.len()
}

/// The bytes of stats, one behind the other.
fn joined(alloc: Global, stats: &[Bytes]) -> Result<Bytes, Memory>
    ensures { IfOk result (λ bytes. bytes ≡ concat stats.now) }
{
    let mut bytes = Bytes::new(alloc);
    for stat in stats {
        bytes.push_all(stat.as_slice())?;
    }
    Ok(bytes)
}

impl Kept {
    /// A listing of which nothing was given, cut at its stats: each begins with two bytes that tell how long the rest of
    /// it is. Nothing is said of bytes that are no such list.
    pub fn cut(alloc: Global, listing: &[u8]) -> Result<Kept, Memory>
        ensures { (pieces : List (List ℕ)) → All IsSized pieces → listing.now ≡ concat pieces → IfOk result (λ kept. kept ≡ record { left = pieces; next = 0 }) }
    {
        let mut stats = Vec::new(alloc);
        let mut rest = listing;
        while let Some(len) = first_len(rest) {
            let stat = Bytes::from_slice(alloc, &rest[..len])?;
            stats.push(stat)?;
            rest = &rest[len..];
        }
        Ok(Kept {
            stats,
            given: 0,
            next: 0,
        })
    }

    /// The offset of the read that goes on.
    pub fn next(&self) -> u64
        ensures { result ≡ self.now.next }
    {
        self.next
    }

    /// As many whole stats as fit into so many bytes: 46 where some are left and none fits. After an `Err` it is as it was.
    pub fn give(&mut self, alloc: Global, count: u32) -> Result<Bytes, Fault>
        ensures given { IfOk result (λ bytes. given self.old count ≡ Ok (self.new, bytes)) }
        ensures refused { (n : ℕ) → result ≡ Err (Fault.Refused n) → given self.old count ≡ Err n }
        ensures kept { OnErr result (self.new ≡ self.old) }
        ensures short { IfOk result (λ bytes. length bytes ≤ count) }
    {
        let left = &self.stats[self.given..];
        let fit = fitting(left, count as usize);
        if fit == 0 && !left.is_empty() {
            return Err(Fault::Refused(READ_TOO_SHORT));
        }
        let bytes = joined(alloc, &left[..fit])?;
        self.next += bytes.len() as u64;
        self.given += fit;
        Ok(bytes)
    }
}
