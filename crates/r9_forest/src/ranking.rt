//! A list of windows with one more: topmost, or directly above or below another.

ghost use Rattle.std.specs.Prelude.{◌≡◌, ◌+◌, ◌<◌, ◌≤◌, [], length, vec_capacity, vec_len, IfOk};
ghost use Rattle.model_exchanged.specs.exchanged.Exchanged as exchanged;
ghost use Rattle.r9_forest.specs.Replaced.{put_in};

use model_forest::Window;
use r9_locate::lists::{above, on_top};
use r9_memory::Memory;
use std::alloc::Global;

/// Where a window comes in a list: topmost, or directly above or below another.
#[derive(Clone, Copy)]
pub(crate) enum Rank {
    Top,
    Above(u32),
    Below(u32),
}

// Puts a window directly below another, for which there is room.
fn put_below(windows: &mut Vec<Window>, w: Window, old: u32)
    requires { vec_len windows.old < vec_capacity windows.old }
    ensures items { windows.new.items ≡ exchanged.put_below w old windows.old.items }
    ensures more { vec_len windows.new ≤ vec_len windows.old + 1 }
{
    for k in 0..windows.len() {
        if windows[k].image == old {
            let _ = windows.insert(k + 1, w);
            return;
        }
    }
}

// A window directly below another of a list, in an empty list with room for all.
fn beneath(list: &mut Vec<Window>, w: Window, old: u32, windows: &[Window])
    requires empty { list.old.items ≡ [] }
    requires room { length windows.now < vec_capacity list.old }
    ensures items { list.new.items ≡ exchanged.put_below w old windows.now }
    ensures len { vec_len list.new ≤ length windows.now + 1 }
{
    let _ = list.extend_from_slice(windows);
    put_below(list, w, old);
}

/// The list with a window more.
pub(crate) fn with_window(
    alloc: Global,
    windows: &[Window],
    w: Window,
    rank: Rank,
) -> Result<Vec<Window>, Memory>
    ensures { IfOk result (λ list. list.items ≡ put_in rank w windows.now) }
{
    let mut list = Vec::with_capacity(alloc, windows.len() + 1)?;
    match rank {
        Rank::Top => on_top(&mut list, w, windows),
        Rank::Above(old) => above(&mut list, w, old, windows),
        Rank::Below(old) => beneath(&mut list, w, old, windows),
    }
    Ok(list)
}
