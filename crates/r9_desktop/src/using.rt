//! Which sessions use a window.

ghost use Rattle.std.specs.Prelude.{◌≡◌, ◌==◌, ◌≤◌, ◌++◌, not, nat_le, filter, length, IfOk, OnOk};
ghost use Rattle.std.specs.List.{list_any, position_or_len};
ghost use Rattle.model_world.specs.Desktop.{is_user, users_of, with_user, without_user};
ghost use Rattle.model_world.specs.Fids.{put};
ghost use Rattle.r9_desktop.specs.Words.{in_front};

use crate::telling::Users;
use r9_memory::Memory;
use r9_text::Numbers;
use std::alloc::Global;

/// The sessions that use a window.
pub(crate) fn users_of(users: &Users, window: u32) -> &[u32]
    ensures { result.now ≡ users_of users.now.entries window }
{
    match users.get(&window) {
        Some(sessions) => sessions.as_slice(),
        None => &[],
    }
}

/// Whether a session uses a window.
pub(crate) fn is_user(users: &Users, window: u32, session: u32) -> bool
    ensures { result ≡ is_user users.now.entries window session }
{
    users_of(users, window).iter().any(|user| *user == session)
}

/// Where a number stands among others that ascend, or would stand.
fn place_of(numbers: &[u32], n: u32) -> usize
    ensures place { result ≡ position_or_len (λ m. nat_le n m) numbers.now }
    ensures within { result ≤ length numbers.now }
{
    numbers
        .iter()
        .position(|m| n <= *m)
        .unwrap_or(numbers.len())
}

/// Adds a number at the end, and others behind it, where they do not begin with it.
fn push_before(out: &mut Numbers, n: u32, behind: &[u32]) -> Result<(), Memory>
    ensures { OnOk result (out.new ≡ out.old ++ in_front n behind.now) }
{
    match behind {
        [first, ..] if *first == n => out.push_all(behind),
        _ => {
            out.push(n)?;
            out.push_all(behind)
        }
    }
}

/// A number among others that ascend, once.
fn put(alloc: Global, n: u32, numbers: &[u32]) -> Result<Numbers, Memory>
    ensures { IfOk result (λ all. all ≡ put n numbers.now) }
{
    let (before, behind) = numbers.split_at(place_of(numbers, n));
    let mut all = Numbers::from_slice(alloc, before)?;
    push_before(&mut all, n, behind)?;
    Ok(all)
}

/// A session uses a window from now on.
pub(crate) fn add_user(
    alloc: Global,
    users: &mut Users,
    window: u32,
    session: u32,
) -> Result<(), Memory>
    ensures { OnOk result (users.new.entries ≡ with_user users.old.entries window session) }
{
    let sessions = put(alloc, session, users_of(users, window))?;
    users.insert(window, sessions)?;
    Ok(())
}

/// The sessions that use a window but for one.
fn other_users(alloc: Global, users: &Users, window: u32, session: u32) -> Result<Numbers, Memory>
    ensures { IfOk result (λ others. others ≡ filter (λ c. not (c == session)) (users_of users.now.entries window)) }
{
    let sessions = users_of(users, window).iter().copied();
    let others: Vec<u32> = sessions.filter(|user| *user != session).collect(alloc)?;
    Ok(Numbers::from(others))
}

/// A session uses a window no longer.
pub(crate) fn remove_user(
    alloc: Global,
    users: &mut Users,
    window: u32,
    session: u32,
) -> Result<(), Memory>
    ensures { OnOk result (users.new.entries ≡ without_user users.old.entries window session) }
{
    let others = other_users(alloc, users, window, session)?;
    if let Some(sessions) = users.get_mut(&window) {
        *sessions = others;
    }
    Ok(())
}
