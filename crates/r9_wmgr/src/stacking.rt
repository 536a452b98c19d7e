//! Lists of windows in the order of stacking, and of rios: what is found in them, and how they change (rio(1), rio(4)).
#![tactic(auto)]

mod lists;

pub use lists::{
    Change, bottom_up, change_rios, changed, find_numbered, find_rio, find_topmost, find_window,
    is_same, lower, made_in, push_hosts, raise, replace, windows_off, without, without_rio,
};
