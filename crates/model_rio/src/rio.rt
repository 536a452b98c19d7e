//! The windows of rio, and what each act does to them (rio(1), rio(4)): the definitions that contracts of other crates cite,
//! and laws about them as contracts of functions that do nothing.
#![tactic(auto)]

mod laws;

pub use laws::{
    acts_end_no_connection, acts_keep_tables_sound, drag_goes_to_holder, notes_stand_in_turn,
    opening_is_sound, paths_have_at_most_nine_numbers, paths_name_windows,
    replaced_windows_keep_their_places, sizes_are_refused_as_bad_commands, topmost_is_seen,
    windows_are_listed_in_order, windows_come_and_go_with_notes,
};
