//! What a client says to show a text in a window that scrolls, and the page that the window shows. Definitions; no code.
#![tactic(auto)]
