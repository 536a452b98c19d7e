//! What a draw device shows of the windows: definitions, and what each change of a device leaves as it was. No code.
#![tactic(auto)]
