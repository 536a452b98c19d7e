//! What the images of a draw device take: the tiles in which hidden pixels are kept, and the most pixels that carrying out messages and
//! orders may write. Definitions that contracts of other crates cite; no code.
#![tactic(auto)]
