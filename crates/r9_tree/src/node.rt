//! A file of the tree, and what of the world it depends on.

use r9_text::Numbers;

/// A file of the served tree. 0 stands for no connection and no window.
#[derive(Clone, Copy, Debug, PartialEq, Eq)]
pub struct Node {
    /// The number of its `Kind`, 1 to 25.
    pub kind: u8,
    /// The connection of a connection's directory and files.
    pub connection: u32,
    /// The serial of the window that it tells of; for what belongs to a rio that of the rio's host.
    pub serial: u32,
    /// The serial of the window whose attach led to it.
    pub root: u32,
}

/// What of the world a node's walks and listings depend on.
#[derive(Debug, Drop)]
pub struct TreeView {
    /// The session's connections, in ascending order.
    pub connections: Numbers,
    /// The serial of the host of the rio in question, 0 for the root rio.
    pub host: u32,
    /// The numbers of that rio's windows, in ascending order.
    pub numbers: Numbers,
    /// The serials of these windows, one for each number.
    pub serials: Numbers,
    /// Whether the node's window lives.
    pub live: bool,
}
