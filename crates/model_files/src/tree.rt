//! The served tree of files (draw(3), rio(4)): the definitions that contracts of other crates cite.
#![tactic(auto)]

/// The kinds of files. A kind's number begins a file's qid path.
#[derive(Clone, Copy, Debug, PartialEq, Eq)]
pub enum Kind {
    /// The root of the device tree.
    Device,
    /// `draw`, the directory of the session's connections to the draw device.
    Draw,
    /// `draw/new`, which makes a connection when it is opened.
    New,
    /// A connection's directory, named by its number.
    Connection,
    /// A connection's `ctl`.
    Ctl,
    /// A connection's `data`.
    Data,
    /// A connection's `refresh`.
    Refresh,
    /// `mousein`, which takes what the mouse of the display does.
    Mousein,
    /// `kbdin`, which takes what is typed.
    Kbdin,
    /// `screen`, the picture of what a rio runs on.
    Screen,
    /// `snarf`, the text that was cut last in a rio.
    Snarf,
    /// `wctl` of the device tree, which takes commands for any window.
    DeviceWctl,
    /// `wsys`, the directory of a rio's windows.
    Wsys,
    /// The root of a window's tree.
    Window,
    /// A window's `cons`.
    Cons,
    /// A window's `consctl`.
    Consctl,
    /// A window's `label`.
    Label,
    /// A window's `mouse`.
    Mouse,
    /// A window's `text`.
    Text,
    /// A window's `wctl`.
    Wctl,
    /// A window's `winid`, its number.
    Winid,
    /// A window's `winname`, the name of its image.
    Winname,
    /// `window`, the picture of a window.
    Picture,
    /// A window in the directory of windows, named by its number.
    Listed,
    /// `hwsize`, the size of the display.
    Hwsize,
}
