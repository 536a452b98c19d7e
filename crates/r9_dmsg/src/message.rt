//! The messages as values.

ghost use Rattle.std.specs.Prelude.{◌≡◌, ◌+◌, ◌*◌, ◌<◌, ◌^◌};
ghost use Rattle.model_draw_parts.specs.dmsg.Message.{spelled_len};
ghost use Rattle.r9_dmsg.specs.View.{message_of};

use r9_geom::{Point, Rect};
use r9_memory::Memory;
use r9_text::{Bytes, Numbers};

/// A message of the draw device (draw(3)). A variant is named after its letter, with Low or Up for its case, and the fields
/// have the manual's names. Coordinates are in pixels.
#[derive(Drop)]
pub enum Dmsg {
    /// Allocate an image, as a window on a screen where screenid is not 0.
    LowB {
        id: u32,
        screenid: u32,
        refresh: u8,
        chan: u32,
        repl: u8,
        r: Rect,
        clipr: Rect,
        color: u32,
    },
    /// Make an image a screen.
    UpA {
        id: u32,
        imageid: u32,
        fillid: u32,
        public: u8,
    },
    /// Set repl and the clip rectangle.
    LowC {
        dstid: u32,
        repl: u8,
        clipr: Rect,
    },
    /// Draw.
    LowD {
        dstid: u32,
        srcid: u32,
        maskid: u32,
        dstr: Rect,
        srcp: Point,
        maskp: Point,
    },
    /// Set a debugging flag.
    UpD {
        debug: u8,
    },
    /// Free an image id.
    LowF {
        id: u32,
    },
    /// Free a screen id.
    UpF {
        id: u32,
    },
    /// Make an image a font of n characters.
    LowI {
        id: u32,
        n: u32,
        ascent: u8,
    },
    /// Load a character into a font.
    LowL {
        cacheid: u32,
        srcid: u32,
        index: u16,
        r: Rect,
        sp: Point,
        left: i8,
        width: u8,
    },
    /// Tie a name to an image, or untie it where `tied` is 0. The manual calls that field `in`.
    UpN {
        id: u32,
        tied: u8,
        name: Bytes,
    },
    /// An id for the image with a name.
    LowN {
        id: u32,
        name: Bytes,
    },
    /// Move a window: its min in its own coordinates, and on its screen.
    LowO {
        id: u32,
        rmin: Point,
        scr: Point,
    },
    /// Set the operator of the next drawing.
    UpO {
        op: u8,
    },
    /// Read pixels.
    LowR {
        id: u32,
        r: Rect,
    },
    /// Draw a string.
    LowS {
        dstid: u32,
        srcid: u32,
        fontid: u32,
        p: Point,
        clipr: Rect,
        sp: Point,
        indices: Numbers,
    },
    /// An id for a public screen.
    UpS {
        id: u32,
        chan: u32,
    },
    /// Windows to the top where `top` is not 0, else to the bottom.
    LowT {
        top: u8,
        ids: Numbers,
    },
    /// Show what was drawn.
    LowV,
    /// Draw a string on a background.
    LowX {
        dstid: u32,
        srcid: u32,
        fontid: u32,
        p: Point,
        clipr: Rect,
        sp: Point,
        bgid: u32,
        bgp: Point,
        indices: Numbers,
    },
    /// Write pixels: the head. Its rows stand behind it.
    LowY {
        id: u32,
        r: Rect,
    },
}

impl Dmsg {
    /// How many bytes spell the message, its letter and its list among them, and the rows of a `y` not.
    pub fn spelled_len(&self) -> usize
        requires { spelled_len (message_of self.now) < 2 ^ 64 }
        ensures { result ≡ spelled_len (message_of self.now) }
    {
        match self {
            Dmsg::LowB { .. } => 51,
            Dmsg::UpA { .. } => 14,
            Dmsg::LowC { .. } => 22,
            Dmsg::LowD { .. } => 45,
            Dmsg::UpD { .. } | Dmsg::UpO { .. } => 2,
            Dmsg::LowF { .. } | Dmsg::UpF { .. } => 5,
            Dmsg::LowI { .. } => 10,
            Dmsg::LowL { .. } => 37,
            Dmsg::UpN { name, .. } => 7 + name.len(),
            Dmsg::LowN { name, .. } => 6 + name.len(),
            Dmsg::LowO { .. } | Dmsg::LowR { .. } | Dmsg::LowY { .. } => 21,
            Dmsg::LowS { indices, .. } => 47 + 2 * indices.len(),
            Dmsg::UpS { .. } => 9,
            Dmsg::LowT { ids, .. } => 4 + 4 * ids.len(),
            Dmsg::LowV => 1,
            Dmsg::LowX { indices, .. } => 59 + 2 * indices.len(),
        }
    }
}

/// Why no message was read.
#[derive(Clone, Copy, Debug, PartialEq, Eq)]
pub enum DmsgFault {
    /// The bytes end within the message.
    Short,
    /// No message begins with this letter.
    Unknown,
    /// The message is left out of this profile: compressed images, lines, ellipses and polygons.
    Unsupported,
    /// There was no memory for the message's list.
    Memory,
}

impl From<Memory> for DmsgFault {
    ghost use Rattle.std.specs.Prelude.{◌≡◌};
    ghost use Rattle.r9_dmsg.specs.declared.message.DmsgFault.TheVariants as fault;

    ghost from_gives = { λ _ e. e ≡ fault.Memory };

    fn from(_: Memory) -> Self {
        DmsgFault::Memory
    }
}
