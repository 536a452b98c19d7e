//! What a message asks for, where it is not refused.

ghost use Rattle.model_draw.specs.cost.Cost.{message_cost};
ghost use Rattle.model_draw.specs.draw.Act.{act, behind};
ghost use Rattle.model_draw.specs.draw.Memory.{takes_no_memory};
ghost use Rattle.model_text.specs.text.Map.{lookup};
ghost use Rattle.r9_dmsg.specs.Listed.{has_list};
ghost use Rattle.r9_dmsg.specs.View.{IsNearMessage, message_of};
ghost use Rattle.r9_draw.specs.messages.Costs.{plan_cost};
ghost use Rattle.r9_draw.specs.messages.Plans.{IsReady, after, is_spare, rows_behind};
ghost use Rattle.r9_device.specs.device.World.{world_of};
ghost use Rattle.std.specs.Prelude.{Err, IfErr, IfOk, IsSome, Ok, drop, false, length, ◌≡◌, ◌≤◌};

use crate::messages::fonts::{CellAsked, loading, making_font};
use crate::messages::image::{Asked, allocate, free, set_clip};
use crate::messages::pixels::{Ids, operator, read, task, write_rows};
use crate::messages::screen::{free_screen, screening, sharing};
use crate::messages::window::moving;
use r9_chan::{Chan, Op};
use r9_device::device::Device;
use r9_dmsg::Dmsg;
use r9_geom::{Point, Rect};
use r9_layers::ImageNo;

/// An image that is to be made, and its id.
#[derive(Clone, Copy)]
pub struct Making {
    pub id: u32,
    pub screen: Option<u32>,
    pub chan: Chan,
    pub repl: bool,
    pub r: Rect,
    pub clipr: Rect,
    pub raw: u32,
    // How many bytes its rows have.
    pub len: u32,
}

/// An image that is to be made a screen, with its fill, and the screen's id.
#[derive(Clone, Copy)]
pub struct Screening {
    pub id: u32,
    pub public: bool,
    pub image: ImageNo,
    pub fill: ImageNo,
}

/// What is to be drawn.
#[derive(Clone, Copy)]
pub struct Task {
    pub dst: ImageNo,
    pub src: ImageNo,
    pub mask: ImageNo,
    pub r: Rect,
    pub sp: Point,
    pub mp: Point,
}

/// A character that is to be loaded into a font, the image id `id` of a connection.
#[derive(Clone, Copy)]
pub struct Loading {
    pub id: u32,
    pub cache: ImageNo,
    pub src: ImageNo,
    pub index: u16,
    pub r: Rect,
    pub sp: Point,
    pub left: i8,
    pub width: u8,
}

/// What a message does that is not refused.
#[derive(Clone, Copy)]
pub enum Plan {
    Nothing,
    Make(Making),
    SetClip {
        image: ImageNo,
        repl: bool,
        clipr: Rect,
    },
    Draw(Task),
    Free {
        id: u32,
    },
    FreeScreen {
        id: u32,
    },
    MakeFont {
        id: u32,
        n: u32,
        ascent: u8,
    },
    LoadCell(Loading),
    MakeScreen(Screening),
    ShareScreen {
        id: u32,
        screen: u32,
    },
    Move {
        image: ImageNo,
        rmin: Point,
        scr: Point,
    },
    SetOperator(Op),
    Read {
        image: ImageNo,
        r: Rect,
    },
    // The rows stand first in the bytes behind the message.
    Write {
        image: ImageNo,
        r: Rect,
        len: usize,
    },
}

impl Plan {
    ghost use Rattle.r9_draw.specs.messages.Plans.{rows_behind};

    /// How many of the bytes behind the message belong to it.
    pub fn rows_behind(&self) -> usize
        ensures { result ≡ rows_behind self.now }
    {
        match self {
            Plan::Write { len, .. } => *len,
            _ => 0,
        }
    }
}

/// What a message without a list asks for, with the bytes behind it, or its first refusal.
#[tactic(auto, unfolding(model_draw::specs::draw::Act::act, model_draw::specs::draw::Act::behind, model_draw::specs::cost::Cost::message_cost))]
pub fn plan_message(device: &Device, client: u64, message: &Dmsg, rest: &[u8]) -> Result<Plan, u8>
    requires live { IsSome (lookup (world_of device.now).clients client) }
    requires near { IsNearMessage message.now }
    requires plain { has_list (message_of message.now) ≡ false }
    ensures acts { IfOk result (λ p. act client (world_of device.now) (message_of message.now) rest.now ≡ Ok (after client (world_of device.now) p rest.now)) }
    ensures behind { IfOk result (λ p. behind client (world_of device.now) (message_of message.now) rest.now ≡ drop (rows_behind p) rest.now) }
    ensures within { IfOk result (λ p. rows_behind p ≤ length rest.now) }
    ensures ready { IfOk result (λ p. IsReady client (world_of device.now) p rest.now) }
    ensures spare { IfOk result (λ p. takes_no_memory client (world_of device.now) (message_of message.now) ≡ is_spare (world_of device.now) p) }
    ensures refused { IfErr result (λ n. act client (world_of device.now) (message_of message.now) rest.now ≡ Err n) }
    ensures cost { IfOk result (λ p. plan_cost client (world_of device.now) p ≡ message_cost client (world_of device.now) (message_of message.now)) }
{
    // One arm for each letter: it names the fields and calls the function that does the work. In groups of letters the
    // clauses above would be stated once for each group.
    match message {
        Dmsg::LowB {
            id,
            screenid,
            refresh,
            chan,
            repl,
            r,
            clipr,
            color,
        } => {
            let asked = Asked {
                id: *id,
                screenid: *screenid,
                refresh: *refresh,
                chan: *chan,
                repl: *repl != 0,
                r: *r,
                clipr: *clipr,
                color: *color,
            };
            let making = allocate(device, client, &asked)?;
            Ok(Plan::Make(making))
        }
        Dmsg::LowC { dstid, repl, clipr } => {
            let repl = *repl != 0;
            let image = set_clip(device, client, *dstid, repl, clipr)?;
            Ok(Plan::SetClip {
                image,
                repl,
                clipr: *clipr,
            })
        }
        Dmsg::LowD {
            dstid,
            srcid,
            maskid,
            dstr,
            srcp,
            maskp,
        } => {
            let ids = Ids {
                dst: *dstid,
                src: *srcid,
                mask: *maskid,
            };
            let task = task(device, client, &ids, dstr, *srcp, *maskp)?;
            Ok(Plan::Draw(task))
        }
        Dmsg::UpD { .. } | Dmsg::LowV => Ok(Plan::Nothing),
        Dmsg::LowF { id } => {
            free(device, client, *id)?;
            Ok(Plan::Free { id: *id })
        }
        Dmsg::UpF { id } => {
            free_screen(device, client, *id)?;
            Ok(Plan::FreeScreen { id: *id })
        }
        Dmsg::UpA {
            id,
            imageid,
            fillid,
            public,
        } => {
            let screening = screening(device, client, *id, *imageid, *fillid, *public != 0)?;
            Ok(Plan::MakeScreen(screening))
        }
        Dmsg::UpS { id, chan } => {
            let screen = sharing(device, client, *id, *chan)?;
            Ok(Plan::ShareScreen { id: *id, screen })
        }
        Dmsg::LowI { id, n, ascent } => {
            making_font(device, client, *id, *n, *ascent)?;
            Ok(Plan::MakeFont {
                id: *id,
                n: *n,
                ascent: *ascent,
            })
        }
        Dmsg::LowL {
            cacheid,
            srcid,
            index,
            r,
            sp,
            left,
            width,
        } => {
            let asked = CellAsked {
                cacheid: *cacheid,
                srcid: *srcid,
                index: *index,
                r: *r,
                sp: *sp,
                left: *left,
                width: *width,
            };
            let loading = loading(device, client, &asked)?;
            Ok(Plan::LoadCell(loading))
        }
        Dmsg::LowO { id, rmin, scr } => {
            let image = moving(device, client, *id, *rmin, *scr)?;
            Ok(Plan::Move {
                image,
                rmin: *rmin,
                scr: *scr,
            })
        }
        Dmsg::UpO { op } => match operator(*op) {
            Some(op) => Ok(Plan::SetOperator(op)),
            None => Err(21),
        },
        Dmsg::LowR { id, r } => {
            let image = read(device, client, *id, r)?;
            Ok(Plan::Read { image, r: *r })
        }
        Dmsg::LowY { id, r } => {
            let (image, len) = write_rows(device, client, *id, r, rest)?;
            Ok(Plan::Write { image, r: *r, len })
        }
        _ => unreachable!(),
    }
}
