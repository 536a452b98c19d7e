//! The text of what an event asks for (rio(4), mouse(3)).

ghost use Rattle.std.specs.Prelude.{◌≡◌, ◌++◌, ◌∷◌, IfOk, OnOk, codes};
ghost use Rattle.std.specs.Fmt.{signed_decimal};
ghost use Rattle.model_client.specs.desk.Spelled.{corner, rect_words, id_words, change, spelled};

use crate::texts::Texts;
use model_client::desk::{Act, Text};
use model_files::mouse::Mouse;
use r9_geom::{Point, Rect};
use r9_memory::Memory;
use r9_text::{Bytes, push_decimal};
use std::alloc::Global;

fn push_signed(out: &mut Bytes, n: i64) -> Result<(), Memory>
    ensures { OnOk result (out.new ≡ out.old ++ signed_decimal n) }
{
    let mut buffer = itoa::Buffer::new();
    out.push_all(buffer.format(n).as_bytes())
}

fn push_after_blank(out: &mut Bytes, n: i64) -> Result<(), Memory>
    ensures { OnOk result (out.new ≡ out.old ++ 32 ∷ signed_decimal n) }
{
    out.push(b' ')?;
    push_signed(out, n)
}

fn push_corner(out: &mut Bytes, p: Point) -> Result<(), Memory>
    ensures { OnOk result (out.new ≡ out.old ++ corner p) }
{
    push_after_blank(out, p.x)?;
    push_after_blank(out, p.y)
}

fn push_rect(out: &mut Bytes, r: Rect) -> Result<(), Memory>
    ensures { OnOk result (out.new ≡ out.old ++ rect_words r) }
{
    out.push_all(b" -r")?;
    push_corner(out, r.min)?;
    push_corner(out, r.max)
}

fn push_id(out: &mut Bytes, window: u64) -> Result<(), Memory>
    ensures { OnOk result (out.new ≡ out.old ++ id_words window) }
{
    out.push_all(b" -id ")?;
    push_decimal(out, window)
}

fn push_change(out: &mut Bytes, n: i64) -> Result<(), Memory>
    ensures { OnOk result (out.new ≡ out.old ++ change n) }
{
    if n >= 0 {
        out.push(b'+')?;
    }
    push_signed(out, n)
}

fn new_text(alloc: Global, r: Rect) -> Result<Bytes, Memory>
    ensures { IfOk result (λ text. text ≡ codes "new" ++ rect_words r) }
{
    let mut out = Bytes::from_slice(alloc, b"new")?;
    push_rect(&mut out, r)?;
    Ok(out)
}

fn resize_text(alloc: Global, window: u64, r: Rect) -> Result<Bytes, Memory>
    ensures { IfOk result (λ text. text ≡ codes "resize" ++ rect_words r ++ id_words window) }
{
    let mut out = Bytes::from_slice(alloc, b"resize")?;
    push_rect(&mut out, r)?;
    push_id(&mut out, window)?;
    Ok(out)
}

fn move_text(alloc: Global, window: u64, by: Point) -> Result<Bytes, Memory>
    ensures { IfOk result (λ text. text ≡ codes "move -minx " ++ change by.x ++ codes " -miny " ++ change by.y ++ id_words window) }
{
    let mut out = Bytes::from_slice(alloc, b"move -minx ")?;
    push_change(&mut out, by.x)?;
    out.push_all(b" -miny ")?;
    push_change(&mut out, by.y)?;
    push_id(&mut out, window)?;
    Ok(out)
}

// A command on a window, without other options.
fn plain_text(alloc: Global, verb: &[u8], window: u64) -> Result<Bytes, Memory>
    ensures { IfOk result (λ text. text ≡ verb.now ++ id_words window) }
{
    let mut out = Bytes::from_slice(alloc, verb)?;
    push_id(&mut out, window)?;
    Ok(out)
}

/// The texts of what an event asks for.
#[tactic(auto, unfolding(model_client::specs::desk::Spelled::spelled))]
pub fn spell(alloc: Global, act: Act, e: Mouse) -> Result<Texts, Memory>
    ensures { IfOk result (λ texts. texts ≡ spelled act e) }
{
    match act {
        Act::Nothing => Ok(Texts::new(alloc)),
        Act::Pass { raised: _ } => Texts::one(
            alloc,
            Text::Mousein(r9_mouse::text(alloc, b'm', e)?),
        ),
        Act::New(r) => Texts::one(alloc, Text::Wctl(new_text(alloc, r)?)),
        Act::Resize { window, r } => Texts::one(alloc, Text::Wctl(resize_text(alloc, window, r)?)),
        Act::Move { pane, by } => Texts::one(alloc, Text::Wctl(move_text(alloc, pane.number, by)?)),
        Act::Delete(window) => Texts::one(alloc, Text::Wctl(plain_text(alloc, b"delete", window)?)),
        Act::Hide(pane) => Texts::one(alloc, Text::Wctl(plain_text(alloc, b"hide", pane.number)?)),
    }
}
