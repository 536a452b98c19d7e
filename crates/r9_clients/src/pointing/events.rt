//! The lines of what the client writes for events of the mouse.

ghost use Rattle.std.specs.Prelude.{◌≡◌, ◌≤◌, [], ◌∷◌, length, map, All, OnOk};
ghost use Rattle.model_client.specs.desk.Table.{start};
ghost use Rattle.model_client.specs.desk.Pilot.{after, written};
ghost use Rattle.law_desk.specs.piloted.Following.{IsEvent};
ghost use Rattle.model_clients.specs.piloted.History.{writes};
ghost use Rattle.law_desk.specs.steered.Steered.{write_of};
ghost use Rattle.law_menus.specs.menus.Writes.{bands_after, writes_for, writes_from};
ghost use Rattle.r9_clients.specs.saying.Lines.{IsSaid};
ghost use Rattle.r9_clients.specs.pointing.Said.{IsShort, said_for_all};

use crate::pointing::bands::bands;
use crate::pointing::opening::{DATA, MOUSEIN, WCTL};
use crate::saying::push_write;
use model_client::desk::{Mode, Text};
use model_files::mouse::Mouse;
use r9_memory::Memory;
use r9_menu::Desk;
use r9_text::Bytes;
use std::alloc::Global;

/// Adds the line of a text.
fn push_text(alloc: Global, text: &Text, out: &mut Bytes) -> Result<(), Memory>
    requires { IsShort text.now }
    ensures { OnOk result (IsSaid out.old out.new (writes (write_of text.now) ∷ [])) }
{
    match text {
        Text::Wctl(bytes) => push_write(alloc, WCTL, bytes.as_slice(), out),
        Text::Mousein(bytes) => push_write(alloc, MOUSEIN, bytes.as_slice(), out),
    }
}

/// Adds the lines of texts.
fn push_texts(alloc: Global, texts: &[Text], out: &mut Bytes) -> Result<(), Memory>
    requires { All IsShort texts.now }
    ensures { OnOk result (IsSaid out.old out.new (map (λ text. writes (write_of text)) texts.now)) }
{
    for text in texts {
        push_text(alloc, text, out)?;
    }
    Ok(())
}

/// Adds the line of the bands of a menu, where an event opened one.
fn push_menu(alloc: Global, before: Mode, after: Mode, out: &mut Bytes) -> Result<(), Memory>
    ensures { OnOk result (IsSaid out.old out.new (map writes (bands_after before after))) }
{
    match (before, after) {
        (Mode::Idle, Mode::Menu { at, window }) => {
            let bytes = bands(alloc, window, at)?;
            push_write(alloc, DATA, bytes.as_slice(), out)
        }
        _ => Ok(()),
    }
}

/// Adds the lines of what an event writes, and lets it act on the table.
#[tactic(auto, unfolding(law_menus::specs::menus::Writes::writes_for))]
fn push_event(alloc: Global, desk: &mut Desk, e: Mouse, out: &mut Bytes) -> Result<(), Memory>
    requires { All IsShort (written desk.old e) }
    ensures table { OnOk result (desk.new ≡ after desk.old e) }
    ensures said { OnOk result (IsSaid out.old out.new (map writes (writes_for desk.old e))) }
{
    let before = desk.mode();
    let texts = desk.feed(e)?;
    push_texts(alloc, texts.as_slice(), out)?;
    push_menu(alloc, before, desk.mode(), out)
}

/// Adds the lines of what events write, from an empty display on.
pub fn push_events(alloc: Global, events: &[Mouse], out: &mut Bytes) -> Result<(), Memory>
    requires events { All IsEvent events.now }
    requires few { length events.now ≤ 21400 }
    ensures { OnOk result (IsSaid out.old out.new (said_for_all start events.now)) }
{
    let mut desk = Desk::new(alloc)?;
    for e in events {
        push_event(alloc, &mut desk, *e, out)?;
    }
    Ok(())
}
