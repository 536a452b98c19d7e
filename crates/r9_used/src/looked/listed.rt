//! What a message with a list uses.

ghost use Rattle.std.specs.Prelude.{◌≡◌, ◌==◌, ◌++◌, ◌/◌, false, length, OnOk};
ghost use Rattle.std.specs.Int.{w32};
ghost use Rattle.std.specs.List.{list_any};
ghost use Rattle.std.specs.Option.{option_map_or};
ghost use Rattle.model_draw_parts.specs.dmsg.Reading.{numbers_of};
ghost use Rattle.model_alone.specs.alone.Uses.{images_named, look_used};
ghost use Rattle.r9_dmsg.specs.Listed.{listed_message, writing_message};

use crate::looked::naming::window_named;
use crate::looked::plain::{DISPLAY, NAMES_DISPLAY, SHARES, push_own};
use r9_dmsg::{Background, Listed, Restacking, Writing};
use r9_event::event::{Use, Uses};
use r9_files::pane::Pane;
use r9_memory::Memory;
use std::collections::BTreeMap;

/// Whether the display is among windows that are to be put to the top or to the bottom.
fn restacks_display(asked: &Restacking<'_>) -> bool
    ensures { result ≡ list_any (λ id. id == 0) (numbers_of w32 (length asked.now.ids.now / 4) asked.now.ids.now) }
{
    for k in 0..asked.len() {
        if asked.id(k) == DISPLAY {
            return true;
        }
    }
    false
}

/// Whether a string's background is the display.
fn is_on_display(background: &Option<Background>) -> bool
    ensures { result ≡ option_map_or (λ b. b.id == 0) background.now false }
{
    match background {
        Some(background) => background.id == DISPLAY,
        None => false,
    }
}

/// Whether a string is drawn on the display or from it, or the display is its font or its background.
#[tactic(auto, using(crate::proofs::looked::Names::writing_named))]
fn writes_display(asked: &Writing<'_>) -> bool
    ensures { result ≡ list_any (λ id. id == 0) (images_named (writing_message asked.now)) }
{
    asked.dstid == DISPLAY
        || asked.srcid == DISPLAY
        || asked.fontid == DISPLAY
        || is_on_display(&asked.background)
}

/// Adds what a message with a list uses, where the files of windows have these.
pub(crate) fn look_listed(
    panes: &BTreeMap<u32, Pane>,
    asked: &Listed<'_>,
    uses: &mut Uses,
) -> Result<(), Memory>
    ensures { OnOk result (uses.new ≡ uses.old ++ look_used panes.now.entries (listed_message asked.now)) }
{
    match asked {
        Listed::Restack(asked) => push_own(uses, restacks_display(asked), NAMES_DISPLAY),
        Listed::Write(asked) => push_own(uses, writes_display(asked), NAMES_DISPLAY),
        Listed::Name(asked) => {
            push_own(uses, asked.id == DISPLAY, NAMES_DISPLAY)?;
            push_own(uses, true, SHARES)
        }
        Listed::UseName(asked) => {
            let window = window_named(panes, asked.name);
            uses.push(Use::Name { window })?;
            Ok(())
        }
    }
}
