//! One window.

ghost use Rattle.std.specs.Prelude.{◌≡◌, ◌≤◌, length, codes, if◌then◌else◌, false, None, IsOk, IfOk, OnOk, OnErr, IfSome, IfNone};
ghost use Rattle.model_files.specs.mouse.Queue.{answer_text, resized};
ghost use Rattle.model_files.specs.console.Console as console;
ghost use Rattle.model_rio.specs.window.Heard.{Noted, Raw, Written, Labelled, MouseRead, ConsoleRead, MouseHeld, ConsctlHeld, wctl_text, winid_text};
ghost use Rattle.model_rio.specs.window.Pane.{new_pane, pane_heard};

use crate::pane::field::push_number;
use r9_cons::Console;
use r9_event::event::Note;
use r9_geom::{Point, Rect};
use r9_memory::Memory;
use r9_mouse::{Mouse, MouseQueue, text};
use r9_text::Bytes;
use std::alloc::Global;
use std::marker::Model;

/// How many bytes of a label are kept.
const LABEL: usize = 256;

/// What is kept of one window for its files. Each change is a step of the definition, and where memory is short, nothing
/// changes.
#[derive(Drop)]
pub struct Pane {
    number: u32,
    name: Bytes,
    r: Rect,
    current: bool,
    hidden: bool,
    label: Bytes,
    queue: MouseQueue,
    console: Console,
    mouse_held: bool,
    consctl_held: bool,
    alloc: Global,
}

impl Model for Pane {
    ghost use Rattle.model_rio.specs.window.Pane as model;

    ghost Value = { model.Pane };

    ghost view = { λ p. record { known = record { number = p.number; name = p.name; r = p.r; current = p.current; hidden = p.hidden }; label = p.label; mouse = p.queue; console = p.console; mouse_held = p.mouse_held; consctl_held = p.consctl_held } };
}

fn current_word(current: bool) -> &'static [u8]
    ensures word { result.now ≡ codes (if current then "current " else "notcurrent ") }
    ensures short { length result.now ≤ 11 }
{
    if current { b"current " } else { b"notcurrent " }
}

fn hidden_word(hidden: bool) -> &'static [u8]
    ensures word { result.now ≡ codes (if hidden then "hidden " else "visible ") }
    ensures short { length result.now ≤ 8 }
{
    if hidden { b"hidden " } else { b"visible " }
}

impl Pane {
    /// A window of which nothing is known yet, with an empty label, and at which nothing waits.
    pub fn new(alloc: Global) -> Result<Self, Memory>
        ensures { IfOk result (λ pane. pane ≡ new_pane) }
    {
        let origin = Point { x: 0, y: 0 };
        Ok(Pane {
            number: 0,
            name: Bytes::new(alloc),
            r: Rect {
                min: origin,
                max: origin,
            },
            current: false,
            hidden: false,
            label: Bytes::new(alloc),
            queue: MouseQueue::new(alloc)?,
            console: Console::new(alloc),
            mouse_held: false,
            consctl_held: false,
            alloc,
        })
    }

    /// The window manager tells it something: what it is, where it is, what the mouse does, which key is typed.
    #[tactic(auto, unfolding(model_rio::specs::window::Pane::pane_heard))]
    pub fn note(&mut self, note: &Note) -> Result<(), Memory>
        ensures ok { OnOk result (self.new ≡ pane_heard self.old (Noted note.now)) }
        ensures err { OnErr result (self.new ≡ self.old) }
    {
        match note {
            Note::Made {
                number,
                name,
                r,
                ..
            } => {
                self.name = name.try_clone(self.alloc)?;
                self.number = *number;
                self.r = *r;
            }
            Note::Moved { name, r } | Note::Resized { name, r } => self.change_image(name, *r)?,
            Note::Current(current) => self.current = *current,
            Note::Hidden(hidden) => self.hidden = *hidden,
            Note::Mouse {
                x,
                y,
                buttons,
                msec,
            } => self.queue.feed(Mouse {
                x: *x,
                y: *y,
                buttons: *buttons,
                msec: *msec,
            }),
            Note::Key(key) => self.console.key(key.as_slice())?,
            Note::Deleted => {}
        }
        Ok(())
    }

    // It has an image of another name, with another rectangle, which the next read of `mouse` tells.
    fn change_image(&mut self, image: &Bytes, r: Rect) -> Result<(), Memory>
        ensures ok { OnOk result (self.new ≡ record self.old { known = record self.old.known { name = image.now; r = r }; mouse = resized self.old.mouse }) }
        ensures err { OnErr result (self.new ≡ self.old) }
    {
        self.name = image.try_clone(self.alloc)?;
        self.r = r;
        self.queue.resized();
        Ok(())
    }

    /// Bytes are written to `label`: their first 256 are the label from now on.
    #[tactic(auto, unfolding(model_rio::specs::window::Pane::pane_heard), using(std::proofs::lemmas::List::take_min))]
    pub fn set_label(&mut self, bytes: &[u8]) -> Result<(), Memory>
        ensures ok { OnOk result (self.new ≡ pane_heard self.old (Labelled bytes.now)) }
        ensures err { OnErr result (self.new ≡ self.old) }
    {
        self.label = Bytes::from_slice(self.alloc, &bytes[..LABEL.min(bytes.len())])?;
        Ok(())
    }

    /// Keys are given raw from now on, or lines are edited again. The first ends a line that is not empty.
    #[tactic(auto, unfolding(model_rio::specs::window::Pane::pane_heard))]
    pub fn set_raw(&mut self, raw: bool) -> Result<(), Memory>
        ensures ok { OnOk result (self.new ≡ pane_heard self.old (Raw raw)) }
        ensures err { OnErr result (self.new ≡ self.old) }
        // Only a line that ends takes memory.
        ensures edits { raw ≡ false → IsOk result }
    {
        self.console.set_raw(raw)
    }

    /// Some fid has its `mouse` open from now on, or none has it any more.
    #[tactic(auto, unfolding(model_rio::specs::window::Pane::pane_heard))]
    pub fn set_mouse_held(&mut self, held: bool)
        ensures { self.new ≡ pane_heard self.old (MouseHeld held) }
    {
        self.mouse_held = held;
    }

    /// Some fid has its `consctl` open from now on, or none has it any more, and then lines are edited again.
    #[tactic(auto, unfolding(model_rio::specs::window::Pane::pane_heard))]
    pub fn set_consctl_held(&mut self, held: bool)
        ensures { self.new ≡ pane_heard self.old (ConsctlHeld held) }
    {
        if !held && self.console.set_raw(false).is_err() {
            unreachable!();
        }
        self.consctl_held = held;
    }

    /// Whether some fid has its `mouse` open.
    pub fn is_mouse_held(&self) -> bool
        ensures { result ≡ self.now.mouse_held }
    {
        self.mouse_held
    }

    /// Whether some fid has its `consctl` open.
    pub fn is_consctl_held(&self) -> bool
        ensures { result ≡ self.now.consctl_held }
    {
        self.consctl_held
    }

    /// Bytes are written to `cons`.
    #[tactic(auto, unfolding(model_rio::specs::window::Pane::pane_heard))]
    pub fn write_text(&mut self, bytes: &[u8]) -> Result<(), Memory>
        ensures ok { OnOk result (self.new ≡ pane_heard self.old (Written bytes.now)) }
        ensures err { OnErr result (self.new ≡ self.old) }
    {
        self.console.write_text(bytes)
    }

    /// What a read of `mouse` gives, 49 bytes of an event that then no longer waits. None exactly where the read waits.
    #[tactic(auto, unfolding(model_rio::specs::window::Pane::pane_heard))]
    pub fn read_mouse(&mut self) -> Result<Option<Bytes>, Memory>
        ensures gives { IfOk result (λ given. given ≡ answer_text self.old.mouse) }
        ensures takes { IfOk result (λ given. IfSome given (λ _. self.new ≡ pane_heard self.old MouseRead)) }
        ensures leaves { IfOk result (λ given. IfNone given (self.new ≡ self.old)) }
        ensures err { OnErr result (self.new ≡ self.old) }
        ensures len { IfOk result (λ given. IfSome given (λ bytes. length bytes ≡ 49)) }
        // Giving nothing takes no memory.
        ensures waits { answer_text self.old.mouse ≡ None → IsOk result }
    {
        let Some((letter, event)) = self.queue.peek() else {
            return Ok(None);
        };
        let given = text(self.alloc, letter, event)?;
        self.queue.answer();
        Ok(Some(given))
    }

    /// What a read of so many bytes of `cons` gives: at most that many of the oldest line that has ended, whose rest
    /// waits on. A read of 0 bytes gives none and takes nothing. None exactly where the read waits.
    #[tactic(auto, unfolding(model_rio::specs::window::Pane::pane_heard), using(crate::proofs::pane::Waits::none_ended, crate::proofs::pane::Waits::unread))]
    pub fn read_console(&mut self, count: u32) -> Result<Option<Bytes>, Memory>
        ensures gives { IfOk result (λ given. given ≡ console.read count self.old.console) }
        ensures short { IfOk result (λ given. IfSome given (λ bytes. length bytes ≤ count)) }
        ensures takes { IfOk result (λ given. IfSome given (λ _. self.new ≡ pane_heard self.old (ConsoleRead count))) }
        ensures leaves { IfOk result (λ given. IfNone given (self.new ≡ self.old)) }
        ensures err { OnErr result (self.new ≡ self.old) }
        // Giving nothing takes no memory.
        ensures waits { console.read count self.old.console ≡ None → IsOk result }
    {
        self.console.read(count)
    }

    /// What was written to `label` last, its first 256 bytes.
    pub fn label(&self) -> &[u8]
        ensures { result.now ≡ self.now.label }
    {
        self.label.as_slice()
    }

    /// Its rectangle, in pixels of the display.
    pub fn rect(&self) -> Rect
        ensures { result ≡ self.now.known.r }
    {
        self.r
    }

    /// The name of its image, which `winname` gives.
    pub fn name(&self) -> &[u8]
        ensures { result.now ≡ self.now.known.name }
    {
        self.name.as_slice()
    }

    /// What `text` has: the last 65,536 bytes of what was written, and of the lines that ended.
    pub fn text(&self) -> &[u8]
        ensures { result.now ≡ console.text self.now.console }
    {
        self.console.text()
    }

    /// What `winid` gives: its number in its rio, 11 wide and a blank.
    #[tactic(auto, unfolding(model_rio::specs::window::Heard::winid_text))]
    pub fn winid(&self) -> Result<Bytes, Memory>
        ensures { IfOk result (λ text. text ≡ winid_text self.now.known) }
    {
        let mut text = Bytes::new(self.alloc);
        push_number(&mut text, self.number.into())?;
        Ok(text)
    }

    /// What `wctl` gives: the edges of its rectangle in pixels of the display, whether it is current, and whether it can
    /// be seen.
    #[tactic(auto, unfolding(model_rio::specs::window::Heard::wctl_text))]
    pub fn wctl(&self) -> Result<Bytes, Memory>
        ensures text { IfOk result (λ text. text ≡ wctl_text self.now.known) }
        ensures short { IfOk result (λ text. length text ≤ 128) }
    {
        let mut text = Bytes::new(self.alloc);
        push_number(&mut text, self.r.min.x)?;
        push_number(&mut text, self.r.min.y)?;
        push_number(&mut text, self.r.max.x)?;
        push_number(&mut text, self.r.max.y)?;
        text.push_all(current_word(self.current))?;
        text.push_all(hidden_word(self.hidden))?;
        Ok(text)
    }
}
