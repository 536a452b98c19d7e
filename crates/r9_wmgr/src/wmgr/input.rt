//! Who gets the events of the mouse and the keys.

ghost use Rattle.std.specs.Prelude.{◌≡◌, Some, OnOk};
ghost use Rattle.std.specs.Str.{IsUtf8};
ghost use Rattle.model_rio.specs.rio.Table.{hold_of, topmost};
ghost use Rattle.std.specs.Char.{encode_utf8};
ghost use Rattle.r9_event.specs.declared.event.rio.Note.TheVariants as note;
ghost use Rattle.model_rio.specs.rio.Step.{noted};
ghost use Rattle.model_rio.specs.rio.Routing as model;

use crate::stacking::is_same;
use crate::wmgr::draft::Draft;
use crate::wmgr::manager::Manager;
use crate::wmgr::naming::DEEPEST;
use model_files::mouse::Mouse;
use r9_event::event::Note;
use r9_event::window::Hold;
use r9_geom::Point;
use r9_memory::Memory;
use r9_text::Bytes;

fn point_of(e: Mouse) -> Point
    ensures { result ≡ model.point_of e }
{
    Point {
        x: i64::from(e.x),
        y: i64::from(e.y),
    }
}

fn told(e: Mouse) -> Note
    ensures { result ≡ note.Mouse e.x e.y e.buttons e.msec }
{
    Note::Mouse {
        x: e.x,
        y: e.y,
        buttons: e.buttons,
        msec: e.msec,
    }
}

impl Manager {
    // The window that gets an event in a rio where no button was pressed.
    fn aimed(&self, e: Mouse, host: u32) -> Option<u32>
        ensures { result ≡ model.aimed self.now e host }
    {
        let top = match self.topmost(host, point_of(e)) {
            Some(w) => Some(w.serial),
            None => None,
        };
        if e.buttons != 0 || is_same(self.current_of(host), top) {
            top
        } else {
            None
        }
    }

    // The window that gets an event in a rio.
    fn receiver(&self, e: Mouse, host: u32) -> Option<u32>
        ensures { result ≡ model.receiver self.now e host (hold_of self.now host) }
    {
        match self.hold_of(host) {
            Hold::Held(serial) => Some(serial),
            Hold::Nobody => None,
            Hold::Free => self.aimed(e, host),
        }
    }

    // The window that keys to a rio go to.
    fn focus(&self, levels: u32, host: u32) -> Option<u32>
        ensures { result ≡ model.focus levels self.now host }
    {
        if levels == 0 {
            return None;
        }
        let serial = self.current_of(host)?;
        if self.is_host(serial) {
            self.focus(levels - 1, serial)
        } else {
            Some(serial)
        }
    }
}

impl Draft {
    // A press raises the topmost window at the point, makes it current, and it holds the mouse.
    fn press(&mut self, e: Mouse, host: u32) -> Result<(), Memory>
        ensures { OnOk result (self.new ≡ model.pressed host (topmost self.old.table host (model.point_of e)) self.old) }
    {
        let Some(w) = self.table.topmost(host, point_of(e)) else {
            self.set_hold(host, Hold::Nobody);
            return Ok(());
        };
        let serial = w.serial;
        self.raise(w)?;
        self.set_current(host, Some(serial))?;
        self.set_hold(host, Hold::Held(serial));
        Ok(())
    }

    // What an event does to a rio.
    #[tactic(auto, unfolding(model_rio::specs::rio::Routing::reacted))]
    fn react(&mut self, e: Mouse, host: u32) -> Result<(), Memory>
        ensures { OnOk result (self.new ≡ model.reacted e host self.old) }
    {
        match self.table.hold_of(host) {
            Hold::Free if e.buttons != 0 => return self.press(e, host),
            Hold::Free => {}
            Hold::Held(_) | Hold::Nobody if e.buttons == 0 => self.set_hold(host, Hold::Free),
            Hold::Held(_) | Hold::Nobody => {}
        }
        Ok(())
    }

    /// An event of the mouse comes to the rio of a host.
    pub(crate) fn mouse(&mut self, levels: u32, e: Mouse, host: u32) -> Result<(), Memory>
        ensures { OnOk result (self.new ≡ model.moused levels e host self.old) }
    {
        if levels == 0 {
            return Ok(());
        }
        let to = self.table.receiver(e, host);
        self.react(e, host)?;
        let Some(serial) = to else {
            return Ok(());
        };
        if self.table.is_host(serial) {
            return self.mouse(levels - 1, e, serial);
        }
        self.note(serial, told(e))
    }

    // The bytes of a character go to a window.
    fn type_one(&mut self, serial: u32, c: char) -> Result<(), Memory>
        ensures { OnOk result (self.new ≡ noted serial (note.Key (encode_utf8 c)) self.old) }
    {
        let mut buffer = [0; 4];
        let key = c.encode_utf8(&mut buffer);
        let key = Bytes::from_slice(self.table.alloc, key.as_bytes())?;
        self.note(serial, Note::Key(key))
    }

    // The bytes of each character go to a window.
    fn type_in(&mut self, serial: u32, text: &str) -> Result<(), Memory>
        ensures { OnOk result (self.new ≡ model.keyed (Some serial) (model.keys_of text.now) self.old) }
    {
        for c in text.chars() {
            self.type_one(serial, c)?;
        }
        Ok(())
    }

    /// Characters come from the keyboard.
    pub(crate) fn keys(&mut self, bytes: &[u8]) -> Result<(), Memory>
        requires { IsUtf8 bytes.now }
        ensures { OnOk result (self.new ≡ model.keyed (model.focus 9 self.old.table 0) (model.keys_of bytes.now) self.old) }
    {
        let Some(serial) = self.table.focus(DEEPEST, 0) else {
            return Ok(());
        };
        match str::from_utf8(bytes) {
            Ok(text) => self.type_in(serial, text),
            Err(_) => Ok(()),
        }
    }
}
