//! The calls that a session makes outside itself.

ghost use Rattle.std.specs.Prelude.{◌≡◌, ◌≤◌, ◌<◌, ◌^◌, ◌⊎◌, ◌↔◌, ℕ, Bool, true, false, All, List, [], Option, length, None, Some, Ok, Err, IfOk, IfErr, IfNone, IfSome, IsSome, OnOk, OnErr};
ghost use Rattle.std.specs.Option.{option_copied, unwrap_or};
ghost use Rattle.std.specs.Str.{IsUtf8};
ghost use Rattle.model_files.specs.console.Console as console;
ghost use Rattle.model_draw.specs.draw.Act.{no_memory};
ghost use Rattle.model_draw.specs.imgfile.ImageFile.{file_part};
ghost use Rattle.model_files.specs.mouse.Queue.{answer_text};
ghost use Rattle.model_files.specs.tree.Node.{Node as ModelNode};
ghost use Rattle.model_files.specs.tree.Tree.{check_live};
ghost use Rattle.model_rio.specs.window.Heard.{ConsctlHeld, ConsoleRead, Labelled, MouseHeld, MouseRead, Raw, Written};
ghost use Rattle.model_rio.specs.window.Pane.{new_pane};
ghost use Rattle.model_files.specs.wire.Message.{T, Twrite};
ghost use Rattle.model_world.specs.Answer.{answer_to, read_or_not};
ghost use Rattle.model_world.specs.Cut.{Wants};
ghost use Rattle.model_world.specs.Fids.{Left, cleared};
ghost use Rattle.model_world.specs.Links.{AreCounted, is_among};
ghost use Rattle.model_world.specs.Outside as world;
ghost use Rattle.model_world.specs.Reading.{size_text};
ghost use Rattle.model_world.specs.Refusal.{IsRefused};
ghost use Rattle.model_world.specs.Session.{Session};
ghost use Rattle.model_world.specs.Waiting.{one_answered};
ghost use Rattle.r9_tree.specs.Attached.{attach_of_code};
ghost use Rattle.r9_tree.specs.View.{node_of, view_of, most_connections, IsNode, IsView};
ghost use Rattle.r9_files.specs.around.Words.{AreTold, IfRefused, Tells, mark_after};

use crate::around::wrote::Wrote;
use crate::files::Fault;
use crate::pane::Pane;
use model_history::words::Size;
use r9_memory::Memory;
use r9_mouse::Mouse;
use r9_text::{Bytes, Numbers};
use r9_tree::{Attach, Node, TreeView};

/// What sessions find outside themselves: the draw device, and the windows. A session's connections to the draw device are named by
/// their numbers in it, windows by their serials. Where a call is refused, all is as before; of Memory nothing is said but where it is
/// said.
pub trait Outside {
    /// What contracts see of it.
    ghost State: { Type 0 };

    ghost state: { Self → State };

    /// What a session finds there, by the session's number.
    ghost outside: { ℕ → world.Outside State };

    /// A connection of a session lives there.
    ghost has: { (session connection : ℕ) → State → Bool };

    /// Of a session that made so many connections these live there, and no others.
    ghost linked: { (session made : ℕ) → (connections : List ℕ) → State → Type 0 };

    /// No other session's connection is touched.
    ghost others: { (session : ℕ) → (before after : State) → Type 0 };

    /// Where a data write of a session may want memory.
    ghost wants: { (session : ℕ) → Wants State };

    /// What is told of the messages of a data write of a session.
    ghost tells: { (session : ℕ) → Tells State };

    /// What the walks and listings of a file depend on, where its session has these connections.
    fn view(&self, connections: &Numbers, node: &Node) -> Result<TreeView, Memory>
        requires within { All (λ n. n ≤ most_connections) connections.now }
        requires node { IsNode node.now }
        ensures is { IfOk result (λ view. (session : ℕ) → view_of view ≡ (outside session).view (state self.now) connections.now (node_of node.now)) }
        ensures view { IfOk result IsView };

    /// Whether a file's window and its connection live, where it has one: refused by 42 exactly where its window is gone, and else
    /// by 34 exactly where its connection is.
    fn check_live(&self, connections: &Numbers, node: &Node) -> Result<(), u8>
        requires { IsNode node.now }
        ensures lives { OnOk result ((session : ℕ) → check_live ((outside session).view (state self.now) connections.now (node_of node.now)) (node_of node.now) ≡ Ok tt) }
        ensures refused { IfErr result (λ n. (session : ℕ) → check_live ((outside session).view (state self.now) connections.now (node_of node.now)) (node_of node.now) ≡ Err n) };

    /// The serial of the window that the name of an attach asks for, which is made where it is a new one, and 0 for the device
    /// tree. The session uses the window from then on. Refused by 41 exactly where the name is none, or its window or host is
    /// not there; else a new window by what its command is refused by.
    fn attach(&mut self, session: u32, name: &Attach) -> Result<u32, Fault>
        ensures attached { IfOk result (λ window. (outside session).attached (state self.old) (attach_of_code name.now) ≡ Ok (state self.new, window)) }
        ensures refused { IfErr result (λ f. IfRefused f (λ n. (outside session).attached (state self.old) (attach_of_code name.now) ≡ Err n)) }
        ensures kept { IfErr result (λ f. IfRefused f (λ n. state self.new ≡ state self.old)) };

    /// The session has no fid any more whose attach named one of these windows.
    fn left(&mut self, session: u32, windows: &Numbers) -> Result<(), Memory>
        ensures { OnOk result (state self.new ≡ (outside session).left (state self.old) windows.now) };

    /// What the files of a live window have.
    fn pane(&self, window: u32) -> Option<&Pane>
        ensures { (session : ℕ) → (outside session).pane (state self.now) window ≡ unwrap_or (option_copied result) new_pane };

    /// Some fid has a window's `mouse` open from now on, or none has it any more.
    fn set_mouse_held(&mut self, window: u32, held: bool)
        ensures { (session : ℕ) → state self.new ≡ (outside session).hear (state self.old) window (MouseHeld held) };

    /// Some fid has a window's `consctl` open from now on, or none has it any more, and then lines are edited again.
    fn set_consctl_held(&mut self, window: u32, held: bool)
        ensures { (session : ℕ) → state self.new ≡ (outside session).hear (state self.old) window (ConsctlHeld held) };

    /// Bytes are written to a window's `cons`. After Memory all is as before.
    fn write_text(&mut self, window: u32, bytes: &[u8]) -> Result<(), Memory>
        ensures written { OnOk result ((session : ℕ) → state self.new ≡ (outside session).hear (state self.old) window (Written bytes.now)) }
        ensures kept { OnErr result (state self.new ≡ state self.old) };

    /// Bytes are written to a window's `label`. After Memory all is as before.
    fn set_label(&mut self, window: u32, bytes: &[u8]) -> Result<(), Memory>
        ensures labelled { OnOk result ((session : ℕ) → state self.new ≡ (outside session).hear (state self.old) window (Labelled bytes.now)) }
        ensures kept { OnErr result (state self.new ≡ state self.old) };

    /// Keys are given raw in a window from now on, or not. After Memory all is as before.
    fn set_raw(&mut self, window: u32, raw: bool) -> Result<(), Memory>
        ensures set { OnOk result ((session : ℕ) → state self.new ≡ (outside session).hear (state self.old) window (Raw raw)) }
        ensures kept { OnErr result (state self.new ≡ state self.old) };

    /// What a read of a window's `mouse` gives: 49 bytes of an event, which then waits no longer. None exactly where the read
    /// waits, which takes no memory. After Memory all is as before.
    fn read_mouse(&mut self, window: u32) -> Result<Option<Bytes>, Memory>
        ensures gives { IfOk result (λ given. (session : ℕ) → given ≡ answer_text ((outside session).pane (state self.old) window).mouse) }
        ensures takes { IfOk result (λ given. IfSome given (λ _. (session : ℕ) → state self.new ≡ (outside session).hear (state self.old) window MouseRead)) }
        ensures leaves { IfOk result (λ given. IfNone given (state self.new ≡ state self.old)) }
        ensures kept { OnErr result (state self.new ≡ state self.old) }
        ensures short { IfOk result (λ given. IfSome given (λ bytes. length bytes ≤ 128)) };

    /// What a read of so many bytes of a window's `cons` gives: at most that many of the oldest line that has ended. None exactly
    /// where the read waits, which takes no memory. After Memory all is as before.
    fn read_console(&mut self, window: u32, count: u32) -> Result<Option<Bytes>, Memory>
        ensures gives { IfOk result (λ given. (session : ℕ) → given ≡ console.read count ((outside session).pane (state self.old) window).console) }
        ensures takes { IfOk result (λ given. IfSome given (λ _. (session : ℕ) → state self.new ≡ (outside session).hear (state self.old) window (ConsoleRead count))) }
        ensures leaves { IfOk result (λ given. IfNone given (state self.new ≡ state self.old)) }
        ensures kept { OnErr result (state self.new ≡ state self.old) }
        ensures short { IfOk result (λ given. IfSome given (λ bytes. length bytes ≤ count)) };

    /// Does a command to a window. Refused by 47 exactly where the text spells none, and else by what the window manager refuses
    /// it by.
    fn command(&mut self, window: u32, text: &[u8]) -> Result<(), Fault>
        ensures done { OnOk result ((session : ℕ) → (outside session).command (state self.old) window text.now ≡ Ok (state self.new)) }
        ensures refused { IfErr result (λ f. IfRefused f (λ n. (session : ℕ) → (outside session).command (state self.old) window text.now ≡ Err n)) }
        ensures kept { IfErr result (λ f. IfRefused f (λ n. state self.new ≡ state self.old)) };

    /// Does a command to the device, which names its window by a path; a new window is made in the rio of that window. Refused
    /// by 47 exactly where the text spells none, or there is no such window or rio, and else by what the window manager refuses
    /// it by.
    fn device_command(&mut self, text: &[u8]) -> Result<(), Fault>
        ensures done { OnOk result ((session : ℕ) → (outside session).device_command (state self.old) text.now ≡ Ok (state self.new)) }
        ensures refused { IfErr result (λ f. IfRefused f (λ n. (session : ℕ) → (outside session).device_command (state self.old) text.now ≡ Err n)) }
        ensures kept { IfErr result (λ f. IfRefused f (λ n. state self.new ≡ state self.old)) };

    /// The mouse does something, a point in pixels of the display.
    fn mouse(&mut self, e: Mouse) -> Result<(), Memory>
        ensures { OnOk result ((session : ℕ) → state self.new ≡ (outside session).mouse (state self.old) e) };

    /// Characters are typed.
    fn keys(&mut self, keys: Bytes) -> Result<(), Memory>
        requires { IsUtf8 keys }
        ensures { OnOk result ((session : ℕ) → state self.new ≡ (outside session).keys (state self.old) keys) };

    /// The bytes of a window's image file from an offset on, at most `count`; for 0 those of the display's.
    fn picture_part(&self, window: u32, offset: u64, count: u32) -> Result<Bytes, Memory>
        ensures part { IfOk result (λ bytes. (session : ℕ) → bytes ≡ file_part ((outside session).picture (state self.now) window) offset count) }
        ensures short { IfOk result (λ bytes. length bytes ≤ count) };

    /// What `hwsize` tells: how many pixels the display has across and down, each in a field.
    fn size_text(&self) -> Result<Bytes, Memory>
        ensures { IfOk result (λ text. (session : ℕ) → text ≡ size_text ((outside session).size (state self.now))) };

    /// Gives the display another size, 1 to 2,048 pixels each way; windows that have no point of it move to its corner. Refused by
    /// 47 exactly where a window in one that moves would come too far out.
    fn resize(&mut self, size: Size) -> Result<(), Fault>
        ensures done { OnOk result ((session : ℕ) → (outside session).with_size (state self.old) size ≡ Ok (state self.new)) }
        ensures refused { IfErr result (λ f. IfRefused f (λ n. (session : ℕ) → (outside session).with_size (state self.old) size ≡ Err n)) }
        ensures kept { IfErr result (λ f. IfRefused f (λ n. state self.new ≡ state self.old)) };

    /// The text that was cut last in the rio of a host.
    fn snarf(&self, host: u32) -> &[u8]
        ensures { (session : ℕ) → result.now ≡ (outside session).snarf (state self.now) host };

    /// Another text is the snarf of the rio of a host.
    fn set_snarf(&mut self, host: u32, contents: Bytes)
        ensures { (session : ℕ) → state self.new ≡ (outside session).with_snarf (state self.old) host contents };

    /// A connection of a session begins. After Memory all is as before.
    fn connect(&mut self, session: u32, connection: u32) -> Result<(), Memory>
        requires some { 1 ≤ connection }
        requires fresh { has session connection (state self.old) ≡ false }
        ensures made { OnOk result (state self.new ≡ (outside session).connect (state self.old) connection) }
        ensures kept { OnErr result (state self.new ≡ state self.old) };

    /// A connection of a session ends: its ids are freed, and what nothing refers to any more goes. After Memory all is as
    /// before.
    fn leave(&mut self, session: u32, connection: u32) -> Result<(), Memory>
        requires { has session connection (state self.old) ≡ true }
        ensures left { OnOk result (state self.new ≡ (outside session).leave (state self.old) connection) }
        ensures kept { OnErr result (state self.new ≡ state self.old) };

    /// Does the messages that the bytes spell, until one is refused; those before it stand. It stops before a message that is
    /// not refused where its mark stands or memory runs out, which is the refusal 24. Memory where that is the first one; then
    /// all is as before.
    fn write_data(
        &mut self,
        session: u32,
        connection: u32,
        bytes: &[u8],
        mark: Option<u32>,
    ) -> Result<Wrote, Memory>
        requires live { has session connection (state self.old) ≡ true }
        requires few { length bytes.now < 2 ^ 32 }
        ensures written { IfOk result (λ w. (outside session).write_data (state self.old) connection bytes.now (mark_after mark w.short) ≡ (state self.new, w.refusal)) }
        ensures cause { IfOk result (λ w. IfSome w.short (λ k. (mark ≡ Some k) ⊎ wants session connection (state self.old) bytes.now k)) }
        ensures refused { IfOk result (λ w. IsSome w.short ↔ (w.refusal ≡ Some no_memory)) }
        ensures told { IfOk result (λ w. AreTold w.told (tells session connection (state self.old) bytes.now (mark_after mark w.short))) }
        ensures kept { OnErr result (state self.new ≡ state self.old) };

    /// The pending bytes of a connection, which are then gone. Refused by 26 exactly where there are none, and by 25 exactly
    /// where they are more than the most that may be read. After an `Err` all is as before.
    fn read_data(&mut self, session: u32, connection: u32, most: u32) -> Result<Bytes, Fault>
        requires { has session connection (state self.old) ≡ true }
        ensures read { IfOk result (λ bytes. (outside session).read_data (state self.old) connection most ≡ Ok (bytes, state self.new)) }
        ensures short { IfOk result (λ bytes. length bytes ≤ most) }
        ensures refused { IfErr result (λ f. IfRefused f (λ n. (outside session).read_data (state self.old) connection most ≡ Err n)) }
        ensures kept { OnErr result (state self.new ≡ state self.old) };

    /// What `ctl` says of the image that it describes. Refused by 4 exactly where the image's id is gone, and by 18 exactly
    /// where its tie has ended.
    fn read_ctl(&self, session: u32, connection: u32) -> Result<Bytes, Fault>
        requires { has session connection (state self.now) ≡ true }
        ensures read { IfOk result (λ bytes. (outside session).read_ctl (state self.now) connection ≡ Ok bytes) }
        ensures len { IfOk result (λ bytes. length bytes ≡ 144) }
        ensures refused { IfErr result (λ f. IfRefused f (λ n. (outside session).read_ctl (state self.now) connection ≡ Err n)) };

    /// Chooses the image id that `ctl` describes from now on. Refused by 27 exactly where there are not four bytes, and by 4
    /// exactly where the connection does not know the id. After an `Err` all is as before.
    fn write_ctl(&mut self, session: u32, connection: u32, bytes: &[u8]) -> Result<(), Fault>
        requires { has session connection (state self.old) ≡ true }
        ensures chosen { OnOk result ((outside session).write_ctl (state self.old) connection bytes.now ≡ Ok (state self.new)) }
        ensures refused { IfErr result (λ f. IfRefused f (λ n. (outside session).write_ctl (state self.old) connection bytes.now ≡ Err n)) }
        ensures kept { OnErr result (state self.new ≡ state self.old) };

    /// A view has the connections for which it was asked.
    ghost view_has: { (c : ℕ) (s : State) (connections : List ℕ) (node : ModelNode) → ((outside c).view s connections node).connections ≡ connections };

    /// Those that live are among the first so many.
    ghost linked_counts: { (c made : ℕ) (connections : List ℕ) (s : State) → linked c made connections s → AreCounted made connections };

    /// They live exactly where they are among those.
    ghost linked_has: { (c made : ℕ) (connections : List ℕ) (s : State) (n : ℕ) → linked c made connections s → n < 2 ^ 26 → has c n s ≡ is_among connections n };

    /// The end of one leaves the others.
    ghost leave_leaves: { (c m n : ℕ) (s : State) → (m ≡ n → ⊥) → has c m ((outside c).leave s n) ≡ has c m s };

    /// After what a session answers those live that it has then, and none of another session is touched.
    ghost answer_links: { (c : ℕ) (session : Session) (s : State) (mark : Option ℕ) (m : Option T) (after : Left State) → linked c session.made session.connections s
        → read_or_not (outside c) session s mark m ≡ Ok after → linked c after.session.made after.session.connections after.rest × others c s after.rest };

    /// The same after a late answer,
    ghost late_links: { (c : ℕ) (session : Session) (s : State) (after : Left State) → linked c session.made session.connections s
        → one_answered (outside c) session s ≡ Some after → linked c after.session.made after.session.connections after.rest × others c s after.rest };

    /// and where all fids of a session go, after which none of its own lives.
    ghost cleared_links: { (c : ℕ) (session : Session) (s : State) → linked c session.made session.connections s
        → linked c session.made [] (cleared (outside c) session s).1 × others c s (cleared (outside c) session s).1 };

    /// What changes nothing touches none.
    ghost others_stay: { (c : ℕ) (s : State) → others c s s };

    /// No message is refused for want of memory but by the reply to a write: it has an answer then,
    ghost refuses_otherwise: { (c : ℕ) (session : Session) (s : State) (mark : Option ℕ) (m : Option T) → read_or_not (outside c) session s mark m ≡ Err no_memory → ⊥ };

    /// and no answer to another message refuses it so.
    ghost answers_otherwise: { (c : ℕ) (session : Session) (s : State) (mark : Option ℕ) (m : T) (after : Left State) → ((tag fid offset : ℕ) (bytes : List ℕ) → m ≡ Twrite tag fid offset bytes → ⊥)
        → answer_to (outside c) session s mark m ≡ Ok after → IsRefused no_memory after.reply → ⊥ };
}
