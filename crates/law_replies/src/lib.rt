//! Replies as a client counts on them (intro(5)): each is one message, no longer than was agreed, and has the tag of a message that has
//! no other reply. Definitions, and laws as the contracts of functions that do nothing.
#![tactic(auto)]

ghost use Rattle.std.specs.Prelude.{◌≤◌, ◌+◌, ◌∷◌, ◌++◌, [], ℕ, All, List, count_by};
ghost use Rattle.r9_event.specs.declared.event.event.Event.{Event};
ghost use Rattle.r9_event.specs.declared.event.event.Opening.{Opening};
ghost use Rattle.model_history.specs.event.Legal.{IsLegal};
ghost use Rattle.model_world.specs.Replay.{replay, replies, step};
ghost use Rattle.law_replies.specs.Answers.{IsAnswerIn};
ghost use Rattle.law_replies.specs.Tags.{answers, reads_waiting, says};

/// Each reply to an event of a legal history goes to a session that lives, is one message of 9P, and is no longer than the size that the
/// session has agreed on, unless it tells what is wider than its field of 11 characters.
pub fn each_reply_is_one_message()
    ensures { (opening : Opening) (events : List Event) (event : Event) → IsLegal (events ++ event ∷ []) → All (IsAnswerIn (step (replay opening events) event).world) (step (replay opening events) event).replies }
{}

/// Of each tag a session has had at most as many replies as it sent messages, and the messages whose reads still wait have had none: so
/// each reply has a message of its own, before it, of its session and with its tag.
pub fn each_reply_has_a_message_of_its_own()
    ensures { (opening : Opening) (events : List Event) (c tag : ℕ) → IsLegal events → count_by (answers c tag) (replies opening events) + reads_waiting (replay opening events) c tag ≤ count_by (says c tag) events }
{}
