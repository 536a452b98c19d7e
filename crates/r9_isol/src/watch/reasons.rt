//! The reasons for which a session is not alone with its window, by what events used.

ghost use Rattle.std.specs.Prelude.{◌≡◌};
ghost use Rattle.std.specs.List.{fold};
ghost use Rattle.model_alone.specs.alone.Own.{after_use, attach_reasons, is_by, is_its, others_reasons, own_reasons, reasons, reasons_from};
ghost use Rattle.r9_isol.specs.watch.Words.{least, least_of, reasons_of, watched_of};

use r9_event::event::{Event, Use};

/// It attaches again, or by a name that asks for no new window.
const ATTACHES_OTHERWISE: u8 = 1;

/// Its first attach is refused.
const IS_REFUSED: u8 = 2;

/// Another session attaches its window.
const IS_ATTACHED: u8 = 3;

/// Another session looks up a name of its window's image.
const IS_LOOKED_UP: u8 = 4;

/// Another session walks into its window through `wsys`.
const IS_WALKED_TO: u8 = 5;

/// It looks up a name that its window does not have.
const LOOKS_UP_ANOTHER: u8 = 8;

/// Its window becomes the host of a rio.
const IS_HOST: u8 = 10;

/// Its window is none of the root rio.
const IS_DEEPER: u8 = 11;

/// What is known of a session so far: whether the name of an attach of its was looked at, and the window that the first such gave.
#[derive(Clone, Copy, Debug)]
pub(crate) struct Seen {
    pub(crate) attached: bool,
    pub(crate) window: Option<u32>,
}

/// What is known then, and the lowest of the reasons, if there are any.
#[derive(Clone, Copy, Debug)]
pub(crate) struct Judged {
    pub(crate) seen: Seen,
    pub(crate) reason: Option<u8>,
}

/// Whether an event is of a session.
pub(crate) fn is_by(session: u32, event: &Event) -> bool
    ensures { result ≡ is_by session event.now }
{
    match event {
        Event::Begin { session: by }
        | Event::Msg { session: by, .. }
        | Event::Take { session: by }
        | Event::End { session: by } => *by == session,
        Event::Stop => false,
    }
}

impl Seen {
    /// Whether a window is the session's.
    pub(crate) fn is_its(&self, window: Option<u32>) -> bool
        ensures { result ≡ is_its (watched_of self.now) window }
    {
        match (window, self.window) {
            (Some(serial), Some(own)) => own == serial,
            _ => false,
        }
    }

    /// The reason that an attach of the session itself gives.
    fn attach_reason(&self, fresh: bool, window: Option<u32>, root: bool) -> Option<u8>
        ensures { reasons_of result ≡ attach_reasons (watched_of self.now) fresh window root }
    {
        if self.attached || !fresh {
            return Some(ATTACHES_OTHERWISE);
        }
        if window.is_none() {
            return Some(IS_REFUSED);
        }
        if root { None } else { Some(IS_DEEPER) }
    }

    /// The reason that a use by the session itself gives.
    fn own_reason(&self, used: &Use) -> Option<u8>
        ensures { reasons_of result ≡ own_reasons (watched_of self.now) used.now }
    {
        match *used {
            Use::Attach {
                fresh,
                window,
                root,
            } => self.attach_reason(fresh, window, root),
            Use::Name { window } if !self.is_its(window) => Some(LOOKS_UP_ANOTHER),
            Use::Host { window } if self.is_its(Some(window)) => Some(IS_HOST),
            Use::Name { .. } | Use::Host { .. } | Use::Walk { .. } => None,
            Use::Own(reason) => Some(reason),
        }
    }

    /// The reason that a use by another session gives.
    fn others_reason(&self, used: &Use) -> Option<u8>
        ensures { reasons_of result ≡ others_reasons (watched_of self.now) used.now }
    {
        match *used {
            Use::Attach { window, .. } if self.is_its(window) => Some(IS_ATTACHED),
            Use::Name { window } if self.is_its(window) => Some(IS_LOOKED_UP),
            Use::Walk { window } if self.is_its(Some(window)) => Some(IS_WALKED_TO),
            Use::Host { window } if self.is_its(Some(window)) => Some(IS_HOST),
            _ => None,
        }
    }

    /// The reason that a use gives, by the session itself or by another one.
    fn reason(&self, own: bool, used: &Use) -> Option<u8>
        ensures { reasons_of result ≡ reasons own (watched_of self.now) used.now }
    {
        if own {
            self.own_reason(used)
        } else {
            self.others_reason(used)
        }
    }

    /// What is known after a use: the session's first attach gives it its window.
    fn after_use(self, own: bool, used: &Use) -> Seen
        ensures { watched_of result ≡ after_use own (watched_of self) used.now }
    {
        match *used {
            Use::Attach { window, .. } if own && !self.attached => Seen {
                attached: true,
                window,
            },
            _ => self,
        }
    }
}

/// The lower one of two reasons.
fn least(first: Option<u8>, second: Option<u8>) -> Option<u8>
    ensures { result ≡ least first second }
{
    match (first, second) {
        (Some(a), Some(b)) => Some(a.min(b)),
        (None, other) | (other, None) => other,
    }
}

/// What uses of one event show, by the session itself or by another one, where this is known before it.
pub(crate) fn judge(own: bool, seen: Seen, uses: &[Use]) -> Judged
    ensures seen { watched_of result.seen ≡ fold (after_use own) (watched_of seen) uses.now }
    ensures reason { result.reason ≡ least_of (reasons_from own (watched_of seen) uses.now) }
{
    let mut seen = seen;
    let mut reason = None;
    for used in uses {
        reason = least(reason, seen.reason(own, used));
        seen = seen.after_use(own, used);
    }
    Judged { seen, reason }
}
