//! The history of a link, which only proofs read. It takes no memory, and its methods do nothing at
//! run time.

ghost use Rattle.std.specs.Prelude.{◌≡◌, List, [], ◌++◌};
ghost use Rattle.std.specs.Borrow.{ftrue};
ghost use Rattle.vod_base.specs.Links.{IoEvent};

use std::marker::Model;
use vod_base::Heard;

/// What a link did, in order.
#[derive(Drop)]
pub(crate) struct History {
    pub(crate) ghost doings: { List IoEvent },
}

impl Model for History {
    ghost also_owns = { λ _. ftrue };
}

// It owns nothing.
unsafe impl Send for History {}

/// What is noted in one step: an event, with the bytes that arrived at the start of a buffer; or
/// bytes that were given to `send`.
#[derive(Clone, Copy, Drop)]
pub(crate) enum Note<'a> {
    Came(Heard, &'a [u8]),
    Sent(&'a [u8]),
}

impl History {
    ghost use Rattle.socket_link.specs.Notes.{doings_noted};

    /// No history.
    pub(crate) fn new() -> History
        ensures { result.doings ≡ [] }
    {
        History {}
    }

    /// The history with one more step.
    #[inline(always)]
    pub(crate) fn then(&self, _note: &Note<'_>) -> History
        ensures { result.doings ≡ self.now.doings ++ doings_noted _note.now }
    {
        History {}
    }
}
