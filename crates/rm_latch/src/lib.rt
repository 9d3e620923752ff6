//! Page latches: what keeps a page to one session, or to sessions that only read it, from one turn to the next.
//!
//! A session has at most one latch, so the latches are an array with a place for each session, and no call takes
//! memory. Its invariant: two sessions that have a latch on one page both have it shared.
#![tactic(auto)]

ghost use Rattle.std.specs.Prelude.{◌≡◌, ℕ, ◌↔◌, None, Some, IsTrue, IfSome, IfNone};
ghost use Rattle.rm_latch.specs.Latches.{IsSession, latch_of, Conflict, AreCompatible, IsFree, IsLeastHolder, Answers, ChangesOnly, Leaves};

use rm_types::{MAX_SESSIONS, Mode};
use std::marker::Model;

/// A latch: the number of its page, and how it is held.
#[derive(Clone, Copy, Debug, PartialEq, Eq)]
pub struct Latch {
    pub page: u32,
    pub mode: Mode,
}

/// The answer to a session that asks for a latch on a page.
#[derive(Clone, Copy, Debug, PartialEq, Eq)]
pub enum Latched {
    /// The session has it.
    Granted,
    /// Session `by`, from 1 to 16, has the page in a mode that is incompatible; it is the least such session.
    Taken { by: u8 },
}

const SESSIONS: usize = MAX_SESSIONS as usize;

/// The latches of at most [`MAX_SESSIONS`] sessions, at most one of each session.
#[derive(Debug, Drop)]
pub struct Latches {
    held: [Option<Latch>; SESSIONS],
}

impl Model for Latches {
    ghost use Rattle.std.specs.Prelude.{List, Option};
    ghost use Rattle.rm_latch.specs.declared.Latch.{Latch};

    ghost Value = { List (Option Latch) };

    ghost use Rattle.rm_latch.specs.Latches.{AreCompatible};

    ghost view = { λ latches. latches.held };

    ghost invariant = { λ latches. AreCompatible latches.held };
}

impl Latches {
    /// No latches.
    pub fn new() -> Latches
        ensures { (session : ℕ) → latch_of result session ≡ None }
    {
        Latches {
            held: [None; SESSIONS],
        }
    }

    /// The latch of a session, if it has one.
    pub fn of(&self, session: u8) -> Option<Latch>
        requires { IsSession session }
        ensures value { result ≡ latch_of self.now session }
        ensures compatible { AreCompatible self.now }
    {
        self.held[session as usize - 1]
    }

    /// Asks for a latch on the page, for a session that has none. [`Latched::Taken`] changes nothing.
    #[tactic(auto, using(crate::proofs::Compatible::compatible_set))]
    pub fn try_latch(&mut self, session: u8, page: u32, mode: Mode) -> Latched
        requires known { IsSession session }
        requires free { latch_of self.old session ≡ None }
        ensures answer { Answers self.old (record { page = page; mode = mode }) result }
        ensures after { Leaves self.old session (record { page = page; mode = mode }) result self.new }
    {
        let latch = Latch { page, mode };
        if let Some(by) = least_holder(&self.held, latch) {
            return Latched::Taken { by };
        }
        self.held[session as usize - 1] = Some(latch);
        Latched::Granted
    }

    /// The session has no latch from now on.
    #[tactic(auto, using(crate::proofs::Compatible::compatible_set))]
    pub fn unlatch(&mut self, session: u8)
        requires { IsSession session }
        ensures { ChangesOnly self.old self.new session None }
    {
        self.held[session as usize - 1] = None;
    }
}

// The least session that has a latch incompatible with this one.
fn least_holder(held: &[Option<Latch>; SESSIONS], latch: Latch) -> Option<u8>
    ensures some { IfSome result (IsLeastHolder held.now latch) }
    ensures none { IfNone result (IsFree held.now latch) }
{
    let place = held.iter().position(|other| conflict(*other, latch))?;
    Some(place as u8 + 1)
}

// Whether another session's latch is incompatible with this one.
fn conflict(held: Option<Latch>, latch: Latch) -> bool
    ensures { IsTrue result ↔ Conflict held (Some latch) }
{
    match held {
        None => false,
        Some(other) => {
            other.page == latch.page
                && (other.mode == Mode::Exclusive || latch.mode == Mode::Exclusive)
        }
    }
}
