//! What the sessions are at, as tables.

ghost use Rattle.std.specs.Prelude.{◌≡◌, ℕ, ◌<◌, ◌≤◌, ◌^◌, [], replicate, slice_index_or, length, IfSome};
ghost use Rattle.rm_types.specs.declared.numbers.TheConstants.{MAX_LOG, MAX_PAGES, MAX_SESSIONS};
ghost use Rattle.rm_core.specs.Below.{CAPACITY, Fits, History, last_of, need_of, others_need, pending_of};
ghost use Rattle.rm_core.specs.Names.{IsInside, opened};
ghost use Rattle.rm_play.specs.Choosing.{blocker};
ghost use Rattle.rm_ops.specs.Views.{HasSession, IsActive, IsOfFile, is_alone, last_in, number_in, number_of, op_at, pending_at, saved_in, seat_of};
ghost use Rattle.rm_ops.specs.Stages.{asked_by, stage_with};
ghost use Rattle.rm_desk.specs.Stacks.{newest_in, stack_at, under_in};

use crate::grants::Grants;
use crate::stacks::{PendingChange, SESSIONS, Stack, last, newest, under};
use rm_events::Op;
use rm_need::Needs;
use rm_noted::Noted;
use rm_ops::{Asked, LastChange, Stage};
use rm_txns::Txns;
use rm_types::{Format, Lsn, MAX_SESSIONS, Mode, Rid, TxnId};
use std::alloc::Global;
use std::marker::Model;

// What is noted: the history, the sessions and the next id.
pub(crate) struct SessionList {}

impl Model for SessionList {
    ghost use Rattle.std.specs.Prelude.{[]};
    ghost use Rattle.rm_desk.specs.Desks.{Sessions};

    ghost Value = { Sessions };

    ghost view = { λ _. record { history = []; seats = []; next = 0 } };
}

/// The sessions and what they are at: their transactions and locks, what these may undo and what that needs, and for each
/// session its stage and the operation that it has asked for, with its row. A session is named by its place, from 0.
#[derive(Drop)]
pub struct Desk {
    pub(crate) format: Format,
    pub(crate) pages: u32,
    pub(crate) limit: u64,
    pub(crate) txns: Txns,
    pub(crate) needs: Needs,
    pub(crate) grants: Grants,
    pub(crate) stages: [Stage; SESSIONS],
    pub(crate) ops: [Op; SESSIONS],
    pub(crate) stacks: [Stack; SESSIONS],
    pub(crate) sessions: Noted<SessionList>,
}

impl Model for Desk {
    ghost use Rattle.rm_desk.specs.Desks.{DeskValue, Stands, state_of};

    ghost Value = { DeskValue };

    ghost view = { λ desk. record {
      view = record {
        setting = record { format = desk.format; pages = desk.pages; limit = desk.limit };
        state = state_of desk.sessions desk.grants.grants;
        asked = desk.ops;
      };
      entries = desk.needs;
      locks = desk.grants.entries;
      stacks = desk.stacks;
    } };

    ghost invariant = { λ desk. Stands (record { format = desk.format; pages = desk.pages; limit = desk.limit })
        (record { table = desk.txns; needs = desk.needs; stages = desk.stages; ops = desk.ops; stacks = desk.stacks }) desk.sessions };
}

// An operation without its row.
fn asked_of(op: &Op) -> Asked
    ensures { result ≡ asked_by op.now }
{
    match op {
        Op::Begin => Asked::Begin,
        Op::Insert(row) => Asked::Insert(row.as_slice().len() as u16),
        Op::Read(rid) => Asked::Read(*rid),
        Op::Update(rid, row) => Asked::Update(*rid, row.as_slice().len() as u16),
        Op::Delete(rid) => Asked::Delete(*rid),
        Op::Save(number) => Asked::Save(*number),
        Op::Back(number) => Asked::Back(*number),
        Op::Commit => Asked::Commit,
        Op::Abort => Asked::Abort,
        Op::Unbound => Asked::Unbound,
    }
}

// The same of the operation at a session's place.
pub(crate) fn asked_at(ops: &[Op; SESSIONS], k: u8) -> Asked
    requires { k < MAX_SESSIONS }
    ensures { result ≡ asked_by (slice_index_or ops.now k Op.Unbound) }
{
    asked_of(&ops[k as usize])
}

// How many sessions there are.
fn count(_stages: &[Stage; SESSIONS]) -> u8
    ensures { result ≡ MAX_SESSIONS }
{
    MAX_SESSIONS
}

// No session has asked for an operation.
fn unbound() -> [Op; SESSIONS]
    ensures { result ≡ replicate MAX_SESSIONS Op.Unbound }
{
    [
        Op::Unbound,
        Op::Unbound,
        Op::Unbound,
        Op::Unbound,
        Op::Unbound,
        Op::Unbound,
        Op::Unbound,
        Op::Unbound,
        Op::Unbound,
        Op::Unbound,
        Op::Unbound,
        Op::Unbound,
        Op::Unbound,
        Op::Unbound,
        Op::Unbound,
        Op::Unbound,
    ]
}

// No session has a change that is pending.
fn unchanged(alloc: Global) -> [Stack; SESSIONS]
    ensures { (k : ℕ) → (stack_at result k).changes ≡ [] }
{
    [
        Stack::new(alloc),
        Stack::new(alloc),
        Stack::new(alloc),
        Stack::new(alloc),
        Stack::new(alloc),
        Stack::new(alloc),
        Stack::new(alloc),
        Stack::new(alloc),
        Stack::new(alloc),
        Stack::new(alloc),
        Stack::new(alloc),
        Stack::new(alloc),
        Stack::new(alloc),
        Stack::new(alloc),
        Stack::new(alloc),
        Stack::new(alloc),
    ]
}

impl Desk {
    /// No session has a transaction, after a history in which nothing is pending. The file has `pages` pages, the log at
    /// most `limit` bytes; `next` is the first id to be given, and 2^32 says that none is left.
    pub fn new(alloc: Global, format: Format, pages: u32, limit: u64, next: u64) -> Desk
        ghost history: { History }
        requires range { (1 ≤ next) × (next ≤ 2 ^ 32) }
        requires settled { (txn : ℕ) → pending_of history txn ≡ [] }
        requires fits { Fits history }
        requires bounds { (pages ≤ MAX_PAGES) × (limit ≤ MAX_LOG) }
        ensures setting { result.view.setting ≡ record { format = format; pages = pages; limit = limit } }
        ensures state { result.view.state ≡ opened (record { setting = record { format = format; pages = pages; limit = limit }; history = history; sessions = MAX_SESSIONS; next = next }) }
        ensures asked { result.view.asked ≡ replicate MAX_SESSIONS Op.Unbound }
    {
        Desk {
            format,
            pages,
            limit,
            txns: Txns::new(alloc, next),
            needs: Needs::new(alloc),
            grants: Grants::new(alloc),
            stages: [Stage::Idle; SESSIONS],
            ops: unbound(),
            stacks: unchanged(alloc),
            sessions: Noted::of(&next),
        }
    }

    /// The session's stage.
    pub fn stage(&self, k: u8) -> Stage
        requires { HasSession self.now.view k }
        ensures value { stage_with (op_at self.now.view k) result ≡ (seat_of self.now.view k).stage }
        ensures of_file { IsOfFile self.now.view.setting.pages (seat_of self.now.view k).stage }
    {
        self.stages[k as usize]
    }

    /// The operation that the session has asked for, without its row.
    pub fn asked(&self, k: u8) -> Asked
        requires { HasSession self.now.view k }
        ensures { result ≡ asked_by (op_at self.now.view k) }
    {
        asked_of(&self.ops[k as usize])
    }

    /// The operation itself.
    pub fn op(&self, k: u8) -> &Op
        requires { HasSession self.now.view k }
        ensures { result.now ≡ op_at self.now.view k }
    {
        &self.ops[k as usize]
    }

    /// The number of sessions.
    pub fn sessions(&self) -> u8
        ensures value { result ≡ MAX_SESSIONS }
        ensures known { length self.now.view.state.seats ≡ MAX_SESSIONS }
    {
        count(&self.stages)
    }

    /// The session's transaction, if it has one.
    pub fn txn(&self, k: u8) -> Option<TxnId>
        requires { HasSession self.now.view k }
        ensures value { number_of result ≡ (seat_of self.now.view k).txn }
        ensures some { IfSome result (λ txn. txn.0 ≡ 0 → ⊥) }
    {
        self.txns.of(k + 1)
    }

    /// The transaction of a session that has one.
    pub fn id(&self, k: u8) -> TxnId
        requires known { HasSession self.now.view k }
        requires active { IsActive self.now.view k }
        ensures { result.0 ≡ (seat_of self.now.view k).txn }
    {
        match self.txn(k) {
            Some(txn) => txn,
            None => unreachable!(),
        }
    }

    /// The number of the file's pages.
    pub fn pages(&self) -> u32
        ensures value { result ≡ self.now.view.setting.pages }
        ensures bound { self.now.view.setting.pages ≤ MAX_PAGES }
    {
        self.pages
    }

    /// The format of the file.
    pub fn format(&self) -> Format
        ensures { result ≡ self.now.view.setting.format }
    {
        self.format
    }

    /// The most bytes of the log.
    pub fn limit(&self) -> u64
        ensures value { result ≡ self.now.view.setting.limit }
        ensures bound { self.now.view.setting.limit ≤ MAX_LOG }
    {
        self.limit
    }

    /// The id of the next transaction, from 1; 2^32 says that none is left.
    pub fn next(&self) -> u64
        ensures value { result ≡ self.now.view.state.next }
        ensures bound { self.now.view.state.next ≤ 2 ^ 32 }
    {
        self.txns.next()
    }

    /// The least other transaction whose locks refuse the session's one on the row id in that mode.
    pub fn blocker(&self, k: u8, rid: Rid, mode: Mode) -> Option<TxnId>
        requires known { HasSession self.now.view k }
        requires active { IsActive self.now.view k }
        ensures { number_in result ≡ blocker self.now.view.state.grants (seat_of self.now.view k).txn rid (is_alone mode) }
    {
        self.grants.blocker(self.id(k), rid, mode)
    }

    /// The newest pending change of the session's transaction, without its row.
    pub fn pending(&self, k: u8) -> Option<PendingChange>
        requires known { HasSession self.now.view k }
        requires active { IsActive self.now.view k }
        ensures value { result ≡ newest_in (pending_at self.now.view k) }
        ensures inside { IfSome result (λ last. IsInside self.now.view.setting.pages last.rid) }
    {
        newest(&self.stacks, k)
    }

    /// Where that change is.
    pub fn last(&self, k: u8) -> Option<LastChange>
        requires known { HasSession self.now.view k }
        requires active { IsActive self.now.view k }
        ensures value { result ≡ last_in (pending_at self.now.view k) }
        ensures inside { IfSome result (λ last. last.page < self.now.view.setting.pages) }
    {
        match self.pending(k) {
            Some(change) => Some(LastChange {
                lsn: change.lsn,
                page: change.rid.page,
            }),
            None => None,
        }
    }

    /// Its LSN, 0 where there is none.
    pub fn undo(&self, k: u8) -> Lsn
        requires known { HasSession self.now.view k }
        requires active { IsActive self.now.view k }
        ensures { result.0 ≡ last_of (pending_at self.now.view k) }
    {
        last(&self.stacks, k)
    }

    /// The LSN of the pending change below it, 0 where there is none.
    pub fn under(&self, k: u8) -> Lsn
        requires known { HasSession self.now.view k }
        requires active { IsActive self.now.view k }
        ensures value { result.0 ≡ under_in (pending_at self.now.view k) }
        ensures falls { IfSome (newest_in (pending_at self.now.view k)) (λ last. result.0 < last.lsn.0) }
    {
        under(&self.stacks, k)
    }

    /// Where the session's savepoint of that number stands, if there is one.
    pub fn savepoint(&self, k: u8, number: u8) -> Option<Lsn>
        requires known { HasSession self.now.view k }
        requires active { IsActive self.now.view k }
        ensures { result ≡ saved_in (seat_of self.now.view k).saves number }
    {
        self.txns.target(k + 1, number)
    }

    /// The bytes that a transaction's undo needs on a page.
    pub fn need(&self, page: u32, txn: TxnId) -> u16
        ensures bound { result ≤ CAPACITY }
        ensures value { result ≡ need_of self.now.view.state.history txn.0 page }
    {
        self.needs.need(page, txn)
    }

    /// The bytes that the undo of all other transactions needs there.
    pub fn others(&self, page: u32, txn: TxnId) -> u32
        ensures { result ≡ others_need self.now.view.state.history txn.0 page }
    {
        self.needs.others(page, txn)
    }
}
