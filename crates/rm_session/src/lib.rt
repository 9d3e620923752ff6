//! One session over a file of pages in memory: it does a line at a time, and answers its reply.
//!
//! Every turn is one step of a run (`Step`). The pages are all that the session
//! knows of its rows, and each row stands where its insert replied. There are fewer than 2^32 pages, so
//! that a row id has a number for each. A turn that lacks memory leaves the session as it was.
#![tactic(auto)]

mod laws;
mod rows;

ghost use Rattle.std.specs.Prelude.{◌≡◌, ℕ, ◌+◌, ◌<◌, ◌≤◌, ◌^◌, length, IfOk, OnErr, MatchBool, false};
ghost use Rattle.rm_types.specs.declared.rows.TheConstants.{MAX_ROW};
ghost use Rattle.rm_session.specs.Session.{State, Step, IsFirstWithRoom, names_after, fresh, opened};
ghost use Rattle.rm_model.specs.Files.{slots_of};
ghost use Rattle.rm_session.specs.Answers.{Draws, IsFull};

pub use laws::{a_script_has_one_run, every_script_runs};
use rm_events::Names;
use rm_page::{Page, empty_pages};
use rm_plain::Line;
use rm_types::{Lsn, NoMemory, Op, Reply, Rid, Row, TxnId};
use std::alloc::Global;
use std::marker::Model;

/// One session over a file of pages in memory.
#[derive(Debug, Drop)]
pub struct Session {
    pages: Vec<Page>,
    next: u64,
    active: bool,
    names: Names,
}

impl Model for Session {
    ghost Value = { State };

    ghost view = { λ session. record { core = record { pages = slots_of session.pages.items; next = session.next; active = session.active }; names = session.names } };

    ghost invariant = { λ session. length session.pages.items < 2 ^ 32 };
}

impl Session {
    /// A session over `pages` empty pages, before its first transaction.
    ///
    /// # Errors
    ///
    /// [`NoMemory`] alone.
    pub fn new(alloc: Global, pages: u32) -> Result<Session, NoMemory>
        ensures { IfOk result (λ session. session ≡ fresh pages) }
    {
        Ok(Session::over(empty_pages(alloc, pages)?, 1))
    }

    /// A session over these pages, before its first transaction, which gets the id `next`.
    pub fn over(pages: Vec<Page>, next: u64) -> Session
        requires { length pages.items < 2 ^ 32 }
        ensures { result ≡ opened (slots_of pages.items) next }
    {
        Session {
            pages,
            next,
            active: false,
            names: Names::new(),
        }
    }

    /// Whether the session has a transaction.
    pub fn is_active(&self) -> bool
        ensures { result ≡ self.now.core.active }
    {
        self.active
    }

    /// The id of the next transaction.
    pub fn next(&self) -> u64
        ensures { result ≡ self.now.core.next }
    {
        self.next
    }

    /// Whether a page has room for a row of `len` bytes.
    pub fn has_place(&self, len: usize) -> bool
        requires { len ≤ MAX_ROW }
        ensures { MatchBool result ((page : ℕ) × IsFirstWithRoom self.now.core.pages len page) (IsFull self.now.core.pages len) }
    {
        match rows::first_with_room(&self.pages, len) {
            Some(_) => true,
            None => false,
        }
    }

    /// Does a line, and answers its reply. A row that it puts gets `lsn` as its page's LSN.
    ///
    /// # Errors
    ///
    /// [`NoMemory`] leaves the session as it was.
    pub fn turn(&mut self, line: &Line, lsn: Lsn) -> Result<Reply, NoMemory>
        requires { self.old.core.active ≡ false → line.now ≡ Line.Begin → self.old.core.next < 2 ^ 32 }
        ensures step { IfOk result (λ reply. Step self.old line.now reply self.new) }
        ensures ids { self.new.core.next ≤ self.old.core.next + 1 }
        ensures err { OnErr result (self.new ≡ self.old) }
    {
        let op = line.op(&self.names)?;
        let reply = self.answer(&op, lsn)?;
        bind(&mut self.names, line, &reply);
        Ok(reply)
    }

    // Answers an operation. The names stay as they are.
    fn answer(&mut self, op: &Op, lsn: Lsn) -> Result<Reply, NoMemory>
        requires { self.old.core.active ≡ false → op.now ≡ Op.Begin → self.old.core.next < 2 ^ 32 }
        ensures core { IfOk result (λ reply. Draws self.old.core op.now reply self.new.core) }
        ensures names { self.new.names ≡ self.old.names }
        ensures err { OnErr result (self.new ≡ self.old) }
    {
        match op {
            Op::Begin => Ok(self.begin()),
            Op::Insert(row) => self.insert(row, lsn),
            Op::Read(rid) => self.read(*rid),
            Op::Commit => Ok(self.commit()),
            Op::Unbound => Ok(Reply::Unbound),
        }
    }

    fn begin(&mut self) -> Reply
        requires { self.old.core.active ≡ false → self.old.core.next < 2 ^ 32 }
        ensures core { Draws self.old.core Op.Begin result self.new.core }
        ensures names { self.new.names ≡ self.old.names }
    {
        if self.active {
            return Reply::Skipped;
        }
        let id = TxnId(self.next as u32);
        self.next += 1;
        self.active = true;
        Reply::Began(id)
    }

    fn insert(&mut self, row: &Row, lsn: Lsn) -> Result<Reply, NoMemory>
        ensures core { IfOk result (λ reply. Draws self.old.core (Op.Insert row.now) reply self.new.core) }
        ensures names { self.new.names ≡ self.old.names }
        ensures err { OnErr result (self.new ≡ self.old) }
    {
        if !self.active {
            return Ok(Reply::Skipped);
        }
        rows::insert(&mut self.pages, row, lsn)
    }

    fn read(&self, rid: Rid) -> Result<Reply, NoMemory>
        ensures { IfOk result (λ reply. Draws self.now.core (Op.Read rid) reply self.now.core) }
    {
        if !self.active {
            return Ok(Reply::Skipped);
        }
        rows::read(*self.pages.allocator(), &self.pages, rid)
    }

    fn commit(&mut self) -> Reply
        ensures core { Draws self.old.core Op.Commit result self.new.core }
        ensures names { self.new.names ≡ self.old.names }
    {
        if !self.active {
            return Reply::Skipped;
        }
        self.active = false;
        Reply::Committed
    }
}

// An insert that found its place binds its name.
fn bind(names: &mut Names, line: &Line, reply: &Reply)
    ensures { names.new ≡ names_after line.now reply.now names.old }
{
    if let (Line::Insert(name, _), Reply::Inserted(rid)) = (line, reply) {
        names.bind(*name, *rid);
    }
}
