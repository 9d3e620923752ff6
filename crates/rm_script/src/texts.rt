//! How replies and the other lines that are printed are written.
//!
//! Each function appends one line, and [`NoMemory`] leaves `out` as it was.

ghost use Rattle.std.specs.Prelude.{◌≡◌, ◌++◌, OnOk, OnErr};
ghost use Rattle.rm_script.specs.Parts.{parts_text};
ghost use Rattle.rm_script.specs.Texts.{created_line, entry_line, mismatches_line, pages_line, restart_line, row_line, rows_line, text_of, turn_line, unfinished_line, waits_line, words_of};

use crate::parts::{Part, write_line};
use rm_events::Reply;
use rm_types::{NoMemory, Rid, Row, TxnId};

/// The words of a reply: one as it stands, and what comes after it.
fn words(reply: &Reply) -> [Part<'_>; 2]
    ensures { parts_text result ≡ words_of reply.now }
{
    match reply {
        Reply::Began(id) => [Part::Word(b"begin "), Part::Number(u64::from(id.0))],
        Reply::Inserted(rid) => [Part::Word(b"inserted "), Part::Place(*rid)],
        Reply::NoSpace => alone(b"nospace"),
        Reply::Row(row) => [Part::Word(b"row "), Part::Row(row)],
        Reply::NoRow => alone(b"norow"),
        Reply::Updated => alone(b"updated"),
        Reply::Deleted => alone(b"deleted"),
        Reply::PageFull { room } => [Part::Word(b"pagefull "), Part::Number(u64::from(*room))],
        Reply::BadRid => alone(b"badrid"),
        Reply::Saved(number) => [Part::Word(b"saved "), Part::Number(u64::from(*number))],
        Reply::BackTo(number) => [Part::Word(b"back "), Part::Number(u64::from(*number))],
        Reply::NoSavepoint(number) => {
            [
                Part::Word(b"nosavepoint "),
                Part::Number(u64::from(*number)),
            ]
        }
        Reply::Committed => alone(b"committed"),
        Reply::Aborted => alone(b"aborted"),
        Reply::Died { holder } => [Part::Word(b"died "), Part::Number(u64::from(holder.0))],
        Reply::Unbound => alone(b"unbound"),
        Reply::Skipped => alone(b"skipped"),
    }
}

/// A word with nothing after it.
fn alone(word: &[u8]) -> [Part<'_>; 2]
    ensures { parts_text result ≡ word.now }
{
    [Part::Word(word), Part::Word(b"")]
}

/// The line of a reply.
pub fn reply_text(reply: &Reply, out: &mut Vec<u8>) -> Result<(), NoMemory>
    ensures ok { OnOk result (out.new.items ≡ out.old.items ++ text_of reply.now) }
    ensures err { OnErr result (out.new.items ≡ out.old.items) }
{
    write_line(&words(reply), out)
}

/// A reply's line of `turns`, after its session's number.
pub fn turn_text(session: u8, reply: &Reply, out: &mut Vec<u8>) -> Result<(), NoMemory>
    ensures ok { OnOk result (out.new.items ≡ out.old.items ++ turn_line session reply.now) }
    ensures err { OnErr result (out.new.items ≡ out.old.items) }
{
    let [word, rest] = words(reply);
    let number = Part::Number(u64::from(session));
    write_line(&[number, Part::Word(b" "), word, rest], out)
}

/// The line of a session that waits for the transaction `holder`.
pub fn waits_text(session: u8, holder: TxnId, out: &mut Vec<u8>) -> Result<(), NoMemory>
    ensures ok { OnOk result (out.new.items ≡ out.old.items ++ waits_line session holder.0) }
    ensures err { OnErr result (out.new.items ≡ out.old.items) }
{
    let number = Part::Number(u64::from(session));
    let holder = Part::Number(u64::from(holder.0));
    write_line(&[number, Part::Word(b" waits "), holder], out)
}

/// The line of a transaction that its session left open.
pub fn unfinished_text(session: u8, txn: TxnId, out: &mut Vec<u8>) -> Result<(), NoMemory>
    ensures ok { OnOk result (out.new.items ≡ out.old.items ++ unfinished_line session txn.0) }
    ensures err { OnErr result (out.new.items ≡ out.old.items) }
{
    let number = Part::Number(u64::from(session));
    let txn = Part::Number(u64::from(txn.0));
    write_line(&[number, Part::Word(b" unfinished "), txn], out)
}

/// The line of a volume that was created, with this many pages.
pub fn created_text(pages: u32, out: &mut Vec<u8>) -> Result<(), NoMemory>
    ensures ok { OnOk result (out.new.items ≡ out.old.items ++ created_line pages) }
    ensures err { OnErr result (out.new.items ≡ out.old.items) }
{
    let pages = Part::Number(u64::from(pages));
    write_line(&[Part::Word(b"created "), pages], out)
}

/// The line of a restart: how many log records it read, applied and undid.
pub fn restart_text(
    records: u64,
    applied: u64,
    undone: u64,
    out: &mut Vec<u8>,
) -> Result<(), NoMemory>
    ensures ok { OnOk result (out.new.items ≡ out.old.items ++ restart_line records applied undone) }
    ensures err { OnErr result (out.new.items ≡ out.old.items) }
{
    let parts = [
        Part::Word(b"records "),
        Part::Number(records),
        Part::Word(b" applied "),
        Part::Number(applied),
        Part::Word(b" undone "),
        Part::Number(undone),
    ];
    write_line(&parts, out)
}

/// The line of how many rows a volume has.
pub fn rows_text(rows: u64, out: &mut Vec<u8>) -> Result<(), NoMemory>
    ensures ok { OnOk result (out.new.items ≡ out.old.items ++ rows_line rows) }
    ensures err { OnErr result (out.new.items ≡ out.old.items) }
{
    write_line(&[Part::Word(b"rows "), Part::Number(rows)], out)
}

/// The line of a row and its place.
pub fn row_text(rid: Rid, row: &Row, out: &mut Vec<u8>) -> Result<(), NoMemory>
    ensures ok { OnOk result (out.new.items ≡ out.old.items ++ row_line rid row.now) }
    ensures err { OnErr result (out.new.items ≡ out.old.items) }
{
    write_line(&[Part::Place(rid), Part::Word(b" "), Part::Row(row)], out)
}

/// The line of the entry that the inventory has for a page.
pub fn entry_text(page: u32, category: u8, out: &mut Vec<u8>) -> Result<(), NoMemory>
    ensures ok { OnOk result (out.new.items ≡ out.old.items ++ entry_line page category) }
    ensures err { OnErr result (out.new.items ≡ out.old.items) }
{
    let page = Part::Number(u64::from(page));
    let category = Part::Number(u64::from(category));
    write_line(
        &[Part::Word(b"entry "), page, Part::Word(b" "), category],
        out,
    )
}

/// The line of how many pages a volume has.
pub fn pages_text(pages: u32, out: &mut Vec<u8>) -> Result<(), NoMemory>
    ensures ok { OnOk result (out.new.items ≡ out.old.items ++ pages_line pages) }
    ensures err { OnErr result (out.new.items ≡ out.old.items) }
{
    let pages = Part::Number(u64::from(pages));
    write_line(&[Part::Word(b"pages "), pages], out)
}

/// The line of how many pages a volume has, and how many of their entries are not their categories.
pub fn mismatches_text(pages: u32, mismatches: u32, out: &mut Vec<u8>) -> Result<(), NoMemory>
    ensures ok { OnOk result (out.new.items ≡ out.old.items ++ mismatches_line pages mismatches) }
    ensures err { OnErr result (out.new.items ≡ out.old.items) }
{
    let pages = Part::Number(u64::from(pages));
    let mismatches = Part::Number(u64::from(mismatches));
    write_line(
        &[
            Part::Word(b"pages "),
            pages,
            Part::Word(b" mismatches "),
            mismatches,
        ],
        out,
    )
}
