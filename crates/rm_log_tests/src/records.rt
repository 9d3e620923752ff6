//! Log records written in text, one a line: the LSN, the transaction (0 for a checkpoint), and what the record does.
//!
//! | Text | What it does |
//! |---|---|
//! | `insert UNDER RID NEED ROW`, `delete UNDER RID NEED ROW` | puts a row into a slot, takes it |
//! | `update UNDER RID NEED ROW ROW` | puts the second row in the place of the first |
//! | `undo LSN NEXT RID ROW` | undoes a change: the slot holds this again, `-` for nothing |
//! | `enter PAGE CATEGORY`, `commit`, `end` | enters a page's category, commits, ends |
//! | `list NEXT LOSERS PAGES BLOCKS` | a checkpoint; each list is `2:39,3:0`, or `-` |
//!
//! A row is `61*3`, the byte 61 (hexadecimal) three times, and a row id `0.1`, slot 1 of page 0.

use rm_record::{LogRecord, Logged};
use rm_types::{Lsn, MAX_ROW, Place, Places, Rid, Row, Slot, TxnId};
use std::alloc::Global;
use std::test::Fail;

fn lsn_of(word: &str) -> Result<Lsn, Fail> {
    Ok(Lsn(word.parse::<u64>()?))
}

fn rid_of(word: &str) -> Result<Rid, Fail> {
    let (page, slot) = word.split_once('.').ok_or("no row id")?;
    let page = page.parse::<u32>()?;
    let slot = slot.parse::<u16>()?;
    Ok(Rid { page, slot })
}

// The row, of MAX_ROW bytes at most.
fn row_of(alloc: Global, word: &str) -> Result<Row, Fail> {
    let (byte, count) = word.split_once('*').ok_or("no row")?;
    let byte = u8::from_str_radix(byte, 16)?;
    let count = count.parse::<usize>()?;
    Ok(Row::repeated(alloc, byte, count.min(MAX_ROW))?)
}

fn slot_of(alloc: Global, word: &str) -> Result<Slot, Fail> {
    if word == "-" {
        return Ok(Slot::Vacant);
    }
    Ok(Slot::Row(row_of(alloc, word)?))
}

// The places, as far as their numbers rise.
fn places_of(alloc: Global, word: &str) -> Result<Places, Fail> {
    let mut places = Places::new(alloc);
    for entry in word.split(',').filter(|entry| *entry != "-") {
        let (number, at) = entry.split_once(':').ok_or("no place")?;
        let number = number.parse::<u32>()?;
        let at = at.parse::<u64>()?;
        if places.may_push(number) {
            places.push(Place { number, at })?;
        }
    }
    Ok(places)
}

// A change, by its first word and the words after it.
fn change_of(alloc: Global, txn: TxnId, words: &[&str]) -> Result<LogRecord, Fail> {
    let [kind, under, rid, need, row, rest @ ..] = words else {
        return Err("no record".into());
    };
    let under = lsn_of(under)?;
    let rid = rid_of(rid)?;
    let need = need.parse::<u16>()?;
    let row = row_of(alloc, row)?;
    match (*kind, rest) {
        ("insert", []) => Ok(LogRecord::Insert {
            txn,
            under,
            rid,
            need,
            row,
        }),
        ("delete", []) => Ok(LogRecord::Delete {
            txn,
            under,
            rid,
            need,
            old: row,
        }),
        ("update", [new]) => Ok(LogRecord::Update {
            txn,
            under,
            rid,
            need,
            old: row,
            new: row_of(alloc, new)?,
        }),
        _ => Err("no change".into()),
    }
}

fn undo_of(alloc: Global, txn: TxnId, words: [&str; 4]) -> Result<LogRecord, Fail> {
    let [undone, next, rid, back] = words;
    Ok(LogRecord::Compensate {
        txn,
        undone: lsn_of(undone)?,
        next: lsn_of(next)?,
        rid: rid_of(rid)?,
        back: slot_of(alloc, back)?,
    })
}

fn list_of(alloc: Global, words: [&str; 4]) -> Result<LogRecord, Fail> {
    let [next, losers, pages, blocks] = words;
    let losers = places_of(alloc, losers)?;
    let pages = places_of(alloc, pages)?;
    Ok(LogRecord::Checkpoint {
        next: next.parse::<u64>()?,
        losers,
        pages,
        blocks: places_of(alloc, blocks)?,
    })
}

fn record_of(alloc: Global, txn: TxnId, words: &[&str]) -> Result<LogRecord, Fail> {
    match words {
        ["undo", undone, next, rid, back] => undo_of(alloc, txn, [undone, next, rid, back]),
        ["list", next, losers, pages, blocks] => list_of(alloc, [next, losers, pages, blocks]),
        ["enter", page, category] => Ok(LogRecord::Inventory {
            txn,
            page: page.parse::<u32>()?,
            category: category.parse::<u8>()?,
        }),
        ["commit"] => Ok(LogRecord::Commit { txn }),
        ["end"] => Ok(LogRecord::End { txn }),
        _ => change_of(alloc, txn, words),
    }
}

/// The record of this line without its LSN.
pub(crate) fn record(alloc: Global, line: &str) -> Result<LogRecord, Fail> {
    let words: Vec<&str> = line.split_whitespace().collect(alloc)?;
    let [txn, rest @ ..] = words.as_slice() else {
        return Err("no record".into());
    };
    record_of(alloc, TxnId(txn.parse::<u32>()?), rest)
}

/// The record of this line.
pub(crate) fn logged(alloc: Global, line: &str) -> Result<Logged, Fail> {
    let (lsn, rest) = line.trim_start().split_once(' ').ok_or("no record")?;
    let lsn = lsn_of(lsn)?;
    let what = record(alloc, rest)?;
    Ok(Logged { lsn, what })
}
