//! What rm_audit says of the logs that are worked out by hand.

use crate::logs::{BROKEN, LOGS};
use crate::records::logged;
use rm_audit::{
    Verdict, all_pending, audit, committed_rows, entry, has_record, is_finished, need, needs_on,
    page, pending_changes, row, version,
};
use rm_record::Logged;
use rm_types::{Format, SLOT_ENTRY, Slot, TxnId};
use std::alloc::Global;
use std::process::Abort;
use std::test::Fail;

/// The bytes in use on a page with these slots.
fn used(slots: &[Slot]) -> usize {
    let mut bytes = slots.len().saturating_mul(SLOT_ENTRY as usize);
    for slot in slots {
        if let Slot::Row(row) = slot {
            bytes = bytes.saturating_add(row.as_slice().len());
        }
    }
    bytes
}

/// What a log says of page 0: the bytes in use, the entry, and the needs of the transactions that have one.
fn page_text(rt: &impl Abort, alloc: Global, log: &[Logged]) -> Result<String, Fail> {
    let bytes = used(&page(alloc, log, 0)?);
    let mut text = format!(in alloc; "{bytes} {}", entry(log, 0))?;
    let needs = needs_on(alloc, log, 0)?;
    for number in 1..5 {
        let txn = TxnId(number);
        let bytes = need(alloc, log, txn, 0)?;
        assert_eq!(rt; needs.get(&txn).copied().unwrap_or(0), bytes);
        if bytes > 0 {
            text.push_str(format!(in alloc; " {number}:{bytes}")?.as_str())?;
        }
    }
    Ok(text)
}

/// The log is legal at each of its records, and says this of page 0.
fn check_legal(rt: &impl Abort, alloc: Global, section: &str) -> Result<(), Fail> {
    let mut log = Vec::new(alloc);
    for line in section.lines().skip(1) {
        let (record, page) = line.split_once(" | ").ok_or("no page")?;
        log.push(logged(alloc, record)?)?;
        assert_eq!(rt; audit(alloc, Format::One, &log)?, Verdict::Legal, "{line}");
        assert_eq!(rt; page_text(rt, alloc, &log)?.as_str(), page, "{line}");
    }
    Ok(())
}

#[test]
fn logs_are_legal_at_each_record(rt: HostRuntime) -> Result<(), Fail> {
    assert_eq!(rt; audit(rt.alloc(), Format::One, &[])?, Verdict::Legal);
    for section in LOGS.split("\n\n") {
        check_legal(&rt, rt.alloc(), section)?;
    }
    Ok(())
}

/// Puts the records of the log with this name after a log, from and up to these places.
fn add_part(log: &mut Vec<Logged>, name: &str, from: usize, to: usize) -> Result<(), Fail> {
    let alloc = *log.allocator();
    let section = LOGS.split("\n\n").find(|section| section.starts_with(name));
    let lines = section.ok_or("no log")?.lines().skip(1);
    for (at, line) in lines.enumerate() {
        let (record, _) = line.split_once(" | ").ok_or("no page")?;
        if from <= at && at < to {
            log.push(logged(alloc, record)?)?;
        }
    }
    Ok(())
}

/// The verdict on the log with that name in which others stand from and up to these places.
fn verdict(alloc: Global, head: &[&str], others: &str) -> Result<Verdict, Fail> {
    let [name, from, to] = head else {
        return Err("no places".into());
    };
    let mut log = Vec::new(alloc);
    add_part(&mut log, name, 0, from.parse::<usize>()?)?;
    for record in others.split(';').filter(|record| !record.is_empty()) {
        log.push(logged(alloc, record)?)?;
    }
    add_part(&mut log, name, to.parse::<usize>()?, usize::MAX)?;
    Ok(audit(alloc, Format::One, &log)?)
}

#[test]
fn a_broken_log_is_refused_by_its_first_broken_condition(rt: HostRuntime) -> Result<(), Fail> {
    let alloc = rt.alloc();
    for line in BROKEN.lines() {
        let (case, choices) = line.split_once(" |").ok_or("no records")?;
        let words: Vec<&str> = case.split(' ').collect(alloc)?;
        let [why, place @ .., lsn] = words.as_slice() else {
            return Err("no case".into());
        };
        let due = format!(in alloc; "Illegal {{ lsn: Lsn({lsn}), why: {why} }}")?;
        for others in choices.split('|') {
            let found = format!(in alloc; "{:?}", verdict(alloc, place, others)?)?;
            assert_eq!(rt; found.as_str(), due.as_str(), "{line}");
        }
    }
    Ok(())
}

/// The prefix of a log, and what it says: the committed rows of page 0, the version of pages 0 and 1, of each transaction
/// whether it has a record and is finished, and the pending changes.
const SAYINGS: &str = "updates 8 | 0.0=63*1 0.1=62*1 v117 v0 1f 2f 3f
listed 6 | 0.0=61*1 v87 v0 1f 2 3 39
listed 7 | 0.0=61*1 0.1=62*1 v87 v0 1f 2f 3
listed 9 | 0.0=61*1 0.1=62*1 v87 v0 1f 2f 3f
refilled 8 | 0.0=61*4000 v8081 v0 1f 2 4048 8081
refilled 9 | 0.0=61*4000 v11124 v0 1f 2 4048
refilled 12 | 0.0=61*4000 v11162 v0 1f 2f";

/// The committed rows.
fn rows_text(rt: &impl Abort, alloc: Global, log: &[Logged]) -> Result<String, Fail> {
    let mut text = String::new(alloc);
    for (rid, held) in committed_rows(alloc, log)?.iter() {
        let bytes = held.as_slice();
        let byte = bytes.first().copied().unwrap_or(0);
        let part = format!(in alloc; "{}.{}={byte:x}*{} ", rid.page, rid.slot, bytes.len())?;
        text.push_str(part.as_str())?;
        let alone = row(alloc, log, *rid)?.ok_or("no row")?;
        assert!(rt; alone.as_slice() == bytes, "{part}");
    }
    Ok(text)
}

/// The transactions that have a record, and of them the pending changes.
fn txns_text(rt: &impl Abort, alloc: Global, log: &[Logged]) -> Result<String, Fail> {
    let mut text = String::new(alloc);
    for number in 1..5 {
        let txn = TxnId(number);
        if has_record(log, txn) {
            let mark = if is_finished(log, txn) { "f" } else { "" };
            text.push_str(format!(in alloc; " {number}{mark}")?.as_str())?;
        }
    }
    for change in &all_pending(alloc, log)? {
        let own = pending_changes(alloc, log, change.txn)?;
        assert!(rt; own.iter().any(|other| other.lsn == change.lsn));
        text.push_str(format!(in alloc; " {}", change.lsn.0)?.as_str())?;
    }
    Ok(text)
}

#[test]
fn a_log_says_what_is_committed_and_what_is_pending(rt: HostRuntime) -> Result<(), Fail> {
    let alloc = rt.alloc();
    for line in SAYINGS.lines() {
        let (name, due) = line.split_once(" | ").ok_or("no saying")?;
        let (name, count) = name.split_once(' ').ok_or("no count")?;
        let mut log = Vec::new(alloc);
        add_part(&mut log, name, 0, count.parse::<usize>()?)?;
        let rows = rows_text(&rt, alloc, &log)?;
        let txns = txns_text(&rt, alloc, &log)?;
        let (here, there) = (version(&log, 0).0, version(&log, 1).0);
        let said = format!(in alloc; "{rows}v{here} v{there}{txns}")?;
        assert_eq!(rt; said.as_str(), due, "{line}");
    }
    Ok(())
}

/// Puts a transaction after the log that inserts two bytes on each of 19 pages, and commits. The LSNs are the counts
/// of records.
fn add_txn(alloc: Global, log: &mut Vec<Logged>, txn: u32) -> Result<(), Fail> {
    let slot = txn.saturating_sub(1);
    let mut under = 0;
    for page in 0..19 {
        let lsn = log.len() as u64 + 1;
        let line = format!(in alloc; "{lsn} {txn} insert {under} {page}.{slot} 0 61*2")?;
        log.push(logged(alloc, line.as_str())?)?;
        under = lsn;
    }
    let line = format!(in alloc; "{} {txn} commit", log.len() as u64 + 1)?;
    log.push(logged(alloc, line.as_str())?)?;
    Ok(())
}

#[test]
fn two_thousand_records_are_legal(rt: HostRuntime) -> Result<(), Fail> {
    let mut log = Vec::new(rt.alloc());
    for txn in 1..101 {
        add_txn(rt.alloc(), &mut log, txn)?;
    }
    assert_eq!(rt; log.len(), 2000);
    assert_eq!(rt; audit(rt.alloc(), Format::One, &log)?, Verdict::Legal);
    Ok(())
}
