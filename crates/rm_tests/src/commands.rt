//! The commands over the devices of rm_memory, as their user sees them.

use crate::texts::lines;
use rm_command::{Status, run_command};
use rm_memory::{MemSink, MemSource, MemVolume};
use rm_script::{MAX_BYTES, MAX_LINES};
use rm_types::MAX_ROW;
use std::alloc::{AllocError, Global};
use std::test::Fail;

/// The words as a command has them.
fn strings(alloc: Global, words: &str) -> Result<Vec<String>, AllocError> {
    let mut strings = Vec::new(alloc);
    for word in words.split(' ') {
        strings.push(String::from_str(alloc, word)?)?;
    }
    Ok(strings)
}

/// What a command prints, and then `sink` where it ends because its sink failed. Where it fails else, what it prints
/// has the number of its status.
fn run_over(
    alloc: Global,
    volume: &mut MemVolume,
    words: &str,
    source: &mut MemSource,
    sink: &mut MemSink,
) -> Result<String, Fail> {
    let words = strings(alloc, words)?;
    let status = run_command(alloc, words.as_slice(), volume, source, sink);
    let mut printed = String::from_utf8(sink.bytes().to_vec(alloc)?)?;
    let mark = format!(in alloc; "error {} ", status.number())?;
    if status == Status::Sink {
        printed.push_str("sink")?;
    } else if printed.contains(mark.as_str()) == (status == Status::Done) {
        return Err("it prints another status".into());
    }
    Ok(printed)
}

/// What a command prints whose source and sink do not fail.
pub(crate) fn run(
    alloc: Global,
    volume: &mut MemVolume,
    words: &str,
    script: &str,
) -> Result<String, Fail> {
    let mut source = MemSource::new(script.as_bytes().to_vec(alloc)?, Vec::new(alloc));
    let mut sink = MemSink::new(alloc, Vec::new(alloc));
    run_over(alloc, volume, words, &mut source, &mut sink)
}

/// The same of the command `plain`.
fn plain(alloc: Global, script: &str) -> Result<String, Fail> {
    run(alloc, &mut MemVolume::new(alloc), "plain", script)
}

/// Scripts and their replies, `;` for the end of a line.
const REPLIES: &str = "|
begin;commit|begin 1;committed;
begin;insert $a 2*61;read $a;commit;|begin 1;inserted 0.0;row 6161;committed;
read $a;insert $a 61;begin;read 16.0;read 0.5;insert $a 61;read $a;|unbound;skipped;begin 1;badrid;norow;inserted 0.0;row 61;
insert $a 61;read $a;read 0.0;read 16.0;commit;|skipped;unbound;skipped;skipped;skipped;
begin;commit;begin;commit;|begin 1;committed;begin 2;committed;
begin;begin;commit;commit;begin;|begin 1;skipped;committed;skipped;begin 2;
begin;insert $z 61;commit;read $z;begin;read $z;|begin 1;inserted 0.0;committed;skipped;begin 2;row 61;
begin;insert $a 00ff0a;read $a;insert $b 0*00;read $b;|begin 1;inserted 0.0;row 00ff0a;inserted 0.1;row -;
begin;insert $a 61;insert $a 62;read $a;read 0.0;read 0.2;|begin 1;inserted 0.0;inserted 0.1;row 62;row 61;norow;
begin;read 0.1020;read 0.1019;read 15.1019;read 4294967295.65535;|begin 1;badrid;norow;norow;badrid;
begin;insert $a 4000*61;insert $b 4000*62;insert $c 63;read 0.1;|begin 1;inserted 0.0;inserted 1.0;inserted 0.1;row 63;
begin;read 0.0;read $A;|error 3 script line 3;
update 0.0 61|error 3 script line 1;";

#[test]
fn replies_come_in_their_order(rt: HostRuntime) -> Result<(), Fail> {
    let alloc = rt.alloc();
    for case in REPLIES.split('\n') {
        let (script, due) = case.split_once('|').ok_or("no replies")?;
        let printed = plain(alloc, lines(alloc, script)?.as_str())?;
        assert_eq!(rt; printed.as_str(), lines(alloc, due)?.as_str(), "{script}");
    }
    Ok(())
}

const MANY_BYTES: &str = "error 10 limit bytes\n";

const MANY_LINES: &str = "error 10 limit lines\n";

const FIRST_WRONG: &str = "error 3 script line 1\n";

#[test]
fn bytes_are_counted_before_lines_and_both_first(rt: HostRuntime) -> Result<(), Fail> {
    for (words, text, count, due) in [
        ("plain", "x", MAX_BYTES + 1, MANY_BYTES),
        ("turns", "\n", MAX_BYTES + 1, MANY_BYTES),
        ("plain", "\n", MAX_BYTES, MANY_LINES),
        ("plain", "x", MAX_BYTES, FIRST_WRONG),
        ("turns", "\n", MAX_LINES + 1, MANY_LINES),
        ("plain", "\n", MAX_LINES, FIRST_WRONG),
    ] {
        let script = text.repeat(rt.alloc(), count)?;
        let mut volume = MemVolume::new(rt.alloc());
        // A volume that is not made is found after a wrong script.
        let printed = run(rt.alloc(), &mut volume, words, script.as_str())?;
        assert_eq!(rt; printed.as_str(), due, "{words}: {count} times {text:?}");
    }
    Ok(())
}

/// A script of 20 reads of a long row, and its replies, which are longer than what is written at once.
fn long(alloc: Global) -> Result<(String, String), AllocError> {
    let reads = "read $a\n".repeat(alloc, 20)?;
    let script = ["begin\ninsert $a 4076*61\n", reads.as_str()].concat(alloc)?;
    let row = "61".repeat(alloc, MAX_ROW)?;
    let row = ["row ", row.as_str(), "\n"].concat(alloc)?;
    let rows = row.repeat(alloc, 20)?;
    let due = ["begin 1\ninserted 0.0\n", rows.as_str()].concat(alloc)?;
    Ok((script, due))
}

/// What `plain` prints for the long script where the source fails at that read, or the sink at that write.
fn cut_short(alloc: Global, read: u64, write: u64) -> Result<String, Fail> {
    let (script, _) = long(alloc)?;
    let mut source = MemSource::new(script.into_bytes(), Vec::from_slice(alloc, &[read])?);
    let mut sink = MemSink::new(alloc, Vec::from_slice(alloc, &[write])?);
    let mut volume = MemVolume::new(alloc);
    run_over(alloc, &mut volume, "plain", &mut source, &mut sink)
}

#[test]
fn a_source_or_a_sink_that_fails_ends_the_command(rt: HostRuntime) -> Result<(), Fail> {
    let (_, due) = long(rt.alloc())?;
    // The first read gives all bytes, and the second finds the end.
    for call in 1..3 {
        let printed = cut_short(rt.alloc(), call, 0)?;
        assert_eq!(rt; printed.as_str(), "error 5 source\n", "call {call}");
    }
    for call in 1..4 {
        let printed = cut_short(rt.alloc(), 0, call)?;
        let taken = printed.as_str().strip_suffix("sink").ok_or("it is whole")?;
        assert!(rt;
            taken.len() < due.len() && due.as_str().starts_with(taken),
            "call {call}"
        );
    }
    assert!(rt; cut_short(rt.alloc(), 3, 4)?.as_str() == due.as_str());
    Ok(())
}
