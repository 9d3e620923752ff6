//! The commands over a volume in memory, and what a crash of it leaves.

use crate::commands::run;
use crate::texts::lines;
use rm_memory::MemVolume;
use rm_outside::Volume;
use rm_types::{Area, MAX_ROW};
use std::alloc::Global;
use std::process::Abort;
use std::test::Fail;

/// A session that commits one row, and its replies.
const SESSION: &str = "session 1\nbegin\ninsert $a 2*61\ncommit\nturns\nfinish 200000\n";

const REPLIES: &str = "1 begin 1\n1 inserted 0.0\n1 committed\n";

const NO_RECORD: &str = "records 0 applied 0 undone 0\n";

const ONE_RECORD: &str = "records 1 applied 1 undone 0\n";

const NOT_MADE: &str = "error 7 not made\n";

/// The replies where the volume fails in the commit.
const FAILED: &str = "1 begin 1\n1 inserted 0.0\nerror 4 volume log\n";

/// Each way in which the first write that is not synced ends: lost, applied, or filled.
const OUTCOMES: [u64; 4] = [0, 1, 1 << 63, u64::MAX];

/// What `restart` prints after a crash with that outcome.
fn reopened(alloc: Global, volume: &MemVolume, outcome: u64) -> Result<String, Fail> {
    let mut left = volume.crash(outcome)?;
    run(alloc, &mut left, "restart", "")
}

/// A new volume of this many pages.
fn made(alloc: Global, pages: u32) -> Result<MemVolume, Fail> {
    let mut volume = MemVolume::new(alloc);
    run(
        alloc,
        &mut volume,
        format!(in alloc; "create {pages}")?.as_str(),
        "",
    )?;
    Ok(volume)
}

/// Commands on one volume in turn, each with the lines of its session, and what it prints.
const STEPS: &str = "restart||error 7 not made;
turns|begin;|error 7 not made;
create 0||error 2 usage;
create 16385||error 2 usage;
create||error 2 usage;
plain plain||error 2 usage;
create 1||created 1;
restart||records 0 applied 0 undone 0;
turns|begin;insert $a 2*61;commit;|1 begin 1;1 inserted 0.0;1 committed;
create 1||error 8 already made;
restart||records 1 applied 1 undone 0;
turns|begin;insert $a 1*62;|1 begin 2;1 inserted 0.1;1 unfinished 2;
turns|begin;read 0.0;read 0.1;commit;|1 begin 2;1 row 6161;1 norow;1 committed;
turns|begin;insert $a 4071*62;insert $b 4070*63;insert $c 0*00;read $c;|1 begin 3;1 nospace;1 inserted 0.1;1 nospace;1 unbound;1 unfinished 3;
turns|x;|error 3 script line 2;";

#[test]
fn commands_share_a_volume(rt: HostRuntime) -> Result<(), Fail> {
    let alloc = rt.alloc();
    let mut volume = MemVolume::new(alloc);
    for case in STEPS.split('\n') {
        let (words, rest) = case.split_once('|').ok_or("no script")?;
        let (session, due) = rest.split_once('|').ok_or("no replies")?;
        let script = format!(in alloc; "session 1;{session}turns;finish 200000;")?;
        let script = lines(alloc, script.as_str())?;
        let printed = run(alloc, &mut volume, words, script.as_str())?;
        assert_eq!(rt; printed.as_str(), lines(alloc, due)?.as_str(), "{case}");
    }
    Ok(())
}

/// The log of the session (docs/FORMATS.md): an open gate, the batch's length, the insert, the commit, a closed gate.
const LOG: &str = "010000001e01000000010000000000000000000000000000000000026161060000000100";

/// Slot 0 of a new volume of one page.
const SLOT: &str = "000100000001000000000000000000000000000000000000000000000000000000000000";

#[test]
fn a_session_on_a_new_volume_has_these_bytes(rt: HostRuntime) -> Result<(), Fail> {
    let mut volume = made(rt.alloc(), 1)?;
    run(rt.alloc(), &mut volume, "turns", SESSION)?;
    let mut master = [7; 100];
    assert_eq!(rt; volume.read(Area::Master, 0, &mut master), Ok(()));
    assert_eq!(rt; &master[..2], [1, 0].as_slice());
    assert_eq!(rt; hex::encode(rt.alloc(), &master[64..])?.as_str(), SLOT);
    let mut log = [7; 36];
    assert_eq!(rt; volume.read(Area::Log, 0, &mut log), Ok(()));
    assert_eq!(rt; hex::encode(rt.alloc(), &log)?.as_str(), LOG);
    Ok(())
}

/// A log of one batch, as the bytes of its records (docs/FORMATS.md), `07*3` for three bytes 07: what an opening of two
/// pages prints.
const OPENINGS: &str =
    "01 00000001 0000000000000000 00000001 0000 0000 0003 07*3 06 00000001|records 1 applied 1 undone 0;
01 00000001 0000000000000000 00000001 0000 0000 0003 07*3|error 15 needs undo 1;
01 00000001 0000000000000000 00000001 0000 0000 0fec 07*4076 \
01 00000001 0000000000000005 00000002 0000 0000 0000|error 9 damaged log 4104;
01 00000001 0000000000000000 00000001 0000 0000 0fec 07*4076 \
01 00000001 0000000000000005 00000001 0001 0000 0001 07|error 9 damaged log 4104;
01 00000001 0000000000000000 00000001 0000 0000 0003 07*3 07 00000001|error 9 damaged log 31;
06 00000001 06 00000002|records 0 applied 0 undone 0;
06 00000001 06 000000|error 9 damaged log 10;
06 00000000|error 9 damaged log 5;";

/// A batch of these records: an open gate, the length, and the records.
fn batch(alloc: Global, records: &str) -> Result<Vec<u8>, Fail> {
    let mut bytes = Vec::new(alloc);
    for word in records.split(' ') {
        let (digits, count) = word.split_once('*').unwrap_or((word, "1"));
        let piece = hex::decode(alloc, digits)?.repeat(
            alloc,
            count.parse::<usize>()?.min(MAX_ROW),
        )?;
        bytes.extend_from_slice(&piece)?;
    }
    let length = u32::try_from(bytes.len())?.to_be_bytes();
    Ok([&[1], length.as_slice(), &bytes].concat(alloc)?)
}

#[test]
fn an_opening_reads_the_log(rt: HostRuntime) -> Result<(), Fail> {
    let alloc = rt.alloc();
    for case in OPENINGS.split('\n') {
        let (records, due) = case.split_once('|').ok_or("no line")?;
        let batch = batch(alloc, records)?;
        assert!(rt; batch.len() < 10_000);
        let mut volume = made(alloc, 2)?;
        assert_eq!(rt; volume.write(Area::Log, 0, &batch), Ok(()));
        let printed = run(alloc, &mut volume, "restart", "")?;
        assert_eq!(rt; printed.as_str(), lines(alloc, due)?.as_str(), "{case}");
    }
    Ok(())
}

/// The write that stops the volume, the replies, and what each outcome leaves: the batch stands after a closed gate
/// until its second write, and a gate that a crash filled is closed.
const STOPS: [(u64, &str, [&str; 4]); 3] = [
    (1, FAILED, [NO_RECORD; 4]),
    (2, FAILED, [NO_RECORD, ONE_RECORD, NO_RECORD, ONE_RECORD]),
    (3, REPLIES, [ONE_RECORD; 4]),
];

#[test]
fn a_stop_in_a_commit_leaves_all_or_nothing(rt: HostRuntime) -> Result<(), Fail> {
    let alloc = rt.alloc();
    for (write, replies, ends) in STOPS {
        let mut volume = made(alloc, 4)?;
        volume.stop_at(write);
        let printed = run(alloc, &mut volume, "turns", SESSION)?;
        assert_eq!(rt; printed.as_str(), replies, "write {write}");
        for (outcome, end) in OUTCOMES.into_iter().zip(ends) {
            let opened = reopened(alloc, &volume, outcome)?;
            assert_eq!(rt; opened.as_str(), end, "write {write}, outcome {outcome}");
        }
    }
    Ok(())
}

/// One more call of the volume than a command of these makes.
const CALLS: u64 = 21;

/// A command whose n-th call of the volume fails: its words, its script, what it prints once it is done, and what an
/// opening prints before and after it. A crash leaves the latter, or the former where it was not done.
fn check_call(
    rt: &impl Abort,
    alloc: Global,
    volume: &mut MemVolume,
    n: u64,
    command: [&str; 5],
) -> Result<(), Fail> {
    let [words, script, due, before, after] = command;
    volume.fail_call(n.max(1))?;
    let is_done = run(alloc, volume, words, script)?.as_str() == due;
    assert!(rt; is_done || n < CALLS, "{words}, call {n}");
    for outcome in OUTCOMES {
        let opened = reopened(alloc, volume, outcome)?;
        let is_left = opened.as_str() == after || !is_done && opened.as_str() == before;
        assert!(rt; is_left, "{words}, call {n}, outcome {outcome}");
    }
    Ok(())
}

#[test]
fn a_command_that_was_acknowledged_outlives_a_crash(rt: HostRuntime) -> Result<(), Fail> {
    let alloc = rt.alloc();
    for n in 1..=CALLS {
        let create = ["create 4", "", "created 4\n", NOT_MADE, NO_RECORD];
        check_call(&rt, alloc, &mut MemVolume::new(alloc), n, create)?;
        let turns = ["turns", SESSION, REPLIES, NO_RECORD, ONE_RECORD];
        check_call(&rt, alloc, &mut made(alloc, 4)?, n, turns)?;
    }
    Ok(())
}
