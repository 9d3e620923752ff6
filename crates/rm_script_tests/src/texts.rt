//! What is printed.

use rm_events::Reply;
use rm_script::{
    created_text, entry_text, mismatches_text, pages_text, reply_text, restart_text, row_text,
    rows_text, turn_text, unfinished_text, waits_text,
};
use rm_types::{NoMemory, Rid, Row, TxnId};
use std::alloc::Global;
use std::test::Fail;

/// Each reply, and then each other text.
const TEXTS: &str = "begin 4294967295
inserted 3.14
nospace
row 00ff
row -
norow
updated
deleted
pagefull 4076
badrid
saved 255
back 0
nosavepoint 7
committed
aborted
died 2
unbound
skipped
16 died 2
2 waits 1
1 unfinished 3
created 16384
records 12 applied 10 undone 2
rows 1
3.14 61
entry 16383 3
pages 16384
pages 1 mismatches 0
";

fn append_replies(alloc: Global, out: &mut Vec<u8>) -> Result<(), NoMemory> {
    let holder = TxnId(2);
    let rid = Rid { page: 3, slot: 14 };
    let replies = [
        Reply::Began(TxnId(u32::MAX)),
        Reply::Inserted(rid),
        Reply::NoSpace,
        Reply::Row(Row::from_slice(alloc, &[0, 255])?),
        Reply::Row(Row::from_slice(alloc, &[])?),
        Reply::NoRow,
        Reply::Updated,
        Reply::Deleted,
        Reply::PageFull { room: 4076 },
        Reply::BadRid,
        Reply::Saved(255),
        Reply::BackTo(0),
        Reply::NoSavepoint(7),
        Reply::Committed,
        Reply::Aborted,
        Reply::Died { holder },
        Reply::Unbound,
        Reply::Skipped,
    ];
    for reply in &replies {
        reply_text(reply, out)?;
    }
    turn_text(16, &Reply::Died { holder }, out)
}

fn append_others(alloc: Global, out: &mut Vec<u8>) -> Result<(), NoMemory> {
    let row = Row::from_slice(alloc, b"a")?;
    waits_text(2, TxnId(1), out)?;
    unfinished_text(1, TxnId(3), out)?;
    created_text(16_384, out)?;
    restart_text(12, 10, 2, out)?;
    rows_text(1, out)?;
    row_text(Rid { page: 3, slot: 14 }, &row, out)?;
    entry_text(16_383, 3, out)?;
    pages_text(16_384, out)?;
    mismatches_text(1, 0, out)
}

#[test]
fn each_text_is_printed(rt: HostRuntime) -> Result<(), Fail> {
    let mut out = Vec::new(rt.alloc());
    append_replies(rt.alloc(), &mut out)?;
    append_others(rt.alloc(), &mut out)?;
    assert_eq!(rt; str::from_utf8(&out)?, TEXTS);
    Ok(())
}
