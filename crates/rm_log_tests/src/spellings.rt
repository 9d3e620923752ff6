//! The bytes of log records (docs/FORMATS.md).

use crate::records::record;
use rm_record::{DecodeRefused, LogRecord};
use std::alloc::Global;
use std::test::Fail;

/// Records, each with its bytes.
const SPELLINGS: &str =
    "1 insert 0 0.0 0 61*2|01 00000001 0000000000000000 00000000 0000 0000 0002 6161
1 delete 5 2.3 4 61*2|02 00000001 0000000000000005 00000002 0003 0004 0002 6161
1 update 5 2.3 4 61*2 62*1|03 00000001 0000000000000005 00000002 0003 0004 0002 6161 0001 62
1 undo 30 5 2.3 -|04 00000001 000000000000001e 0000000000000005 00000002 0003 00
1 undo 30 5 2.3 61*2|04 00000001 000000000000001e 0000000000000005 00000002 0003 01 0002 6161
1 enter 2 3|05 00000001 00000002 03
1 commit|06 00000001
1 end|07 00000001
0 list 4 2:70,3:0 1:20 15:20|08 0000000000000004 0002 00000002 0000000000000046 00000003 0000000000000000 \
0001 00000001 0000000000000014 0001 0000000f 0000000000000014
4294967295 insert 18446744073709551615 16383.1019 4080 ff*1|01 ffffffff ffffffffffffffff 00003fff 03fb 0ff0 0001 ff";

/// Records, and choices of a place, two bytes there that make it none, and why.
const BROKEN: &str = "1 insert 0 0.0 0 61*2|0 0 0 kind 0|0 9 0 kind 9|3 0 0 transaction 0
1 delete 5 2.3 4 61*2|15 64 0 page 16,384|17 3 252 slot 1,020|19 15 241 need 4,081|21 15 237 4,077 bytes
1 undo 30 5 2.3 -|3 0 0 transaction 0|26 3 2 form 2
1 undo 30 5 2.3 61*2|23 64 0 page 16,384|25 3 252 slot 1,020|26 3 2 form 2, with a row after it
1 enter 2 3|3 0 0 transaction 0|7 64 0 page 16,384|8 2 4 category 4
1 commit|3 0 0 transaction 0
1 end|3 0 0 transaction 0
0 list 4 2:70,3:0 1:20 15:20|7 0 0 next id 0|4 1 0 next id 4,294,967,300|13 0 0 loser 0|25 0 2 a loser twice
0 list 4 2:70,3:0 1:20 15:20|25 0 1 a loser less than the one before|39 64 0 page 16,384|53 0 16 block 16";

/// The bytes of a record, put after what is there. Its size is how many they are.
fn encoded(alloc: Global, record: LogRecord) -> Result<Vec<u8>, Fail> {
    let mut out = Vec::from_slice(alloc, b"before")?;
    record.encode(&mut out)?;
    let bytes = out.as_slice().strip_prefix(b"before").ok_or("it is gone")?;
    if record.size() as usize != bytes.len() {
        return Err("it has another size".into());
    }
    Ok(Vec::from_slice(alloc, bytes)?)
}

#[test]
fn a_record_is_its_bytes(rt: HostRuntime) -> Result<(), Fail> {
    let alloc = rt.alloc();
    for line in SPELLINGS.lines() {
        let (text, digits) = line.split_once('|').ok_or("no bytes")?;
        let words: Vec<&str> = digits.split_whitespace().collect(alloc)?;
        let bytes = encoded(alloc, record(alloc, text)?)?;
        assert_eq!(rt;
            hex::encode(alloc, &bytes)?.as_str(),
            words.concat(alloc)?.as_str()
        );
        let more = [bytes.as_slice(), b"after"].concat(alloc)?;
        let (found, size) = LogRecord::decode(alloc, &more)?;
        assert_eq!(rt; size, bytes.len(), "{text}");
        assert_eq!(rt; encoded(alloc, found)?.as_slice(), bytes.as_slice());
    }
    Ok(())
}

/// Whether the bytes are no record once two of them are changed.
fn is_broken(alloc: Global, bytes: &[u8], change: &str) -> Result<bool, Fail> {
    let words: Vec<&str> = change.split_whitespace().collect(alloc)?;
    let [at, values @ ..] = words.as_slice() else {
        return Err("no bytes".into());
    };
    let mut bytes = bytes.to_vec(alloc)?;
    let places = bytes.iter_mut().skip(at.parse::<usize>()?).take(2);
    for (byte, value) in places.zip(values) {
        *byte = value.parse::<u8>()?;
    }
    Ok(matches!(LogRecord::decode(alloc, &bytes), Err(DecodeRefused::Bad)))
}

#[test]
fn a_record_out_of_its_ranges_is_none(rt: HostRuntime) -> Result<(), Fail> {
    let alloc = rt.alloc();
    for line in BROKEN.lines() {
        let (text, changes) = line.split_once('|').ok_or("no changes")?;
        let bytes = encoded(alloc, record(alloc, text)?)?;
        for change in changes.split('|') {
            assert!(rt; is_broken(alloc, &bytes, change)?, "{text}: {change}");
        }
    }
    Ok(())
}
