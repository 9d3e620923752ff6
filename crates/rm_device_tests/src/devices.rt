//! What a read of the volume in memory gives, and what a crash leaves of it.

use rm_memory::{FILLING, MemVolume};
use rm_outside::{Failed, Volume};
use rm_types::{Area, BLOCK_SIZE};
use std::alloc::Global;
use std::test::Fail;

/// Calls, and what comes of them: which went well, what stands there, and what a crash leaves at each outcome of
/// OUTCOMES. `log 2 xyz` writes these bytes at 2, `data g` fills the first block of Data. What stands there is shown as
/// the first five bytes of Log and the first of Data: `.` for 0, `?` for the byte of a filled range.
const CASES: &str = "log 1 a|+ .a.... ...... .a.... ...... .?.... .a....
log 0 abcd,sync log,log 2 xyz|+++ abxyz. abcd.. abxyz. abcd.. ab???. abxyz.
data g,sync data,data h|+++ .....h .....g .....h .....g .....g .....h
log 0 a,data g,sync log,log 0 b|++++ b....g a..... a....g b..... ?..... b....g
sync copy,fail 2,fail 3,log 0 abcd,log 0 xy,sync log|++++-- abcd.. ...... abcd.. xy.... ????.. xycd..
log 0 a,stop 1,stop 2,log 1 b,sync log,log 2 c,sync log,log 3 d|+++++--- failed ab.... abc... ab.... ab?... abc...";

/// The write i that is not synced is applied where bit i is set, else filled where bit 63 is.
const OUTCOMES: [u64; 5] = [0, 1, 2, 1 << 63, u64::MAX];

fn area_of(word: &str) -> Area {
    match word {
        "log" => Area::Log,
        "data" => Area::Data,
        _ => Area::Copy,
    }
}

/// Makes a call, and answers whether it went well.
fn call(alloc: Global, volume: &mut MemVolume, text: &str) -> Result<bool, Fail> {
    let words: Vec<&str> = text.split(' ').collect(alloc)?;
    match words.as_slice() {
        ["log", at, bytes] if bytes.len() <= BLOCK_SIZE => {
            let at = at.parse::<u8>()? as u64;
            Ok(volume.write(Area::Log, at, bytes.as_bytes()).is_ok())
        }
        ["data", byte] => {
            let byte = byte.bytes().next().unwrap_or(0);
            Ok(volume.write(Area::Data, 0, &[byte; BLOCK_SIZE]).is_ok())
        }
        ["sync", area] => Ok(volume.sync(area_of(area)).is_ok()),
        ["fail", n] => Ok(volume.fail_call(n.parse::<u64>()?.max(1)).is_ok()),
        ["stop", n] => {
            volume.stop_at(n.parse::<u64>()?);
            Ok(true)
        }
        _ => Err("no call".into()),
    }
}

/// The first five bytes of Log and the first byte of Data.
fn read(volume: &mut MemVolume) -> Result<[u8; 6], Failed> {
    let mut log = [1; 5];
    volume.read(Area::Log, 0, &mut log)?;
    let mut block = [1; BLOCK_SIZE];
    volume.read(Area::Data, 0, &mut block)?;
    let [a, b, c, d, e] = log;
    Ok([a, b, c, d, e, block[0]])
}

/// What stands there, as in the table.
fn shown(alloc: Global, volume: &mut MemVolume) -> Result<String, Fail> {
    let mut text = String::from_str(alloc, " ")?;
    let Ok(bytes) = read(volume) else {
        text.push_str("failed")?;
        return Ok(text);
    };
    for byte in bytes {
        text.push(match byte {
            0 => '.',
            FILLING => '?',
            other => char::from(other),
        })?;
    }
    Ok(text)
}

#[test]
fn a_crash_leaves_what_its_outcome_says(rt: HostRuntime) -> Result<(), Fail> {
    let alloc = rt.alloc();
    for case in CASES.split('\n') {
        let (calls, due) = case.split_once('|').ok_or("no images")?;
        let mut volume = MemVolume::new(alloc);
        let mut found = String::new(alloc);
        for text in calls.split(',') {
            found.push(if call(alloc, &mut volume, text)? {
                '+'
            } else {
                '-'
            })?;
        }
        found.push_str(shown(alloc, &mut volume)?.as_str())?;
        for outcome in OUTCOMES {
            let mut left = volume.crash(outcome)?;
            found.push_str(shown(alloc, &mut left)?.as_str())?;
        }
        assert_eq!(rt; found.as_str(), due, "{calls}");
    }
    Ok(())
}
