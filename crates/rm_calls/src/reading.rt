//! Reads, writes and syncs over files that keep a record, and what they are where the files held `S`. A read or a write
//! that a signal interrupted is made again.

ghost use Rattle.std.specs.Prelude.{◌≡◌, IsTrue, ◌≤◌, ◌<◌, ◌+◌, ◌^◌, false, length, take, IfOk, OnErr};
ghost use Rattle.rm_calls.specs.Calls.{has_fault, is_lost};
ghost use Rattle.rm_calls.specs.Replay.{EndsAt, IsHonest, held};
ghost use Rattle.rm_calls.specs.Steps.{Reads, Shown, Comes, IsKnown, Fills, Puts, Settles};

use crate::{Calls, Start};
use rm_outside::Failed;
use rm_types::Area;

// Reads some bytes, and gives their number.
fn read_piece<C: Calls, S: Start>(
    calls: &mut C,
    area: Area,
    at: u64,
    into: &mut [u8],
) -> Result<usize, Failed>
    requires { 0 < length into.old }
    ensures { Comes S.image area at into.new (C.history calls.old) (C.history calls.new) result }
{
    for _ in 0..u64::MAX {
        let answer = calls.read_some(area, at, into);
        if !answer.is_interrupted() {
            return answer.outcome();
        }
    }
    calls.read_some(area, at, into).outcome()
}

// Reads the bytes at an offset up to the end of the area, and gives their number.
#[tactic(auto, using(crate::proofs::Steps::reads_then, crate::proofs::Steps::reads_none))]
fn read_front<C: Calls, S: Start>(
    calls: &mut C,
    area: Area,
    at: u64,
    into: &mut [u8],
) -> Result<usize, Failed>
    requires { at + length into.old < 2 ^ 64 }
    ensures bound { IfOk result (λ done. done ≤ length into.new) }
    ensures front { IfOk result (λ done. Shown S.image area at (take done into.new) (C.history calls.old) (C.history calls.new)) }
    ensures end { IfOk result (λ done. done < length into.new → IsHonest S.image (C.history calls.new) → is_lost (C.history calls.old) area ≡ false
        → EndsAt (held S.image (C.history calls.old) area) (at + done)) }
    ensures fault { OnErr result (IsTrue (has_fault (C.history calls.new) area)) }
    ensures reads { Reads S.image (C.history calls.old) (C.history calls.new) }
{
    let mut done = 0;
    while done < into.len() {
        let count = read_piece::<C, S>(calls, area, at + done as u64, &mut into[done..])?;
        if count == 0 {
            return Ok(done);
        }
        done += count;
    }
    Ok(done)
}

/// Whether the buffer was filled with the bytes at an offset. Past the end they are 0. Where the area is lost no call is
/// made.
pub fn read_unless<C: Calls, S: Start>(
    calls: &mut C,
    lost: bool,
    area: Area,
    at: u64,
    into: &mut [u8],
) -> bool
    requires reach { at + length into.old < 2 ^ 64 }
    requires known { IsKnown lost (C.history calls.old) area }
    ensures fills { Fills S.image area at into.new (C.history calls.old) (C.history calls.new) result }
    ensures lost { IsTrue lost → (result ≡ false) × (C.history calls.new ≡ C.history calls.old) }
{
    if lost {
        return false;
    }
    let Ok(done) = read_front::<C, S>(calls, area, at, into) else {
        return false;
    };
    into[done..].fill(0);
    true
}

/// Whether the bytes were written, all in one call. A call that takes fewer is a fault, as of a device that is full.
/// Where the area is lost no call is made.
pub fn write_unless<C: Calls, S: Start>(
    calls: &mut C,
    lost: bool,
    area: Area,
    at: u64,
    from: &[u8],
) -> bool
    requires { IsKnown lost (C.history calls.old) area }
    ensures puts { Puts S.image area at from.now (C.history calls.old) (C.history calls.new) result }
    ensures lost { IsTrue lost → (result ≡ false) × (C.history calls.new ≡ C.history calls.old) }
{
    if lost {
        return false;
    }
    for _ in 0..u64::MAX {
        let answer = calls.write_some(area, at, from);
        if !answer.is_interrupted() {
            return answer.is_whole(from.len());
        }
    }
    calls.write_some(area, at, from).is_whole(from.len())
}

/// Whether the area's file was made durable, in one call: the system may have dropped what one that was not done was to
/// make durable. Where the area is lost no call is made.
pub fn sync_unless<C: Calls, S: Start>(calls: &mut C, lost: bool, area: Area) -> bool
    requires { IsKnown lost (C.history calls.old) area }
    ensures settles { Settles S.image area (C.history calls.old) (C.history calls.new) result }
    ensures lost { IsTrue lost → (result ≡ false) × (C.history calls.new ≡ C.history calls.old) }
{
    if lost {
        return false;
    }
    calls.sync(area).is_done()
}
