//! What a crash leaves, chosen by the bits of a number.

ghost use Rattle.std.specs.Prelude.{◌≡◌, ℕ, ◌<◌, ◌+◌, ◌^◌, ◌≤◌, if◌then◌else◌, take, drop, length, nat_lt, OnOk, IfOk};
ghost use Rattle.rm_types.specs.declared.areas.Area.{Area};
ghost use Rattle.rm_outside.specs.Areas.{is_blocked};
ghost use Rattle.rm_outside.specs.PerArea.{of_area};
ghost use Rattle.rm_memory.specs.Areas.{image_of};
ghost use Rattle.rm_memory.specs.Crashes.{none, bit, applies, fills, after_write, left};
ghost use Rattle.rm_memory.specs.Notes.{history, synced_in, total};

use crate::contents::{copy_of, write_bytes};
use crate::notes::{Note, Put};
use crate::syncs::notes_to_sync;
use rm_outside::PerArea;
use rm_types::{Area, NoMemory};
use std::alloc::Global;

/// The byte that fills a range of Log or Master that a crash damaged.
pub const FILLING: u8 = 0x5a;

// How many of the first writes have a bit of their own.
const CHOICES: u64 = 63;

// Bit i.
fn bit(outcome: u64, i: u64) -> bool
    requires { i < 64 }
    ensures { result ≡ bit outcome i }
{
    (outcome >> i) % 2 == 1
}

// Whether the area is one of blocks.
fn is_blocked(area: Area) -> bool
    ensures { result ≡ is_blocked area }
{
    matches!(area, Area::Data | Area::Space | Area::Copy)
}

// Applies a write, fills its range or loses it.
fn leave(
    alloc: Global,
    image: &mut PerArea<Vec<u8>>,
    outcome: u64,
    number: u64,
    synced: bool,
    put: Put,
    bytes: &[u8],
) -> Result<(), NoMemory>
    requires { put.len ≡ length bytes.now }
    ensures { OnOk result (image_of image.new ≡ after_write (applies outcome number synced put.took) (fills outcome synced put.area) (image_of image.old) put.area put.at bytes.now) }
{
    let applied = if synced {
        put.took
    } else {
        bit(outcome, number % CHOICES)
    };
    if applied {
        return write_bytes(image, put.area, put.at as usize, bytes);
    }
    if !synced && bit(outcome, CHOICES) && !is_blocked(put.area) {
        let filled = vec![in alloc; FILLING; bytes.len()]?;
        return write_bytes(image, put.area, put.at as usize, &filled);
    }
    Ok(())
}

// `len` bytes from `start` on.
fn piece(bytes: &[u8], start: usize, len: usize) -> &[u8]
    requires { start + len ≤ length bytes.now }
    ensures value { result.now ≡ take len (drop start bytes.now) }
    ensures len { length result.now ≡ len }
    ensures end { start + len < 2 ^ 64 }
{
    &bytes[start..start + len]
}

// What a write adds to the count of unsynced ones.
fn one_unless(synced: bool) -> u64
    ensures { result ≡ (if synced then 0 else 1) }
{
    if synced { 0 } else { 1 }
}

// For each area, how many notes end with its last sync.
fn last_syncs(notes: &[Note]) -> PerArea<usize>
    ensures { (area : Area) (index : ℕ) → synced_in (drop index notes.now) area ≡ nat_lt index (of_area result area) }
{
    PerArea {
        master: notes_to_sync(notes, Area::Master),
        log: notes_to_sync(notes, Area::Log),
        data: notes_to_sync(notes, Area::Data),
        space: notes_to_sync(notes, Area::Space),
        copy: notes_to_sync(notes, Area::Copy),
    }
}

// The image that the outcome leaves of a base and what was noted since.
pub fn image_left(
    alloc: Global,
    outcome: u64,
    base: &PerArea<Vec<u8>>,
    notes: &[Note],
    bytes: &[u8],
) -> Result<PerArea<Vec<u8>>, NoMemory>
    requires { total notes.now ≡ length bytes.now }
    ensures { IfOk result (λ image. image_of image ≡ left outcome (image_of base.now) (history notes.now bytes.now) none) }
{
    let syncs = last_syncs(notes);
    let mut image = copy_of(alloc, base)?;
    let mut number = 0u64;
    let mut start = 0usize;
    for (index, note) in notes.iter().enumerate() {
        if let Note::Wrote(put) = note {
            let bytes_put = piece(bytes, start, put.len);
            let synced = index < *syncs.get(put.area);
            leave(alloc, &mut image, outcome, number, synced, *put, bytes_put)?;
            number += one_unless(synced);
            start += put.len;
        }
    }
    Ok(image)
}
