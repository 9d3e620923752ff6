//! The lists of a checkpoint, read from the start of bytes, and appended.

ghost use Rattle.std.specs.Prelude.{◌≡◌, ◌+◌, ◌≤◌, ◌++◌, length, vec_len, IfOk};
ghost use Rattle.std.specs.Vec.{vec_capacity};
ghost use Rattle.rm_record.specs.Fields.{Gives, place_field, places_field, next_field};
ghost use Rattle.rm_record.specs.Places.{place_bytes, places_bytes};

use crate::appending::append;
use crate::fields::{u16_of, u32_of, u64_of};
use crate::refused::DecodeRefused;
use rm_types::{Place, Places};
use std::alloc::Global;

/// The greatest next id of a transaction: all ids are given then.
const MAX_NEXT: u64 = 1 << 32;

/// The next id of a transaction, and the bytes after it.
#[tactic(auto, unfolding(crate::specs::Fields::next_field))]
pub(crate) fn next_of(bytes: &[u8]) -> Result<(u64, &[u8]), DecodeRefused>
    ensures { Gives (λ x. (x.0, x.1.now)) result (next_field bytes.now) }
{
    let (next, rest) = u64_of(bytes)?;
    if next == 0 || next > MAX_NEXT {
        return Err(DecodeRefused::Bad);
    }
    Ok((next, rest))
}

// A place whose number is from `low` on and at most `high`, and the bytes after it.
#[tactic(auto, unfolding(crate::specs::Fields::place_field))]
fn place_of(bytes: &[u8], low: u64, high: u32) -> Result<(Place, &[u8]), DecodeRefused>
    ensures value { Gives (λ x. (x.0, x.1.now)) result (place_field low high bytes.now) }
    ensures low { IfOk result (λ x. low ≤ x.0.number) }
{
    let (number, rest) = u32_of(bytes)?;
    if number > high {
        return Err(DecodeRefused::Bad);
    }
    if u64::from(number) < low {
        return Err(DecodeRefused::Bad);
    }
    let (at, rest) = u64_of(rest)?;
    Ok((Place { number, at }, rest))
}

/// Places whose numbers are from `low` on and at most `high`, and the bytes after them.
#[tactic(auto, unfolding(crate::specs::Fields::places_field))]
pub(crate) fn places_of(
    alloc: Global,
    bytes: &[u8],
    low: u32,
    high: u32,
) -> Result<(Places, &[u8]), DecodeRefused>
    ensures { Gives (λ x. (x.0, x.1.now)) result (places_field low high bytes.now) }
{
    let (count, mut rest) = u16_of(bytes)?;
    let mut places = Places::new(alloc);
    let mut least = u64::from(low);
    for _place in 0..count {
        let (place, after) = place_of(rest, least, high)?;
        places.push(place)?;
        least = u64::from(place.number) + 1;
        rest = after;
    }
    Ok((places, rest))
}

// Appends a place, for which there is room.
fn append_place(place: Place, out: &mut Vec<u8>)
    requires { vec_len out.old + length (place_bytes place) ≤ vec_capacity out.old }
    ensures items { out.new.items ≡ out.old.items ++ place_bytes place }
    ensures len { vec_len out.new ≡ vec_len out.old + length (place_bytes place) }
    ensures capacity { vec_capacity out.old ≤ vec_capacity out.new }
{
    append(&place.number.to_be_bytes(), out);
    append(&place.at.to_be_bytes(), out);
}

/// Appends places, for which there is room.
pub(crate) fn append_places(places: &Places, out: &mut Vec<u8>)
    requires { vec_len out.old + length (places_bytes places.now) ≤ vec_capacity out.old }
    ensures items { out.new.items ≡ out.old.items ++ places_bytes places.now }
    ensures len { vec_len out.new ≡ vec_len out.old + length (places_bytes places.now) }
    ensures capacity { vec_capacity out.old ≤ vec_capacity out.new }
{
    let entries = places.as_slice();
    append(&(entries.len() as u16).to_be_bytes(), out);
    for place in entries {
        append_place(*place, out);
    }
}
