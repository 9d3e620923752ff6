//! The directory of a page, as a plain list of slots, and the memory that it has.

ghost use Rattle.std.specs.Prelude.{◌≡◌, ℕ, ◌+◌, ◌^◌, ◌<◌, ◌≤◌, [], length, max, min, ◌/◌, option_copied, slice_index_or, IfOk, IsOk};
ghost use Rattle.std.specs.Vec.{vec_capacity};
ghost use Rattle.rm_types.specs.declared.slots.Slot.{Slot as Slots};
ghost use Rattle.rm_types.specs.declared.numbers.TheConstants.{MAX_SLOT};
ghost use Rattle.rm_types.specs.Formats.{category_bytes, greatest_category};
ghost use Rattle.rm_model.specs.Pages.{used, row_length, row_at, set_slot};
ghost use Rattle.rm_page.specs.Directory.{whole_steps, IsLeastVacant};

use rm_types::{Format, NoMemory, SLOT_ENTRY, Slot};
use std::alloc::Global;
use std::marker::Model;

/// A directory gets memory for this many slots more at a time.
pub const DIRECTORY_STEP: usize = 16;

/// Spare memory for the directory of a page, see [`Page::ready`](crate::Page::ready). Its value is the number of slots
/// that it has memory for.
#[derive(Debug, Drop)]
pub struct Spare {
    slots: Vec<Slot>,
}

impl Model for Spare {
    ghost use Rattle.std.specs.Prelude.{◌≡◌, ℕ, []};
    ghost use Rattle.std.specs.Vec.{vec_capacity};

    ghost Value = { ℕ };

    ghost view = { λ spare. vec_capacity spare.slots };

    ghost invariant = { λ spare. spare.slots.items ≡ [] };
}

impl Spare {
    // Memory for `count` slots. None is taken for 0.
    pub(crate) fn new(alloc: Global, count: usize) -> Result<Spare, NoMemory>
        ensures value { IfOk result (λ spare. spare ≡ count) }
        ensures free { count ≡ 0 → IsOk result }
    {
        Ok(Spare {
            slots: Vec::with_capacity(alloc, count)?,
        })
    }

    // Moves the slots of a directory into this memory, if it is more than theirs.
    pub(crate) fn widen(self, slots: &mut Vec<Slot>)
        ensures items { slots.new.items ≡ slots.old.items }
        ensures capacity { max (vec_capacity slots.old) self ≤ vec_capacity slots.new }
    {
        let Spare { slots: mut wider } = self;
        if slots.capacity() < wider.capacity() {
            wider.append(slots).unwrap();
            *slots = wider;
        }
    }
}

// So many slots, in whole steps: a directory has memory for these.
pub fn whole_steps(count: usize) -> usize
    requires { count ≤ MAX_SLOT + 1 }
    ensures { result ≡ whole_steps count }
{
    count.div_ceil(DIRECTORY_STEP) * DIRECTORY_STEP
}

// The bytes of the row in a slot, or none where the slot is vacant or past the end.
pub fn row_in(slots: &[Slot], number: u16) -> Option<&[u8]>
    ensures { option_copied result ≡ row_at slots.now number }
{
    match slots.get(number as usize) {
        Some(Slot::Row(row)) => Some(row.as_slice()),
        _ => None,
    }
}

// The bytes in use beside those of the row in a slot, once the directory reaches it, from the bytes in use now.
pub fn used_beside(slots: &[Slot], used_now: u16, number: u16) -> usize
    requires { used_now ≡ used slots.now }
    ensures value { (slot : Slots) → used (set_slot slots.now number slot) ≡ result + row_length slot }
    ensures bound { result < 2 ^ 32 }
{
    let replaced = length_in(slots, number);
    let added = (number as usize + 1).saturating_sub(slots.len());
    used_now as usize - replaced + SLOT_ENTRY as usize * added
}

// The category of a page that uses so many bytes.
pub fn category_for(format: Format, used: usize) -> u8
    ensures { result ≡ min (greatest_category format) (used / category_bytes format) }
{
    let steps = used / format.category_bytes() as usize;
    steps.min(format.greatest_category() as usize) as u8
}

// How many bytes the row in a slot has, 0 where there is none.
fn length_in(slots: &[Slot], number: u16) -> usize
    ensures { result ≡ row_length (slice_index_or slots.now number Slot.Vacant) }
{
    match slots.get(number as usize) {
        Some(Slot::Row(row)) => row.as_slice().len(),
        _ => 0,
    }
}

// The least slot number, from `start` on, that is vacant or past the end.
pub fn vacant_from(slots: &[Slot], start: u16) -> u16
    requires { length slots.now ≤ MAX_SLOT + 1 }
    ensures { IsLeastVacant slots.now start result }
{
    let count = slots.len() as u16;
    for number in start..count {
        if row_in(slots, number).is_none() {
            return number;
        }
    }
    start.max(count)
}

// Sets one slot; past the end, vacant ones come before it. The directory has memory for it.
#[tactic(auto, using(rm_model::proofs::Slots::set_slot_inside))]
pub fn put(slots: &mut Vec<Slot>, number: u16, slot: Slot)
    requires { number < vec_capacity slots.old }
    ensures items { slots.new.items ≡ set_slot slots.old.items number slot }
    ensures capacity { vec_capacity slots.new ≡ vec_capacity slots.old }
{
    let index = number as usize;
    if index < slots.len() {
        slots[index] = slot;
        return;
    }
    for _added in slots.len()..index {
        slots.push_reserved(Slot::Vacant);
    }
    slots.push_reserved(slot);
}
