//! What a slot holds, copied, compared and measured.

ghost use Rattle.std.specs.Prelude.{◌≡◌, ◌≤◌, ◌++◌, replicate, IsTrue, ◌↔◌, IfOk, OnOk};
ghost use Rattle.rm_types.specs.declared.rows.TheConstants.{MAX_ROW};
ghost use Rattle.rm_model.specs.Pages.{row_length, set_slot, slot_at};

use rm_types::{NoMemory, Slot};

/// A copy.
pub(crate) fn copy_of(slot: &Slot) -> Result<Slot, NoMemory>
    ensures { IfOk result (λ copy. copy ≡ slot.now) }
{
    match slot {
        Slot::Vacant => Ok(Slot::Vacant),
        Slot::Row(row) => Ok(Slot::Row(row.try_clone()?)),
    }
}

/// Whether two slots hold the same.
pub(crate) fn are_same(one: &Slot, other: &Slot) -> bool
    ensures { IsTrue result ↔ (one.now ≡ other.now) }
{
    match (one, other) {
        (Slot::Vacant, Slot::Vacant) => true,
        (Slot::Row(one), Slot::Row(other)) => one.as_slice() == other.as_slice(),
        _ => false,
    }
}

/// How many bytes its row has, 0 where it has none.
pub(crate) fn bytes_in(slot: &Slot) -> usize
    ensures value { result ≡ row_length slot.now }
    ensures bound { result ≤ MAX_ROW }
{
    match slot {
        Slot::Vacant => 0,
        Slot::Row(row) => row.as_slice().len(),
    }
}

/// Whether the slot with this number holds the same: past the end that is nothing.
pub(crate) fn holds(slots: &[Slot], number: u16, slot: &Slot) -> bool
    ensures { IsTrue result ↔ (slot_at slots.now number ≡ slot.now) }
{
    match slots.get(number as usize) {
        Some(held) => are_same(held, slot),
        None => matches!(slot, Slot::Vacant),
    }
}

// Puts `count` vacant slots after them.
fn pad(slots: &mut Vec<Slot>, count: usize) -> Result<(), NoMemory>
    ensures { OnOk result (slots.new.items ≡ slots.old.items ++ replicate count Slot.Vacant) }
{
    for _added in 0..count {
        slots.push(Slot::Vacant)?;
    }
    Ok(())
}

/// Sets one slot; past the end, vacant ones come before it.
#[tactic(auto, using(rm_model::proofs::Slots::set_slot_past))]
pub(crate) fn set(slots: &mut Vec<Slot>, number: u16, slot: Slot) -> Result<(), NoMemory>
    ensures { OnOk result (slots.new.items ≡ set_slot slots.old.items number slot) }
{
    let index = number as usize;
    if index < slots.len() {
        slots[index] = slot;
        return Ok(());
    }
    pad(slots, index - slots.len())?;
    slots.push(slot)?;
    Ok(())
}
