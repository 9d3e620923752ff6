//! What a log says of a page.

ghost use Rattle.std.specs.Prelude.{◌≡◌, ◌∷◌, IfOk, OnOk};
ghost use Rattle.rm_model.specs.Pages.{used as used_by};
ghost use Rattle.rm_history.specs.Acts.{History, act_of, acts_of};
ghost use Rattle.rm_model.specs.Categories.{category_of};
ghost use Rattle.rm_apply.specs.Redo.{row_in};
ghost use Rattle.rm_history.specs.Contents.{page_of, version_of, entry_of, slot_of};
ghost use Rattle.rm_history.specs.Legal.{category_with as category_with_slot};

use crate::slots::{bytes_in, copy_of, set};
use rm_apply::{category_entered_by, row_set_by, slot_set_by};
use rm_record::{LogRecord, Logged};
use rm_types::{Format, Lsn, NoMemory, Rid, SLOT_ENTRY, Slot};
use std::alloc::Global;

// What the slot that a record sets then holds, copied.
fn slot_after(what: &LogRecord) -> Result<Slot, NoMemory>
    ensures { IfOk result (λ slot. slot ≡ slot_of (row_in what.now)) }
{
    match row_set_by(what) {
        Some(row) => Ok(Slot::Row(row.try_clone()?)),
        None => Ok(Slot::Vacant),
    }
}

// Applies one more record to the slots of a page.
fn page_step(slots: &mut Vec<Slot>, logged: &Logged, page: u32) -> Result<(), NoMemory>
    ensures { (before : History) → slots.old.items ≡ page_of before page → OnOk result (slots.new.items ≡ page_of (act_of logged.now ∷ before) page) }
{
    match slot_set_by(&logged.what) {
        Some(rid) if rid.page == page => set(slots, rid.slot, slot_after(&logged.what)?),
        _ => Ok(()),
    }
}

/// The slots of a page: each record that names a slot of it sets that slot.
#[tactic(auto, using(crate::proofs::Prefixes::acts_more))]
pub fn page(alloc: Global, log: &[Logged], number: u32) -> Result<Vec<Slot>, NoMemory>
    ensures { IfOk result (λ slots. slots.items ≡ page_of (acts_of log.now) number) }
{
    let mut slots = Vec::new(alloc);
    for logged in log {
        page_step(&mut slots, logged, number)?;
    }
    Ok(slots)
}

// The version of a page with one more record.
fn version_step(version: Lsn, logged: &Logged, page: u32) -> Lsn
    ensures { (before : History) → version.0 ≡ version_of before page → result.0 ≡ version_of (act_of logged.now ∷ before) page }
{
    match slot_set_by(&logged.what) {
        Some(rid) if rid.page == page => logged.lsn,
        _ => version,
    }
}

/// The version of a page: the LSN of the last record that set a slot of it, 0 for none.
#[tactic(auto, using(crate::proofs::Prefixes::acts_more))]
pub fn version(log: &[Logged], page: u32) -> Lsn
    ensures { result.0 ≡ version_of (acts_of log.now) page }
{
    let mut version = Lsn(0);
    for logged in log {
        version = version_step(version, logged, page);
    }
    version
}

// The entry of a page with one more record.
fn entry_step(entry: u8, logged: &Logged, number: u32) -> u8
    ensures { (before : History) → entry ≡ entry_of before number → result ≡ entry_of (act_of logged.now ∷ before) number }
{
    match category_entered_by(&logged.what) {
        Some((page, category)) if page == number => category,
        _ => entry,
    }
}

/// The category that the inventory has for a page, 0 before the first.
#[tactic(auto, using(crate::proofs::Prefixes::acts_more))]
pub fn entry(log: &[Logged], page: u32) -> u8
    ensures { result ≡ entry_of (acts_of log.now) page }
{
    let mut entry = 0;
    for logged in log {
        entry = entry_step(entry, logged, page);
    }
    entry
}

/// How many bytes a page with these slots uses. No type bounds how many slots there are, so the count is wide.
pub(crate) fn used(slots: &[Slot]) -> u128
    ensures { result ≡ used_by slots.now }
{
    let mut used = 0;
    for slot in slots {
        used += SLOT_ENTRY as u128 + bytes_in(slot) as u128;
    }
    used
}

/// How full a page with these slots is, in the steps of the format.
pub(crate) fn category(format: Format, slots: &[Slot]) -> u8
    ensures { result ≡ category_of format slots.now }
{
    let steps = used(slots) / format.category_bytes() as u128;
    steps.min(format.greatest_category() as u128) as u8
}

/// The category of a page.
pub(crate) fn category_now(
    alloc: Global,
    format: Format,
    log: &[Logged],
    number: u32,
) -> Result<u8, NoMemory>
    ensures { IfOk result (λ category. category ≡ category_of format (page_of (acts_of log.now) number)) }
{
    Ok(category(format, &page(alloc, log, number)?))
}

/// The category that a page has with this back in a slot.
pub(crate) fn category_with(
    alloc: Global,
    format: Format,
    log: &[Logged],
    rid: Rid,
    back: &Slot,
) -> Result<u8, NoMemory>
    ensures { IfOk result (λ category. category ≡ category_with_slot format (acts_of log.now) rid back.now) }
{
    let mut slots = page(alloc, log, rid.page)?;
    set(&mut slots, rid.slot, copy_of(back)?)?;
    Ok(category(format, &slots))
}
