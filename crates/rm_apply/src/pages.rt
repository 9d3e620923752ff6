//! Redo of the records that set a slot of a page.

ghost use Rattle.std.specs.Prelude.{◌≡◌, ℕ, ◌≤◌, IfOk, IfErr, OnOk, OnErr};
ghost use Rattle.rm_types.specs.declared.slots.Slot.TheVariants as slots;
ghost use Rattle.rm_model.specs.Pages.{set_slot};
ghost use Rattle.rm_apply.specs.declared.answers.ApplyRefused.TheVariants as refused;
ghost use Rattle.rm_apply.specs.Redo.{CannotHave, ChangesPage, ChangesSlot, Redoes, Refuses};

use crate::answers::{Applied, ApplyRefused};
use crate::sets::{row_set_by, slot_set_by};
use rm_page::Page;
use rm_record::LogRecord;
use rm_types::{CAPACITY, Lsn, Row};

// Puts a row into a slot, copied, where the page has the bytes for it.
fn put(page: &mut Page, number: u16, row: &Row, lsn: Lsn) -> Result<(), ApplyRefused>
    ensures ok { OnOk result (page.new ≡ record { lsn = lsn; slots = set_slot page.old.slots number (slots.Row row.now) }) }
    ensures fits { OnOk result (CannotHave page.old.slots number (slots.Row row.now) → ⊥) }
    ensures unfit { IfErr result (λ e. e ≡ refused.Unfit → CannotHave page.old.slots number (slots.Row row.now)) }
    ensures memory { IfErr result (λ e. e ≡ refused.NoMemory → CannotHave page.old.slots number (slots.Row row.now) → ⊥) }
    ensures err { OnErr result (page.new ≡ page.old) }
{
    if page.used_with(number, row.as_slice()) > CAPACITY as usize {
        return Err(ApplyRefused::Unfit);
    }
    page.set(number, row.as_slice(), lsn)?;
    Ok(())
}

// Makes a slot vacant, where the page has it.
fn clear(page: &mut Page, number: u16, lsn: Lsn) -> Result<(), ApplyRefused>
    ensures ok { OnOk result (page.new ≡ record { lsn = lsn; slots = set_slot page.old.slots number slots.Vacant }) }
    ensures fits { OnOk result (CannotHave page.old.slots number slots.Vacant → ⊥) }
    ensures unfit { IfErr result (λ e. (e ≡ refused.Unfit) × CannotHave page.old.slots number slots.Vacant) }
    ensures err { OnErr result (page.new ≡ page.old) }
{
    if number >= page.slots() {
        return Err(ApplyRefused::Unfit);
    }
    page.clear(number, lsn);
    Ok(())
}

/// Applies a record to the page that it names. The row is copied into memory of the page's allocator.
///
/// # Errors
///
/// The page is left as it was.
///
/// - [`ApplyRefused::Unfit`] where the record is newer than the page, and sets what the page cannot have.
/// - [`ApplyRefused::NoMemory`].
pub fn redo(page: &mut Page, what: &LogRecord, lsn: Lsn) -> Result<Applied, ApplyRefused>
    requires { ChangesSlot what.now }
    ensures applied { (number : ℕ) → ChangesPage what.now number → IfOk result (λ applied. Redoes number page.old what.now lsn applied page.new) }
    ensures refused { IfErr result (Refuses page.old what.now lsn) }
    ensures err { OnErr result (page.new ≡ page.old) }
{
    if page.lsn() >= lsn {
        return Ok(Applied::Older);
    }
    let Some(rid) = slot_set_by(what) else {
        unreachable!();
    };
    match row_set_by(what) {
        Some(row) => put(page, rid.slot, row, lsn)?,
        None => clear(page, rid.slot, lsn)?,
    }
    Ok(Applied::Changed)
}
