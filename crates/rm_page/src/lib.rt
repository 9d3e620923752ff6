//! A page in memory: its LSN and its directory of slots.
//!
//! A page never uses more than [`CAPACITY`] bytes: it has at most 1,020 slots, and each row has at most
//! [`rm_types::MAX_ROW`] bytes. Beside the slots it keeps how many bytes are in use and which slot is the
//! least vacant one, so that no call adds up or searches what an earlier one has, and memory for the
//! directory in whole steps, so that [`Page::ready`] can take it before a row is put.
#![tactic(auto)]

mod directory;
mod files;

ghost use Rattle.std.specs.Prelude.{◌≡◌, ℕ, ◌+◌, ◌<◌, ◌≤◌, [], length, option_copied, IfOk, IfSome, IsOk, IsSome, OnOk, OnErr};
ghost use Rattle.rm_types.specs.declared.slots.Slot.{Slot as Slots};
ghost use Rattle.rm_types.specs.declared.numbers.TheConstants.{MAX_SLOT};
ghost use Rattle.rm_types.specs.declared.rows.TheConstants.{MAX_ROW};
ghost use Rattle.rm_model.specs.Pages.{used, row_at, row_length, set_slot};
ghost use Rattle.rm_model.specs.Categories.{category_of};
ghost use Rattle.rm_page.specs.Directory.{IsReady};

pub use crate::directory::Spare;
use crate::directory::{category_for, put, row_in, used_beside, vacant_from, whole_steps};
pub use crate::files::empty_pages;
use rm_types::{CAPACITY, Format, Lsn, NoMemory, Row, Slot};
use std::alloc::Global;
use std::marker::Model;

/// A page: the LSN of the last record applied to it, and its slots.
#[derive(Debug, Drop)]
pub struct Page {
    lsn: Lsn,
    slots: Vec<Slot>,
    // The bytes in use.
    used: u16,
    // The least slot that is vacant or past the end.
    vacant: u16,
}

impl Model for Page {
    ghost use Rattle.std.specs.Vec.{vec_capacity};
    ghost use Rattle.rm_model.specs.Pages.{PageValue};
    ghost use Rattle.rm_page.specs.Directory.{IsKept};

    ghost Value = { PageValue };

    ghost view = { λ page. record { lsn = page.lsn; slots = page.slots.items } };

    ghost invariant = { λ page. IsKept page.slots.items page.used page.vacant (vec_capacity page.slots) };
}

impl Page {
    /// A page with LSN 0 and no slots.
    pub fn new(alloc: Global) -> Page
        ensures { result ≡ record { lsn = record { 0 = 0 }; slots = [] } }
    {
        Page {
            lsn: Lsn(0),
            slots: Vec::new(alloc),
            used: 0,
            vacant: 0,
        }
    }

    /// The LSN of the last record applied.
    pub fn lsn(&self) -> Lsn
        ensures { result ≡ self.now.lsn }
    {
        self.lsn
    }

    /// The number of slots, vacant ones among them: at most 1,020.
    pub fn slots(&self) -> u16
        ensures value { result ≡ length self.now.slots }
        ensures bound { length self.now.slots ≤ MAX_SLOT + 1 }
    {
        self.slots.len() as u16
    }

    /// The bytes in use, at most [`CAPACITY`].
    pub fn used(&self) -> u16
        ensures value { result ≡ used self.now.slots }
        ensures bound { used self.now.slots ≤ CAPACITY }
    {
        self.used
    }

    /// The bytes that would be in use with the slot set to that row: more than [`CAPACITY`] where it does not fit.
    pub fn used_with(&self, slot: u16, row: &[u8]) -> usize
        ensures { result ≡ used (set_slot self.now.slots slot (Slot.Row row.now)) }
    {
        used_beside(&self.slots, self.used, slot) + row.len()
    }

    /// The bytes of the row in a slot, at most [`rm_types::MAX_ROW`]: none exactly where the slot is vacant or
    /// past the end.
    pub fn row(&self, slot: u16) -> Option<&[u8]>
        ensures value { option_copied result ≡ row_at self.now.slots slot }
        ensures short { IfSome result (λ row. length row.now ≤ MAX_ROW) }
    {
        row_in(&self.slots, slot)
    }

    /// The least slot number, at least `from`, that is vacant or past the end.
    pub fn least_vacant(&self, from: u16) -> u16
        ensures from { from ≤ result }
        ensures vacant { row_at self.now.slots result ≡ None }
        ensures least { (number : ℕ) → from ≤ number → number < result → IsSome (row_at self.now.slots number) }
    {
        // No slot before the kept one is vacant, so a full directory is not searched again.
        if from <= self.vacant {
            return self.vacant;
        }
        vacant_from(&self.slots, from)
    }

    /// How full the page is: its category in the inventory of a volume of this format.
    pub fn category(&self, format: Format) -> u8
        ensures { result ≡ category_of format self.now.slots }
    {
        category_for(format, self.used as usize)
    }

    /// How full the page would be with a row of `len` bytes in the slot, or with none where `len` is 0.
    pub fn category_with(&self, format: Format, slot: u16, len: usize) -> u8
        requires { len ≤ MAX_ROW }
        ensures { (held : Slots) → row_length held ≡ len → result ≡ category_of format (set_slot self.now.slots slot held) }
    {
        category_for(format, used_beside(&self.slots, self.used, slot) + len)
    }

    /// Spare memory for the directory to reach a slot, so that [`Page::put`] takes none.
    ///
    /// # Errors
    ///
    /// [`NoMemory`], never where the directory has the memory already.
    pub fn ready(&self, slot: u16) -> Result<Spare, NoMemory>
        requires { slot ≤ MAX_SLOT }
        ensures ready { IfOk result (IsReady self.now.slots slot) }
        ensures free { IsReady self.now.slots slot 0 → IsOk result }
    {
        let wanted = whole_steps(slot as usize + 1);
        let kept = whole_steps(self.slots.len());
        let missing = if wanted > kept { wanted } else { 0 };
        Spare::new(*self.slots.allocator(), missing)
    }

    /// Puts a row into a slot, with `lsn` as the page's LSN. A slot past the end adds vacant ones before it. It takes
    /// no memory but `spare`, see [`Page::ready`]. The caller ensures that the row fits, see [`Page::used_with`]: there
    /// is no refusal for space.
    pub fn put(&mut self, slot: u16, row: Row, spare: Spare, lsn: Lsn)
        requires ready { IsReady self.old.slots slot spare }
        requires fits { used (set_slot self.old.slots slot (Slot.Row row)) ≤ CAPACITY }
        ensures { self.new ≡ record { lsn = lsn; slots = set_slot self.old.slots slot (Slot.Row row) } }
    {
        self.used = self.used_with(slot, row.as_slice()) as u16;
        spare.widen(&mut self.slots);
        put(&mut self.slots, slot, Slot::Row(row));
        self.vacant = vacant_from(&self.slots, self.vacant);
        self.lsn = lsn;
    }

    /// Sets one slot to a row, with `lsn` as the page's LSN. A slot past the end adds vacant ones before it.
    /// The caller ensures that the row fits, see [`Page::used_with`]: there is no refusal for space.
    ///
    /// # Errors
    ///
    /// [`NoMemory`] leaves the page as it was.
    pub fn set(&mut self, slot: u16, row: &[u8], lsn: Lsn) -> Result<(), NoMemory>
        requires { used (set_slot self.old.slots slot (Slot.Row row.now)) ≤ CAPACITY }
        ensures ok { OnOk result (self.new ≡ record { lsn = lsn; slots = set_slot self.old.slots slot (Slot.Row row.now) }) }
        ensures err { OnErr result (self.new ≡ self.old) }
    {
        let row = Row::from_slice(*self.slots.allocator(), row)?;
        let spare = self.ready(slot)?;
        self.put(slot, row, spare, lsn);
        Ok(())
    }

    /// Makes a slot vacant, with `lsn` as the page's LSN. It takes no memory.
    pub fn clear(&mut self, slot: u16, lsn: Lsn)
        requires { slot < length self.old.slots }
        ensures { self.new ≡ record { lsn = lsn; slots = set_slot self.old.slots slot Slot.Vacant } }
    {
        self.used = used_beside(&self.slots, self.used, slot) as u16;
        put(&mut self.slots, slot, Slot::Vacant);
        self.vacant = self.vacant.min(slot);
        self.lsn = lsn;
    }
}
