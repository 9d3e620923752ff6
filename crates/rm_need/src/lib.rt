//! The bytes that pages keep free for the undo of transactions: the need of each transaction on each page.
//!
//! A transaction that freed bytes of a page may want them back, so no other transaction may take them
//! (docs/DEFINITIONS.md). The total of each page is kept beside the needs, so that no call adds them up: it is their
//! sum, and at most [`CAPACITY`]. Entries stand in the order of transactions, so that what one transaction has is
//! found without a look at the others.
#![tactic(auto)]

mod fit;
mod keys;
mod maps;

ghost use Rattle.std.specs.Prelude.{◌≡◌, ℕ, ◌+◌, ◌-◌, ◌≤◌, ◌<◌, ◌↔◌, length, None, IfSome, IfNone, OnOk, OnErr};
ghost use Rattle.rm_types.specs.declared.slots.TheConstants.{CAPACITY};
ghost use Rattle.rm_model.specs.Sums.{sum_below};
ghost use Rattle.rm_need.specs.Needs.{entry_in, need_in, HasEntry, with_need, HasRoom, IsOther};

pub use crate::fit::fits;
use crate::keys::Key;
use crate::maps::{admit, write};
use rm_types::{CAPACITY, NoMemory, TxnId};
use std::alloc::Global;
use std::collections::BTreeMap;
use std::marker::Model;

/// The needs of transactions on pages, in bytes. Those of one page are at most [`CAPACITY`] together.
#[derive(Debug, Drop)]
pub struct Needs {
    entries: BTreeMap<Key, u16>,
    totals: BTreeMap<u32, u16>,
}

impl Model for Needs {
    ghost use Rattle.rm_need.specs.Needs.{Reserved};

    ghost Value = { Reserved };

    ghost view = { λ needs. needs.entries.entries };

    ghost use Rattle.rm_need.specs.Totals.{AreTotals};

    ghost invariant = { λ needs. AreTotals needs.entries.entries needs.totals.entries };
}

impl Needs {
    /// No entries, and so no needs.
    pub fn new(alloc: Global) -> Needs
        ensures entries { (page txn : ℕ) → HasEntry result page txn → ⊥ }
        ensures needs { (page txn : ℕ) → need_in result page txn ≡ 0 }
    {
        Needs {
            entries: BTreeMap::new(alloc),
            totals: BTreeMap::new(alloc),
        }
    }

    /// The bytes that a transaction's undo needs on a page, 0 where it has no entry.
    pub fn need(&self, page: u32, txn: TxnId) -> u16
        ensures { result ≡ need_in self.now page txn.0 }
    {
        self.entries.get(&Key { txn, page }).copied().unwrap_or(0)
    }

    /// The sum of the needs of all other transactions on a page: with the transaction's own need at most [`CAPACITY`].
    pub fn others(&self, page: u32, txn: TxnId) -> u32
        ensures sum { (n : ℕ) → ((other : ℕ) → n ≤ other → need_in self.now page other ≡ 0)
            → result ≡ sum_below (with_need self.now page txn.0 0) n }
        ensures bound { result + need_in self.now page txn.0 ≤ CAPACITY }
    {
        let total = self.totals.get(&page).copied().unwrap_or(0);
        u32::from(total - self.need(page, txn))
    }

    /// Gives a transaction an entry on a page, where it has none. All needs stay. [`Needs::change`] and
    /// [`Needs::restore`] then take no memory.
    ///
    /// # Errors
    ///
    /// [`NoMemory`] leaves needs and entries as they were.
    pub fn ready(&mut self, page: u32, txn: TxnId) -> Result<(), NoMemory>
        ensures ok { OnOk result (HasEntry self.new page txn.0) }
        ensures needs { (at by : ℕ) → need_in self.new at by ≡ need_in self.old at by }
        ensures others { OnOk result ((at by : ℕ) → IsOther at by page txn.0 → HasEntry self.new at by ↔ HasEntry self.old at by) }
        ensures err { OnErr result (self.new ≡ self.old) }
    {
        admit(&mut self.totals, page)?;
        admit(&mut self.entries, Key { txn, page })?;
        Ok(())
    }

    /// Sets the need of a transaction on a page where it has an entry.
    pub fn restore(&mut self, page: u32, txn: TxnId, need: u16)
        requires ready { HasEntry self.old page txn.0 }
        requires room { HasRoom self.old page txn.0 need }
        ensures need { need_in self.new page txn.0 ≡ need }
        ensures others { (at by : ℕ) → IsOther at by page txn.0 → need_in self.new at by ≡ need_in self.old at by }
        ensures entries { (at by : ℕ) → HasEntry self.new at by ↔ HasEntry self.old at by }
    {
        let total = self.others(page, txn) as u16 + need;
        write(&mut self.entries, &Key { txn, page }, need);
        write(&mut self.totals, &page, total);
    }

    /// Has the need of a transaction follow a change of its own on a page where it has an entry: of a row from `before`
    /// bytes to `after`, 0 for no row. The need grows by the bytes that the row gave up, and falls by those that it
    /// took, to 0 at the least. The answer is the need before the change.
    pub fn change(&mut self, page: u32, txn: TxnId, before: u16, after: u16) -> u16
        requires ready { HasEntry self.old page txn.0 }
        requires room { HasRoom self.old page txn.0 ((need_in self.old page txn.0 + before) - after) }
        ensures answer { result ≡ need_in self.old page txn.0 }
        ensures need { need_in self.new page txn.0 ≡ (need_in self.old page txn.0 + before) - after }
        ensures others { (at by : ℕ) → IsOther at by page txn.0 → need_in self.new at by ≡ need_in self.old at by }
        ensures entries { (at by : ℕ) → HasEntry self.new at by ↔ HasEntry self.old at by }
    {
        let need = self.need(page, txn);
        let next = (u32::from(need) + u32::from(before)).saturating_sub(u32::from(after));
        self.restore(page, txn, next as u16);
        need
    }

    // The first page on which a transaction has an entry.
    fn page_of(&self, txn: TxnId) -> Option<u32>
        ensures found { IfSome result (λ page. HasEntry self.now page txn.0) }
        ensures none { (page : ℕ) → IfNone result (HasEntry self.now page txn.0 → ⊥) }
    {
        let (key, _need) = self.entries.range(Key { txn, page: 0 }..).next()?;
        if key.txn == txn { Some(key.page) } else { None }
    }

    // Takes out an entry.
    fn forget(&mut self, page: u32, txn: TxnId)
        requires { HasEntry self.old page txn.0 }
        ensures gone { entry_in self.new page txn.0 ≡ None }
        ensures others { (at by : ℕ) → IsOther at by page txn.0 → entry_in self.new at by ≡ entry_in self.old at by }
        ensures fewer { length self.new < length self.old }
    {
        let total = self.others(page, txn) as u16;
        self.entries.remove(&Key { txn, page });
        write(&mut self.totals, &page, total);
    }

    /// Takes out all entries of a transaction, as at its end. Others keep theirs.
    pub fn release(&mut self, txn: TxnId)
        ensures needs { (page : ℕ) → need_in self.new page txn.0 ≡ 0 }
        ensures entries { (page : ℕ) → HasEntry self.new page txn.0 → ⊥ }
        ensures other_needs { (at by : ℕ) → (by ≡ txn.0 → ⊥) → need_in self.new at by ≡ need_in self.old at by }
        ensures other_entries { (at by : ℕ) → (by ≡ txn.0 → ⊥) → HasEntry self.new at by ↔ HasEntry self.old at by }
    {
        while let Some(page) = self.page_of(txn) {
            self.forget(page, txn);
        }
    }
}
