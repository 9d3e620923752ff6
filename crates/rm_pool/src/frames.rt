//! The pages and the inventory of a file in memory.

ghost use Rattle.std.specs.Prelude.{◌≡◌, ℕ, ◌+◌, ◌*◌, ◌/◌, ◌<◌, ◌≤◌, ◌⊎◌, [], ◌∷◌, length, option_copied, Some, None, IsSome, IfOk, IfErr, IfSome, OnOk, OnErr};
ghost use Rattle.rm_types.specs.declared.formats.TheConstants.{MAX_CATEGORY};
ghost use Rattle.rm_types.specs.declared.numbers.TheConstants.{BLOCK_PAGES, MAX_PAGES};
ghost use Rattle.rm_model.specs.Pages.{set_slot};
ghost use Rattle.rm_record.specs.declared.records.LogRecord.{LogRecord as AnyRecord};
ghost use Rattle.rm_history.specs.Acts.{History, act_at};
ghost use Rattle.rm_history.specs.Contents.{slot_of};
ghost use Rattle.rm_apply.specs.declared.answers.ApplyRefused.TheVariants as refused;
ghost use Rattle.rm_apply.specs.Entries.{entered_by};
ghost use Rattle.rm_apply.specs.Redo.{set_by, CannotHave};
ghost use Rattle.rm_pool.specs.Frames.{AreFrames, IsPageOf, IsBlockOf, EachIs, blocks_for, IsForFixed, CannotTake, HasMemory, MaySet, IsReadyFor, IsAfter, repeated};

use rm_apply::{ApplyRefused, category_entered_by, redo, redo_inventory, row_set_by, slot_set_by};
use rm_inventory::Inventory;
use rm_noted::Noted;
use rm_page::{Page, Spare};
use rm_record::LogRecord;
use rm_types::{BLOCK_PAGES, CAPACITY, Lsn, MAX_CATEGORY, NoMemory, Rid, Row, Slot};
use std::alloc::Global;
use std::marker::Model;

// What is noted of frames: the records that they have. None is ever made.
struct Acts {}

impl Model for Acts {
    ghost use Rattle.std.specs.Prelude.{[]};
    ghost use Rattle.rm_history.specs.Acts.{History};

    ghost Value = { History };

    ghost view = { λ _. [] };
}

/// All pages of a file and all blocks of its inventory, in memory. One page and one block are fixed at a time: to fix
/// one releases the one that was fixed before. Clauses alone read which records were applied.
#[derive(Drop)]
pub struct Frames {
    pages: Vec<Page>,
    blocks: Vec<Inventory>,
    page: Option<u32>,
    block: Option<u32>,
    applied: Noted<Acts>,
}

impl Model for Frames {
    ghost use Rattle.std.specs.Prelude.{length};
    ghost use Rattle.rm_pool.specs.Frames.{FramesValue, AreFrames};

    ghost Value = { FramesValue };

    ghost view = { λ frames. record { applied = frames.applied; size = length frames.pages.items; page = frames.page; block = frames.block } };

    ghost invariant = { λ frames. AreFrames frames.applied frames.pages.items frames.blocks.items frames.page frames.block };
}

// Pages to which no record was applied.
fn empty_pages(alloc: Global, count: u32) -> Result<Vec<Page>, NoMemory>
    ensures count { IfOk result (λ pages. length pages.items ≡ count) }
    ensures empty { IfOk result (λ pages. EachIs (IsPageOf []) pages.items) }
{
    let mut pages = Vec::with_capacity(alloc, count as usize)?;
    for _page in 0..count {
        pages.push_reserved(Page::new(alloc));
    }
    Ok(pages)
}

// Blocks of the inventory in which no category was entered.
fn empty_blocks(alloc: Global, count: u32) -> Result<Vec<Inventory>, NoMemory>
    ensures count { IfOk result (λ blocks. length blocks.items ≡ count) }
    ensures empty { IfOk result (λ blocks. EachIs (IsBlockOf []) blocks.items) }
{
    let mut blocks = Vec::with_capacity(alloc, count as usize)?;
    for _block in 0..count {
        blocks.push_reserved(Inventory::new());
    }
    Ok(blocks)
}

// The row id of the slot that a record sets, and what the slot then holds, moved out of the record.
fn set_of(what: LogRecord) -> Option<(Rid, Slot)>
    ensures { result ≡ set_by what }
{
    match what {
        LogRecord::Insert { rid, row, .. } => Some((rid, Slot::Row(row))),
        LogRecord::Delete { rid, old: _old, .. } => Some((rid, Slot::Vacant)),
        LogRecord::Update {
            rid,
            old: _old,
            new,
            ..
        } => Some((rid, Slot::Row(new))),
        LogRecord::Compensate { rid, back, .. } => Some((rid, back)),
        LogRecord::Inventory { .. } | LogRecord::Commit { .. } | LogRecord::End { .. } => None,
        LogRecord::Checkpoint {
            losers: _losers,
            pages: _pages,
            blocks: _blocks,
            ..
        } => None,
    }
}

// Spare memory for a page to have this row in a slot, or for the slot to be vacant, which takes none.
fn ready(page: &Page, number: u16, row: Option<&Row>) -> Result<Option<Spare>, ApplyRefused>
    ensures memory { IfOk result (HasMemory page.now.slots number (slot_of (option_copied row.entry))) }
    ensures fits { OnOk result (CannotHave page.now.slots number (slot_of (option_copied row.entry)) → ⊥) }
    ensures unfit { IfErr result (λ e. e ≡ refused.Unfit → CannotHave page.now.slots number (slot_of (option_copied row.entry))) }
    ensures no_memory { IfErr result (λ e. e ≡ refused.NoMemory → CannotHave page.now.slots number (slot_of (option_copied row.entry)) → ⊥) }
{
    let Some(row) = row else {
        return if number < page.slots() {
            Ok(None)
        } else {
            Err(ApplyRefused::Unfit)
        };
    };
    if page.used_with(number, row.as_slice()) > CAPACITY as usize {
        return Err(ApplyRefused::Unfit);
    }
    Ok(Some(page.ready(number)?))
}

// Sets a slot of a page, for which there is memory.
fn set(page: &mut Page, number: u16, slot: Slot, spare: Option<Spare>, lsn: Lsn)
    requires fits { CannotHave page.old.slots number slot → ⊥ }
    requires memory { HasMemory page.old.slots number slot spare }
    ensures { page.new ≡ record { lsn = lsn; slots = set_slot page.old.slots number slot } }
{
    match slot {
        Slot::Row(row) => {
            let Some(spare) = spare else {
                unreachable!();
            };
            page.put(number, row, spare, lsn);
        }
        Slot::Vacant => page.clear(number, lsn),
    }
}

// Sets what a record sets, if it sets a slot, in the page that it names.
fn set_in(pages: &mut Vec<Page>, one: Option<(Rid, Slot)>, spare: Option<Spare>, lsn: Lsn)
    requires { IfSome one (MaySet pages.old.items spare) }
    ensures count { length pages.new.items ≡ length pages.old.items }
    ensures set { (history : History) (what : AnyRecord) → set_by what ≡ one → EachIs (IsPageOf history) pages.old.items
        → EachIs (IsPageOf (act_at lsn.0 what ∷ history)) pages.new.items }
{
    if let Some((rid, slot)) = one {
        set(&mut pages[rid.page as usize], rid.slot, slot, spare, lsn);
    }
}

// Enters what a record enters, if it enters a category, in the block that describes its page.
fn enter(blocks: &mut Vec<Inventory>, one: Option<(u32, u8)>, lsn: Lsn)
    requires inside { IfSome one (λ one. (one.0 / BLOCK_PAGES) < length blocks.old.items) }
    requires category { IfSome one (λ one. one.1 ≤ MAX_CATEGORY) }
    ensures count { length blocks.new.items ≡ length blocks.old.items }
    ensures entered { (history : History) (what : AnyRecord) → entered_by what ≡ one → EachIs (IsBlockOf history) blocks.old.items
        → EachIs (IsBlockOf (act_at lsn.0 what ∷ history)) blocks.new.items }
{
    if let Some((page, category)) = one {
        let block = &mut blocks[(page / BLOCK_PAGES) as usize];
        let index = (page % BLOCK_PAGES) as u16;
        // The block has that entry.
        prove!(block.entry(index) <= MAX_CATEGORY);
        block.set_entry(index, category, lsn);
    }
}

impl Frames {
    /// The frames of a file of so many pages, to which no record was applied. No page and no block is fixed.
    ///
    /// # Errors
    ///
    /// [`NoMemory`] alone.
    pub fn new(alloc: Global, size: u32) -> Result<Frames, NoMemory>
        requires { size ≤ MAX_PAGES }
        ensures { IfOk result (λ frames. frames ≡ record { applied = []; size = size; page = None; block = None }) }
    {
        Ok(Frames {
            pages: empty_pages(alloc, size)?,
            blocks: empty_blocks(alloc, size.div_ceil(BLOCK_PAGES))?,
            page: None,
            block: None,
            applied: Noted::of(&()),
        })
    }

    /// The number of pages, at most [`MAX_PAGES`](rm_types::MAX_PAGES).
    pub fn size(&self) -> u32
        ensures value { result ≡ self.now.size }
        ensures bound { self.now.size ≤ MAX_PAGES }
    {
        self.pages.len() as u32
    }

    /// Fixes a page, and releases the one that was fixed before.
    pub fn fix(&mut self, page: u32)
        requires { page < self.old.size }
        ensures { self.new ≡ record self.old { page = Some page } }
    {
        self.page = Some(page);
    }

    /// The fixed page.
    pub fn page(&self) -> &Page
        requires { IsSome self.now.page }
        ensures { IfSome self.now.page (λ number. IsPageOf self.now.applied number result.now) }
    {
        let number = self.page.unwrap();
        &self.pages[number as usize]
    }

    /// Fixes the block of the inventory with this number, and releases the one that was fixed before.
    pub fn fix_block(&mut self, block: u32)
        requires { BLOCK_PAGES * block < self.old.size }
        ensures { self.new ≡ record self.old { block = Some block } }
    {
        self.block = Some(block);
    }

    /// The fixed block of the inventory.
    pub fn inventory(&self) -> &Inventory
        requires { IsSome self.now.block }
        ensures { IfSome self.now.block (λ number. IsBlockOf self.now.applied number result.now) }
    {
        let number = self.block.unwrap();
        &self.blocks[number as usize]
    }

    /// Spare memory for [`Frames::put`] to apply a record to the fixed page or block: none where it puts no row. It serves
    /// until a record is applied or something else is fixed.
    ///
    /// # Errors
    ///
    /// - [`ApplyRefused::Unfit`]: the record is for another page or block than the fixed one, or the file cannot have what
    ///   it sets.
    /// - [`ApplyRefused::NoMemory`].
    pub fn ready(&self, what: &LogRecord) -> Result<Option<Spare>, ApplyRefused>
        ensures ok { IfOk result (IsReadyFor self.now what.now) }
        ensures unfit { IfErr result (λ e. e ≡ refused.Unfit → (IsForFixed self.now what.now → ⊥) ⊎ CannotTake self.now what.now) }
        ensures memory { IfErr result (λ e. e ≡ refused.NoMemory → IsForFixed self.now what.now × (CannotTake self.now what.now → ⊥)) }
    {
        if let Some((page, category)) = category_entered_by(what) {
            let fixed = self.block == Some(page / BLOCK_PAGES);
            if !fixed || page >= self.size() || category > MAX_CATEGORY {
                return Err(ApplyRefused::Unfit);
            }
        }
        let Some(rid) = slot_set_by(what) else {
            return Ok(None);
        };
        if self.page != Some(rid.page) {
            return Err(ApplyRefused::Unfit);
        }
        ready(&self.pages[rid.page as usize], rid.slot, row_set_by(what))
    }

    /// Applies a record of the log to the fixed page or block, which stays fixed. Its row is moved to the page. It takes
    /// no memory but `spare`, see [`Frames::ready`].
    pub fn put(&mut self, what: LogRecord, spare: Option<Spare>, lsn: Lsn)
        requires { IsReadyFor self.old what spare }
        ensures { self.new ≡ record self.old { applied = act_at lsn.0 what ∷ self.old.applied } }
    {
        self.applied = Noted::of(&(&self.applied, lsn, &what));
        enter(&mut self.blocks, category_entered_by(&what), lsn);
        set_in(&mut self.pages, set_of(what), spare, lsn);
    }

    /// Repeats a record of the log at a restart: fixes the page or the block that it names, and applies it. Its row is
    /// copied.
    ///
    /// # Errors
    ///
    /// The frames are left as they were.
    ///
    /// - [`ApplyRefused::Unfit`]: the file has no such page, or cannot have what the record sets.
    /// - [`ApplyRefused::NoMemory`].
    pub fn repeat(&mut self, what: &LogRecord, lsn: Lsn) -> Result<(), ApplyRefused>
        requires { IsAfter self.old.applied lsn.0 }
        ensures ok { OnOk result (self.new ≡ repeated self.old what.now lsn.0) }
        ensures takes { OnOk result (CannotTake self.old what.now → ⊥) }
        ensures unfit { IfErr result (λ e. e ≡ refused.Unfit → CannotTake self.old what.now) }
        ensures memory { IfErr result (λ e. e ≡ refused.NoMemory → CannotTake self.old what.now → ⊥) }
        ensures err { OnErr result (self.new ≡ self.old) }
    {
        if let Some((page, category)) = category_entered_by(what) {
            if page >= self.size() || category > MAX_CATEGORY {
                return Err(ApplyRefused::Unfit);
            }
            let number = page / BLOCK_PAGES;
            redo_inventory(&mut self.blocks[number as usize], what, lsn);
            self.block = Some(number);
        } else if let Some(rid) = slot_set_by(what) {
            if rid.page >= self.size() {
                return Err(ApplyRefused::Unfit);
            }
            redo(&mut self.pages[rid.page as usize], what, lsn)?;
            self.page = Some(rid.page);
        }
        self.applied = Noted::of(&(&self.applied, lsn, what));
        Ok(())
    }
}
