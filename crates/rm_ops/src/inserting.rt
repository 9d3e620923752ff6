//! An insert: a scan for a page, and the row in the page or on to the next one.

ghost use Rattle.std.specs.Prelude.{◌≡◌, ℕ, ◌+◌, ◌<◌, ◌≤◌, ◌==◌, if◌then◌else◌, true, length, IfErr};
ghost use Rattle.rm_types.specs.declared.numbers.TheConstants.{MAX_PAGES};
ghost use Rattle.rm_core.specs.Names.{turns, insert as inserts, try as tries_it, try_last, tries, part_end};
ghost use Rattle.rm_play.specs.Choosing.{found_at, scanning, trying, if_room, slot_for, row_fits};
ghost use Rattle.rm_ops.specs.Views.{HasSession, seat_of, op_at};
ghost use Rattle.rm_ops.specs.Stages.{row_in};
ghost use Rattle.rm_ops.specs.Making.{Makes};
ghost use Rattle.rm_ops.specs.Looking.{IsOpen};

use crate::latching::{close, refuse_room};
use crate::stages::Stage;
use crate::tables::Tables;
use rm_events::{Reply, Turn};
use rm_types::{BLOCK_PAGES, Rid, StoreFault};

// The length of the row that the session's operation brings, 0 for none.
#[tactic(auto, using(crate::proofs::Looking::row_len_is))]
fn row_len<T: Tables>(tables: &T, k: u8) -> u16
    requires { HasSession (T.view tables.now) k }
    ensures { result ≡ length (row_in (op_at (T.view tables.now) k)) }
{
    tables.asked(k).row_len()
}

/// The first turn of an insert: a scan from page 0.
pub(crate) fn insert<T: Tables>(tables: &mut T, k: u8) -> Result<Turn, StoreFault>
    requires { IsOpen (T.view tables.old) k }
    ensures makes { let v = T.view tables.old in Makes v (turns k (scanning v.setting v.state (row_in (op_at v k)) 0)) result (T.view tables.new) }
    ensures since { T.since tables.old tables.new }
    ensures cause { IfErr result (T.fails tables.new) }
{
    if tables.pages() == 0 {
        Ok(close(tables, k, Reply::NoSpace))
    } else {
        scan(tables, k, 0)
    }
}

// The end of the part of a file of that many pages that a scan from there looks at: of the pages of one block of the inventory.
fn part_end(pages: u32, from: u32) -> u32
    requires short { pages ≤ MAX_PAGES }
    requires inside { from < pages }
    ensures value { result ≡ part_end pages from }
    ensures bound { result ≤ pages }
{
    pages.min((from / BLOCK_PAGES + 1) * BLOCK_PAGES)
}

/// Scans for a page for the session's row, from there to the end of that part of the file.
#[tactic(auto, using(crate::proofs::Looking::found_below))]
pub(crate) fn scan<T: Tables>(tables: &mut T, k: u8, from: u32) -> Result<Turn, StoreFault>
    requires open { IsOpen (T.view tables.old) k }
    requires inside { from < (T.view tables.old).setting.pages }
    ensures makes { let v = T.view tables.old in Makes v (turns k (scanning v.setting v.state (row_in (op_at v k)) from)) result (T.view tables.new) }
    ensures since { T.since tables.old tables.new }
    ensures cause { IfErr result (T.fails tables.new) }
{
    let len = row_len(tables, k);
    match tables.first_open(from, len)? {
        Some(page) => {
            tables.stand(k, Stage::Wants(page));
            Ok(Turn::Advanced)
        }
        None => Ok(pass_part(tables, k, from)),
    }
}

// Goes on to the next part of the file, if there is one.
fn pass_part<T: Tables>(tables: &mut T, k: u8, from: u32) -> Turn
    requires open { IsOpen (T.view tables.old) k }
    requires inside { from < (T.view tables.old).setting.pages }
    ensures makes { let v = T.view tables.old in Makes v (turns k (found_at v.setting.pages (part_end v.setting.pages from) (row_in (op_at v k)) from None)) (Ok result) (T.view tables.new) }
    ensures since { T.since tables.old tables.new }
{
    let pages = tables.pages();
    let end = part_end(pages, from);
    if end == pages {
        close(tables, k, Reply::NoSpace)
    } else {
        tables.stand(k, Stage::Seeks(end));
        Turn::Advanced
    }
}

/// Puts the session's row in the page, which it has latched, where it has room, or goes on to the next page.
pub(crate) fn try_page<T: Tables>(tables: &mut T, k: u8, page: u32) -> Result<Turn, StoreFault>
    requires open { IsOpen (T.view tables.old) k }
    requires at { (seat_of (T.view tables.old) k).stage ≡ tries (row_in (op_at (T.view tables.old) k)) page }
    requires inside { page < (T.view tables.old).setting.pages }
    ensures makes { let v = T.view tables.old in Makes v (trying v.setting v.state k (T.offset tables.old) (row_in (op_at v k)) page) result (T.view tables.new) }
    ensures since { T.since tables.old tables.new }
    ensures cause { IfErr result (T.fails tables.new) }
{
    let len = row_len(tables, k);
    let place = tables.place(k, page, len)?;
    if place.fits {
        let slot = place.slot;
        put(tables, k, Rid { page, slot })
    } else {
        Ok(pass_page(tables, k, page))
    }
}

// Puts the row there, where the log has room for it.
fn put<T: Tables>(tables: &mut T, k: u8, rid: Rid) -> Result<Turn, StoreFault>
    requires open { IsOpen (T.view tables.old) k }
    requires at { (seat_of (T.view tables.old) k).stage ≡ tries (row_in (op_at (T.view tables.old) k)) rid.page }
    requires inside { rid.page < (T.view tables.old).setting.pages }
    requires slot { rid.slot ≡ slot_for (T.view tables.old).state (seat_of (T.view tables.old) k) rid.page }
    requires fits { row_fits (T.view tables.old).state (seat_of (T.view tables.old) k) rid.page rid.slot (length (row_in (op_at (T.view tables.old) k))) ≡ true }
    ensures makes { let v = T.view tables.old in Makes v (if_room v.setting v.state k (T.offset tables.old) (inserts (row_in (op_at v k)) rid (T.offset tables.old))) result (T.view tables.new) }
    ensures since { T.since tables.old tables.new }
    ensures cause { IfErr result (T.fails tables.new) }
{
    if tables.has_room_to_insert(k, rid) {
        tables.log_insert(k, rid)?;
        Ok(Turn::Advanced)
    } else {
        Ok(refuse_room(tables, k))
    }
}

// Goes on to the next page, if there is one.
fn pass_page<T: Tables>(tables: &mut T, k: u8, page: u32) -> Turn
    requires open { IsOpen (T.view tables.old) k }
    requires inside { page < (T.view tables.old).setting.pages }
    ensures makes { let v = T.view tables.old in (slot : ℕ) → Makes v (turns k (if page + 1 == v.setting.pages then try_last (row_in (op_at v k)) page slot else tries_it (row_in (op_at v k)) page slot)) (Ok result) (T.view tables.new) }
    ensures since { T.since tables.old tables.new }
{
    let pages = tables.pages();
    if page + 1 == pages {
        close(tables, k, Reply::NoSpace)
    } else {
        tables.stand(k, Stage::Seeks(page + 1));
        Turn::Advanced
    }
}
