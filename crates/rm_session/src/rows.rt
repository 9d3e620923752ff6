//! The rows of a file of pages in memory.

ghost use Rattle.std.specs.Prelude.{◌≡◌, ◌^◌, ◌+◌, ◌<◌, ◌≤◌, ◌↔◌, length, option_copied, IfOk, OnErr, IsTrue, IfSome, MatchOption};
ghost use Rattle.rm_types.specs.declared.rows.TheConstants.{MAX_ROW};
ghost use Rattle.rm_model.specs.Files.{rows_of, slots_of};
ghost use Rattle.rm_session.specs.Session.{HasRoom, IsFirstWithRoom, IsInside};
ghost use Rattle.rm_session.specs.Answers.{Inserts, IsFull, Reads};

use rm_page::Page;
use rm_types::{CAPACITY, Lsn, MAX_SLOT, NoMemory, Reply, Rid, Row, SLOT_ENTRY};
use std::alloc::Global;

// Whether a row of `len` bytes fits after the directory.
fn has_room(page: &Page, len: usize) -> bool
    requires { len ≤ MAX_ROW }
    ensures { IsTrue result ↔ HasRoom page.now.slots len }
{
    usize::from(page.used()) + usize::from(SLOT_ENTRY) + len <= usize::from(CAPACITY)
}

// The number of the first page that has room. The search reads no more of a page than its use.
pub fn first_with_room(pages: &[Page], len: usize) -> Option<u32>
    requires short { len ≤ MAX_ROW }
    requires numbered { length pages.now < 2 ^ 32 }
    ensures { MatchOption result (IsFull (slots_of pages.now) len) (λ page. IsFirstWithRoom (slots_of pages.now) len page) }
{
    for (number, page) in pages.iter().enumerate() {
        if has_room(page, len) {
            return Some(number as u32);
        }
    }
    None
}

// Inserts the row after the directory of the first page that has room. An error leaves the pages as they were.
pub fn insert(pages: &mut [Page], row: &Row, lsn: Lsn) -> Result<Reply, NoMemory>
    requires { length pages.old < 2 ^ 32 }
    ensures ok { IfOk result (λ reply. Inserts (slots_of pages.old) row.now reply (slots_of pages.new)) }
    ensures err { OnErr result (pages.new ≡ pages.old) }
{
    let bytes = row.as_slice();
    let Some(number) = first_with_room(pages, bytes.len()) else {
        return Ok(Reply::NoSpace);
    };
    let page = &mut pages[number as usize];
    let slot = page.slots();
    page.set(slot, bytes, lsn)?;
    Ok(Reply::Inserted(Rid { page: number, slot }))
}

// Whether the row id names a place of a file of these pages.
fn is_inside(pages: &[Page], rid: Rid) -> bool
    ensures { IsTrue result ↔ IsInside (length pages.now) rid }
{
    (rid.page as usize) < pages.len() && rid.slot <= MAX_SLOT
}

// The bytes of the row that stands there, if one does.
fn row_at(pages: &[Page], rid: Rid) -> Option<&[u8]>
    requires { rid.page < length pages.now }
    ensures value { option_copied result ≡ rows_of (slots_of pages.now) rid }
    ensures short { IfSome result (λ row. length row.now ≤ MAX_ROW) }
{
    pages[rid.page as usize].row(rid.slot)
}

// Reads the row at a row id, into memory of the allocator.
pub fn read(alloc: Global, pages: &[Page], rid: Rid) -> Result<Reply, NoMemory>
    ensures { IfOk result (λ reply. Reads (slots_of pages.now) rid reply) }
{
    if !is_inside(pages, rid) {
        return Ok(Reply::BadRid);
    }
    Ok(match row_at(pages, rid) {
        Some(bytes) => Reply::Row(Row::from_slice(alloc, bytes)?),
        None => Reply::NoRow,
    })
}
