//! The pages of a file in memory.

ghost use Rattle.std.specs.Prelude.{◌≡◌, [], replicate, All, IfOk};
ghost use Rattle.rm_model.specs.Files.{slots_of};

use crate::Page;
use rm_types::NoMemory;
use std::alloc::Global;

/// `count` pages without rows, each with the LSN 0.
///
/// # Errors
///
/// [`NoMemory`] alone.
pub fn empty_pages(alloc: Global, count: u32) -> Result<Vec<Page>, NoMemory>
    ensures slots { IfOk result (λ pages. slots_of pages.items ≡ replicate count []) }
    ensures lsns { IfOk result (λ pages. All (λ page. page.lsn.0 ≡ 0) pages.items) }
{
    let mut pages = Vec::with_capacity(alloc, count as usize)?;
    for _page in 0..count {
        pages.push_reserved(Page::new(alloc));
    }
    Ok(pages)
}
