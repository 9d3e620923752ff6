//! Texts in tables.

use std::alloc::Global;
use std::test::Fail;

/// The text with the end of a line in place of each `;`.
pub(crate) fn lines(alloc: Global, text: &str) -> Result<String, Fail> {
    let mut made = String::new(alloc);
    for c in text.chars() {
        made.push(if c == ';' { '\n' } else { c })?;
    }
    Ok(made)
}
