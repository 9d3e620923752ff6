//! The fit rule.

ghost use Rattle.std.specs.Prelude.{◌≤◌, ◌+◌, ◌↔◌, max, IsTrue};
ghost use Rattle.rm_types.specs.declared.slots.TheConstants.{CAPACITY};

use rm_types::CAPACITY;

/// Whether a change fits on a page, all in bytes: `used` are in use, the directory grows by `directory` and the rows
/// by `growth`, 0 where they shrink. The other transactions need `others`, and the one that makes the change needs
/// `need` before it. What the rows grow by is taken from its own need first.
pub fn fits(used: u16, directory: u16, others: u32, growth: u16, need: u16) -> bool
    ensures { IsTrue result ↔ (used + directory + others + max growth need ≤ CAPACITY) }
{
    let taken = u64::from(used) + u64::from(directory) + u64::from(others);
    taken + u64::from(growth.max(need)) <= u64::from(CAPACITY)
}
