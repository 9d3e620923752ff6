//! What a record changes: which slot it sets, and to what; which page's category it enters.

ghost use Rattle.std.specs.Prelude.{◌≡◌, option_copied};
ghost use Rattle.rm_apply.specs.Entries.{entered_by};
ghost use Rattle.rm_apply.specs.Redo.{rid_of, row_in};

use rm_record::LogRecord;
use rm_types::{Rid, Row, Slot};

/// The row id whose slot the record sets: none where it sets no slot.
pub fn slot_set_by(what: &LogRecord) -> Option<Rid>
    ensures { result ≡ rid_of what.now }
{
    match what {
        LogRecord::Insert { rid, .. }
        | LogRecord::Delete { rid, .. }
        | LogRecord::Update { rid, .. }
        | LogRecord::Compensate { rid, .. } => Some(*rid),
        _ => None,
    }
}

/// The row that the slot then holds: none where it is vacant then, or the record sets no slot.
pub fn row_set_by(what: &LogRecord) -> Option<&Row>
    ensures { option_copied result ≡ row_in what.now }
{
    match what {
        LogRecord::Insert { row, .. } | LogRecord::Update { new: row, .. } => Some(row),
        LogRecord::Compensate { back, .. } => match back {
            Slot::Row(row) => Some(row),
            Slot::Vacant => None,
        },
        _ => None,
    }
}

/// The page and the category that the record enters in the inventory: none where it enters none.
pub fn category_entered_by(what: &LogRecord) -> Option<(u32, u8)>
    ensures { result ≡ entered_by what.now }
{
    match what {
        LogRecord::Inventory { page, category, .. } => Some((*page, *category)),
        _ => None,
    }
}
