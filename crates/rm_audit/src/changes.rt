//! The changes of slots.

ghost use Rattle.std.specs.Prelude.{◌≡◌, ℕ, option_map, IfOk};
ghost use Rattle.rm_history.specs.Acts.{Change as Changes, act_at, act_of};
ghost use Rattle.rm_audit.specs.Parts.{change_in};

use rm_record::{LogRecord, Logged};
use rm_types::{Lsn, NoMemory, Rid, Slot, TxnId};
use std::marker::Model;

/// A change of a slot, forward: what it held and what it holds. `under` and `need` are as in a [`LogRecord`].
#[derive(Debug, Drop)]
pub struct Change {
    pub lsn: Lsn,
    pub txn: TxnId,
    pub under: Lsn,
    pub rid: Rid,
    pub need: u16,
    pub before: Slot,
    pub after: Slot,
}

impl Model for Change {
    ghost use Rattle.rm_history.specs.Acts.{Change as Changes};

    ghost Value = { Changes };

    ghost view = { λ c. record { lsn = c.lsn.0; txn = c.txn.0; under = c.under.0; rid = c.rid; need = c.need; before = c.before; after = c.after } };
}

// What the slot of a change held and holds, copied, where the record is a change.
fn slots_of(what: &LogRecord) -> Result<Option<(Slot, Slot)>, NoMemory>
    ensures { (lsn : ℕ) → IfOk result (λ found. found ≡ option_map (λ (c : Changes). (c.before, c.after)) (change_in (act_at lsn what.now))) }
{
    match what {
        LogRecord::Insert { row, .. } => { Ok(Some((Slot::Vacant, Slot::Row(row.try_clone()?)))) }
        LogRecord::Delete { old, .. } => Ok(Some((Slot::Row(old.try_clone()?), Slot::Vacant))),
        LogRecord::Update { old, new, .. } => {
            let before = Slot::Row(old.try_clone()?);
            Ok(Some((before, Slot::Row(new.try_clone()?))))
        }
        _ => Ok(None),
    }
}

/// The change that a record makes, if it makes one forward.
pub(crate) fn change_of(logged: &Logged) -> Result<Option<Change>, NoMemory>
    ensures { IfOk result (λ found. found ≡ change_in (act_of logged.now)) }
{
    let Some((before, after)) = slots_of(&logged.what)? else {
        return Ok(None);
    };
    match &logged.what {
        LogRecord::Insert {
            txn,
            under,
            rid,
            need,
            ..
        }
        | LogRecord::Delete {
            txn,
            under,
            rid,
            need,
            ..
        }
        | LogRecord::Update {
            txn,
            under,
            rid,
            need,
            ..
        } => Ok(Some(Change {
            lsn: logged.lsn,
            txn: *txn,
            under: *under,
            rid: *rid,
            need: *need,
            before,
            after,
        })),
        _ => Ok(None),
    }
}
