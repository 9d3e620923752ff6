//! The slots of the master.

ghost use Rattle.std.specs.Prelude.{◌≡◌, ◌<◌, [], ◌∷◌, IfOk, OnOk, IfErr, IfSome, IfNone};
ghost use Rattle.rm_types.specs.declared.areas.Area.{Area};
ghost use Rattle.rm_outside.specs.Images.{Image, Shows, Torn};
ghost use Rattle.rm_outside.specs.Calls.{FailsIn, HasBytes, IsSynced, OnlyReads, Writes};
ghost use Rattle.rm_master.specs.declared.fields.Fields.{Fields as the_fields};
ghost use Rattle.rm_master.specs.Faults.{ExplainsSlot};
ghost use Rattle.rm_master.specs.Fields.{IsFields, slot_bytes};
ghost use Rattle.rm_master.specs.Slots.{slot_at};

use crate::fields::{Fields, PARITY_AT, SLOT_BYTES, SLOT_ROOM, SLOTS_AT};
use crate::spelling::{spelled, spelling};
use rm_outside::{Volume, read_area, sync_area, write_area};
use rm_types::{Area, Fault};

/// Where the slot begins.
fn slot_offset(slot: u8) -> u64
    requires { slot < 2 }
    ensures { result ≡ slot_at slot }
{
    SLOTS_AT + SLOT_ROOM * slot as u64
}

/// The fields that the bytes spell and that keep the rules.
fn fields_of(bytes: &[u8; SLOT_BYTES]) -> Option<Fields>
    ensures some { IfSome result (λ fields. IsFields fields × (bytes.now ≡ slot_bytes fields)) }
    ensures none { IfNone result ((fields : the_fields) → IsFields fields → bytes.now ≡ slot_bytes fields → ⊥) }
{
    let fields = spelled(bytes)?;
    if fields.keep_rules() {
        Some(fields)
    } else {
        None
    }
}

/// The fields in the slot.
pub fn read_slot<V: Volume>(volume: &mut V, slot: u8) -> Result<Fields, Fault>
    requires { slot < 2 }
    ensures rules { IfOk result IsFields }
    ensures shows { IfOk result (λ fields. HasBytes V.Volume volume.old volume.new Area.Master (slot_at slot) (slot_bytes fields)) }
    ensures reads { OnlyReads V.Volume Area.Master volume.old volume.new }
    ensures cause { IfErr result (ExplainsSlot V.Volume volume.old volume.new slot) }
{
    let at = slot_offset(slot);
    let mut bytes = [0u8; SLOT_BYTES];
    read_area(volume, Area::Master, at, &mut bytes)?;
    match fields_of(&bytes) {
        Some(fields) => Ok(fields),
        None => Err(Fault::Damaged {
            area: Area::Master,
            at,
        }),
    }
}

/// Writes the fields to the slot, and makes it durable.
pub fn write_slot<V: Volume>(volume: &mut V, slot: u8, fields: &Fields) -> Result<(), Fault>
    requires { slot < 2 }
    ensures shows { OnOk result ((c : Image) → V.may_leave volume.new c → Shows (c Area.Master) (slot_at slot) (slot_bytes fields.now)) }
    ensures writes { Writes V.Volume (Torn Area.Master (slot_at slot) (slot_bytes fields.now)) volume.old volume.new }
    ensures cause { FailsIn V.Volume Area.Master volume.old volume.new result }
{
    write_area(volume, Area::Master, slot_offset(slot), &spelling(fields))?;
    sync_area(volume, Area::Master)
}

/// Writes the parity byte that names the slot, and makes it durable.
pub fn write_parity<V: Volume>(volume: &mut V, slot: u8) -> Result<(), Fault>
    ensures names { OnOk result ((c : Image) → V.may_leave volume.new c → c Area.Master PARITY_AT ≡ slot) }
    ensures synced { OnOk result (IsSynced V.Volume Area.Master volume.new) }
    ensures writes { Writes V.Volume (Torn Area.Master PARITY_AT (slot ∷ [])) volume.old volume.new }
    ensures cause { FailsIn V.Volume Area.Master volume.old volume.new result }
{
    write_area(volume, Area::Master, PARITY_AT, &[slot])?;
    sync_area(volume, Area::Master)
}
