//! The master of a volume, read and written.

ghost use Rattle.std.specs.Prelude.{◌<◌};

use crate::creation::make;
use crate::faults::{CreateFault, MasterFault};
use crate::fields::{Fields, MADE, MADE_AT};
use crate::slots::{read_slot, write_parity, write_slot};
use rm_outside::{Volume, read_area, sync_areas};
use rm_types::{Area, Fault, MAX_PAGES};

/// The master of a volume that is made.
#[derive(Debug, Drop)]
pub struct Master {
    /// Its fields.
    pub fields: Fields,
    /// The number of the current slot, 0 or 1.
    pub slot: u8,
    pub ghost in_range: { slot < 2 },
}

impl Master {
    ghost use Rattle.std.specs.Prelude.{◌≡◌, ◌≤◌, ◌⊎◌, IsTrue, IfOk, IfErr, OnOk, OnErr};
    ghost use Rattle.rm_types.specs.declared.areas.Area.TheVariants.{Master as master_area};
    ghost use Rattle.rm_outside.specs.Images.{Image};
    ghost use Rattle.rm_outside.specs.Calls.{AtEachMoment, FailsIn, IsAllSynced, IsSynced, OnlyReads, Writes, WritesIn};
    ghost use Rattle.rm_master.specs.Faults.{ExplainsRead, ExplainsCreate};
    ghost use Rattle.rm_master.specs.Fields.{IsFields};
    ghost use Rattle.rm_master.specs.Slots.{Stands, GoesTo, IsMade, IsUnmade};
    ghost use Rattle.rm_master.specs.Steps.{KeepsCopyAndLog};
    ghost use Rattle.rm_master.specs.Fresh.{IsFresh};

    /// Reads the master.
    ///
    /// # Errors
    ///
    /// [`MasterFault::NotMade`] exactly where the made byte is not 1. [`rm_types::Fault::Damaged`] where
    /// the current slot has no fields that keep the rules, with the place of that slot.
    /// [`rm_types::Fault::Volume`] where the area Master failed.
    pub fn read<V: Volume>(volume: &mut V) -> Result<Master, MasterFault>
        ensures fields { IfOk result (λ master. IsFields master.fields) }
        ensures stands { IfOk result (λ master. V.models_content volume.new → Stands master.slot master.fields (V.content volume.old master_area)) }
        ensures reads { OnlyReads V.Volume master_area volume.old volume.new }
        ensures cause { IfErr result (ExplainsRead V.Volume volume.old volume.new) }
    {
        let mut head = [0u8; 2];
        read_area(volume, Area::Master, MADE_AT, &mut head)?;
        let [made, parity] = head;
        if made != MADE {
            return Err(MasterFault::NotMade);
        }
        let slot = parity % 2;
        let fields = read_slot(volume, slot)?;
        Ok(Master { fields, slot })
    }

    /// Makes a volume of this many pages, all of them empty, and an empty log. It leaves area Copy, and the
    /// bytes of Log after the first gate's, as they are. After an error other than
    /// [`CreateFault::AlreadyMade`] the volume may be made or not.
    ///
    /// # Errors
    ///
    /// [`CreateFault::AlreadyMade`] exactly where the made byte is 1; then all areas were synced, and nothing
    /// was written. [`rm_types::Fault::Volume`] with the area that failed.
    pub fn create<V: Volume>(volume: &mut V, pages: u32) -> Result<(), CreateFault>
        requires { (1 ≤ pages) × (pages ≤ MAX_PAGES) }
        ensures fresh { OnOk result ((c : Image) → V.may_leave volume.new c → IsFresh pages c) }
        ensures not_made { OnOk result (V.models_content volume.new → IsUnmade (V.content volume.old)) }
        ensures synced { OnOk result (IsAllSynced V.Volume volume.new) }
        ensures made { V.models_content volume.new → IsMade (V.content volume.old) → OnlyReads V.Volume master_area volume.old volume.new }
        ensures made_any_moment { IsMade (V.content volume.old) → AtEachMoment V.Volume volume.old volume.new (V.may_leave volume.old) }
        ensures any_moment { AtEachMoment V.Volume volume.old volume.new (λ c. V.may_leave volume.old c ⊎ (IsUnmade c ⊎ IsFresh pages c)) }
        ensures writes { Writes V.Volume KeepsCopyAndLog volume.old volume.new }
        ensures cause { IfErr result (ExplainsCreate V.Volume volume.old volume.new) }
    {
        sync_areas(volume)?;
        let mut made = [0u8; 1];
        read_area(volume, Area::Master, MADE_AT, &mut made)?;
        if made[0] == MADE {
            return Err(CreateFault::AlreadyMade);
        }
        Ok(make(volume, pages)?)
    }

    /// Writes these fields in place of the old ones: the other slot first, and once that is durable the
    /// parity byte. After an error the volume has the old fields or these, so read it again.
    ///
    /// # Errors
    ///
    /// [`Fault::Volume`] where the area Master failed.
    pub fn write<V: Volume>(&mut self, volume: &mut V, next: &Fields) -> Result<(), Fault>
        requires rules { IsFields next.now }
        requires stands { (c : Image) → V.may_leave volume.old c → Stands self.old.slot self.old.fields (c master_area) }
        ensures written { OnOk result (self.new.fields ≡ next.now) }
        ensures stands { OnOk result ((c : Image) → V.may_leave volume.new c → Stands self.new.slot next.now (c master_area)) }
        ensures synced { OnOk result (IsSynced V.Volume master_area volume.new) }
        ensures unchanged { OnErr result ((self.new.fields ≡ self.old.fields) × (self.new.slot ≡ self.old.slot)) }
        ensures writes { WritesIn V.Volume master_area (GoesTo self.old.fields next.now) volume.old volume.new }
        ensures cause { FailsIn V.Volume master_area volume.old volume.new result }
    {
        let other = 1 - self.slot;
        write_slot(volume, other, next)?;
        write_parity(volume, other)?;
        self.fields = *next;
        self.slot = other;
        Ok(())
    }
}
