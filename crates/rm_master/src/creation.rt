//! Making a volume.
//!
//! The made byte is the last thing written, after a sync of all else: until then each image is one
//! of a volume that is not made, and from then on each is a volume without rows.

ghost use Rattle.std.specs.Prelude.{◌≡◌, ℕ, ◌+◌, ◌*◌, ◌<◌, ◌≤◌, ◌⊎◌, length, get_or, OnOk, [], ◌∷◌};
ghost use Rattle.rm_types.specs.declared.areas.Area.{Area};
ghost use Rattle.rm_types.specs.Formats.{blocks_of};
ghost use Rattle.rm_outside.specs.Areas.{last_block};
ghost use Rattle.rm_outside.specs.Images.{KeepsOthers, Torn};
ghost use Rattle.rm_outside.specs.Calls.{AtEachMoment, Fails, FailsIn, IsAllSynced, Writes};
ghost use Rattle.rm_master.specs.Steps.{KeepsCopyAndLog, KeepsMaster, KeepsMadeByte};
ghost use Rattle.rm_master.specs.Fields.{fresh_fields};
ghost use Rattle.rm_master.specs.Slots.{HasSlot, IsMade, IsUnmade};
ghost use Rattle.rm_master.specs.Fresh.{IsZeroBelow, IsCleared, IsFresh};

use crate::fields::{Fields, MADE, MADE_AT, PARITY_AT, SLOTS_AT};
use crate::spelling::spelling;
use rm_outside::{Volume, sync_area, sync_content, write_area};
use rm_types::{Area, BLOCK_PAGES, BLOCK_SIZE, Fault, MAX_PAGES};

/// A gate that is closed.
const CLOSED: u8 = 0;

/// The number of the slot that a new volume has.
const FIRST_SLOT: u8 = 0;

/// A block of zeros.
fn zero_block() -> [u8; BLOCK_SIZE]
    ensures zeros { (k : ℕ) → k < BLOCK_SIZE → get_or result k 0 ≡ 0 }
    ensures len { length result ≡ BLOCK_SIZE }
{
    [0; BLOCK_SIZE]
}

/// Writes zeros to one block.
fn clear_block<V: Volume>(volume: &mut V, area: Area, block: u32) -> Result<(), Fault>
    requires { block ≤ last_block area }
    ensures zeros { OnOk result (V.models_content volume.new → IsZeroBelow (V.content volume.old area) (BLOCK_SIZE * block)
        → IsZeroBelow (V.content volume.new area) (BLOCK_SIZE * (block + 1))) }
    ensures writes { Writes V.Volume (KeepsOthers area) volume.old volume.new }
    ensures cause { FailsIn V.Volume area volume.old volume.new result }
{
    let zeros = zero_block();
    write_area(volume, area, BLOCK_SIZE as u64 * block as u64, &zeros)
}

/// Writes zeros to this many blocks.
fn clear_blocks<V: Volume>(volume: &mut V, area: Area, count: u32) -> Result<(), Fault>
    requires { count ≤ last_block area + 1 }
    ensures zeros { OnOk result (V.models_content volume.new → IsZeroBelow (V.content volume.new area) (BLOCK_SIZE * count)) }
    ensures writes { Writes V.Volume (KeepsOthers area) volume.old volume.new }
    ensures cause { FailsIn V.Volume area volume.old volume.new result }
{
    for block in 0..count {
        clear_block(volume, area, block)?;
    }
    Ok(())
}

/// How many blocks of Space describe this many pages.
fn space_block_count(pages: u32) -> u32
    requires { pages ≤ MAX_PAGES }
    ensures { result ≡ blocks_of pages }
{
    (pages + BLOCK_PAGES - 1) / BLOCK_PAGES
}

/// Writes a closed gate and the blocks of zeros.
fn write_clear<V: Volume>(volume: &mut V, pages: u32) -> Result<(), Fault>
    requires { pages ≤ MAX_PAGES }
    ensures cleared { OnOk result (V.models_content volume.new → IsCleared pages (V.content volume.new)) }
    ensures writes { Writes V.Volume KeepsMaster volume.old volume.new }
    ensures cause { Fails V.Volume volume.old volume.new result }
{
    write_area(volume, Area::Log, 0, &[CLOSED])?;
    clear_blocks(volume, Area::Data, pages)?;
    clear_blocks(volume, Area::Space, space_block_count(pages))
}

/// Makes the log empty and the blocks zeros, durably.
fn clear<V: Volume>(volume: &mut V, pages: u32) -> Result<(), Fault>
    requires pages { pages ≤ MAX_PAGES }
    requires synced { IsAllSynced V.Volume volume.old }
    ensures cleared { OnOk result (V.models_content volume.new → IsCleared pages (V.content volume.new)) }
    ensures synced { OnOk result (IsAllSynced V.Volume volume.new) }
    ensures writes { Writes V.Volume KeepsMaster volume.old volume.new }
    ensures cause { Fails V.Volume volume.old volume.new result }
{
    write_clear(volume, pages)?;
    sync_content(volume)
}

/// Writes the first slot and the parity byte that names it, and makes both durable.
fn write_first_slot<V: Volume>(volume: &mut V, pages: u32) -> Result<(), Fault>
    requires pages { (1 ≤ pages) × (pages ≤ MAX_PAGES) }
    requires synced { IsAllSynced V.Volume volume.old }
    ensures slot { OnOk result (V.models_content volume.new → HasSlot (V.content volume.new Area.Master) (fresh_fields pages)) }
    ensures synced { OnOk result (IsAllSynced V.Volume volume.new) }
    ensures writes { Writes V.Volume KeepsMadeByte volume.old volume.new }
    ensures cause { FailsIn V.Volume Area.Master volume.old volume.new result }
{
    let slot = spelling(&Fields::fresh(pages));
    write_area(volume, Area::Master, SLOTS_AT, &slot)?;
    write_area(volume, Area::Master, PARITY_AT, &[FIRST_SLOT])?;
    sync_area(volume, Area::Master)
}

/// Writes the made byte, and makes it durable.
fn write_made<V: Volume>(volume: &mut V) -> Result<(), Fault>
    requires { IsAllSynced V.Volume volume.old }
    ensures made { OnOk result (V.models_content volume.new → IsMade (V.content volume.new)) }
    ensures synced { OnOk result (IsAllSynced V.Volume volume.new) }
    ensures writes { Writes V.Volume (Torn Area.Master MADE_AT (MADE ∷ [])) volume.old volume.new }
    ensures cause { FailsIn V.Volume Area.Master volume.old volume.new result }
{
    write_area(volume, Area::Master, MADE_AT, &[MADE])?;
    sync_area(volume, Area::Master)
}

/// Makes a volume that is not made, and of which all is synced.
pub fn make<V: Volume>(volume: &mut V, pages: u32) -> Result<(), Fault>
    requires pages { (1 ≤ pages) × (pages ≤ MAX_PAGES) }
    requires synced { IsAllSynced V.Volume volume.old }
    requires unmade { V.models_content volume.old → IsUnmade (V.content volume.old) }
    ensures fresh { OnOk result (V.models_content volume.new → IsFresh pages (V.content volume.new)) }
    ensures synced { OnOk result (IsAllSynced V.Volume volume.new) }
    ensures any_moment { AtEachMoment V.Volume volume.old volume.new (λ c. IsUnmade c ⊎ IsFresh pages c) }
    ensures writes { Writes V.Volume KeepsCopyAndLog volume.old volume.new }
    ensures cause { Fails V.Volume volume.old volume.new result }
{
    clear(volume, pages)?;
    write_first_slot(volume, pages)?;
    write_made(volume)
}
