//! Where the notes have syncs.

ghost use Rattle.std.specs.Prelude.{◌≡◌, ℕ, [], ◌∷◌, drop, nat_lt};
ghost use Rattle.rm_outside.specs.Areas.{is_same};
ghost use Rattle.rm_memory.specs.Notes.{synced_in};

use crate::notes::Note;
use rm_types::Area;

// Whether the two are one area.
fn is_same(area: Area, other: Area) -> bool
    ensures { result ≡ is_same area other }
{
    match area {
        Area::Master => matches!(other, Area::Master),
        Area::Log => matches!(other, Area::Log),
        Area::Data => matches!(other, Area::Data),
        Area::Space => matches!(other, Area::Space),
        Area::Copy => matches!(other, Area::Copy),
    }
}

// Whether the note is of a sync of that area.
#[tactic(auto, unfolding(crate::specs::Notes::synced_in))]
fn is_sync_of(note: &Note, area: Area) -> bool
    ensures { result ≡ synced_in (note.now ∷ []) area }
{
    match note {
        Note::Synced(synced) => is_same(*synced, area),
        Note::Wrote(_) => false,
    }
}

// How many notes end with the last sync of that area, 0 where there is none.
pub fn notes_to_sync(notes: &[Note], area: Area) -> usize
    ensures { (index : ℕ) → synced_in (drop index notes.now) area ≡ nat_lt index result }
{
    let mut end = 0;
    for (index, note) in notes.iter().enumerate() {
        if is_sync_of(note, area) {
            end = index + 1;
        }
    }
    end
}
