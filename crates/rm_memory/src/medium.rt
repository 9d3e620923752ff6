//! What a volume in memory holds: the image that it began with, the notes of what was done to it since, and
//! the bytes that a read gives.

ghost use Rattle.std.specs.Prelude.{◌≡◌, ◌+◌, ◌≤◌, ◌^◌, ◌∷◌, [], length, vec_len, IfOk, OnOk, OnErr, IsOk};
ghost use Rattle.rm_outside.specs.Images.{Shows};
ghost use Rattle.rm_memory.specs.Areas.{image_of};
ghost use Rattle.rm_outside.specs.History.{content, Write, Sync};
ghost use Rattle.rm_memory.specs.Crashes.{none, left};
ghost use Rattle.rm_memory.specs.Notes.{history, total};

use crate::contents::{copy_of, make_room, no_bytes, put_bytes, read_bytes};
use crate::crash::image_left;
use crate::notes::{Note, Put};
use rm_outside::PerArea;
use rm_types::{Area, NoMemory};
use std::alloc::Global;

/// The image that it began with, the notes since then, and what a read gives. The bytes of the noted writes
/// stand one after another.
#[derive(Debug, Drop)]
pub struct Medium {
    base: PerArea<Vec<u8>>,
    current: PerArea<Vec<u8>>,
    notes: Vec<Note>,
    bytes: Vec<u8>,
    ghost counted: { total notes.items ≡ length bytes.items },
    ghost kept: { image_of current ≡ content (image_of base) (history notes.items bytes.items) },
}

impl Medium {
    ghost use Rattle.rm_memory.specs.Mediums.{events, base_image, shown, HasRoom, HasRoomForSync};

    /// Areas without bytes.
    pub fn new(alloc: Global) -> Medium
        ensures base { base_image result ≡ (λ _ _. 0) }
        ensures fresh { events result ≡ [] }
    {
        Medium {
            base: no_bytes(alloc),
            current: no_bytes(alloc),
            notes: Vec::new(alloc),
            bytes: Vec::new(alloc),
        }
    }

    /// A medium that begins with that image.
    pub fn of_image(alloc: Global, image: PerArea<Vec<u8>>) -> Result<Medium, NoMemory>
        ensures base { IfOk result (λ medium. base_image medium ≡ image_of image) }
        ensures fresh { IfOk result (λ medium. events medium ≡ []) }
    {
        let current = copy_of(alloc, &image)?;
        Ok(Medium {
            base: image,
            current,
            notes: Vec::new(alloc),
            bytes: Vec::new(alloc),
        })
    }

    /// Where its memory comes from.
    pub fn allocator(&self) -> Global {
        *self.bytes.allocator()
    }

    /// The image that the outcome leaves.
    pub fn left(&self, outcome: u64) -> Result<PerArea<Vec<u8>>, NoMemory>
        ensures { IfOk result (λ image. image_of image ≡ left outcome (base_image self.now) (events self.now) none) }
    {
        image_left(
            self.allocator(),
            outcome,
            &self.base,
            &self.notes,
            &self.bytes,
        )
    }

    /// The bytes at that offset.
    pub fn read(&self, area: Area, at: u64, into: &mut [u8])
        requires { at + length into.old ≤ 2 ^ 49 }
        ensures { Shows (shown self.now area) at into.new }
    {
        read_bytes(self.current.get(area), at as usize, into);
    }

    /// Notes a write, and puts its bytes where it took. Out of memory, it changes nothing.
    pub fn write(&mut self, area: Area, at: u64, from: &[u8], took: bool) -> Result<(), NoMemory>
        requires { at + length from.now ≤ 2 ^ 49 }
        ensures ok { OnOk result (events self.new ≡ Write area at from.now took ∷ events self.old) }
        ensures err { OnErr result (events self.new ≡ events self.old) }
        ensures base { base_image self.new ≡ base_image self.old }
        ensures room { HasRoom self.old area at (length from.now) → IsOk result }
    {
        let len = from.len();
        make_room(&mut self.current, area, at as usize + len)?;
        self.notes.try_reserve(1)?;
        self.bytes.extend_from_slice(from)?;
        let put = Put {
            area,
            at,
            len,
            took,
        };
        self.notes.push_reserved(Note::Wrote(put));
        if took {
            put_bytes(&mut self.current, area, at as usize, from);
        }
        Ok(())
    }

    /// Notes a sync. Out of memory, it changes nothing.
    pub fn sync(&mut self, area: Area) -> Result<(), NoMemory>
        ensures ok { OnOk result (events self.new ≡ Sync area ∷ events self.old) }
        ensures err { OnErr result (events self.new ≡ events self.old) }
        ensures base { base_image self.new ≡ base_image self.old }
        ensures room { HasRoomForSync self.old → IsOk result }
    {
        self.notes.push(Note::Synced(area))?;
        Ok(())
    }
}
