//! Five real files. Each method makes one call on a file, and then notes it with its answer. This module is what a reader
//! has to trust: that a method makes the call that it notes, on that area's file, no proof can say. A sync that a signal
//! interrupted is made again by std, before it answers.

ghost use Rattle.std.specs.Prelude.{◌≡◌, ◌≤◌, [], length, IfOk};
ghost use Rattle.rm_types.specs.declared.areas.Area.{Area};

use crate::files::AreaFiles;
use rm_calls::{Answer, Calls, Modelled, Record, Start};
use rm_types::Area;
use std::alloc::{AllocError, Global};
use std::fs::File;
use std::io;
use std::os::unix::fs::FileExt;
use std::rt::Files;

/// The files `master`, `log`, `data`, `space` and `copy` of one folder (docs/FORMATS.md, "Areas and files").
#[derive(Drop)]
pub struct Host<R: Drop> {
    files: AreaFiles<R>,
    noted: Record,
}

impl<R: Files<File = File> + Drop> Host<R> {
    ghost use Rattle.rm_files.specs.Hosts.{calls_of, faults_in, folder_of};

    /// A volume over the folder at that path, `.` for the current one, whose files hold `S` when they are opened. It makes
    /// no call of the system. The value of `S` is used up, so that code over any `S` makes one volume.
    pub fn volume<S: Start>(
        alloc: Global,
        rt: R,
        folder: &str,
        _start: S,
    ) -> Result<Modelled<Host<R>, S>, AllocError>
        ensures folder { IfOk result (λ volume. folder_of volume ≡ folder.now) }
        ensures fresh { IfOk result (λ volume. calls_of volume ≡ []) }
        ensures faults { IfOk result (λ volume. faults_in volume ≡ (λ _. 0)) }
        ensures reads { IfOk result (λ volume. (volume.reads.blocks ≡ 0) × (volume.reads.log_bytes ≡ 0)) }
    {
        Ok(Modelled::new(Host {
            files: AreaFiles::new(alloc, rt, folder)?,
            noted: Record::new(),
        }))
    }

    fn read(&mut self, area: Area, at: u64, into: &mut [u8]) -> io::Result<usize>
        ensures bound { IfOk result (λ count. count ≤ length into.new) }
        ensures unnoted { self.new.noted ≡ self.old.noted }
    {
        self.files.file(area)?.read_at(into, at)
    }

    fn write(&mut self, area: Area, at: u64, from: &[u8]) -> io::Result<usize>
        ensures unnoted { self.new.noted ≡ self.old.noted }
    {
        self.files.file(area)?.write_at(from, at)
    }

    fn make_durable(&mut self, area: Area) -> io::Result<usize>
        ensures unnoted { self.new.noted ≡ self.old.noted }
    {
        self.files.file(area)?.sync_data()?;
        Ok(0)
    }
}

impl<R: Files<File = File> + Drop> Calls for Host<R> {
    ghost history = { λ host. host.noted.calls };

    fn read_some(&mut self, area: Area, at: u64, into: &mut [u8]) -> Answer {
        let answer = Answer::of(self.read(area, at, into));
        self.noted.read(area, at, &into[..answer.count()], answer);
        answer
    }

    fn write_some(&mut self, area: Area, at: u64, from: &[u8]) -> Answer {
        let answer = Answer::of(self.write(area, at, from));
        self.noted.wrote(area, at, from, answer);
        answer
    }

    fn sync(&mut self, area: Area) -> Answer {
        let answer = Answer::of(self.make_durable(area));
        self.noted.synced(area, answer);
        answer
    }
}
