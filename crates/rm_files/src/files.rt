//! The five files of a volume in one folder: which process has them, and that what they give is synced.

ghost use Rattle.std.specs.Prelude.{◌≡◌, true, string_bytes, IfOk, OnOk};

use rm_outside::PerArea;
use rm_types::Area;
use std::alloc::{AllocError, Global};
use std::fs::{self, File, OpenOptions};
use std::io::{self, ErrorKind};
use std::os::fd::AsRawFd;
use std::os::unix::fs::MetadataExt;
use std::rt::Files;

/// The last descriptor of a standard stream.
const LAST_STREAM: i32 = 2;

/// The folder that the files lie in.
#[derive(Drop)]
struct Folder<R: Drop> {
    rt: R,
    path: String,
    /// It was synced since a file was last made in it.
    is_synced: bool,
}

impl<R: Files<File = File> + Drop> Folder<R> {
    /// Opens a regular file that has this name alone, and makes it where it is not there.
    fn open(&mut self, path: &str) -> io::Result<File> {
        let file = off_streams(self.open_or_make(path)?)?;
        let (found, named) = (file.metadata()?, fs::symlink_metadata(&self.rt, path)?);
        let is_named = found.dev() == named.dev() && found.ino() == named.ino();
        if !is_named || !found.is_file() || found.nlink() != 1 {
            return Err(ErrorKind::Unsupported.into());
        }
        Ok(file)
    }

    /// What is there but is no regular file is not opened, since that alone may do something.
    fn open_or_make(&mut self, path: &str) -> io::Result<File> {
        match fs::symlink_metadata(&self.rt, path) {
            Ok(named) if named.is_file() => OpenOptions::new()
                .read(true)
                .write(true)
                .open(&self.rt, path),
            Ok(_) => Err(ErrorKind::Unsupported.into()),
            Err(error) if error.kind() == ErrorKind::NotFound => {
                self.is_synced = false;
                File::create_new(&self.rt, path)
            }
            Err(error) => Err(error),
        }
    }

    /// Makes the names of its files durable.
    fn sync(&mut self) -> io::Result<()>
        ensures { OnOk result (self.new.is_synced ≡ true) }
    {
        if !self.is_synced {
            File::open(&self.rt, self.path.as_str())?.sync_all()?;
            self.is_synced = true;
        }
        Ok(())
    }
}

/// The same file under a descriptor that is no standard stream's: what is meant for one that was closed must not land in a
/// file of the volume.
fn off_streams(file: File) -> io::Result<File> {
    if file.as_raw_fd() <= LAST_STREAM {
        return file.try_clone();
    }
    Ok(file)
}

/// The files of the five areas. Each is opened and synced at the first call in its area, and before all else `master` is
/// opened and locked; the lock lasts until this value is dropped.
#[derive(Drop)]
pub struct AreaFiles<R: Drop> {
    folder: Folder<R>,
    paths: PerArea<String>,
    files: PerArea<Option<File>>,
    is_locked: bool,
}

impl<R: Files<File = File> + Drop> AreaFiles<R> {
    /// The files of that folder, of which none is open. It makes no call of the system.
    pub fn new(alloc: Global, rt: R, folder: &str) -> Result<AreaFiles<R>, AllocError>
        ensures { IfOk result (λ files. string_bytes files.folder.path ≡ folder.now) }
    {
        Ok(AreaFiles {
            paths: PerArea {
                master: [folder, "/master"].concat(alloc)?,
                log: [folder, "/log"].concat(alloc)?,
                data: [folder, "/data"].concat(alloc)?,
                space: [folder, "/space"].concat(alloc)?,
                copy: [folder, "/copy"].concat(alloc)?,
            },
            files: PerArea {
                master: None,
                log: None,
                data: None,
                space: None,
                copy: None,
            },
            folder: Folder {
                rt,
                path: String::from_str(alloc, folder)?,
                is_synced: false,
            },
            is_locked: false,
        })
    }

    /// Opens and locks `master`, where that was not done. It fails where another process has the lock.
    fn lock(&mut self) -> io::Result<()>
        ensures { OnOk result (self.new.is_locked ≡ true) }
    {
        if !self.is_locked {
            let master = self.folder.open(self.paths.master.as_str())?;
            master.try_lock()?;
            master.sync_all()?;
            self.files.master = Some(master);
            self.is_locked = true;
        }
        Ok(())
    }

    /// Opens the area's file, where that was not done.
    fn open(&mut self, area: Area) -> io::Result<()>
        ensures locked { OnOk result (self.new.is_locked ≡ true) }
        ensures synced { OnOk result (self.new.folder.is_synced ≡ true) }
    {
        self.lock()?;
        if self.files.get(area).is_none() {
            let file = self.folder.open(self.paths.get(area).as_str())?;
            file.sync_all()?;
            self.files.set(area, Some(file));
        }
        self.folder.sync()
    }

    /// The open file.
    fn get(&self, area: Area) -> io::Result<&File>
        requires locked { self.now.is_locked ≡ true }
        requires synced { self.now.folder.is_synced ≡ true }
    {
        self.files
            .get(area)
            .as_ref()
            .ok_or(ErrorKind::NotFound.into())
    }

    /// The area's file. Once this is `Ok` no other process has the volume, and the file's name stays through a crash.
    pub fn file(&mut self, area: Area) -> io::Result<&File> {
        self.open(area)?;
        self.get(area)
    }
}
