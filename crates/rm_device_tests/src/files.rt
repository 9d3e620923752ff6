//! Volumes over real files, and a reader and a writer that fail.

ghost use Rattle.std.specs.Prelude.{◌≤◌, IfOk};

use rm_calls::{Modelled, Unknown};
use rm_files::{Host, Input, Output};
use rm_outside::{Failed, Sink, Source, Volume};
use rm_types::{Area, BLOCK_SIZE};
use std::io::{self, ErrorKind, Read, Write};
use std::test::Fail;
use std::{env, fs, process};

/// Each area, its file, and the byte that is written to its second block.
const FILES: [(Area, &str, u8); 5] = [
    (Area::Master, "/master", b'm'),
    (Area::Log, "/log", b'l'),
    (Area::Data, "/data", b'd'),
    (Area::Space, "/space", b's'),
    (Area::Copy, "/copy", b'c'),
];

const BLOCK: u64 = BLOCK_SIZE as u64;

/// The path of a folder that one test has for itself. Nothing is there.
fn cleared(rt: &HostRuntime, name: &str) -> Result<String, Fail> {
    let own = format!(in rt.alloc(); "{name}_{}", process::id(rt.process()))?;
    let folder = env::temp_dir(rt)?.join(rt.alloc(), own.as_str())?;
    let _ = fs::remove_dir_all(rt, folder.as_str());
    Ok(String::from_str(rt.alloc(), folder.as_str())?)
}

/// A volume over the files of that folder.
fn volume_in<'r>(
    rt: &'r HostRuntime,
    folder: &str,
) -> Result<Modelled<Host<&'r HostRuntime>, Unknown>, Fail> {
    Ok(Host::volume(rt.alloc(), rt, folder, Unknown)?)
}

/// How many bytes a file has.
fn length_of(rt: &HostRuntime, folder: &str, file: &str) -> Result<u64, Fail> {
    let path = [folder, file].concat(rt.alloc())?;
    Ok(fs::metadata(rt, path.as_str())?.len())
}

#[test]
fn a_second_volume_reads_what_the_first_wrote(rt: HostRuntime) -> Result<(), Fail> {
    let folder = cleared(&rt, "rm_files_kept")?;
    let folder = folder.as_str();
    fs::create_dir(&rt, folder)?;
    let mut volume = volume_in(&rt, folder)?;
    // Before the first call there is no file.
    fs::remove_dir(&rt, folder)?;
    fs::create_dir(&rt, folder)?;
    for (area, file, byte) in FILES {
        assert_eq!(rt; volume.write(area, BLOCK, &[byte; BLOCK_SIZE]), Ok(()));
        assert_eq!(rt; volume.sync(area), Ok(()));
        assert_eq!(rt; length_of(&rt, folder, file)?, 2 * BLOCK, "{file}");
    }
    drop(volume);
    let mut volume = volume_in(&rt, folder)?;
    for (area, file, byte) in FILES {
        // The first block was not written, and the third is past the end.
        for (at, due) in [(0, 0), (BLOCK, byte), (2 * BLOCK, 0)] {
            let mut block = [b'?'; BLOCK_SIZE];
            assert_eq!(rt; volume.read(area, at, &mut block), Ok(()));
            assert!(rt; block == [due; BLOCK_SIZE], "{file} at {at}");
        }
    }
    let mut tail = [b'?'; 4];
    assert_eq!(rt; volume.read(Area::Log, 2 * BLOCK - 2, &mut tail), Ok(()));
    assert_eq!(rt; tail, [b'l', b'l', 0, 0]);
    fs::remove_dir_all(&rt, folder)?;
    Ok(())
}

#[test]
fn a_volume_has_one_owner(rt: HostRuntime) -> Result<(), Fail> {
    let folder = cleared(&rt, "rm_files_owned")?;
    let folder = folder.as_str();
    fs::create_dir(&rt, folder)?;
    let mut first = volume_in(&rt, folder)?;
    assert_eq!(rt; first.write(Area::Log, 0, b"kept"), Ok(()));
    let mut second = volume_in(&rt, folder)?;
    let mut bytes = [0; 4];
    for (area, file, _) in FILES {
        assert_eq!(rt; second.sync(area), Err(Failed), "{file}");
    }
    assert_eq!(rt; second.read(Area::Log, 0, &mut bytes), Err(Failed));
    assert_eq!(rt; second.write(Area::Log, 0, b"lost"), Err(Failed));
    drop(first);
    let mut third = volume_in(&rt, folder)?;
    assert_eq!(rt; third.read(Area::Log, 0, &mut bytes), Ok(()));
    assert_eq!(rt; bytes, *b"kept");
    fs::remove_dir_all(&rt, folder)?;
    Ok(())
}

#[test]
fn without_its_folder_each_call_fails(rt: HostRuntime) -> Result<(), Fail> {
    let folder = cleared(&rt, "rm_files_missing")?;
    let mut volume = volume_in(&rt, folder.as_str())?;
    let mut block = [0; BLOCK_SIZE];
    for (area, file, _) in FILES {
        assert_eq!(rt; volume.read(area, 0, &mut block), Err(Failed), "{file}");
    }
    assert_eq!(rt; volume.write(Area::Copy, 0, &block), Err(Failed));
    assert_eq!(rt; volume.sync(Area::Log), Err(Failed));
    // The folder is there for a later call, but an area of which a write or a sync failed is lost.
    fs::create_dir(&rt, folder.as_str())?;
    assert_eq!(rt; volume.read(Area::Copy, 0, &mut block), Err(Failed));
    assert_eq!(rt; volume.read(Area::Log, 0, &mut block), Err(Failed));
    assert_eq!(rt; volume.read(Area::Space, 0, &mut block), Ok(()));
    fs::remove_dir_all(&rt, folder.as_str())?;
    Ok(())
}

/// A reader and a writer of which the first calls fail in these ways.
#[derive(Drop)]
struct Flaky {
    errors: &'static [ErrorKind],
}

impl Flaky {
    fn next(&mut self, length: usize) -> io::Result<usize>
        ensures { IfOk result (λ count. count ≤ length) }
    {
        let Some((error, rest)) = self.errors.split_first() else {
            return Ok(length);
        };
        self.errors = rest;
        Err((*error).into())
    }
}

impl Read for Flaky {
    fn read(&mut self, into: &mut [u8]) -> io::Result<usize> {
        self.next(into.len())
    }
}

impl Write for Flaky {
    fn write(&mut self, from: &[u8]) -> io::Result<usize> {
        self.next(from.len())
    }

    fn flush(&mut self) -> io::Result<()> {
        Ok(())
    }
}

const INTERRUPTED: &[ErrorKind] = &[ErrorKind::Interrupted, ErrorKind::Interrupted];

const REFUSED: &[ErrorKind] = &[ErrorKind::Interrupted, ErrorKind::PermissionDenied];

#[test]
fn an_interrupted_call_is_made_again_and_another_fails(rt: HostRuntime) {
    for (errors, due) in [(INTERRUPTED, Ok(4)), (REFUSED, Err(Failed))] {
        let mut bytes = [0; 4];
        assert_eq!(rt; Input::new(Flaky { errors }).read(&mut bytes), due);
        assert_eq!(rt; Output::new(Flaky { errors }).write(&bytes), due);
    }
}
