// The files of the host, which tell nothing of what they hold: each call here is to be read and trusted.
ghost use Rattle.std.specs.Prelude.{None};

use crate::disk::ByteFile;
use crate::folder::Opens;
use std::alloc::AllocError;
use std::fs::{File, OpenOptions};
use std::io::ErrorKind;
use std::os::unix::fs::{FileExt, OpenOptionsExt};
use std::{fs, io};

impl Opens for HostRuntime {
    ghost held = { λ _. None };

    type Source = File;

    fn open(&self, name: &str) -> io::Result<File> {
        File::open(self, name)
    }
}

/// Takes the descriptors of those standard streams that whoever called the program has closed, so that no file that is opened
/// later gets one of them, and with it the lines of a run. Their place is taken by the root folder, opened for reading: each
/// write to it fails, and so does each read. To be called before any file is opened, and to be kept for the whole run.
pub fn take_closed_streams(rt: &HostRuntime) -> [io::Result<File>; 3] {
    // A new file gets the lowest descriptor that is free; a call that finds all three taken gets one that is of no use.
    [
        File::open(rt, "/"),
        File::open(rt, "/"),
        File::open(rt, "/"),
    ]
}

/// A file that is made at the first write, in the working folder and for this user alone, under the first name that is free
/// of `aurora.spill`, `aurora.spill.1` and so on. It loses its name at once, so that nothing of it is left at the end,
/// however a run ends. What stands at a name that isn't free isn't touched.
#[derive(Drop)]
pub struct NamelessFile<'a> {
    rt: &'a HostRuntime,
    file: Option<File>,
}

impl<'a> NamelessFile<'a> {
    /// One that isn't made yet.
    pub fn new(rt: &'a HostRuntime) -> NamelessFile<'a> {
        NamelessFile { rt, file: None }
    }
}

impl<'a> ByteFile for NamelessFile<'a> {
    ghost held = { λ _. None };

    fn write_all_at(&mut self, bytes: &[u8], at: u64) -> io::Result<()> {
        made(self.rt, &mut self.file)?.write_all_at(bytes, at)
    }

    fn read_exact_at(&self, into: &mut [u8], at: u64) -> io::Result<()> {
        found(&self.file)?.read_exact_at(into, at)
    }
}

// The file, which is made where there is none.
fn made<'a>(rt: &HostRuntime, file: &'a mut Option<File>) -> io::Result<&'a File> {
    if file.is_none() {
        *file = Some(nameless_file(rt)?);
    }
    found(file)
}

fn found(file: &Option<File>) -> io::Result<&File> {
    match file {
        Some(file) => Ok(file),
        None => Err(ErrorKind::NotFound.into()),
    }
}

/// How many names are tried for a file.
const NAMES: u32 = 1000;

// A new file without a name, made under the first name that is free.
fn nameless_file(rt: &HostRuntime) -> io::Result<File> {
    for number in 0..NAMES {
        let Ok(name) = spill_name(rt, number) else {
            return Err(ErrorKind::OutOfMemory.into());
        };
        match unnamed_file(rt, name.as_str()) {
            Err(e) if e.kind() == ErrorKind::AlreadyExists => {}
            end => return end,
        }
    }
    Err(ErrorKind::AlreadyExists.into())
}

// The names that are tried, by number.
fn spill_name(rt: &HostRuntime, number: u32) -> Result<String, AllocError> {
    match number {
        0 => format!(in rt.alloc(); "aurora.spill"),
        _ => format!(in rt.alloc(); "aurora.spill.{number}"),
    }
}

// A new file, which loses this name at once.
fn unnamed_file(rt: &HostRuntime, name: &str) -> io::Result<File> {
    let file = OpenOptions::new()
        .read(true)
        .write(true)
        .create_new(true)
        .mode(0o600)
        .open(rt, name)?;
    fs::remove_file(rt, name)?;
    Ok(file)
}
