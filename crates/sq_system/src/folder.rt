// The folder of the system.
ghost use Rattle.std.specs.Prelude.{◌≡◌, ◌++◌, Option, IsSome, IsSomeAnd, IfOk, IfSome, OnOk, take};
ghost use Rattle.sq_outside.specs.Folders.{Files, file};

use sq_outside::{Folder, FolderErr, Pairs};
use std::alloc::Global;
use std::io;
use std::io::{ErrorKind, Read};

/// What opens files by their names.
pub trait Opens {
    /// The bytes of each file, where they are told.
    ghost held: { Self → Option Files };

    /// What gives a file's bytes, from the first on.
    type Source: Read + Drop;

    /// Opens the file of this name.
    fn open(&self, name: &str) -> io::Result<Self::Source>
        ensures { IfOk result (λ source. IfSome (held self.now) (λ told. IsSome (file told name.now)
            × (Self.Source.remaining source ≡ file told name.now))) };
}

/// The files that an opener opens, each read from its first byte on. It tells them where the opener does.
#[derive(Drop)]
pub struct OpenFolder<'a, O> {
    opener: &'a O,
    pub read: Pairs,
    pub taken: u64,
    pub faults: u64,
}

impl<'a, O: Opens> OpenFolder<'a, O> {
    ghost use Rattle.std.specs.Prelude.{[]};

    /// A folder without faults, of which nothing was read.
    pub fn new(opener: &'a O) -> OpenFolder<'a, O>
        ensures { result.read.all ≡ [] }
    {
        OpenFolder {
            opener,
            read: Pairs::new(),
            taken: 0,
            faults: 0,
        }
    }

    // Appends a file's first bytes, `most` of them where it has as many.
    fn append_first(&self, name: &str, most: u64, bytes: &mut Vec<u8>) -> io::Result<()>
        ensures { OnOk result (IfSome (O.held self.now.opener.now) (λ told. IsSomeAnd (file told name.now)
            (λ whole. bytes.new.items ≡ bytes.old.items ++ take most whole))) }
    {
        let source = self.opener.open(name)?;
        source.take(most).read_to_end(bytes)?;
        Ok(())
    }
}

impl<'a, O: Opens> Folder for OpenFolder<'a, O> {
    ghost files = { λ s. O.held s.opener.now };

    ghost read = { λ s. s.read.all };

    ghost taken = { λ s. s.taken };

    ghost faults = { λ s. s.faults };

    fn read_whole(&mut self, alloc: Global, name: &str, limit: u64) -> Result<Vec<u8>, FolderErr> {
        let mut bytes = Vec::new(alloc);
        // One byte past the limit shows that a file is too long.
        let end = self.append_first(name, limit.saturating_add(1), &mut bytes);
        let length = bytes.len() as u64;
        self.taken = self.taken.saturating_add(length);
        match end {
            Ok(()) if length <= limit => {
                self.read.note(name.as_bytes(), bytes.as_slice());
                Ok(bytes)
            }
            Ok(()) => Err(FolderErr::TooLong),
            Err(e) if e.kind() == ErrorKind::OutOfMemory => Err(FolderErr::Memory),
            Err(_) => {
                self.faults = self.faults.saturating_add(1);
                Err(FolderErr::Failed)
            }
        }
    }
}
