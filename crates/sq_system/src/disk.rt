// The disk of the system.
ghost use Rattle.std.specs.Prelude.{◌≡◌, ◌*◌, ◌≤◌, IfOk, OnOk, List, Option, length, ℕ};
ghost use Rattle.sq_outside.specs.Disks.{nothing_put};
ghost use Rattle.sq_outside.specs.Faults.{Rose};
ghost use Rattle.sq_system.specs.ByteFiles.{HoldsAt, KeepsTheRest};

use sq_outside::{Failed, PAGE, PageDisk, PageLog};
use std::io;
use std::io::ErrorKind;
use std::marker::Model;

/// A file of bytes.
pub trait ByteFile {
    /// All that it holds, where it is told.
    ghost held: { Self → Option (List ℕ) };

    /// Writes all of the bytes at a place. After an `Err` nothing is known of what stands there.
    fn write_all_at(&mut self, bytes: &[u8], at: u64) -> io::Result<()>
        ensures ok { OnOk result (HoldsAt (held self.new) at bytes.now) }
        ensures keeps { KeepsTheRest (held self.old) (held self.new) at (length bytes.now) };

    /// Reads as many bytes at a place as there is room for.
    fn read_exact_at(&self, into: &mut [u8], at: u64) -> io::Result<()>
        ensures { OnOk result (HoldsAt (held self.now) at into.new) };
}

/// Pages in a file: page n stands at byte n * 8192. It tells what was put and what came, and promises that a page gives
/// back what was put where the file tells what it holds.
#[derive(Drop)]
pub struct SpillFile<F: ByteFile> {
    file: F,
    log: PageLog,
    pub faults: u64,
}

impl<F: ByteFile> Model for SpillFile<F> {
    ghost use Rattle.sq_system.specs.Spills.{Spilled, AreKept, spilled, spilled_code};

    ghost Value = { Spilled };

    ghost coded = { spilled_code };

    ghost view = { λ a. spilled a.log.all (F.held a.file) a.faults };

    ghost invariant = { λ a. AreKept a.log.all.pages (F.held a.file) };
}

impl<F: ByteFile> SpillFile<F> {
    ghost use Rattle.sq_system.specs.Spills.{spilled};

    /// A disk without faults, which holds no page.
    pub fn new(file: F) -> SpillFile<F>
        ensures { result ≡ spilled nothing_put (F.held file) 0 }
    {
        SpillFile {
            file,
            log: PageLog::new(),
            faults: 0,
        }
    }
}

// Where a page stands, if a file may be that long.
fn place_of(page: u64) -> io::Result<u64>
    ensures { IfOk result (λ at. at ≡ page * PAGE) }
{
    match page.checked_mul(PAGE as u64) {
        Some(at) if at < 1 << 63 => Ok(at),
        _ => Err(ErrorKind::InvalidInput.into()),
    }
}

fn write_page<F: ByteFile>(file: &mut F, page: u64, bytes: &[u8]) -> io::Result<()>
    ensures ok { OnOk result (HoldsAt (F.held file.new) (page * PAGE) bytes.now) }
    ensures keeps { KeepsTheRest (F.held file.old) (F.held file.new) (page * PAGE) (length bytes.now) }
{
    let at = place_of(page)?;
    file.write_all_at(bytes, at)
}

fn read_page<F: ByteFile>(file: &F, page: u64, into: &mut [u8]) -> io::Result<()>
    ensures { OnOk result (HoldsAt (F.held file.now) (page * PAGE) into.new) }
{
    let at = place_of(page)?;
    file.read_exact_at(into, at)
}

impl<F: ByteFile + Drop> PageDisk for SpillFile<F> {
    ghost log = { λ s. s.log };

    ghost faults = { λ s. s.failed };

    fn put(&mut self, page: u64, bytes: &[u8]) -> Result<(), Failed> {
        match write_page(&mut self.file, page, bytes) {
            Ok(()) => {
                self.log.put(page, bytes);
                Ok(())
            }
            Err(_) => {
                self.log.gone(page);
                self.faults = self.faults.saturating_add(1);
                Err(Failed)
            }
        }
    }

    fn get(&mut self, page: u64, into: &mut [u8]) -> Result<(), Failed> {
        match read_page(&self.file, page, into) {
            Ok(()) => {
                self.log.came(page, into);
                Ok(())
            }
            Err(_) => {
                self.faults = self.faults.saturating_add(1);
                Err(Failed)
            }
        }
    }

    // Its place is free for the next page of this number; the file keeps its length.
    fn give_up(&mut self, page: u64) -> Result<(), Failed> {
        self.log.gone(page);
        Ok(())
    }
}
