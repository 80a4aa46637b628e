// A page brought into a frame and tested.
ghost use Rattle.std.specs.Prelude.{◌≡◌, ◌≤◌, List, ℕ, Some, OnOk, IfErr, IsTrue};
ghost use Rattle.sq_outside.specs.Disks.{Honest};
ghost use Rattle.sq_outside.specs.Faults.{Rose};
ghost use Rattle.sq_pool.specs.Pools.{Agree, bytes_in, is_held};
ghost use Rattle.sq_pool.specs.Trust.{IsLater, Tells, known};
ghost use Rattle.sq_bring.specs.Bringing.{page_seen, FitsKept, IsFit, Brought, of_pool, IsMisfit, IsCause, IsTold, NoMisfit, WereIn};

use sq_outside::PageDisk;
use sq_page::fits;
use sq_pool::{Digest, Pool, PoolErr};
use std::alloc::{AllocError, Global};

/// Why a page wasn't brought, and so why an item was neither pushed nor popped above.
#[derive(Drop)]
pub enum QueueErr {
    /// The disk had a fault.
    Disk,
    /// The bytes of a page that came back aren't those that were put.
    Garbled {
        page: u64,
        kept: Digest,
        got: Digest,
    },
    /// The bytes of a page that came back aren't the page that the queue keeps.
    NotAPage {
        page: u64,
        bytes: Vec<u8>,
    },
    /// Memory ran out.
    Memory,
}

impl From<AllocError> for QueueErr {
    ghost use Rattle.std.specs.Prelude.{◌≡◌};
    ghost use Rattle.sq_bring.specs.declared.bring.QueueErr.{QueueErr};
    ghost use Rattle.sq_bring.specs.declared.bring.QueueErr.TheVariants as error;

    ghost from_gives = { λ _ e. e ≡ error.Memory };

    fn from(_e: AllocError) -> QueueErr {
        QueueErr::Memory
    }
}

/// What is kept of a page: where its first item that isn't taken begins, how many there are from there on, where they
/// end, and the time of the first.
#[derive(Clone, Copy, Drop)]
pub struct Kept {
    pub page: u64,
    pub start: u32,
    pub count: u16,
    pub end: u32,
    pub time: u64,
}

/// The error of a queue for that of its pool.
pub fn failed(e: PoolErr) -> QueueErr
    ensures { result ≡ of_pool e }
{
    match e {
        PoolErr::Disk => QueueErr::Disk,
        PoolErr::Garbled { page, kept, got } => QueueErr::Garbled { page, kept, got },
        PoolErr::Memory => QueueErr::Memory,
    }
}

// Bytes that came back against what is kept of their page.
fn test_page(alloc: Global, bytes: &[u8], kept: &Kept) -> Result<(), QueueErr>
    ensures ok { OnOk result (FitsKept bytes.now kept.now) }
    ensures cause { IfErr result (λ e. IsMisfit bytes.now kept.now e) }
    ensures told { IfErr result (λ e. FitsKept bytes.now kept.now → IsTold e) }
{
    if fits(bytes, kept.start, kept.count, kept.end) {
        return Ok(());
    }
    match Vec::from_slice(alloc, bytes) {
        Ok(bytes) => Err(QueueErr::NotAPage {
            page: kept.page,
            bytes,
        }),
        Err(_) => Err(QueueErr::Memory),
    }
}

/// A page is in a frame, and fits what is kept of it.
pub fn bring_page<D: PageDisk>(
    alloc: Global,
    pool: &mut Pool,
    disk: &mut D,
    kept: &Kept,
) -> Result<(), QueueErr>
    requires held { IsTrue (is_held pool.old kept.now.page) }
    requires agree { Agree pool.old (known (D.log disk.old)) }
    requires fits { IsFit (page_seen pool.old (known (D.log disk.old)) kept.now.page) kept.now }
    ensures ok { OnOk result (Brought pool.old (known (D.log disk.old)) pool.new (known (D.log disk.new)) kept.now) }
    ensures had { OnOk result ((bytes : List ℕ) → bytes_in kept.now.page pool.new.resident ≡ Some bytes
        → WereIn pool.old (D.log disk.old) (D.log disk.new) kept.now.page bytes) }

    // Each refusal.
    ensures disk { IfErr result (λ e. e ≡ QueueErr.Disk → Rose (D.faults disk.old) (D.faults disk.new)) }
    ensures cause { IfErr result (λ e. IsCause pool.old pool.new (D.log disk.old) (D.log disk.new) kept.now e) }
    ensures honest { IfErr result (λ e. Honest (D.log disk.old) → IsTold e) }
    ensures misfit { IfErr result (λ e. Tells (known (D.log disk.new)) → NoMisfit e) }
    ensures later { IsLater (D.log disk.old) (D.log disk.new) }
    ensures faults { D.faults disk.old ≤ D.faults disk.new }
{
    let there = pool.is_resident(kept.page);
    match pool.bring(disk, kept.page) {
        Ok(()) => {}
        Err(e) => return Err(failed(e)),
    }
    if there {
        return Ok(());
    }
    test_page(alloc, pool.page(kept.page), kept)
}
