//! Why a step failed.

use sq_item::Item;
use sq_pool::Digest;
use sq_queue::QueueErr;
use std::alloc::AllocError;

/// Why a step failed.
#[derive(Drop)]
pub enum RunErr {
    /// The disk had a fault.
    Disk,
    /// A page came back from the disk with another digest than the one that was kept when it was put.
    Garbled {
        page: u64,
        kept: Digest,
        got: Digest,
    },
    /// The bytes of a page that came back aren't the page that the queues keep.
    NotAPage {
        page: u64,
        bytes: Vec<u8>,
    },
    /// The item that came from an arc may not be fed there.
    Strange {
        arc: u32,
        item: Item,
    },
    /// As many marks and tuples were taken as can be counted.
    TooMuch,
    /// Memory ran out.
    Memory,
}

impl From<AllocError> for RunErr {
    ghost use Rattle.std.specs.Prelude.{◌≡◌};
    ghost use Rattle.sq_flow.specs.declared.errors.RunErr.{RunErr};
    ghost use Rattle.sq_flow.specs.declared.errors.RunErr.TheVariants as error;

    ghost from_gives = { λ _ e. e ≡ error.Memory };

    fn from(_e: AllocError) -> RunErr {
        RunErr::Memory
    }
}

impl From<QueueErr> for RunErr {
    ghost use Rattle.std.specs.Prelude.{◌≡◌};
    ghost use Rattle.sq_flow.specs.Causes.{of_queue};

    ghost from_gives = { λ q e. e ≡ of_queue q };

    fn from(e: QueueErr) -> RunErr {
        match e {
            QueueErr::Disk => RunErr::Disk,
            QueueErr::Garbled { page, kept, got } => RunErr::Garbled { page, kept, got },
            QueueErr::NotAPage { page, bytes } => RunErr::NotAPage { page, bytes },
            QueueErr::Memory => RunErr::Memory,
        }
    }
}
