// What went through a disk of pages, which only clauses read.
ghost use Rattle.std.specs.Prelude.{◌≡◌};
ghost use Rattle.std.specs.Borrow.{ftrue};
ghost use Rattle.sq_outside.specs.Disks.{DiskLog, log_code, nothing_put, after_get, after_put, after_give_up};

use std::marker::{Model, PhantomData};

/// What went through a disk that promises nothing of what it gives back. A clause reads it as `all`: the bytes that were
/// put last under each number, and of each page that came back what was put and what came.
///
/// As with `Pieces` no memory holds this, and its functions do nothing at run time. So it binds all that is given a disk
/// which notes what goes through it, and not that disk. The lines that call `put`, `came` and `gone` are to be read.
#[derive(Drop)]
pub struct PageLog {
    marker: PhantomData<u8>,
    pub ghost all: { DiskLog } by { log_code },
}

impl Model for PageLog {
    ghost also_owns = { λ _. ftrue };
}

impl PageLog {
    /// Nothing went through yet.
    pub fn new() -> PageLog
        ensures { result.all ≡ nothing_put }
    {
        PageLog {
            marker: PhantomData,
        }
    }

    /// These bytes were put under the number.
    pub fn put(&mut self, _page: u64, _bytes: &[u8])
        ensures { self.new.all ≡ after_put self.old.all _page _bytes.now }
    {}

    /// These bytes came back under the number.
    pub fn came(&mut self, _page: u64, _bytes: &[u8])
        ensures { self.new.all ≡ after_get self.old.all _page _bytes.now }
    {}

    /// Nothing is known any more of what was put under the number.
    pub fn gone(&mut self, _page: u64)
        ensures { self.new.all ≡ after_give_up self.old.all _page }
    {}
}
