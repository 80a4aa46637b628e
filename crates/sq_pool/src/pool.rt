// Pages in frames, and the others on a disk.
ghost use Rattle.std.specs.Prelude.{◌≡◌, ◌<◌, ◌↔◌, IsTrue, length};
ghost use Rattle.sha2.specs.Sha256.{sha256};
ghost use Rattle.sq_pool.specs.Pools.{zeros};

use crate::frames::Frames;
use crate::slots::{Digest, Slots, Whereabouts};
use sha2::Sha256;
use sq_outside::PageDisk;
use std::alloc::{AllocError, Global};
use std::marker::Model;

/// Why a pool has failed.
#[derive(Debug, Drop)]
pub enum PoolErr {
    /// The disk had a fault.
    Disk,
    /// The bytes of a page that came back aren't those that were put.
    Garbled {
        page: u64,
        kept: Digest,
        got: Digest,
    },
    /// Memory ran out.
    Memory,
}

/// Pages of 8192 bytes: some in a number of frames, the others on a disk. After an `Err` the pool has failed, and no call
/// is to follow.
pub struct Pool {
    slots: Slots,
    frames: Frames,
    resident: u32,
}

/// By hand, so that a proof above meets one call where a pool is let go, and not each thing in it.
impl Drop for Pool {
    fn drop(self) {
        let Pool {
            slots: _slots,
            frames: _frames,
            resident: _resident,
        } = self;
    }
}

impl Model for Pool {
    ghost use Rattle.std.specs.Prelude.{◌≡◌, ◌<◌, ◌≤◌, ◌^◌, length};
    ghost use Rattle.sq_pool.specs.Pools.{Pooled, pooled_code, pooled};

    ghost Value = { Pooled };

    ghost coded = { pooled_code };

    ghost view = { λ a. pooled a.slots a.frames };

    ghost invariant = { λ a. (length a.frames ≡ a.slots.frames) × (a.resident ≡ length a.slots.order) × (2 ≤ a.slots.frames) × (a.slots.frames < 2 ^ 32) };
}

fn digest_of(bytes: &[u8]) -> Digest
    ensures { result.0 ≡ sha256 bytes.now }
{
    let digest: [u8; 32] = <Sha256 as sha2::Digest>::digest(bytes);
    Digest(digest)
}

fn are_same(one: &Digest, other: &Digest) -> bool
    ensures { IsTrue result ↔ (one.now.0 ≡ other.now.0) }
{
    one.0.as_slice() == other.0.as_slice()
}

fn clear(bytes: &mut [u8])
    requires { length bytes.old ≡ 8192 }
    ensures { bytes.new ≡ zeros }
{
    bytes.fill(0);
}

impl Pool {
    ghost use Rattle.std.specs.Prelude.{◌≡◌, ℕ, ◌<◌, ◌≤◌, ◌+◌, if◌then◌else◌, IfOk, OnOk, IfErr, IfSome, IsSome, is_some, IsTrue, None, Some, Option, List, length, ◌⊎◌, []};
    ghost use Rattle.sq_pool.specs.Pools.{Agree, Spills, HasFrameLeft, is_held, bytes_in, loaded, Fetches, Keeps, Makes, Drops, IsLast, Brings, IsMade, IsNumbered, LetsGo};
    ghost use Rattle.sq_pool.specs.Errors.{ComesBack, IsGarbling};
    ghost use Rattle.sq_pool.specs.Slots.{digest_at};
    ghost use Rattle.sq_outside.specs.Faults.{Rose};
    ghost use Rattle.sq_outside.specs.Disks.{after_give_up, Honest, Pages};
    ghost use Rattle.sq_pool.specs.Trust.{known, IsLater};
    ghost use Rattle.std.specs.Borrow.{sem};
    ghost use Rattle.sq_pool.specs.Lends.{LendsPage};

    /// No page, and so many frames of 8192 bytes, at least two.
    pub fn new(alloc: Global, frames: u32) -> Result<Pool, AllocError>
        requires { 2 ≤ frames }
        ensures pool { IfOk result (λ pool. pool ≡ record { resident = []; kept = []; frames = frames }) }
        ensures agree { IfOk result (λ pool. (told : Option Pages) → Agree pool told) }
    {
        Ok(Pool {
            slots: Slots::new(alloc, frames)?,
            frames: Frames::new(alloc, frames as usize)?,
            resident: 0,
        })
    }

    /// How many pages are in frames.
    pub fn resident(&self) -> u32
        ensures value { result ≡ length self.now.resident }
        ensures most { result ≤ self.now.frames }
    {
        self.slots.sound();
        self.resident
    }

    /// Whether there is a page of this number, in a frame or on the disk.
    pub fn holds(&self, page: u64) -> bool
        ensures { result ≡ is_held self.now page }
    {
        self.slots.sound();
        if !self.slots.knows(page) {
            return false;
        }
        match self.slots.place(page) {
            Whereabouts::Resident(_) => true,
            Whereabouts::Spilled(_) => true,
            Whereabouts::Absent => false,
        }
    }

    // Puts the page of longest disuse on the disk.
    fn spill<D: PageDisk>(&mut self, disk: &mut D) -> Result<(), PoolErr>
        requires { 0 < length self.old.resident }
        ensures ok { OnOk result (Spills self.old (known (D.log disk.old)) self.new (known (D.log disk.new))) }
        ensures room { OnOk result (length self.new.resident + 1 ≡ length self.old.resident) }
        ensures disk { IfErr result (λ e. (e ≡ PoolErr.Disk) × Rose (D.faults disk.old) (D.faults disk.new)) }
        ensures faults { D.faults disk.old ≤ D.faults disk.new }
        ensures later { IsLater (D.log disk.old) (D.log disk.new) }
    {
        self.slots.sound();
        let Some((page, frame)) = self.slots.oldest() else {
            return Ok(());
        };
        let bytes = self.frames.frame(frame as usize);
        let digest = digest_of(bytes);
        match disk.put(page, bytes) {
            Ok(()) => {
                self.slots
                    .release(page, frame, Whereabouts::Spilled(digest));
                self.resident -= 1;
                Ok(())
            }
            Err(_) => Err(PoolErr::Disk),
        }
    }

    // Makes a frame free, where none is.
    fn make_room<D: PageDisk>(&mut self, disk: &mut D) -> Result<(), PoolErr>
        requires { 0 < self.old.frames }
        ensures ok { OnOk result (HasFrameLeft self.old (known (D.log disk.old)) self.new (known (D.log disk.new))) }
        ensures disk { IfErr result (λ e. (e ≡ PoolErr.Disk) × Rose (D.faults disk.old) (D.faults disk.new)) }
        ensures faults { D.faults disk.old ≤ D.faults disk.new }
        ensures later { IsLater (D.log disk.old) (D.log disk.new) }
    {
        self.slots.sound();
        if self.resident as usize == self.frames.count() {
            self.spill(disk)
        } else {
            Ok(())
        }
    }

    /// Whether a page is in a frame.
    pub fn is_resident(&self, page: u64) -> bool
        requires { IsTrue (is_held self.now page) }
        ensures { result ≡ is_some (bytes_in page self.now.resident) }
    {
        self.slots.sound();
        match self.slots.place(page) {
            Whereabouts::Resident(_) => true,
            Whereabouts::Absent => false,
            Whereabouts::Spilled(_) => false,
        }
    }

    /// The 8192 bytes of a page that is in a frame.
    pub fn page(&self, page: u64) -> &[u8]
        requires { IsSome (bytes_in page self.now.resident) }
        ensures value { bytes_in page self.now.resident ≡ Some result.now }
        ensures whole { length result.now ≡ 8192 }
    {
        self.slots.sound();
        let frame = self.slots.frame(page);
        self.frames.frame(frame as usize)
    }

    /// The same, to be written.
    pub fn page_mut(&mut self, page: u64) -> &mut [u8]
        requires { IsSome (bytes_in page self.old.resident) }
        ensures* writes_back { sem 𝓛 (LendsPage self.entry page result) }
        ensures value { bytes_in page self.old.resident ≡ Some result.now }
        ensures whole { length result.now ≡ 8192 }
    {
        self.slots.sound();
        let frame = self.slots.frame(page);
        self.frames.frame_mut(frame as usize)
    }

    // Puts a page into a free frame, with whatever bytes stand there.
    fn open_frame(&mut self, page: u64)
        requires page { page < length self.old.kept }
        requires out { bytes_in page self.old.resident ≡ None }
        requires room { length self.old.resident < self.old.frames }
        ensures { (bytes : List ℕ) × (self.new ≡ loaded self.old page bytes) }
    {
        self.slots.sound();
        self.slots.occupy(page);
        self.resident += 1;
    }

    // Takes a page back of the disk.
    fn fetch<D: PageDisk>(&mut self, disk: &mut D, page: u64, kept: Digest) -> Result<(), PoolErr>
        requires frames { 0 < self.old.frames }
        requires kept { digest_at self.old.kept page ≡ Some kept.0 }
        requires out { bytes_in page self.old.resident ≡ None }
        requires agree { Agree self.old (known (D.log disk.old)) }
        ensures ok { OnOk result (Fetches self.old (known (D.log disk.old)) self.new (known (D.log disk.new)) page kept.0) }
        ensures came { OnOk result (ComesBack self.old self.new (D.log disk.old) (D.log disk.new) page) }
        ensures disk { IfErr result (λ e. e ≡ PoolErr.Disk → Rose (D.faults disk.old) (D.faults disk.new)) }
        ensures garbled { IfErr result (λ e. IsGarbling self.old self.new (D.log disk.old) (D.log disk.new) page e) }
        ensures honest { IfErr result (λ e. Honest (D.log disk.old) → e ≡ PoolErr.Disk) }
        ensures faults { D.faults disk.old ≤ D.faults disk.new }
        ensures later { IsLater (D.log disk.old) (D.log disk.new) }
    {
        self.make_room(disk)?;
        self.open_frame(page);
        let Ok(()) = disk.get(page, self.page_mut(page)) else {
            return Err(PoolErr::Disk);
        };
        let got = digest_of(self.page(page));
        if !are_same(&kept, &got) {
            return Err(PoolErr::Garbled { page, kept, got });
        }
        Ok(())
    }

    /// The page is in a frame and was used last; the map stays. It fails by a fault of the disk, or where a page came back
    /// garbled, which none does of an honest disk.
    pub fn bring<D: PageDisk>(&mut self, disk: &mut D, page: u64) -> Result<(), PoolErr>
        requires held { IsTrue (is_held self.old page) }
        requires agree { Agree self.old (known (D.log disk.old)) }
        ensures pool { OnOk result (Brings self.old (known (D.log disk.old)) self.new (known (D.log disk.new)) page) }
        ensures map { OnOk result (Keeps self.old (known (D.log disk.old)) self.new (known (D.log disk.new))) }
        ensures last { OnOk result (IsLast page self.new) }
        ensures agree { OnOk result (Agree self.new (known (D.log disk.new))) }
        ensures frames { OnOk result (self.new.frames ≡ self.old.frames) }
        ensures came { OnOk result (bytes_in page self.old.resident ≡ None → ComesBack self.old self.new (D.log disk.old) (D.log disk.new) page) }

        // Each refusal.
        ensures disk { IfErr result (λ e. e ≡ PoolErr.Disk → Rose (D.faults disk.old) (D.faults disk.new)) }
        ensures garbled { IfErr result (λ e. IsGarbling self.old self.new (D.log disk.old) (D.log disk.new) page e) }
        ensures honest { IfErr result (λ e. Honest (D.log disk.old) → e ≡ PoolErr.Disk) }
        ensures faults { D.faults disk.old ≤ D.faults disk.new }
        ensures later { IsLater (D.log disk.old) (D.log disk.new) }
    {
        self.slots.sound();
        match self.slots.place(page) {
            Whereabouts::Resident(frame) => {
                self.slots.touch(page, frame);
                Ok(())
            }
            Whereabouts::Spilled(kept) => {
                self.fetch(disk, page, kept)?;
                Ok(())
            }
            Whereabouts::Absent => Ok(()),
        }
    }

    /// The number of a new page of zeros, which is in a frame and was used last. It fails by a fault of the disk, or want
    /// of memory.
    pub fn make<D: PageDisk>(&mut self, disk: &mut D) -> Result<u64, PoolErr>
        requires agree { Agree self.old (known (D.log disk.old)) }
        ensures pool { IfOk result (λ page. IsMade self.old (known (D.log disk.old)) self.new (known (D.log disk.new)) page) }
        ensures map { IfOk result (λ page. Makes self.old (known (D.log disk.old)) self.new (known (D.log disk.new)) page) }
        ensures last { IfOk result (λ page. IsLast page self.new) }
        ensures agree { OnOk result (Agree self.new (known (D.log disk.new))) }
        ensures frames { OnOk result (self.new.frames ≡ self.old.frames) }

        // Each refusal.
        ensures disk { IfErr result (λ e. e ≡ PoolErr.Disk → Rose (D.faults disk.old) (D.faults disk.new)) }
        ensures plain { IfErr result (λ e. (e ≡ PoolErr.Disk) ⊎ (e ≡ PoolErr.Memory)) }
        ensures faults { D.faults disk.old ≤ D.faults disk.new }
        ensures later { IsLater (D.log disk.old) (D.log disk.new) }
    {
        self.slots.sound();
        let page = self.new_number()?;
        self.make_room(disk)?;
        self.open_frame(page);
        clear(self.page_mut(page));
        Ok(page)
    }

    /// The page leaves the map, and one that is in no frame leaves the disk. It fails by a fault of the disk.
    pub fn drop_page<D: PageDisk>(&mut self, disk: &mut D, page: u64) -> Result<(), PoolErr>
        requires held { IsTrue (is_held self.old page) }
        requires agree { Agree self.old (known (D.log disk.old)) }
        ensures pool { OnOk result (LetsGo self.old self.new page) }
        ensures map { OnOk result (Drops self.old (known (D.log disk.old)) self.new (known (D.log disk.new)) page) }
        ensures agree { OnOk result (Agree self.new (known (D.log disk.new))) }
        ensures disk_after { OnOk result (D.log disk.new ≡ (if is_some (bytes_in page self.old.resident) then D.log disk.old else after_give_up (D.log disk.old) page)) }
        ensures frames { OnOk result (self.new.frames ≡ self.old.frames) }

        // Each refusal.
        ensures disk { IfErr result (λ e. (e ≡ PoolErr.Disk) × Rose (D.faults disk.old) (D.faults disk.new)) }
        ensures faults { D.faults disk.old ≤ D.faults disk.new }
        ensures later { IsLater (D.log disk.old) (D.log disk.new) }
    {
        self.slots.sound();
        match self.slots.place(page) {
            Whereabouts::Resident(frame) => {
                self.slots.release(page, frame, Whereabouts::Absent);
                self.slots.give_number(page);
                self.resident -= 1;
                Ok(())
            }
            Whereabouts::Spilled(_) => match disk.give_up(page) {
                Ok(()) => {
                    self.slots.forget(page);
                    Ok(())
                }
                Err(_) => Err(PoolErr::Disk),
            },
            Whereabouts::Absent => Ok(()),
        }
    }

    // A number that no page has.
    fn new_number(&mut self) -> Result<u64, PoolErr>
        ensures page { IfOk result (λ page. page < length self.new.kept) }
        ensures numbers { OnOk result (IsNumbered self.old self.new) }
        ensures out { IfOk result (λ page. bytes_in page self.old.resident ≡ None) }
        ensures gone { IfOk result (λ page. digest_at self.old.kept page ≡ None) }
        ensures err { IfErr result (λ e. e ≡ PoolErr.Memory) }
    {
        let Ok(page) = self.slots.take_number() else {
            return Err(PoolErr::Memory);
        };
        Ok(page)
    }
}
