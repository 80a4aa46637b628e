// Which page is in which frame, and the digests of the others.
ghost use Rattle.std.specs.Prelude.{◌≡◌, ◌<◌};

use sq_link::Chains;
use std::alloc::{AllocError, Global};
use std::marker::Model;

/// A SHA-256 of a page.
#[derive(Clone, Copy, Debug, Drop)]
pub struct Digest(pub [u8; 32]);

/// Where the bytes of a page are.
#[derive(Clone, Copy, Drop)]
pub enum Whereabouts {
    /// There is no page of this number.
    Absent,
    /// In a frame.
    Resident(u64),
    /// On the disk, with this digest.
    Spilled(Digest),
}

/// The frames in the order of last use, the page of each, and the place of each page.
#[derive(Drop)]
pub struct Slots {
    chain: Chains,
    owners: Vec<u64>,
    places: Vec<Whereabouts>,
    // Numbers that were given up; one that has a page again by now is passed over.
    unused: Vec<u64>,
}

impl Model for Slots {
    ghost use Rattle.sq_pool.specs.Slots.{Slotted, slotted_code, slotted, AreSlots};

    ghost Value = { Slotted };

    ghost coded = { slotted_code };

    ghost view = { λ a. slotted a.chain a.owners.items a.places.items };

    ghost invariant = { λ a. AreSlots a.chain a.owners.items a.places.items };
}

impl Slots {
    ghost use Rattle.std.specs.Prelude.{◌≡◌, ◌⊎◌, ◌<◌, ◌+◌, IfOk, OnOk, OnErr, IfSome, IsSome, IsTrue, ◌↔◌, None, Some, Option, length, slice_set, slice_get, ◌++◌, ◌∷◌, []};
    ghost use Rattle.sq_pool.specs.Slots.{frame_in, without_page, digest_at, digest_of, frame_of, HasFrame, IsSlotted};

    /// So many free frames, and no page.
    pub fn new(alloc: Global, frames: u32) -> Result<Slots, AllocError>
        ensures { IfOk result (λ s. s ≡ record { order = []; kept = []; frames = frames }) }
    {
        let chain = Chains::new(alloc, 1, u64::from(frames))?;
        let mut owners = Vec::new(alloc);
        owners.resize(frames as usize, 0)?;
        Ok(Slots {
            chain,
            owners,
            places: Vec::new(alloc),
            unused: Vec::new(alloc),
        })
    }

    fn is_absent(&self, page: u64) -> bool
        ensures { IsTrue result → (page < length self.now.kept) × (digest_at self.now.kept page ≡ None)
            × (frame_in page self.now.order ≡ None) }
    {
        if !self.knows(page) {
            return false;
        }
        match self.place(page) {
            Whereabouts::Absent => true,
            Whereabouts::Resident(_) => false,
            Whereabouts::Spilled(_) => false,
        }
    }

    // A number that was given up.
    fn old_number(&mut self) -> Option<u64>
        ensures same { self.new ≡ self.old }
        ensures page { IfSome result (λ page. (page < length self.old.kept) × (digest_at self.old.kept page ≡ None)
            × (frame_in page self.old.order ≡ None)) }
    {
        let page = self.unused.pop()?;
        if self.is_absent(page) {
            Some(page)
        } else {
            None
        }
    }

    // A number that no page has had.
    fn new_number(&mut self) -> Result<u64, AllocError>
        ensures ok { IfOk result (λ page. (page ≡ length self.old.kept)
            × (self.new ≡ record self.old { kept = self.old.kept ++ None ∷ [] })) }
        ensures err { OnErr result (self.new ≡ self.old) }
    {
        let page = self.places.len() as u64;
        self.places.push(Whereabouts::Absent)?;
        Ok(page)
    }

    /// A number of no page: one that was given up, or a new one.
    pub fn take_number(&mut self) -> Result<u64, AllocError>
        ensures page { IfOk result (λ page. page < length self.new.kept) }
        ensures kept { IfOk result (λ page. digest_at self.old.kept page ≡ None) }
        ensures out { IfOk result (λ page. frame_in page self.old.order ≡ None) }
        ensures numbers { OnOk result ((self.new ≡ self.old)
            ⊎ (self.new ≡ record self.old { kept = self.old.kept ++ None ∷ [] })) }
        ensures order { self.new.order ≡ self.old.order }
        ensures frames { self.new.frames ≡ self.old.frames }
    {
        self.sound();
        match self.old_number() {
            Some(page) => Ok(page),
            None => {
                let page = self.new_number()?;
                Ok(page)
            }
        }
    }

    /// Keeps a number for later, where memory suffices.
    pub fn give_number(&mut self, page: u64)
        ensures { self.new ≡ self.old }
    {
        let _ = self.unused.push(page);
    }

    /// Whether a page ever had the number.
    pub fn knows(&self, page: u64) -> bool
        ensures { IsTrue result ↔ (page < length self.now.kept) }
    {
        page < self.places.len() as u64
    }

    /// Where a page is.
    pub fn place(&self, page: u64) -> Whereabouts
        requires { page < length self.now.kept }
        ensures frame { frame_in page self.now.order ≡ frame_of result }
        ensures kept { digest_at self.now.kept page ≡ digest_of result }
    {
        self.places[page as usize]
    }

    /// What holds of all slots. It does nothing.
    pub fn sound(&self)
        ensures { IsSlotted self.now }
    {
        self.chain.one_place_each();
    }

    /// The frame of a page that is in one.
    pub fn frame(&self, page: u64) -> u64
        requires page { page < length self.now.kept }
        requires resident { IsSome (frame_in page self.now.order) }
        ensures { frame_in page self.now.order ≡ Some result }
    {
        match self.place(page) {
            Whereabouts::Resident(frame) => frame,
            _ => 0,
        }
    }

    /// The page that was used last the longest ago, and its frame.
    pub fn oldest(&self) -> Option<(u64, u64)>
        ensures { result ≡ slice_get self.now.order 0 }
    {
        self.chain.one_place_each();
        let frame = self.chain.first(0)?;
        Some((self.owners[frame as usize], frame))
    }

    /// Takes the page out of its frame, which is free then. From now on the page is as the place says, in no frame.
    pub fn release(&mut self, page: u64, frame: u64, place: Whereabouts)
        requires resident { frame_in page self.old.order ≡ Some frame }
        requires place { frame_of place ≡ None }
        ensures { self.new ≡ record self.old {
          order = without_page page self.old.order;
          kept = slice_set self.old.kept page (digest_of place);
        } }
    {
        self.chain.one_place_each();
        self.places[page as usize] = place;
        self.chain.take_out(frame);
        self.chain.give_free(frame);
    }

    /// Forgets a page that is in no frame. Its number may have a page again.
    pub fn forget(&mut self, page: u64)
        requires page { page < length self.old.kept }
        requires out { frame_in page self.old.order ≡ None }
        ensures { self.new ≡ record self.old { kept = slice_set self.old.kept page None } }
    {
        self.places[page as usize] = Whereabouts::Absent;
        let _ = self.unused.push(page);
    }

    /// Puts a page that is in no frame into a free one. It was used last.
    pub fn occupy(&mut self, page: u64) -> u64
        requires page { page < length self.old.kept }
        requires out { frame_in page self.old.order ≡ None }
        requires room { length self.old.order < self.old.frames }
        ensures frame { result < self.old.frames }
        ensures free { ¬ (HasFrame result self.old.order) }
        ensures after { self.new ≡ record self.old {
          order = self.old.order ++ (page, result) ∷ [];
          kept = slice_set self.old.kept page None;
        } }
    {
        self.chain.one_place_each();
        let Some(frame) = self.chain.take_free() else {
            return 0;
        };
        self.owners[frame as usize] = page;
        self.places[page as usize] = Whereabouts::Resident(frame);
        self.chain.push_back(0, frame);
        frame
    }

    /// The page was used last.
    pub fn touch(&mut self, page: u64, frame: u64)
        requires { frame_in page self.old.order ≡ Some frame }
        ensures { self.new ≡ record self.old { order = without_page page self.old.order ++ (page, frame) ∷ [] } }
    {
        self.chain.one_place_each();
        self.chain.take_out(frame);
        self.chain.push_back(0, frame);
    }
}
