//! Feeds: what is read in pieces, as it comes, and may still go on. They stand beside the folder, the disk and the sinks of
//! `sq_outside` and keep its habits: a call fails only where the count of faults rose, and what feeds hold is told or untold.
//!
//! Feeds are one object, which numbers them as they are opened. It tells of each what was read of it, piece by piece, and
//! whether it came to its end, in lists that no memory holds. Where it tells the files too, what was read of a feed
//! begins its file. The form in memory tells them, cuts what it gives where it is told to, and fails at the calls that
//! it is told; the form over the system's files is in `sq_system`. Above `sq_outside`, and no part of it, so that only what reads in
//! pieces stands on it.
#![tactic(auto)]

ghost use Rattle.std.specs.Prelude.{◌≡◌, ◌⊎◌, ◌++◌, ◌∷◌, ◌<◌, ◌≤◌, [], ℕ, Err, List, None, Option, length, take, IfOk, IfSome, IsSomeAnd, OnOk, OnErr};
ghost use Rattle.sq_outside.specs.Faults.{Rose};
ghost use Rattle.sq_outside.specs.Folders.{Files, file};
ghost use Rattle.sq_feeds.specs.Feeds.{FeedLog, IsGoing, AreReadOf, after_read, new_feed};

mod calls;
mod mem_feeds;

pub use mem_feeds::MemFeeds;
use sq_outside::Failed;
use std::alloc::Global;

/// Why a feed wasn't opened.
#[derive(Clone, Copy, PartialEq, Eq)]
pub enum FeedErr {
    /// There was a fault, which the count says, or there is no such feed.
    Failed,
    /// Memory ran out.
    Memory,
}

/// Feeds that are read in pieces: files, pipes and whatever else is opened by a name. They are numbered from 0, as they are
/// opened.
pub trait Feeds {
    /// The bytes that the feed of each name gives until its end, where they are told.
    ghost files: { Self → Option Files };

    /// What went through each feed that was opened, in order.
    ghost logs: { Self → List FeedLog };

    /// How many calls had a fault.
    ghost faults: { Self → ℕ };

    /// Opens one more feed.
    fn open(&mut self, alloc: Global, name: &str) -> Result<(), FeedErr>
        ensures opens { OnOk result (logs self.new ≡ logs self.old ++ new_feed name.now ∷ []) }
        ensures refuses { OnErr result (logs self.new ≡ logs self.old) }
        ensures failed { result ≡ Err FeedErr.Failed → Rose (faults self.old) (faults self.new)
            ⊎ IsSomeAnd (files self.old) (λ told. file told name.now ≡ None) }
        ensures no_fault { OnOk result (faults self.new ≡ faults self.old) }
        ensures whole { IfSome (files self.new) (λ told. AreReadOf told (logs self.new)) }
        ensures files { files self.new ≡ files self.old }
        ensures faults { faults self.old ≤ faults self.new };

    /// Reads the next bytes of a feed, as many as are there and there is room for, and says how many. None are its end.
    fn read(&mut self, feed: usize, into: &mut [u8]) -> Result<usize, Failed>
        requires going { IsGoing (logs self.old) feed }
        requires room { 0 < length into.old }
        ensures count { IfOk result (λ n. n ≤ length into.new) }
        ensures ok { IfOk result (λ n. logs self.new ≡ after_read (logs self.old) feed (take n into.new)) }
        ensures err { OnErr result (logs self.new ≡ logs self.old) }
        ensures failed { OnErr result (Rose (faults self.old) (faults self.new)) }
        ensures no_fault { OnOk result (faults self.new ≡ faults self.old) }
        ensures whole { IfSome (files self.new) (λ told. AreReadOf told (logs self.new)) }
        ensures files { files self.new ≡ files self.old }
        ensures faults { faults self.old ≤ faults self.new };
}
