// Feeds in memory.
ghost use Rattle.std.specs.Prelude.{◌≡◌, ◌<◌, ◌≤◌, ◌-◌, Some, drop, false, find, length, max, min, option_map, string_bytes, take, IfOk};
ghost use Rattle.std.specs.Option.{option_copied};
ghost use Rattle.std.specs.Str.{bytes_eq};
ghost use Rattle.sq_outside.specs.Folders.{Files, file};
ghost use Rattle.sq_outside.specs.MemFolders.{files_of};
ghost use Rattle.sq_feeds.specs.Feeds.{new_feed, with_read};
ghost use Rattle.sq_feeds.specs.MemFeeds.{GaveFront, cut_to, feed_log_of};

use crate::calls::FeedCalls;
use crate::{FeedErr, Feeds};
use sq_outside::{Failed, Pieces};
use std::alloc::{AllocError, Global};
use std::collections::VecDeque;
use std::marker::Model;

/// A feed that was opened.
#[derive(Drop)]
struct MemFeed {
    name: String,
    bytes: Vec<u8>,
    at: usize,
    pieces: Pieces,
    ended: bool,
}

/// Feeds in memory, which are cut anywhere, and some of whose calls are to fail. They tell their files.
#[derive(Drop)]
pub struct MemFeeds {
    files: Vec<(String, Vec<u8>)>,
    feeds: Vec<MemFeed>,
    cuts: VecDeque<usize>,
    calls: FeedCalls,
}

impl Model for MemFeeds {
    ghost use Rattle.std.specs.Prelude.{map};
    ghost use Rattle.sq_outside.specs.MemFolders.{files_of};
    ghost use Rattle.sq_feeds.specs.MemFeeds.{FeedMemory, feeds_code};

    ghost Value = { FeedMemory };

    ghost coded = { feeds_code };

    ghost use Rattle.sq_feeds.specs.MemFeeds.{feed_log_of, AllGaveFront};

    ghost view = { λ a. record {
      files = files_of a.files.items;
      logs = map feed_log_of a.feeds.items;
      cuts = a.cuts.items;
      calls = a.calls;
    } };

    ghost invariant = { λ a. AllGaveFront (files_of a.files.items) a.feeds.items };
}

impl MemFeeds {
    ghost use Rattle.std.specs.Prelude.{◌≡◌, []};
    ghost use Rattle.sq_outside.specs.Calls.{no_calls};
    ghost use Rattle.sq_outside.specs.MemFolders.{files_of};

    /// Feeds of these files, none of which is open. Where a name stands twice, the first counts. Each read takes the next
    /// of the `cuts` as the number of bytes that it gives at most, 1 for 0, and behind the last as many as there is
    /// room for. The calls of the numbers `fails`, from 0, fail.
    pub fn new(
        alloc: Global,
        files: Vec<(String, Vec<u8>)>,
        cuts: Vec<usize>,
        fails: Vec<u64>,
    ) -> MemFeeds
        ensures { result ≡ record {
          files = files_of files.items;
          logs = [];
          cuts = cuts.items;
          calls = no_calls fails.items;
        } }
    {
        MemFeeds {
            files,
            feeds: Vec::new(alloc),
            cuts: VecDeque::from_vec(cuts),
            calls: FeedCalls::new(fails),
        }
    }
}

impl Feeds for MemFeeds {
    ghost use Rattle.std.specs.Prelude.{◌≡◌, ◌++◌, ◌∷◌, ◌≤◌, ◌-◌, ◌↔◌, [], Err, None, Some, drop, length, min, take, IfOk, IsErr, IsSomeAnd, OnErr, OnOk};
    ghost use Rattle.sq_outside.specs.Calls.{FailsNext, called, faulted};
    ghost use Rattle.sq_outside.specs.Folders.{file};
    ghost use Rattle.sq_feeds.specs.Feeds.{AreReadOf, IsGoing, after_read, feed_at, new_feed, text_read};
    ghost use Rattle.sq_feeds.specs.MemFeeds.{FailsToOpen, cut_to};

    ghost files = { λ f. Some f.files };

    ghost logs = { λ f. f.logs };

    ghost faults = { λ f. f.calls.faults };

    /// Opens one more feed. A file that isn't there is no fault.
    fn open(&mut self, alloc: Global, name: &str) -> Result<(), FeedErr>
        ensures planned { FailsNext self.old.calls → result ≡ Err FeedErr.Failed }
        ensures missing { file self.old.files name.now ≡ None → result ≡ Err FeedErr.Failed }
        ensures ok { OnOk result (self.new ≡ record self.old {
          logs = self.old.logs ++ new_feed name.now ∷ [];
          calls = called self.old.calls;
        }) }
        ensures failed { result ≡ Err FeedErr.Failed → FailsToOpen self.old self.new name.now }
        ensures memory { result ≡ Err FeedErr.Memory →
            self.new ≡ record self.old { calls = called self.old.calls } }
        ensures whole { AreReadOf self.new.files self.new.logs }
        ensures files { self.new.files ≡ self.old.files }
        ensures faults { self.old.calls.faults ≤ self.new.calls.faults }
    {
        if self.calls.call_fails() {
            return Err(FeedErr::Failed);
        }
        let Some(bytes) = bytes_of(&self.files, name) else {
            return Err(FeedErr::Failed);
        };
        let Ok(feed) = copy_feed(alloc, name, bytes) else {
            return Err(FeedErr::Memory);
        };
        match self.feeds.push(feed) {
            Ok(()) => Ok(()),
            Err(_) => Err(FeedErr::Memory),
        }
    }

    /// Reads the next bytes of a feed: as many as the next cut says, there is room for and are left.
    fn read(&mut self, feed: usize, into: &mut [u8]) -> Result<usize, Failed>
        requires going { IsGoing self.old.logs feed }
        requires room { 0 < length into.old }
        ensures count { IfOk result (λ n. IsSomeAnd (file self.old.files (feed_at self.old.logs feed).name)
            (λ bytes. n ≡ min (cut_to self.old.cuts (length into.old))
            (length bytes - length (text_read (feed_at self.old.logs feed))))) }
        ensures within { IfOk result (λ n. n ≤ length into.new) }
        ensures ok { IfOk result (λ n. self.new ≡ record self.old {
          logs = after_read self.old.logs feed (take n into.new);
          cuts = drop 1 self.old.cuts;
          calls = called self.old.calls;
        }) }
        ensures err { OnErr result (self.new ≡ record self.old { calls = faulted self.old.calls }) }
        ensures planned { IsErr result ↔ FailsNext self.old.calls }
        ensures whole { AreReadOf self.new.files self.new.logs }
        ensures faults { self.old.calls.faults ≤ self.new.calls.faults }
    {
        if self.calls.call_fails() {
            return Err(Failed);
        }
        let most = next_cut(&mut self.cuts, into.len());
        Ok(read_feed(&mut self.feeds[feed], most, into))
    }
}

/// The bytes of the file of this name.
fn bytes_of<'a>(files: &'a [(String, Vec<u8>)], name: &str) -> Option<&'a Vec<u8>>
    ensures { option_map (λ bytes. bytes.items) (option_copied result) ≡ file (files_of files.now) name.now }
{
    let (_, bytes) = first_of(files, name)?;
    Some(bytes)
}

/// The first file of this name.
fn first_of<'a>(files: &'a [(String, Vec<u8>)], name: &str) -> Option<&'a (String, Vec<u8>)>
    ensures { option_copied result ≡ find (λ f. bytes_eq (string_bytes f.0) name.now) files.now }
{
    files.iter().find(|(own, _)| own.as_str() == name)
}

/// A feed of these bytes, of which nothing was read.
fn copy_feed(alloc: Global, name: &str, bytes: &[u8]) -> Result<MemFeed, AllocError>
    ensures told { IfOk result (λ f. feed_log_of f ≡ new_feed name.now) }
    ensures gives { IfOk result (λ f. (files : Files) → file files name.now ≡ Some bytes.now → GaveFront files f) }
{
    Ok(MemFeed {
        name: String::from_str(alloc, name)?,
        bytes: Vec::from_slice(alloc, bytes)?,
        at: 0,
        pieces: Pieces::new(),
        ended: false,
    })
}

/// How many bytes a read gives at most.
fn next_cut(cuts: &mut VecDeque<usize>, room: usize) -> usize
    ensures cut { result ≡ cut_to cuts.old.items room }
    ensures rest { cuts.new.items ≡ drop 1 cuts.old.items }
{
    match cuts.pop_front() {
        Some(cut) => cut.max(1).min(room),
        None => room,
    }
}

/// Reads at most so many bytes of a feed.
fn read_feed(feed: &mut MemFeed, most: usize, into: &mut [u8]) -> usize
    requires room { most ≤ length into.old }
    requires some { 0 < most }
    requires within { feed.old.at ≤ length feed.old.bytes.items }
    requires going { feed.old.ended ≡ false }
    ensures count { result ≡ min most (length feed.old.bytes.items - feed.old.at) }
    ensures told { feed_log_of feed.new ≡ with_read (feed_log_of feed.old) (take result into.new) }
    ensures gives { (files : Files) → GaveFront files feed.old → GaveFront files feed.new }
{
    let count = most.min(feed.bytes.len() - feed.at);
    if count == 0 {
        feed.ended = true;
        return 0;
    }
    into[..count].copy_from_slice(&feed.bytes[feed.at..feed.at + count]);
    feed.at += count;
    feed.pieces.note(&into[..count]);
    count
}
