// The feeds of the system.
ghost use Rattle.std.specs.Prelude.{◌≡◌, ◌<◌, ◌≤◌, [], false, length, take, IfOk, IfSome, OnErr};
ghost use Rattle.std.specs.Io.KnownBytes.{ReadConsumes};
ghost use Rattle.sq_outside.specs.Folders.{Files};
ghost use Rattle.sq_feeds.specs.Feeds.{new_feed, with_read};
ghost use Rattle.sq_system.specs.OpenFeeds.{HasLeft, open_log_of};

use crate::folder::Opens;
use sq_feeds::{FeedErr, Feeds};
use sq_outside::{Failed, Pieces};
use std::alloc::Global;
use std::io;
use std::io::{ErrorKind, Read};
use std::marker::Model;

/// A feed that was opened.
#[derive(Drop)]
struct OpenFeed<S> {
    name: String,
    source: S,
    pieces: Pieces,
    ended: bool,
}

/// Feeds that an opener opens by their names, each from its first byte on: files, pipes, terminals. Each is opened once, and
/// each read is one of its source's: it gives what is there, and waits where nothing is there yet. It tells the files
/// where the opener does.
#[derive(Drop)]
pub struct OpenFeeds<'a, O: Opens> {
    opener: &'a O,
    feeds: Vec<OpenFeed<O::Source>>,
    pub faults: u64,
}

impl<'a, O: Opens> Model for OpenFeeds<'a, O> {
    ghost use Rattle.std.specs.Prelude.{map};
    ghost use Rattle.sq_system.specs.OpenFeeds.{OpenedFeeds, opened_code};

    ghost Value = { OpenedFeeds };

    ghost coded = { opened_code };

    ghost use Rattle.sq_system.specs.OpenFeeds.{open_log_of, AllHaveLeft};

    ghost view = { λ a. record {
      files = O.held a.opener.now;
      logs = map open_log_of a.feeds.items;
      failed = a.faults;
    } };

    ghost invariant = { λ a. AllHaveLeft O.Source.remaining (O.held a.opener.now) a.feeds.items };
}

impl<'a, O: Opens> OpenFeeds<'a, O> {
    /// Feeds without faults, none of which is open.
    pub fn new(alloc: Global, opener: &'a O) -> OpenFeeds<'a, O>
        ensures { result ≡ record { files = O.held opener.now; logs = []; failed = 0 } }
    {
        OpenFeeds {
            opener,
            feeds: Vec::new(alloc),
            faults: 0,
        }
    }
}

/// Opens a feed, of which nothing was read.
fn open_feed<O: Opens>(opener: &O, alloc: Global, name: &str) -> io::Result<OpenFeed<O::Source>>
    ensures told { IfOk result (λ f. open_log_of f ≡ new_feed name.now) }
    ensures left { IfOk result (λ f. IfSome (O.held opener.now) (λ files.
        HasLeft files (open_log_of f) (O.Source.remaining f.source))) }
{
    let source = opener.open(name)?;
    let Ok(name) = String::from_str(alloc, name) else {
        return Err(ErrorKind::OutOfMemory.into());
    };
    Ok(OpenFeed {
        name,
        source,
        pieces: Pieces::new(),
        ended: false,
    })
}

/// Reads the next bytes of a feed, and notes them: those that its source gives.
fn read_next<S: Read>(feed: &mut OpenFeed<S>, into: &mut [u8]) -> io::Result<usize>
    requires going { feed.old.ended ≡ false }
    requires room { 0 < length into.old }
    ensures given { ReadConsumes (S.remaining feed.old.source) (S.remaining feed.new.source) result into.new }
    ensures within { IfOk result (λ n. n ≤ length into.new) }
    ensures told { IfOk result (λ n. open_log_of feed.new ≡ with_read (open_log_of feed.old) (take n into.new)) }
    ensures err { OnErr result (open_log_of feed.new ≡ open_log_of feed.old) }
    ensures left { (files : Files) → HasLeft files (open_log_of feed.old) (S.remaining feed.old.source)
        → HasLeft files (open_log_of feed.new) (S.remaining feed.new.source) }
{
    let count = feed.source.read(into)?;
    if count == 0 {
        feed.ended = true;
    } else {
        feed.pieces.note(&into[..count]);
    }
    Ok(count)
}

impl<'a, O: Opens> Feeds for OpenFeeds<'a, O> {
    ghost files = { λ s. s.files };

    ghost logs = { λ s. s.logs };

    ghost faults = { λ s. s.failed };

    fn open(&mut self, alloc: Global, name: &str) -> Result<(), FeedErr> {
        let feed = match open_feed(self.opener, alloc, name) {
            Ok(feed) => feed,
            Err(e) if e.kind() == ErrorKind::OutOfMemory => return Err(FeedErr::Memory),
            Err(_) => {
                self.faults = self.faults.saturating_add(1);
                return Err(FeedErr::Failed);
            }
        };
        match self.feeds.push(feed) {
            Ok(()) => Ok(()),
            Err(_) => Err(FeedErr::Memory),
        }
    }

    fn read(&mut self, feed: usize, into: &mut [u8]) -> Result<usize, Failed> {
        match read_next(&mut self.feeds[feed], into) {
            Ok(count) => Ok(count),
            Err(_) => {
                self.faults = self.faults.saturating_add(1);
                Err(Failed)
            }
        }
    }
}
