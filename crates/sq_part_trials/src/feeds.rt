ghost use Rattle.std.specs.Prelude.{◌≡◌, ◌<◌, [], length, IfOk};

use sq_feeds::{FeedErr, Feeds, MemFeeds};
use sq_system::OpenFeeds;
use std::alloc::{AllocError, Global};
use std::fs;
use std::test::Fail;

// How many bytes two reads give of the first feed that is opened, where the first of them gives some.
pub(crate) fn two_reads<F: Feeds>(
    alloc: Global,
    feeds: &mut F,
    name: &str,
    first: &mut [u8],
    second: &mut [u8],
) -> Option<(usize, usize)>
    requires new { F.logs feeds.old ≡ [] }
    requires room { 0 < length first.old }
    requires more { 0 < length second.old }
{
    feeds.open(alloc, name).ok()?;
    let count = feeds.read(0, first).ok()?;
    if count == 0 {
        return None;
    }
    let rest = feeds.read(0, second).ok()?;
    Some((count, rest))
}

// Feeds of one file, of which the first read gives two bytes. The calls of these numbers fail.
fn cut_feeds(alloc: Global, fails: &[u64]) -> Result<MemFeeds, AllocError>
    ensures { IfOk result (λ feeds. feeds.logs ≡ []) }
{
    let mut files = Vec::new(alloc);
    let name = String::from_str(alloc, "a")?;
    files.push((name, Vec::from_slice(alloc, b"12345")?))?;
    let cuts = Vec::from_slice(alloc, &[2])?;
    let fails = Vec::from_slice(alloc, fails)?;
    Ok(MemFeeds::new(alloc, files, cuts, fails))
}

#[test]
fn a_feed_in_memory_is_cut_and_fails_where_it_is_to(rt: HostRuntime) -> Result<(), Fail> {
    let alloc = rt.alloc();
    let rows: [(&[u64], &str, Option<(usize, usize)>); 5] = [
        (&[], "a", Some((2, 3))),
        (&[], "b", None),
        (&[0], "a", None),
        (&[1], "a", None),
        (&[2], "a", None),
    ];
    for (fails, name, counts) in &rows {
        let mut feeds = cut_feeds(alloc, fails)?;
        let (mut first, mut second) = ([0; 8], [0; 8]);
        let told = two_reads(alloc, &mut feeds, name, &mut first, &mut second);
        assert!(rt; told == *counts);
        let ends = (first[0], first[2], second[0], second[2]);
        assert!(rt; told.is_none() || ends == (b'1', 0, b'3', b'5'));
    }
    Ok(())
}

const FEED: &str = "aurora_feed_test.txt";

#[test]
fn a_real_feed_is_read_in_pieces_up_to_its_end(rt: HostRuntime) -> Result<(), Fail> {
    let alloc = rt.alloc();
    fs::write(&rt, FEED, "12345")?;
    let mut feeds = OpenFeeds::new(alloc, &rt);
    let (mut first, mut second) = ([0; 3], [0; 8]);
    let counts = two_reads(alloc, &mut feeds, FEED, &mut first, &mut second);
    assert!(rt; counts == Some((3, 2)) && feeds.faults == 0);
    assert!(rt; (first[2], second[0], second[1], second[2]) == (b'3', b'4', b'5', 0));
    let mut feeds = OpenFeeds::new(alloc, &rt);
    let ended = two_reads(alloc, &mut feeds, FEED, &mut second, &mut first);
    let removed = fs::remove_file(&rt, FEED).is_ok();
    let gone = feeds.open(alloc, FEED);
    assert!(rt; removed && ended == Some((5, 0)));
    assert!(rt; gone == Err(FeedErr::Failed) && feeds.faults == 1);
    Ok(())
}
