// The program's objects over a folder and a file in memory, which tell what they hold: the clauses of what stands under them
// can be met.
ghost use Rattle.std.specs.Prelude.{◌≡◌, ◌+◌, ◌≤◌, ◌∷◌, [], IsTrue, Some, length};
ghost use Rattle.std.specs.List.{splice};
ghost use Rattle.std.specs.FinMap.{from_entries};

use crate::feeds::two_reads;
use sq_outside::{Failed, Folder, FolderErr, PAGE, PageDisk};
use sq_system::{ByteFile, OpenFeeds, OpenFolder, Opens, SpillFile};
use std::io;
use std::io::ErrorKind;
use std::test::Fail;

// One file.
#[derive(Drop)]
struct OneFile<'a> {
    name: &'a str,
    bytes: &'a [u8],
}

impl<'a> Opens for OneFile<'a> {
    ghost held = { λ s. Some (from_entries ((s.name.now, s.bytes.now) ∷ [])) };

    type Source = &'a [u8];

    fn open(&self, name: &str) -> io::Result<&'a [u8]> {
        if name == self.name {
            Ok(self.bytes)
        } else {
            Err(ErrorKind::NotFound.into())
        }
    }
}

// A file in memory, which never grows.
#[derive(Drop)]
struct Room {
    bytes: Vec<u8>,
}

// Whether so many bytes stand at a place and behind it.
fn has_room(held: &[u8], at: u64, size: usize) -> bool
    ensures { IsTrue result → at + size ≤ length held.now }
{
    at <= held.len() as u64 && size <= held.len() - at as usize
}

// Puts the bytes at a place, where there is room.
fn put_bytes(held: &mut [u8], at: usize, bytes: &[u8])
    requires { at + length bytes.now ≤ length held.old }
    ensures { held.new ≡ splice held.old at (at + length bytes.now) bytes.now }
{
    held[at..at + bytes.len()].copy_from_slice(bytes);
}

impl ByteFile for Room {
    ghost held = { λ s. Some s.bytes.items };

    fn write_all_at(&mut self, bytes: &[u8], at: u64) -> io::Result<()> {
        if !has_room(&self.bytes, at, bytes.len()) {
            return Err(ErrorKind::StorageFull.into());
        }
        put_bytes(&mut self.bytes, at as usize, bytes);
        Ok(())
    }

    fn read_exact_at(&self, into: &mut [u8], at: u64) -> io::Result<()> {
        if !has_room(&self.bytes, at, into.len()) {
            return Err(ErrorKind::UnexpectedEof.into());
        }
        let at = at as usize;
        into.copy_from_slice(&self.bytes[at..at + into.len()]);
        Ok(())
    }
}

#[test]
fn a_told_file_is_read_whole(rt: HostRuntime) -> Result<(), Fail> {
    let one = OneFile {
        name: "a",
        bytes: b"123456789",
    };
    let mut folder = OpenFolder::new(&one);
    let long = folder.read_whole(rt.alloc(), "a", 8);
    assert!(rt; long.err() == Some(FolderErr::TooLong));
    let Ok(bytes) = folder.read_whole(rt.alloc(), "a", 9) else {
        return Err(Fail::from("it isn't read"));
    };
    assert!(rt; bytes.as_slice() == b"123456789".as_slice());
    Ok(())
}

#[test]
fn a_told_file_is_read_in_pieces(rt: HostRuntime) {
    let one = OneFile {
        name: "a",
        bytes: b"123456789",
    };
    let mut feeds = OpenFeeds::new(rt.alloc(), &one);
    let (mut first, mut second) = ([0; 4], [0; 8]);
    let counts = two_reads(rt.alloc(), &mut feeds, "a", &mut first, &mut second);
    assert!(rt; counts == Some((4, 5)));
    assert!(rt; (first[3], second[0], second[4], second[5]) == (b'4', b'5', b'9', 0));
}

#[test]
fn two_pages_stand_in_a_file_for_two(rt: HostRuntime) -> Result<(), Fail> {
    let bytes = Vec::from_elem(rt.alloc(), 0, 2 * PAGE)?;
    let mut disk = SpillFile::new(Room { bytes });
    let puts = [
        disk.put(1, &[7; PAGE]),
        disk.put(0, &[5; PAGE]),
        disk.put(2, &[9; PAGE]),
    ];
    assert!(rt; puts == [Ok(()), Ok(()), Err(Failed)]);
    Ok(())
}
