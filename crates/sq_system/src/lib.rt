//! The folder, the feeds, the sinks, the disk and the words of a program: files and writers under the traits of
//! `sq_outside` and `sq_feeds`.
//!
//! `OpenFolder` reads files by their names and tells the name and the bytes of each read, `OpenFeeds` reads them in
//! pieces and tells the pieces of each, `Out` writes to a writer and
//! tells what the writer took, `SpillFile` keeps pages in a file and tells what was put, and of each page that came back
//! what was put and what came. They keep the clauses of the traits over every opener (`Opens`), writer and file
//! (`ByteFile`), also over those that tell what they hold. So they can't tell a read, a write or a page that never was: a
//! folder and feeds over files that are told tell those very files, what a sink took is what its writer took, and a disk
//! over a file that tells what it holds is honest. What remains to be read and trusted are the calls of the host in
//! `host`, which tell nothing, since no contract can say what a system does. What a real file gives is shown by tests.
//! Below stand these two alone.
#![tactic(auto)]

mod disk;
mod feeds;
mod folder;
mod host;
mod sink;
mod words;

pub use disk::{ByteFile, SpillFile};
pub use feeds::OpenFeeds;
pub use folder::{OpenFolder, Opens};
pub use host::{NamelessFile, take_closed_streams};
pub use sink::Out;
pub use words::words_after_name;
