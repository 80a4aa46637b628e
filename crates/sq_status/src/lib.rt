//! How a call ends: the statuses, their numbers, and the line that tells each.
//!
//! `Status::code` promises the number of each status and `message` its line, byte by byte, or want of memory. Below stand the errors
//! that statuses carry: of network files, of streams, of joining and of the disk.
#![tactic(auto)]

ghost use Rattle.std.specs.Prelude.{◌≡◌};
ghost use Rattle.sq_status.specs.Messages.{code_of};

mod messages;

pub use messages::message;
use sq_item::Item;
use sq_net::NetErr;
use sq_pool::Digest;
use sq_replay::Why;
use sq_tap::TapErr;
use sq_value::Name;

/// How a call ended.
#[derive(Drop)]
pub enum Status {
    /// All input was replayed and all lines were written.
    Ok,
    /// The words are no command.
    Usage,
    /// The network file breaks this rule, the first in their order.
    BadNetwork(NetErr),
    /// A line of the capacity file, by its number from 1, is refused: the first bad one.
    BadCapacities {
        line: u32,
    },
    /// A line of the picks file, by its number from 1, is refused: the first bad one.
    BadPicks {
        line: u32,
    },
    /// A line of a source, by its number from 1, is refused: the first bad line of the first bad source. Sources count
    /// from 0, in the order of the network file.
    BadStream {
        source: u32,
        line: u32,
        why: Why,
    },
    /// A file wasn't read: it isn't there, or the folder failed.
    FolderFault {
        name: Name,
    },
    /// The disk had a fault.
    DiskFault,
    /// A page came back from the disk with another digest than the one that was kept when it was put.
    Garbled {
        page: u64,
        kept: Digest,
        got: Digest,
    },
    /// The bytes of a page that came back aren't the page that the queues keep.
    NotAPage {
        page: u64,
        bytes: Vec<u8>,
    },
    /// The item that came from an arc may not be fed there. Arcs count from 0: the inputs of the boxes in file order, then the
    /// outputs.
    Strange {
        arc: u32,
        item: Item,
    },
    /// The output failed.
    SinkFault,
    /// A file is longer than files of its part may be.
    TooLong {
        name: Name,
    },
    /// Memory ran out.
    Memory,
    /// More tuples would be fed than are counted.
    TooMuch,
    /// The query's file breaks this rule of network files, the first in their order.
    BadQuery(NetErr),
    /// The query can't be joined to the stream: this rule is the first that is broken.
    BadTap(TapErr),
}

impl Status {
    /// The status with which the program ends.
    pub fn code(&self) -> u8
        ensures { result ≡ code_of self.now }
    {
        match self {
            Status::Ok => 0,
            Status::Usage => 2,
            Status::BadNetwork(_) => 3,
            Status::BadCapacities { .. } => 4,
            Status::BadPicks { .. } => 5,
            Status::BadStream { .. } => 6,
            Status::FolderFault { .. } => 7,
            Status::DiskFault => 8,
            Status::Garbled { .. } => 9,
            Status::SinkFault => 10,
            Status::TooLong { .. } => 11,
            Status::Memory => 12,
            Status::BadQuery(_) => 13,
            Status::BadTap(_) => 14,
            Status::TooMuch => 15,
            Status::NotAPage { .. } => 16,
            Status::Strange { .. } => 17,
        }
    }
}
