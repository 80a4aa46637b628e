//! What the programs that tell how runs in parts cut a network do alike: they read its file, write a text about it, and say how
//! they ended.
//!
//! The contracts promise over every folder and every sink: `answered` reads the file that is asked for and nothing else, writes the
//! whole text that is answered to its bytes, and at a refusal nothing; `told` writes the line of each status that has one. Below
//! stand `sq_refusal` for why a file is no network, `sq_reader` for its limit, and `sq_outside` for the objects.
#![tactic(auto)]

ghost use Rattle.std.specs.Prelude.{◌≡◌};
ghost use Rattle.sq_teller.specs.Messages.{ending_code};

mod boxes;
mod messages;
mod running;

pub use boxes::put_box_line;
pub use messages::told;
pub use running::{Inquiry, answered};
use sq_net::NetErr;
use sq_value::Name;

/// The programs.
#[derive(Clone, Copy, PartialEq, Eq, Drop)]
pub enum Program {
    /// `aurora_keys`.
    Keys,
    /// `aurora_slices`.
    Slices,
}

/// Why a pair names no key.
#[derive(Clone, Copy, PartialEq, Eq, Drop)]
pub enum KeyWhy {
    /// The network has no source of that name.
    NoSource,
    /// The source was named before.
    Twice,
    /// The source has no field of that name.
    NoField,
}

/// How a call ended.
#[derive(Drop)]
pub enum Ending {
    /// All that was asked for can be had.
    Ok,
    /// Something can't.
    Lost,
    /// The words ask for nothing.
    Usage,
    /// The network file breaks this rule, the first in their order.
    BadNetwork(NetErr),
    /// The file wasn't read: it isn't there, or the folder failed.
    FolderFault { name: Name },
    /// The output failed.
    SinkFault,
    /// The file is longer than a network file may be.
    TooLong { name: Name },
    /// Memory ran out.
    Memory,
    /// The first pair of a source and a field, by its number from 1, that breaks a rule, and the first rule that it breaks.
    BadKey { key: u32, why: KeyWhy },
}

impl Ending {
    /// The status with which the program ends.
    pub fn code(&self) -> u8
        ensures { result ≡ ending_code self.now }
    {
        match self {
            Ending::Ok => 0,
            Ending::Lost => 1,
            Ending::Usage => 2,
            Ending::BadNetwork(_) => 3,
            Ending::FolderFault { .. } => 7,
            Ending::SinkFault => 10,
            Ending::TooLong { .. } => 11,
            Ending::Memory => 12,
            Ending::BadKey { .. } => 18,
        }
    }
}
