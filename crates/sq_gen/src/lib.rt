//! The generator: a large valid input that a number names.
//!
//! The contract of `generate` gives each byte of the three files: line i of the stream comes of the words 2i and 2i + 1
//! of a published generator. Below stand the generator of `rand_pcg`, the digits of `itoa` and the lists of `sq_value`.
#![tactic(auto)]

ghost use Rattle.std.specs.Prelude.{◌≡◌, ◌≤◌, IfOk};
ghost use Rattle.sq_gen.specs.Files.{made_of};

mod network;
mod stream;

use network::NETWORK;
use sq_value::ListOf;
use std::alloc::{AllocError, Global};

/// Without a limit in epoch 0, and then too little for the network at a trade a tick.
const CAPACITIES: &str = "1,12000000000\n";

/// The bytes of three files.
#[derive(Drop)]
pub struct Made {
    /// The network, which has the one source `trades.csv`.
    pub net: ListOf<u8>,
    /// `trades.csv`: a trade a tick, each with a time `at` that is up to 7 ticks before.
    pub stream: ListOf<u8>,
    /// The capacity file.
    pub capacities: ListOf<u8>,
}

/// The files of a number, with a stream of so many lines.
#[tactic(auto, unfolding(crate::specs::Files::capacities_text, crate::specs::Network::net_text))]
pub fn generate(alloc: Global, number: u64, rows: u32) -> Result<Made, AllocError>
    requires some { 1 ≤ rows }
    requires bound { rows ≤ 1000000 }
    ensures { IfOk result (λ made. made ≡ made_of number rows) }
{
    Ok(Made {
        net: copied(alloc, NETWORK)?,
        stream: ListOf::new(stream::stream_text(alloc, number, rows)?),
        capacities: copied(alloc, CAPACITIES)?,
    })
}

/// The bytes of a text.
fn copied(alloc: Global, text: &str) -> Result<ListOf<u8>, AllocError>
    ensures { IfOk result (λ bytes. bytes ≡ text.now) }
{
    let bytes = Vec::from_slice(alloc, text.as_bytes())?;
    Ok(ListOf::new(bytes))
}
