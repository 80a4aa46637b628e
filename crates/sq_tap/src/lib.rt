//! Connection points (after Aurora's): a query is joined to a stream of a network, from a tick on, and both run as one.
//!
//! What the stream needs of the network stays; a Filter on the stream lets pass what comes from the tick on; the query
//! stands behind it in place of its source. The contracts promise that the joined network is exactly that, that it is
//! sound and keeps the limits of drop points, that each of its outputs shows what the query alone shows over the part of
//! the stream from the tick on, and that a refusal is that of the first broken rule, want of memory aside. Below stand what
//! makes the joined network (`sq_joined`), the typed network of `sq_net`, its drop points and the full streams of `sq_model`. The
//! rules are this project's own.
#![tactic(auto)]

ghost use Rattle.std.specs.Prelude.{◌≡◌, ◌≢◌, ◌≤◌, ◌<◌, ◌^◌, ◌+◌, true, length, IfOk, IfErr, OnOk};
ghost use Rattle.sq_graph.specs.Order.{is_there};
ghost use Rattle.sq_graph.specs.Wires.{producer_of};
ghost use Rattle.sq_net.specs.SoundNetworks.{IsSound};
ghost use Rattle.sq_points.specs.Limits.{KeepsDropLimits};
ghost use Rattle.sq_joined.specs.Staying.{needed_for, staying};
ghost use Rattle.sq_joined.specs.Joining.{boxes_in_front, joined};
ghost use Rattle.sq_tap.specs.Rules.{HasOneSource, HasTheKinds, KeepsRules, BreaksFirst};
ghost use Rattle.sq_tap.specs.Parts.{AnswersFromPart};

mod names;
mod needs;
mod rules;

pub use names::stream_named;
use needs::needed_for;
use rules::check_source;
use sq_joined::{boxes_staying, join_kept};
use sq_net::Network;
use sq_place::PlaceErr;
use sq_points::network_points;
use std::alloc::{AllocError, Global};

/// A query that was joined to a network.
#[derive(Drop)]
pub struct Grafted {
    /// The joined network.
    pub net: Network,
    /// How many boxes stand in front of the query's: the number of the query's first box, where it has one.
    pub first: u32,
}

/// Why a query can't be joined to a stream: the first of the rules, in this order, that is broken.
#[derive(Clone, Copy, PartialEq, Eq, Drop)]
pub enum TapErr {
    /// The network has no stream of the name.
    NoStream,
    /// The query hasn't exactly one source.
    Sources,
    /// The kinds of the fields of the query's source, in their order, aren't those of the stream; names may differ.
    Schema,
    /// The joined network has more than 128 boxes, or a drop point whose batches are too long or whose extent is too wide.
    Limit,
    /// Memory ran out.
    Memory,
}

impl From<AllocError> for TapErr {
    ghost use Rattle.std.specs.Prelude.{◌≡◌};
    ghost use Rattle.sq_tap.specs.declared.TapErr.{TapErr};
    ghost use Rattle.sq_tap.specs.declared.TapErr.TheVariants as error;

    ghost from_gives = { λ _ e. e ≡ error.Memory };

    fn from(_e: AllocError) -> TapErr {
        TapErr::Memory
    }
}

// The joined network, for the boxes that the stream needs.
fn join(
    alloc: Global,
    n: Network,
    keep: &[bool],
    stream: u32,
    from: u64,
    q: Network,
) -> Result<Network, AllocError>
    requires plain { IsSound n }
    requires asked { IsSound q }
    requires there { is_there (producer_of n.wires stream) ≡ true }
    requires single { HasOneSource q }
    requires tick { from < 2 ^ 40 }
    requires keep { keep.now ≡ needed_for n.wires stream }
    ensures { IfOk result (λ net. net ≡ joined n stream from q) }
{
    join_kept(alloc, n, keep, stream, from, q)
}

// Refuses a network with a drop point beyond the limits.
fn check_points(alloc: Global, net: &Network) -> Result<(), TapErr>
    requires { IsSound net.now }
    ensures kept { OnOk result (KeepsDropLimits net.now) }
    ensures refused { IfErr result (λ e. e ≢ TapErr.Memory → (e ≡ TapErr.Limit) × (KeepsDropLimits net.now → ⊥)) }
{
    match network_points(alloc, net) {
        Ok(_) => Ok(()),
        Err(PlaceErr::Memory) => Err(TapErr::Memory),
        Err(PlaceErr::LongBatch { .. }) => Err(TapErr::Limit),
        Err(PlaceErr::WideExtent { .. }) => Err(TapErr::Limit),
    }
}

/// Joins the query `q` to a stream of the network `n`, by its number, from the tick `from` on. The outputs are the query's,
/// and the sources the network's; nothing is read from the query's own source.
///
/// `Sources`, `Schema` and `Limit` name the first broken rule, and never `NoStream`; nothing is given back then, nor where memory
/// ran out.
pub fn graft(
    alloc: Global,
    n: Network,
    stream: u32,
    from: u64,
    q: Network,
) -> Result<Grafted, TapErr>
    requires plain { IsSound n }
    requires asked { IsSound q }
    requires there { is_there (producer_of n.wires stream) ≡ true }
    requires tick { from < 2 ^ 40 }
    ensures net { IfOk result (λ g. g.net ≡ joined n stream from q) }
    ensures first { IfOk result (λ g. g.first ≡ boxes_in_front n stream) }
    ensures sound { IfOk result (λ g. IsSound g.net) }
    ensures limits { IfOk result (λ g. KeepsDropLimits g.net) }
    ensures answers { IfOk result (λ g. AnswersFromPart n stream from q g.net) }
    ensures kept { OnOk result (KeepsRules n stream from q) }
    ensures refused { IfErr result (BreaksFirst n stream from q) }
{
    check_source(&n, stream, &q)?;
    let keep = needed_for(alloc, &n.wires, stream)?;
    let first = boxes_staying(&keep) + 1;
    if first as usize + q.boxes.as_slice().len() > 128 {
        return Err(TapErr::Limit);
    }
    let net = join(alloc, n, &keep, stream, from, q)?;
    check_points(alloc, &net)?;
    Ok(Grafted { net, first })
}
