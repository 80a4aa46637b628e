//! The typed network: sources, boxes, outputs and their wiring, and why a network file is refused.
//!
//! It says what a sound network is, and its contract promises that the schema of a stream is that of the source or of
//! the port that gives it. Below stand the values, the expressions, the quality graphs and the wiring.
#![tactic(auto)]

ghost use Rattle.std.specs.Prelude.{◌≡◌, ◌<◌, ◌^◌, true, Some, length};
ghost use Rattle.sq_graph.specs.Order.{is_there};
ghost use Rattle.sq_graph.specs.Wires.{producer_of};
ghost use Rattle.sq_net.specs.SoundNetworks.{IsSound};
ghost use Rattle.sq_net.specs.Streams.{columns_of_stream, IsTyped};

use sq_aggfn::{Func, WindowSpec};
use sq_expr::{ParseErr, Typed};
use sq_graph::{Producer, Wiring, given_by};
use sq_qos::{Graph, GraphErr};
use sq_value::{ListOf, Name, Schema};
use std::alloc::AllocError;

/// A recorded stream: its name, the name of its file, and its schema.
#[derive(Drop)]
pub struct Source {
    pub name: Name,
    pub file: Name,
    pub schema: Schema,
}

/// What a box does to the tuples that it takes.
#[derive(Drop)]
pub enum Body {
    /// Each tuple goes to the port of the first predicate that is true of it, else to the last port.
    Filter {
        preds: ListOf<Typed>,
    },
    /// Each tuple becomes the tuple of the expressions' values.
    Map {
        exprs: ListOf<Typed>,
    },
    /// The tuples of all inputs, by their times.
    Union,
    /// The tuples by the number in the field `by`, as far as a buffer of `slack` tuples can bring them in order.
    BSort {
        by: u32,
        slack: u32,
    },
    /// For each window and each group of tuples with equal fields `group`, these fields and the functions' answers.
    Aggregate {
        funcs: ListOf<Func>,
        group: ListOf<u32>,
        window: WindowSpec,
    },
    /// The pairs of a left and a right tuple, at most `size` ticks apart, of which the predicate is true.
    Join {
        size: u64,
        on: Typed,
    },
    /// For each left tuple, its fields and the functions' answers over the right tuples at most `size` ticks from it.
    Resample {
        size: u64,
        funcs: ListOf<Func>,
    },
}

/// A box: its name, what it does, a schema and a selectivity (in permille) for each port, and what a tuple costs.
#[derive(Drop)]
pub struct Node {
    pub name: Name,
    pub body: Body,
    pub schemas: ListOf<Schema>,
    pub cost: u64,
    pub selectivity: ListOf<u64>,
}

/// An output: its name, its weight, and the quality graph that says what a part of its tuples is worth.
#[derive(Drop)]
pub struct Output {
    pub name: Name,
    pub weight: u32,
    pub graph: Graph,
}

/// A network whose boxes are typed. Times are counted in ticks: `epoch` is how many an epoch has, and `batch` how many
/// windows are dropped together.
pub struct Network {
    pub epoch: u64,
    pub batch: u64,
    pub wires: Wiring,
    pub sources: ListOf<Source>,
    pub boxes: ListOf<Node>,
    pub outputs: ListOf<Output>,
}

/// By hand, so that a proof above meets one call where a network is let go, and not each thing in it.
impl Drop for Network {
    fn drop(self) {
        let Network {
            epoch: _epoch,
            batch: _batch,
            wires: _wires,
            sources: _sources,
            boxes: _boxes,
            outputs: _outputs,
        } = self;
    }
}

impl Network {
    /// Its sources, boxes and outputs.
    pub fn into_parts(self) -> (ListOf<Source>, ListOf<Node>, ListOf<Output>)
        ensures { result ≡ (self.sources, self.boxes, self.outputs) }
    {
        let Network {
            epoch: _epoch,
            batch: _batch,
            wires: _wires,
            sources,
            boxes,
            outputs,
        } = self;
        (sources, boxes, outputs)
    }

    fn schema_given(&self, stream: u32) -> &Schema
        requires few { length self.now.wires.boxes < 2 ^ 32 }
        requires there { IsTyped self.now stream }
        ensures { columns_of_stream self.now stream ≡ Some result.now }
    {
        match given_by(&self.wires, stream) {
            Some(Producer::Source { source }) => &self.sources.as_slice()[source as usize].schema,
            Some(Producer::Port { at, port }) => {
                let node = &self.boxes.as_slice()[at as usize];
                &node.schemas.as_slice()[port as usize]
            }
            None => unreachable!(),
        }
    }

    /// The schema of a stream of a sound network.
    #[tactic(auto, using(crate::proofs::StreamLemmas::boxes_few, crate::proofs::StreamLemmas::stream_typed))]
    pub fn stream_schema(&self, stream: u32) -> &Schema
        requires sound { IsSound self.now }
        requires there { is_there (producer_of self.now.wires stream) ≡ true }
        ensures { columns_of_stream self.now stream ≡ Some result.now }
    {
        self.schema_given(stream)
    }
}

/// A part of a network file.
#[derive(Clone, Copy, Debug, PartialEq, Eq)]
pub enum Part {
    /// The file as a whole.
    Top,
    Source,
    Box,
    Output,
    /// A place where windows are dropped.
    Drop,
}

/// Where a rule is broken: the part, its number, and a place in a list of it. Both count from 0, and where a rule names
/// no list the item is 0.
#[derive(Clone, Copy, Debug, PartialEq, Eq)]
pub struct Place {
    pub part: Part,
    pub number: u32,
    pub item: u32,
}

/// Why a file is no network: the first broken rule, in this order but for the rules on boxes, which come box by box in
/// the order in which the boxes are typed.
#[derive(Clone, Copy, Debug, PartialEq, Eq)]
pub enum NetErr {
    /// The bytes are no TOML document.
    Toml,
    /// The version is absent or is neither 1 nor 2.
    Version,
    /// A key is missing, unknown or of another kind.
    Shape(Place),
    /// A number or a length is out of its limits.
    Limit(Place),
    /// A name isn't of the form of names.
    NoName(Place),
    /// A name stands a second time.
    Twice(Place),
    /// There is no stream of this name.
    Unknown(Place),
    /// The box reaches itself.
    Cycle(Place),
    /// A window's size, advance and phase don't fit.
    Window(Place),
    /// The points are no quality graph.
    Graph(Place, GraphErr),
    /// A field's name or kind isn't what its place asks for.
    Schema(Place),
    /// The text is no expression.
    Expr(Place, ParseErr),
    /// An expression's kind isn't what its place asks for.
    Typing(Place),
    /// A field to group by isn't there or stands twice.
    Group(Place),
    /// Memory ran out.
    Memory,
}

impl From<AllocError> for NetErr {
    ghost use Rattle.std.specs.Prelude.{◌≡◌};
    ghost use Rattle.sq_net.specs.declared.NetErr.{NetErr};
    ghost use Rattle.sq_net.specs.declared.NetErr.TheVariants as broken;

    ghost from_gives = { λ _ e. e ≡ broken.Memory };

    fn from(_e: AllocError) -> NetErr {
        NetErr::Memory
    }
}
