// A network file by its tables, before its names and numbers are checked.
use sq_value::{ListOf, Name};

/// The versions of a network file. In the second an Aggregate may have a phase.
#[derive(Clone, Copy, PartialEq, Eq, Drop)]
pub enum Version {
    One,
    Two,
}

/// A source: its name, the name of its file, and its fields, each `name:kind`.
#[derive(Drop)]
pub struct SourceTable {
    pub name: Name,
    pub file: Name,
    pub fields: ListOf<Name>,
}

/// A field that a Map sets: its name, and the text of its expression.
#[derive(Drop)]
pub struct Setting {
    pub name: Name,
    pub text: Name,
}

/// A function over the values of a field.
#[derive(Clone, Copy, PartialEq, Eq, Drop)]
pub enum Over {
    Sum,
    Avg,
    Min,
    Max,
    First,
    Last,
}

/// What an Aggregate answers of the tuples of a group, and a Resample of those near a left one: their number, or a function
/// of a field, by the field's name.
#[derive(Drop)]
pub enum Answer {
    Count,
    Field { over: Over, field: Name },
}

/// A field that an Aggregate or a Resample gives: its name, and its answer.
#[derive(Drop)]
pub struct AnswerColumn {
    pub name: Name,
    pub answer: Answer,
}

/// What a box does, by the texts of its expressions and the names of the fields that it takes.
pub enum BodyTable {
    Filter {
        preds: ListOf<Name>,
    },
    Map {
        set: ListOf<Setting>,
    },
    Union,
    BSort {
        by: Name,
        slack: i64,
    },
    Aggregate {
        size: i64,
        advance: i64,
        phase: i64,
        group: ListOf<Name>,
        give: ListOf<AnswerColumn>,
    },
    Join {
        size: i64,
        on: Name,
    },
    Resample {
        size: i64,
        give: ListOf<AnswerColumn>,
    },
}

/// By hand, so that a proof above meets one call where a body is let go, and not each kind of it.
impl Drop for BodyTable {
    fn drop(self) {
        match self {
            BodyTable::Filter { preds: _preds } => {}
            BodyTable::Map { set: _set } => {}
            BodyTable::Union => {}
            BodyTable::BSort {
                by: _by,
                slack: _slack,
            } => {}
            BodyTable::Aggregate {
                size: _size,
                advance: _advance,
                phase: _phase,
                group: _group,
                give: _give,
            } => {}
            BodyTable::Join {
                size: _size,
                on: _on,
            } => {}
            BodyTable::Resample {
                size: _size,
                give: _give,
            } => {}
        }
    }
}

/// A box: its name, what it does, and the names of the streams that it takes.
#[derive(Drop)]
pub struct BoxTable {
    pub name: Name,
    pub body: BodyTable,
    pub ins: ListOf<Name>,
    pub cost: i64,
    pub selectivity: ListOf<i64>,
}

/// An output: its name, the name of the stream that it shows, its weight, and the points of its quality graph.
#[derive(Drop)]
pub struct OutputTable {
    pub name: Name,
    pub from: Name,
    pub weight: i64,
    pub graph: ListOf<(i64, i64)>,
}

/// A network file, in the order of its tables.
#[derive(Drop)]
pub struct NetworkTable {
    pub epoch: i64,
    pub batch: i64,
    pub sources: ListOf<SourceTable>,
    pub boxes: ListOf<BoxTable>,
    pub outputs: ListOf<OutputTable>,
}
