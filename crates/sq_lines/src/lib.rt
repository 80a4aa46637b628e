//! The lines that a run writes: what they are, their classes, and writing them.
//!
//! Each function appends the text of a line as it is defined, byte by byte: a row of fields as RFC 4180 (Y. Shafranovich, 2005)
//! has it, the line of an event, and the lines at the end. A field with a quote, CR or LF is written by the kit's `csv`. Laws say that a
//! row is what `csv` writes at its defaults, and that `sq_csv`, which stands below, reads it back. Below stand too the names of a network and the events of a run.
#![tactic(auto)]

mod laws;
mod lines;
mod quoting;
mod shown;
mod written;

pub use laws::{lines_are_csv, rows_are_read_back};
pub use lines::{append_box_line, append_end_line, append_late_line, append_output_line};
pub use quoting::Quoter;
pub use shown::{append_event_line, end_lines, end_lines_from, event_line};
pub use written::append_line;
