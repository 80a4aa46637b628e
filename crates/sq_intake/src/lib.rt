//! Streams that come in pieces, cut anywhere: the tuples of their lines as the lines come, up to the first bad one, and the tick before
//! which no tuple comes any more.
//!
//! Its contracts say what was told and is still to be told, whatever comes behind, so they say nothing of cuts; laws say that what comes
//! in pieces is read as the text that the pieces are together. Below stand `sq_replay` (the tuple of a line, or the first rule that it breaks),
//! `sq_lines` (the last piece of a text), `sq_csv` (bytes that a text lacks) and `sq_value` (values and their text).
#![tactic(auto)]

mod intake;
mod laws;
mod pieces;

pub use intake::{Intake, IntakeErr};
pub use laws::{pieces_are_streams, what_is_told_fits};
pub use pieces::read_pieces;
