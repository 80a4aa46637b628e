//! What a run writes where it ends well has the verdict yes: the law that joins what the top call promises of its text and what
//! the audit asks of it.
//!
//! It offers laws alone, over the definitions of both: of a replay, and of words that come to what is accepted by what was read. Below
//! stand `sq_top` (what words come to, and what their text is) and `sq_audit` (the verdict).
#![tactic(auto)]

ghost use Rattle.sq_audited.specs.Laws.{AcceptsReplays, AcceptsRuns};

/// For a sound network that keeps the limits of its drop points, and sources whose times are ticks that don't fall: a text with
/// exactly the lines that a replay is to write, in any order between classes, has the verdict yes, for any capacities and seed.
pub fn replays_are_accepted()
    ensures { AcceptsReplays }
{}

/// Where words come to what is accepted by what was read, whatever the folder, a text that is whole for it has the verdict yes on its
/// network and sources.
pub fn runs_are_accepted()
    ensures { AcceptsRuns }
{}
