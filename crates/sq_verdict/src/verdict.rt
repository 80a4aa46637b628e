// What is answered of a text.

/// Why a text fails.
#[derive(Clone, Copy, PartialEq, Eq, Drop)]
pub enum AuditWhy {
    /// The line stands behind an end line.
    End,
    /// The line begins with no output's name and no word of a run, or begins as an end line and is more.
    Form,
    /// The line records no batch of a drop that is there, or one that isn't above those before it.
    Drop,
    /// The line isn't the next one of its output.
    Line,
    /// Behind the last line bytes are left, or the end line or lines of an output are missing.
    Short,
}

/// The verdict on a text.
#[derive(Clone, Copy, PartialEq, Eq, Drop)]
pub enum Verdict {
    /// It shows what it is to show.
    Yes,
    /// It doesn't: the first line that has a fault, counted from 1, or the one behind the last, and why.
    No { line: u64, why: AuditWhy },
}
