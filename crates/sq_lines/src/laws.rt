// What is written in words of `csv`, and read back, each the contract of a function that does nothing.
ghost use Rattle.sq_lines.specs.Rows.{LinesAreCsv, RowsAreReadBack};

/// A line is what `csv` writes of its fields as it is set by default, for all fields.
#[tactic(auto, using(crate::proofs::CsvLemmas::line_of_is_csv))]
pub fn lines_are_csv()
    ensures { LinesAreCsv }
{}

/// A row of two fields and more that is written is read back as these fields.
#[tactic(auto, using(crate::proofs::ReadBack::rows_read_back))]
pub fn rows_are_read_back()
    ensures { RowsAreReadBack }
{}
