// What is shown of cases.
use crate::beside::{compare, count_of, first_field, push_class};
use crate::case::words_of;
use crate::running::{Ran, run_text};
use crate::texts::{push_line, setting};
use crate::turns::show_turns;
use anyhow::Error;
use std::alloc::{AllocError, Global};

/// Whether what the run of a case wrote is compared where it ended well: of a run over files that are written out, unless the case says
/// no.
fn is_compared(case: &str) -> bool {
    first_field(words_of(case)) == "run"
        && setting(case, "made").is_none()
        && setting(case, "compared").unwrap_or("") != "no"
}

/// Whether the class of a line is named between commas.
fn is_named(line: &str, classes: &str) -> bool {
    let class = first_field(line);
    !class.is_empty() && classes.split(',').any(|named| named == class)
}

/// Shows a text; where its last line has no end, a `\` stands for the missing end.
fn show_text(shown: &mut String, text: &str) -> Result<(), AllocError> {
    shown.push_str(text)?;
    if text.is_empty() || text.ends_with('\n') {
        return Ok(());
    }
    shown.push_str("\\\n")
}

/// Shows how many lines each of these classes has.
fn show_counts(shown: &mut String, text: &str, classes: &str) -> Result<(), AllocError> {
    if classes.is_empty() {
        return Ok(());
    }
    for class in classes.split(',') {
        writeln!(shown, "{class}: {}", count_of(text, class))?;
    }
    Ok(())
}

/// Shows the lines of none of these classes.
fn show_others(
    shown: &mut String,
    text: &str,
    classes: &str,
    counted: &str,
) -> Result<(), AllocError> {
    for line in text.lines() {
        if !is_named(line, classes) && !is_named(line, counted) {
            push_line(shown, line)?;
        }
    }
    Ok(())
}

/// Shows what a run wrote: class by class where classes are named, then how many lines others have, and then all others.
fn show_out(shown: &mut String, case: &str, text: &str) -> Result<(), AllocError> {
    let classes = setting(case, "classes").unwrap_or("");
    let counted = setting(case, "counted").unwrap_or("");
    if classes.is_empty() && counted.is_empty() {
        return show_text(shown, text);
    }
    for class in classes.split(',') {
        push_class(shown, text, class)?;
    }
    show_counts(shown, text, counted)?;
    show_others(shown, text, classes, counted)
}

/// Shows where fewer pages were put than a case says.
fn show_puts(shown: &mut String, case: &str, puts: usize) -> Result<(), AllocError> {
    let least = setting(case, "puts").unwrap_or("");
    if least.parse::<usize>().unwrap_or(0) <= puts {
        return Ok(());
    }
    writeln!(shown, "only {puts} pages were put")
}

/// Shows what a run gave.
fn show_ran(shown: &mut String, case: &str, ran: &Ran) -> Result<(), AllocError> {
    writeln!(shown, "{}", ran.code)?;
    show_out(shown, case, ran.written())?;
    show_text(shown, ran.told())?;
    show_puts(shown, case, ran.disk.puts().len())
}

/// Shows the run of a case, and where it differs from the slow definitions; counts it where it is compared. Or what comes of it
/// where one call after another fails.
fn show_run(
    alloc: Global,
    shown: &mut String,
    case: &str,
    compared: &mut u64,
) -> Result<(), AllocError> {
    if let Some(key) = setting(case, "turns") {
        return show_turns(alloc, shown, case, key);
    }
    let ran = run_text(alloc, case)?;
    show_ran(shown, case, &ran)?;
    if ran.code != 0 || !is_compared(case) {
        return Ok(());
    }
    *compared = compared.saturating_add(1);
    compare(alloc, shown, case, ran.written())
}

/// Shows a run of a case, in which a row stands for `$`.
fn show_row(
    alloc: Global,
    shown: &mut String,
    case: &str,
    row: &str,
    compared: &mut u64,
) -> Result<(), AllocError> {
    writeln!(shown, "| {row}")?;
    let case = case.replace(alloc, '$', row)?;
    show_run(alloc, shown, case.as_str(), compared)
}

/// The lines of a case but for its rows.
fn without_rows(alloc: Global, case: &str) -> Result<String, AllocError> {
    let mut text = String::new(alloc);
    for line in case.lines() {
        if !line.starts_with("| ") {
            push_line(&mut text, line)?;
        }
    }
    Ok(text)
}

/// Shows a run of a case for each of its rows, or one run where it has none.
fn show_runs(
    alloc: Global,
    shown: &mut String,
    case: &str,
    text: &str,
    compared: &mut u64,
) -> Result<(), AllocError> {
    if !case.contains("\n| ") {
        return show_run(alloc, shown, text, compared);
    }
    for line in case.lines() {
        if let Some(row) = line.strip_prefix("| ") {
            show_row(alloc, shown, text, row, compared)?;
        }
    }
    Ok(())
}

/// What is shown of a case: its title, and its runs.
fn shown_case(alloc: Global, case: &str, compared: &mut u64) -> Result<String, AllocError> {
    let title = case.lines().next().unwrap_or("");
    let text = without_rows(alloc, case)?;
    let mut shown = format!(in alloc; "= {title}\n")?;
    show_runs(alloc, &mut shown, case, text.as_str(), compared)?;
    Ok(shown)
}

/// Shows each case of a file: what follows each line that begins with `= `. Adds the runs that were compared.
pub fn show_cases(rt: &HostRuntime, text: &str, compared: &mut u64) -> Result<(), Error> {
    for case in text.split("\n= ").skip(1) {
        let shown = shown_case(rt.alloc(), case, compared)?;
        print!(rt; "{shown}")?;
    }
    Ok(())
}
