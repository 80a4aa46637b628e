// What a run wrote, beside what the slow definitions of `sq_model` give.
ghost use Rattle.std.specs.Prelude.{◌≡◌, ◌<◌, length, map, IfSome};
ghost use Rattle.std.specs.List.{All};
ghost use Rattle.sq_value.specs.Values.{IsStream};
ghost use Rattle.sq_net.specs.SoundNetworks.{IsSound};
ghost use Rattle.sq_points.specs.Limits.{KeepsDropLimits};
ghost use Rattle.sq_points.specs.Points.{points_of};

use crate::case::Case;
use crate::given::{Given, given_by};
use crate::texts::{push_line, setting};
use sq_lines::{Quoter, append_output_line, end_lines_from};
use sq_model::{answer, dropped, fed, full_streams, late, work};
use sq_net::Network;
use sq_points::network_points;
use sq_value::{Name, Tuple};
use std::alloc::{AllocError, Global};

/// The first field of a line.
pub fn first_field(line: &str) -> &str {
    match line.split_once(',') {
        Some((first, _)) => first,
        None => line,
    }
}

/// How many lines a class has.
pub fn count_of(text: &str, class: &str) -> usize {
    text.lines()
        .filter(|line| first_field(line) == class)
        .count()
}

/// Puts the lines of a class at the end of others.
pub fn push_class(lines: &mut String, text: &str, class: &str) -> Result<(), AllocError> {
    for line in text.lines() {
        if first_field(line) == class {
            push_line(lines, line)?;
        }
    }
    Ok(())
}

/// Whether the lines of an output show these tuples.
fn has_tuples(
    alloc: Global,
    text: &str,
    name: &Name,
    tuples: &[Tuple],
) -> Result<bool, AllocError> {
    let mut wanted = Vec::new(alloc);
    let mut quoter = Quoter::new();
    for tuple in tuples {
        append_output_line(name, tuple, &mut quoter, &mut wanted)?;
    }
    let mut lines = String::new(alloc);
    push_class(&mut lines, text, name.as_str())?;
    Ok(lines.as_bytes() == wanted.as_slice())
}

/// The batch in a line of the class of a drop.
fn batch_in(line: &str, class: &str) -> Option<u64> {
    let rest = line.strip_prefix(class)?.strip_prefix(',')?;
    let (batch, _) = rest.split_once(',')?;
    batch.parse::<u64>().ok()
}

/// Whether the batches in the lines of the class of a drop are these.
fn has_batches(text: &str, class: &str, batches: &[u64]) -> bool {
    let mut left = batches.iter();
    for line in text.lines() {
        if let Some(batch) = batch_in(line, class)
            && left.next().copied() != Some(batch)
        {
            return false;
        }
    }
    left.next().is_none()
}

/// Shows what differs from the slow definitions.
fn show_difference(shown: &mut String, what: &str) -> Result<(), AllocError> {
    writeln!(shown, "differs from the model: {what}")
}

/// Whether the lines of an output are those of its answer.
fn is_answered(alloc: Global, given: &Given, text: &str, output: u32) -> Result<bool, AllocError>
    requires sound { IsSound given.now.network }
    requires limits { KeepsDropLimits given.now.network }
    requires lists { length given.now.sources.items ≡ length given.now.network.sources }
    requires streams { All IsStream (map (λ xs. xs.items) given.now.sources.items) }
    requires there { output < length given.now.network.outputs }
{
    let tuples = answer(
        alloc,
        &given.network,
        given.sources.as_slice(),
        &given.capacities,
        given.seed,
        output,
    )?;
    let name = &given.network.outputs.as_slice()[output as usize].name;
    has_tuples(alloc, text, name, &tuples)
}

/// Shows the name of each output whose lines aren't those of its answer.
fn compare_outputs(
    alloc: Global,
    shown: &mut String,
    given: &Given,
    text: &str,
) -> Result<(), AllocError>
    requires sound { IsSound given.now.network }
    requires limits { KeepsDropLimits given.now.network }
    requires lists { length given.now.sources.items ≡ length given.now.network.sources }
    requires streams { All IsStream (map (λ xs. xs.items) given.now.sources.items) }
{
    let outputs = given.network.outputs.as_slice();
    for output in 0..outputs.len() as u32 {
        if !is_answered(alloc, given, text, output)? {
            show_difference(shown, outputs[output as usize].name.as_str())?;
        }
    }
    Ok(())
}

/// Shows a drop whose lines don't have the batches of its record; gives how many batches the record has.
fn compare_drop(
    alloc: Global,
    shown: &mut String,
    given: &Given,
    text: &str,
    w: u32,
) -> Result<usize, AllocError>
    requires sound { IsSound given.now.network }
    requires limits { KeepsDropLimits given.now.network }
    requires lists { length given.now.sources.items ≡ length given.now.network.sources }
    requires streams { All IsStream (map (λ xs. xs.items) given.now.sources.items) }
    requires there { w < length (points_of given.now.network) }
{
    let record = dropped(
        alloc,
        &given.network,
        given.sources.as_slice(),
        &given.capacities,
        given.seed,
        w,
    )?;
    let class = format!(in alloc; "@drop,{w}")?;
    if !has_batches(text, class.as_str(), &record) {
        show_difference(shown, class.as_str())?;
    }
    Ok(record.len())
}

/// How many drops a network has.
fn drops_of(alloc: Global, network: &Network) -> Option<u32>
    requires { IsSound network.now }
    ensures { IfSome result (λ count. count ≡ length (points_of network.now)) }
{
    let Ok(points) = network_points(alloc, network) else {
        return None;
    };
    u32::try_from(points.len()).ok()
}

/// Compares each drop, and then how many lines of drops there are.
fn compare_drops(
    alloc: Global,
    shown: &mut String,
    given: &Given,
    text: &str,
    count: u32,
) -> Result<(), AllocError>
    requires sound { IsSound given.now.network }
    requires limits { KeepsDropLimits given.now.network }
    requires lists { length given.now.sources.items ≡ length given.now.network.sources }
    requires streams { All IsStream (map (λ xs. xs.items) given.now.sources.items) }
    requires all { count ≡ length (points_of given.now.network) }
{
    let mut batches = 0usize;
    for w in 0..count {
        batches = batches.saturating_add(compare_drop(alloc, shown, given, text, w)?);
    }
    if count_of(text, "@drop") == batches {
        return Ok(());
    }
    show_difference(shown, "@drop")
}

/// Shows where all boxes, drops and outputs are fed another number of tuples than a case says.
fn compare_work(
    alloc: Global,
    shown: &mut String,
    given: &Given,
    case: &str,
) -> Result<(), AllocError>
    requires sound { IsSound given.now.network }
    requires limits { KeepsDropLimits given.now.network }
    requires lists { length given.now.sources.items ≡ length given.now.network.sources }
    requires streams { All IsStream (map (λ xs. xs.items) given.now.sources.items) }
{
    let Some(wanted) = setting(case, "work") else {
        return Ok(());
    };
    let work = work(
        alloc,
        &given.network,
        given.sources.as_slice(),
        &given.capacities,
        given.seed,
    )?;
    if format!(in alloc; "{work}")?.as_str() == wanted {
        return Ok(());
    }
    writeln!(shown, "its work is {work}")
}

/// Whether a text ends with the end lines of what boxes are fed, and how many of it are late, where nothing is dropped.
fn has_ends(alloc: Global, given: Given, text: &str) -> Result<bool, AllocError>
    requires sound { IsSound given.network }
    requires lists { length given.sources.items ≡ length given.network.sources }
    requires streams { All IsStream (map (λ xs. xs.items) given.sources.items) }
{
    let Given {
        network,
        sources,
        ..
    } = given;
    let streams = full_streams(alloc, &network, sources)?;
    let fed = fed(alloc, &network, streams.as_slice())?;
    let late = late(alloc, &network, streams.as_slice())?;
    let mut lines = Vec::new(alloc);
    end_lines_from(&network, 0, &fed, &late, &mut lines)?;
    Ok(text.as_bytes().ends_with(lines.as_slice()))
}

/// Compares what a run wrote with the answers and the records of what it was over, and where nothing may be dropped with its counts.
fn compare_given(
    alloc: Global,
    shown: &mut String,
    given: Given,
    case: &str,
    text: &str,
) -> Result<(), AllocError>
    requires sound { IsSound given.network }
    requires limits { KeepsDropLimits given.network }
    requires lists { length given.sources.items ≡ length given.network.sources }
    requires streams { All IsStream (map (λ xs. xs.items) given.sources.items) }
{
    let Some(count) = drops_of(alloc, &given.network) else {
        return show_difference(shown, "its drop points");
    };
    compare_outputs(alloc, shown, &given, text)?;
    compare_drops(alloc, shown, &given, text, count)?;
    compare_work(alloc, shown, &given, case)?;
    if count > 0 || has_ends(alloc, given, text)? {
        return Ok(());
    }
    show_difference(shown, "its end lines")
}

/// Compares what the run of a case wrote with the answers, the records and the counts of `sq_model`, and shows what differs.
pub fn compare(
    alloc: Global,
    shown: &mut String,
    case: &str,
    text: &str,
) -> Result<(), AllocError> {
    match given_by(alloc, Case::read(alloc, case)?) {
        Some(given) => compare_given(alloc, shown, given, case, text),
        None => show_difference(shown, "its files"),
    }
}
