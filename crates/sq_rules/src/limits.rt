// The limits of numbers and lengths.
ghost use Rattle.std.specs.Prelude.{◌≡◌, ◌<◌, ◌^◌};
ghost use Rattle.std.specs.List.{list_all};
ghost use Rattle.sq_rules.specs.Limits.{told_body_within, box_within, first_failing, has_between, inputs_within, is_int_between, is_expression_long, limit_place, told_output_within, told_source_within, top_within};

use crate::places::part_place;
use sq_net::{Part, Place};
use sq_tables::{BodyTable, BoxTable, NetworkTable, OutputTable, Setting, SourceTable};
use sq_value::Name;

fn is_int_between(number: i64, low: u32, high: u64) -> bool
    requires { high < 2 ^ 63 }
    ensures { result ≡ is_int_between low high number }
{
    i64::from(low) <= number && number <= high as i64
}

fn has_between<T>(items: &[T], low: usize, high: usize) -> bool
    ensures { result ≡ has_between low high items.now }
{
    low <= items.len() && items.len() <= high
}

fn is_expression_long(text: &Name) -> bool
    ensures { result ≡ is_expression_long text.now }
{
    has_between(text.as_str().as_bytes(), 1, 4096)
}

fn top_within(raw: &NetworkTable) -> bool
    ensures { result ≡ top_within raw.now }
{
    has_between(raw.sources.as_slice(), 1, 8)
        && has_between(raw.boxes.as_slice(), 0, 128)
        && has_between(raw.outputs.as_slice(), 1, 32)
        && is_int_between(raw.epoch, 1, 1 << 34)
        && is_int_between(raw.batch, 1, 1_000_000)
}

fn told_source_within(source: &SourceTable) -> bool
    ensures { result ≡ told_source_within source.now }
{
    has_between(source.file.as_str().as_bytes(), 1, 255)
        && has_between(source.fields.as_slice(), 1, 16)
}

fn are_long(texts: &[Name]) -> bool
    ensures { result ≡ list_all is_expression_long texts.now }
{
    texts.iter().all(|text| is_expression_long(text))
}

fn are_set_long(set: &[Setting]) -> bool
    ensures { result ≡ list_all (λ e. is_expression_long e.text) set.now }
{
    set.iter().all(|setting| is_expression_long(&setting.text))
}

fn told_body_within(body: &BodyTable) -> bool
    ensures { result ≡ told_body_within body.now }
{
    match body {
        BodyTable::Filter { preds } => {
            has_between(preds.as_slice(), 1, 15) && are_long(preds.as_slice())
        }
        BodyTable::Map { set } => has_between(set.as_slice(), 1, 16)
            && are_set_long(set.as_slice()),
        BodyTable::Union => true,
        BodyTable::BSort { slack, .. } => is_int_between(*slack, 0, 10_000),
        BodyTable::Aggregate { group, give, .. } => {
            has_between(group.as_slice(), 0, 16) && has_between(give.as_slice(), 1, 16)
        }
        BodyTable::Join { size, on } => is_int_between(*size, 0, 1 << 32) && is_expression_long(on),
        BodyTable::Resample { size, give } => {
            is_int_between(*size, 0, 1 << 32) && has_between(give.as_slice(), 1, 16)
        }
    }
}

fn inputs_within(body: &BodyTable, ins: &[Name]) -> bool
    ensures { result ≡ inputs_within body.now ins.now }
{
    match body {
        BodyTable::Union => has_between(ins, 1, 8),
        BodyTable::Join { .. } | BodyTable::Resample { .. } => has_between(ins, 2, 2),
        BodyTable::Filter { .. }
        | BodyTable::Map { .. }
        | BodyTable::BSort { .. }
        | BodyTable::Aggregate { .. } => has_between(ins, 1, 1),
    }
}

fn are_permille(selectivity: &[i64]) -> bool
    ensures { result ≡ list_all (is_int_between 0 1000000) selectivity.now }
{
    selectivity
        .iter()
        .all(|number| is_int_between(*number, 0, 1_000_000))
}

fn box_within(b: &BoxTable) -> bool
    ensures { result ≡ box_within b.now }
{
    told_body_within(&b.body)
        && inputs_within(&b.body, b.ins.as_slice())
        && is_int_between(b.cost, 0, 1000)
        && are_permille(b.selectivity.as_slice())
}

fn told_output_within(output: &OutputTable) -> bool
    ensures { result ≡ told_output_within output.now }
{
    is_int_between(output.weight, 0, 1000) && has_between(output.graph.as_slice(), 0, 1000)
}

fn wide_source(sources: &[SourceTable]) -> Option<usize>
    ensures { result ≡ first_failing told_source_within sources.now }
{
    sources
        .iter()
        .position(|source| !told_source_within(source))
}

fn wide_box(boxes: &[BoxTable]) -> Option<usize>
    ensures { result ≡ first_failing box_within boxes.now }
{
    boxes.iter().position(|b| !box_within(b))
}

fn wide_output(outputs: &[OutputTable]) -> Option<usize>
    ensures { result ≡ first_failing told_output_within outputs.now }
{
    outputs
        .iter()
        .position(|output| !told_output_within(output))
}

/// The first place where a number or a length is out of its limits.
pub(crate) fn limit_place(raw: &NetworkTable) -> Option<Place>
    ensures { result ≡ limit_place raw.now }
{
    if !top_within(raw) {
        return Some(part_place(Part::Top, 0));
    }
    if let Some(number) = wide_source(raw.sources.as_slice()) {
        return Some(part_place(Part::Source, number));
    }
    if let Some(number) = wide_box(raw.boxes.as_slice()) {
        return Some(part_place(Part::Box, number));
    }
    if let Some(number) = wide_output(raw.outputs.as_slice()) {
        return Some(part_place(Part::Output, number));
    }
    None
}
