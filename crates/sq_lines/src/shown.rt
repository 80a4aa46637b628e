// The lines that a run shows.
ghost use Rattle.std.specs.Prelude.{◌≤◌, ◌≡◌, ◌++◌, length, OnErr, OnOk};
ghost use Rattle.std.specs.List.{flat_map, zip};
ghost use Rattle.sq_lines.specs.LineTexts.{drop_line, plan_line};
ghost use Rattle.sq_lines.specs.RunLines.{AppendsPart, IsEventOf, end_lines, end_lines_from, event_line, fed_line, fits_text, late_text, lines_text};

use crate::lines::{append_box_line, append_end_line, append_late_line, append_output_line};
use crate::quoting::Quoter;
use crate::written::append_line;
use itoa::Buffer;
use sq_net::{Body, Network, Node};
use sq_oper::{Decision, Event};
use std::alloc::AllocError;

/// Appends the line of a batch that was dropped.
fn append_drop_line(decision: &Decision, out: &mut Vec<u8>) -> Result<(), AllocError>
    ensures ok { OnOk result (out.new.items ≡ out.old.items ++ drop_line decision.now.drop decision.now.batch decision.now.level) }
    ensures err { OnErr result (out.new.items ≡ out.old.items) }
{
    let (mut drop, mut batch, mut level) = (Buffer::new(), Buffer::new(), Buffer::new());
    append_line(
        &[
            b"@drop",
            drop.format(decision.drop).as_bytes(),
            batch.format(decision.batch).as_bytes(),
            level.format(decision.level).as_bytes(),
        ],
        out,
    )
}

fn fits_text(fits: bool) -> &'static str
    ensures { result.now ≡ fits_text fits }
{
    if fits {
        return "fits";
    }
    "short"
}

/// Appends the line of an epoch's plan.
fn append_plan_line(
    epoch: u64,
    load: u128,
    capacity: u128,
    saved: u128,
    fits: bool,
    out: &mut Vec<u8>,
) -> Result<(), AllocError>
    ensures ok { OnOk result (out.new.items ≡ out.old.items ++ plan_line epoch load capacity saved fits) }
    ensures err { OnErr result (out.new.items ≡ out.old.items) }
{
    let (mut first, mut second) = (Buffer::new(), Buffer::new());
    let (mut third, mut fourth) = (Buffer::new(), Buffer::new());
    append_line(
        &[
            b"@plan",
            first.format(epoch).as_bytes(),
            second.format(load).as_bytes(),
            third.format(capacity).as_bytes(),
            fourth.format(saved).as_bytes(),
            fits_text(fits).as_bytes(),
        ],
        out,
    )
}

/// Appends the line of an event, as one of many that a quoter serves. Where memory runs out a part of it stands there, or nothing.
#[inline]
pub fn append_event_line(
    n: &Network,
    e: &Event,
    quoter: &mut Quoter,
    out: &mut Vec<u8>,
) -> Result<(), AllocError>
    requires { IsEventOf n.now e.now }
    ensures ok { OnOk result (out.new.items ≡ out.old.items ++ event_line n.now e.now) }
    ensures err { OnErr result (AppendsPart out.old.items out.new.items (event_line n.now e.now)) }
{
    match e {
        Event::Line { output, tuple } => {
            let shown = &n.outputs.as_slice()[*output as usize];
            append_output_line(&shown.name, tuple, quoter, out)
        }
        Event::Dropped(decision) => append_drop_line(decision, out),
        Event::Plan {
            epoch,
            load,
            capacity,
            saved,
            fits,
        } => append_plan_line(*epoch, *load, *capacity, *saved, *fits, out),
    }
}

/// Appends the line of an event. Where memory runs out a part of it stands there, or nothing.
pub fn event_line(n: &Network, e: &Event, out: &mut Vec<u8>) -> Result<(), AllocError>
    requires { IsEventOf n.now e.now }
    ensures ok { OnOk result (out.new.items ≡ out.old.items ++ event_line n.now e.now) }
    ensures err { OnErr result (AppendsPart out.old.items out.new.items (event_line n.now e.now)) }
{
    append_event_line(n, e, &mut Quoter::new(), out)
}

/// Appends the lines of the boxes, where each was fed so many tuples.
fn append_boxes(boxes: &[Node], fed: &[u64], out: &mut Vec<u8>) -> Result<(), AllocError>
    requires even { length fed.now ≡ length boxes.now }
    ensures ok { OnOk result (out.new.items ≡ out.old.items ++ flat_map fed_line (zip boxes.now fed.now)) }
    ensures err { OnErr result (AppendsPart out.old.items out.new.items (flat_map fed_line (zip boxes.now fed.now))) }
{
    'boxes: for (i, node) in boxes.iter().enumerate() {
        append_box_line(&node.name, fed[i], out)?;
    }
    Ok(())
}

/// Appends the line of a box's late tuples, which a BSort alone has.
fn append_late(node: &Node, late: u64, out: &mut Vec<u8>) -> Result<(), AllocError>
    ensures ok { OnOk result (out.new.items ≡ out.old.items ++ late_text (node.now, late)) }
    ensures err { OnErr result (out.new.items ≡ out.old.items) }
{
    match node.body {
        Body::BSort { .. } => append_late_line(&node.name, late, out),
        _ => Ok(()),
    }
}

/// Appends the lines of late tuples, where each box has so many.
fn append_lates(boxes: &[Node], late: &[u64], out: &mut Vec<u8>) -> Result<(), AllocError>
    requires even { length late.now ≡ length boxes.now }
    ensures ok { OnOk result (out.new.items ≡ out.old.items ++ flat_map late_text (zip boxes.now late.now)) }
    ensures err { OnErr result (AppendsPart out.old.items out.new.items (flat_map late_text (zip boxes.now late.now))) }
{
    'boxes: for (i, node) in boxes.iter().enumerate() {
        append_late(node, late[i], out)?;
    }
    Ok(())
}

/// Appends the end lines: one for each box with how many tuples it was fed, one for each BSort with how many of them were late,
/// both in file order, and the last line. What `late` says of a box that is no BSort isn't looked at. Where memory runs out
/// a part of them stands there.
pub fn end_lines(
    n: &Network,
    fed: &Vec<u64>,
    late: &Vec<u64>,
    out: &mut Vec<u8>,
) -> Result<(), AllocError>
    requires fed { length fed.now.items ≡ length n.now.boxes }
    requires late { length late.now.items ≡ length n.now.boxes }
    ensures ok { OnOk result (out.new.items ≡ out.old.items ++ lines_text (end_lines n.now fed.now.items late.now.items)) }
    ensures err { OnErr result (AppendsPart out.old.items out.new.items (lines_text (end_lines n.now fed.now.items late.now.items))) }
{
    append_boxes(n.boxes.as_slice(), fed.as_slice(), out)?;
    append_lates(n.boxes.as_slice(), late.as_slice(), out)?;
    append_end_line(out)
}

/// Appends the end lines of the boxes from one on, as `end_lines` does; where there is none only the last line.
pub fn end_lines_from(
    n: &Network,
    first: u32,
    fed: &Vec<u64>,
    late: &Vec<u64>,
    out: &mut Vec<u8>,
) -> Result<(), AllocError>
    requires fed { length fed.now.items ≡ length n.now.boxes }
    requires late { length late.now.items ≡ length n.now.boxes }
    requires first { first ≤ length n.now.boxes }
    ensures ok { OnOk result (out.new.items ≡ out.old.items ++ lines_text (end_lines_from n.now first fed.now.items late.now.items)) }
    ensures err { OnErr result (AppendsPart out.old.items out.new.items (lines_text (end_lines_from n.now first fed.now.items late.now.items))) }
{
    let boxes = n.boxes.as_slice();
    let left = &boxes[first as usize..];
    append_boxes(left, &fed.as_slice()[first as usize..], out)?;
    append_lates(left, &late.as_slice()[first as usize..], out)?;
    append_end_line(out)
}
