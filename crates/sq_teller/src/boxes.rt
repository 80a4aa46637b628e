// The line that names a box.
ghost use Rattle.std.specs.Prelude.{◌≡◌, ◌++◌, OnOk, Some};
ghost use Rattle.sq_teller.specs.Boxes.{named_box, box_text, kind_text};

use sq_net::{Body, Network, Node};
use std::alloc::AllocError;

fn kind_text(body: &Body) -> &'static str
    ensures { result.now ≡ kind_text body.now }
{
    match body {
        Body::Filter { .. } => "filter",
        Body::Map { .. } => "map",
        Body::Union => "union",
        Body::BSort { .. } => "bsort",
        Body::Aggregate { .. } => "aggregate",
        Body::Join { .. } => "join",
        Body::Resample { .. } => "resample",
    }
}

fn put_box(mark: &str, node: &Node, text: &mut Vec<u8>) -> Result<(), AllocError>
    ensures { OnOk result (text.new.items ≡ text.old.items ++ box_text mark.now (Some node.now)) }
{
    text.extend_from_slice(mark.as_bytes())?;
    text.extend_from_slice(b",")?;
    text.extend_from_slice(node.name.as_str().as_bytes())?;
    text.extend_from_slice(b",")?;
    text.extend_from_slice(kind_text(&node.body).as_bytes())?;
    text.extend_from_slice(b"\n")?;
    Ok(())
}

/// Puts the line of a box, by its number, behind a text: a mark, its name and its kind. Where there is no box, nothing.
pub fn put_box_line(
    mark: &str,
    n: &Network,
    at: Option<u32>,
    text: &mut Vec<u8>,
) -> Result<(), AllocError>
    ensures { OnOk result (text.new.items ≡ text.old.items ++ named_box mark.now n.now at) }
{
    let Some(at) = at else {
        return Ok(());
    };
    match n.boxes.as_slice().get(at as usize) {
        Some(node) => put_box(mark, node, text),
        None => Ok(()),
    }
}
