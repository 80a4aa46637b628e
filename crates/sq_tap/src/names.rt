// The stream of a name.
ghost use Rattle.std.specs.Prelude.{◌≡◌, ◌+◌, ◌<◌, ◌≤◌, ◌^◌, ◌↔◌, ℕ, length, map, true, IfSome, IsTrue, Some, None, if◌then◌else◌};
ghost use Rattle.std.specs.Fmt.{decimal};
ghost use Rattle.std.specs.List.{flat_map, position_from};
ghost use Rattle.sq_words.specs.Lists.{same_bytes};
ghost use Rattle.sq_graph.specs.Order.{is_there};
ghost use Rattle.sq_graph.specs.Wires.{producer_of};
ghost use Rattle.sq_net.specs.SoundNetworks.{IsSound};
ghost use Rattle.sq_tap.specs.Names.{is_dotted, port_names, ports_named, stream_named, stream_names};
ghost use Rattle.sq_net.specs.Names.{port_name};

use sq_net::{Body, Network, Node, Source};
use sq_value::same_text;

// Whether a text is this number in digits.
fn is_decimal(text: &[u8], number: u32) -> bool
    ensures { result ≡ same_bytes text.now (decimal number) }
{
    let Some((last, front)) = text.split_last() else {
        return false;
    };
    if *last != 48 + (number % 10) as u8 {
        return false;
    }
    if number < 10 {
        return front.is_empty();
    }
    is_decimal(front, number / 10)
}

// Whether a text is a name, a dot and this number.
fn is_dotted(text: &[u8], name: &[u8], number: u32) -> bool
    ensures { result ≡ is_dotted text.now name.now (decimal number) }
{
    match name {
        [] => match text {
            [] => false,
            [b, rest @ ..] => *b == 46 && is_decimal(rest, number),
        },
        [c, more @ ..] => match text {
            [] => false,
            [b, rest @ ..] => *b == *c && is_dotted(rest, more, number),
        },
    }
}

// Whether a text is the name of this port.
#[tactic(auto, using(crate::proofs::Naming::dotted_is))]
fn is_port(text: &str, name: &str, number: u32) -> bool
    ensures { result ≡ same_bytes text.now (port_name name.now number) }
{
    is_dotted(text.as_bytes(), name.as_bytes(), number)
}

// The first of the ports of a Filter from one on.
#[tactic(auto, using(crate::proofs::Naming::ports_more))]
fn filter_port(text: &str, name: &str, number: u32, port: u32, many: u32) -> Option<u32>
    requires ports { port + many < 2 ^ 32 }
    requires few { number + many < 2 ^ 32 }
    ensures { result ≡ position_from (same_bytes text.now) number (ports_named name.now port many) }
{
    if many == 0 {
        return None;
    }
    if is_port(text, name, port + 1) {
        return Some(number);
    }
    filter_port(text, name, number + 1, port + 1, many - 1)
}

fn one_port(text: &str, name: &str, number: u32) -> Option<u32>
    ensures { result ≡ (if same_bytes text.now name.now then Some number else None) }
{
    if same_text(text, name) {
        return Some(number);
    }
    None
}

fn port_named(text: &str, b: &Node, number: u32) -> Option<u32>
    requires { number + length (port_names b.now.name b.now.body) < 2 ^ 32 }
    ensures { result ≡ position_from (same_bytes text.now) number (port_names b.now.name b.now.body) }
{
    let name = b.name.as_str();
    match &b.body {
        Body::Filter { preds } => {
            filter_port(text, name, number, 0, preds.as_slice().len() as u32 + 1)
        }
        Body::Map { .. }
        | Body::Union
        | Body::BSort { .. }
        | Body::Aggregate { .. }
        | Body::Join { .. }
        | Body::Resample { .. } => one_port(text, name, number),
    }
}

fn ports_in(b: &Node) -> u32
    requires { length (port_names b.now.name b.now.body) < 2 ^ 32 }
    ensures { result ≡ length (port_names b.now.name b.now.body) }
{
    match &b.body {
        Body::Filter { preds } => preds.as_slice().len() as u32 + 1,
        Body::Map { .. }
        | Body::Union
        | Body::BSort { .. }
        | Body::Aggregate { .. }
        | Body::Join { .. }
        | Body::Resample { .. } => 1,
    }
}

fn box_named(text: &str, boxes: &[Node], first: u32) -> Option<u32>
    requires { first + length (flat_map (λ b. port_names b.name b.body) boxes.now) < 2 ^ 32 }
    ensures { result ≡ position_from (same_bytes text.now) first (flat_map (λ b. port_names b.name b.body) boxes.now) }
{
    let mut number = first;
    for b in boxes {
        if let Some(stream) = port_named(text, b, number) {
            return Some(stream);
        }
        number += ports_in(b);
    }
    None
}

fn source_named(text: &str, sources: &[Source], number: u32) -> Option<u32>
    requires { number + length sources.now < 2 ^ 32 }
    ensures { result ≡ position_from (same_bytes text.now) number (map (λ s. s.name) sources.now) }
{
    match sources {
        [] => None,
        [s, more @ ..] => {
            if same_text(text, s.name.as_str()) {
                return Some(number);
            }
            source_named(text, more, number + 1)
        }
    }
}

// Whether a box has no more ports than this.
fn ports_fit(b: &Node, room: u32) -> bool
    ensures { IsTrue result ↔ (length (port_names b.now.name b.now.body) ≤ room) }
{
    match &b.body {
        Body::Filter { preds } => preds.as_slice().len() < room as usize,
        Body::Map { .. }
        | Body::Union
        | Body::BSort { .. }
        | Body::Aggregate { .. }
        | Body::Join { .. }
        | Body::Resample { .. } => 1 <= room,
    }
}

// Whether boxes have no more ports than this.
fn all_ports_fit(boxes: &[Node], room: u32) -> bool
    ensures { IsTrue result ↔ (length (flat_map (λ b. port_names b.name b.body) boxes.now) ≤ room) }
{
    let mut left = room;
    for b in boxes {
        if !ports_fit(b, left) {
            return false;
        }
        left -= ports_in(b);
    }
    true
}

// Whether each stream has a number.
#[tactic(auto, using(crate::proofs::Naming::names_count))]
fn are_numbered(n: &Network) -> bool
    ensures { IsTrue result ↔ (length (stream_names n.now) < 2 ^ 32) }
{
    let sources = n.sources.as_slice().len();
    sources <= u32::MAX as usize && all_ports_fit(n.boxes.as_slice(), u32::MAX - sources as u32)
}

#[tactic(auto, using(crate::proofs::Naming::names_count))]
fn first_named(n: &Network, name: &str) -> Option<u32>
    requires { length (stream_names n.now) < 2 ^ 32 }
    ensures { result ≡ stream_named n.now name.now }
{
    let sources = n.sources.as_slice();
    match source_named(name, sources, 0) {
        Some(stream) => Some(stream),
        None => box_named(name, n.boxes.as_slice(), sources.len() as u32),
    }
}

/// The number of the first stream of a name: a source's, or a port's of a box. A port of a Filter is named by the box's
/// name, a dot and its number from 1; the one port of another box by the box's name. In a network of more streams than
/// 32 bits number, none is told.
#[tactic(auto, using(crate::proofs::Naming::names_few))]
pub fn stream_named(n: &Network, name: &str) -> Option<u32>
    ensures named { length (stream_names n.now) < 2 ^ 32 → result ≡ stream_named n.now name.now }
    ensures many { 2 ^ 32 ≤ length (stream_names n.now) → result ≡ None }
    ensures sound { IsSound n.now → result ≡ stream_named n.now name.now }
    ensures there { IsSound n.now → IfSome result (λ s. is_there (producer_of n.now.wires s) ≡ true) }
{
    if !are_numbered(n) {
        return None;
    }
    first_named(n, name)
}
