//! Why a network file is refused, in words: the rule by its name, where it is broken, and what else is to be said.
//!
//! Its contract promises that the text is that of its definition. Below stand the network, the expressions and the
//! quality graphs, whose errors it tells.
#![tactic(auto)]

ghost use Rattle.std.specs.Prelude.{◌≡◌, IfOk, string_bytes};
ghost use Rattle.sq_refusal.specs.Refusals.{at_place_text, detail_text, graph_text, part_text, refusal_place, refusal_text, rule_text, what_text};

use sq_expr::What;
use sq_net::{NetErr, Part, Place};
use sq_qos::GraphErr;
use std::alloc::{AllocError, Global};

fn what_text(what: What) -> &'static str
    ensures { result.now ≡ what_text what }
{
    match what {
        What::BadToken => "BadToken",
        What::Expected => "Expected",
        What::Depth => "Depth",
        What::Wide => "Wide",
        What::EmptyText => "EmptyText",
        What::Memory => "Memory",
    }
}

fn graph_text(e: GraphErr) -> &'static str
    ensures { result.now ≡ graph_text e }
{
    match e {
        GraphErr::TooMany => "TooMany",
        GraphErr::Grid => "Grid",
        GraphErr::Ends => "Ends",
        GraphErr::Falls => "Falls",
        GraphErr::NotConcave => "NotConcave",
        GraphErr::Memory => "Memory",
    }
}

fn part_text(part: Part) -> &'static str
    ensures { result.now ≡ part_text part }
{
    match part {
        Part::Top => "top",
        Part::Source => "source",
        Part::Box => "box",
        Part::Output => "output",
        Part::Drop => "drop",
    }
}

/// The name of a rule.
fn rule_text(e: NetErr) -> &'static str
    ensures { result.now ≡ rule_text e }
{
    match e {
        NetErr::Toml => "Toml",
        NetErr::Version => "Version",
        NetErr::Shape(_) => "Shape",
        NetErr::Limit(_) => "Limit",
        NetErr::NoName(_) => "NoName",
        NetErr::Twice(_) => "Twice",
        NetErr::Unknown(_) => "Unknown",
        NetErr::Cycle(_) => "Cycle",
        NetErr::Window(_) => "Window",
        NetErr::Graph(_, _) => "Graph",
        NetErr::Schema(_) => "Schema",
        NetErr::Expr(_, _) => "Expr",
        NetErr::Typing(_) => "Typing",
        NetErr::Group(_) => "Group",
        NetErr::Memory => "Memory",
    }
}

/// Where a rule is broken; some rules are those of the file as a whole.
fn refusal_place(e: NetErr) -> Option<Place>
    ensures { result ≡ refusal_place e }
{
    match e {
        NetErr::Toml | NetErr::Version | NetErr::Memory => None,
        NetErr::Shape(place)
        | NetErr::Limit(place)
        | NetErr::NoName(place)
        | NetErr::Twice(place)
        | NetErr::Unknown(place)
        | NetErr::Cycle(place)
        | NetErr::Window(place)
        | NetErr::Graph(place, _)
        | NetErr::Schema(place)
        | NetErr::Expr(place, _)
        | NetErr::Typing(place)
        | NetErr::Group(place) => Some(place),
    }
}

fn place_text(alloc: Global, place: Option<Place>) -> Result<String, AllocError>
    ensures { IfOk result (λ text. string_bytes text ≡ at_place_text place) }
{
    let Some(place) = place else {
        return String::from_str(alloc, "");
    };
    let part = part_text(place.part);
    let number = place.number;
    let item = place.item;
    format!(in alloc; " {part} {number} {item}")
}

/// Why points are no graph, or where and why a text is no expression.
fn detail_text(alloc: Global, e: NetErr) -> Result<String, AllocError>
    ensures { IfOk result (λ text. string_bytes text ≡ detail_text e) }
{
    match e {
        NetErr::Graph(_, why) => {
            let why = graph_text(why);
            format!(in alloc; " {why}")
        }
        NetErr::Expr(_, parsed) => {
            let at = parsed.at;
            let what = what_text(parsed.what);
            format!(in alloc; " {at} {what}")
        }
        _ => String::from_str(alloc, ""),
    }
}

/// A refusal in words: `Window box 3 0`, `Expr box 1 0 7 Expected`. Fails for want of memory alone.
pub fn refusal_text(alloc: Global, e: NetErr) -> Result<String, AllocError>
    ensures { IfOk result (λ text. string_bytes text ≡ refusal_text e) }
{
    let rule = rule_text(e);
    let place = place_text(alloc, refusal_place(e))?;
    let detail = detail_text(alloc, e)?;
    format!(in alloc; "{rule}{place}{detail}")
}
