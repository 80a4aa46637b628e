// The outputs with their weights and quality graphs.
ghost use Rattle.std.specs.Prelude.{◌≡◌, ◌≤◌, ◌<◌, ◌^◌, true, false, Some, None, IfOk, IfErr, length, map};
ghost use Rattle.std.specs.List.{list_all};
ghost use Rattle.sq_tables.specs.Refusals.{is_memory};
ghost use Rattle.sq_rules.specs.Limits.{told_output_within};
ghost use Rattle.sq_reader.specs.Outputs.{graph_fault_at, graph_fault_from, output_of, point_number, graph_points};

use crate::bodies::natural;
use crate::push;
use sq_net::{NetErr, Output, Part};
use sq_qos::Graph;
use sq_rules::part_place;
use sq_tables::OutputTable;
use sq_value::copy_name;
use std::alloc::{AllocError, Global};

fn point_number(number: i64) -> u32
    ensures { result ≡ point_number number }
{
    u32::try_from(number).unwrap_or(u32::MAX)
}

fn graph_points(alloc: Global, points: &[(i64, i64)]) -> Result<Vec<(u32, u32)>, AllocError>
    ensures { IfOk result (λ v. v.items ≡ graph_points points.now) }
{
    points
        .iter()
        .map(|point| (point_number(point.0), point_number(point.1)))
        .collect(alloc)
}

fn graph_in(alloc: Global, number: usize, points: &[(i64, i64)]) -> Result<Graph, NetErr>
    requires { number < 2 ^ 32 }
    ensures graph { IfOk result (λ g. g ≡ graph_points points.now) }
    ensures ok { IfOk result (λ _. graph_fault_at number points.now ≡ None) }
    ensures err { IfErr result (λ e. is_memory e ≡ false → graph_fault_at number points.now ≡ Some e) }
{
    match Graph::new(graph_points(alloc, points)?) {
        Ok(graph) => Ok(graph),
        Err(why) => Err(NetErr::Graph(part_place(Part::Output, number), why)),
    }
}

fn output_of(output: &OutputTable, graph: Graph) -> Result<Output, AllocError>
    requires within { told_output_within output.now ≡ true }
    requires graph { graph ≡ graph_points output.now.graph }
    ensures { IfOk result (λ o. o ≡ output_of output.now) }
{
    let name = copy_name(&output.name)?;
    Ok(Output {
        name,
        weight: natural(output.weight) as u32,
        graph,
    })
}

/// The outputs, or the first whose points are no graph.
pub(crate) fn outputs_in(alloc: Global, outputs: &[OutputTable]) -> Result<Vec<Output>, NetErr>
    requires few { length outputs.now ≤ 32 }
    requires within { list_all told_output_within outputs.now ≡ true }
    ensures outputs { IfOk result (λ v. v.items ≡ map output_of outputs.now) }
    ensures ok { IfOk result (λ _. graph_fault_from 0 outputs.now ≡ None) }
    ensures err { IfErr result (λ e. is_memory e ≡ false → graph_fault_from 0 outputs.now ≡ Some e) }
{
    let mut found = Vec::new(alloc);
    for (number, output) in outputs.iter().enumerate() {
        match graph_in(alloc, number, output.graph.as_slice()) {
            Ok(graph) => push(&mut found, output_of(output, graph)?)?,
            Err(e) => return Err(e),
        }
    }
    Ok(found)
}
