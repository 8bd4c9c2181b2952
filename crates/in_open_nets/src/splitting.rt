ghost use Rattle.std.specs.Prelude.{◌≡◌, ◌<◌, ◌↔◌, length, IfOk, IsTrue};
ghost use Rattle.in_simple_bridges.specs.Cycles.{AreCycles};
ghost use Rattle.in_open_nets.specs.ClassEdges.{IsGraphOf};
ghost use Rattle.in_open_nets.specs.OpenNets.{IsOrderly};
ghost use Rattle.in_open_nets.specs.Parts.{IsFirstIn, SplitsIt};

use crate::class_graphs::ClassGraph;
use crate::parts::Part;
use in_base::use_promise;
use in_simple_bridges::on_cycles;
use sqlite_items::Items;
use std::alloc::{AllocError, Global};

/// Whether the node is in the part and splits it: each of its hub edges is a bridge.
fn splits(part: &Part, graph: &ClassGraph, cycles: &Items<bool>, node: usize) -> bool
    requires node { node < length part.now.wired.now.nodes }
    requires graph { IsGraphOf part.now.wired.now part.now.nodes.now graph.now }
    requires cycles { AreCycles graph.now.edges (length graph.now.edges) cycles.now }
    ensures { IsTrue result ↔ SplitsIt part.now.wired.now part.now.nodes.now node }
{
    if part.nodes.has(node) {
        graph.is_off_cycles(cycles, node, part.wired.width(node))
    } else {
        false
    }
}

/// The first node that is off the cycles of the part's class graph.
fn first_off_cycles(part: &Part, graph: &ClassGraph, cycles: &Items<bool>) -> Option<usize>
    requires graph { IsGraphOf part.now.wired.now part.now.nodes.now graph.now }
    requires cycles { AreCycles graph.now.edges (length graph.now.edges) cycles.now }
    ensures net { IsOrderly part.now.wired.now }
    ensures found { IsFirstIn part.now.wired.now part.now.nodes.now result }
{
    use_promise!(part.wired.nodes());
    for member in part.nodes.members() {
        let node = *member as usize;
        if splits(part, graph, cycles, node) {
            return Some(node);
        }
    }
    None
}

/// The first node of the part that splits it, by the part's class graph.
fn first_in(alloc: Global, part: &Part, graph: &ClassGraph) -> Result<Option<usize>, AllocError>
    requires { IsGraphOf part.now.wired.now part.now.nodes.now graph.now }
    ensures net { IfOk result (λ found. IsOrderly part.now.wired.now) }
    ensures found { IfOk result (IsFirstIn part.now.wired.now part.now.nodes.now) }
{
    let cycles = on_cycles(alloc, graph.count, &graph.edges)?;
    Ok(first_off_cycles(part, graph, &cycles))
}

/// The first node of the part, by number, that splits it: each of its hub edges in the part's class graph is a bridge. The graph is listed anew.
pub fn first_splitting(
    alloc: Global,
    part: &Part,
    graph: &mut ClassGraph,
) -> Result<Option<usize>, AllocError>
    ensures net { IfOk result (λ found. IsOrderly part.now.wired.now) }
    ensures found { IfOk result (IsFirstIn part.now.wired.now part.now.nodes.now) }
{
    graph.list(alloc, part)?;
    first_in(alloc, part, graph)
}
