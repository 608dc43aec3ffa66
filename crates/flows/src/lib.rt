//! Flows on a graph, and the least set of edges whose counts determine all counts.
//!
//! The definitions stand in specs/. Each function below has an empty body, and a law about every graph as its contract.
//! Source: Thomas Ball and James R. Larus, "Optimally Profiling and Tracing Programs", ACM TOPLAS 16 (4), 1994.
#![tactic(auto)]

ghost use Rattle.std.specs.Prelude.{◌≡◌, ◌↔◌, IsTrue};
ghost use Rattle.flows.specs.Laws.{WalksAreFlows, DeterminesWhereNoCycle, AgreeOffSpanningTree, LeastOffHeaviestTree, GrownTreesSpan};
ghost use Rattle.flows.specs.Links.{IsLinked, JoinsNodes, marked};

/// An edge of a graph, by the numbers of the nodes that it leads from and to.
#[derive(Clone, Copy, Drop)]
pub struct Link {
    pub from: usize,
    pub to: usize,
}

/// Whether both ends of each link are below `nodes`.
pub fn is_linked(nodes: usize, links: &[Link]) -> bool
    ensures { IsTrue result ↔ IsLinked nodes links.now }
{
    links
        .iter()
        .all(|link| link.from < nodes && link.to < nodes)
}

/// Whether the list marks a number. It marks none past its end.
pub fn is_marked(marks: &[bool], number: usize) -> bool
    ensures { result ≡ marked marks.now number }
{
    marks.get(number).copied().unwrap_or(false)
}

/// Whether both ends of each link are nodes.
pub fn joins_nodes(is_node: &[bool], links: &[Link]) -> bool
    ensures { IsTrue result ↔ JoinsNodes is_node.now links.now }
{
    links.iter().all(|link| is_marked(is_node, link.from) && is_marked(is_node, link.to))
}

/// The counts of a walk obey the law of flow at each node.
pub fn walks_are_flows()
    ensures { WalksAreFlows }
{}

/// Which edges need no counter: those that have no cycle among them.
pub fn determines_where_no_cycle()
    ensures { DeterminesWhereNoCycle }
{}

/// Counters off any spanning tree are enough.
pub fn agree_off_spanning_tree()
    ensures { AgreeOffSpanningTree }
{}

/// Counters off a heaviest tree weigh least, among all sets of edges.
pub fn least_off_heaviest_tree()
    ensures { LeastOffHeaviestTree }
{}

/// Growth from one node makes a spanning tree.
pub fn grown_trees_span()
    ensures { GrownTreesSpan }
{}
