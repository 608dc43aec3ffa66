//! Edges with their numbers, and what tools are for.
use cfg_normal::Edge;
use eel_base::EdgeNo;

/// An edge, with its number in the graph.
#[derive(Clone, Copy, Drop)]
pub struct EdgeRef {
    pub no: EdgeNo,
    pub edge: Edge,
}

/// What a tool is for.
#[derive(Clone, Copy)]
pub enum ToolKind {
    /// Nothing is asked.
    Plain,
    /// Edges are counted.
    Profile,
    /// A script says what is done.
    Script,
    /// The last edges are kept.
    Trace,
}
