//! What chooses snippets.
use crate::edge_ref::EdgeRef;
use snippets::Snippet;

/// What answers a snippet for an edge.
pub trait Chooser: Drop {
    ghost use Rattle.std.specs.Prelude.{List};
    ghost use Rattle.snippets.specs.declared.snippet.Op.{Op};
    ghost use Rattle.tool_kit.specs.declared.edge_ref.EdgeRef.{EdgeRef};

    // it may be called on this edge
    ghost may: { Self → EdgeRef → Type 0 };

    // it may answer this snippet
    ghost says: { Self → EdgeRef → List Op → Type 0 };

    /// The snippet for an edge.
    fn choose(&self, edge: EdgeRef) -> Snippet
        requires { may self.now edge }
        ensures { says self.now edge result };
}
