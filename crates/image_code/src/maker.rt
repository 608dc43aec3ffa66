//! What makes the pieces of a text.

ghost use Rattle.std.specs.Prelude.{◌≡◌};
ghost use Rattle.image_code.specs.Lookups.{AreFound};
ghost use Rattle.image_code.specs.Made.{jumps_at};

use crate::expansion::Codes;
use crate::lookups::Lookups;
use cfg_normal::FlowGraph;
use eel_base::{Addr, Text};

/// Makes the pieces of a text, of which it has the graph, the lookups of that, and the code of the snippet on each
/// edge; that they belong together is known of each. The table that leads from addresses of the original to new code
/// stands at `table`, the one in which jumps look up at `jumps`, and the words with the places of the pieces of Case
/// edges at `cases`.
#[derive(Clone, Copy)]
pub(crate) struct PieceMaker<'a> {
    pub(crate) text: &'a Text,
    pub(crate) graph: &'a FlowGraph,
    pub(crate) lookups: &'a Lookups,
    pub(crate) codes: &'a Codes,
    pub(crate) table: Addr,
    pub(crate) jumps: Addr,
    pub(crate) cases: Addr,
    ghost found: { ∥ AreFound text.now graph.now lookups.now ∥₁ },
    ghost behind: { jumps.0 ≡ jumps_at text.now table.0 },
}
