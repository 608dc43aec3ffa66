//! The last edges that a run went along: a ring of cells that keeps them, what the cells of a dump tell of them, and the
//! lines that show them.
#![tactic(auto)]

ghost use Rattle.edge_ring.specs.Laws.{AllRingsKeepTheLast, RingsTellTheLast};
ghost use Rattle.edge_ring.specs.Stores.{StoresAreRings};

mod fault;
mod lines;
mod reading;

pub use fault::RingFault;
pub use lines::ring_lines;
pub use reading::last_edges;

/// A ring that each completed edge writes its number into keeps the last edges, however long the walk is.
pub fn rings_keep_the_last()
    ensures { AllRingsKeepTheLast }
{}

/// What is told from the dump of a run whose cells are the ring of its walk are the last edges of the walk. The dump is
/// refused only where the run stands between places, and for want of memory.
pub fn rings_tell_the_last()
    ensures { RingsTellTheLast }
{}

/// The store of an edit with the ring's snippets is the ring of the walk.
pub fn stores_are_rings()
    ensures { StoresAreRings }
{}
