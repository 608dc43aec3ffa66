//! How often runs complete the edges of the flow graph, and the walks of the runs of files. There is no code here, but
//! definitions and laws.
#![tactic(auto)]

ghost use Rattle.walk_counts.specs.Counts.{CountsAreEnough, ExecutionsAreFlows, ExecutionsOfFilesAreFlows, LinksAreAGraph, WalksArePaths};
ghost use Rattle.walk_counts.specs.Loops.{LoopsAreOfTexts};
ghost use Rattle.walk_counts.specs.Files.{OnlyTextIsFetched, WalksOfFilesMatch};

/// Where a file without a fault starts, a word can be fetched just where the file's text has it: neither a
/// data segment, nor the stack, nor a last part of the text that is no whole word can be executed.
pub fn only_text_is_fetched()
    ensures { OnlyTextIsFetched }
{}

/// The walk of a file without a fault, from its entry over the graph of its text with its open switches, matches the
/// file's run at each step, as long as that goes on, whatever words lead besides its entry.
pub fn walks_of_files_match()
    ensures { WalksOfFilesMatch }
{}

/// Both ends of each edge of a flow graph are nodes, where a block is the node of its own number, all that lies
/// outside is the node after the last block, and the landed copies of blocks come behind that.
pub fn links_are_a_graph()
    ensures { LinksAreAGraph }
{}

/// The edges of a walk lead from the entry's block to the node where the walk stands, each from where the one
/// before it ends. A jump's edge leads outside, and the landing after it leads in again; a Case edge leads where the
/// jump lands. This also holds once the run has ended: the walk then stands where the last step before that left it.
pub fn walks_are_paths()
    ensures { WalksArePaths }
{}

/// How often a run completes each edge is a flow: into each node leads as much as out of it, where one counts
/// as come into the entry's block, and one as gone out of the node where the walk stands.
pub fn executions_are_flows()
    ensures { ExecutionsAreFlows }
{}

/// So it is of the run of a file without a fault, over the graph of its text.
pub fn executions_of_files_are_flows()
    ensures { ExecutionsOfFilesAreFlows }
{}

/// Where some edges of the graph determine the counts, as those off a spanning tree do, how often a run completes
/// them, with where its walk ends, tells how often it completes each edge.
pub fn counts_are_enough()
    ensures { CountsAreEnough }
{}

/// The number of loops about a word is the same by the blocks, from which edges are weighed, and by the words of the
/// text: each branch is the last word of its block, whatever words are marked.
pub fn loops_are_of_texts()
    ensures { LoopsAreOfTexts }
{}
