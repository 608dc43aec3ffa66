//! What a profile counts is what runs: the counts that are rebuilt from the dump of a written file's run are how often
//! the original's run completes each edge. There is no code here, but definitions and laws.
#![tactic(auto)]

ghost use Rattle.exact_counts.specs.Code.{ClearRunsAreUntouched, CountsOfEndedRunsAreExact, EndedRunsAreWhole};
ghost use Rattle.exact_counts.specs.Laws.{CellsCount, CountsAreExact, ExecutionsAreFew, TreesMakeProfiles, EndedRunsTell};
ghost use Rattle.exact_counts.specs.Sizes.{ExecutionsAddUp, ProfilesEndSoon, ProfilesNeedLittle};

/// The cells of a spanning tree make a profile: a counter in the cell of each edge that has one, and none on the tree.
pub fn trees_make_profiles()
    ensures { TreesMakeProfiles }
{}

/// No step completes an edge twice, so that an edge is completed at most once a step.
pub fn executions_are_few()
    ensures { ExecutionsAreFew }
{}

/// The counter of an edge holds how often the edge was completed, in 32 bits or in 64.
pub fn cells_count()
    ensures { CellsCount }
{}

/// A written file's run that has ended tells how its original's ends: after as many steps as it made visits. Its cells
/// are those of the steps before the last one, and it stands in a place of the node where these lead.
pub fn ended_runs_tell()
    ensures { EndedRunsTell }
{}

/// The counts that are rebuilt from the dump of a profile's run, wherever it is stopped without a touch of the editor's
/// pages by the original, are exact: after fewer than 2^32 steps where the notes have version 1, and fewer than 2^64
/// where they have version 2. No refusal comes but for want of memory, and between places.
pub fn counts_are_exact()
    ensures { CountsAreExact }
{}

/// An original that is granted its accesses, or ends by `exit` with none of its buffers refused, touches no added page.
pub fn clear_runs_are_untouched()
    ensures { ClearRunsAreUntouched }
{}

/// Where both runs have ended, what is told of the steps before the last visit is so of the original's whole run.
pub fn ended_runs_are_whole()
    ensures { EndedRunsAreWhole }
{}

/// So the counts of a run that has ended are those of the original's whole run.
pub fn counts_of_ended_runs_are_exact()
    ensures { CountsOfEndedRunsAreExact }
{}

/// The edit of a profile asks for little room, by the words of the text alone.
pub fn profiles_need_little()
    ensures { ProfilesNeedLittle }
{}

/// The written file of a profile has ended soon after its original, by the steps of that alone.
pub fn profiles_end_soon()
    ensures { ProfilesEndSoon }
{}

/// The executions of all edges are as many as the walk is long.
pub fn executions_add_up()
    ensures { ExecutionsAddUp }
{}
