//! The code of snippets: words that do just a snippet's operations on cells in memory, in registers that are dead or
//! are put back as they were.
#![tactic(auto)]

ghost use Rattle.snippet_code.specs.Laws.{CostsHold, SnippetCodeRuns, SnippetsRun};

mod expanding;
mod operations;
mod single;

pub use expanding::expand;

/// Words that say a snippet's instructions do just the snippet, from every state that is about to run them.
pub fn snippets_run()
    ensures { SnippetsRun }
{}

/// The words of a snippet's code decode to its instructions, and so do just the snippet, too.
pub fn snippet_code_runs()
    ensures { SnippetCodeRuns }
{}

/// The words of a snippet are no more than it costs, and at most 22 for each operation.
pub fn costs_hold()
    ensures { CostsHold }
{}
