//! Snippets, the small code that is put on edges, and the scripts that say them.
//!
//! A script is a text of lines. A line that is empty or begins with `#` says nothing; each other line names an edge
//! and an operation on a cell, as `edge 1 add 0 3`. `specs/Grammar.antt` has the spelling.
#![tactic(auto)]

ghost use Rattle.snippets.specs.Laws.{GoodScriptsAreWithin, LinesSayOneThing, NamedRegistersDecide};

mod line;
mod reading;
mod script;
mod snippet;

pub use reading::read_script;
pub use script::{Script, ScriptFault};
pub use snippet::{Op, Snippet};

/// Of any lines, each says just one thing: nothing, an operation on an edge, or what is outside the grammar.
pub fn lines_say_one_thing()
    ensures { LinesSayOneThing }
{}

/// A script without a bad line names only edges that there are, at most 2^22 cells, each below their number, and at
/// most eight operations on each edge.
pub fn good_scripts_are_within()
    ensures { GoodScriptsAreWithin }
{}

/// What a snippet makes of the cells depends on the registers alone that it names, and on %g0.
pub fn named_registers_decide()
    ensures { NamedRegistersDecide }
{}
