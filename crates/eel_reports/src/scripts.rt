//! Scripts of edits.
ghost use Rattle.std.specs.Prelude.{◌≡◌, ◌≤◌, ◌^◌, IfErr, IfOk, length};
ghost use Rattle.cfg_view.specs.Code.{view_seen};
ghost use Rattle.eel_said.specs.Command.{Script as ScriptTool};
ghost use Rattle.eel_said.specs.Code.{outcome_seen};
ghost use Rattle.eel_reports.specs.Code.{AreRefused, HasCells, IsReadAs};
ghost use Rattle.eel_reports.specs.Private.{script_refusal_of};

use cfg_view::View;
use eel_said::{LineCause, Outcome};
use snippets::{Script, ScriptFault, read_script};
use std::alloc::Global;

/// The script that the lines of the file `name` are, for the edges of a program.
pub fn script_in<'a>(
    alloc: Global,
    view: &View,
    name: &'a str,
    lines: &[u8],
) -> Result<Script, Outcome<'a>>
    requires { length lines.now ≤ 2 ^ 24 }
    ensures script { IfOk result (λ script. IsReadAs (length view.now.graph.edges) lines.now script) }
    ensures cells { IfOk result (λ script. HasCells script) }
    ensures refused { IfErr result (λ outcome.
        AreRefused (ScriptTool name.now) (view_seen view.now) lines.now (outcome_seen outcome)) }
{
    match read_script(alloc, lines, edge_count(view)) {
        Ok(script) => Ok(script),
        Err(fault) => Err(refusal(name, fault)),
    }
}

/// How many edges there are.
fn edge_count(view: &View) -> u32
    ensures { result ≡ length view.now.graph.edges }
{
    view.graph.edges().len() as u32
}

/// What a refused script of the file `name` comes to.
fn refusal<'a>(name: &'a str, fault: ScriptFault) -> Outcome<'a>
    ensures { outcome_seen result ≡ script_refusal_of name.now fault }
{
    let (number, cause) = match fault {
        ScriptFault::Line(number) => (number, LineCause::Grammar),
        ScriptFault::Edge(number) => (number, LineCause::Edge),
        ScriptFault::Cell(number) => (number, LineCause::Cell),
        ScriptFault::Ops(number) => (number, LineCause::Operations),
        ScriptFault::NoMemory => return Outcome::OutOfMemory,
    };
    Outcome::BadLine {
        name,
        number,
        cause,
    }
}
