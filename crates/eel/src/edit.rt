//! The command `edit`.
ghost use Rattle.std.specs.Prelude.{◌≡◌, ◌≤◌, ◌^◌, ℕ, IfErr, IfOk, List, length};
ghost use Rattle.cfg_view.specs.View.{view_of};
ghost use Rattle.cfg_view.specs.Code.{view_seen, IsView};
ghost use Rattle.eel_said.specs.Code.{outcome_seen, tool_seen, KeepsBits};
ghost use Rattle.eel_said.specs.Seen.{files_seen};
ghost use Rattle.eel_reports.specs.Answers.Lines.{lines_of};
ghost use Rattle.eel_reports.specs.Code.{AreRefused, AreWithin, marks_of};
ghost use Rattle.eel.specs.Answers.Tool.{Asks, Edits, IsEditBy, IsNotEdited};
ghost use Rattle.eel.specs.Private.{IsFit, plan_for, refusal_of};

use crate::instrumentation::{Instrumentation, edit_by};
use cfg_view::View;
use edit_core::EditFault;
use eel_base::Files;
use eel_reports::{
    EDIT_LIMIT, fetch_file, fetch_lines, heaviest_tree, measured_tree, put_file, script_in,
    view_for,
};
use eel_said::{EditTool, Outcome};
use std::alloc::Global;

/// Reads `input`, and the lines that the tool takes, edits the one as the tool asks, and writes `output`.
pub fn edit_file<'a, F: Files>(
    alloc: Global,
    files: &mut F,
    input: &'a str,
    output: &str,
    tool: &EditTool<'a>,
) -> Outcome<'a>
    requires { KeepsBits (tool_seen tool.now) }
    ensures edits { Edits (tool_seen tool.now) input.now output.now
        (files_seen F.Files files.old) (files_seen F.Files files.new) (outcome_seen result) }
    ensures later { F.faults files.old ≤ F.faults files.new }
{
    let bytes = match fetch_file(alloc, files, input, EDIT_LIMIT) {
        Ok(bytes) => bytes,
        Err(outcome) => return outcome,
    };
    let lines = match fetch_lines(alloc, files, tool) {
        Ok(lines) => lines,
        Err(outcome) => return outcome,
    };
    match edited(alloc, input, &bytes, tool, &lines) {
        Ok(written) => put_file(files, output, &written),
        Err(outcome) => outcome,
    }
}

/// The edit of the file `input` as a tool asks by these lines.
fn edited<'a>(
    alloc: Global,
    input: &'a str,
    bytes: &[u8],
    tool: &EditTool<'a>,
    lines: &[u8],
) -> Result<Vec<u8>, Outcome<'a>>
    requires bytes { length bytes.now ≤ 2 ^ 26 }
    requires bits { KeepsBits (tool_seen tool.now) }
    requires lines { AreWithin (lines_of (tool_seen tool.now)) lines.now }
    ensures edited { IfOk result (λ file. IsEditBy (tool_seen tool.now) bytes.now lines.now file.items) }
    ensures refused { IfErr result (λ outcome.
        IsNotEdited (tool_seen tool.now) input.now bytes.now lines.now (outcome_seen outcome)) }
{
    let (view, marks) = view_for(alloc, input, bytes, tool)?;
    let work = work_for(alloc, &view, tool, lines)?;
    match edit_by(alloc, bytes, &view, marks, work) {
        Ok(file) => Ok(file),
        Err(fault) => Err(refusal(input, fault)),
    }
}

/// What a tool puts on the edges of a program by these lines.
fn work_for<'a>(
    alloc: Global,
    view: &View,
    tool: &EditTool<'a>,
    lines: &[u8],
) -> Result<Instrumentation, Outcome<'a>>
    requires view { IsView view.now }
    requires few { length view.now.graph.edges ≤ 2 ^ 22 }
    requires bits { KeepsBits (tool_seen tool.now) }
    requires lines { AreWithin (lines_of (tool_seen tool.now)) lines.now }
    ensures asked { (bytes : List ℕ) → view_seen view.now ≡ view_of bytes (marks_of (tool_seen tool.now) bytes)
        → IfOk result (λ work. Asks (tool_seen tool.now) bytes lines.now
        (plan_for work (marks_of (tool_seen tool.now) bytes) bytes)) }
    ensures fit { IfOk result IsFit }
    ensures refused { IfErr result (λ outcome.
        AreRefused (tool_seen tool.now) (view_seen view.now) lines.now (outcome_seen outcome)) }
{
    match tool {
        EditTool::Plain => Ok(Instrumentation::Nothing),
        EditTool::Profile => Ok(Instrumentation::Counters(heaviest_tree(alloc, view)?)),
        EditTool::Weighed(name) => Ok(Instrumentation::Counters(measured_tree(
            alloc, view, *name, lines,
        )?)),
        EditTool::Every => Ok(Instrumentation::Counters(heaviest_tree(alloc, view)?)),
        EditTool::Trace(bits) => Ok(Instrumentation::Ring(*bits)),
        EditTool::Script(name) => Ok(Instrumentation::Script(script_in(
            alloc, view, *name, lines,
        )?)),
    }
}

/// What a refused edit of the file `name` comes to.
pub fn refusal<'a>(name: &'a str, fault: EditFault) -> Outcome<'a>
    ensures { outcome_seen result ≡ refusal_of name.now fault }
{
    match fault {
        EditFault::File(fault) => Outcome::BadFile {
            name,
            code: fault.code(),
        },
        EditFault::Room { needed, had } => Outcome::NoRoom { name, needed, had },
        EditFault::NoMemory => Outcome::OutOfMemory,
    }
}
