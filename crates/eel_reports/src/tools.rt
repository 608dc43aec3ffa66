//! What a tool of `edit` takes: lines, and the view of the program.
ghost use Rattle.std.specs.Prelude.{◌≡◌, ◌≤◌, IfErr, IfOk};
ghost use Rattle.cfg_blocks.specs.Marks.{numbers};
ghost use Rattle.cfg_view.specs.View.{view_of};
ghost use Rattle.cfg_view.specs.Code.{view_seen, IsView};
ghost use Rattle.eel_said.specs.Code.{outcome_seen, tool_seen};
ghost use Rattle.eel_said.specs.Seen.{files_seen};
ghost use Rattle.eel_reports.specs.Answers.Files.{IsNotSound, IsSound};
ghost use Rattle.eel_reports.specs.Answers.Lines.{lines_of};
ghost use Rattle.eel_reports.specs.Code.{AreLines, AreUnread, marks_of};

use crate::every::look_at_words;
use crate::inputs::{unsound, view_in};
use crate::texts::fetch_file;
use cfg_view::View;
use eel_base::{Files, WordNo};
use eel_said::{EditTool, Outcome};
use std::alloc::Global;

/// How many bytes the lines of weights may have.
const WEIGHTS_LIMIT: u64 = 256 << 20;

/// How many bytes a script may have.
const SCRIPT_LIMIT: u64 = 16 << 20;

/// Reads the lines that a tool takes, if it takes some.
pub fn fetch_lines<'a, F: Files>(
    alloc: Global,
    files: &mut F,
    tool: &EditTool<'a>,
) -> Result<Vec<u8>, Outcome<'a>>
    ensures read { IfOk result (λ lines.
        AreLines (lines_of (tool_seen tool.now)) (files_seen F.Files files.old) lines.items) }
    ensures unread { IfErr result (λ outcome. AreUnread (lines_of (tool_seen tool.now))
        (files_seen F.Files files.old) (files_seen F.Files files.new) (outcome_seen outcome)) }
    ensures kept { F.held files.new ≡ F.held files.old }
    ensures later { F.faults files.old ≤ F.faults files.new }
{
    match tool {
        EditTool::Weighed(name) => fetch_file(alloc, files, *name, WEIGHTS_LIMIT),
        EditTool::Script(name) => fetch_file(alloc, files, *name, SCRIPT_LIMIT),
        EditTool::Plain | EditTool::Profile | EditTool::Every | EditTool::Trace(_) => {
            Ok(Vec::new(alloc))
        }
    }
}

/// The view of the file `name` with the words marked that a tool marks, and these.
pub fn view_for<'a>(
    alloc: Global,
    name: &'a str,
    bytes: &[u8],
    tool: &EditTool,
) -> Result<(View, Vec<WordNo>), Outcome<'a>>
    ensures view { IfOk result (λ looked. view_seen looked.0 ≡ view_of bytes.now (marks_of (tool_seen tool.now) bytes.now)) }
    ensures marks { IfOk result (λ looked. numbers looked.1.items ≡ marks_of (tool_seen tool.now) bytes.now) }
    ensures whole { IfOk result (λ looked. IsView looked.0) }
    ensures sound { IfOk result (λ looked. IsSound bytes.now) }
    ensures refused { IfErr result (λ outcome. IsNotSound name.now bytes.now (outcome_seen outcome)) }
{
    match tool {
        EditTool::Every => match look_at_words(alloc, bytes) {
            Ok(looked) => Ok(looked),
            Err(fault) => Err(unsound(name, fault)),
        },
        EditTool::Plain
        | EditTool::Profile
        | EditTool::Weighed(_)
        | EditTool::Trace(_)
        | EditTool::Script(_) => Ok((view_in(alloc, name, bytes)?, Vec::new(alloc))),
    }
}
