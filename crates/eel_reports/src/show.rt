//! The commands `show` and `list`: what is printed of a program.
ghost use Rattle.std.specs.Prelude.{◌≡◌, ◌≤◌, IfOk, IfErr};
ghost use Rattle.cfg_view.specs.Code.{view_seen, IsView};
ghost use Rattle.eel_said.specs.Outcome.{Stream};
ghost use Rattle.eel_said.specs.Code.{outcome_seen};
ghost use Rattle.eel_said.specs.Seen.{files_seen, stream_seen};
ghost use Rattle.eel_said.specs.Shared.{Feed, outside};
ghost use Rattle.eel_said.specs.declared.command.Shown.TheVariants as shows;
ghost use Rattle.eel_reports.specs.Answers.Files.{IsNotSound};
ghost use Rattle.eel_reports.specs.Answers.Print.{AreLinesOf, PrintsFile};
ghost use Rattle.eel_reports.specs.Answers.Show.{lines_of};

use crate::inputs::{unsound, view_in};
use crate::texts::{EDIT_LIMIT, fetch_file, print};
use cfg_view::View;
use eel_base::{Files, NoMemory, Sink};
use eel_said::{Outcome, Shown};
use elf32_sparc::read_image;
use show_text::show;
use std::alloc::Global;
use v8_text::listing;

/// Reads the program, and prints what is shown of it.
pub fn show_program<'a, F: Files, O: Sink>(
    alloc: Global,
    shown: Shown,
    file: &'a str,
    files: &mut F,
    out: &mut O,
) -> Outcome<'a>
    // Whatever the input and the error stream are, they stay so.
    ensures prints { (feed : Feed) (err : Stream) → PrintsFile shown file.now
        (outside (files_seen F.Files files.old) feed (stream_seen O.Sink out.old) err)
        (outside (files_seen F.Files files.new) feed (stream_seen O.Sink out.new) err)
        (outcome_seen result) }
    ensures kept { F.held files.new ≡ F.held files.old }
    ensures files_faults { F.faults files.old ≤ F.faults files.new }
    ensures out_faults { O.faults out.old ≤ O.faults out.new }
{
    let bytes = match fetch_file(alloc, files, file, EDIT_LIMIT) {
        Ok(bytes) => bytes,
        Err(outcome) => return outcome,
    };
    match lines(alloc, shown, file, &bytes) {
        Ok(lines) => print(out, &lines),
        Err(outcome) => outcome,
    }
}

/// The lines of what is shown of the file `name`.
fn lines<'a>(
    alloc: Global,
    shown: Shown,
    name: &'a str,
    bytes: &[u8],
) -> Result<Vec<u8>, Outcome<'a>>
    ensures lines { IfOk result (λ lines. AreLinesOf shown bytes.now lines.items) }
    ensures refused { IfErr result (λ outcome. IsNotSound name.now bytes.now (outcome_seen outcome)) }
{
    match shown {
        Shown::Graph => graph_lines(alloc, name, bytes),
        Shown::Words => word_lines(alloc, name, bytes),
    }
}

/// The routines, blocks, edges and switches of the file `name`.
fn graph_lines<'a>(alloc: Global, name: &'a str, bytes: &[u8]) -> Result<Vec<u8>, Outcome<'a>>
    ensures lines { IfOk result (λ lines. AreLinesOf shows.Graph bytes.now lines.items) }
    ensures refused { IfErr result (λ outcome. IsNotSound name.now bytes.now (outcome_seen outcome)) }
{
    let view = view_in(alloc, name, bytes)?;
    Ok(view_lines(alloc, &view)?)
}

/// The lines that show a view and its switches.
fn view_lines(alloc: Global, view: &View) -> Result<Vec<u8>, NoMemory>
    requires { IsView view.now }
    ensures { IfOk result (λ lines. lines.items ≡ lines_of (view_seen view.now)) }
{
    let lines = show(alloc, view, &view.switches)?;
    Ok(lines)
}

/// The instructions of the text of the file `name`, a line each.
fn word_lines<'a>(alloc: Global, name: &'a str, bytes: &[u8]) -> Result<Vec<u8>, Outcome<'a>>
    ensures lines { IfOk result (λ lines. AreLinesOf shows.Words bytes.now lines.items) }
    ensures refused { IfErr result (λ outcome. IsNotSound name.now bytes.now (outcome_seen outcome)) }
{
    let image = match read_image(alloc, bytes) {
        Ok(image) => image,
        Err(fault) => return Err(unsound(name, fault)),
    };
    Ok(listing(alloc, image.text())?)
}
