//! The lines that the command `demo` tells of a program.
ghost use Rattle.std.specs.Prelude.{◌≡◌, ◌<◌, ◌++◌, ℕ, IfOk, OnOk, Some};
ghost use Rattle.cfg_view.specs.Code.{view_seen};
ghost use Rattle.eel_said.specs.Outcome.{ending_text as ending_text_of};
ghost use Rattle.eel_reports.specs.Answers.Demo.{demo_lines as demo_lines_of, ending_line, executions_line, name_line, size_in, size_line};

use crate::alone::End;
use cfg_view::View;
use eel_base::NoMemory;
use itoa::Buffer;
use show_text::put_line;
use std::alloc::Global;
use v8_step::Ending;

/// How large a program is.
#[derive(Clone, Copy)]
pub struct Size {
    pub words: usize,
    pub blocks: usize,
    pub edges: usize,
}

/// How many words, blocks and edges the program has.
pub fn size_of(view: &View) -> Size
    ensures { result ≡ size_in (view_seen view.now) }
{
    Size {
        words: view.image.text().len() as usize,
        blocks: view.graph.count() as usize,
        edges: view.graph.edges().len(),
    }
}

/// The lines on a program of this size, made so, whose run ends so and completes edges so often.
pub fn demo_lines(
    alloc: Global,
    number: u32,
    routines: u32,
    size: Size,
    end: End,
    executions: u128,
) -> Result<Vec<u8>, NoMemory>
    ensures { IfOk result (λ lines.
        lines.items ≡ demo_lines_of number routines size end.ending end.steps executions) }
{
    let mut lines = Vec::new(alloc);
    put_name(&mut lines, number, routines)?;
    put_size(&mut lines, size)?;
    put_end(alloc, &mut lines, end)?;
    put_executions(&mut lines, executions)?;
    Ok(lines)
}

/// Adds the line that says what was made.
fn put_name(lines: &mut Vec<u8>, number: u32, routines: u32) -> Result<(), NoMemory>
    ensures { OnOk result (lines.new.items ≡ lines.old.items ++ name_line number routines) }
{
    let mut number_digits = Buffer::new();
    let mut routine_digits = Buffer::new();
    let number = number_digits.format(number).as_bytes();
    let routines = routine_digits.format(routines).as_bytes();
    put_line(lines, b"demo", &[number, b"routines", routines])?;
    Ok(())
}

/// Adds the line that says how large it is.
fn put_size(lines: &mut Vec<u8>, size: Size) -> Result<(), NoMemory>
    ensures { OnOk result (lines.new.items ≡ lines.old.items ++ size_line size) }
{
    let mut word_digits = Buffer::new();
    let mut block_digits = Buffer::new();
    let mut edge_digits = Buffer::new();
    let words = word_digits.format(size.words).as_bytes();
    let blocks = block_digits.format(size.blocks).as_bytes();
    let edges = edge_digits.format(size.edges).as_bytes();
    put_line(
        lines,
        b"words",
        &[words, b"blocks", blocks, b"edges", edges],
    )?;
    Ok(())
}

/// Adds the line that says how its run ended.
fn put_end(alloc: Global, lines: &mut Vec<u8>, end: End) -> Result<(), NoMemory>
    ensures { OnOk result (lines.new.items ≡ lines.old.items ++ ending_line end.ending end.steps) }
{
    let mut digits = Buffer::new();
    let text = ending_text(alloc, end.ending)?;
    let steps = digits.format(end.steps).as_bytes();
    put_line(lines, b"ending", &[&text, b"steps", steps])?;
    Ok(())
}

/// How a run ended, as it is told.
fn ending_text(alloc: Global, ending: Ending) -> Result<Vec<u8>, NoMemory>
    ensures { (steps : ℕ) → IfOk result (λ text. text.items ≡ ending_text_of (Some ending) steps) }
{
    let mut text = Vec::new(alloc);
    put_ending(&mut text, ending)?;
    Ok(text)
}

fn put_ending(text: &mut Vec<u8>, ending: Ending) -> Result<(), NoMemory>
    ensures { (steps : ℕ) → OnOk result (text.new.items ≡ text.old.items ++ ending_text_of (Some ending) steps) }
{
    let mut digits = Buffer::new();
    match ending {
        Ending::Exit(status) => put_two(text, b"exit ", digits.format(status).as_bytes()),
        Ending::Trap(number) => put_two(text, b"trap ", digits.format(number).as_bytes()),
        Ending::Window => put_two(text, b"window", b""),
        Ending::Couple => put_two(text, b"couple", b""),
    }
}

fn put_two(text: &mut Vec<u8>, first: &[u8], second: &[u8]) -> Result<(), NoMemory>
    ensures { OnOk result (text.new.items ≡ text.old.items ++ first.now ++ second.now) }
{
    text.extend_from_slice(first)?;
    text.extend_from_slice(second)?;
    Ok(())
}

/// Adds the line that says how often edges are completed in all.
fn put_executions(lines: &mut Vec<u8>, executions: u128) -> Result<(), NoMemory>
    ensures { OnOk result (lines.new.items ≡ lines.old.items ++ executions_line executions) }
{
    let mut digits = Buffer::new();
    let executions = digits.format(executions).as_bytes();
    put_line(lines, b"executions", &[executions])?;
    Ok(())
}
