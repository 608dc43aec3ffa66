//! The lines of visits.
ghost use Rattle.std.specs.Prelude.{◌≡◌, ◌^◌, ◌<◌, [], ◌∷◌, ◌++◌, codes, decimal, length, IfOk, OnOk, All};
ghost use Rattle.std.specs.List.{count_by, enumerate_from, flat_map, sum};
ghost use Rattle.eel_base.specs.Fields.{hex_of};
ghost use Rattle.show_text.specs.Lines.{line};
ghost use Rattle.instr_counts.specs.Lines.{is_visited, total_line, visit_line, visit_lines};

use cfg_view::View;
use eel_base::{Addr, NoMemory, Text, WordNo, hex8};
use itoa::Buffer;
use show_text::put_line;
use std::alloc::Global;

/// The lines that show how often the words of a view were visited: each word that was, in the order of their addresses,
/// and how many there are in all.
#[tactic(auto, unfolding(crate::specs::Lines::visit_lines))]
pub fn lines(alloc: Global, v: &View, visits: &[u128]) -> Result<Vec<u8>, NoMemory>
    requires visits { length visits.now ≡ length v.now.image.text.words }
    requires small { All (λ count. count < 2 ^ 100) visits.now }
    ensures { IfOk result (λ lines. lines.items ≡ visit_lines v.now.image.text visits.now) }
{
    let text = v.image.text();
    prove!(text.len() <= 1 << 20);
    let mut lines = Vec::new(alloc);
    put_visits(&mut lines, text, visits)?;
    put_total(&mut lines, visits)?;
    Ok(lines)
}

fn put_visits(lines: &mut Vec<u8>, text: &Text, visits: &[u128]) -> Result<(), NoMemory>
    requires visits { length visits.now ≡ length text.now.words }
    requires few { length visits.now < 2 ^ 24 }
    ensures { OnOk result (lines.new.items
        ≡ lines.old.items ++ flat_map (visit_line text.now) (enumerate_from 0 visits.now)) }
{
    for (word, count) in visits.iter().enumerate() {
        put_visit(lines, text, WordNo(word as u32), *count)?;
    }
    Ok(())
}

/// Adds the line of a word, if it was visited.
fn put_visit(lines: &mut Vec<u8>, text: &Text, word: WordNo, count: u128) -> Result<(), NoMemory>
    requires { word.0 < length text.now.words }
    ensures { OnOk result (lines.new.items ≡ lines.old.items ++ visit_line text.now (word.0, count)) }
{
    if count == 0 {
        return Ok(());
    }
    put_times(lines, text.address(word), count)?;
    Ok(())
}

/// Adds the line of the word at an address.
fn put_times(lines: &mut Vec<u8>, address: Addr, count: u128) -> Result<(), NoMemory>
    ensures { OnOk result (lines.new.items
        ≡ lines.old.items ++ line (codes "word" ∷ hex_of address.0 ∷ decimal count ∷ [])) }
{
    let mut times = Buffer::new();
    let address = hex8(address.0);
    let times = times.format(count).as_bytes();
    put_line(lines, b"word", &[&address, times])?;
    Ok(())
}

/// Adds the line that says how many words there are, how many were visited, and how often all were.
fn put_total(lines: &mut Vec<u8>, visits: &[u128]) -> Result<(), NoMemory>
    requires few { length visits.now < 2 ^ 24 }
    requires small { All (λ count. count < 2 ^ 100) visits.now }
    ensures { OnOk result (lines.new.items ≡ lines.old.items ++ total_line visits.now) }
{
    let mut words = Buffer::new();
    let mut visited = Buffer::new();
    let mut sum = Buffer::new();
    let words = words.format(visits.len()).as_bytes();
    let visited = visited.format(count_visited(visits)).as_bytes();
    let sum = sum.format(sum_of(visits)).as_bytes();
    put_line(
        lines,
        b"words",
        &[words, b"visited", visited, b"visits", sum],
    )?;
    Ok(())
}

/// How many words were visited.
fn count_visited(visits: &[u128]) -> usize
    ensures { result ≡ count_by is_visited visits.now }
{
    visits.iter().filter(|count| **count != 0).count()
}

fn sum_of(visits: &[u128]) -> u128
    requires few { length visits.now < 2 ^ 24 }
    requires small { All (λ count. count < 2 ^ 100) visits.now }
    ensures { result ≡ sum visits.now }
{
    let mut sum = 0;
    for count in visits {
        sum += *count;
    }
    sum
}
