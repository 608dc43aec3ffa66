//! Reading a line of counts.
ghost use Rattle.std.specs.Prelude.{◌≡◌};
ghost use Rattle.std.specs.Option.{option_map};
ghost use Rattle.weights_in.specs.Weights.{is_address, is_kind, is_node};
ghost use Rattle.weights_in.specs.Parts.{behind, entry_in, entry_of, next_of, said_in, said_of, total_of};

use line_words::{is_word, read_address, read_count, read_number, read_sum, split_at};

/// What a line says.
#[derive(Clone, Copy, Drop)]
pub(crate) enum Line<'a> {
    Edge(EdgeLine<'a>),
    Last(Total),
}

/// An edge, and how often it was completed.
#[derive(Clone, Copy, Drop)]
pub(crate) struct EdgeLine<'a> {
    pub number: u32,
    pub kind: &'a [u8],
    pub from: &'a [u8],
    pub to: &'a [u8],
    pub count: u64,
}

/// How many edges there are, how many of them were counted, and how often all were completed.
#[derive(Clone, Copy, Drop)]
pub(crate) struct Total {
    pub edges: u32,
    pub counted: u32,
    pub executions: u128,
}

/// The line at the front, and what follows it.
#[tactic(auto, unfolding(crate::specs::Parts::next_of))]
pub(crate) fn next_line(bytes: &[u8]) -> Option<(Line, &[u8])>
    ensures { option_map (λ next. (said_in next.0, next.1.now)) result ≡ next_of bytes.now }
{
    let (line, rest) = split_at(bytes, b'\n')?;
    let line = read_line(line)?;
    Some((line, rest))
}

/// What a line without its newline says.
#[tactic(auto, unfolding(crate::specs::Parts::said_of))]
fn read_line(line: &[u8]) -> Option<Line>
    ensures { option_map said_in result ≡ said_of line.now }
{
    let (verb, words) = split_at(line, b' ')?;
    if is_word(verb, "edge") {
        let entry = read_entry(words)?;
        Some(Line::Edge(entry))
    } else if is_word(verb, "edges") {
        let total = read_total(words)?;
        Some(Line::Last(total))
    } else {
        None
    }
}

/// The words behind `edge`.
#[tactic(auto, unfolding(crate::specs::Parts::entry_of))]
fn read_entry(words: &[u8]) -> Option<EdgeLine>
    ensures { option_map entry_in result ≡ entry_of words.now }
{
    let (number, rest) = split_at(words, b' ')?;
    let number = read_number(number)?;
    let (kind, rest) = split_at(rest, b' ')?;
    let (from, rest) = split_at(rest, b' ')?;
    let (to, count) = split_at(rest, b' ')?;
    let count = read_count(count)?;
    if is_kind(kind) && is_node(from) && is_node(to) && count >= 1 {
        Some(EdgeLine {
            number,
            kind,
            from,
            to,
            count,
        })
    } else {
        None
    }
}

/// The words behind `edges`.
#[tactic(auto, unfolding(crate::specs::Parts::total_of))]
fn read_total(words: &[u8]) -> Option<Total>
    ensures { result ≡ total_of words.now }
{
    let (edges, rest) = split_at(words, b' ')?;
    let edges = read_number(edges)?;
    let rest = behind(rest, "counted")?;
    let (counted, rest) = split_at(rest, b' ')?;
    let counted = read_number(counted)?;
    let executions = read_sum(behind(rest, "executions")?)?;
    Some(Total {
        edges,
        counted,
        executions,
    })
}

/// What stands behind this word and a space.
#[tactic(auto, unfolding(crate::specs::Parts::behind))]
fn behind<'a>(line: &'a [u8], word: &str) -> Option<&'a [u8]>
    ensures { option_map (λ rest. rest.now) result ≡ behind word.now line.now }
{
    let (first, rest) = split_at(line, b' ')?;
    if is_word(first, word) {
        Some(rest)
    } else {
        None
    }
}

fn is_kind(word: &[u8]) -> bool
    ensures { result ≡ is_kind word.now }
{
    is_word(word, "fall")
        || is_word(word, "taken")
        || is_word(word, "untaken")
        || is_word(word, "call")
        || is_word(word, "out")
        || is_word(word, "land")
        || is_word(word, "case")
}

/// A node: `x`, an address, or an address and `+`.
fn is_node(word: &[u8]) -> bool
    ensures { result ≡ is_node word.now }
{
    is_word(word, "x")
        || is_address(word)
        || (word.len() == 9 && is_word(&word[8..], "+") && is_address(&word[..8]))
}

fn is_address(word: &[u8]) -> bool
    ensures { result ≡ is_address word.now }
{
    read_address(word).is_some()
}
