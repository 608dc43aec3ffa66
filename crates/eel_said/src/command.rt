//! The words of the program.
ghost use Rattle.std.specs.Prelude.{◌≡◌, ◌≤◌, ◌+◌, ◌∷◌, length, nat_le, decimal, IfSome};
ghost use Rattle.std.specs.Bool.{OnTrue};
ghost use Rattle.std.specs.List.{All, list_all};
ghost use Rattle.std.specs.Str.{bytes_eq};
ghost use Rattle.v8_step.specs.State.{AreBytes};
ghost use Rattle.v8_process.specs.Arguments.{AreArguments, texts};
ghost use Rattle.v8_process.specs.Start.{strings};
ghost use Rattle.eel_said.specs.Code.{KeepsBits, KeepsLimits, command_seen, name_seen, tool_seen};
ghost use Rattle.eel_said.specs.Command.{Trace, command_of, edit_of, edit_with, of_one, of_two, tool_of, tool_with, run_of, PutWords, ReportRun, Restore, Show, options_of, option_in, late_in, limit_in, arguments_of, are_few, is_digit, number_within, demo_of, demo_with as demo_with_of, bits_of};
ghost use Rattle.std.specs.Option.{option_map};

use itoa::Buffer;

/// What is shown of a program.
#[derive(Clone, Copy)]
pub enum Shown {
    /// Its routines, blocks and edges.
    Graph,
    /// Its instructions, a line for each word of its text.
    Words,
}

/// What is told of a run.
#[derive(Clone, Copy)]
pub enum Report {
    /// How often each edge was completed.
    Counts,
    /// How often each instruction ran.
    Visits,
    /// The last edges that the run went along.
    LastEdges,
}

/// What an edit puts on the edges of a program.
#[derive(Clone, Copy)]
pub enum EditTool<'a> {
    /// `plain`: nothing.
    Plain,
    /// `profile`: counters off a spanning tree.
    Profile,
    /// `profile WEIGHTS`: counters off the tree that weighs most by the counts in this file.
    Weighed(&'a str),
    /// `every`: counters off a spanning tree where each word is a block by itself.
    Every,
    /// `trace BITS`: a ring of 2^BITS places that keeps the last edges.
    Trace(u32),
    /// `script SCRIPT`: what the lines of this file say.
    Script(&'a str),
}

/// What the words ask for.
#[derive(Clone, Copy)]
pub enum Command<'a> {
    /// `edit INPUT OUTPUT TOOL`: write the file `input` again as `output`, with what a tool asks for on its edges.
    Edit {
        input: &'a str,
        output: &'a str,
        tool: EditTool<'a>,
    },
    /// `run FILE [-n LIMIT] [-d DUMP] [-- ARG..]`: run the program `file` with these arguments, for `limit` steps at
    /// most, and write what it has come to as the file `dump`, where one is named.
    Run {
        file: &'a str,
        limit: u64,
        dump: Option<&'a str>,
        args: &'a [&'a str],
    },
    /// `show FILE`, `list FILE`: print what is shown of the program `file`.
    Show {
        shown: Shown,
        file: &'a str,
    },
    /// `words LISTING OUTPUT`: write the words of the file `listing`, which is such lines, as the file `output`.
    PutWords {
        listing: &'a str,
        output: &'a str,
    },
    /// `restore WRITTEN OUTPUT`: write the original that the file `written` was made of as the file `output`.
    Restore {
        written: &'a str,
        output: &'a str,
    },
    /// `counts WRITTEN DUMP`, `visits WRITTEN DUMP`, `trace WRITTEN DUMP`: print how often each edge was completed by the
    /// run of the file `written` that came to the dump `dump`, how often each instruction ran, if the file was edited
    /// for `every` word, or the last edges that the run went along.
    ReportRun {
        report: Report,
        written: &'a str,
        dump: &'a str,
    },
    /// `demo NUMBER ROUTINES`: make a program of so many routines from the number, edit it with counters, run both, and
    /// print what is told of them.
    Demo {
        number: u32,
        routines: u32,
    },
    /// The words are outside the grammar.
    Unknown,
}

/// How many steps a run makes at most, where the words don't say it.
const DEFAULT_LIMIT: u64 = 100_000_000;

/// How many arguments a program can be given.
const MOST_ARGUMENTS: usize = 1000;

/// How many bytes they have at most, with a zero byte after each.
const MOST_ARGUMENT_BYTES: usize = 65_536;

/// How many digits a limit has at most.
const MOST_DIGITS: usize = 20;

/// How many digits other numbers have at most.
const MOST_NUMBER_DIGITS: usize = 10;

/// How many routines a program that is made has at most.
const MOST_ROUTINES: u32 = 100_000;

/// How many bits a ring has at most.
const MOST_BITS: u32 = 16;

/// The command that the words are.
pub fn parse<'a>(words: &'a [&'a str]) -> Command<'a>
    ensures command { command_seen result ≡ command_of (texts words.now) }
    ensures few { KeepsLimits (command_seen result) }
{
    match words {
        [verb, words @ ..] => parse_verb(verb, words),
        [] => Command::Unknown,
    }
}

/// The command that begins with a word.
fn parse_verb<'a>(verb: &str, words: &'a [&'a str]) -> Command<'a>
    ensures command { command_seen result ≡ command_of (verb.now ∷ texts words.now) }
    ensures limits { KeepsLimits (command_seen result) }
{
    if verb == "edit" {
        return parse_edit(words);
    }
    if verb == "run" {
        return parse_run(words);
    }
    if verb == "show" {
        return parse_show(Shown::Graph, words);
    }
    if verb == "list" {
        return parse_show(Shown::Words, words);
    }
    if verb == "words" {
        return parse_words(words);
    }
    if verb == "restore" {
        return parse_restore(words);
    }
    if verb == "counts" {
        return parse_report(Report::Counts, words);
    }
    if verb == "visits" {
        return parse_report(Report::Visits, words);
    }
    if verb == "trace" {
        return parse_report(Report::LastEdges, words);
    }
    if verb == "demo" {
        return parse_demo(words);
    }
    Command::Unknown
}

/// What follows the word `edit`.
fn parse_edit<'a>(words: &'a [&'a str]) -> Command<'a>
    ensures command { command_seen result ≡ edit_of (texts words.now) }
    ensures limits { KeepsLimits (command_seen result) }
{
    match words {
        [input, output, tool] => edit_with(input, output, parse_tool(tool)),
        [input, output, tool, value] => edit_with(input, output, parse_tool_with(tool, value)),
        _ => Command::Unknown,
    }
}

/// An edit by a tool, if there is one.
fn edit_with<'a>(input: &'a str, output: &'a str, tool: Option<EditTool<'a>>) -> Command<'a>
    requires { IfSome tool (λ tool. KeepsBits (tool_seen tool)) }
    ensures command { command_seen result ≡ edit_with input.now output.now (option_map tool_seen tool.entry) }
    ensures limits { KeepsLimits (command_seen result) }
{
    match tool {
        Some(tool) => Command::Edit {
            input,
            output,
            tool,
        },
        None => Command::Unknown,
    }
}

/// A tool that is one word.
fn parse_tool(word: &str) -> Option<EditTool<'static>>
    ensures tool { option_map tool_seen result ≡ tool_of word.now }
    ensures limits { IfSome result (λ tool. KeepsBits (tool_seen tool)) }
{
    if word == "plain" {
        return Some(EditTool::Plain);
    }
    if word == "profile" {
        return Some(EditTool::Profile);
    }
    if word == "every" {
        return Some(EditTool::Every);
    }
    None
}

/// A tool with a file, or with a number.
fn parse_tool_with<'a>(word: &str, value: &'a str) -> Option<EditTool<'a>>
    ensures tool { option_map tool_seen result ≡ tool_with word.now value.now }
    ensures limits { IfSome result (λ tool. KeepsBits (tool_seen tool)) }
{
    if word == "script" {
        return Some(EditTool::Script(value));
    }
    if word == "profile" {
        return Some(EditTool::Weighed(value));
    }
    if word == "trace" {
        return trace_with(parse_bits(value));
    }
    None
}

/// A ring of so many bits, if it can have them.
fn trace_with(bits: Option<u32>) -> Option<EditTool<'static>>
    requires { IfSome bits (λ bits. (1 ≤ bits) × (bits ≤ 16)) }
    ensures tool { option_map tool_seen result ≡ option_map Trace bits }
    ensures limits { IfSome result (λ tool. KeepsBits (tool_seen tool)) }
{
    match bits {
        Some(bits) => Some(EditTool::Trace(bits)),
        None => None,
    }
}

/// How many bits a ring has: 1 to 16, in decimal without a leading zero.
#[tactic(auto, unfolding(crate::specs::Command::bits_of))]
fn parse_bits(text: &str) -> Option<u32>
    ensures bits { result ≡ bits_of text.now }
    ensures limits { IfSome result (λ bits. (1 ≤ bits) × (bits ≤ 16)) }
{
    (1..MOST_BITS + 1).find(|bits| is_number(text, *bits))
}

/// Whether the text is this number in decimal.
fn is_number(text: &str, number: u32) -> bool
    ensures { result ≡ bytes_eq text.now (decimal number) }
{
    let mut digits = Buffer::new();
    text == digits.format(number)
}

/// What follows the word for what is shown of a program.
fn parse_show<'a>(shown: Shown, words: &'a [&'a str]) -> Command<'a>
    ensures command { command_seen result ≡ of_one (Show shown) (texts words.now) }
    ensures limits { KeepsLimits (command_seen result) }
{
    match words {
        [file] => Command::Show { shown, file },
        _ => Command::Unknown,
    }
}

/// What follows the word `words`.
fn parse_words<'a>(words: &'a [&'a str]) -> Command<'a>
    ensures command { command_seen result ≡ of_two PutWords (texts words.now) }
    ensures limits { KeepsLimits (command_seen result) }
{
    match words {
        [listing, output] => Command::PutWords { listing, output },
        _ => Command::Unknown,
    }
}

/// What follows the word `restore`.
fn parse_restore<'a>(words: &'a [&'a str]) -> Command<'a>
    ensures command { command_seen result ≡ of_two Restore (texts words.now) }
    ensures limits { KeepsLimits (command_seen result) }
{
    match words {
        [written, output] => Command::Restore { written, output },
        _ => Command::Unknown,
    }
}

/// What follows the word for what is told of a run.
fn parse_report<'a>(report: Report, words: &'a [&'a str]) -> Command<'a>
    ensures command { command_seen result ≡ of_two (ReportRun report) (texts words.now) }
    ensures limits { KeepsLimits (command_seen result) }
{
    match words {
        [written, dump] => Command::ReportRun {
            report,
            written,
            dump,
        },
        _ => Command::Unknown,
    }
}

/// What follows the word `demo`: a number, and how many routines there are.
fn parse_demo<'a>(words: &'a [&'a str]) -> Command<'a>
    ensures command { command_seen result ≡ of_two demo_of (texts words.now) }
    ensures limits { KeepsLimits (command_seen result) }
{
    match words {
        [number, routines] => demo_with(parse_number(number), parse_number(routines)),
        _ => Command::Unknown,
    }
}

/// A demonstration with these, if both are numbers, and so many routines can be made.
fn demo_with(number: Option<u32>, routines: Option<u32>) -> Command<'static>
    ensures command { command_seen result ≡ demo_with_of number routines }
    ensures limits { KeepsLimits (command_seen result) }
{
    match (number, routines) {
        (Some(number), Some(routines)) if 1 <= routines && routines <= MOST_ROUTINES => {
            Command::Demo { number, routines }
        }
        _ => Command::Unknown,
    }
}

/// What follows the word `run`: the file, a limit after `-n`, a dump after `-d`, and arguments after `--`.
fn parse_run<'a>(words: &'a [&'a str]) -> Command<'a>
    ensures command { command_seen result ≡ run_of (texts words.now) }
    ensures few { KeepsLimits (command_seen result) }
{
    match words {
        [file, words @ ..] => parse_options(file, words),
        [] => Command::Unknown,
    }
}

/// What follows the file.
fn parse_options<'a>(file: &'a str, words: &'a [&'a str]) -> Command<'a>
    ensures command { command_seen result ≡ options_of file.now (texts words.now) }
    ensures few { KeepsLimits (command_seen result) }
{
    let (first, words) = option_in("-n", words);
    let (dump, words) = option_in("-d", words);
    let (late, words) = option_behind(first, words);
    parse_arguments(file, limit_in(first.or(late)), dump, words)
}

/// The value of the option with this name, where the words begin with one, and what follows.
#[tactic(auto, unfolding(crate::specs::Command::option_in))]
fn option_in<'a>(name: &str, words: &'a [&'a str]) -> (Option<&'a str>, &'a [&'a str])
    ensures value { name_seen result.0 ≡ (option_in name.now (texts words.now)).0 }
    ensures rest { texts result.1.now ≡ (option_in name.now (texts words.now)).1 }
{
    match words {
        [option, value, words @ ..] if *option == name => (Some(value), words),
        _ => (None, words),
    }
}

/// The value of a limit behind a dump, where there was none before.
fn option_behind<'a>(
    first: Option<&'a str>,
    words: &'a [&'a str],
) -> (Option<&'a str>, &'a [&'a str])
    ensures value { name_seen result.0 ≡ (late_in (name_seen first.entry) (texts words.now)).0 }
    ensures rest { texts result.1.now ≡ (late_in (name_seen first.entry) (texts words.now)).1 }
{
    match first {
        Some(_) => (None, words),
        None => option_in("-n", words),
    }
}

/// The limit that an option says, if it is one.
fn limit_in(text: Option<&str>) -> Option<u64>
    ensures { result ≡ limit_in (name_seen text.entry) }
{
    match text {
        Some(text) => parse_limit(text),
        None => Some(DEFAULT_LIMIT),
    }
}

/// What follows the options.
#[tactic(auto, unfolding(crate::specs::Command::arguments_of))]
fn parse_arguments<'a>(
    file: &'a str,
    limit: Option<u64>,
    dump: Option<&'a str>,
    words: &'a [&'a str],
) -> Command<'a>
    ensures command { command_seen result ≡ arguments_of file.now limit (name_seen dump.entry) (texts words.now) }
    ensures few { KeepsLimits (command_seen result) }
{
    let Some(limit) = limit else {
        return Command::Unknown;
    };
    match words {
        [] => Command::Run {
            file,
            limit,
            dump,
            args: words,
        },
        [mark, args @ ..] if *mark == "--" && are_few(args) => Command::Run {
            file,
            limit,
            dump,
            args,
        },
        _ => Command::Unknown,
    }
}

/// A limit: one to twenty decimal digits with a value below 2^64.
fn parse_limit(text: &str) -> Option<u64>
    ensures { result ≡ number_within 20 64 text.now }
{
    if text.is_empty() || text.len() > MOST_DIGITS || !are_digits(text) {
        return None;
    }
    text.parse().ok()
}

/// A number: one to ten decimal digits with a value below 2^32.
fn parse_number(text: &str) -> Option<u32>
    ensures { result ≡ number_within 10 32 text.now }
{
    if text.is_empty() || text.len() > MOST_NUMBER_DIGITS || !are_digits(text) {
        return None;
    }
    text.parse().ok()
}

/// The text is of decimal digits alone.
fn are_digits(text: &str) -> bool
    ensures { result ≡ list_all is_digit text.now }
{
    text.as_bytes().iter().all(|byte| byte.is_ascii_digit())
}

/// The arguments are no more than a program can be given.
fn are_few(args: &[&str]) -> bool
    ensures few { result ≡ are_few (texts args.now) }
    ensures arguments { OnTrue result (AreArguments (texts args.now)) }
{
    args.len() <= MOST_ARGUMENTS && have_room(args, MOST_ARGUMENT_BYTES)
}

/// The arguments have `room` bytes at most.
fn have_room(args: &[&str], mut room: usize) -> bool
    ensures room { result ≡ nat_le (length (strings (texts args.now))) room }
    ensures bytes { OnTrue result (All AreBytes (texts args.now)) }
{
    for arg in args {
        let size = argument_size(arg);
        if room < size {
            return false;
        }
        room -= size;
    }
    true
}

/// How many bytes an argument has, with the zero byte after it.
fn argument_size(arg: &str) -> usize
    ensures size { result ≡ length arg.now + 1 }
    ensures bytes { AreBytes arg.now }
{
    arg.len() + 1
}
