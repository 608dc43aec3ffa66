//! The words of which lines of text are made: numbers, and the names of registers.
#![tactic(auto)]

ghost use Rattle.line_words.specs.Laws.{NothingElseReads, WordsReadBack};

mod words;

pub use words::{
    is_word, read_address, read_count, read_number, read_register, read_sum, register_name,
    split_at,
};

/// What is written in one of these spellings is read.
pub fn words_read_back()
    ensures { WordsReadBack }
{}

/// Nothing else is read than what is written in one of these spellings.
pub fn nothing_else_reads()
    ensures { NothingElseReads }
{}
