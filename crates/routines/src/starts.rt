//! Where routines start, and their names.
ghost use Rattle.std.specs.Prelude.{◌≡◌, ℕ, ◌<◌, ◌≤◌, ◌==◌, [], length, nat_eq, None, IfOk, OnOk};
ghost use Rattle.std.specs.List.Sorted.{IsStrictlySortedBy};
ghost use Rattle.std.specs.Option.{option_or};
ghost use Rattle.std.specs.Ordering.{nat_cmp};
ghost use Rattle.indexmap.specs.IndexMap.{get, keys};
ghost use Rattle.routines.specs.Routines.{called_at, is_called, leads_to};
ghost use Rattle.routines.specs.Starts.{first_name, name_where, start_name};

use crate::calls::called_at;
use eel_base::{NoMemory, Text, WordNo};
use elf32_sparc::{Func, Image, Name};
use indexmap::IndexMap;
use std::alloc::Global;

/// The names of routines by the numbers of their first words.
pub(crate) type Starts = IndexMap<u32, Name>;

/// Adds a start, where the map has none at that word yet.
fn add(starts: &mut Starts, word: WordNo, name: Name) -> Result<(), NoMemory>
    ensures { OnOk result ((number : ℕ) → get nat_eq starts.new number
        ≡ option_or (get nat_eq starts.old number) (name_where (word.0 == number) name)) }
{
    starts.entry(word.0)?.or_insert(name);
    Ok(())
}

/// The words of the function symbols, each with the name of the first symbol there.
fn of_functions(alloc: Global, funcs: &[Func]) -> Result<Starts, NoMemory>
    ensures { IfOk result (λ starts. (word : ℕ) → get nat_eq starts word ≡ first_name funcs.now word) }
{
    let mut starts = IndexMap::new(alloc);
    for func in funcs {
        add(&mut starts, func.start, func.name.clone()?)?;
    }
    Ok(starts)
}

/// Adds the word to which the CALL at `w` leads, if there is one.
fn add_called(alloc: Global, starts: &mut Starts, text: &Text, w: WordNo) -> Result<(), NoMemory>
    requires { w.0 < length text.now.words }
    ensures { OnOk result ((word : ℕ) → get nat_eq starts.new word
        ≡ option_or (get nat_eq starts.old word) (name_where (leads_to word (called_at text.now w.0)) [])) }
{
    match called_at(text, w) {
        Some(word) => add(starts, word, Name::empty(alloc)),
        None => Ok(()),
    }
}

/// Adds the words to which CALLs lead.
fn add_all_called(alloc: Global, starts: &mut Starts, text: &Text) -> Result<(), NoMemory>
    ensures { OnOk result ((word : ℕ) → get nat_eq starts.new word
        ≡ option_or (get nat_eq starts.old word) (name_where (is_called text.now word) [])) }
{
    for number in 0..text.len() {
        add_called(alloc, starts, text, WordNo(number))?;
    }
    Ok(())
}

/// The words at which the routines of a program start, in any order.
pub(crate) fn starts_of(alloc: Global, image: &Image) -> Result<Starts, NoMemory>
    ensures names { IfOk result (λ starts. (word : ℕ) → get nat_eq starts word ≡ start_name image.now word) }
    ensures inside { IfOk result (λ starts. (word : ℕ) → length image.now.text.words ≤ word →
        get nat_eq starts word ≡ None) }
{
    let mut starts = of_functions(alloc, image.funcs())?;
    add(&mut starts, image.entry(), Name::empty(alloc))?;
    add_all_called(alloc, &mut starts, image.text())?;
    Ok(starts)
}

/// The starts in the order of their words.
#[tactic(auto, using(crate::proofs::Ascending::ascending))]
pub(crate) fn in_order(mut starts: Starts) -> Result<Starts, NoMemory>
    ensures ascends { IfOk result (λ sorted. IsStrictlySortedBy nat_cmp (keys sorted)) }
    ensures same { IfOk result (λ sorted. (word : ℕ) → get nat_eq sorted word ≡ get nat_eq starts word) }
{
    starts.sort_keys()?;
    Ok(starts)
}
