//! Views of files with every word marked.
ghost use Rattle.std.specs.Prelude.{◌≡◌, IfOk, map};
ghost use Rattle.std.specs.List.{range_with_len};
ghost use Rattle.elf32_sparc.specs.FileFault.{fault};
ghost use Rattle.elf32_sparc.specs.Code.{refusal};
ghost use Rattle.cfg_blocks.specs.Marks.{numbers};
ghost use Rattle.cfg_view.specs.Code.{view_seen, IsView};
ghost use Rattle.eel_reports.specs.Private.{word_numbered};
ghost use Rattle.eel_reports.specs.Answers.Every.{every_view, every_word};

use cfg_view::{View, view_image};
use eel_base::{NoMemory, WordNo};
use elf32_sparc::{ReadFault, read_image};
use std::alloc::Global;

/// The view of a file with every word of its text marked, and these marks.
#[tactic(auto, unfolding(cfg_view::specs::View::view_of))]
pub fn look_at_words(alloc: Global, bytes: &[u8]) -> Result<(View, Vec<WordNo>), ReadFault>
    ensures fault { refusal result ≡ fault bytes.now }
    ensures view { IfOk result (λ looked. view_seen looked.0 ≡ every_view bytes.now) }
    ensures whole { IfOk result (λ looked. IsView looked.0) }
    ensures words { IfOk result (λ looked. numbers looked.1.items ≡ every_word bytes.now) }
{
    let image = read_image(alloc, bytes)?;
    let marks = words_below(alloc, image.text().len())?;
    let view = view_image(alloc, image, &marks)?;
    Ok((view, marks))
}

/// The first words, so many of them.
fn words_below(alloc: Global, count: u32) -> Result<Vec<WordNo>, NoMemory>
    ensures { IfOk result (λ words. words.items ≡ map word_numbered (range_with_len 0 count)) }
{
    let words = (0..count).map(|word| WordNo(word)).collect(alloc)?;
    Ok(words)
}
