//! One pass over the program headers.
ghost use Rattle.std.specs.Prelude.{◌≡◌, ◌+◌, ◌<◌, ◌^◌};
ghost use Rattle.elf32_sparc.specs.Survey.{no_survey, with_memory, with_text, noted, survey_of, survey_rows, run_survey_rows};
ghost use Rattle.elf32_sparc.specs.FileFault.{first_that_holds};

use crate::fault::FileFault;
use crate::header::{E_PHNUM, E_PHOFF, PROGRAM_HEADER_SIZE, ProgramHeader, half_at, word_at};

/// What is wrong with the program headers so far, and what was found among them.
#[derive(Clone, Copy)]
pub(crate) struct Survey {
    pub has_dynamic: bool,
    pub leaves_file: bool,
    pub leaves_room: bool,
    /// As `leaves_room`, of a run, which may have the last page.
    pub leaves_run: bool,
    pub descends: bool,
    pub is_misaligned: bool,
    /// Where the last loadable entry ends.
    pub end: u64,
    /// How many entries are texts, and the first of them.
    pub texts: u32,
    pub text: Option<ProgramHeader>,
    pub memory: u64,
}

/// How many words a text has at most.
const MOST_WORDS: u32 = 1 << 20;

/// How much memory a program takes at most: one that is edited, and one that is run.
const MOST_MEMORY: u64 = 128 << 20;

const MOST_RUN_MEMORY: u64 = 1280 << 20;

impl Survey {
    fn empty() -> Survey
        ensures { result ≡ no_survey }
    {
        Survey {
            has_dynamic: false,
            leaves_file: false,
            leaves_room: false,
            leaves_run: false,
            descends: false,
            is_misaligned: false,
            end: 0,
            texts: 0,
            text: None,
            memory: 0,
        }
    }

    /// The survey of all program headers of a file.
    pub(crate) fn of(bytes: &[u8]) -> Survey
        ensures { result ≡ survey_of bytes.now }
    {
        let table = word_at(bytes, E_PHOFF) as usize;
        let mut survey = Survey::empty();
        for number in 0..half_at(bytes, E_PHNUM) as usize {
            let header = ProgramHeader::read(bytes, table + PROGRAM_HEADER_SIZE * number);
            survey.note(&header, bytes.len());
        }
        survey
    }

    /// Takes in the next header of a file of this size.
    #[tactic(auto, unfolding(crate::specs::Survey::noted))]
    fn note(&mut self, header: &ProgramHeader, size: usize)
        requires texts { self.old.texts + 1 < 2 ^ 32 }
        requires memory { self.old.memory + header.now.p_memsz < 2 ^ 64 }
        ensures { self.new ≡ noted size self.old header.now }
    {
        self.has_dynamic |= header.is_dynamic();
        self.leaves_file |= header.leaves_file(size);
        self.note_memory(header);
        self.note_text(header);
    }

    /// Takes in what memory it takes.
    fn note_memory(&mut self, header: &ProgramHeader)
        requires { self.old.memory + header.now.p_memsz < 2 ^ 64 }
        ensures { self.new ≡ with_memory self.old header.now }
    {
        if header.is_loadable() {
            let leaves_room = header.leaves_room();
            self.leaves_room |= leaves_room;
            self.leaves_run |= leaves_room && !header.is_last_page();
            self.descends |= u64::from(header.p_vaddr) < self.end;
            self.is_misaligned |= !header.is_aligned();
            self.end = header.end();
            self.memory += u64::from(header.p_memsz);
        }
    }

    /// Takes it in as a text, if it is one.
    fn note_text(&mut self, header: &ProgramHeader)
        requires { self.old.texts + 1 < 2 ^ 32 }
        ensures { self.new ≡ with_text self.old header.now }
    {
        if header.is_text() {
            self.texts += 1;
            self.text = self.text.or(Some(*header));
        }
    }

    /// The first fault that the survey shows of a file that is to be edited, with this entry.
    pub(crate) fn fault(&self, entry: u32) -> Option<FileFault>
        ensures { result ≡ first_that_holds (survey_rows entry self.now) }
    {
        let is_misshapen = self.text.is_some_and(|text| text.is_misshapen());
        let is_large = self.text.is_some_and(|text| text.word_count() > MOST_WORDS);
        let has_entry = self.text.is_some_and(|text| text.has_word_at(entry));
        if self.has_dynamic {
            Some(FileFault::Dynamic)
        } else if self.leaves_file {
            Some(FileFault::SegmentFile)
        } else if self.leaves_room {
            Some(FileFault::SegmentRoom)
        } else if self.descends {
            Some(FileFault::SegmentOrder)
        } else if self.is_misaligned {
            Some(FileFault::Align)
        } else if self.texts == 0 {
            Some(FileFault::NoText)
        } else if self.texts > 1 {
            Some(FileFault::ManyTexts)
        } else if is_misshapen {
            Some(FileFault::TextShape)
        } else if is_large {
            Some(FileFault::TextLarge)
        } else if !has_entry {
            Some(FileFault::Entry)
        } else if self.memory > MOST_MEMORY {
            Some(FileFault::MemoryLarge)
        } else {
            None
        }
    }

    /// The first fault that the survey shows of a file that is to be run.
    pub(crate) fn run_fault(&self) -> Option<FileFault>
        ensures { result ≡ first_that_holds (run_survey_rows self.now) }
    {
        if self.leaves_file {
            Some(FileFault::SegmentFile)
        } else if self.leaves_run {
            Some(FileFault::SegmentRoom)
        } else if self.descends {
            Some(FileFault::SegmentOrder)
        } else if self.is_misaligned {
            Some(FileFault::Align)
        } else if self.memory > MOST_RUN_MEMORY {
            Some(FileFault::MemoryLarge)
        } else {
            None
        }
    }
}
