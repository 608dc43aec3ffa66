//! Why a file can't be edited.
ghost use Rattle.std.specs.Prelude.{◌≡◌};
ghost use Rattle.elf32_sparc.specs.FileFault.{code_of};

use eel_base::NoMemory;
use thiserror::Error;

/// What is wrong with a file, in the order in which it is looked for.
#[derive(Clone, Copy, PartialEq, Eq, Debug, Error)]
pub enum FileFault {
    #[error("Short")]
    Short,
    #[error("Magic")]
    Magic,
    #[error("Class")]
    Class,
    #[error("Order")]
    Order,
    #[error("Version")]
    Version,
    #[error("Kind")]
    Kind,
    #[error("Machine")]
    Machine,
    #[error("HeaderSize")]
    HeaderSize,
    #[error("Headers")]
    Headers,
    #[error("Dynamic")]
    Dynamic,
    #[error("SegmentFile")]
    SegmentFile,
    #[error("SegmentRoom")]
    SegmentRoom,
    #[error("SegmentOrder")]
    SegmentOrder,
    #[error("Align")]
    Align,
    #[error("NoText")]
    NoText,
    #[error("ManyTexts")]
    ManyTexts,
    #[error("TextShape")]
    TextShape,
    #[error("TextLarge")]
    TextLarge,
    #[error("Entry")]
    Entry,
    #[error("MemoryLarge")]
    MemoryLarge,
}

impl FileFault {
    /// Its number, from 1 to 20 in the order of the variants.
    pub fn code(&self) -> u8
        ensures { result ≡ code_of self.now }
    {
        *self as u8 + 1
    }
}

/// Why a file can't be read.
#[derive(Clone, Copy, PartialEq, Eq, Debug)]
pub enum ReadFault {
    File(FileFault),
    NoMemory,
}

impl From<NoMemory> for ReadFault {
    ghost use Rattle.elf32_sparc.specs.declared.fault.ReadFault.TheVariants as faults;

    ghost from_gives = { λ _ fault. fault ≡ faults.NoMemory };

    fn from(_: NoMemory) -> ReadFault {
        ReadFault::NoMemory
    }
}
