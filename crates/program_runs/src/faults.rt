//! The faults of a file, as they are shown.
use elf32_sparc::FileFault;
use std::io;

const FAULTS: [FileFault; 20] = [
    FileFault::Short,
    FileFault::Magic,
    FileFault::Class,
    FileFault::Order,
    FileFault::Version,
    FileFault::Kind,
    FileFault::Machine,
    FileFault::HeaderSize,
    FileFault::Headers,
    FileFault::Dynamic,
    FileFault::SegmentFile,
    FileFault::SegmentRoom,
    FileFault::SegmentOrder,
    FileFault::Align,
    FileFault::NoText,
    FileFault::ManyTexts,
    FileFault::TextShape,
    FileFault::TextLarge,
    FileFault::Entry,
    FileFault::MemoryLarge,
];

/// Prints the number and the text of each.
pub fn print_faults(rt: &HostRuntime) -> io::Result<()> {
    for fault in FAULTS {
        println!(rt; "{} {fault}", fault.code())?;
    }
    Ok(())
}
