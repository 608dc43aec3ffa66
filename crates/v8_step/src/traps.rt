//! Trap types (table 7-1), and the numbers of software traps and system calls.

pub(crate) const INSTRUCTION_ACCESS_EXCEPTION: u8 = 0x01;

pub(crate) const ILLEGAL_INSTRUCTION: u8 = 0x02;

pub(crate) const PRIVILEGED_INSTRUCTION: u8 = 0x03;

pub(crate) const FP_DISABLED: u8 = 0x04;

pub(crate) const MEM_ADDRESS_NOT_ALIGNED: u8 = 0x07;

pub(crate) const DATA_ACCESS_EXCEPTION: u8 = 0x09;

pub(crate) const TAG_OVERFLOW: u8 = 0x0a;

pub(crate) const CP_DISABLED: u8 = 0x24;

pub(crate) const DIVISION_BY_ZERO: u8 = 0x2a;

/// The trap of the first software trap; the others follow.
pub(crate) const TRAP_INSTRUCTION: u8 = 0x80;

/// The software trap that saves all windows but the current one, and the one that calls the system.
pub(crate) const FLUSH_WINDOWS: u8 = 3;

pub(crate) const CALL_SYSTEM: u8 = 16;

pub(crate) const EXIT: u32 = 1;

pub(crate) const READ: u32 = 3;

pub(crate) const WRITE: u32 = 4;

pub(crate) const BRK: u32 = 17;

pub(crate) const EBADF: u32 = 9;

pub(crate) const ENOMEM: u32 = 12;

pub(crate) const EFAULT: u32 = 14;

pub(crate) const ENOSYS: u32 = 90;
