//! Machines for code that is given as words.
use eel_base::Addr;
use elf32_sparc::SegFlags;
use std::alloc::Global;
use std::test::Fail;
use v8_decode::Reg;
use v8_memory::{Memory, RegionPlan};
use v8_step::Machine;

pub const CODE: Addr = Addr(0x10000);

pub const DATA: Addr = Addr(0x20000);

/// The editor's page.
const PAGE: Addr = Addr(0xffff_f000);

/// What %sp holds at first.
pub const STACK: u32 = 0x20080;

/// The words `ta 0x10` and `sethi %hi(0x20000), %o1`.
pub const SYSTEM: u32 = 0x91d0_2010;

pub const POINT: u32 = 0x1300_0080;

/// The words `or %g0, n, rd` for %g1, %o0 and %o2, less n.
pub const G1: u32 = 0x8210_2000;

pub const O0: u32 = 0x9010_2000;

pub const O2: u32 = 0x9410_2000;

/// The words that begin with "hello".
pub const HELLO: [u32; 2] = [0x6865_6c6c, 0x6f00_0000];

/// The bytes of at most sixteen words, the highest byte of each first, and zeros behind them.
fn bytes_of(words: &[u32]) -> [u8; 64] {
    let mut bytes = [0; 64];
    for i in 0..16 {
        if let Some(word) = words.get(i) {
            bytes[4 * i..4 * i + 4].copy_from_slice(&word.to_be_bytes());
        }
    }
    bytes
}

/// A machine at the first of at most sixteen words, with others at `DATA`, where as in the editor's page it may write.
pub fn machine(alloc: Global, code: &[u32], data: &[u32], input: &[u8]) -> Result<Machine, Fail> {
    let code = bytes_of(code);
    let data = bytes_of(data);
    let plans = [
        RegionPlan {
            start: CODE,
            len: 64,
            flags: SegFlags(5),
            first: &code,
        },
        RegionPlan {
            start: DATA,
            len: 256,
            flags: SegFlags(6),
            first: &data,
        },
        RegionPlan {
            start: PAGE,
            len: 4096,
            flags: SegFlags(6),
            first: &[],
        },
    ];
    let memory = Memory::new(alloc, &plans)?;
    let input = Vec::from_slice(alloc, input)?;
    Ok(Machine::new(memory, CODE, STACK, input))
}

/// The register with this number.
pub fn register(number: u8) -> Result<Reg, Fail> {
    Ok(Reg::new(number).ok_or("a register")?)
}

/// The word that the machine's memory has at an address.
pub fn word_at(machine: &Machine, address: Addr) -> Result<u32, Fail> {
    Ok(machine.memory().load32(address).ok().ok_or("memory")?)
}
