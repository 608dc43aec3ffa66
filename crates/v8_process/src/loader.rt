//! The file in memory, its arguments on the stack, and the machine that is to run it.
ghost use Rattle.std.specs.Prelude.{◌≡◌, ◌∷◌, ◌++◌, [], None, length, map, IfOk, OnOk};
ghost use Rattle.elf32_sparc.specs.FileFault.{load_fault};
ghost use Rattle.v8_memory.specs.Calls.{mapping_of_plan};
ghost use Rattle.v8_process.specs.Arguments.{AreArguments, texts};
ghost use Rattle.v8_process.specs.Private.{segment_mapping, stack_mapping};
ghost use Rattle.v8_process.specs.Loading.{refusal};
ghost use Rattle.v8_process.specs.Start.{program_name, start_memory, start_of};
ghost use Rattle.v8_process.specs.Valid.{FitsStack};

use crate::stack::{STACK_END, STACK_START, stack_bytes, stack_pointer};
use bitflags::Flags;
use eel_base::{Addr, NoMemory};
use elf32_sparc::{FileFault, SegFlags, Segment, load_verdict, read_entry, read_segments};
use std::alloc::Global;
use v8_memory::{Memory, RegionPlan};
use v8_step::Machine;

/// Why a file isn't started.
#[derive(Clone, Copy, Debug)]
pub enum LoadFault {
    File(FileFault),
    NoMemory,
}

impl From<NoMemory> for LoadFault {
    ghost use Rattle.v8_process.specs.declared.loader.LoadFault.TheVariants as faults;

    ghost from_gives = { λ _ fault. fault ≡ faults.NoMemory };

    fn from(_: NoMemory) -> LoadFault {
        LoadFault::NoMemory
    }
}

/// The machine in which the file starts, or its first fault. The program's name is put before the arguments.
#[tactic(auto, using(crate::proofs::Arguments::arguments_fit))]
pub fn load(
    alloc: Global,
    bytes: &[u8],
    args: &[&str],
    input: Vec<u8>,
) -> Result<Machine, LoadFault>
    requires few { AreArguments (texts args.now) }
    ensures machine { IfOk result (λ machine. machine ≡ start_of bytes.now (texts args.now) input.items) }
    ensures loads { OnOk result (load_fault bytes.now ≡ None) }
    ensures refused { refusal result ≡ load_fault bytes.now }
{
    if let Some(fault) = load_verdict(bytes) {
        return Err(LoadFault::File(fault));
    }
    let memory = start_memory(alloc, bytes, args)?;
    let sp = stack_pointer(args);
    Ok(Machine::new(memory, read_entry(bytes), sp, input))
}

/// The segments of the file, the heap, and the stack.
fn start_memory(alloc: Global, bytes: &[u8], args: &[&str]) -> Result<Memory, NoMemory>
    requires loads { load_fault bytes.now ≡ None }
    requires fits { FitsStack (program_name ∷ texts args.now) }
    ensures { IfOk result (λ memory. memory ≡ start_memory bytes.now (program_name ∷ texts args.now)) }
{
    let segments = read_segments(alloc, bytes)?;
    let stack = stack_bytes(alloc, args)?;
    let plans = region_plans(alloc, bytes, &segments, &stack)?;
    let memory = Memory::new(alloc, &plans)?;
    Ok(memory)
}

/// The regions of the segments, in their order, and the stack's.
fn region_plans<'a>(
    alloc: Global,
    file: &'a [u8],
    segments: &[Segment],
    stack: &'a [u8],
) -> Result<Vec<RegionPlan<'a>>, NoMemory>
    ensures { let mapped = map (segment_mapping file.now) segments.now ++ stack_mapping stack.now ∷ [] in
        IfOk result (λ plans. map mapping_of_plan plans.items ≡ mapped) }
{
    let mut plans = Vec::with_capacity(alloc, segments.len() + 1)?;
    for segment in segments {
        plans.push(segment_plan(file, segment))?;
    }
    plans.push(stack_plan(stack))?;
    Ok(plans)
}

fn segment_plan<'a>(file: &'a [u8], segment: &Segment) -> RegionPlan<'a>
    ensures { mapping_of_plan result ≡ segment_mapping file.now segment.now }
{
    RegionPlan {
        start: segment.vaddr,
        len: segment.memsz,
        flags: segment.flags,
        first: segment.file_bytes(file),
    }
}

/// The stack may be read and written, and not executed.
fn stack_plan<'a>(stack: &'a [u8]) -> RegionPlan<'a>
    ensures { mapping_of_plan result ≡ stack_mapping stack.now }
{
    RegionPlan {
        start: Addr(STACK_START),
        len: STACK_END - STACK_START,
        flags: SegFlags::PF_R.union(SegFlags::PF_W),
        first: stack,
    }
}
