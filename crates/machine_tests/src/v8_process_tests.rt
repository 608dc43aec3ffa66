//! A machine that is about to start, with its arguments on the stack, word for word, as worked out by hand.
use crate::machines::register;
use eel_base::Addr;
use std::test::Fail;
use v8_process::load;

/// `mov 1,%g1`, `mov 3,%o0`, `ta 16`, after the headers of a program.
const THREE_WORDS: [u8; 96] =
    *b"\x7fELF\x01\x02\x01\0\0\0\0\0\0\0\0\0\0\x02\0\x02\0\0\0\x01\0\x01\0\x54\0\0\0\x34\0\0\0\0\0\0\0\0\0\x34\0\x20\0\x01\0\0\0\0\0\0\0\0\0\x01\0\0\0\x54\0\x01\0\x54\0\x01\0\x54\0\0\0\x0c\0\0\0\x0c\0\0\0\x05\0\x01\0\0\x82\x10\x20\x01\x90\x10\x20\x03\x91\xd0\x20\x10";

/// What stands at 0xefffffd0: argc, three pointers, the ends of the lists, and the texts.
const STACK: &[u8] =
    b"\0\0\0\x03\xef\xff\xff\xf0\xef\xff\xff\xf8\xef\xff\xff\xfa\0\0\0\0\0\0\0\0\0\0\0\0\0\0\0\0program\0a\0bc\0\0\0\0";

#[test]
fn a_program_starts_with_its_arguments(rt: HostRuntime) -> Result<(), Fail> {
    let alloc = rt.alloc();
    let machine = load(alloc, &THREE_WORDS, &["a", "bc"], Vec::new(alloc))?;
    assert_eq!(rt; machine.pc(), Addr(0x10054));
    assert_eq!(rt; machine.reg(register(14)?), 0xefff_ff90);
    let stack = machine
        .memory()
        .part(Addr(0xefff_ffd0), 48)
        .ok_or("a stack")?;
    assert_eq!(rt; stack, STACK);
    Ok(())
}
