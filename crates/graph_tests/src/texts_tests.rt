//! The text of words.
use eel_base::Addr;
use std::test::Fail;
use v8_text::text_of;

/// Words at 0x10054, each with its text: a sum of a register and an immediate, a load, an annulled branch, and no
/// instruction.
const SPELLED: [(u32, &str); 4] = [
    (0x82102001, "or %g0,1,%g1"),
    (0xc4006008, "ld [%g1,8],%g2"),
    (0x32bffffe, "bne,a 0x0001004c"),
    (0x00000000, ".word 0x00000000"),
];

#[test]
fn words_are_spelled(rt: HostRuntime) -> Result<(), Fail> {
    for (word, text) in &SPELLED {
        let spelled = text_of(rt.alloc(), Addr(0x10054), *word)?;
        assert_eq!(rt; spelled.as_slice(), text.as_bytes());
    }
    Ok(())
}
