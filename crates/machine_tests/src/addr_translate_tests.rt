//! A table of addresses, and the code that looks them up, with words that were assembled by hand.
use addr_translate::{build, table_size, translator_code};
use eel_base::{Addr, Text};
use std::test::Fail;
use v8_decode::Reg;

const THREE_WORDS: [u32; 3] = [0x8210_2001, 0x9010_2003, 0x91d0_2010];

const TARGETS: [Addr; 3] = [Addr(0x30000), Addr(0x30010), Addr(0x30024)];

const FOREIGN: Addr = Addr(0x30100);

// Addresses, and what is found for each.
const FOUND: [(Addr, Addr); 8] = [
    (Addr(0), FOREIGN),
    (Addr(0x10050), FOREIGN),
    (Addr(0x10054), Addr(0x30000)),
    (Addr(0x10058), Addr(0x30010)),
    (Addr(0x1005b), Addr(0x30010)),
    (Addr(0x1005c), Addr(0x30024)),
    (Addr(0x10060), FOREIGN),
    (Addr(0xffff_fffc), FOREIGN),
];

#[test]
fn three_words_are_found(rt: HostRuntime) -> Result<(), Fail> {
    let words = Vec::from_slice(rt.alloc(), &THREE_WORDS)?;
    let text = Text::new(Addr(0x10054), words).ok_or("a text")?;
    assert_eq!(rt; table_size(&text), 20480);
    let table = build(rt.alloc(), &text, &TARGETS, FOREIGN, Addr(0x20000))?;
    assert_eq!(rt; table.bytes().len(), 20480);
    for (address, found) in FOUND {
        assert_eq!(rt; table.lookup(address), found);
    }
    Ok(())
}

#[test]
fn the_translator_has_twelve_words(rt: HostRuntime) -> Result<(), Fail> {
    let first = Reg::new(1).ok_or("a register")?;
    let second = Reg::new(2).ok_or("a register")?;
    let words = [
        0xc220_3004,
        0x8330_6014,
        0x8208_6ffc,
        0x0500_0080,
        0xc400_8001,
        0xc200_3004,
        0x8330_600a,
        0x8208_6ffc,
        0xc400_8001,
        0xc200_3004,
        0x8208_6ffc,
        0xc200_8001,
    ];
    let code = translator_code(Addr(0x20000), first, second);
    assert_eq!(rt; code.as_slice(), words.as_slice());
    Ok(())
}
