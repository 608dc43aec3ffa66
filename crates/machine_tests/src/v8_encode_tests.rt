//! Words with ignored bits, which are encoded without them.
use v8_decode::decode;
use v8_encode::encode;

// A word in which bits are set that its instruction ignores, and the word without them: bits 12 to 5 where i is 0,
// bit 29 of ta, bits 13 to 0 of rd %y and stbar, rd of flush.
const WORDS: [(u32, u32); 5] = [
    (0x8400_dfe4, 0x8400_c004),
    (0xb1d0_2010, 0x91d0_2010),
    (0x8540_3fff, 0x8540_0000),
    (0x8143_ffff, 0x8143_c000),
    (0xbfd8_c004, 0x81d8_c004),
];

#[test]
fn ignored_bits_are_cleared(rt: HostRuntime) {
    for (word, cleared) in WORDS {
        assert_eq!(rt; encode(decode(word)), Some(cleared), "at {word:08x}");
    }
}
