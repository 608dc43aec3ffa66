//! The file that is made from the number 1, with one routine: its length, its text and its run.
use eel_base::{Addr, NullSink};
use std::test::Fail;
use v8_process::load;
use v8_runner::{RunEnd, Stop, run};
use v8_step::Ending;
use workload::make;

/// call, nop, mov 1,%g1, ta 16; mov 7,%g2, add %o0,62,%o0, subcc %g2,1,%g2, bne, nop, retl, nop
const TEXT: [u8; 44] = [
    0x40, 0x00, 0x00, 0x04, 0x01, 0x00, 0x00, 0x00, 0x82, 0x10, 0x20, 0x01, 0x91, 0xd0, 0x20, 0x10,
    0x84, 0x10, 0x20, 0x07, 0x90, 0x02, 0x20, 0x3e, 0x84, 0xa0, 0xa0, 0x01, 0x12, 0xbf, 0xff, 0xfe,
    0x01, 0x00, 0x00, 0x00, 0x81, 0xc3, 0xe0, 0x08, 0x01, 0x00, 0x00, 0x00,
];

#[test]
fn a_made_file_runs_to_its_exit(rt: HostRuntime) -> Result<(), Fail> {
    let alloc = rt.alloc();
    let file = make(alloc, 1, 1)?;
    assert_eq!(rt; file.len(), 128);
    assert_eq!(rt; &file[84..], TEXT.as_slice());
    let mut machine = load(alloc, &file, &[], Vec::new(alloc))?;
    let end = run(&mut machine, 100, &mut NullSink, &mut NullSink);
    let wanted = RunEnd {
        stop: Stop::Ended(Ending::Exit(178)),
        steps: 35,
        pc: Addr(0x10060),
    };
    assert_eq!(rt; end, wanted);
    Ok(())
}
