//! An edit without snippets, against the bytes that `checks/written.py` makes of the same program.
use crate::programs::{Nothing, THREE_WORDS};
use edit_core::edit_bytes;
use sha2::{Digest, Sha256};
use std::test::Fail;
use tool_kit::{Tool, ToolKind};

/// How long the model's file is, and its digest.
const LENGTH: usize = 430236;

const DIGEST: [u8; 32] = [
    0x45, 0x62, 0x15, 0x82, 0x1d, 0x27, 0x98, 0xe4, 0x5e, 0x5b, 0x31, 0xba, 0xde, 0x03, 0x2d, 0xd4,
    0xe7, 0xdb, 0xc6, 0xe3, 0xb8, 0x89, 0x5b, 0x4c, 0xf2, 0x40, 0x00, 0x4b, 0xd0, 0xc2, 0xf6, 0x2f,
];

#[test]
fn three_words_are_edited_as_by_the_model(rt: HostRuntime) -> Result<(), Fail> {
    let alloc = rt.alloc();
    let tool = Tool::new(Nothing, 0, Vec::new(alloc), ToolKind::Plain);
    let file = edit_bytes(alloc, &THREE_WORDS, &tool).map_err(|_| Fail::from("an edit"))?;
    assert_eq!(rt; file.len(), LENGTH);
    assert_eq!(rt; Sha256::digest(file.as_slice()), DIGEST);
    Ok(())
}
