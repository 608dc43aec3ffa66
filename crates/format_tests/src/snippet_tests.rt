//! Scripts through their one call: the snippets of each edge, and each fault with the number of its line.
use snippets::{Op, ScriptFault, read_script};
use std::alloc::Global;
use std::test::Fail;
use v8_decode::Reg;

/// Three lines, the last without its newline.
const SCRIPT: &str = "edge 1 add 0 3\nedge 1 top 1 %g2\n# a comment\n\nedge 2 keep 2 %o0";

#[test]
fn scripts_give_each_edge_its_operations(rt: HostRuntime) -> Result<(), Fail> {
    let script = read_script(rt.alloc(), SCRIPT.as_bytes(), 9)?;
    let add = Op::Add { cell: 0, amount: 3 };
    let reg = Reg::new(2).ok_or("a register")?;
    let top = Op::Top { cell: 1, reg };
    let reg = Reg::new(8).ok_or("a register")?;
    let keep = Op::Keep { cell: 2, reg };
    let wants: [&[Op]; 3] = [&[], &[add, top], &[keep]];
    assert!(rt; script.snips.len() >= wants.len());
    for (snippet, want) in script.snips.iter().zip(wants) {
        assert_eq!(rt; snippet.ops(), want);
    }
    Ok(())
}

/// What is named for a script; nothing where it reads.
fn named(alloc: Global, script: &str) -> Option<ScriptFault> {
    if script.len() > 1 << 24 {
        return None;
    }
    read_script(alloc, script.as_bytes(), 9).err()
}

/// Scripts for a graph of nine edges, each with its fault.
const BAD: [(&str, ScriptFault); 6] = [
    ("edge 9 add 0 1", ScriptFault::Edge(1)),
    ("edge 1  add 0 1", ScriptFault::Line(1)),
    (
        "edge 8 put 4194303 0\nedge 8 put 4194304 0\n?",
        ScriptFault::Cell(2),
    ),
    ("\n#\nedge 01 put 0 0", ScriptFault::Line(3)),
    ("edge 0 keep 0 %g8", ScriptFault::Line(1)),
    (
        "edge 0 put 0 0\nedge 0 put 0 0\nedge 0 put 0 0\nedge 0 put 0 0\nedge 0 put 0 0\nedge 0 put 0 0\nedge 0 put 0 0\nedge 0 put 0 0\nedge 0 put 0 0",
        ScriptFault::Ops(9),
    ),
];

#[test]
fn bad_lines_are_named(rt: HostRuntime) -> Result<(), Fail> {
    for (script, fault) in BAD {
        assert_eq!(rt; named(rt.alloc(), script), Some(fault), "{script}");
    }
    Ok(())
}
