//! A tool: its answers for the edges of a small program.
ghost use Rattle.tool_kit.specs.Sound.{IsSound};

use crate::programs::{NOP, Nothing, view_of};
use cfg_normal::FlowGraph;
use eel_base::WordNo;
use std::alloc::Global;
use std::test::Fail;
use tool_kit::{Chooser, Tool, ToolKind, snips};

/// How many operations a callback asks for, and on how many edges.
fn asked<F: Chooser>(
    alloc: Global,
    choose: F,
    cells: u32,
    graph: &FlowGraph,
) -> Result<(usize, usize), Fail>
    requires { IsSound F.may F.says cells choose }
{
    let marks = Vec::from_slice(alloc, &[WordNo(1)])?;
    let tool = Tool::new(choose, cells, marks, ToolKind::Script);
    let snips = snips(alloc, &tool, graph)?;
    let mut operations = 0usize;
    for snippet in &snips {
        operations = operations.saturating_add(snippet.ops().len());
    }
    if tool.marks().len() != 1 || tool.cells() != cells || tool.kind() != ToolKind::Script {
        return Err(Fail::from("a tool"));
    }
    Ok((operations, snips.len()))
}

#[test]
fn each_edge_has_an_answer(rt: HostRuntime) -> Result<(), Fail> {
    let view = view_of(rt.alloc(), &[NOP, NOP], &[WordNo(1)])?;
    let (operations, edges) = asked(rt.alloc(), Nothing, 0, &view.graph)?;
    assert_eq!(rt; operations, 0);
    assert_eq!(rt; edges, 4);
    Ok(())
}
