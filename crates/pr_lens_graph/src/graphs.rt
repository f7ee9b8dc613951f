//! Graphs.

ghost use Rattle.std.specs.Prelude.{◌≡◌, ◌++◌, IfOk, OnOk};
ghost use Rattle.pr_lens_graph.specs.Graphs.{graph_of, head_text};

use crate::layouts::Layout;
use crate::stages::put_stages;
use crate::wires::{put_outputs, put_wires};
use pr_lens_text::put;
use std::alloc::{AllocError, Global};

/// Begins a graph.
#[tactic(auto, unfolding(crate::specs::Graphs::head_text))]
fn put_head(text: &mut Vec<u8>) -> Result<(), AllocError>
    ensures { OnOk result (text.new.items ≡ text.old.items ++ head_text) }
{
    put(
        text,
        "digraph units {\n  rankdir=LR;\n  node [shape=box, fontname=\"sans-serif\"];\n",
    )
}

/// The graph of units that stand in stages.
#[tactic(auto, unfolding(crate::specs::Graphs::graph_text))]
pub fn graph(alloc: Global, layout: &Layout) -> Result<Vec<u8>, AllocError>
    ensures { IfOk result (λ text. text.items ≡ graph_of layout.now) }
{
    let mut text = Vec::new(alloc);
    put_head(&mut text)?;
    put_stages(
        alloc,
        &mut text,
        &layout.names,
        &layout.net.units,
        &layout.stages,
    )?;
    put_wires(alloc, &mut text, &layout.net.units)?;
    put_outputs(alloc, &mut text, &layout.names, &layout.net.outputs)?;
    put(&mut text, "}\n")?;
    Ok(text)
}
