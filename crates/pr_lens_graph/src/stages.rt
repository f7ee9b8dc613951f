//! The stages with their units.

ghost use Rattle.std.specs.Prelude.{◌≡◌, ◌+◌, ◌++◌, [], IfOk, OnOk, replicate};
ghost use Rattle.pr_lens_origins.specs.Origins.{stream_of};
ghost use Rattle.pr_lens_graph.specs.Nodes.{Gain, cells_word, last_of, line_for, node_end, node_head, node_in, node_text, nodes_by_stage, nodes_from, stage_text, stages_with, stream_line, texts_of, work_by, work_of};

use crate::naming::Names;
use pr_base::{Mode, Next};
use pr_lens_origins::{Stream, put_stream};
use pr_lens_text::{put, put_counted};
use pr_net::{Cell, Unit};
use std::alloc::{AllocError, Global};

/// What a cell mainly does.
fn cell_work(cell: &Cell) -> &'static str
    ensures { result.now ≡ work_by cell.now.next cell.now.mode }
{
    match cell.next {
        Next::Output | Next::A => "keeps",
        Next::Keep => match cell.mode {
            Mode::Plain => "looks up",
            Mode::Sum => "adds",
            Mode::Zero => "compares",
        },
    }
}

/// What a unit mainly does.
fn work(cells: &[Cell]) -> &'static str
    ensures { result.now ≡ work_of cells.now }
{
    match cells.first() {
        None => "nothing",
        Some(cell) => cell_work(cell),
    }
}

/// The word behind a number of cells, and the end of a node.
fn cells_word(count: usize) -> &'static str
    ensures { result.now ≡ cells_word count }
{
    if count == 1 {
        " cell\"];\n"
    } else {
        " cells\"];\n"
    }
}

/// Adds the line for the stream that a unit is made for.
#[tactic(auto, unfolding(crate::specs::Nodes::stream_line))]
fn put_stream_line(text: &mut Vec<u8>, stream: &Stream) -> Result<(), AllocError>
    ensures { OnOk result (text.new.items ≡ text.old.items ++ stream_line stream.now) }
{
    put(text, "\\n")?;
    put_stream(text, stream)?;
    put_counted(text, ", line ", stream.spot.line)?;
    put_counted(text, ", column ", stream.spot.column)
}

/// The same, where the stream is told.
fn put_origin(text: &mut Vec<u8>, names: &Names, number: usize) -> Result<(), AllocError>
    ensures { OnOk result (text.new.items ≡ text.old.items ++ line_for (stream_of names.now.origins number)) }
{
    match names.origins.stream_of(number) {
        None => Ok(()),
        Some(stream) => put_stream_line(text, stream),
    }
}

/// Begins the node of a unit with what it does.
#[tactic(auto, unfolding(crate::specs::Nodes::node_head))]
fn put_node_head(text: &mut Vec<u8>, number: usize, cells: &[Cell]) -> Result<(), AllocError>
    ensures { OnOk result (text.new.items ≡ text.old.items ++ node_head number cells.now) }
{
    put_counted(text, "    u", number)?;
    put_counted(text, " [label=\"", number)?;
    put(text, " ")?;
    put(text, work(cells))
}

/// Ends the node of a unit of so many cells.
#[tactic(auto, unfolding(crate::specs::Nodes::node_end))]
fn put_node_end(text: &mut Vec<u8>, count: usize) -> Result<(), AllocError>
    ensures { OnOk result (text.new.items ≡ text.old.items ++ node_end count) }
{
    put_counted(text, "\\n", count)?;
    put(text, cells_word(count))
}

/// Adds the node of a unit.
#[tactic(auto, unfolding(crate::specs::Nodes::node_text))]
fn put_node(
    text: &mut Vec<u8>,
    names: &Names,
    number: usize,
    cells: &[Cell],
) -> Result<(), AllocError>
    ensures { OnOk result (text.new.items ≡ text.old.items ++ node_text names.now number cells.now) }
{
    put_node_head(text, number, cells)?;
    put_origin(text, names, number)?;
    put_node_end(text, cells.len())
}

/// The last of stages; 0 where there are none.
fn last_of(stages: &[u32]) -> u32
    ensures { result ≡ last_of stages.now }
{
    let mut last = 0;
    for stage in stages {
        last = last.max(*stage);
    }
    last
}

/// So many texts, all empty.
#[tactic(auto, using(std::proofs::lemmas::List::replicate_more))]
fn empty_texts(alloc: Global, count: usize) -> Result<Vec<Vec<u8>>, AllocError>
    ensures { IfOk result (λ texts. texts_of texts.items ≡ replicate count []) }
{
    let mut texts = Vec::new(alloc);
    for _ in 0..count {
        texts.push(Vec::new(alloc))?;
    }
    Ok(texts)
}

/// Adds the node of a unit to the text of its stage, where it has one.
fn put_unit(
    texts: &mut [Vec<u8>],
    names: &Names,
    number: usize,
    cells: &[Cell],
    stages: &[u32],
) -> Result<(), AllocError>
    ensures { OnOk result (Gain (node_in names.now stages.now number cells.now) texts.old texts.new) }
{
    if number < stages.len() {
        let stage = stages[number] as usize;
        if stage < texts.len() {
            return put_node(&mut texts[stage], names, number, cells);
        }
    }
    Ok(())
}

/// Adds the nodes of units, each to the text of its stage.
fn put_units(
    texts: &mut [Vec<u8>],
    names: &Names,
    units: &[Unit],
    stages: &[u32],
) -> Result<(), AllocError>
    ensures { OnOk result (Gain (nodes_from names.now 0 units.now stages.now) texts.old texts.new) }
{
    for (number, unit) in units.iter().enumerate() {
        put_unit(texts, names, number, &unit.cells, stages)?;
    }
    Ok(())
}

/// The nodes of each stage.
fn nodes_of(
    alloc: Global,
    names: &Names,
    units: &[Unit],
    stages: &[u32],
) -> Result<Vec<Vec<u8>>, AllocError>
    ensures { IfOk result (λ nodes. texts_of nodes.items ≡ nodes_by_stage names.now units.now stages.now) }
{
    let mut nodes = empty_texts(alloc, last_of(stages) as usize + 1)?;
    put_units(&mut nodes, names, units, stages)?;
    Ok(nodes)
}

/// Adds a stage with the nodes of its units.
#[tactic(auto, unfolding(crate::specs::Nodes::stage_text))]
fn put_stage(text: &mut Vec<u8>, stage: usize, nodes: &[u8]) -> Result<(), AllocError>
    ensures { OnOk result (text.new.items ≡ text.old.items ++ stage_text stage nodes.now) }
{
    put_counted(text, "  subgraph cluster_", stage)?;
    put_counted(text, " {\n    label=\"stage ", stage)?;
    put(text, "\";\n")?;
    text.extend_from_slice(nodes)?;
    put(text, "  }\n")
}

/// Adds stages with these nodes.
fn put_each(text: &mut Vec<u8>, nodes: &[Vec<u8>]) -> Result<(), AllocError>
    ensures { OnOk result (text.new.items ≡ text.old.items ++ stages_with 0 (texts_of nodes.now)) }
{
    for (stage, nodes) in nodes.iter().enumerate() {
        put_stage(text, stage, nodes)?;
    }
    Ok(())
}

/// Adds all stages.
pub fn put_stages(
    alloc: Global,
    text: &mut Vec<u8>,
    names: &Names,
    units: &[Unit],
    stages: &[u32],
) -> Result<(), AllocError>
    ensures { OnOk result (text.new.items ≡ text.old.items ++ stages_with 0 (nodes_by_stage names.now units.now stages.now)) }
{
    let nodes = nodes_of(alloc, names, units, stages)?;
    put_each(text, &nodes)
}
