//! The text of a bench round the lines of its samples.

ghost use Rattle.std.specs.Prelude.{◌≡◌, ◌++◌, IfOk, OnOk};
ghost use Rattle.pr_lens_bench.specs.Texts.{before_text, begin_text, behind_text, drive_text, end_text, head_text, look_text, module_text};

use crate::pieces::{Piece, put_bytes, put_pieces};
use pr_lens_rtl_text::Port;
use pr_lens_text::{put, put_counted};
use std::alloc::{AllocError, Global};

/// What is tried by a bench: a module with its ports. The seed decides when samples are offered and results taken.
#[derive(Drop)]
pub struct Design {
    /// The name of the module.
    pub name: Vec<u8>,
    /// The ports of its inputs.
    pub inputs: Vec<Port>,
    /// The ports of its outputs.
    pub outputs: Vec<Port>,
    /// The seed.
    pub seed: u32,
}

/// Adds the head of a bench.
#[tactic(auto, unfolding(crate::specs::Texts::head_text))]
fn put_head(text: &mut Vec<u8>, seed: u32, count: usize) -> Result<(), AllocError>
    ensures { OnOk result (text.new.items ≡ text.old.items ++ head_text seed count) }
{
    put_counted(
        text,
        "`timescale 1ns/1ps\n/* verilator lint_off WIDTH */\nmodule bench;\n  \
reg clock = 0, reset = 1, in_valid = 0, out_ready = 0, failed = 0;\n  wire in_ready, out_valid;\n  \
reg [31:0] clocks = 0, offered = 0, taken = 0, valid = 70, ready = 70, given = 0;\n  reg [31:0] count = 32'd",
        count,
    )?;
    put_counted(text, ", dice = 32'd", seed as usize)?;
    put(text, ";\n")
}

/// Adds the module, up to its numbers.
#[tactic(auto, unfolding(crate::specs::Texts::module_text))]
fn put_module(text: &mut Vec<u8>, name: &[u8]) -> Result<(), AllocError>
    ensures { OnOk result (text.new.items ≡ text.old.items ++ module_text name.now) }
{
    put(text, "  ")?;
    put_bytes(text, name)?;
    put(
        text,
        " dut (\n    .clock(clock),\n    .reset(reset),\n    .in_valid(in_valid),\n    .in_ready(in_ready),\n    \
.out_valid(out_valid),\n    .out_ready(out_ready)",
    )
}

/// Adds what may be told by the words of a simulator's call.
#[tactic(auto, unfolding(crate::specs::Texts::begin_text))]
fn put_begin(text: &mut Vec<u8>) -> Result<(), AllocError>
    ensures { OnOk result (text.new.items ≡ text.old.items ++ begin_text) }
{
    put(
        text,
        ");\n  initial begin\n    given = $value$plusargs(\"seed=%d\", dice);\n    \
given = $value$plusargs(\"valid=%d\", valid);\n    given = $value$plusargs(\"ready=%d\", ready);\n",
    )
}

/// Adds what drives the handshake.
#[tactic(auto, unfolding(crate::specs::Texts::drive_text))]
fn put_drive(text: &mut Vec<u8>) -> Result<(), AllocError>
    ensures { OnOk result (text.new.items ≡ text.old.items ++ drive_text) }
{
    put(
        text,
        "  end\n  always #5 clock = ~clock;\n  // Inputs change between two rising edges.\n  \
always @(negedge clock) begin\n    clocks = clocks + 1;\n    if (clocks == 3) reset = 0;\n    if (clocks > 3) begin\n      \
dice = dice * 32'd1664525 + 32'd1013904223;\n      in_valid = offered < count && (dice >> 16) % 100 < valid;\n      \
dice = dice * 32'd1664525 + 32'd1013904223;\n      out_ready = (dice >> 16) % 100 < ready;\n    end\n",
    )
}

/// Adds what begins the look at a result.
#[tactic(auto, unfolding(crate::specs::Texts::look_text))]
fn put_look(text: &mut Vec<u8>) -> Result<(), AllocError>
    ensures { OnOk result (text.new.items ≡ text.old.items ++ look_text) }
{
    put(
        text,
        "  end\n  // At a rising edge, a result is taken as it stands before it.\n  \
always @(posedge clock) if (!reset && !failed) begin\n    if (out_valid && out_ready) begin\n",
    )
}

/// Adds how a bench ends.
#[tactic(auto, unfolding(crate::specs::Texts::end_text))]
fn put_end(text: &mut Vec<u8>) -> Result<(), AllocError>
    ensures { OnOk result (text.new.items ≡ text.old.items ++ end_text) }
{
    put(
        text,
        "      taken = taken + 1;\n    end\n    if (in_valid && in_ready) offered = offered + 1;\n    \
if (failed) $finish;\n    else if (taken == count) begin\n      \
$display(\"%0d results, all as expected\", taken);\n      $finish;\n    \
end else if (clocks > 200 * count + 200000) begin\n      \
$display(\"only %0d of %0d results came\", taken, count);\n      $finish;\n    end\n  end\nendmodule\n",
    )
}

/// Adds what stands before the lines of so many samples.
#[tactic(auto, unfolding(crate::specs::Texts::before_text))]
fn put_before(text: &mut Vec<u8>, design: &Design, count: usize) -> Result<(), AllocError>
    ensures { OnOk result (text.new.items ≡ text.old.items ++ before_text design.now count) }
{
    put_head(text, design.seed, count)?;
    put_pieces(text, Piece::Sample, count, &design.inputs)?;
    put_pieces(text, Piece::Wanted, count, &design.outputs)?;
    put_module(text, &design.name)?;
    put_pieces(text, Piece::Link, count, &design.inputs)?;
    put_pieces(text, Piece::Link, count, &design.outputs)?;
    put_begin(text)
}

/// Adds what stands behind them.
#[tactic(auto, unfolding(crate::specs::Texts::behind_text))]
fn put_behind(text: &mut Vec<u8>, design: &Design) -> Result<(), AllocError>
    ensures { OnOk result (text.new.items ≡ text.old.items ++ behind_text design.now) }
{
    put_drive(text)?;
    put_pieces(text, Piece::Offer, 0, &design.inputs)?;
    put_look(text)?;
    put_pieces(text, Piece::Check, 0, &design.outputs)?;
    put_end(text)
}

/// The bench with the lines of so many samples.
pub fn whole_text(
    alloc: Global,
    design: &Design,
    count: usize,
    lines: &[u8],
) -> Result<Vec<u8>, AllocError>
    ensures { IfOk result (λ text. text.items ≡ before_text design.now count ++ lines.now ++ behind_text design.now) }
{
    let mut text = Vec::new(alloc);
    put_before(&mut text, design, count)?;
    put_bytes(&mut text, lines)?;
    put_behind(&mut text, design)?;
    Ok(text)
}
