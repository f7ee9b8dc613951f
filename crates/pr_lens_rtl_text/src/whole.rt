//! The whole text.

ghost use Rattle.std.specs.Prelude.{◌≡◌, ◌≤◌, ◌++◌, IfErr, IfOk, OnOk, codes, length, map};
ghost use Rattle.pr_conf.specs.Configuration.{pes_of, shape_of};
ghost use Rattle.pr_conf.specs.Through.{output_widths};
ghost use Rattle.pr_lens_rtl.specs.Module.{module_of, stages_registers, stages_wires};
ghost use Rattle.pr_lens_rtl_text.specs.declared.lines.Way.{Way};
ghost use Rattle.pr_lens_rtl_names.specs.declared.names.Side.{Side};
ghost use Rattle.pr_lens_rtl_text.specs.Notes.{note_of};
ghost use Rattle.pr_lens_rtl_text.specs.Printed.{kept_text};
ghost use Rattle.pr_lens_rtl_text.specs.Ports.{ports_text};
ghost use Rattle.pr_lens_rtl_names.specs.Names.{port_name};
ghost use Rattle.pr_lens_rtl_terms.specs.Terms.{assigns_of};
ghost use Rattle.pr_lens_rtl_text.specs.Limits.{IsTooLong, most_text_bytes};
ghost use Rattle.pr_lens_rtl_text.specs.Modules.{comments_of, head_text, ports_by, rtl_text, IsRtlText};

use crate::bytes::see_bytes;
use crate::faults::NoText;
use crate::lines::{Way, put_lines};
use crate::notes::Notes;
use crate::ports::{Port, ports_of, put_ports, put_side_lines};
use pr_conf::{Configuration, Output, Stage};
use pr_lang::Program;
use pr_lens_rtl_names::{Side, port_bytes, port_names};
use pr_lens_rtl_terms::{
    Line, hand_lines, last_stage, marks_of, stage_registers, stage_wires, tap_lines,
};
use pr_lens_text::put;
use std::alloc::{AllocError, Global};

/// The bytes of a text, at most.
pub const MOST_TEXT_BYTES: usize = 16_777_216;

/// Adds the lines of those assignments whose vectors are marked, unless the text gets too many bytes.
fn put_short(
    text: &mut Vec<u8>,
    marks: &[bool],
    notes: &Notes,
    way: Way,
    lines: &[Line],
) -> Result<(), NoText>
    ensures text { OnOk result (text.new.items
        ≡ text.old.items ++ kept_text (note_of notes.now marks.now) way marks.now (assigns_of lines.now)) }
    ensures refused { IfErr result (IsTooLong
        (text.old.items ++ kept_text (note_of notes.now marks.now) way marks.now (assigns_of lines.now))) }
{
    put_lines(text, marks, notes, way, lines)?;
    if MOST_TEXT_BYTES < text.len() {
        return Err(NoText::Long);
    }
    Ok(())
}

/// Adds the lines of the registers of stages, which are counted from 0.
fn put_registers<const N: usize, const P: usize>(
    alloc: Global,
    text: &mut Vec<u8>,
    marks: &[bool],
    notes: &Notes,
    way: Way,
    stages: &[Stage<N>],
) -> Result<(), NoText>
    requires columns { N ≤ 64 }
    requires registers { P ≤ 16 }
    requires few { length stages.now ≤ 32768 }
    ensures text { OnOk result (text.new.items
        ≡ text.old.items ++ kept_text (note_of notes.now marks.now) way marks.now
        (stages_registers N P 0 (map pes_of stages.now))) }
    ensures refused { IfErr result (IsTooLong (text.old.items ++ kept_text (note_of notes.now marks.now) way marks.now
        (stages_registers N P 0 (map pes_of stages.now)))) }
{
    for number in 0..stages.len() {
        let pes = stages[number].pes.as_slice();
        let lines = stage_registers(alloc, N as u32, P as u32, number as u32, pes)?;
        put_short(text, marks, notes, way, &lines)?;
    }
    Ok(())
}

/// Adds the lines of the wires of stages, which are counted from 0.
fn put_stages<const N: usize>(
    alloc: Global,
    text: &mut Vec<u8>,
    marks: &[bool],
    notes: &Notes,
    stages: &[Stage<N>],
) -> Result<(), NoText>
    requires columns { N ≤ 64 }
    requires few { length stages.now ≤ 32768 }
    ensures text { OnOk result (text.new.items
        ≡ text.old.items ++ kept_text (note_of notes.now marks.now) Way.Wire marks.now
        (stages_wires N 0 (map pes_of stages.now))) }
    ensures refused { IfErr result (IsTooLong (text.old.items
        ++ kept_text (note_of notes.now marks.now) Way.Wire marks.now
        (stages_wires N 0 (map pes_of stages.now)))) }
{
    for number in 0..stages.len() {
        let pes = stages[number].pes.as_slice();
        let lines = stage_wires(alloc, N as u32, number as u32, pes)?;
        put_short(text, marks, notes, Way::Wire, &lines)?;
    }
    Ok(())
}

/// Adds the lines of the registers of a configuration.
fn put_all_registers<const N: usize, const P: usize>(
    alloc: Global,
    text: &mut Vec<u8>,
    marks: &[bool],
    notes: &Notes,
    way: Way,
    conf: &Configuration<N, P>,
) -> Result<(), NoText>
    ensures text { OnOk result (text.new.items
        ≡ text.old.items ++ kept_text (note_of notes.now marks.now) way marks.now
        (module_of N P (shape_of conf.now)).registers) }
    ensures refused { IfErr result (IsTooLong (text.old.items ++ kept_text (note_of notes.now marks.now) way marks.now
        (module_of N P (shape_of conf.now)).registers)) }
{
    put_registers::<N, P>(alloc, text, marks, notes, way, &conf.stages)
}

/// Adds the lines of the wires of a configuration.
fn put_all_wires<const N: usize, const P: usize>(
    alloc: Global,
    text: &mut Vec<u8>,
    marks: &[bool],
    notes: &Notes,
    conf: &Configuration<N, P>,
) -> Result<(), NoText>
    ensures text { OnOk result (text.new.items
        ≡ text.old.items ++ kept_text (note_of notes.now marks.now) Way.Wire marks.now
        (module_of N P (shape_of conf.now)).wires) }
    ensures refused { IfErr result (IsTooLong (text.old.items
        ++ kept_text (note_of notes.now marks.now) Way.Wire marks.now
        (module_of N P (shape_of conf.now)).wires)) }
{
    let taps = tap_lines::<N, P>(alloc, conf)?;
    put_stages::<N>(alloc, text, marks, notes, &conf.stages)?;
    put_lines(
        text,
        marks,
        notes,
        Way::Wire,
        &hand_lines(last_stage::<N, P>(conf)),
    )?;
    put_lines(text, marks, notes, Way::Wire, &taps)?;
    Ok(())
}

/// The widths of outputs.
fn widths_of(alloc: Global, outputs: &[Output]) -> Result<Vec<u8>, AllocError>
    ensures { IfOk result (λ widths. widths.items ≡ map (λ o. o.width) outputs.now) }
{
    let mut widths = Vec::new(alloc);
    for output in outputs {
        widths.push(output.width)?;
    }
    Ok(widths)
}

/// The ports of a program's inputs.
pub fn input_ports<const N: usize, const P: usize>(
    alloc: Global,
    program: &Program,
    conf: &Configuration<N, P>,
) -> Result<Vec<Port>, AllocError>
    ensures ports { IfOk result (λ ports.
        ports.items ≡ ports_by Side.Input program.now (shape_of conf.now).inputs) }
    ensures few { IfOk result (λ ports. length ports.items ≤ 64) }
{
    let names = port_names(alloc, Side::Input, &program.items)?;
    ports_of(alloc, &names, &conf.inputs)
}

/// The ports of a program's outputs.
pub fn output_ports<const N: usize, const P: usize>(
    alloc: Global,
    program: &Program,
    conf: &Configuration<N, P>,
) -> Result<Vec<Port>, AllocError>
    ensures ports { IfOk result (λ ports.
        ports.items ≡ ports_by Side.Output program.now (output_widths (shape_of conf.now))) }
    ensures few { IfOk result (λ ports. length ports.items ≤ 64) }
{
    let names = port_names(alloc, Side::Output, &program.items)?;
    let widths = widths_of(alloc, &conf.outputs)?;
    ports_of(alloc, &names, &widths)
}

/// Adds bytes.
fn put_bytes(text: &mut Vec<u8>, bytes: &[u8]) -> Result<(), AllocError>
    ensures { OnOk result (text.new.items ≡ text.old.items ++ bytes.now) }
{
    text.extend_from_slice(bytes)
}

/// Adds the head of a module.
fn put_head(text: &mut Vec<u8>, name: &[u8]) -> Result<(), AllocError>
    ensures { OnOk result (text.new.items ≡ text.old.items ++ head_text name.now) }
{
    put(text, "/* verilator lint_off UNUSED */\nmodule ")?;
    put_bytes(text, name)?;
    put(
        text,
        "(\n  input clock,\n  input reset,\n  input in_valid,\n  output in_ready,\n  output out_valid,\n  input out_ready",
    )?;
    Ok(())
}

/// Adds the head of a module with its ports.
fn put_heading(
    text: &mut Vec<u8>,
    name: &[u8],
    inputs: &[Port],
    outputs: &[Port],
) -> Result<(), AllocError>
    ensures { OnOk result (text.new.items ≡ text.old.items ++ (head_text name.now
        ++ ports_text Side.Input inputs.now ++ ports_text Side.Output outputs.now ++ codes "\n);\n")) }
{
    put_head(text, name)?;
    put_ports(text, Side::Input, inputs)?;
    put_ports(text, Side::Output, outputs)?;
    put(text, "\n);\n")
}

/// Adds the end of a module, unless the text gets too many bytes.
fn put_end(text: &mut Vec<u8>) -> Result<(), NoText>
    ensures text { OnOk result (text.new.items ≡ text.old.items ++ codes "end\nendmodule\n") }
    ensures short { OnOk result (length text.new.items ≤ most_text_bytes) }
    ensures refused { IfErr result (IsTooLong (text.old.items ++ codes "end\nendmodule\n")) }
{
    put(text, "end\nendmodule\n")?;
    if MOST_TEXT_BYTES < text.len() {
        return Err(NoText::Long);
    }
    Ok(())
}

/// The name of the module for a name.
pub fn module_name(alloc: Global, name: &str) -> Result<Vec<u8>, AllocError>
    ensures { IfOk result (λ bytes. bytes.items ≡ port_name name.now) }
{
    port_bytes(alloc, name.as_bytes())
}

/// The module of a program and its configuration, with this name and these comments, unless it has too many bytes. Then
/// most of it is not made.
pub fn rtl<const N: usize, const P: usize>(
    alloc: Global,
    name: &str,
    program: &Program,
    conf: &Configuration<N, P>,
    notes: &Notes,
) -> Result<Vec<u8>, NoText>
    ensures made { IfOk result (λ text. IsRtlText N P (comments_of N P notes.now (shape_of conf.now))
        name.now program.now (shape_of conf.now) text.items) }
    ensures short { IfOk result (λ text. length text.items ≤ most_text_bytes) }
    ensures refused { IfErr result (IsTooLong
        (rtl_text N P (comments_of N P notes.now (shape_of conf.now)) name.now program.now (shape_of conf.now))) }
{
    let name = module_name(alloc, name)?;
    let inputs = input_ports::<N, P>(alloc, program, conf)?;
    let outputs = output_ports::<N, P>(alloc, program, conf)?;
    let marks = marks_of::<N, P>(alloc, conf)?;
    let mut text = Vec::new(alloc);
    put_heading(&mut text, &name, &inputs, &outputs)?;
    put_side_lines(&mut text, Side::Input, &inputs)?;
    put_all_registers::<N, P>(alloc, &mut text, &marks, notes, Way::Declared, conf)?;
    put_all_wires::<N, P>(alloc, &mut text, &marks, notes, conf)?;
    put_side_lines(&mut text, Side::Output, &outputs)?;
    put(&mut text, "always @(posedge clock) begin\n")?;
    put_all_registers::<N, P>(alloc, &mut text, &marks, notes, Way::Clocked, conf)?;
    put_end(&mut text)?;
    see_bytes::<N, P>(conf);
    Ok(text)
}
