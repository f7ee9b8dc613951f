//! Writing a configuration.

ghost use Rattle.std.specs.Prelude.{◌≡◌, ◌<◌, ◌≤◌, ◌^◌, ◌∷◌, ◌++◌, [], true, length, map, IfOk, OnOk};
ghost use Rattle.std.specs.List.{flat_map, list_all};
ghost use Rattle.pr_conf.specs.Shape.{output_shape};
ghost use Rattle.pr_conf.specs.Configuration.{pes_of, shape_of};
ghost use Rattle.pr_code.specs.Spelling.{format_2, bytes_of_words, pe_words, set_words, map_words, output_words, stage_words, number_of_flags, is_set, has_small_choice, has_pe_bytes, has_tap_byte, have_tap_bytes, has_bytes, words_of};

use crate::formats::FORMAT_2;
use crate::parts::{pe_words, tap_word};
use crate::words::{put_four, put_word, put_words};
use pr_conf::{Configuration, Output, Pe, Stage};
use std::alloc::{AllocError, Global};

/// Appends the map of a stage of N columns.
fn put_map<const N: usize>(out: &mut Vec<u8>, marks: u64) -> Result<(), AllocError>
    requires { N ≤ 32 → marks < 2 ^ 32 }
    ensures { OnOk result (out.new.items ≡ out.old.items ++ bytes_of_words (map_words N marks)) }
{
    if N <= 32 {
        put_words(out, &[marks as u32])
    } else {
        put_words(out, &[(marks % (1 << 32)) as u32, (marks >> 32) as u32])
    }
}

/// Appends the words of a processing element where it is set, and says whether it is.
#[tactic(auto, unfolding(crate::specs::Spelling::pe_words, crate::specs::Spelling::is_set))]
fn put_if_set(out: &mut Vec<u8>, pe: &Pe) -> Result<bool, AllocError>
    requires { has_small_choice pe.now ≡ true }
    ensures words { OnOk result (out.new.items ≡ out.old.items ++ bytes_of_words (set_words pe.now)) }
    ensures set { IfOk result (λ set. set ≡ is_set pe.now) }
    ensures bytes { has_pe_bytes pe.now ≡ true }
{
    // most elements of a long chain of stages are idle
    if *pe == Pe::IDLE {
        return Ok(false);
    }
    let words = pe_words(pe);
    if words == [0; 4] {
        return Ok(false);
    }
    put_four(out, words)?;
    Ok(true)
}

/// Appends the words of those processing elements of a stage that are set: bit i of the number says whether i is.
fn put_set(out: &mut Vec<u8>, pes: &[Pe]) -> Result<u64, AllocError>
    requires few { length pes.now ≤ 64 }
    requires choices { list_all has_small_choice pes.now ≡ true }
    ensures words { OnOk result (out.new.items ≡ out.old.items ++ bytes_of_words (flat_map set_words pes.now)) }
    ensures marks { IfOk result (λ marks. marks ≡ number_of_flags (map is_set pes.now)) }
    ensures bytes { OnOk result (list_all has_pe_bytes pes.now ≡ true) }
{
    let mut marks = 0;
    for i in 0..pes.len() {
        let set = put_if_set(out, &pes[i])?;
        marks += u64::from(set) << i;
    }
    Ok(marks)
}

/// Appends the words of an output.
fn put_output(out: &mut Vec<u8>, output: &Output) -> Result<(), AllocError>
    ensures words { OnOk result (out.new.items
        ≡ out.old.items ++ bytes_of_words (output_words (output_shape output.now))) }
    ensures bytes { OnOk result (list_all has_tap_byte output.now.taps.items ≡ true) }
{
    put_word(out, u32::from(output.width))?;
    for tap in &output.taps {
        put_word(out, tap_word(*tap))?;
    }
    Ok(())
}

/// Appends so many inputs, by their widths.
fn put_inputs(out: &mut Vec<u8>, widths: &[u8]) -> Result<(), AllocError>
    requires { length widths.now < 2 ^ 32 }
    ensures { OnOk result (out.new.items ≡ out.old.items ++ bytes_of_words (length widths.now ∷ widths.now)) }
{
    put_word(out, widths.len() as u32)?;
    for width in widths {
        put_word(out, u32::from(*width))?;
    }
    Ok(())
}

/// Appends the outputs, their number first.
fn put_outputs(out: &mut Vec<u8>, outputs: &[Output]) -> Result<(), AllocError>
    requires { length outputs.now < 2 ^ 32 }
    ensures words { OnOk result (out.new.items
        ≡ out.old.items ++ bytes_of_words (length outputs.now ∷ flat_map output_words (map output_shape outputs.now))) }
    ensures bytes { OnOk result (list_all have_tap_bytes (map output_shape outputs.now) ≡ true) }
{
    put_word(out, outputs.len() as u32)?;
    for output in outputs {
        put_output(out, output)?;
    }
    Ok(())
}

/// Appends the words of a stage. Those of its elements are made in `spare`, since their map goes before them.
#[tactic(auto, using(crate::proofs::WritingLemmas::few_marks))]
fn put_stage<const N: usize>(
    out: &mut Vec<u8>,
    spare: &mut Vec<u8>,
    stage: &Stage<N>,
) -> Result<(), AllocError>
    requires few { N ≤ 64 }
    requires choices { list_all has_small_choice stage.now.pes.items ≡ true }
    ensures words { OnOk result (out.new.items
        ≡ out.old.items ++ bytes_of_words (stage_words true N stage.now.pes.items)) }
    ensures bytes { OnOk result (list_all has_pe_bytes stage.now.pes.items ≡ true) }
{
    spare.clear();
    let marks = put_set(spare, &stage.pes)?;
    put_map::<N>(out, marks)?;
    out.extend_from_slice(spare)?;
    Ok(())
}

/// Appends the words of stages.
fn put_stages<const N: usize>(
    alloc: Global,
    out: &mut Vec<u8>,
    stages: &[Stage<N>],
) -> Result<(), AllocError>
    requires few { N ≤ 64 }
    requires choices { list_all (list_all has_small_choice) (map pes_of stages.now) ≡ true }
    ensures words { OnOk result (out.new.items
        ≡ out.old.items ++ bytes_of_words (flat_map (stage_words true N) (map pes_of stages.now))) }
    ensures bytes { OnOk result (list_all (list_all has_pe_bytes) (map pes_of stages.now) ≡ true) }
{
    let mut spare = Vec::new(alloc);
    for stage in stages {
        put_stage(out, &mut spare, stage)?;
    }
    Ok(())
}

/// Appends the words of a configuration.
pub fn put_configuration<const N: usize, const P: usize>(
    alloc: Global,
    out: &mut Vec<u8>,
    conf: &Configuration<N, P>,
) -> Result<(), AllocError>
    ensures words { OnOk result (out.new.items ≡ out.old.items ++ bytes_of_words (words_of N P (shape_of conf.now))) }
    ensures bytes { OnOk result (has_bytes (shape_of conf.now) ≡ true) }
{
    let (columns, registers) = (N as u32, P as u32);
    put_words(
        out,
        &[
            FORMAT_2.mark,
            columns * 0x1_0000 + registers,
            conf.stages.len() as u32,
        ],
    )?;
    put_inputs(out, &conf.inputs)?;
    put_outputs(out, &conf.outputs)?;
    put_stages(alloc, out, &conf.stages)?;
    Ok(())
}

/// The file of a configuration, in format 2. Its constants are bytes, so that no other configuration has it.
pub fn encode<const N: usize, const P: usize>(
    alloc: Global,
    conf: &Configuration<N, P>,
) -> Result<Vec<u8>, AllocError>
    ensures words { IfOk result (λ out. out.items ≡ bytes_of_words (words_of N P (shape_of conf.now))) }
    ensures bytes { OnOk result (has_bytes (shape_of conf.now) ≡ true) }
{
    let mut out = Vec::new(alloc);
    put_configuration(alloc, &mut out, conf)?;
    Ok(out)
}
