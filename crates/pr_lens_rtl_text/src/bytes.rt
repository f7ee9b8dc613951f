//! The constants of a configuration are bytes, as their type says. A clause knows it once they are read.

ghost use Rattle.std.specs.Prelude.{◌≡◌, true};
ghost use Rattle.std.specs.List.{list_all};
ghost use Rattle.pr_conf.specs.Configuration.{shape_of};
ghost use Rattle.pr_code.specs.Spelling.{has_bytes, has_c_byte, has_pe_bytes, has_source_byte, has_tap_byte, is_byte};

use pr_conf::{Bit, Configuration, Output, Pe, Source, Stage, Tap};

/// Reads a byte.
fn see_byte(_byte: u8)
    ensures { is_byte _byte ≡ true }
{}

/// Reads the constant of a source.
fn see_source(source: Source)
    ensures { has_source_byte source ≡ true }
{
    if let Source::Const(byte) = source {
        see_byte(byte);
    }
}

/// Reads the constant of C.
fn see_c(c: Bit)
    ensures { has_c_byte c ≡ true }
{
    if let Bit::Of(source, _) = c {
        see_source(source);
    }
}

/// Reads the constant of a tap.
fn see_tap(tap: Tap)
    ensures { has_tap_byte tap ≡ true }
{
    if let Tap::Const(byte) = tap {
        see_byte(byte);
    }
}

/// Reads the constants of a processing element.
#[tactic(auto, unfolding(pr_code::specs::Spelling::has_pe_bytes))]
fn see_element(pe: &Pe)
    ensures { has_pe_bytes pe.now ≡ true }
{
    see_source(pe.a);
    see_source(pe.hi);
    see_source(pe.lo);
    see_c(pe.c);
    see_byte(pe.table);
    see_byte(pe.mask);
    see_byte(pe.init);
}

/// Reads the constants of processing elements.
fn see_elements(pes: &[Pe])
    ensures { list_all has_pe_bytes pes.now ≡ true }
{
    for pe in pes {
        see_element(pe);
    }
}

/// Reads the constants of taps.
fn see_taps(taps: &[Tap])
    ensures { list_all has_tap_byte taps.now ≡ true }
{
    for tap in taps {
        see_tap(*tap);
    }
}

/// Reads the constants of outputs.
fn see_outputs(outputs: &[Output])
    ensures { list_all (λ o. list_all has_tap_byte o.taps.items) outputs.now ≡ true }
{
    for output in outputs {
        see_taps(&output.taps);
    }
}

/// Reads the constants of stages.
fn see_stages<const N: usize>(stages: &[Stage<N>])
    ensures { list_all (λ s. list_all has_pe_bytes s.pes.items) stages.now ≡ true }
{
    for stage in stages {
        see_elements(&stage.pes);
    }
}

/// Reads the constants of a configuration.
pub fn see_bytes<const N: usize, const P: usize>(conf: &Configuration<N, P>)
    ensures { has_bytes (shape_of conf.now) ≡ true }
{
    see_outputs(&conf.outputs);
    see_stages::<N>(&conf.stages);
}
