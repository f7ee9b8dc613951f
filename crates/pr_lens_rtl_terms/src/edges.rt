//! The assignments to the ports.

ghost use Rattle.std.specs.Prelude.{◌≡◌, ◌+◌, ◌-◌, ◌<◌, ◌≤◌, ◌^◌, ◌++◌, IfOk, OnOk, map, length};
ghost use Rattle.std.specs.List.{flat_map};
ghost use Rattle.pr_conf.specs.Configuration.{shape_of};
ghost use Rattle.pr_lens_rtl.specs.Module.{hand_wires, last_of, tap_expr, tap_wires, taps_of};
ghost use Rattle.pr_lens_rtl_terms.specs.Terms.{assign_of, assigns_of, atom_expr, output_taps, out_wire};

use crate::elements::register;
use crate::stages::add;
use crate::terms::{Atom, Factor, Form, Line, Sign, Term};
use pr_conf::{Configuration, Output, Tap};
use pr_lens_rtl::Net;
use std::alloc::{AllocError, Global};

/// The assignments of the handshake, in a pipeline whose last stage is this.
pub fn hand_lines(last: u32) -> [Line; 2]
    ensures { assigns_of result ≡ hand_wires last }
{
    let valid = Atom::Read(Net::Valid(last));
    let ready = Factor::Plain(Atom::Read(Net::OutReady));
    [
        Line {
            net: Net::InReady,
            term: Term::Whole(Form::Two(Sign::Or, Factor::Not(valid), ready)),
        },
        Line {
            net: Net::OutValid,
            term: Term::Whole(Form::One(Factor::Plain(valid))),
        },
    ]
}

/// The byte that a tap reads.
fn tap_atom(columns: u32, last: u32, tap: Tap) -> Atom
    requires { columns ≤ 64 }
    ensures { atom_expr result ≡ tap_expr columns last tap }
{
    match tap {
        Tap::Const(byte) => Atom::Byte(byte),
        Tap::Reg { col, reg } => Atom::Read(register(columns, last, col, reg)),
    }
}

/// The assignment to a byte of a result.
fn out_line(columns: u32, last: u32, place: u32, tap: Tap) -> Line
    requires { columns ≤ 64 }
    ensures { assign_of result ≡ out_wire columns last place tap }
{
    Line {
        net: Net::Out(place),
        term: Term::Whole(Form::One(Factor::Plain(tap_atom(columns, last, tap)))),
    }
}

/// Adds the assignments to the bytes of an output, the first of which has this place in the result.
fn add_output(
    lines: &mut Vec<Line>,
    columns: u32,
    last: u32,
    place: u32,
    taps: &[Tap],
) -> Result<(), AllocError>
    requires columns { columns ≤ 64 }
    requires room { place + length taps.now < 2 ^ 32 }
    ensures { OnOk result (assigns_of lines.new.items
        ≡ assigns_of lines.old.items ++ tap_wires columns last place taps.now) }
{
    for i in 0..taps.len() {
        add(lines, &[out_line(columns, last, place + i as u32, taps[i])])?;
    }
    Ok(())
}

/// Adds the assignments to the bytes of a result.
fn add_outputs(
    lines: &mut Vec<Line>,
    columns: u32,
    last: u32,
    outputs: &[Output],
) -> Result<(), AllocError>
    requires columns { columns ≤ 64 }
    requires room { length (flat_map output_taps outputs.now) < 2 ^ 32 }
    ensures { OnOk result (assigns_of lines.new.items
        ≡ assigns_of lines.old.items ++ tap_wires columns last 0 (flat_map output_taps outputs.now)) }
{
    let mut place = 0;
    for i in 0..outputs.len() {
        let taps = outputs[i].taps.as_slice();
        add_output(lines, columns, last, place, taps)?;
        place += taps.len() as u32;
    }
    Ok(())
}

/// The number of the last stage.
pub fn last_stage<const N: usize, const P: usize>(conf: &Configuration<N, P>) -> u32
    ensures last { result ≡ last_of (shape_of conf.now) }
    ensures most { result < 32768 }
{
    (conf.stages.len() - 1) as u32
}

/// The assignments to the bytes of the result of a configuration.
pub fn tap_lines<const N: usize, const P: usize>(
    alloc: Global,
    conf: &Configuration<N, P>,
) -> Result<Vec<Line>, AllocError>
    ensures { IfOk result (λ lines. assigns_of lines.items
        ≡ tap_wires N (last_of (shape_of conf.now)) 0 (taps_of (shape_of conf.now))) }
{
    let mut lines = Vec::new(alloc);
    add_outputs(
        &mut lines,
        N as u32,
        last_stage::<N, P>(conf),
        &conf.outputs,
    )?;
    Ok(lines)
}
