//! The memory that a running machine needs beside its stripes.

ghost use Rattle.std.specs.Prelude.{ℕ, ◌≡◌, ◌≤◌, ◌<◌, ◌-◌, ◌++◌, [], List, map, length, vec_len, vec_capacity, IfOk};
ghost use Rattle.std.specs.List.{flat_map};
ghost use Rattle.pr_conf.specs.Configuration.{shape_of};
ghost use Rattle.pr_conf.specs.Rules.{bytes_in};
ghost use Rattle.pr_conf.specs.Through.{steps_of, output_widths};
ghost use Rattle.pr_machine.specs.Places.{rows_of};
ghost use Rattle.pr_machine.specs.Ready.{AreReady, IsReady};

use pr_conf::{Configuration, Stage};
use pr_control::Store;
use pr_queue::Queue;
use pr_stripe_prepared::{Prepared, prepare};
use std::alloc::{AllocError, Global};

/// The states of the stages that no stripe holds, the stages as whole rows where rows give them, the two queues, and
/// buffers for a sample and a result.
#[derive(Drop)]
pub struct Buffers<const N: usize> {
    pub(crate) store: Store<N>,
    pub(crate) prepared: Vec<Option<Prepared>>,
    pub(crate) input: Queue,
    pub(crate) output: Queue,
    pub(crate) sample: Vec<u8>,
    pub(crate) result: Vec<u8>,
}

/// Appends the states that the processing elements of a stage begin with.
fn append_states<const N: usize>(bytes: &mut Vec<u8>, stage: &Stage<N>) -> Result<(), AllocError>
    ensures { IfOk result (λ u. bytes.new.items ≡ bytes.old.items ++ map (λ pe. pe.init) stage.now.pes.items) }
{
    for pe in &stage.pes {
        bytes.push(pe.init)?;
    }
    Ok(())
}

/// The states that all stages begin with, one row after the other.
fn first_states<const N: usize>(alloc: Global, stages: &[Stage<N>]) -> Result<Vec<u8>, AllocError>
    ensures { IfOk result (λ v. v.items ≡ flat_map (λ s. map (λ pe. pe.init) s.pes.items) stages.now) }
{
    let mut bytes = Vec::new(alloc);
    for stage in stages {
        append_states(&mut bytes, stage)?;
    }
    Ok(bytes)
}

/// A stage as whole rows; none where rows of 16 columns do not give it.
fn prepared_stage<const N: usize>(
    alloc: Global,
    stage: &Stage<N>,
    registers: usize,
) -> Result<Option<Prepared>, AllocError>
    requires { registers ≤ 16 }
    ensures { IfOk result (IsReady registers stage.now.pes.items) }
{
    if N != 16 {
        return Ok(None);
    }
    prepare(alloc, &stage.pes, registers)
}

/// The stages of a configuration as whole rows, where rows give them.
fn prepared_stages<const N: usize, const P: usize>(
    alloc: Global,
    conf: &Configuration<N, P>,
) -> Result<Vec<Option<Prepared>>, AllocError>
    ensures ready { IfOk result (λ v. AreReady (P - 1) (shape_of conf.now).stages v.items) }
    ensures count { IfOk result (λ v. vec_len v ≡ vec_len conf.now.stages) }
{
    let mut prepared = Vec::new(alloc);
    for stage in &conf.stages {
        prepared.push(prepared_stage(alloc, stage, P - 1)?)?;
    }
    Ok(prepared)
}

/// The buffers for a configuration, as a machine begins with it.
pub(crate) fn buffers_for<const N: usize, const P: usize>(
    alloc: Global,
    conf: &Configuration<N, P>,
) -> Result<Buffers<N>, AllocError>
    ensures states { IfOk result (λ r. (s : ℕ) → s < vec_len conf.now.stages →
        rows_of r.store s ≡ (steps_of N P (shape_of conf.now) s).init) }
    ensures rows { IfOk result (λ r. length r.store ≡ vec_len conf.now.stages) }
    ensures ready { IfOk result (λ r. AreReady (P - 1) (shape_of conf.now).stages r.prepared.items) }
    ensures count { IfOk result (λ r. vec_len r.prepared ≡ vec_len conf.now.stages) }
    ensures input { IfOk result (λ r. r.input ≡ record { size = bytes_in (shape_of conf.now).inputs; waiting = [] }) }
    ensures output { IfOk result (λ r. r.output ≡
        record { size = bytes_in (output_widths (shape_of conf.now)); waiting = [] }) }
    ensures sample { IfOk result (λ r. vec_len r.sample ≡ bytes_in (shape_of conf.now).inputs) }
    ensures buffer { IfOk result (λ r. bytes_in (output_widths (shape_of conf.now)) ≤ vec_capacity r.result) }
{
    let states = first_states(alloc, &conf.stages)?;
    let store = Store::make(alloc, &states)?;
    let prepared = prepared_stages(alloc, conf)?;
    let input = Queue::make(alloc, conf.sample_bytes())?;
    let output = Queue::make(alloc, conf.result_bytes())?;
    let sample = vec![in alloc; 0u8; conf.sample_bytes()]?;
    let result = Vec::with_capacity(alloc, conf.result_bytes())?;
    Ok(Buffers {
        store,
        prepared,
        input,
        output,
        sample,
        result,
    })
}
