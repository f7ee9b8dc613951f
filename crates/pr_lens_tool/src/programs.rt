//! What is made of programs.

ghost use Rattle.std.specs.Prelude.{◌≡◌, ◌≤◌, length, IfOk, IfErr};
ghost use Rattle.pr_lens_why.specs.Verdicts.{IsPointing};
ghost use Rattle.pr_lens_tool.specs.Asked.{Cost as AskCost, Graph, Why, question_in, target_in};
ghost use Rattle.pr_lens_tool.specs.Programs.{AreSavings, IsExplanation, IsTold, IsUnanswered, bounds_for, savings_in};

use crate::accepted::accepted;
use crate::orders::{Question, Target};
use crate::outcomes::{Outcome, Output};
use crate::refusals::refusal_of;
use crate::rtl::rtl_of;
use pr_base::Fabric;
use pr_compile::CompileFault;
use pr_lens_cost::{Cost, Savings, Setting, cost_as, cost_of};
use pr_lens_graph::{graph, layout_of};
use pr_lens_show::{Finding, Severity, put_as};
use pr_lens_why::{Explanation, Verdict, explain, put_code};
use pr_tool::{Answer, Bounds, note_line};
use pr_tool_modes::compile_answer;
use std::alloc::{AllocError, Global};

/// The limits for programs on a fabric.
pub fn bounds_of(fabric: Fabric) -> Bounds
    ensures { result ≡ bounds_for fabric }
{
    Bounds {
        fabric,
        ..Bounds::BASE
    }
}

/// Why a program is refused, as a text.
fn explained(
    alloc: Global,
    target: &Target,
    json: bool,
    text: &[u8],
    explanation: &Explanation,
    answer: &Answer,
) -> Result<Vec<u8>, AllocError>
    requires { IsPointing text.now explanation.now }
    ensures { IfOk result (λ told.
        IsExplanation (target_in target.now) json text.now explanation.now answer.now told.items) }
{
    let bounds = bounds_of(target.fabric);
    let note = note_line(&bounds, answer);
    let mut code = Vec::new(alloc);
    put_code(&mut code, &explanation.fault)?;
    let finding = Finding {
        severity: Severity::Error,
        code: &code,
        heading: note.as_bytes(),
        start: explanation.start,
        end: explanation.end,
        message: &explanation.message,
    };
    let mut told = Vec::new(alloc);
    put_as(alloc, &mut told, json, target.file, text, &finding)?;
    Ok(told)
}

/// Why a program is refused, or that it is accepted.
fn why<const N: usize, const P: usize>(
    alloc: Global,
    target: &Target,
    json: bool,
    warnings: bool,
    text: &[u8],
) -> Result<Output, Outcome>
    requires short { length text.now ≤ 1048576 }
    requires columns { 1 ≤ N }
    requires most_columns { N ≤ 64 }
    requires registers { 2 ≤ P }
    requires most_registers { P ≤ 16 }
    ensures told { IfOk result (λ o.
        IsTold (Why json warnings) N P (target_in target.now) text.now o.outcome o.text.items) }
    ensures refused { IfErr result (IsUnanswered N P target.now.narrowed text.now) }
{
    match explain::<N, P>(alloc, text, target.narrowed)? {
        Verdict::Accepted => Ok(Output {
            text: accepted(alloc, json, warnings, target.file, text)?,
            outcome: Outcome::Plain(Answer::Ok),
        }),
        Verdict::Refused(explanation) => {
            let answer = compile_answer(&explanation.fault);
            Ok(Output {
                text: explained(alloc, target, json, text, &explanation, &answer)?,
                outcome: Outcome::Explained(answer),
            })
        }
    }
}

/// What is told of a program that is compiled the other way, by what its cost came to.
fn savings_in(
    narrowed: bool,
    cost: &Result<Cost, CompileFault>,
) -> Result<Option<Savings>, AllocError>
    ensures { result ≡ savings_in narrowed cost.now }
{
    match cost {
        Ok(cost) => Ok(Some(Savings {
            narrowed,
            units: cost.units,
            stages: cost.stages.len(),
        })),
        Err(CompileFault::Memory(error)) => Err(*error),
        Err(_) => Ok(None),
    }
}

/// The cost of a program that is compiled the other way, where that is accepted.
fn savings_of<const N: usize, const P: usize>(
    alloc: Global,
    text: &[u8],
    narrowed: bool,
) -> Result<Option<Savings>, AllocError>
    requires short { length text.now ≤ 1048576 }
    requires columns { 1 ≤ N }
    requires most_columns { N ≤ 64 }
    requires registers { 2 ≤ P }
    requires most_registers { P ≤ 16 }
    ensures saved { IfOk result (AreSavings N P narrowed text.now) }
{
    let cost = cost_of::<N, P>(alloc, text, narrowed);
    savings_in(narrowed, &cost)
}

/// What a program costs.
fn cost<const N: usize, const P: usize>(
    alloc: Global,
    target: &Target,
    json: bool,
    samples: u32,
    text: &[u8],
) -> Result<Output, Outcome>
    requires short { length text.now ≤ 1048576 }
    requires columns { 1 ≤ N }
    requires most_columns { N ≤ 64 }
    requires registers { 2 ≤ P }
    requires most_registers { P ≤ 16 }
    ensures told { IfOk result (λ o.
        IsTold (AskCost json samples) N P (target_in target.now) text.now o.outcome o.text.items) }
    ensures refused { IfErr result (IsUnanswered N P target.now.narrowed text.now) }
{
    match cost_of::<N, P>(alloc, text, target.narrowed) {
        Ok(cost) => {
            let savings = savings_of::<N, P>(alloc, text, !target.narrowed)?;
            let setting = Setting {
                fabric: target.fabric,
                narrowed: target.narrowed,
                samples: u64::from(samples),
            };
            Ok(Output {
                text: cost_as(alloc, json, &cost, savings, N, &setting)?,
                outcome: Outcome::Plain(Answer::Ok),
            })
        }
        Err(fault) => Err(refusal_of::<N, P>(alloc, text, target.narrowed, &fault)),
    }
}

/// The units of a program by stage with their wires.
fn units<const N: usize, const P: usize>(
    alloc: Global,
    target: &Target,
    text: &[u8],
) -> Result<Output, Outcome>
    requires short { length text.now ≤ 1048576 }
    requires columns { 1 ≤ N }
    requires most_columns { N ≤ 64 }
    requires registers { 2 ≤ P }
    requires most_registers { P ≤ 16 }
    ensures told { IfOk result (λ o. IsTold Graph N P (target_in target.now) text.now o.outcome o.text.items) }
    ensures refused { IfErr result (IsUnanswered N P target.now.narrowed text.now) }
{
    match layout_of::<N, P>(alloc, text, target.narrowed) {
        Ok(layout) => Ok(Output {
            text: graph(alloc, &layout)?,
            outcome: Outcome::Plain(Answer::Ok),
        }),
        Err(fault) => Err(refusal_of::<N, P>(alloc, text, target.narrowed, &fault)),
    }
}

/// What is asked of a program.
pub fn of_program<const N: usize, const P: usize>(
    alloc: Global,
    target: &Target,
    question: Question,
    text: &[u8],
) -> Result<Output, Outcome>
    requires short { length text.now ≤ 1048576 }
    requires columns { 1 ≤ N }
    requires most_columns { N ≤ 64 }
    requires registers { 2 ≤ P }
    requires most_registers { P ≤ 16 }
    ensures told { IfOk result (λ o.
        IsTold (question_in question.entry) N P (target_in target.now) text.now o.outcome o.text.items) }
    ensures refused { IfErr result (IsUnanswered N P target.now.narrowed text.now) }
{
    match question {
        Question::Why { json, warnings } => why::<N, P>(alloc, target, json, warnings, text),
        Question::Cost { json, samples } => cost::<N, P>(alloc, target, json, samples, text),
        Question::Graph => units::<N, P>(alloc, target, text),
        Question::Rtl { name } => rtl_of::<N, P>(alloc, target.narrowed, name, text),
    }
}
