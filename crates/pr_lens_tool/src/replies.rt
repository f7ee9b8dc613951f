//! What is replied, with the name of the file where that tells more.

ghost use Rattle.std.specs.Prelude.{◌≡◌, ◌++◌, Ok, None, option_map, IfOk, OnOk};
ghost use Rattle.pr_base.specs.declared.fabrics.Fabric.{Fabric};
ghost use Rattle.pr_lens_tool.specs.Asked.{asked_in, target_in, task_in};
ghost use Rattle.pr_lens_tool.specs.Programs.{bounds_for};
ghost use Rattle.pr_lens_tool.specs.Replies.{answer_line, bare_line, fabric_words, fault_line, foreign_line, line_for, narrow_words, refused_line, samples_of, signed_at, signed_of, stream_line, why_line};

use crate::orders::{Order, Product, Target, Task};
use crate::outcomes::{Outcome, Reply};
use crate::programs::bounds_of;
use pr_base::{Cap, Fabric};
use pr_lens_show::{put_name, put_word};
use pr_lens_text::put;
use pr_lens_tracks::name_at;
use pr_lens_why::{Help, put_help};
use pr_tool::{Answer, Bounds, note_line};
use std::alloc::{AllocError, Global};

/// The option for a fabric, where it has to be given.
fn fabric_words(fabric: Fabric) -> &'static str
    ensures { result.now ≡ fabric_words fabric }
{
    match fabric {
        Fabric::Base => "",
        Fabric::Wide => " --fabric wide",
    }
}

/// The option for narrowed equations, where it is given.
fn narrow_words(narrowed: bool) -> &'static str
    ensures { result.now ≡ narrow_words narrowed }
{
    if narrowed { " --narrow" } else { "" }
}

/// Adds which call tells more of a program that is refused.
fn put_why(line: &mut Vec<u8>, target: &Target) -> Result<(), AllocError>
    ensures { OnOk result (line.new.items ≡ line.old.items ++ why_line (target_in target.now)) }
{
    put(line, "`pipelens why ")?;
    put_word(line, target.file)?;
    put(line, fabric_words(target.fabric))?;
    put(line, narrow_words(target.narrowed))?;
    put(line, "` tells more\n")
}

/// The line for a program that is refused, those for the options that make it fit, and which call tells more.
fn refused_line(
    alloc: Global,
    target: &Target,
    answer: Answer,
    help: &Help,
) -> Result<Vec<u8>, AllocError>
    ensures { IfOk result (λ line. line.items ≡ refused_line (target_in target.now) answer help.now) }
{
    let bounds = bounds_of(target.fabric);
    let note = note_line(&bounds, &answer);
    let mut line = Vec::from_slice(alloc, note.as_bytes())?;
    put_help(&mut line, help)?;
    put_why(&mut line, target)?;
    Ok(line)
}

/// The line for a program that no option helps, and which call tells more.
fn bare_line(alloc: Global, target: &Target, answer: Answer) -> Result<Vec<u8>, AllocError>
    ensures { IfOk result (λ line. line.items ≡ bare_line (target_in target.now) answer) }
{
    refused_line(alloc, target, answer, &Help::NONE)
}

/// The line for a file that cannot be read.
fn fault_line(alloc: Global, name: &str) -> Result<Vec<u8>, AllocError>
    ensures { IfOk result (λ line. line.items ≡ fault_line name.now) }
{
    let mut line = Vec::new(alloc);
    put(&mut line, "read fault: ")?;
    put_name(&mut line, name)?;
    put(&mut line, "\n")?;
    Ok(line)
}

/// The line for a name that no stream has.
fn stream_line(alloc: Global, name: &str) -> Result<Vec<u8>, AllocError>
    ensures { IfOk result (λ line. line.items ≡ stream_line name.now) }
{
    let mut line = Vec::new(alloc);
    put(&mut line, "no stream: ")?;
    put_name(&mut line, name)?;
    put(&mut line, "\n")?;
    Ok(line)
}

/// The names that a task shows as two's complement.
fn signed_of<'a>(task: Task<'a>) -> Option<&'a str>
    ensures { option_map (λ s. s.now) result ≡ signed_of (task_in task.entry) }
{
    match task {
        Task::Whole(_) => None,
        Task::Signals { samples: _, style } => style.signed,
    }
}

/// The name at a place of those that a task shows as two's complement.
fn signed_at<'a>(task: Task<'a>, place: usize) -> Option<&'a str>
    ensures { option_map (λ s. s.now) result ≡ signed_at (task_in task.entry) place }
{
    name_at(signed_of(task)?, place)
}

/// The line for a name that no stream has.
fn foreign_line(alloc: Global, task: Task, place: usize) -> Result<Option<Vec<u8>>, AllocError>
    ensures { IfOk result (λ line. option_map (λ v. v.items) line ≡ foreign_line (task_in task.entry) place) }
{
    match signed_at(task, place) {
        None => Ok(None),
        Some(name) => Ok(Some(stream_line(alloc, name)?)),
    }
}

/// The line of an answer to an order, where it tells more than the answer's own.
fn answer_line(
    alloc: Global,
    target: &Target,
    answer: Answer,
) -> Result<Option<Vec<u8>>, AllocError>
    ensures { IfOk result (λ line. option_map (λ v. v.items) line ≡ answer_line (target_in target.now) answer) }
{
    match answer {
        Answer::ReadFault => Ok(Some(fault_line(alloc, target.file)?)),
        Answer::Syntax { token: _ } | Answer::Scope { rule: _, item: _ } => {
            Ok(Some(bare_line(alloc, target, answer)?))
        }
        Answer::NoWidth { equation: _ } | Answer::NoFit { unit: _ } => {
            Ok(Some(bare_line(alloc, target, answer)?))
        }
        Answer::Limit {
            which: Cap::ProgramBytes,
        } => Ok(None),
        Answer::Limit { which: _ } => Ok(Some(bare_line(alloc, target, answer)?)),
        _ => Ok(None),
    }
}

/// The samples of a task, where it has some.
fn samples_of<'a>(task: Task<'a>) -> Option<&'a str>
    ensures { option_map (λ s. s.now) result ≡ samples_of (task_in task.entry) }
{
    match task {
        Task::Signals { samples, style: _ } => Some(samples),
        Task::Whole(product) => match product {
            Product::Bench {
                samples,
                name: _,
                seed: _,
            } => Some(samples),
            Product::OfProgram(_) => None,
            Product::OfLog {
                drawing: _,
                window: _,
            } => None,
        },
    }
}

/// The line for samples that cannot be read, where there are some.
fn samples_line(alloc: Global, task: Task) -> Result<Option<Vec<u8>>, AllocError>
    ensures { IfOk result
        (λ line. option_map (λ v. v.items) line ≡ option_map fault_line (samples_of (task_in task.entry))) }
{
    match samples_of(task) {
        None => Ok(None),
        Some(samples) => Ok(Some(fault_line(alloc, samples)?)),
    }
}

/// The line of an outcome, where it tells more than the outcome's own.
fn line_for(alloc: Global, order: &Order, outcome: Outcome) -> Result<Option<Vec<u8>>, AllocError>
    ensures { IfOk result (λ line. option_map (λ v. v.items) line ≡ line_for (asked_in order.now) outcome) }
{
    match outcome {
        Outcome::Plain(answer) => answer_line(alloc, &order.target, answer),
        Outcome::Refused { answer, help } => {
            Ok(Some(refused_line(alloc, &order.target, answer, &help)?))
        }
        Outcome::Streamed(Answer::ReadFault) => samples_line(alloc, order.task),
        Outcome::NoStream { place } => foreign_line(alloc, order.task, place),
        _ => Ok(None),
    }
}

/// The reply to an order.
pub fn reply_of(alloc: Global, order: &Order, outcome: Outcome) -> Reply
    ensures outcome { result.outcome ≡ outcome }
    ensures bounds { result.bounds ≡ bounds_for order.now.target.fabric }
    ensures line { IfOk result.line
        (λ line. option_map (λ v. v.items) line ≡ line_for (asked_in order.now) outcome) }
{
    Reply {
        outcome,
        bounds: bounds_of(order.target.fabric),
        line: line_for(alloc, order, outcome),
    }
}

/// The reply where there is no order.
pub fn bare(outcome: Outcome) -> Reply
    ensures outcome { result.outcome ≡ outcome }
    ensures bounds { result.bounds ≡ bounds_for Fabric.Base }
    ensures line { result.line ≡ Ok None }
{
    Reply {
        outcome,
        bounds: Bounds::BASE,
        line: Ok(None),
    }
}
