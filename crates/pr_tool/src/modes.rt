//! The requests, carried out.
ghost use Rattle.std.specs.Prelude.{◌≡◌, ◌≤◌, ℕ, List};
ghost use Rattle.pr_tool_modes.specs.Calls.{call};
ghost use Rattle.pr_tool_modes.specs.Files.{IsInOrder};
ghost use Rattle.pr_tool.specs.Requests.{request_in};
ghost use Rattle.pr_tool.specs.Words.{IsOnceFile, IsOtherFile};
ghost use Rattle.pr_tool.specs.Calls.{IsDone};

use crate::requests::Request;
use pr_edge::{Shelf, Sink};
use pr_tool_answers::Answer;
use pr_tool_modes::{Bench, eval, execute, extend, fold, generate, move_on, write_text};
use pr_tool_share::share_list;
use std::alloc::Global;

/// Carries out a request.
pub fn carry_out<S: Shelf, K: Sink>(
    alloc: Global,
    request: &Request<'_>,
    shelf: &mut S,
    out: &mut K,
    bench: &mut Bench,
) -> Answer
    ensures done { IsDone (request_in request.now)
        (call (S.view shelf.old) (S.view shelf.new) (K.view out.old) (K.view out.new)) bench.old bench.new result }
    ensures once { (q : List ℕ) → IsOnceFile (S.view shelf.old).told (request_in request.now) q
        → IsInOrder ((S.view shelf.old).reach q) ((S.view shelf.new).reach q) }
    ensures other_files { (q : List ℕ) → IsOtherFile (S.view shelf.old).told (request_in request.now) q
        → (S.view shelf.new).reach q ≡ (S.view shelf.old).reach q }
    ensures told { (S.view shelf.new).told ≡ (S.view shelf.old).told }
    ensures shelf_later { (S.view shelf.old).faults ≤ (S.view shelf.new).faults }
    ensures out_later { (K.view out.old).faults ≤ (K.view out.new).faults }
{
    match *request {
        Request::Texts { form, source } => write_text(alloc, &source, form, shelf, out),
        Request::Runs(job) => execute(alloc, &job, shelf, out, bench),
        Request::Folds(job) => fold(alloc, &job, shelf, out),
        Request::Moves(resumption) => move_on(alloc, &resumption, shelf, out, bench),
        Request::Extends(resumption) => extend(alloc, &resumption, shelf, out),
        Request::Evaluates { program, samples } => eval(alloc, program, samples, shelf, out),
        Request::Generates(generation) => generate(alloc, &generation, out, bench),
        Request::Shares(sharing) => share_list(alloc, &sharing, shelf, out),
    }
}
