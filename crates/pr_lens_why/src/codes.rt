//! Short words for the kinds of refusals.

ghost use Rattle.std.specs.Prelude.{◌≡◌, ◌++◌, OnOk};
ghost use Rattle.pr_lens_why.specs.Codes.{code_of, limit_code};

use pr_base::Cap;
use pr_compile::CompileFault;
use pr_lens_text::{put, put_counted};
use std::alloc::AllocError;

/// The word for a limit; a program passes no other ones than these.
fn limit_code(cap: Cap) -> &'static str
    ensures { result.now ≡ limit_code cap }
{
    match cap {
        Cap::Nesting => "limit-nesting",
        Cap::Turns => "limit-turns",
        Cap::Equations => "limit-equations",
        Cap::InputBytes => "limit-input-bytes",
        Cap::Outputs => "limit-outputs",
        _ => "limit-units",
    }
}

/// Adds the word for the kind of a refusal.
pub fn put_code(code: &mut Vec<u8>, fault: &CompileFault) -> Result<(), AllocError>
    ensures { OnOk result (code.new.items ≡ code.old.items ++ code_of fault.now) }
{
    match *fault {
        CompileFault::Syntax { token: _ } => put(code, "syntax"),
        CompileFault::Scope { rule, item: _ } => put_counted(code, "scope-", usize::from(rule)),
        CompileFault::NoWidth { equation: _ } => put(code, "no-width"),
        CompileFault::NoFit { unit: _ } => put(code, "no-fit"),
        CompileFault::Limit(cap) => put(code, limit_code(cap)),
        CompileFault::Memory(_) => put(code, "memory"),
    }
}
