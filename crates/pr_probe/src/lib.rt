//! The stream instances of a program, and the program with further outputs, each of which shows one of them.
//!
//! `let s[0] = x; output y = s[0] + 1;` has the instances `s[0]` and `y`, and `x` where that is an input. With
//! `output a = s[0];` behind its items it keeps the rules of scope, makes the same equations, and `a` is the stream that
//! `s[0]` stands for. The laws say so of any program without offence and any list of such outputs.
#![tactic(auto)]

mod lists;
mod programs;

ghost use Rattle.std.specs.Prelude.{◌≡◌, ℕ, Bool, true, List, Option, None, Ok, ◌++◌, length, map};
ghost use Rattle.std.specs.List.{range_with_len};
ghost use Rattle.pr_lang.specs.declared.trees.Program.{Program};
ghost use Rattle.pr_scope_names.specs.Names.{held};
ghost use Rattle.pr_scope_names.specs.declared.streams.Instance.{Instance};
ghost use Rattle.pr_scope.specs.Walk.{World, offence, program_walk};
ghost use Rattle.pr_lang_meaning.specs.Programs.{has_widths, out};
ghost use Rattle.pr_expand_spec.specs.Programs.{equations_of};
ghost use Rattle.pr_probe.specs.Instances.{instances_of, with_all};
ghost use Rattle.pr_probe.specs.Operands.{made_world, operand_at};
ghost use Rattle.pr_probe.specs.Probes.{AreSignals, CanProbe, CanShow, IsProbed, Probe, numbers_at, probes_of};

pub use lists::{list_stmt, list_stmts, value_of};
pub use programs::{instances, know_item};

/// The probed program keeps the rules of scope, makes the same equations, and has widths if the program has. Its outputs
/// give what the program's outputs give, and then the operands that the instances stand for.
pub fn probed_law()
    ensures lawful { (test : List ℕ → Bool) (program : Program) (probes : List Probe) (probed : Program) (last : World) →
        IsProbed program probes probed → program_walk program ≡ Ok last → CanProbe test probes last →
        offence probed ≡ None }
    ensures equations { (program : Program) (probes : List Probe) (probed : Program) → IsProbed program probes probed →
        (equations_of probed).equations ≡ (equations_of program).equations }
    ensures outputs { (test : List ℕ → Bool) (program : Program) (probes : List Probe) (probed : Program) (last : World) →
        IsProbed program probes probed → program_walk program ≡ Ok last → CanProbe test probes last →
        (equations_of probed).outputs ≡
        (equations_of program).outputs ++ map (operand_at (made_world program).progress.streams) probes }
    ensures widths { (test : List ℕ → Bool) (program : Program) (probes : List Probe) (probed : Program) (last : World) →
        IsProbed program probes probed → program_walk program ≡ Ok last → CanProbe test probes last →
        has_widths program ≡ true → has_widths probed ≡ true }
{}

/// Its outputs' streams are those of the program, and then those that the probed instances stand for.
pub fn signals_law()
    ensures { (test : List ℕ → Bool) (program : Program) (probes : List Probe) (probed : Program) (last : World) (xs : List (List ℕ)) →
        IsProbed program probes probed → program_walk program ≡ Ok last → CanProbe test probes last →
        has_widths program ≡ true → AreSignals program probes probed xs }
{}

/// The instances that are listed are those that the walk over the program has assigned, and no others; and their names
/// stand for nothing else.
pub fn instances_law()
    ensures assigned { (program : Program) (last : World) → program_walk program ≡ Ok last →
        last.streams ≡ with_all (instances_of program) (λ _. None) }
    ensures unknown { (program : Program) (last : World) (name : List ℕ) (index : Option ℕ) → program_walk program ≡ Ok last →
        held (last.streams name) index ≡ true → last.known name ≡ None }
{}

/// Some instances of a program without offence can be probed under fresh names, where its walk has turns enough left for
/// them.
pub fn probes_law()
    ensures { (test : List ℕ → Bool) (program : Program) (some : List Instance) (names : List (List ℕ)) (last : World) →
        program_walk program ≡ Ok last → CanShow test program some names →
        CanProbe test (probes_of names some) last }
{}

/// In the rows of a probed program the numbers of the program's outputs stand first, and then those of the instances.
pub fn columns_law()
    ensures { (program : Program) (probes : List Probe) (probed : Program) (xs : List (List ℕ)) →
        (s : AreSignals program probes probed xs) → out probed xs
        ≡ map (λ n. numbers_at n s.world.outputs ++ numbers_at n s.streams) (range_with_len 0 (length xs)) }
{}
