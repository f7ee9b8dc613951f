//! How many processing elements of a stage do something.

ghost use Rattle.std.specs.Prelude.{◌≡◌, ◌≤◌, length, count_by};
ghost use Rattle.pr_code.specs.Spelling.{is_set};
ghost use Rattle.pr_code_show.specs.Shown.{writes, changes_state};

use pr_conf::{Bit, Carry, Mode, Next, Pe, Source};

/// What stands in a column that is not in use.
const UNUSED: Pe = Pe {
    a: Source::Const(0),
    hi: Source::Const(0),
    lo: Source::Const(0),
    shift: 0,
    c: Bit::None,
    table: 0,
    mode: Mode::Plain,
    cin: Carry::Zero,
    mask: 0,
    next: Next::Keep,
    init: 0,
    write: 0,
};

/// Whether a processing element is in use: some word of it in a file is not 0.
fn is_set(pe: &Pe) -> bool
    ensures { result ≡ is_set pe.now }
{
    *pe != UNUSED
}

/// How many processing elements are in use.
pub fn cells(pes: &[Pe]) -> usize
    ensures { result ≡ count_by is_set pes.now }
{
    pes.iter().filter(|pe| is_set(pe)).count()
}

/// How many processing elements write a register.
pub fn writes(pes: &[Pe]) -> usize
    ensures { result ≡ count_by writes pes.now }
{
    pes.iter().filter(|pe| 0 < pe.write).count()
}

/// How many processing elements change their state.
pub fn states(pes: &[Pe]) -> usize
    ensures { result ≡ count_by changes_state pes.now }
{
    pes.iter().filter(|pe| pe.next != Next::Keep).count()
}
