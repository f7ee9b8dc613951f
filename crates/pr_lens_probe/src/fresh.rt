//! Names for further outputs, and instances as expressions.

ghost use Rattle.std.specs.Prelude.{◌≡◌, ◌<◌, IfOk, option_map};
ghost use Rattle.pr_lang.specs.declared.trees.Fixed.TheVariants.{Number};
ghost use Rattle.pr_probe.specs.Probes.{reference};
ghost use Rattle.pr_lens_probe.specs.Fresh.{fresh_name};

use pr_lang::{Expr, Fixed, Name, Ref};
use pr_scope_names::Instance;
use std::alloc::{AllocError, Global};

/// The name of this number: longer than so many bytes.
pub fn fresh_name(alloc: Global, most: usize, number: usize) -> Result<Name, AllocError>
    requires { number < 65536 }
    ensures { IfOk result (λ n. n ≡ fresh_name most number) }
{
    let mut bytes = Vec::new(alloc);
    bytes.push((number % 256) as u8)?;
    bytes.push((number / 256) as u8)?;
    let dots = vec![in alloc; b'.'; most]?;
    bytes.extend_from_slice(&dots)?;
    Ok(Name::new(bytes))
}

/// An index as it is written.
fn index_of(index: Option<u64>) -> Option<Fixed>
    ensures { result ≡ option_map Number index }
{
    match index {
        None => None,
        Some(number) => Some(Fixed::Number(number)),
    }
}

/// An expression that stands for an instance.
pub fn reference(alloc: Global, instance: &Instance) -> Result<Expr, AllocError>
    ensures { IfOk result (λ e. e ≡ reference instance.now.name instance.now.index) }
{
    let name = instance.name.copy(alloc)?;
    let index = index_of(instance.index);
    Ok(Expr::Refer(Ref { name, index }))
}
