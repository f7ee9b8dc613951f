//! Which fabric a configuration is for.

ghost use Rattle.std.specs.Prelude.{◌≡◌, ◌↔◌};
ghost use Rattle.pr_code.specs.Fabrics.{second_word, wide_word};

use pr_base::Fabric;

/// The fabric that a file's second word names: the wide one where it says 32 columns and 16 registers, and else the
/// base one.
pub fn fabric_of(bytes: &[u8]) -> Fabric
    ensures { (result ≡ Fabric.Wide) ↔ (second_word bytes.now ≡ wide_word) }
{
    match bytes {
        [_, _, _, _, 0, 32, 0, 16, ..] => Fabric::Wide,
        _ => Fabric::Base,
    }
}
