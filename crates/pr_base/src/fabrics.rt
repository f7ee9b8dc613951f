//! The fabrics of the product.

ghost use Rattle.std.specs.Prelude.{◌≡◌};
ghost use Rattle.pr_base.specs.Fabrics.{columns};

/// A fabric of the product.
#[derive(Clone, Copy, PartialEq, Eq, Debug)]
pub enum Fabric {
    /// 16 columns of 8 registers.
    Base,
    /// 32 columns of 16 registers.
    Wide,
}

impl Fabric {
    /// The columns of a stage.
    pub fn columns(self) -> u8
        ensures { result ≡ columns self }
    {
        match self {
            Fabric::Base => 16,
            Fabric::Wide => 32,
        }
    }
}
