//! Remarks on a program.

use pr_flat::Form;
use pr_lens_products::CheapProduct;
use pr_lens_reach::{Extent, Reach};

/// What is pointed out.
#[derive(Clone, Copy, PartialEq, Eq, Debug)]
pub enum Remark {
    /// `signed` of a constant is negative.
    Negative {
        value: u64,
        width: u16,
        /// How far it is below 0.
        below: u128,
    },
    /// From a constant a greater one is taken.
    Wrapping {
        /// By how much it is greater.
        by: u64,
        width: u8,
        /// What the difference is.
        left: u64,
    },
    /// No result needs a name.
    Unneeded,
    /// No output needs the last instances of a name, which are delays.
    Long {
        /// The index of the first of them.
        first: u64,
        /// That of the last.
        last: u64,
    },
    /// The amount of a shift is a stream, and always this number.
    Amount {
        number: u64,
    },
    /// Shifts make a product with fewer units.
    Product {
        cheap: CheapProduct,
    },
    /// A comparison gives the same for all values of its sides.
    Settled {
        answer: bool,
        left: Extent,
        right: Extent,
    },
    /// A declared width cuts bits off, as it does not have all these values.
    Narrow {
        /// The kind of what is assigned, and the declared width.
        form: Form,
        /// None where the values are beyond 128 bits.
        reach: Option<Reach>,
    },
    /// A constant is an argument that a function reads by `signed`, and is negative there.
    Argument {
        /// Its place among the arguments, from 0.
        argument: u64,
        number: u64,
        width: u16,
        /// How far it is below 0.
        below: u128,
        /// The token that introduces the function.
        function: usize,
    },
}

/// A remark on a few tokens.
#[derive(Clone, Copy, PartialEq, Eq, Debug)]
pub struct Warning {
    /// What is pointed out.
    pub remark: Remark,
    /// The first token to look at.
    pub first: usize,
    /// The last one.
    pub last: usize,
}
