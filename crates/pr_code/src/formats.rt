//! The two formats of a configuration.

/// A format of configurations.
#[derive(Clone, Copy, PartialEq, Eq, Debug)]
pub struct Format {
    /// The first word.
    pub mark: u32,
    /// The greatest width in bits.
    pub widest: u32,
    /// Whether each stage has a map of its processing elements, and leaves out those that are not set.
    pub packed: bool,
}

/// The format that is read beside the one that is written; it begins with the bytes `PIP1`.
pub const FORMAT_1: Format = Format {
    mark: 0x5049_5031,
    widest: 64,
    packed: false,
};

/// The format that is written; it begins with the bytes `PIP2`.
pub const FORMAT_2: Format = Format {
    mark: 0x5049_5032,
    widest: 128,
    packed: true,
};
