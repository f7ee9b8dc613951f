//! What follows the bytes that were read of a file.

ghost use Rattle.std.specs.Prelude.{◌≡◌, ◌↔◌, IsTrue};

/// What follows the bytes that were read of a file, as far as they stand before the byte limit.
#[derive(Clone, Copy, PartialEq, Eq, Debug)]
pub enum Tail {
    /// More bytes may follow.
    Open,
    /// The file ends there.
    Ended,
    /// The byte limit stands there, and a byte of the file after it.
    Cut,
}

impl Tail {
    /// Whether more bytes may follow.
    pub fn is_open(self) -> bool
        ensures { IsTrue result ↔ (self ≡ Tail.Open) }
    {
        match self {
            Tail::Open => true,
            Tail::Ended | Tail::Cut => false,
        }
    }
}
