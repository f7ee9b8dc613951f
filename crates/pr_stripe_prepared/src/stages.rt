//! Prepared stages.

ghost use Rattle.std.specs.Prelude.{true, false, ◌≡◌, ◌+◌, ◌<◌, ◌≤◌, ℕ, All, slice_index, bit_xor};
ghost use Rattle.pr_lanes.specs.Lanes.{is_place};

/// Bytes of a block of 16 bytes of a row, which begins at `from`: for each of two rows of columns the place, from 128 on none.
#[derive(Clone, Copy)]
pub struct Term {
    pub from: usize,
    pub picks: [u8; 32],
    pub ghost places: { (k : ℕ) → k < 32 → is_place (slice_index picks k) ≡ true },
}

/// For each column, all ones where the half of its table that one value of C chooses has that bit. Where each half has an
/// even number of ones, X is an exclusive or of `t1`, of A where `by_a` has ones, and of B where `by_b` has ones.
#[derive(Clone, Copy)]
pub struct Table {
    pub t1: [u8; 16],
    pub t2: [u8; 16],
    pub t4: [u8; 16],
    pub t8: [u8; 16],
    pub by_a: [u8; 16],
    pub by_b: [u8; 16],
    pub is_even: bool,
    pub ghost turned_by_a: { (k : ℕ) → k < 16 → slice_index t2 k ≡ bit_xor (slice_index t1 k) (slice_index by_a k) },
    pub ghost turned_by_b: { (k : ℕ) → k < 16 → slice_index t4 k ≡ bit_xor (slice_index t1 k) (slice_index by_b k) },
    pub ghost turned_by_both: { is_even ≡ true → (k : ℕ) → k < 16
        → slice_index t8 k ≡ bit_xor (slice_index t4 k) (slice_index by_a k) },
}

/// What the lanes of two rows of columns gather: bytes that are known, columns of the state, outputs of the stage's own
/// columns, and places of a row; from 128 on none.
#[derive(Drop)]
pub struct Gather {
    pub known: [u8; 32],
    pub states: [u8; 32],
    pub heres: [u8; 32],
    pub terms: Vec<Term>,
    pub reads_state: bool,
    pub has_here: bool,
    pub ghost states_in: { (k : ℕ) → k < 32 → is_place (slice_index states k) ≡ true },
    pub ghost heres_in: { (k : ℕ) → k < 32 → is_place (slice_index heres k) ≡ true },
    pub ghost unread: { reads_state ≡ false → (k : ℕ) → k < 32 → 128 ≤ slice_index states k },
}

/// A stage of 16 columns, as whole rows.
// In this order of the fields each row begins at a multiple of 16 bytes from the start of an `Option` of a stage.
#[derive(Drop)]
pub struct Prepared {
    pub rounds: usize,
    pub both: Gather,
    pub rest: Gather,
    pub c_bits: [u8; 16],
    pub c_carry: [u8; 16],
    pub from_c: [u8; 16],
    pub low: [u8; 16],
    pub zeros: [u8; 16],
    pub cin: [u8; 16],
    pub sums: [u8; 16],
    pub mask: [u8; 16],
    pub to_output: [u8; 16],
    pub to_a: [u8; 16],
    pub levels: [u8; 16],
    pub shifts: [u16; 16],
    pub off: Table,
    pub has_rest: bool,
    pub has_c: bool,
    pub has_carry: bool,
    pub has_sums: bool,
    pub has_state: bool,
    pub reach: usize,
    pub on: Table,
    pub marks: Vec<u8>,
    pub ghost terms_in: { All (λ t. t.from + 16 ≤ reach) both.terms.items },
    pub ghost rest_in: { All (λ t. t.from + 16 ≤ reach) rest.terms.items },
}
