//! What a bench has for each port.

ghost use Rattle.std.specs.Prelude.{◌≡◌, ◌++◌, OnOk};
ghost use Rattle.pr_lens_bench.specs.Pieces.{check_text, differs_text, link_text, memory_text, offer_text, piece_text, pieces_text, sample_text, told_text, vector_text, wanted_text};

use pr_lens_rtl_text::Port;
use pr_lens_text::{put, put_counted};
use std::alloc::AllocError;

/// What is written for a port.
#[derive(Clone, Copy)]
pub enum Piece {
    /// The memory of an input's samples, and what stands at it.
    Sample,
    /// The memory of an output's wanted results, and what stands at it.
    Wanted,
    /// That it is a port of the module.
    Link,
    /// What an input gets in a clock.
    Offer,
    /// How an output is compared.
    Check,
}

/// Adds bytes.
pub fn put_bytes(text: &mut Vec<u8>, bytes: &[u8]) -> Result<(), AllocError>
    ensures { OnOk result (text.new.items ≡ text.old.items ++ bytes.now) }
{
    text.extend_from_slice(bytes)
}

/// Adds words and the name of a port.
pub fn put_named(text: &mut Vec<u8>, words: &str, port: &Port) -> Result<(), AllocError>
    ensures { OnOk result (text.new.items ≡ text.old.items ++ words.now ++ port.now.name) }
{
    put(text, words)?;
    put_bytes(text, port.name.as_bytes())
}

/// Adds the declaration of a vector as wide as a port, up to its name.
fn put_vector(text: &mut Vec<u8>, kind: &str, letter: &str, port: &Port) -> Result<(), AllocError>
    ensures { OnOk result (text.new.items ≡ text.old.items ++ vector_text kind.now letter.now port.now) }
{
    put_counted(text, kind, usize::from(port.width).saturating_sub(1))?;
    put(text, ":0] ")?;
    put_named(text, letter, port)
}

/// Adds the declaration of a memory of so many numbers of a port.
fn put_memory(text: &mut Vec<u8>, letter: &str, count: usize, port: &Port) -> Result<(), AllocError>
    ensures { OnOk result (text.new.items ≡ text.old.items ++ memory_text letter.now count port.now) }
{
    put_vector(text, "  reg [", letter, port)?;
    put_counted(text, " [0:", count.saturating_sub(1))?;
    put(text, "];\n")
}

/// Adds the declarations for an input.
fn put_sample(text: &mut Vec<u8>, count: usize, port: &Port) -> Result<(), AllocError>
    ensures { OnOk result (text.new.items ≡ text.old.items ++ sample_text count port.now) }
{
    put_memory(text, "s_", count, port)?;
    put_vector(text, "  reg [", "p_", port)?;
    put(text, " = 0;\n")
}

/// Adds the declarations for an output.
fn put_wanted(text: &mut Vec<u8>, count: usize, port: &Port) -> Result<(), AllocError>
    ensures { OnOk result (text.new.items ≡ text.old.items ++ wanted_text count port.now) }
{
    put_memory(text, "w_", count, port)?;
    put_vector(text, "  wire [", "p_", port)?;
    put(text, ";\n")
}

/// Adds that a port is one of the module.
#[tactic(auto, unfolding(crate::specs::Pieces::link_text))]
fn put_link(text: &mut Vec<u8>, port: &Port) -> Result<(), AllocError>
    ensures { OnOk result (text.new.items ≡ text.old.items ++ link_text port.now) }
{
    put_named(text, ",\n    .", port)?;
    put_named(text, "(p_", port)?;
    put(text, ")")
}

/// Adds what an input gets in a clock.
#[tactic(auto, unfolding(crate::specs::Pieces::offer_text))]
fn put_offer(text: &mut Vec<u8>, port: &Port) -> Result<(), AllocError>
    ensures { OnOk result (text.new.items ≡ text.old.items ++ offer_text port.now) }
{
    put_named(text, "    p_", port)?;
    put_named(text, " = in_valid ? s_", port)?;
    put_counted(text, "[offered] : {", usize::from(port.width))?;
    put(text, "{1'b1}};\n")
}

/// Adds how an output is compared.
#[tactic(auto, unfolding(crate::specs::Pieces::differs_text))]
fn put_differs(text: &mut Vec<u8>, port: &Port) -> Result<(), AllocError>
    ensures { OnOk result (text.new.items ≡ text.old.items ++ differs_text port.now) }
{
    put_named(text, "      if (p_", port)?;
    put_named(text, " !== w_", port)?;
    put(text, "[taken]) begin\n")
}

/// Adds what is told where an output differs.
#[tactic(auto, unfolding(crate::specs::Pieces::told_text))]
fn put_told(text: &mut Vec<u8>, port: &Port) -> Result<(), AllocError>
    ensures { OnOk result (text.new.items ≡ text.old.items ++ told_text port.now) }
{
    put_named(text, "        $display(\"result %0d: ", port)?;
    put_named(text, " is %0d, and is to be %0d\", taken + 1, p_", port)?;
    put_named(text, ", w_", port)?;
    put(text, "[taken]);\n        failed = 1;\n      end\n")
}

/// Adds how an output is compared, and what is told where it differs.
fn put_check(text: &mut Vec<u8>, port: &Port) -> Result<(), AllocError>
    ensures { OnOk result (text.new.items ≡ text.old.items ++ check_text port.now) }
{
    put_differs(text, port)?;
    put_told(text, port)
}

/// Adds what is written for a port.
fn put_piece(text: &mut Vec<u8>, piece: Piece, count: usize, port: &Port) -> Result<(), AllocError>
    ensures { OnOk result (text.new.items ≡ text.old.items ++ piece_text piece count port.now) }
{
    match piece {
        Piece::Sample => put_sample(text, count, port),
        Piece::Wanted => put_wanted(text, count, port),
        Piece::Link => put_link(text, port),
        Piece::Offer => put_offer(text, port),
        Piece::Check => put_check(text, port),
    }
}

/// Adds what is written for ports.
pub fn put_pieces(
    text: &mut Vec<u8>,
    piece: Piece,
    count: usize,
    ports: &[Port],
) -> Result<(), AllocError>
    ensures { OnOk result (text.new.items ≡ text.old.items ++ pieces_text piece count ports.now) }
{
    for port in ports {
        put_piece(text, piece, count, port)?;
    }
    Ok(())
}
