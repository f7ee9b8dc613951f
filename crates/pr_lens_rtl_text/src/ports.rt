//! The ports, and the wires between their numbers and the bytes of samples and results.

ghost use Rattle.std.specs.Prelude.{◌≡◌, ◌+◌, ◌*◌, ◌-◌, ◌^◌, ◌<◌, ◌≤◌, ◌++◌, IfOk, OnOk, codes, decimal, length};
ghost use Rattle.pr_base.specs.Numbers.{slices_of};
ghost use Rattle.pr_lens_rtl_text.specs.Ports.{bits_text, byte_bits, byte_text, byte_lines, port_text, ports_text, side_line, side_lines, side_words, zipped};

use pr_base::slices;
use pr_lang::Name;
use pr_lens_rtl_names::Side;
use pr_lens_text::{put, put_counted};
use std::alloc::{AllocError, Global};

/// A port of a number.
#[derive(Drop)]
pub struct Port {
    /// Its name.
    pub name: Name,
    /// Its width in bits.
    pub width: u8,
}

/// Ports of these names and widths.
pub fn ports_of(alloc: Global, names: &[Name], widths: &[u8]) -> Result<Vec<Port>, AllocError>
    ensures { IfOk result (λ ports. ports.items ≡ zipped names.now widths.now) }
{
    let mut ports = Vec::new(alloc);
    for i in 0..names.len().min(widths.len()) {
        ports.push(Port {
            name: names[i].copy(alloc)?,
            width: widths[i],
        })?;
    }
    Ok(ports)
}

/// Adds the bytes of a name.
fn put_name(text: &mut Vec<u8>, name: &Name) -> Result<(), AllocError>
    ensures { OnOk result (text.new.items ≡ text.old.items ++ name.now) }
{
    text.extend_from_slice(name.as_bytes())
}

/// Which way a port goes.
fn side_words(side: Side) -> &'static str
    ensures { result.now ≡ side_words side }
{
    match side {
        Side::Input => "input",
        Side::Output => "output",
    }
}

/// Adds a port to the list of ports.
fn put_port(text: &mut Vec<u8>, side: Side, port: &Port) -> Result<(), AllocError>
    ensures { OnOk result (text.new.items ≡ text.old.items ++ port_text side port.now) }
{
    put(text, ",\n  ")?;
    put(text, side_words(side))?;
    put_counted(text, " [", usize::from(port.width).saturating_sub(1))?;
    put(text, ":0] ")?;
    put_name(text, &port.name)
}

/// Adds ports to the list of ports.
pub fn put_ports(text: &mut Vec<u8>, side: Side, ports: &[Port]) -> Result<(), AllocError>
    ensures { OnOk result (text.new.items ≡ text.old.items ++ ports_text side ports.now) }
{
    for port in ports {
        put_port(text, side, port)?;
    }
    Ok(())
}

/// How many bits of a number its byte of this place has.
fn byte_bits(width: u8, place: usize) -> usize
    requires { place < 32 }
    ensures { result ≡ byte_bits width place }
{
    usize::from(width).saturating_sub(8 * place).min(8)
}

/// Adds so many bits of a port from a byte on.
#[tactic(auto, unfolding(crate::specs::Ports::bits_text))]
fn put_bits(text: &mut Vec<u8>, name: &Name, place: usize, bits: usize) -> Result<(), AllocError>
    requires place { place < 32 }
    requires bits { bits ≤ 8 }
    ensures { OnOk result (text.new.items ≡ text.old.items ++ bits_text name.now place bits) }
{
    put_name(text, name)?;
    put_counted(text, "[", (8 * place + bits).saturating_sub(1))?;
    put_counted(text, ":", 8 * place)?;
    put(text, "]")
}

/// Adds a byte of a port, with zeros above it.
#[tactic(auto, unfolding(crate::specs::Ports::byte_text))]
fn put_byte(text: &mut Vec<u8>, name: &Name, place: usize, bits: usize) -> Result<(), AllocError>
    requires place { place < 32 }
    requires bits { bits ≤ 8 }
    ensures { OnOk result (text.new.items ≡ text.old.items ++ byte_text name.now place bits) }
{
    if bits == 8 {
        return put_bits(text, name, place, bits);
    }
    put_counted(text, "{", 8 - bits)?;
    put(text, "'d0, ")?;
    put_bits(text, name, place, bits)?;
    put(text, "}")
}

/// Adds the line of a byte of a sample or a result.
#[tactic(auto, unfolding(crate::specs::Ports::in_line, crate::specs::Ports::out_line))]
fn put_side_line(
    text: &mut Vec<u8>,
    side: Side,
    port: &Port,
    place: usize,
    number: usize,
) -> Result<(), AllocError>
    requires { place < 32 }
    ensures { OnOk result (text.new.items ≡ text.old.items ++ side_line side port.now place number) }
{
    let bits = byte_bits(port.width, place);
    match side {
        Side::Input => {
            put_counted(text, "wire [7:0] in$", number)?;
            put(text, " = ")?;
            put_byte(text, &port.name, place, bits)?;
            put(text, ";\n")
        }
        Side::Output => {
            put(text, "assign ")?;
            put_bits(text, &port.name, place, bits)?;
            put_counted(text, " = out$", number)?;
            put_counted(text, "[", bits.saturating_sub(1))?;
            put(text, ":0];\n")
        }
    }
}

/// Adds the lines of the bytes of a port, the first of which is this byte of the sample or the result.
fn put_byte_lines(
    text: &mut Vec<u8>,
    side: Side,
    port: &Port,
    first: usize,
    count: usize,
) -> Result<(), AllocError>
    requires first { first < 2 ^ 32 }
    requires count { count ≤ 32 }
    ensures { OnOk result (text.new.items ≡ text.old.items ++ byte_lines side port.now first count) }
{
    for place in 0..count {
        put_side_line(text, side, port, place, first + place)?;
    }
    Ok(())
}

/// How many bytes a port has.
fn bytes_of(port: &Port) -> usize
    ensures bytes { result ≡ slices_of port.now.width }
    ensures most { result ≤ 32 }
{
    slices(port.width)
}

/// Adds the lines of the bytes of ports.
pub fn put_side_lines(text: &mut Vec<u8>, side: Side, ports: &[Port]) -> Result<(), AllocError>
    requires { length ports.now ≤ 1024 }
    ensures { OnOk result (text.new.items ≡ text.old.items ++ side_lines side 0 ports.now) }
{
    let mut first = 0;
    for i in 0..ports.len() {
        let count = bytes_of(&ports[i]);
        put_byte_lines(text, side, &ports[i], first, count)?;
        first += count;
    }
    Ok(())
}
