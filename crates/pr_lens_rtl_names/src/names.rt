//! The names of ports.

ghost use Rattle.std.specs.Prelude.{◌≡◌, ◌++◌, IfOk, OnOk, map, option_map, option_to_list};
ghost use Rattle.pr_lens_rtl_names.specs.Names.{begins, handshake_text, is_word, language_text, name_in, names_in, occurs, port_name, spaced, stem};

use pr_lang::{Item, Name};
use std::alloc::{AllocError, Global};

/// Which ports.
#[derive(Clone, Copy)]
pub enum Side {
    /// Those of the inputs.
    Input,
    /// Those of the outputs.
    Output,
}

/// The words of Verilog and of SystemVerilog, with a space before and behind each.
const LANGUAGE: &[u8] =
    b" accept_on alias always always_comb always_ff always_latch and assert assign assume automatic before begin \
bind bins binsof bit break buf bufif0 bufif1 byte case casex casez cell chandle checker class clocking cmos config \
const constraint context continue cover covergroup coverpoint cross deassign default defparam design disable dist do \
edge else end endcase endchecker endclass endclocking endconfig endfunction endgenerate endgroup endinterface \
endmodule endpackage endprimitive endprogram endproperty endsequence endspecify endtable endtask enum event \
eventually expect export extends extern final first_match for force foreach forever fork forkjoin function generate \
genvar global highz0 highz1 if iff ifnone ignore_bins illegal_bins implements implies import incdir include initial \
inout input inside instance int integer interconnect interface intersect join join_any join_none large let liblist \
library local localparam logic longint macromodule matches medium modport module nand negedge nettype new nexttime \
nmos nor noshowcancelled not notif0 notif1 null or output package packed parameter pmos posedge primitive priority \
program property protected pull0 pull1 pulldown pullup pulsestyle_ondetect pulsestyle_onevent pure rand randc \
randcase randsequence rcmos real realtime ref reg reject_on release repeat restrict return rnmos rpmos rtran rtranif0 \
rtranif1 s_always s_eventually s_nexttime s_until s_until_with scalared sequence shortint shortreal showcancelled \
signed small soft solve specify specparam static string strong strong0 strong1 struct super supply0 supply1 \
sync_accept_on sync_reject_on table tagged task this throughout time timeprecision timeunit tran tranif0 tranif1 tri \
tri0 tri1 triand trior trireg type typedef union unique unique0 unsigned until until_with untyped use uwire var \
vectored virtual void wait wait_order wand weak weak0 weak1 while wildcard wire with within wor xnor xor ";

/// The words of the handshake, and the name of a test bench, with a space before and behind each.
const HANDSHAKE: &[u8] = b" bench clock in_ready in_valid out_ready out_valid reset ";

/// A name without the underscores at its end.
fn stem(name: &[u8]) -> &[u8]
    ensures { result.now ≡ stem name.now }
{
    let mut end = name.len();
    while 0 < end && name[end - 1] == b'_' {
        end -= 1;
    }
    &name[..end]
}

/// Whether a text begins with another one.
fn begins(text: &[u8], front: &[u8]) -> bool
    ensures { result ≡ begins text.now front.now }
{
    front.len() <= text.len() && &text[..front.len()] == front
}

/// Whether a text occurs in another one.
fn occurs(text: &[u8], piece: &[u8]) -> bool
    ensures { result ≡ occurs text.now piece.now }
{
    for at in 0..text.len() {
        if begins(&text[at..], piece) {
            return true;
        }
    }
    false
}

/// A name with a space before and behind it.
fn spaced(alloc: Global, name: &[u8]) -> Result<Vec<u8>, AllocError>
    ensures { IfOk result (λ piece. piece.items ≡ spaced name.now) }
{
    let mut piece = Vec::new(alloc);
    piece.push(b' ')?;
    piece.extend_from_slice(name)?;
    piece.push(b' ')?;
    Ok(piece)
}

/// Whether a name between spaces is a word of Verilog or of SystemVerilog.
fn is_in_language(piece: &[u8]) -> bool
    ensures { result ≡ occurs language_text piece.now }
{
    occurs(LANGUAGE, piece)
}

/// Whether a name between spaces is of the handshake, or that of a test bench.
fn is_in_handshake(piece: &[u8]) -> bool
    ensures { result ≡ occurs handshake_text piece.now }
{
    occurs(HANDSHAKE, piece)
}

/// Whether a name is a word that no port may have.
fn is_word(alloc: Global, name: &[u8]) -> Result<bool, AllocError>
    ensures { IfOk result (λ b. b ≡ is_word name.now) }
{
    let piece = spaced(alloc, name)?;
    Ok(is_in_language(&piece) || is_in_handshake(&piece))
}

/// A name, with an underscore behind it where it is such a word, also one with underscores behind it.
pub fn port_bytes(alloc: Global, name: &[u8]) -> Result<Vec<u8>, AllocError>
    ensures { IfOk result (λ bytes. bytes.items ≡ port_name name.now) }
{
    let mut bytes = Vec::from_slice(alloc, name)?;
    if is_word(alloc, stem(name))? {
        bytes.push(b'_')?;
    }
    Ok(bytes)
}

/// The name of the port for a name of a program.
fn port_name(alloc: Global, name: &Name) -> Result<Name, AllocError>
    ensures { IfOk result (λ port. port ≡ port_name name.now) }
{
    Ok(Name::new(port_bytes(alloc, name.as_bytes())?))
}

/// The name of an input, or of an output.
fn name_in(side: Side, item: &Item) -> Option<&Name>
    ensures { option_map (λ n. n.now) result ≡ name_in side item.now }
{
    match side {
        Side::Input => match item {
            Item::Input { name, .. } => Some(name),
            _ => None,
        },
        Side::Output => match item {
            Item::Output { name, .. } => Some(name),
            _ => None,
        },
    }
}

/// Adds the name of the port of an item, where it is an input, or an output.
fn add_name(alloc: Global, names: &mut Vec<Name>, side: Side, item: &Item) -> Result<(), AllocError>
    ensures { OnOk result (names.new.items
        ≡ names.old.items ++ map port_name (option_to_list (name_in side item.now))) }
{
    match name_in(side, item) {
        None => Ok(()),
        Some(name) => {
            names.push(port_name(alloc, name)?)?;
            Ok(())
        }
    }
}

/// The names of the ports of a program's inputs, or of its outputs.
pub fn port_names(alloc: Global, side: Side, items: &[Item]) -> Result<Vec<Name>, AllocError>
    ensures { IfOk result (λ names. names.items ≡ map port_name (names_in side items.now)) }
{
    let mut names = Vec::new(alloc);
    for item in items {
        add_name(alloc, &mut names, side, item)?;
    }
    Ok(names)
}
