//! Constant expressions, targets and widths.

ghost use Rattle.std.specs.Prelude.{OnOk, map, ◌∷◌, ◌++◌, []};
ghost use Rattle.pr_lang.specs.Word.{symbol};
ghost use Rattle.pr_lang.specs.declared.tokens.Symbol.TheVariants.{OpenSquare, CloseSquare};
ghost use Rattle.pr_lang.specs.Shape.{fixed_shape, ref_shape, width_tree, comma_listed};
ghost use Rattle.pr_lang.specs.Printed.{spelling};
ghost use Rattle.pr_parse_print.specs.Put.{IsPut};

use crate::signs::fixed_sign_of;
use crate::words::{put_comma, put_name, put_number, put_symbol};
use pr_lang::{Fixed, Ref, Symbol};
use std::alloc::AllocError;

/// A constant expression. The calls nest as deep as the tree, which the limit on nesting bounds.
#[cycle(fixed)]
pub fn put_fixed(text: &mut Vec<u8>, fixed: &Fixed) -> Result<(), AllocError>
    ensures { OnOk result (IsPut text.old.items (spelling (fixed_shape fixed.now)) text.new.items) }
{
    match fixed {
        Fixed::Number(value) => put_number(text, *value),
        Fixed::Refer(name, index) => {
            put_name(text, name)?;
            match index {
                None => Ok(()),
                Some(index) => put_index(text, index),
            }
        }
        Fixed::Binary(op, left, right) => {
            put_fixed(text, left)?;
            put_symbol(text, fixed_sign_of(*op))?;
            put_fixed(text, right)
        }
        Fixed::Paren(inner) => {
            put_symbol(text, Symbol::OpenRound)?;
            put_fixed(text, inner)?;
            put_symbol(text, Symbol::CloseRound)
        }
    }
}

/// In square brackets.
#[cycle(fixed)]
fn put_index(text: &mut Vec<u8>, index: &Fixed) -> Result<(), AllocError>
    ensures { OnOk result (IsPut text.old.items
        (symbol OpenSquare ∷ (spelling (fixed_shape index.now) ++ symbol CloseSquare ∷ [])) text.new.items) }
{
    put_symbol(text, Symbol::OpenSquare)?;
    put_fixed(text, index)?;
    put_symbol(text, Symbol::CloseSquare)
}

pub fn put_target(text: &mut Vec<u8>, target: &Ref) -> Result<(), AllocError>
    ensures { OnOk result (IsPut text.old.items (spelling (ref_shape target.now)) text.new.items) }
{
    put_name(text, &target.name)?;
    match &target.index {
        None => Ok(()),
        Some(index) => put_index(text, index),
    }
}

pub fn put_width(text: &mut Vec<u8>, width: Option<u64>) -> Result<(), AllocError>
    ensures { OnOk result (IsPut text.old.items (spelling (width_tree width)) text.new.items) }
{
    match width {
        None => Ok(()),
        Some(width) => {
            put_symbol(text, Symbol::Colon)?;
            put_number(text, width)
        }
    }
}

/// With commas between.
pub fn put_fixed_list(text: &mut Vec<u8>, list: &[Fixed]) -> Result<(), AllocError>
    ensures { OnOk result (IsPut text.old.items (spelling (comma_listed (map fixed_shape list.now))) text.new.items) }
{
    for (i, fixed) in list.iter().enumerate() {
        put_comma(text, i)?;
        put_fixed(text, fixed)?;
    }
    Ok(())
}
