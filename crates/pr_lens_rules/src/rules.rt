//! Broken rules of scope.

ghost use Rattle.std.specs.Prelude.{◌≡◌, ◌++◌, OnOk};
ghost use Rattle.pr_lens_source.specs.Kinds.{is_input, is_minus, is_open_round};
ghost use Rattle.pr_lens_rules.specs.Rules.{below_text, bounds_text, broken_text, call_by, call_text, counts_text, divisor_text, ends_text, entries_text, entry_text, has_input, initial_text, is_call, last_turn_text, number_text, offence_text, parameter_text, params_text, past_text, recurrence_text, rule_text, step_text, table_text};

use crate::uses::{introduced_again, of_another_kind, used_too_early};
use pr_lang::{Kind, Symbol};
use pr_lens_names::{
    Introduction, introduction_of, kind_behind, last_number, parts_behind, put_instance,
    put_introduced, put_introduction, put_quoted,
};
use pr_lens_source::{Source, is_input, is_minus, is_open_round};
use pr_lens_text::{put, put_counted};
use pr_scope_names::Rule;
use std::alloc::AllocError;

/// A rule in words.
#[tactic(auto, unfolding(crate::specs::Rules::rule_text))]
fn rule_text(rule: Rule) -> &'static str
    ensures { result.now ≡ rule_text rule }
{
    match rule {
        Rule::Introduced =>
            "while a name is visible it has one kind, and each instance of it is introduced once",
        Rule::Assigned =>
            "an instance of a stream is assigned before it is used; in the body of a `rec` its own instance stands only before `@`",
        Rule::Kinds =>
            "a constant, table, index or function that is used is visible and has that kind; a table has an index behind it, the others have none; a constant expression uses no stream; a visible name before `@` is a stream",
        Rule::Calls =>
            "a call gives as many arguments as the function has parameters, and functions call one another at most 32 deep",
        Rule::Steps =>
            "each step of a constant expression is a number from 0 to 18446744073709551615",
        Rule::Divisors => "a constant expression divides by nothing that is 0",
        Rule::Entries => "the index of a table is below its length",
        Rule::Bounds =>
            "a declared width is 1 to 128; in `a{h..l}` h is not below l; a delay is at most 256, and at least 1 on the own name of a `rec`; a constant shift is by at most 128",
        Rule::Recurrences =>
            "the initial value of a `rec` fits its declared width, and its body calls no function that has `@` or `rec` in it or in what it calls",
        Rule::Ends => "there is at least one input and at least one output",
    }
}

fn parameter_text(params: usize) -> &'static str
    ensures { result.now ≡ parameter_text params }
{
    if params == 1 {
        " parameter"
    } else {
        " parameters"
    }
}

#[tactic(auto, unfolding(crate::specs::Rules::params_text))]
fn tell_params(message: &mut Vec<u8>, params: usize, given: usize) -> Result<(), AllocError>
    ensures { OnOk result (message.new.items ≡ message.old.items ++ params_text params given) }
{
    put_counted(message, "It has ", params)?;
    put(message, parameter_text(params))?;
    put_counted(message, ", and this call gives ", given)?;
    put(message, ".\n")
}

/// Tells how many parameters a function has, and how many arguments a call gives.
#[tactic(auto, unfolding(crate::specs::Rules::counts_text, crate::specs::Rules::deep_text))]
fn tell_counts(message: &mut Vec<u8>, params: usize, given: usize) -> Result<(), AllocError>
    ensures { OnOk result (message.new.items ≡ message.old.items ++ counts_text params given) }
{
    if params == given {
        return put(
            message,
            "It leads through more than 32 functions: write the inner ones out, or use a loop.\n",
        );
    }
    tell_params(message, params, given)
}

/// Tells what is wrong with a call that gives so many arguments.
fn tell_call(
    message: &mut Vec<u8>,
    source: &Source,
    token: usize,
    given: usize,
    introduced: Option<Introduction>,
) -> Result<(), AllocError>
    ensures { OnOk result (message.new.items
        ≡ message.old.items ++ call_by source.now.text.now source.now.tokens.now token given introduced) }
{
    match introduced {
        None => {
            put(message, "`signed` is there from the beginning.\n")?;
            tell_counts(message, 1, given)
        }
        Some(introduction) => {
            put_introduction(message, source, token, introduction)?;
            tell_counts(message, parts_behind(source, introduction.token, 1), given)
        }
    }
}

#[tactic(auto, unfolding(crate::specs::Rules::call_text))]
fn wrong_call(message: &mut Vec<u8>, source: &Source, token: usize) -> Result<(), AllocError>
    ensures { OnOk result (message.new.items ≡ message.old.items
        ++ call_text source.now.text.now source.now.tokens.now source.now.spans.now token) }
{
    let given = parts_behind(source, token, 1);
    tell_call(
        message,
        source,
        token,
        given,
        introduction_of(source, token),
    )
}

fn below_text(minus: bool) -> &'static str
    ensures { result.now ≡ below_text minus }
{
    if minus {
        "Constants are never below 0: write a negative one modulo a power of two, as in `256 - 2`, which is -2 in 8 bits.\n"
    } else {
        "Multiply or add in a stream of a greater width, or split the constant.\n"
    }
}

#[tactic(auto, unfolding(crate::specs::Rules::step_text))]
fn wrong_step(message: &mut Vec<u8>, source: &Source, token: usize) -> Result<(), AllocError>
    ensures { OnOk result (message.new.items
        ≡ message.old.items ++ step_text source.now.text.now source.now.tokens.now token) }
{
    put(message, "The step at ")?;
    put_quoted(message, source, token)?;
    put(message, " leaves the numbers of 64 bits.\n")?;
    put(message, below_text(is_minus(source.kind(token))))
}

#[tactic(auto, unfolding(crate::specs::Rules::divisor_text))]
fn wrong_divisor(message: &mut Vec<u8>) -> Result<(), AllocError>
    ensures { OnOk result (message.new.items ≡ message.old.items ++ divisor_text) }
{
    put(
        message,
        "The divisor is 0.\nIn a loop, see whether it is 0 in the first turn.\n",
    )
}

/// Tells how many entries a table has.
#[tactic(auto, unfolding(crate::specs::Rules::entries_text))]
fn tell_entries(message: &mut Vec<u8>, entries: usize) -> Result<(), AllocError>
    ensures { OnOk result (message.new.items ≡ message.old.items ++ entries_text entries) }
{
    if entries <= 1 {
        return put(message, "It has one entry, with the index 0.\n");
    }
    put_counted(message, "It has ", entries)?;
    put_counted(message, " entries, 0 to ", entries - 1)?;
    put(message, ".\n")
}

/// Tells of a table where it is introduced, and its entries.
fn tell_table(
    message: &mut Vec<u8>,
    source: &Source,
    token: usize,
    introduced: Option<Introduction>,
) -> Result<(), AllocError>
    ensures { OnOk result (message.new.items
        ≡ message.old.items ++ table_text source.now.text.now source.now.tokens.now token introduced) }
{
    match introduced {
        None => Ok(()),
        Some(introduction) => {
            put_introduction(message, source, token, introduction)?;
            tell_entries(message, parts_behind(source, introduction.token, 2))
        }
    }
}

fn last_turn_text(numbered: bool) -> &'static str
    ensures { result.now ≡ last_turn_text numbered }
{
    if numbered {
        ""
    } else {
        "See whether the loop ends one turn too late: `for i in 0..n` ends with n - 1.\n"
    }
}

#[tactic(auto, unfolding(crate::specs::Rules::entry_text))]
fn wrong_entry(message: &mut Vec<u8>, source: &Source, token: usize) -> Result<(), AllocError>
    ensures { OnOk result (message.new.items ≡ message.old.items
        ++ entry_text source.now.text.now source.now.tokens.now source.now.spans.now token) }
{
    put_instance(message, source, token)?;
    put(message, " is none of the table's entries.\n")?;
    tell_table(message, source, token, introduction_of(source, token))?;
    let numbered = last_number(source, token, 2).is_some();
    put(message, last_turn_text(numbered))
}

#[tactic(auto, unfolding(crate::specs::Rules::bounds_text))]
fn bounds_text(kind: Kind) -> &'static str
    ensures { result.now ≡ bounds_text kind }
{
    match kind {
        Kind::Mark(Symbol::OpenCurly) =>
            "The slice's first place is below its second one.\nThe high place comes first, as in `a{7..0}`.\n",
        Kind::Mark(Symbol::At) =>
            "The delay is longer than 256 samples, or it is 0 on the own name of a recurrence.\nFor longer delays assign the delayed stream to a name, and delay that.\n",
        Kind::Mark(Symbol::ShiftLeft) | Kind::Mark(Symbol::ShiftRight) =>
            "The shift is by more than 128 bits.\n",
        _ =>
            "A width is at least 1 bit and at most 128 bits.\nA wider number is kept in two streams.\n",
    }
}

/// Whether a function is called at a token.
fn is_call(source: &Source, token: usize) -> bool
    ensures { result ≡ is_call source.now.tokens.now token }
{
    match source.kind(token) {
        Kind::Name => {
            return is_open_round(kind_behind(source, token, 1));
        }
        _ => {
            return false;
        }
    }
}

#[tactic(auto, unfolding(crate::specs::Rules::past_text))]
fn past_text() -> &'static str
    ensures { result.now ≡ past_text }
{
    "It has a past of its own, and is called in the body of a recurrence.\nCall it before, and assign what it gives to a name that the body uses.\n"
}

#[tactic(auto, unfolding(crate::specs::Rules::initial_text))]
fn initial_text() -> &'static str
    ensures { result.now ≡ initial_text }
{
    "The initial value does not fit the declared width.\nDeclare a greater width, or take the value modulo 2 to its width.\n"
}

#[tactic(auto, unfolding(crate::specs::Rules::recurrence_text))]
fn wrong_recurrence(message: &mut Vec<u8>, source: &Source, token: usize) -> Result<(), AllocError>
    ensures { OnOk result (message.new.items ≡ message.old.items
        ++ recurrence_text source.now.text.now source.now.tokens.now source.now.spans.now token) }
{
    if !is_call(source, token) {
        return put(message, initial_text());
    }
    put_introduced(message, source, token, introduction_of(source, token))?;
    put(message, past_text())
}

/// Whether the program has an input.
#[tactic(auto, unfolding(crate::specs::Rules::has_input))]
fn has_input(source: &Source) -> bool
    ensures { result ≡ has_input source.now.tokens.now source.now.spans.now }
{
    source
        .spans
        .iter()
        .any(|span| is_input(source.kind(span.first)))
}

#[tactic(auto, unfolding(crate::specs::Rules::ends_text))]
fn ends_text(input: bool) -> &'static str
    ensures { result.now ≡ ends_text input }
{
    if input {
        "The program has no output.\nSay what is to be written, as in `output y = x;`.\n"
    } else {
        "The program has no input.\nSay what is read, as in `input x:8;`: without samples there is nothing to count time by.\n"
    }
}

/// Tells what is wrong at a token where this rule is broken.
#[tactic(auto, unfolding(crate::specs::Rules::broken_text))]
fn tell_broken(
    message: &mut Vec<u8>,
    source: &Source,
    rule: Rule,
    token: usize,
) -> Result<(), AllocError>
    ensures { OnOk result (message.new.items ≡ message.old.items
        ++ broken_text source.now.text.now source.now.tokens.now source.now.spans.now rule token) }
{
    match rule {
        Rule::Introduced => introduced_again(message, source, token),
        Rule::Assigned => used_too_early(message, source, token),
        Rule::Kinds => of_another_kind(message, source, token),
        Rule::Calls => wrong_call(message, source, token),
        Rule::Steps => wrong_step(message, source, token),
        Rule::Divisors => wrong_divisor(message),
        Rule::Entries => wrong_entry(message, source, token),
        Rule::Bounds => put(message, bounds_text(source.kind(token))),
        Rule::Recurrences => wrong_recurrence(message, source, token),
        Rule::Ends => put(message, ends_text(has_input(source))),
    }
}

#[tactic(auto, unfolding(crate::specs::Rules::number_text))]
fn tell_number(message: &mut Vec<u8>, rule: Rule) -> Result<(), AllocError>
    ensures { OnOk result (message.new.items ≡ message.old.items ++ number_text rule) }
{
    put_counted(message, "Rule ", usize::from(rule.number()))?;
    put(message, ": ")?;
    put(message, rule_text(rule))?;
    put(message, ".\n")
}

/// Tells which rule is broken at a token, and what to do.
#[tactic(auto, unfolding(crate::specs::Rules::offence_text))]
pub fn tell(
    message: &mut Vec<u8>,
    source: &Source,
    rule: Rule,
    token: usize,
) -> Result<(), AllocError>
    ensures { OnOk result (message.new.items ≡ message.old.items
        ++ offence_text source.now.text.now source.now.tokens.now source.now.spans.now rule token) }
{
    tell_broken(message, source, rule, token)?;
    tell_number(message, rule)
}
