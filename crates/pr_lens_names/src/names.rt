//! What names stand for, as their introductions say.

ghost use Rattle.std.specs.Prelude.{◌≡◌, ◌++◌, IfSome, OnOk};
ghost use Rattle.pr_lens_source.specs.Names.{IsEarlierName};
ghost use Rattle.pr_lens_names.specs.Names.{introduced_text, introduction_of, introduction_text, sort_at, sort_between, sort_of_const, sort_text};

use crate::brackets::kind_behind;
use crate::pieces::{put_place, put_quoted};
use pr_lang::{Keyword, Kind, Symbol};
use pr_lens_source::{Source, introduced_before};
use pr_lens_text::put;
use std::alloc::AllocError;

/// What a name stands for.
#[derive(Clone, Copy)]
pub enum Sort {
    Constant,
    Table,
    Function,
    Index,
    Stream,
    Parameter,
}

impl Sort {
    fn as_str(self) -> &'static str
        ensures { result.now ≡ sort_text self }
    {
        match self {
            Sort::Constant => "a constant",
            Sort::Table => "a table",
            Sort::Function => "a function",
            Sort::Index => "the index of a loop",
            Sort::Stream => "a stream",
            Sort::Parameter => "a parameter",
        }
    }
}

/// Where a name is introduced, and what it stands for.
#[derive(Clone, Copy)]
pub struct Introduction {
    pub token: usize,
    pub sort: Sort,
}

/// What a name stands for behind `const`, by the second token behind it.
fn sort_of_const(behind: Kind) -> Sort
    ensures { result ≡ sort_of_const behind }
{
    match behind {
        Kind::Mark(Symbol::OpenSquare) => Sort::Table,
        _ => Sort::Constant,
    }
}

/// What a name stands for, by the token before it and the second one behind it.
fn sort_between(before: Kind, behind: Kind) -> Sort
    ensures { result ≡ sort_between before behind }
{
    match before {
        Kind::Word(Keyword::Const) => sort_of_const(behind),
        Kind::Word(Keyword::Fn) => Sort::Function,
        Kind::Word(Keyword::For) => Sort::Index,
        Kind::Word(_) => Sort::Stream,
        _ => Sort::Parameter,
    }
}

/// What a name stands for that is introduced at this token.
#[tactic(auto, unfolding(crate::specs::Names::sort_at))]
pub fn sort_at(source: &Source, introduced: usize) -> Sort
    ensures { result ≡ sort_at source.now.tokens.now introduced }
{
    let before = source.kind(introduced.saturating_sub(1));
    sort_between(before, kind_behind(source, introduced, 2))
}

/// The first introduction of the name of a token before it, where that is visible still.
#[tactic(auto, unfolding(crate::specs::Names::introduction_of))]
pub fn introduction_of(source: &Source, token: usize) -> Option<Introduction>
    ensures value { result
        ≡ introduction_of source.now.text.now source.now.tokens.now source.now.spans.now token }
    ensures earlier { IfSome result (λ i. IsEarlierName source.now.text.now source.now.tokens.now token i.token) }
{
    match introduced_before(source, token) {
        None => None,
        Some(introduced) => Some(Introduction {
            token: introduced,
            sort: sort_at(source, introduced),
        }),
    }
}

/// Adds what the name of a token is and where it is introduced.
#[tactic(auto, unfolding(crate::specs::Names::introduction_text))]
pub fn put_introduction(
    message: &mut Vec<u8>,
    source: &Source,
    token: usize,
    introduction: Introduction,
) -> Result<(), AllocError>
    ensures { OnOk result (message.new.items
        ≡ message.old.items ++ introduction_text source.now.text.now source.now.tokens.now token introduction) }
{
    put_quoted(message, source, token)?;
    put(message, " is ")?;
    put(message, introduction.sort.as_str())?;
    put(message, ", introduced at ")?;
    put_place(message, source, introduction.token)?;
    put(message, ".\n")
}

/// The same, where it is introduced before.
pub fn put_introduced(
    message: &mut Vec<u8>,
    source: &Source,
    token: usize,
    introduced: Option<Introduction>,
) -> Result<(), AllocError>
    ensures { OnOk result (message.new.items
        ≡ message.old.items ++ introduced_text source.now.text.now source.now.tokens.now token introduced) }
{
    match introduced {
        None => Ok(()),
        Some(introduction) => put_introduction(message, source, token, introduction),
    }
}
