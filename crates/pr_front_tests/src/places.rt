//! Tokens and where they stand.

use pr_lang::{Keyword, Kind, Symbol, Token};
use pr_parse::tokens;
use std::test::Fail;

/// Gaps, and the longest tokens.
const GAPS: [Token; 5] = [
    Token {
        kind: Kind::Name,
        start: 0,
        end: 1,
    },
    Token {
        kind: Kind::Mark(Symbol::LessEqual),
        start: 6,
        end: 8,
    },
    Token {
        kind: Kind::Number(31),
        start: 8,
        end: 12,
    },
    Token {
        kind: Kind::Name,
        start: 13,
        end: 16,
    },
    Token {
        kind: Kind::End,
        start: 16,
        end: 16,
    },
];

/// A word that is no token ends the tokens.
const BAD: [Token; 4] = [
    Token {
        kind: Kind::Word(Keyword::Let),
        start: 0,
        end: 3,
    },
    Token {
        kind: Kind::Name,
        start: 4,
        end: 5,
    },
    Token {
        kind: Kind::Mark(Symbol::Assign),
        start: 6,
        end: 7,
    },
    Token {
        kind: Kind::Bad,
        start: 8,
        end: 10,
    },
];

/// Texts, and their tokens.
const CASES: [(&[u8], &[Token]); 2] = [(b"x//\r \n<=0x1f\t_in", &GAPS), (b"let x = 08x;", &BAD)];

#[test]
fn tokens_and_places(rt: HostRuntime) -> Result<(), Fail> {
    for (text, wanted) in CASES {
        assert!(rt; text.len() < 100);
        assert_eq!(rt; tokens(rt.alloc(), text)?.as_slice(), wanted);
    }
    Ok(())
}
