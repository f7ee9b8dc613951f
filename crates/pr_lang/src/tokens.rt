ghost use Rattle.std.specs.Prelude.{◌≡◌};
ghost use Rattle.pr_lang.specs.Spelling.{keyword_text, symbol_text};

/// The words that are no names.
#[derive(Clone, Copy, Debug, PartialEq, Eq)]
pub enum Keyword {
    Input,
    Output,
    Const,
    Fn,
    Return,
    Let,
    Rec,
    By,
    For,
    /// The word `in`.
    Within,
    Cat,
}

impl Keyword {
    /// The word as it is written.
    pub fn as_str(self) -> &'static str
        ensures { result.now ≡ keyword_text self }
    {
        match self {
            Keyword::Input => "input",
            Keyword::Output => "output",
            Keyword::Const => "const",
            Keyword::Fn => "fn",
            Keyword::Return => "return",
            Keyword::Let => "let",
            Keyword::Rec => "rec",
            Keyword::By => "by",
            Keyword::For => "for",
            Keyword::Within => "in",
            Keyword::Cat => "cat",
        }
    }
}

/// The tokens that are neither words nor numbers.
#[derive(Clone, Copy, Debug, PartialEq, Eq)]
pub enum Symbol {
    Colon,
    Semi,
    Assign,
    OpenRound,
    CloseRound,
    OpenSquare,
    CloseSquare,
    OpenCurly,
    CloseCurly,
    Comma,
    Dots,
    At,
    Ask,
    Plus,
    Minus,
    Star,
    Slash,
    Percent,
    Amp,
    Bar,
    Caret,
    Tilde,
    ShiftLeft,
    ShiftRight,
    Equal,
    NotEqual,
    Less,
    LessEqual,
    Greater,
    GreaterEqual,
}

impl Symbol {
    /// The symbol as it is written.
    pub fn as_str(self) -> &'static str
        ensures { result.now ≡ symbol_text self }
    {
        match self {
            Symbol::Colon => ":",
            Symbol::Semi => ";",
            Symbol::Assign => "=",
            Symbol::OpenRound => "(",
            Symbol::CloseRound => ")",
            Symbol::OpenSquare => "[",
            Symbol::CloseSquare => "]",
            Symbol::OpenCurly => "{",
            Symbol::CloseCurly => "}",
            Symbol::Comma => ",",
            Symbol::Dots => "..",
            Symbol::At => "@",
            Symbol::Ask => "?",
            Symbol::Plus => "+",
            Symbol::Minus => "-",
            Symbol::Star => "*",
            Symbol::Slash => "/",
            Symbol::Percent => "%",
            Symbol::Amp => "&",
            Symbol::Bar => "|",
            Symbol::Caret => "^",
            Symbol::Tilde => "~",
            Symbol::ShiftLeft => "<<",
            Symbol::ShiftRight => ">>",
            Symbol::Equal => "==",
            Symbol::NotEqual => "!=",
            Symbol::Less => "<",
            Symbol::LessEqual => "<=",
            Symbol::Greater => ">",
            Symbol::GreaterEqual => ">=",
        }
    }
}

/// What a token is. A name's bytes are those of the text at its place.
#[derive(Clone, Copy, Debug, PartialEq, Eq)]
pub enum Kind {
    Name,
    Number(u64),
    Word(Keyword),
    Mark(Symbol),
    /// The end of the text.
    End,
    /// Bytes that are no token.
    Bad,
}

/// A token, which stands in the text from byte `start` up to byte `end`, this one not included.
#[derive(Clone, Copy, Debug, PartialEq, Eq)]
pub struct Token {
    pub kind: Kind,
    pub start: u32,
    pub end: u32,
}
