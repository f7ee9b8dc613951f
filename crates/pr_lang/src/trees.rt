use crate::names::Name;

/// The operators on streams.
#[derive(Clone, Copy, Debug, PartialEq, Eq)]
pub enum BinOp {
    Add,
    Sub,
    Mul,
    And,
    Or,
    Xor,
    Equal,
    NotEqual,
    Less,
    LessEqual,
    Greater,
    GreaterEqual,
    Left,
    Right,
}

/// The operators of constant expressions.
#[derive(Clone, Copy, Debug, PartialEq, Eq)]
pub enum FixedOp {
    Add,
    Sub,
    Mul,
    Div,
    Mod,
}

/// A constant expression.
#[derive(Debug)]
pub enum Fixed {
    Number(u64),
    /// A constant or an index, or with an index an entry of a table.
    Refer(Name, Option<Box<Fixed>>),
    Binary(FixedOp, Box<Fixed>, Box<Fixed>),
    Paren(Box<Fixed>),
}

// a chain of operators is as deep as it is long, so a loop goes down the first operands
impl Drop for Fixed {
    fn drop(mut self) {
        loop {
            match self {
                Fixed::Number(_number) => return,
                Fixed::Refer(_name, _index) => return,
                Fixed::Binary(_op, first, _second) => self = Box::into_inner(first),
                Fixed::Paren(inner) => self = Box::into_inner(inner),
            }
        }
    }
}

/// A name, or one of several that an index tells apart.
#[derive(Debug, Drop)]
pub struct Ref {
    pub name: Name,
    pub index: Option<Fixed>,
}

/// An expression over streams.
#[derive(Debug)]
pub enum Expr {
    Number(u64),
    Refer(Ref),
    /// A stream, so many samples earlier.
    Delay(Ref, Fixed),
    /// The bits from the first place down to the second.
    Slice(Box<Expr>, Fixed, Fixed),
    Not(Box<Expr>),
    Binary(BinOp, Box<Expr>, Box<Expr>),
    /// The second where the first is 1, and else the third.
    Choose(Box<Expr>, Box<Expr>, Box<Expr>),
    Call(Name, Vec<Expr>),
    /// The parts beside one another, the first one highest.
    Cat(Vec<Expr>),
    Paren(Box<Expr>),
}

// a loop down the first operands, as for constant expressions
impl Drop for Expr {
    fn drop(mut self) {
        loop {
            match self {
                Expr::Number(_number) => return,
                Expr::Refer(_stream) => return,
                Expr::Delay(_stream, _back) => return,
                Expr::Slice(inner, _high, _low) => self = Box::into_inner(inner),
                Expr::Not(inner) => self = Box::into_inner(inner),
                Expr::Binary(_op, first, _second) => self = Box::into_inner(first),
                Expr::Choose(condition, _one, _other) => self = Box::into_inner(condition),
                Expr::Call(_name, _args) => return,
                Expr::Cat(_parts) => return,
                Expr::Paren(inner) => self = Box::into_inner(inner),
            }
        }
    }
}

/// What stands in a function's body and in a loop, and among the items.
#[derive(Debug, Drop)]
pub enum Stmt {
    Let {
        target: Ref,
        width: Option<u64>,
        value: Expr,
    },
    Rec {
        target: Ref,
        width: Option<u64>,
        init: Fixed,
        body: Expr,
    },
    For {
        index: Name,
        low: Fixed,
        high: Fixed,
        body: Vec<Stmt>,
    },
}

/// A parameter of a function.
#[derive(Debug, Drop)]
pub struct Param {
    pub name: Name,
    pub width: Option<u64>,
}

/// One item of a program.
#[derive(Debug, Drop)]
pub enum Item {
    Input {
        name: Name,
        width: u64,
    },
    Output {
        name: Name,
        width: Option<u64>,
        value: Expr,
    },
    Const {
        name: Name,
        value: Fixed,
    },
    Table {
        name: Name,
        values: Vec<Fixed>,
    },
    Function {
        name: Name,
        params: Vec<Param>,
        width: Option<u64>,
        body: Vec<Stmt>,
        result: Expr,
    },
    Step(Stmt),
}

/// A program as it is written, its parentheses included.
#[derive(Debug, Drop)]
pub struct Program {
    pub items: Vec<Item>,
}
