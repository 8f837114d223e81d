use crate::leaf::{Ident, IntegerLiteral, Member, StringLiteral};
use ob_text::Span;

/// `expr = simple [relator simple]` (The Programming Language Oberon-07, section 8.2).
#[cycle(expression)]
pub struct Expr {
    pub left: Simple,
    pub relation: Option<Box<Relation>>,
}

impl Drop for Expr {
    #[cycle(expression)]
    fn drop(self) {
        let Self {
            left: _,
            relation: _,
        } = self;
    }
}

/// The operator and the right side of a relation.
#[cycle(expression)]
#[derive(Drop)]
pub struct Relation {
    pub operator: Relator,
    pub span: Span,
    pub right: Simple,
}

/// `"=" | "#" | "<" | "<=" | ">" | ">=" | IN | IS`.
#[derive(Clone, Copy, Debug, PartialEq, Eq)]
pub enum Relator {
    Equal,
    Unequal,
    Less,
    LessEqual,
    Greater,
    GreaterEqual,
    In,
    Is,
}

/// `simple = ["+" | "-"] term {addoperator term}`.
#[cycle(expression)]
pub struct Simple {
    pub sign: Option<Signed>,
    pub first: Term,
    pub rest: Vec<Addend>,
}

impl Drop for Simple {
    #[cycle(expression)]
    fn drop(self) {
        let Self {
            sign: _,
            first: _,
            rest: _,
        } = self;
    }
}

/// A sign and its span.
#[derive(Clone, Copy, Debug)]
pub struct Signed {
    pub sign: Sign,
    pub span: Span,
}

/// `"+" | "-"` before a term.
#[derive(Clone, Copy, Debug, PartialEq, Eq)]
pub enum Sign {
    Plus,
    Minus,
}

/// `addoperator term`.
#[cycle(expression)]
#[derive(Drop)]
pub struct Addend {
    pub operator: AddOperator,
    pub span: Span,
    pub term: Term,
}

/// `"+" | "-" | OR` between terms.
#[derive(Clone, Copy, Debug, PartialEq, Eq)]
pub enum AddOperator {
    Add,
    Subtract,
    Or,
}

/// `term = factor {muloperator factor}`.
#[cycle(expression)]
pub struct Term {
    pub first: Factor,
    pub rest: Vec<Multiplier>,
}

impl Drop for Term {
    #[cycle(expression)]
    fn drop(self) {
        let Self { first: _, rest: _ } = self;
    }
}

/// `muloperator factor`.
#[cycle(expression)]
#[derive(Drop)]
pub struct Multiplier {
    pub operator: MulOperator,
    pub span: Span,
    pub factor: Factor,
}

/// `"*" | "/" | DIV | MOD | "&"`.
#[derive(Clone, Copy, Debug, PartialEq, Eq)]
pub enum MulOperator {
    Multiply,
    Divide,
    Div,
    Mod,
    And,
}

/// `factor = integer | string | TRUE | FALSE | set | designator | "(" expr ")" | "~" factor`.
#[cycle(expression)]
pub enum Factor {
    Integer(IntegerLiteral),
    Str(StringLiteral),
    True(Span),
    False(Span),
    Set(Set),
    Designator(Designator),
    Group {
        opening: Span,
        inner: Box<Expr>,
        closing: Span,
    },
    Not {
        tilde: Span,
        factor: Box<Factor>,
    },
}

impl Drop for Factor {
    #[cycle(expression)]
    fn drop(self) {
        match self {
            Self::Integer(_) => {}
            Self::Str(_) => {}
            Self::True(_) => {}
            Self::False(_) => {}
            Self::Set(_) => {}
            Self::Designator(_) => {}
            Self::Group {
                opening: _,
                inner: _,
                closing: _,
            } => {}
            Self::Not {
                tilde: _,
                factor: _,
            } => {}
        }
    }
}

/// `set = "{" [element {"," element}] "}"`.
#[cycle(expression)]
#[derive(Drop)]
pub struct Set {
    pub opening: Span,
    pub elements: Option<Box<Elements>>,
    pub closing: Span,
}

/// `element {"," element}`.
#[cycle(expression)]
pub struct Elements {
    pub first: Element,
    pub rest: Vec<NextElement>,
}

impl Drop for Elements {
    #[cycle(expression)]
    fn drop(self) {
        let Self { first: _, rest: _ } = self;
    }
}

/// `"," element`.
#[cycle(expression)]
#[derive(Drop)]
pub struct NextElement {
    pub comma: Span,
    pub element: Element,
}

/// `element = expr [".." expr]`.
#[cycle(expression)]
pub struct Element {
    pub first: Expr,
    pub upper: Option<Upper>,
}

impl Drop for Element {
    #[cycle(expression)]
    fn drop(self) {
        let Self { first: _, upper: _ } = self;
    }
}

/// `".." expr`.
#[cycle(expression)]
#[derive(Drop)]
pub struct Upper {
    pub dots: Span,
    pub last: Expr,
}

/// `designator = ident {selector}` (section 8.1).
#[cycle(expression)]
pub struct Designator {
    pub name: Ident,
    pub selectors: Vec<Selector>,
}

impl Drop for Designator {
    #[cycle(expression)]
    fn drop(self) {
        let Self {
            name: _,
            selectors: _,
        } = self;
    }
}

/// `"." ident | "[" exprs "]" | "(" [exprs] ")"`. A call and a type guard have one form.
#[cycle(expression)]
#[derive(Drop)]
pub enum Selector {
    Field(Member),
    Index {
        opening: Span,
        indices: Box<Exprs>,
        closing: Span,
    },
    Call {
        opening: Span,
        arguments: Option<Box<Exprs>>,
        closing: Span,
    },
}

/// `exprs = expr {"," expr}`.
#[cycle(expression)]
pub struct Exprs {
    pub first: Expr,
    pub rest: Vec<NextExpr>,
}

impl Drop for Exprs {
    #[cycle(expression)]
    fn drop(self) {
        let Self { first: _, rest: _ } = self;
    }
}

/// `"," expr`.
#[cycle(expression)]
#[derive(Drop)]
pub struct NextExpr {
    pub comma: Span,
    pub expr: Expr,
}
