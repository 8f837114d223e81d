use crate::value::Value;
use ob_text::Name;

/// The operators (The Programming Language Oberon-07, section 8.2). `Add` and `Subtract` stand for the signs
/// too, `Divide` is `/`.
#[derive(Clone, Copy, Debug, PartialEq, Eq)]
pub enum Op {
    Add,
    Subtract,
    Multiply,
    Divide,
    Div,
    Mod,
    And,
    Or,
    Not,
    Equal,
    Unequal,
    Less,
    LessEqual,
    Greater,
    GreaterEqual,
    In,
    Is,
}

/// The predeclared functions of which constants may be built (section 10.2).
#[derive(Clone, Copy, Debug, PartialEq, Eq)]
pub enum FoldingFunction {
    Abs,
    Odd,
    Lsl,
    Asr,
    Ror,
    Ord,
    Chr,
}

/// An expression, as far as constants go.
#[cycle(constant)]
#[derive(Drop)]
pub enum ConstExpr {
    /// A literal, or the name of a constant.
    Known(Value),
    /// A part of which no constant is built.
    Other,
    Unary {
        op: Op,
        part: Box<ConstExpr>,
    },
    Binary {
        op: Op,
        left: Box<ConstExpr>,
        right: Box<ConstExpr>,
    },
    /// The two ends of each element. An element without `..` has two equal ends.
    SetOf(Vec<(ConstExpr, ConstExpr)>),
    /// A call of the predeclared function of this name.
    Call {
        function: Name,
        parts: Vec<ConstExpr>,
    },
}

/// Why an expression has no value.
#[derive(Clone, Copy, Debug, PartialEq, Eq)]
pub enum FoldFault {
    NotConstant,
    Range,
    NoMemory,
}
