use crate::expression::{Designator, Expr};
use crate::leaf::{Ident, IntegerLiteral, Qualident, StringLiteral};
use ob_text::Span;

/// `stmts = stmt {";" stmt}` (The Programming Language Oberon-07, section 9.3).
#[cycle(statement)]
pub struct Statements {
    pub first: Statement,
    pub rest: Vec<NextStatement>,
}

impl Drop for Statements {
    #[cycle(statement)]
    fn drop(self) {
        let Self { first: _, rest: _ } = self;
    }
}

/// `";" stmt`.
#[cycle(statement)]
#[derive(Drop)]
pub struct NextStatement {
    pub semicolon: Span,
    pub statement: Statement,
}

/// `stmt = [assignment | call | if | case | while | repeat | for]` (section 9).
#[cycle(statement)]
pub enum Statement {
    Empty,
    Assignment(Box<Assignment>),
    Call(Designator),
    If(Box<If>),
    Case(Box<Case>),
    While(Box<While>),
    Repeat(Box<Repeat>),
    For(Box<For>),
}

impl Drop for Statement {
    #[cycle(statement)]
    fn drop(self) {
        match self {
            Self::Empty => {}
            Self::Assignment(_) => {}
            Self::Call(_) => {}
            Self::If(_) => {}
            Self::Case(_) => {}
            Self::While(_) => {}
            Self::Repeat(_) => {}
            Self::For(_) => {}
        }
    }
}

/// `designator ":=" expr` (section 9.1).
pub struct Assignment {
    pub designator: Designator,
    pub becomes: Span,
    pub value: Expr,
}

impl Drop for Assignment {
    fn drop(self) {
        let Self {
            designator: _,
            becomes: _,
            value: _,
        } = self;
    }
}

/// `IF expr THEN stmts {ELSIF expr THEN stmts} [ELSE stmts] END` (section 9.4).
#[cycle(statement)]
pub struct If {
    pub first: Guarded,
    pub rest: Vec<Guarded>,
    pub otherwise: Option<ElsePart>,
    pub end: Span,
}

impl Drop for If {
    #[cycle(statement)]
    fn drop(self) {
        let Self {
            first: _,
            rest: _,
            otherwise: _,
            end: _,
        } = self;
    }
}

/// A condition between two words, the second THEN or DO, and the statements that it guards: an arm of
/// IF or of WHILE.
#[cycle(statement)]
pub struct Guarded {
    pub word: Span,
    pub condition: Expr,
    pub body_word: Span,
    pub body: Statements,
}

impl Drop for Guarded {
    #[cycle(statement)]
    fn drop(self) {
        let Self {
            word: _,
            condition: _,
            body_word: _,
            body: _,
        } = self;
    }
}

/// `ELSE stmts`.
#[cycle(statement)]
#[derive(Drop)]
pub struct ElsePart {
    pub word: Span,
    pub body: Statements,
}

/// `CASE expr OF arm {"|" arm} END` (section 9.5).
#[cycle(statement)]
pub struct Case {
    pub word: Span,
    pub value: Expr,
    pub of: Span,
    pub first: Arm,
    pub rest: Vec<NextArm>,
    pub end: Span,
}

impl Drop for Case {
    #[cycle(statement)]
    fn drop(self) {
        let Self {
            word: _,
            value: _,
            of: _,
            first: _,
            rest: _,
            end: _,
        } = self;
    }
}

/// `"|" arm`.
#[cycle(statement)]
#[derive(Drop)]
pub struct NextArm {
    pub bar: Span,
    pub arm: Arm,
}

/// `arm = [label {"," label} ":" stmts]`.
#[cycle(statement)]
pub enum Arm {
    Empty,
    Labelled {
        labels: Labels,
        colon: Span,
        body: Statements,
    },
}

impl Drop for Arm {
    #[cycle(statement)]
    fn drop(self) {
        match self {
            Self::Empty => {}
            Self::Labelled {
                labels: _,
                colon: _,
                body: _,
            } => {}
        }
    }
}

/// `label {"," label}`.
pub struct Labels {
    pub first: Label,
    pub rest: Vec<NextLabel>,
}

impl Drop for Labels {
    fn drop(self) {
        let Self { first: _, rest: _ } = self;
    }
}

/// `"," label`.
#[derive(Drop)]
pub struct NextLabel {
    pub comma: Span,
    pub label: Label,
}

/// `label = value [".." value]`.
pub struct Label {
    pub first: LabelValue,
    pub upper: Option<LabelUpper>,
}

impl Drop for Label {
    fn drop(self) {
        let Self { first: _, upper: _ } = self;
    }
}

/// `".." value`.
#[derive(Drop)]
pub struct LabelUpper {
    pub dots: Span,
    pub last: LabelValue,
}

/// `value = integer | string | qualident`.
pub enum LabelValue {
    Integer(IntegerLiteral),
    Str(StringLiteral),
    Named(Qualident),
}

impl Drop for LabelValue {
    fn drop(self) {
        match self {
            Self::Integer(_) => {}
            Self::Str(_) => {}
            Self::Named(_) => {}
        }
    }
}

/// `WHILE expr DO stmts {ELSIF expr DO stmts} END` (section 9.6).
#[cycle(statement)]
pub struct While {
    pub first: Guarded,
    pub rest: Vec<Guarded>,
    pub end: Span,
}

impl Drop for While {
    #[cycle(statement)]
    fn drop(self) {
        let Self {
            first: _,
            rest: _,
            end: _,
        } = self;
    }
}

/// `REPEAT stmts UNTIL expr` (section 9.7).
#[cycle(statement)]
pub struct Repeat {
    pub word: Span,
    pub body: Statements,
    pub until: Span,
    pub condition: Expr,
}

impl Drop for Repeat {
    #[cycle(statement)]
    fn drop(self) {
        let Self {
            word: _,
            body: _,
            until: _,
            condition: _,
        } = self;
    }
}

/// `FOR ident ":=" expr TO expr [BY expr] DO stmts END` (section 9.8).
#[cycle(statement)]
pub struct For {
    pub word: Span,
    pub variable: Ident,
    pub becomes: Span,
    pub from: Expr,
    pub to_word: Span,
    pub limit: Expr,
    pub step: Option<Step>,
    pub body_word: Span,
    pub body: Statements,
    pub end: Span,
}

impl Drop for For {
    #[cycle(statement)]
    fn drop(self) {
        let Self {
            word: _,
            variable: _,
            becomes: _,
            from: _,
            to_word: _,
            limit: _,
            step: _,
            body_word: _,
            body: _,
            end: _,
        } = self;
    }
}

/// `BY expr`.
#[derive(Drop)]
pub struct Step {
    pub word: Span,
    pub value: Expr,
}
