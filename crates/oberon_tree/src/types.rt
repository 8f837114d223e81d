use crate::expression::Exprs;
use crate::leaf::{IdentDefs, Qualident};
use ob_text::Span;

/// `type = qualident | array | record` (The Programming Language Oberon-07, section 6).
#[cycle(type_tree)]
pub enum Type {
    Named(Qualident),
    Array(Box<ArrayType>),
    Record(Box<RecordType>),
}

impl Drop for Type {
    #[cycle(type_tree)]
    fn drop(self) {
        match self {
            Self::Named(_) => {}
            Self::Array(_) => {}
            Self::Record(_) => {}
        }
    }
}

/// `ARRAY expr {"," expr} OF type` (section 6.2).
#[cycle(type_tree)]
pub struct ArrayType {
    pub word: Span,
    pub lengths: Exprs,
    pub of: Span,
    pub element: Type,
}

impl Drop for ArrayType {
    #[cycle(type_tree)]
    fn drop(self) {
        let Self {
            word: _,
            lengths: _,
            of: _,
            element: _,
        } = self;
    }
}

/// `RECORD ["(" qualident ")"] [fields {";" fields}] END` (section 6.3).
#[cycle(type_tree)]
pub struct RecordType {
    pub word: Span,
    pub base: Option<Base>,
    pub fields: Option<FieldLists>,
    pub end: Span,
}

impl Drop for RecordType {
    #[cycle(type_tree)]
    fn drop(self) {
        let Self {
            word: _,
            base: _,
            fields: _,
            end: _,
        } = self;
    }
}

/// `"(" qualident ")"`.
#[derive(Drop)]
pub struct Base {
    pub opening: Span,
    pub name: Qualident,
    pub closing: Span,
}

/// `fields {";" fields}`.
#[cycle(type_tree)]
pub struct FieldLists {
    pub first: Fields,
    pub rest: Vec<NextFields>,
}

impl Drop for FieldLists {
    #[cycle(type_tree)]
    fn drop(self) {
        let Self { first: _, rest: _ } = self;
    }
}

/// `";" fields`.
#[cycle(type_tree)]
#[derive(Drop)]
pub struct NextFields {
    pub semicolon: Span,
    pub fields: Fields,
}

/// `fields = identlist ":" type`.
#[cycle(type_tree)]
pub struct Fields {
    pub names: IdentDefs,
    pub colon: Span,
    pub of_type: Type,
}

impl Drop for Fields {
    #[cycle(type_tree)]
    fn drop(self) {
        let Self {
            names: _,
            colon: _,
            of_type: _,
        } = self;
    }
}
