//! The syntax trees of Oberon-07 modules, with the span of every token, how a tree is printed as its tokens, and
//! inside how many levels a token stands. It stands on `oberon_scan` for tokens, and may know the grammar, and
//! nothing of how a text is read. Begin reading at `specs/Trees.antt`, the trees as plain data, and `specs/Print.antt`;
//! every later definition of the language recurses on plain trees. `specs/Memory.antt` leads to them from the Rust
//! types, `tree_of` from a whole `Tree`.
#![tactic(auto)]

mod expression;
mod first_span;
mod leaf;
mod module;
mod span;
mod statement;
mod tree;
mod types;

pub use expression::{
    AddOperator, Addend, Designator, Element, Elements, Expr, Exprs, Factor, MulOperator,
    Multiplier, NextElement, NextExpr, Relation, Relator, Selector, Set, Sign, Signed, Simple,
    Term, Upper,
};
pub use leaf::{
    Ident, IdentDef, IdentDefs, Idents, IntegerLiteral, Member, NextIdent, NextIdentDef, Qualident,
    StringLiteral,
};
pub use module::{
    Alias, Body, Constant, Constants, Declarations, FormalType, Formals, Import, Imports,
    LocalConstant, LocalConstants, LocalVariable, LocalVariables, Locals, Module, NextImport,
    NextSection, OpenArray, Procedure, ProcedureItem, ResultType, ReturnPart, Section, Sections,
    TypeDeclaration, Types, Variable, Variables,
};
pub use statement::{
    Arm, Assignment, Case, ElsePart, For, Guarded, If, Label, LabelUpper, LabelValue, Labels,
    NextArm, NextLabel, NextStatement, Repeat, Statement, Statements, Step, While,
};
pub use tree::Tree;
pub use types::{ArrayType, Base, FieldLists, Fields, NextFields, RecordType, Type};
