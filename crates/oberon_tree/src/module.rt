use crate::expression::Expr;
use crate::leaf::{Ident, IdentDef, IdentDefs, Idents, Qualident};
use crate::statement::Statements;
use crate::types::Type;
use ob_text::Span;

/// `MODULE ident ";" [imports] decls {procedure ";"} [BEGIN stmts] END ident "."`
/// (The Programming Language Oberon-07, section 11).
pub struct Module {
    pub word: Span,
    pub name: Ident,
    pub semicolon: Span,
    pub imports: Option<Imports>,
    pub declarations: Declarations,
    pub procedures: Vec<ProcedureItem>,
    pub body: Option<Body>,
    pub end: Span,
    pub end_name: Ident,
    pub period: Span,
}

impl Drop for Module {
    fn drop(self) {
        let Self {
            word: _,
            name: _,
            semicolon: _,
            imports: _,
            declarations: _,
            procedures: _,
            body: _,
            end: _,
            end_name: _,
            period: _,
        } = self;
    }
}

/// `IMPORT import {"," import} ";"`.
pub struct Imports {
    pub word: Span,
    pub first: Import,
    pub rest: Vec<NextImport>,
    pub semicolon: Span,
}

impl Drop for Imports {
    fn drop(self) {
        let Self {
            word: _,
            first: _,
            rest: _,
            semicolon: _,
        } = self;
    }
}

/// `"," import`.
#[derive(Drop)]
pub struct NextImport {
    pub comma: Span,
    pub import: Import,
}

/// `import = ident [":=" ident]`. The local name comes first.
pub struct Import {
    pub name: Ident,
    pub alias: Option<Alias>,
}

impl Drop for Import {
    fn drop(self) {
        let Self { name: _, alias: _ } = self;
    }
}

/// `":=" ident`, the imported module's own name.
#[derive(Drop)]
pub struct Alias {
    pub becomes: Span,
    pub imported: Ident,
}

/// `decls = [constants] [types] [variables]` (sections 5 to 7).
pub struct Declarations {
    pub constants: Option<Constants>,
    pub types: Option<Types>,
    pub variables: Option<Variables>,
}

impl Drop for Declarations {
    fn drop(self) {
        let Self {
            constants: _,
            types: _,
            variables: _,
        } = self;
    }
}

/// `CONST {constant}`.
#[derive(Drop)]
pub struct Constants {
    pub word: Span,
    pub items: Vec<Constant>,
}

/// `identdef "=" expr ";"` (section 5).
pub struct Constant {
    pub name: IdentDef,
    pub equal: Span,
    pub value: Expr,
    pub semicolon: Span,
}

impl Drop for Constant {
    fn drop(self) {
        let Self {
            name: _,
            equal: _,
            value: _,
            semicolon: _,
        } = self;
    }
}

/// `TYPE {typedeclaration}`.
#[derive(Drop)]
pub struct Types {
    pub word: Span,
    pub items: Vec<TypeDeclaration>,
}

/// `identdef "=" type ";"` (section 6).
pub struct TypeDeclaration {
    pub name: IdentDef,
    pub equal: Span,
    pub of_type: Type,
    pub semicolon: Span,
}

impl Drop for TypeDeclaration {
    fn drop(self) {
        let Self {
            name: _,
            equal: _,
            of_type: _,
            semicolon: _,
        } = self;
    }
}

/// `VAR {variable}`.
#[derive(Drop)]
pub struct Variables {
    pub word: Span,
    pub items: Vec<Variable>,
}

/// `identlist ":" type ";"` (section 7).
pub struct Variable {
    pub names: IdentDefs,
    pub colon: Span,
    pub of_type: Type,
    pub semicolon: Span,
}

impl Drop for Variable {
    fn drop(self) {
        let Self {
            names: _,
            colon: _,
            of_type: _,
            semicolon: _,
        } = self;
    }
}

/// `locals = [localconstants] [localvariables]`.
pub struct Locals {
    pub constants: Option<LocalConstants>,
    pub variables: Option<LocalVariables>,
}

impl Drop for Locals {
    fn drop(self) {
        let Self {
            constants: _,
            variables: _,
        } = self;
    }
}

/// `CONST {localconstant}`.
#[derive(Drop)]
pub struct LocalConstants {
    pub word: Span,
    pub items: Vec<LocalConstant>,
}

/// `ident "=" expr ";"`.
pub struct LocalConstant {
    pub name: Ident,
    pub equal: Span,
    pub value: Expr,
    pub semicolon: Span,
}

impl Drop for LocalConstant {
    fn drop(self) {
        let Self {
            name: _,
            equal: _,
            value: _,
            semicolon: _,
        } = self;
    }
}

/// `VAR {localvariable}`.
#[derive(Drop)]
pub struct LocalVariables {
    pub word: Span,
    pub items: Vec<LocalVariable>,
}

/// `ident {"," ident} ":" type ";"`.
pub struct LocalVariable {
    pub names: Idents,
    pub colon: Span,
    pub of_type: Type,
    pub semicolon: Span,
}

impl Drop for LocalVariable {
    fn drop(self) {
        let Self {
            names: _,
            colon: _,
            of_type: _,
            semicolon: _,
        } = self;
    }
}

/// A procedure and the `";"` behind it.
#[derive(Drop)]
pub struct ProcedureItem {
    pub procedure: Procedure,
    pub semicolon: Span,
}

/// `PROCEDURE identdef [formals] ";" locals [BEGIN stmts] [RETURN expr] END ident` (section 10).
pub struct Procedure {
    pub word: Span,
    pub name: IdentDef,
    pub formals: Option<Formals>,
    pub semicolon: Span,
    pub locals: Locals,
    pub body: Option<Body>,
    pub returns: Option<ReturnPart>,
    pub end: Span,
    pub end_name: Ident,
}

impl Drop for Procedure {
    fn drop(self) {
        let Self {
            word: _,
            name: _,
            formals: _,
            semicolon: _,
            locals: _,
            body: _,
            returns: _,
            end: _,
            end_name: _,
        } = self;
    }
}

/// `formals = "(" [section {";" section}] ")" [":" qualident]` (section 10.1).
pub struct Formals {
    pub opening: Span,
    pub sections: Option<Sections>,
    pub closing: Span,
    pub result_type: Option<ResultType>,
}

impl Drop for Formals {
    fn drop(self) {
        let Self {
            opening: _,
            sections: _,
            closing: _,
            result_type: _,
        } = self;
    }
}

/// `section {";" section}`.
pub struct Sections {
    pub first: Section,
    pub rest: Vec<NextSection>,
}

impl Drop for Sections {
    fn drop(self) {
        let Self { first: _, rest: _ } = self;
    }
}

/// `";" section`.
#[derive(Drop)]
pub struct NextSection {
    pub semicolon: Span,
    pub section: Section,
}

/// `section = [VAR] ident {"," ident} ":" {ARRAY OF} qualident`.
pub struct Section {
    pub by_var: Option<Span>,
    pub names: Idents,
    pub colon: Span,
    pub of_type: FormalType,
}

impl Drop for Section {
    fn drop(self) {
        let Self {
            by_var: _,
            names: _,
            colon: _,
            of_type: _,
        } = self;
    }
}

/// `{ARRAY OF} qualident`.
pub struct FormalType {
    pub opens: Vec<OpenArray>,
    pub name: Qualident,
}

impl Drop for FormalType {
    fn drop(self) {
        let Self { opens: _, name: _ } = self;
    }
}

/// `ARRAY OF`, without a length.
#[derive(Clone, Copy, Debug)]
pub struct OpenArray {
    pub word: Span,
    pub of: Span,
}

/// `":" qualident` behind formal parameters.
#[derive(Drop)]
pub struct ResultType {
    pub colon: Span,
    pub name: Qualident,
}

/// `BEGIN stmts`.
#[derive(Drop)]
pub struct Body {
    pub word: Span,
    pub statements: Statements,
}

/// `RETURN expr`.
#[derive(Drop)]
pub struct ReturnPart {
    pub word: Span,
    pub value: Expr,
}
