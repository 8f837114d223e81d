use ob_text::{Name, Span, Text};

/// An identifier (The Programming Language Oberon-07, section 3).
#[derive(Drop)]
pub struct Ident {
    pub span: Span,
    pub name: Name,
}

/// A number, in decimal or hexadecimal digits (section 3).
#[derive(Clone, Copy, Debug)]
pub struct IntegerLiteral {
    pub span: Span,
    pub value: i32,
}

/// A string in quotes, or the code of one character (section 3). The value has no quotes.
#[derive(Drop)]
pub struct StringLiteral {
    pub span: Span,
    pub value: Text,
}

/// `qualident = ident ["." ident]` (section 4).
pub struct Qualident {
    pub first: Ident,
    pub member: Option<Member>,
}

impl Drop for Qualident {
    fn drop(self) {
        let Self {
            first: _,
            member: _,
        } = self;
    }
}

/// `"." ident`, in a qualident or a designator.
#[derive(Drop)]
pub struct Member {
    pub period: Span,
    pub name: Ident,
}

/// `identdef = ident ["*"]` (section 4).
#[derive(Drop)]
pub struct IdentDef {
    pub name: Ident,
    pub export: Option<Span>,
}

/// `identlist = identdef {"," identdef}` (section 6).
pub struct IdentDefs {
    pub first: IdentDef,
    pub rest: Vec<NextIdentDef>,
}

impl Drop for IdentDefs {
    fn drop(self) {
        let Self { first: _, rest: _ } = self;
    }
}

/// `"," identdef`.
#[derive(Drop)]
pub struct NextIdentDef {
    pub comma: Span,
    pub ident: IdentDef,
}

/// `ident {"," ident}`.
pub struct Idents {
    pub first: Ident,
    pub rest: Vec<NextIdent>,
}

impl Drop for Idents {
    fn drop(self) {
        let Self { first: _, rest: _ } = self;
    }
}

/// `"," ident`.
#[derive(Drop)]
pub struct NextIdent {
    pub comma: Span,
    pub ident: Ident,
}
