use ob_text::{Name, Span, Text};

/// A token and the part of the text that it stands at (The Programming Language Oberon-07, section 3).
#[derive(Debug, Drop, PartialEq)]
pub struct Token {
    pub span: Span,
    pub kind: TokenKind,
}

/// What a token is, with the value of an identifier or a literal.
#[derive(Debug, Drop, PartialEq)]
pub enum TokenKind {
    Ident(Name),
    Integer(i32),
    Str(Text),
    Word(Word),
    Symbol(Symbol),
}

/// A reserved word.
#[derive(Clone, Copy, Debug, PartialEq, Eq)]
pub enum Word {
    Array,
    Begin,
    By,
    Case,
    Const,
    Div,
    Do,
    Else,
    Elsif,
    End,
    False,
    For,
    If,
    Import,
    In,
    Is,
    Mod,
    Module,
    Nil,
    Of,
    Or,
    Pointer,
    Procedure,
    Record,
    Repeat,
    Return,
    Then,
    To,
    True,
    Type,
    Until,
    Var,
    While,
}

/// An operator or a delimiter.
#[derive(Clone, Copy, Debug, PartialEq, Eq)]
pub enum Symbol {
    Plus,
    Minus,
    Star,
    Slash,
    Tilde,
    Ampersand,
    Period,
    Comma,
    Semicolon,
    Bar,
    OpenParen,
    CloseParen,
    OpenBracket,
    CloseBracket,
    OpenBrace,
    CloseBrace,
    Becomes,
    Caret,
    Equal,
    Hash,
    Less,
    Greater,
    LessEqual,
    GreaterEqual,
    Colon,
    DotDot,
}
