//! The span of the first token of a construct.
ghost use Rattle.std.specs.Prelude.{◌≡◌, List, Some};
ghost use Rattle.oberon_scan.specs.declared.token.Token.{Token as AnyToken};
ghost use Rattle.oberon_tree.specs.Print.{print_expr, print_simple, print_term, print_factor, print_designator, print_type, print_label, print_value};
ghost use Rattle.oberon_tree.specs.FirstSpans.{first_token_span, first_of_expr, first_of_simple, first_of_term, first_of_factor, first_of_designator, first_of_type, first_of_label, first_of_value};
ghost use Rattle.oberon_tree.specs.Memory.{expr_tree, simple_tree, term_tree, factor_tree, designator_tree, type_tree};

use crate::expression::{Designator, Expr, Factor, Simple, Term};
use crate::statement::{Label, LabelValue};
use crate::types::Type;
use ob_text::Span;

impl Expr {
    /// The span of the first token.
    pub fn first_span(&self) -> Span
        ensures value { result ≡ first_of_expr (expr_tree self.now) }
        ensures first { (rest : List AnyToken)
            → first_token_span (print_expr (expr_tree self.now) rest) ≡ Some result }
    {
        self.left.first_span()
    }
}

impl Simple {
    /// The span of the first token.
    pub fn first_span(&self) -> Span
        ensures value { result ≡ first_of_simple (simple_tree self.now) }
        ensures first { (rest : List AnyToken)
            → first_token_span (print_simple (simple_tree self.now) rest) ≡ Some result }
    {
        match self.sign {
            Some(sign) => sign.span,
            None => self.first.first_span(),
        }
    }
}

impl Term {
    /// The span of the first token.
    pub fn first_span(&self) -> Span
        ensures value { result ≡ first_of_term (term_tree self.now) }
        ensures first { (rest : List AnyToken)
            → first_token_span (print_term (term_tree self.now) rest) ≡ Some result }
    {
        self.first.first_span()
    }
}

impl Factor {
    /// The span of the first token.
    pub fn first_span(&self) -> Span
        ensures value { result ≡ first_of_factor (factor_tree self.now) }
        ensures first { (rest : List AnyToken)
            → first_token_span (print_factor (factor_tree self.now) rest) ≡ Some result }
    {
        match self {
            Factor::Integer(number) => number.span,
            Factor::Str(string) => string.span,
            Factor::True(span) => *span,
            Factor::False(span) => *span,
            Factor::Set(set) => set.opening,
            Factor::Designator(designator) => designator.first_span(),
            Factor::Group { opening, .. } => *opening,
            Factor::Not { tilde, .. } => *tilde,
        }
    }
}

impl Designator {
    /// The span of the first token.
    pub fn first_span(&self) -> Span
        ensures value { result ≡ first_of_designator (designator_tree self.now) }
        ensures first { (rest : List AnyToken)
            → first_token_span (print_designator (designator_tree self.now) rest) ≡ Some result }
    {
        self.name.span
    }
}

impl Type {
    /// The span of the first token.
    pub fn first_span(&self) -> Span
        ensures value { result ≡ first_of_type (type_tree self.now) }
        ensures first { (rest : List AnyToken)
            → first_token_span (print_type (type_tree self.now) rest) ≡ Some result }
    {
        match self {
            Type::Named(name) => name.first.span,
            Type::Array(array) => array.word,
            Type::Record(record) => record.word,
        }
    }
}

impl LabelValue {
    /// The span of the first token.
    pub fn first_span(&self) -> Span
        ensures value { result ≡ first_of_value self.now }
        ensures first { (rest : List AnyToken)
            → first_token_span (print_value self.now rest) ≡ Some result }
    {
        match self {
            LabelValue::Integer(number) => number.span,
            LabelValue::Str(string) => string.span,
            LabelValue::Named(name) => name.first.span,
        }
    }
}

impl Label {
    /// The span of the first token.
    pub fn first_span(&self) -> Span
        ensures value { result ≡ first_of_label self.now }
        ensures first { (rest : List AnyToken)
            → first_token_span (print_label self.now rest) ≡ Some result }
    {
        self.first.first_span()
    }
}
