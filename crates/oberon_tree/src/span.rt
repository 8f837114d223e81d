//! The span of an expression, from its first token to its last.
ghost use Rattle.std.specs.Prelude.{◌≡◌, []};
ghost use Rattle.oberon_tree.specs.Print.{print_expr, print_simple, print_term, print_factor, print_designator, print_selector};
ghost use Rattle.oberon_tree.specs.Spans.{EndsAt, span_of_expr};
ghost use Rattle.oberon_tree.specs.Memory.{expr_tree, simple_tree, term_tree, factor_tree, designator_tree, selector_tree};

use crate::expression::{Designator, Expr, Factor, Selector, Simple, Term};
use ob_text::Span;

impl Expr {
    /// From the first token to the last.
    pub fn span(&self) -> Span
        ensures { result ≡ span_of_expr (expr_tree self.now) }
    {
        Span {
            start: self.first_span().start,
            end: self.last_span().end,
        }
    }

    /// The span of the last token.
    fn last_span(&self) -> Span
        ensures { EndsAt (print_expr (expr_tree self.now) []) result }
    {
        match &self.relation {
            Some(relation) => relation.right.last_span(),
            None => self.left.last_span(),
        }
    }
}

impl Simple {
    /// The span of the last token.
    fn last_span(&self) -> Span
        ensures { EndsAt (print_simple (simple_tree self.now) []) result }
    {
        match self.rest.last() {
            Some(addend) => addend.term.last_span(),
            None => self.first.last_span(),
        }
    }
}

impl Term {
    /// The span of the last token.
    fn last_span(&self) -> Span
        ensures { EndsAt (print_term (term_tree self.now) []) result }
    {
        match self.rest.last() {
            Some(multiplier) => multiplier.factor.last_span(),
            None => self.first.last_span(),
        }
    }
}

impl Factor {
    /// The span of the last token.
    fn last_span(&self) -> Span
        ensures { EndsAt (print_factor (factor_tree self.now) []) result }
    {
        match self {
            Factor::Integer(number) => number.span,
            Factor::Str(string) => string.span,
            Factor::True(span) => *span,
            Factor::False(span) => *span,
            Factor::Set(set) => set.closing,
            Factor::Designator(designator) => designator.last_span(),
            Factor::Group { closing, .. } => *closing,
            Factor::Not { factor, .. } => factor.last_span(),
        }
    }
}

impl Designator {
    /// The span of the last token.
    fn last_span(&self) -> Span
        ensures { EndsAt (print_designator (designator_tree self.now) []) result }
    {
        match self.selectors.last() {
            Some(selector) => selector.last_span(),
            None => self.name.span,
        }
    }
}

impl Selector {
    /// The span of the last token.
    fn last_span(&self) -> Span
        ensures { EndsAt (print_selector (selector_tree self.now) []) result }
    {
        match self {
            Selector::Field(member) => member.name.span,
            Selector::Index { closing, .. } => *closing,
            Selector::Call { closing, .. } => *closing,
        }
    }
}
