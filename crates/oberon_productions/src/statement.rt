//! Statements (The Programming Language Oberon-07, section 9). Each function is given how many more levels
//! may be opened.
ghost use Rattle.std.specs.Prelude.{◌≡◌, ◌∷◌, ◌++◌, [], List, max, suc, MatchOption, MatchResult};
ghost use Rattle.oberon_scan.specs.declared.token.Word.TheVariants as words;
ghost use Rattle.oberon_scan.specs.declared.token.Token.{Token as AnyToken};
ghost use Rattle.oberon_scan.specs.declared.token.Symbol.TheVariants as symbols;
ghost use Rattle.oberon_tree.specs.Tokens.{word_token, symbol_token, ident_token};
ghost use Rattle.oberon_tree.specs.Print.{print_expr, print_statements, print_more_statements, print_statement, print_elsifs, print_else, print_arm, print_more_arms, print_step};
ghost use Rattle.oberon_tree.specs.Levels.{depth_of_expr, depth_of_statements, depth_of_more_statements, depth_of_statement, depth_of_elsifs, depth_of_else, depth_of_arm, depth_of_more_arms, depth_of_step};
ghost use Rattle.oberon_tree.specs.Memory.{expr_tree, statements_tree, more_statements_list, statement_tree, elsifs_list, else_option, arm_tree, more_arms_list, step_option};
ghost use Rattle.oberon_productions.specs.Expected as want;
ghost use Rattle.oberon_productions.specs.Machine.{expr_parts, statements_parts, guarded_parts};
ghost use Rattle.oberon_productions.specs.Reading.{ReadsParts, StopsAt};

use crate::expression::{expr, selectors};
use crate::join::{fitting, keeping};
use crate::label::{first_value, rest_of_labels};
use crate::read::{ident, need_ident, need_symbol, need_word, one_less, symbol, word};
use crate::stop::Stop;
use ob_text::Span;
use oberon_scan::{Symbol, Token, Word};
use oberon_tree::{
    Arm, Assignment, Case, Designator, ElsePart, Expr, For, Guarded, Ident, If, NextArm,
    NextStatement, Repeat, Statement, Statements, Step, While,
};
use std::alloc::Global;

/// `stmts = stmt {";" stmt}`.
#[cycle(statement)]
pub fn statements(
    alloc: Global,
    given: &[Token],
    levels: usize,
) -> Result<(Statements, &[Token]), Stop>
    ensures { MatchResult result
        (λ x. ReadsParts (statements_parts levels) levels given.now (print_statements (statements_tree x.0))
        (depth_of_statements (statements_tree x.0)) x.1.now)
        (λ e. StopsAt (statements_parts levels) given.now e) }
{
    let (first, rest) = statement(alloc, given, levels)?;
    let (next, rest, first) = keeping(first, more_statements(alloc, rest, levels))?;
    let statements = Statements { first, rest: next };
    Ok((statements, rest))
}

/// `{";" stmt}`.
#[cycle(statement)]
fn more_statements(
    alloc: Global,
    given: &[Token],
    levels: usize,
) -> Result<(Vec<NextStatement>, &[Token]), Stop>
    ensures { MatchResult result
        (λ x. ReadsParts (want.statements levels ∷ []) levels given.now
        (print_more_statements (more_statements_list x.0.items))
        (depth_of_more_statements (more_statements_list x.0.items)) x.1.now)
        (λ e. StopsAt (want.statements levels ∷ []) given.now e) }
{
    let mut items = Vec::new(alloc);
    let mut rest = given;
    while let Some((semicolon, after)) = symbol(rest, Symbol::Semicolon) {
        let (statement, after) = statement(alloc, after, levels)?;
        items.push(NextStatement {
            semicolon,
            statement,
        })?;
        rest = after;
    }
    Ok((fitting(items), rest))
}

/// `stmt = [designator [":=" expr] | if | case | while | repeat | for]`.
#[cycle(statement)]
fn statement(alloc: Global, given: &[Token], levels: usize) -> Result<(Statement, &[Token]), Stop>
    ensures { MatchResult result
        (λ x. ReadsParts (want.statement levels ∷ []) levels given.now (print_statement (statement_tree x.0))
        (depth_of_statement (statement_tree x.0)) x.1.now)
        (λ e. StopsAt (want.statement levels ∷ []) given.now e) }
{
    if let Some((name, rest)) = ident(alloc, given)? {
        return action(alloc, name, rest, levels);
    }
    if let Some((span, rest)) = word(given, Word::If) {
        let inner = one_less(given, levels)?;
        return conditional(alloc, span, rest, inner);
    }
    if let Some((span, rest)) = word(given, Word::Case) {
        let inner = one_less(given, levels)?;
        return choice(alloc, span, rest, inner);
    }
    if let Some((span, rest)) = word(given, Word::While) {
        let inner = one_less(given, levels)?;
        return repetition(alloc, span, rest, inner);
    }
    if let Some((span, rest)) = word(given, Word::Repeat) {
        let inner = one_less(given, levels)?;
        return repeat(alloc, span, rest, inner);
    }
    if let Some((span, rest)) = word(given, Word::For) {
        let inner = one_less(given, levels)?;
        return counted(alloc, span, rest, inner);
    }
    Ok((Statement::Empty, given))
}

/// What stands behind the name that a statement begins with: `{selector} [":=" expr]`.
fn action(
    alloc: Global,
    name: Ident,
    given: &[Token],
    levels: usize,
) -> Result<(Statement, &[Token]), Stop>
    ensures { MatchResult result
        (λ x. ReadsParts (want.statement levels ∷ []) levels (ident_token name ∷ given.now)
        (print_statement (statement_tree x.0)) (depth_of_statement (statement_tree x.0)) x.1.now)
        (λ e. StopsAt (want.statement levels ∷ []) (ident_token name ∷ given.now) e) }
{
    let (selectors, rest) = selectors(alloc, given, levels)?;
    let designator = Designator { name, selectors };
    let Some((becomes, rest)) = symbol(rest, Symbol::Becomes) else {
        return Ok((Statement::Call(designator), rest));
    };
    let (value, rest) = expr(alloc, rest, levels)?;
    let assignment = Assignment {
        designator,
        becomes,
        value,
    };
    let boxed = Box::new(alloc, assignment)?;
    Ok((Statement::Assignment(boxed), rest))
}

/// `expr THEN stmts`, or the same with DO.
#[cycle(statement)]
fn guarded(
    alloc: Global,
    given: &[Token],
    joint: Word,
    levels: usize,
) -> Result<((Expr, Span, Statements), &[Token]), Stop>
    ensures { MatchResult result
        (λ x. ReadsParts (guarded_parts joint levels) levels given.now
        (λ (rest : List AnyToken). print_expr (expr_tree x.0.0)
        (word_token joint x.0.1 ∷ print_statements (statements_tree x.0.2) rest))
        (max (depth_of_expr (expr_tree x.0.0)) (depth_of_statements (statements_tree x.0.2)))
        x.1.now)
        (λ e. StopsAt (guarded_parts joint levels) given.now e) }
{
    let (condition, rest) = expr(alloc, given, levels)?;
    let (span, rest, condition) = keeping(condition, need_word(rest, joint))?;
    let (body, rest, condition) = keeping(condition, statements(alloc, rest, levels))?;
    Ok(((condition, span, body), rest))
}

/// `{ELSIF expr THEN stmts}`, or the same with DO.
#[cycle(statement)]
fn elsifs(
    alloc: Global,
    given: &[Token],
    joint: Word,
    levels: usize,
) -> Result<(Vec<Guarded>, &[Token]), Stop>
    ensures { MatchResult result
        (λ x. ReadsParts (want.elsifs joint levels ∷ []) levels given.now
        (print_elsifs joint (elsifs_list x.0.items)) (depth_of_elsifs (elsifs_list x.0.items)) x.1.now)
        (λ e. StopsAt (want.elsifs joint levels ∷ []) given.now e) }
{
    let mut items = Vec::new(alloc);
    let mut rest = given;
    while let Some((span, after)) = word(rest, Word::Elsif) {
        let (parts, after) = guarded(alloc, after, joint, levels)?;
        let (condition, body_word, body) = parts;
        items.push(Guarded {
            word: span,
            condition,
            body_word,
            body,
        })?;
        rest = after;
    }
    Ok((fitting(items), rest))
}

/// `expr THEN stmts {ELSIF expr THEN stmts}`, or the same with DO.
#[cycle(statement)]
fn branches(
    alloc: Global,
    given: &[Token],
    joint: Word,
    levels: usize,
) -> Result<(((Expr, Span, Statements), Vec<Guarded>), &[Token]), Stop>
    ensures { MatchResult result
        (λ x. ReadsParts (guarded_parts joint levels ++ want.elsifs joint levels ∷ []) levels given.now
        (λ (rest : List AnyToken). print_expr (expr_tree x.0.0.0)
        (word_token joint x.0.0.1 ∷ print_statements (statements_tree x.0.0.2)
        (print_elsifs joint (elsifs_list x.0.1.items) rest)))
        (max (max (depth_of_expr (expr_tree x.0.0.0)) (depth_of_statements (statements_tree x.0.0.2)))
        (depth_of_elsifs (elsifs_list x.0.1.items)))
        x.1.now)
        (λ e. StopsAt (guarded_parts joint levels ++ want.elsifs joint levels ∷ []) given.now e) }
{
    let (first, rest) = guarded(alloc, given, joint, levels)?;
    let (next, rest, first) = keeping(first, elsifs(alloc, rest, joint, levels))?;
    Ok(((first, next), rest))
}

/// `[ELSE stmts]`.
#[cycle(statement)]
fn otherwise(
    alloc: Global,
    given: &[Token],
    levels: usize,
) -> Result<(Option<ElsePart>, &[Token]), Stop>
    ensures { MatchResult result
        (λ x. ReadsParts (want.some_else levels ∷ []) levels given.now (print_else (else_option x.0))
        (depth_of_else (else_option x.0)) x.1.now)
        (λ e. StopsAt (want.some_else levels ∷ []) given.now e) }
{
    let Some((span, rest)) = word(given, Word::Else) else {
        return Ok((None, given));
    };
    let (body, rest) = statements(alloc, rest, levels)?;
    let part = ElsePart { word: span, body };
    Ok((Some(part), rest))
}

/// What stands behind IF.
#[cycle(statement)]
fn conditional(
    alloc: Global,
    span: Span,
    given: &[Token],
    levels: usize,
) -> Result<(Statement, &[Token]), Stop>
    ensures { MatchResult result
        (λ x. ReadsParts (want.statement (suc levels) ∷ []) (suc levels) (word_token words.If span ∷ given.now)
        (print_statement (statement_tree x.0)) (depth_of_statement (statement_tree x.0)) x.1.now)
        (λ e. StopsAt (want.statement (suc levels) ∷ []) (word_token words.If span ∷ given.now) e) }
{
    let (parts, rest) = branches(alloc, given, Word::Then, levels)?;
    let (other, rest, parts) = keeping(parts, otherwise(alloc, rest, levels))?;
    let (end, rest, parts) = keeping((parts, other), need_word(rest, Word::End))?;
    let (((condition, body_word, body), next), other) = parts;
    let first = Guarded {
        word: span,
        condition,
        body_word,
        body,
    };
    let conditional = If {
        first,
        rest: next,
        otherwise: other,
        end,
    };
    let boxed = Box::new(alloc, conditional)?;
    Ok((Statement::If(boxed), rest))
}

/// What stands behind CASE.
#[cycle(statement)]
fn choice(
    alloc: Global,
    span: Span,
    given: &[Token],
    levels: usize,
) -> Result<(Statement, &[Token]), Stop>
    ensures { MatchResult result
        (λ x. ReadsParts (want.statement (suc levels) ∷ []) (suc levels)
        (word_token words.Case span ∷ given.now) (print_statement (statement_tree x.0))
        (depth_of_statement (statement_tree x.0)) x.1.now)
        (λ e. StopsAt (want.statement (suc levels) ∷ []) (word_token words.Case span ∷ given.now) e) }
{
    let (value, rest) = expr(alloc, given, levels)?;
    let (arms, rest, value) = keeping(value, arms(alloc, rest, levels))?;
    let (of, first, next, end) = arms;
    let case = Case {
        word: span,
        value,
        of,
        first,
        rest: next,
        end,
    };
    let boxed = Box::new(alloc, case)?;
    Ok((Statement::Case(boxed), rest))
}

/// `OF arm {"|" arm} END`.
#[cycle(statement)]
fn arms(
    alloc: Global,
    given: &[Token],
    levels: usize,
) -> Result<((Span, Arm, Vec<NextArm>, Span), &[Token]), Stop>
    ensures { MatchResult result
        (λ x. ReadsParts (want.word words.Of ∷ want.arm levels ∷ want.arms levels ∷ want.word words.End ∷ []) levels given.now
        (λ (rest : List AnyToken). word_token words.Of x.0.0 ∷ print_arm (arm_tree x.0.1)
        (print_more_arms (more_arms_list x.0.2.items) (word_token words.End x.0.3 ∷ rest)))
        (max (depth_of_arm (arm_tree x.0.1)) (depth_of_more_arms (more_arms_list x.0.2.items)))
        x.1.now)
        (λ e. StopsAt (want.word words.Of ∷ want.arm levels ∷ want.arms levels ∷ want.word words.End ∷ []) given.now e) }
{
    let (of, rest) = need_word(given, Word::Of)?;
    let (first, rest) = arm(alloc, rest, levels)?;
    let (next, rest, first) = keeping(first, more_arms(alloc, rest, levels))?;
    let (end, rest, arms) = keeping((first, next), need_word(rest, Word::End))?;
    let (first, next) = arms;
    Ok(((of, first, next, end), rest))
}

/// `arm = [label {"," label} ":" stmts]`.
#[cycle(statement)]
fn arm(alloc: Global, given: &[Token], levels: usize) -> Result<(Arm, &[Token]), Stop>
    ensures { MatchResult result
        (λ x. ReadsParts (want.arm levels ∷ []) levels given.now (print_arm (arm_tree x.0))
        (depth_of_arm (arm_tree x.0)) x.1.now)
        (λ e. StopsAt (want.arm levels ∷ []) given.now e) }
{
    let Some((first, rest)) = first_value(alloc, given)? else {
        return Ok((Arm::Empty, given));
    };
    let (labels, rest) = rest_of_labels(alloc, first, rest)?;
    let (body, rest, labels) = keeping(labels, statements(alloc, rest, levels))?;
    let (labels, colon) = labels;
    let arm = Arm::Labelled {
        labels,
        colon,
        body,
    };
    Ok((arm, rest))
}

/// `{"|" arm}`.
#[cycle(statement)]
fn more_arms(
    alloc: Global,
    given: &[Token],
    levels: usize,
) -> Result<(Vec<NextArm>, &[Token]), Stop>
    ensures { MatchResult result
        (λ x. ReadsParts (want.arms levels ∷ []) levels given.now (print_more_arms (more_arms_list x.0.items))
        (depth_of_more_arms (more_arms_list x.0.items)) x.1.now)
        (λ e. StopsAt (want.arms levels ∷ []) given.now e) }
{
    let mut items = Vec::new(alloc);
    let mut rest = given;
    while let Some((bar, after)) = symbol(rest, Symbol::Bar) {
        let (arm, after) = arm(alloc, after, levels)?;
        items.push(NextArm { bar, arm })?;
        rest = after;
    }
    Ok((fitting(items), rest))
}

/// What stands behind WHILE.
#[cycle(statement)]
fn repetition(
    alloc: Global,
    span: Span,
    given: &[Token],
    levels: usize,
) -> Result<(Statement, &[Token]), Stop>
    ensures { MatchResult result
        (λ x. ReadsParts (want.statement (suc levels) ∷ []) (suc levels)
        (word_token words.While span ∷ given.now) (print_statement (statement_tree x.0))
        (depth_of_statement (statement_tree x.0)) x.1.now)
        (λ e. StopsAt (want.statement (suc levels) ∷ []) (word_token words.While span ∷ given.now) e) }
{
    let (parts, rest) = branches(alloc, given, Word::Do, levels)?;
    let (end, rest, parts) = keeping(parts, need_word(rest, Word::End))?;
    let ((condition, body_word, body), next) = parts;
    let first = Guarded {
        word: span,
        condition,
        body_word,
        body,
    };
    let repetition = While {
        first,
        rest: next,
        end,
    };
    let boxed = Box::new(alloc, repetition)?;
    Ok((Statement::While(boxed), rest))
}

/// What stands behind REPEAT.
#[cycle(statement)]
fn repeat(
    alloc: Global,
    span: Span,
    given: &[Token],
    levels: usize,
) -> Result<(Statement, &[Token]), Stop>
    ensures { MatchResult result
        (λ x. ReadsParts (want.statement (suc levels) ∷ []) (suc levels)
        (word_token words.Repeat span ∷ given.now) (print_statement (statement_tree x.0))
        (depth_of_statement (statement_tree x.0)) x.1.now)
        (λ e. StopsAt (want.statement (suc levels) ∷ []) (word_token words.Repeat span ∷ given.now) e) }
{
    let (body, rest) = statements(alloc, given, levels)?;
    let (until, rest, body) = keeping(body, need_word(rest, Word::Until))?;
    let (condition, rest, body) = keeping(body, expr(alloc, rest, levels))?;
    let repeat = Repeat {
        word: span,
        body,
        until,
        condition,
    };
    let boxed = Box::new(alloc, repeat)?;
    Ok((Statement::Repeat(boxed), rest))
}

/// What stands behind FOR.
#[cycle(statement)]
fn counted(
    alloc: Global,
    span: Span,
    given: &[Token],
    levels: usize,
) -> Result<(Statement, &[Token]), Stop>
    ensures { MatchResult result
        (λ x. ReadsParts (want.statement (suc levels) ∷ []) (suc levels) (word_token words.For span ∷ given.now)
        (print_statement (statement_tree x.0)) (depth_of_statement (statement_tree x.0)) x.1.now)
        (λ e. StopsAt (want.statement (suc levels) ∷ []) (word_token words.For span ∷ given.now) e) }
{
    let (start, rest) = start(alloc, given, levels)?;
    let (limits, rest, start) = keeping(start, limits(alloc, rest, levels))?;
    let (parts, rest, head) = keeping((start, limits), counted_body(alloc, rest, levels))?;
    let ((variable, becomes, from), (to_word, limit, step)) = head;
    let (body_word, body, end) = parts;
    let counted = For {
        word: span,
        variable,
        becomes,
        from,
        to_word,
        limit,
        step,
        body_word,
        body,
        end,
    };
    let boxed = Box::new(alloc, counted)?;
    Ok((Statement::For(boxed), rest))
}

/// `DO stmts END`.
#[cycle(statement)]
fn counted_body(
    alloc: Global,
    given: &[Token],
    levels: usize,
) -> Result<((Span, Statements, Span), &[Token]), Stop>
    ensures { MatchResult result
        (λ x. ReadsParts (want.word words.Do ∷ statements_parts levels ++ want.word words.End ∷ []) levels given.now
        (λ (rest : List AnyToken). word_token words.Do x.0.0 ∷ print_statements (statements_tree x.0.1)
        (word_token words.End x.0.2 ∷ rest))
        (depth_of_statements (statements_tree x.0.1))
        x.1.now)
        (λ e. StopsAt (want.word words.Do ∷ statements_parts levels ++ want.word words.End ∷ []) given.now e) }
{
    let (word, rest) = need_word(given, Word::Do)?;
    let (body, rest) = statements(alloc, rest, levels)?;
    let (end, rest, body) = keeping(body, need_word(rest, Word::End))?;
    Ok(((word, body, end), rest))
}

/// `ident ":=" expr`.
fn start(
    alloc: Global,
    given: &[Token],
    levels: usize,
) -> Result<((Ident, Span, Expr), &[Token]), Stop>
    ensures { MatchResult result
        (λ x. ReadsParts (want.ident ∷ want.symbol symbols.Becomes ∷ expr_parts levels) levels given.now
        (λ (rest : List AnyToken). ident_token x.0.0 ∷ symbol_token symbols.Becomes x.0.1 ∷ print_expr (expr_tree x.0.2) rest)
        (depth_of_expr (expr_tree x.0.2))
        x.1.now)
        (λ e. StopsAt (want.ident ∷ want.symbol symbols.Becomes ∷ expr_parts levels) given.now e) }
{
    let (variable, rest) = need_ident(alloc, given)?;
    let (becomes, rest, variable) = keeping(variable, need_symbol(rest, Symbol::Becomes))?;
    let (from, rest, variable) = keeping(variable, expr(alloc, rest, levels))?;
    Ok(((variable, becomes, from), rest))
}

/// `TO expr [BY expr]`.
fn limits(
    alloc: Global,
    given: &[Token],
    levels: usize,
) -> Result<((Span, Expr, Option<Step>), &[Token]), Stop>
    ensures { MatchResult result
        (λ x. ReadsParts (want.word words.To ∷ expr_parts levels ++ want.some_step levels ∷ []) levels given.now
        (λ (rest : List AnyToken). word_token words.To x.0.0 ∷ print_expr (expr_tree x.0.1) (print_step (step_option x.0.2) rest))
        (max (depth_of_expr (expr_tree x.0.1)) (depth_of_step (step_option x.0.2)))
        x.1.now)
        (λ e. StopsAt (want.word words.To ∷ expr_parts levels ++ want.some_step levels ∷ []) given.now e) }
{
    let (to_word, rest) = need_word(given, Word::To)?;
    let (limit, rest) = expr(alloc, rest, levels)?;
    let (step, rest, limit) = keeping(limit, step(alloc, rest, levels))?;
    Ok(((to_word, limit, step), rest))
}

/// `[BY expr]`.
fn step(alloc: Global, given: &[Token], levels: usize) -> Result<(Option<Step>, &[Token]), Stop>
    ensures { MatchResult result
        (λ x. ReadsParts (want.some_step levels ∷ []) levels given.now (print_step (step_option x.0))
        (depth_of_step (step_option x.0)) x.1.now)
        (λ e. StopsAt (want.some_step levels ∷ []) given.now e) }
{
    let Some((span, rest)) = word(given, Word::By) else {
        return Ok((None, given));
    };
    let (value, rest) = expr(alloc, rest, levels)?;
    Ok((Some(Step { word: span, value }), rest))
}
