ghost use Rattle.std.specs.Prelude.{◌≡◌, ◌≢◌, ℕ, ◌+◌, ◌≤◌, ◌<◌, max, length, IfOk, IfErr, Some};
ghost use Rattle.task_syntax.specs.Grammar.{height_of, ReadsExpr, IsExpr};
ghost use Rattle.task_syntax.specs.Parts.{Joins};
ghost use Rattle.task_syntax.specs.Refusals.{Stops, first_refusal, leaf_refusal};
ghost use Rattle.task_syntax.specs.Meeting.{MeetsExpr};

use crate::error::ParseError;
use crate::reader::tokens::{expect_mark, first, infix, level, mark, name, offset};
use std::alloc::Global;
use task_tokens::{Operator, Sign, Token, TokenKind};
use task_tree::Expr;

/// The most parentheses inside each other, and the most levels of a tree.
const DEEPEST: u8 = 64;

/// An operand stands at every level up to this one, which is above that of every operator.
const OPERAND: u8 = 8;

/// An expression and the levels of its tree.
#[derive(Drop)]
pub struct Measured {
    pub tree: Expr,
    pub height: u8,
    ghost measured: { height ≡ height_of tree },
    ghost low: { height ≤ 64 },
}

/// A whole expression.
pub fn value(alloc: Global, tokens: &[Token]) -> Result<(Expr, &[Token]), ParseError>
    ensures read { IfOk result (λ x. IsExpr tokens.now x.1.now x.0) }
    ensures shorter { IfOk result (λ x. length x.1.now < length tokens.now) }
    ensures stops { IfOk result (λ x. Stops 0 x.1.now) }
    ensures met { IfErr result (λ e. e ≢ ParseError.Memory → MeetsExpr 64 0 tokens.now e) }
{
    let (whole, rest) = expression(alloc, DEEPEST, 0, tokens)?;
    let Measured { tree, height: _ } = whole;
    Ok((tree, rest))
}

/// An expression with no operator looser than `loosest` and at most so many parentheses inside each
/// other.
#[cycle(expression)]
fn expression(
    alloc: Global,
    parens: u8,
    loosest: u8,
    tokens: &[Token],
) -> Result<(Measured, &[Token]), ParseError>
    requires { loosest ≤ 8 }
    ensures read { IfOk result (λ x. ReadsExpr parens loosest tokens.now x.1.now x.0.tree) }
    ensures shorter { IfOk result (λ x. length x.1.now < length tokens.now) }
    ensures stops { IfOk result (λ x. Stops loosest x.1.now) }
    ensures met { IfErr result (λ e. e ≢ ParseError.Memory → MeetsExpr parens loosest tokens.now e) }
{
    let (mut left, mut rest) = operand(alloc, parens, tokens)?;
    let mut tightest = OPERAND;
    while let Some((op, at, after)) = infix(loosest, tightest, rest) {
        let (right, behind) = expression(alloc, parens, level(op) + 1, after)?;
        left = joined(alloc, op, at, left, right)?;
        rest = behind;
        tightest = level(op);
    }
    Ok((left, rest))
}

/// A number, a name, or an expression in parentheses.
#[cycle(expression)]
fn operand(alloc: Global, parens: u8, tokens: &[Token]) -> Result<(Measured, &[Token]), ParseError>
    ensures read { IfOk result (λ x. ReadsExpr parens 8 tokens.now x.1.now x.0.tree) }
    ensures shorter { IfOk result (λ x. length x.1.now < length tokens.now) }
    ensures met { IfErr result (λ e. e ≢ ParseError.Memory → (level : ℕ) → MeetsExpr parens level tokens.now e) }
{
    let Some(inside) = mark(Sign::Open, tokens) else {
        return leaf(alloc, tokens);
    };
    if parens == 0 {
        return Err(ParseError::TooDeepNest(offset(tokens)));
    }
    let (tree, after) = expression(alloc, parens - 1, 0, inside)?;
    let rest = expect_mark(Sign::Close, after)?;
    Ok((tree, rest))
}

/// A number or a name.
fn leaf(alloc: Global, tokens: &[Token]) -> Result<(Measured, &[Token]), ParseError>
    ensures read { (parens : ℕ) → IfOk result (λ x. ReadsExpr parens 8 tokens.now x.1.now x.0.tree) }
    ensures shorter { IfOk result (λ x. length x.1.now < length tokens.now) }
    ensures met { IfErr result (λ e. e ≢ ParseError.Memory → first_refusal leaf_refusal tokens.now ≡ Some e) }
{
    let Some((token, rest)) = first(tokens) else {
        return Err(ParseError::Unexpected(0));
    };
    match token.kind {
        TokenKind::Numeral(n) => Ok((
            Measured {
                tree: Expr::Number(n),
                height: 1,
            },
            rest,
        )),
        TokenKind::LargeNumeral => Err(ParseError::NumberRange(token.offset)),
        _ => {
            let (variable, rest) = name(alloc, tokens)?;
            Ok((
                Measured {
                    tree: Expr::Variable(variable),
                    height: 1,
                },
                rest,
            ))
        }
    }
}

/// The tree of an operator at this place, unless it is too high.
fn joined(
    alloc: Global,
    op: Operator,
    at: u32,
    left: Measured,
    right: Measured,
) -> Result<Measured, ParseError>
    ensures joins { IfOk result (λ x. Joins op left.tree right.tree x.tree) }
    ensures met { IfErr result (λ e. e ≢ ParseError.Memory → (e ≡ ParseError.TooDeepNest at)
        × (64 < 1 + max (height_of left.tree) (height_of right.tree))) }
{
    let height = 1 + left.height.max(right.height);
    if height > DEEPEST {
        return Err(ParseError::TooDeepNest(at));
    }
    let Measured { tree: a, height: _ } = left;
    let Measured { tree: b, height: _ } = right;
    let tree = Expr::Binary(op, Box::new(alloc, a)?, Box::new(alloc, b)?);
    Ok(Measured { tree, height })
}
