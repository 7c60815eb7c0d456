ghost use Rattle.std.specs.Prelude.{◌≡◌, IfOk, IfSome, IsSome, Some};
ghost use Rattle.kind_check.specs.Value.{result_of};
ghost use Rattle.kind_check.specs.Code.{code_value, code_values};

use ids::{Listed, Numbers};
use kind_check::Code;
use std::alloc::{AllocError, Global};
use task_tree::Operator;

/// What an operator gives.
#[inline]
pub fn operate(operator: Operator, a: i64, b: i64) -> i64
    ensures { result ≡ result_of operator a b }
{
    match operator {
        Operator::Or => a | b,
        Operator::Xor => a ^ b,
        Operator::And => a & b,
        Operator::Equal => i64::from(a == b),
        Operator::NotEqual => i64::from(a != b),
        Operator::Less => i64::from(a < b),
        Operator::AtMost => i64::from(a <= b),
        Operator::ShiftLeft => a.wrapping_shl(b.rem_euclid(64) as u32),
        Operator::ShiftRight => a.wrapping_shr(b.rem_euclid(64) as u32),
        Operator::Add => a.wrapping_add(b),
        Operator::Subtract => a.wrapping_sub(b),
        Operator::Multiply => a.wrapping_mul(b),
        Operator::Divide => quotient(a, b),
        Operator::Remainder => remainder(a, b),
    }
}

/// The quotient, truncated towards 0, and 0 for a divisor 0.
fn quotient(a: i64, b: i64) -> i64
    ensures { result ≡ result_of Operator.Divide a b }
{
    if b == 0 { 0 } else { a.wrapping_div(b) }
}

/// The remainder of the quotient, and 0 for a divisor 0.
fn remainder(a: i64, b: i64) -> i64
    ensures { result ≡ result_of Operator.Remainder a b }
{
    if b == 0 { 0 } else { a.wrapping_rem(b) }
}

/// The value of an expression without an operator. It is compiled into the call that asks: most
/// operands are such.
#[inline(always)]
fn plain_value(values: &[i64], code: &Code) -> Option<i64>
    requires { IsSome (code_value values.now code.now) }
    ensures { IfSome result (λ number. code_value values.now code.now ≡ Some number) }
{
    match code {
        Code::Number(number) => Some(*number),
        Code::Local(place) => Some(values[*place]),
        Code::Binary(_, _, _) => None,
    }
}

/// The value of an expression, where the environment is these numbers.
pub fn value(values: &[i64], code: &Code) -> i64
    requires { IsSome (code_value values.now code.now) }
    ensures { code_value values.now code.now ≡ Some result }
{
    match code {
        Code::Number(number) => *number,
        Code::Local(place) => values[*place],
        Code::Binary(operator, a, b) => {
            let left = match plain_value(values, a) {
                Some(number) => number,
                None => value(values, a),
            };
            let right = match plain_value(values, b) {
                Some(number) => number,
                None => value(values, b),
            };
            operate(*operator, left, right)
        }
    }
}

/// The values of expressions, where the environment is these numbers.
pub fn values(alloc: Global, values: &[i64], codes: &Listed<Code>) -> Result<Numbers, AllocError>
    requires { IsSome (code_values values.now codes.now) }
    ensures { IfOk result (λ vs. code_values values.now codes.now ≡ Some vs) }
{
    let mut numbers = Numbers::with_capacity(alloc, codes.len())?;
    for code in codes.as_slice() {
        numbers.push(value(values, code))?;
    }
    Ok(numbers)
}
