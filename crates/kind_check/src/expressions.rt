ghost use Rattle.std.specs.Prelude.{◌≡◌};
ghost use Rattle.kind_check.specs.Faults.{kind_of, new_faults, number_faults, own_faults, expr_faults, exprs_faults};
ghost use Rattle.kind_check.specs.Least.{least_with};

use crate::checked::KindFault;
use crate::least::Least;
use crate::names::Kind;
use crate::scope::Scope;
use ids::Listed;
use task_tree::{Expr, Name};

/// A name that has to be new.
pub fn new_name(scope: &Scope<'_>, name: &Name, least: &mut Least)
    ensures { least.new ≡ least_with least.old (new_faults name.now.offset (kind_of scope.now name.now.text)) }
{
    if scope.kind(name.text.as_slice()).is_some() {
        least.note(name.offset, KindFault::NameTwice);
    }
}

/// A name where a number stands.
pub fn number_name(scope: &Scope<'_>, name: &Name, least: &mut Least)
    ensures { least.new ≡ least_with least.old (number_faults name.now.offset (kind_of scope.now name.now.text)) }
{
    match scope.kind(name.text.as_slice()) {
        None => least.note(name.offset, KindFault::UnknownName),
        Some(Kind::Value) => {}
        Some(Kind::Own | Kind::Waits) => least.note(name.offset, KindFault::KindMismatch),
    }
}

/// A name where the own continuation stands.
pub fn own_name(scope: &Scope<'_>, name: &Name, least: &mut Least)
    ensures { least.new ≡ least_with least.old (own_faults name.now.offset (kind_of scope.now name.now.text)) }
{
    match scope.kind(name.text.as_slice()) {
        None => least.note(name.offset, KindFault::UnknownName),
        Some(Kind::Own) => {}
        Some(Kind::Value | Kind::Waits) => least.note(name.offset, KindFault::KindMismatch),
    }
}

/// An expression.
#[tactic(auto, using(crate::proofs::Leasts::least_append))]
pub fn expression(scope: &Scope<'_>, expr: &Expr, least: &mut Least)
    ensures { least.new ≡ least_with least.old (expr_faults scope.now expr.now) }
{
    match expr {
        Expr::Number(_) => {}
        Expr::Variable(name) => number_name(scope, name, least),
        Expr::Binary(_, left, right) => {
            expression(scope, left, least);
            expression(scope, right, least);
        }
    }
}

/// Expressions, one after another.
#[tactic(auto, using(crate::proofs::Leasts::least_append))]
pub fn expressions(scope: &Scope<'_>, exprs: &Listed<Expr>, least: &mut Least)
    ensures { least.new ≡ least_with least.old (exprs_faults scope.now exprs.now) }
{
    for expr in exprs.as_slice() {
        expression(scope, expr, least);
    }
}
