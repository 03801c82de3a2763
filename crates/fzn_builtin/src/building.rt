ghost use Rattle.std.specs.Prelude.{◌≡◌, ◌↔◌, ℕ, List, ℤ, length, All, IfOk, Some};
ghost use Rattle.fzn_model.specs.Limits.{ConInLimits, ConTruths, of_model};
ghost use Rattle.fzn_builtin.specs.Arguments.{Fits};
ghost use Rattle.fzn_builtin.specs.Limits.{ArgKept, ArgTruth};
ghost use Rattle.fzn_builtin.specs.Builtins.{needs_of, shape_of, IsArgumentCount};
ghost use Rattle.fzn_builtin.specs.Constraints.{relation_of, count, differing, constraint_of, Builds};
ghost use Rattle.fzn_builtin.specs.Reading.{HasRelationArguments, HasArguments};

use crate::arg::{Arg, number, set_at, term_at, terms_at};
use crate::builtin::{Builtin, shape};
use crate::fault::BuildFault;
use crate::linear::{balance, difference, sum};
use crate::lists::{cumulative, different, element, greatest, least, rows};
use crate::logic::{all_true, any_true, clause, member};
use crate::shape::{Relation, Shape};
use fzn_model::{Base, Con, Rel};
use std::alloc::Global;

/// The relation of the arguments.
fn relation_of(alloc: Global, relation: Relation, args: &[Arg]) -> Result<Base, BuildFault>
    requires { HasRelationArguments relation args.now }
    ensures { Builds result (relation_of relation args.now) }
{
    match relation {
        Relation::Difference(rel) => {
            difference(alloc, rel, term_at(args, 0), term_at(args, 1), 0)
        }
        Relation::Below => difference(alloc, Rel::Le, term_at(args, 0), term_at(args, 1), -1),
        Relation::Sum(rel) => {
            let r = number(term_at(args, 2));
            sum(alloc, rel, terms_at(args, 0), terms_at(args, 1), r)
        }
        Relation::Disjunction => clause(alloc, terms_at(args, 0), terms_at(args, 1)),
        Relation::InSet => member(alloc, term_at(args, 0), set_at(args, 1)),
    }
}

/// How many arguments the relation has.
fn count(relation: Relation) -> usize
    ensures { result ≡ count relation }
{
    match relation {
        Relation::Difference(_) | Relation::Below | Relation::Disjunction | Relation::InSet => 2,
        Relation::Sum(_) => 3,
    }
}

/// The relation itself.
fn posted(alloc: Global, relation: Relation, args: &[Arg]) -> Result<Con, BuildFault>
    requires { HasRelationArguments relation args.now }
    ensures { Builds result (constraint_of (Shape.Posted relation) args.now) }
{
    let base = relation_of(alloc, relation, args)?;
    Ok(Con::Base(base))
}

/// The relation holds exactly where the bool behind its arguments is true.
fn reified(alloc: Global, relation: Relation, args: &[Arg]) -> Result<Con, BuildFault>
    requires { HasArguments (Shape.Reified relation) args.now }
    ensures { Builds result (constraint_of (Shape.Reified relation) args.now) }
{
    let base = relation_of(alloc, relation, args)?;
    let truth = term_at(args, count(relation));
    Ok(Con::Reif(base, truth, true))
}

/// Two bools differ; where there is a third, exactly where it is true.
fn differing(alloc: Global, args: &[Arg]) -> Result<Con, BuildFault>
    requires { HasArguments Shape.Xor args.now }
    ensures { Builds result (Some (differing args.now)) }
{
    let base = difference(alloc, Rel::Ne, term_at(args, 0), term_at(args, 1), 0)?;
    if args.len() == 2 {
        Ok(Con::Base(base))
    } else {
        Ok(Con::Reif(base, term_at(args, 2), true))
    }
}

fn both_true(alloc: Global, args: &[Arg]) -> Result<Con, BuildFault>
    requires { HasArguments Shape.BothTrue args.now }
    ensures { Builds result (constraint_of Shape.BothTrue args.now) }
{
    let literals = [term_at(args, 0), term_at(args, 1)];
    all_true(alloc, &literals, term_at(args, 2))
}

fn either_true(alloc: Global, args: &[Arg]) -> Result<Con, BuildFault>
    requires { HasArguments Shape.EitherTrue args.now }
    ensures { Builds result (constraint_of Shape.EitherTrue args.now) }
{
    let literals = [term_at(args, 0), term_at(args, 1)];
    any_true(alloc, &literals, term_at(args, 2))
}

fn plus(alloc: Global, args: &[Arg]) -> Result<Con, BuildFault>
    requires { HasArguments Shape.Plus args.now }
    ensures { Builds result (constraint_of Shape.Plus args.now) }
{
    let base = balance(alloc, term_at(args, 0), term_at(args, 1), term_at(args, 2))?;
    Ok(Con::Base(base))
}

#[tactic(auto, unfolding(crate::specs::Constraints::greatest))]
fn larger(alloc: Global, args: &[Arg]) -> Result<Con, BuildFault>
    requires { HasArguments Shape.Larger args.now }
    ensures { Builds result (constraint_of Shape.Larger args.now) }
{
    let terms = [term_at(args, 0), term_at(args, 1)];
    greatest(alloc, term_at(args, 2), &terms)
}

#[tactic(auto, unfolding(crate::specs::Constraints::least))]
fn smaller(alloc: Global, args: &[Arg]) -> Result<Con, BuildFault>
    requires { HasArguments Shape.Smaller args.now }
    ensures { Builds result (constraint_of Shape.Smaller args.now) }
{
    let terms = [term_at(args, 0), term_at(args, 1)];
    least(alloc, term_at(args, 2), &terms)
}

/// The constraint of the shape.
fn constraint_of(alloc: Global, shape: Shape, args: &[Arg]) -> Result<Con, BuildFault>
    requires { HasArguments shape args.now }
    ensures { Builds result (constraint_of shape args.now) }
{
    match shape {
        Shape::Posted(relation) => posted(alloc, relation, args),
        Shape::Reified(relation) => reified(alloc, relation, args),
        Shape::Xor => differing(alloc, args),
        Shape::BothTrue => both_true(alloc, args),
        Shape::EitherTrue => either_true(alloc, args),
        Shape::AllTrue => all_true(alloc, terms_at(args, 0), term_at(args, 1)),
        Shape::AnyTrue => any_true(alloc, terms_at(args, 0), term_at(args, 1)),
        Shape::Plus => plus(alloc, args),
        Shape::Times => Ok(Con::Times(term_at(args, 0), term_at(args, 1), term_at(args, 2))),
        Shape::Quotient => Ok(Con::Div(term_at(args, 0), term_at(args, 1), term_at(args, 2))),
        Shape::Remainder => Ok(Con::Mod(term_at(args, 0), term_at(args, 1), term_at(args, 2))),
        Shape::Absolute => Ok(Con::Abs(term_at(args, 0), term_at(args, 1))),
        Shape::Larger => larger(alloc, args),
        Shape::Smaller => smaller(alloc, args),
        Shape::Largest => greatest(alloc, term_at(args, 0), terms_at(args, 1)),
        Shape::Smallest => least(alloc, term_at(args, 0), terms_at(args, 1)),
        Shape::Element => element(alloc, term_at(args, 0), terms_at(args, 1), term_at(args, 2)),
        Shape::Different => different(alloc, terms_at(args, 0)),
        Shape::Cumulative => cumulative(
            alloc,
            terms_at(args, 0),
            terms_at(args, 1),
            terms_at(args, 2),
            term_at(args, 3),
        ),
        Shape::Rows => rows(alloc, terms_at(args, 0), terms_at(args, 1)),
    }
}

/// The constraint that the row of the name makes of its arguments, which have to fit their needs and be a whole list
/// (test it by [`fits`](crate::fits), or read them by [`need`](crate::need) and [`may_end`](crate::may_end)). Its lists
/// are copies of the arguments'. Constants stay terms; it keeps a model's limits, and its Booleans are Booleans, where
/// that is so of the arguments.
///
/// `Lengths` comes exactly where a linear relation has more coefficients than terms or fewer, cumulative tasks have
/// lists of different lengths, a maximum, a minimum or a table has no terms, or a table's numbers aren't whole rows.
/// `NoMemory` comes where a list couldn't be copied.
pub fn build(alloc: Global, builtin: Builtin, args: &[Arg]) -> Result<Con, BuildFault>
    requires fit { Fits (needs_of builtin) args.now }
    requires whole { IsArgumentCount builtin (length args.now) }
    ensures value { Builds result (constraint_of (shape_of builtin) args.now) }
    ensures kept { IfOk result (λ con. (n : ℕ) → All (ArgKept n) args.now → ConInLimits of_model n con) }
    ensures truths { IfOk result (λ con. (ds : List (List (ℤ × ℤ))) → All (ArgTruth ds) args.now → ConTruths ds con) }
{
    constraint_of(alloc, shape(builtin), args)
}
