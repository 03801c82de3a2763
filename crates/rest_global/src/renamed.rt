//! Constraints over the variables of the rest of a box.

ghost use Rattle.std.specs.Prelude.{◌≡◌, IfOk, All, length};
ghost use Rattle.fzn_model.specs.declared.con.Con.TheVariants as con;
ghost use Rattle.fzn_model.specs.Limits.{TermIn, SumInLimits, TasksInLimits, BaseInLimits, ConInLimits, of_call};
ghost use Rattle.rest_global.specs.Projection.{rest_term};
ghost use Rattle.rest_global.specs.Renamed.{terms_by, linear_terms_by, task_by, tasks_by, base_by, con_by};
ghost use Rattle.rest_global.specs.Making.{ArePlaces};

use fzn_model::{Base, BoxView, Clause, Con, CumTask, Lin, List, Member, Term};
use rest_basic::substituted_in;
use std::alloc::{AllocError, Global};

/// The term over the variables of the rest: a fixed variable is its value.
#[tactic(auto, using(crate::proofs::Places::substituted_inside, crate::proofs::Places::numbered_constant, crate::proofs::Places::numbered_variable))]
pub(crate) fn rest_term<V: BoxView>(term: Term, places: &[u32], view: &V) -> Term
    requires places { ArePlaces (V.shape view.now) (length (V.shape view.now)) places.now }
    requires term { TermIn (length (V.shape view.now)) term }
    ensures { result ≡ rest_term (V.shape view.now) term }
{
    match substituted_in(term, view) {
        Term::Const(value) => Term::Const(value),
        Term::Var(var) => Term::Var(places[var as usize]),
    }
}

/// The terms of a list.
#[tactic(auto, unfolding(crate::specs::Renamed::terms_by))]
fn rest_terms<V: BoxView>(
    alloc: Global,
    terms: &[Term],
    places: &[u32],
    view: &V,
) -> Result<List<Term>, AllocError>
    requires places { ArePlaces (V.shape view.now) (length (V.shape view.now)) places.now }
    requires terms { All (TermIn (length (V.shape view.now))) terms.now }
    ensures { IfOk result (λ renamed. renamed ≡ terms_by (rest_term (V.shape view.now)) terms.now) }
{
    let mut renamed = Vec::with_capacity(alloc, terms.len())?;
    for term in terms {
        renamed.push(rest_term(*term, places, view))?;
    }
    Ok(List::from_vec(renamed))
}

/// A coefficient beside its term.
fn rest_linear_term<V: BoxView>(term: &(i64, Term), places: &[u32], view: &V) -> (i64, Term)
    requires places { ArePlaces (V.shape view.now) (length (V.shape view.now)) places.now }
    requires term { TermIn (length (V.shape view.now)) term.now.1 }
    ensures { result ≡ (term.now.0, rest_term (V.shape view.now) term.now.1) }
{
    (term.0, rest_term(term.1, places, view))
}

/// The terms of a sum.
#[tactic(auto, unfolding(crate::specs::Renamed::linear_terms_by))]
fn rest_linear_terms<V: BoxView>(
    alloc: Global,
    terms: &[(i64, Term)],
    places: &[u32],
    view: &V,
) -> Result<List<(i64, Term)>, AllocError>
    requires places { ArePlaces (V.shape view.now) (length (V.shape view.now)) places.now }
    requires terms { SumInLimits (length (V.shape view.now)) terms.now }
    ensures { IfOk result (λ renamed. renamed ≡ linear_terms_by (rest_term (V.shape view.now)) terms.now) }
{
    let mut renamed = Vec::with_capacity(alloc, terms.len())?;
    for term in terms {
        renamed.push(rest_linear_term(term, places, view))?;
    }
    Ok(List::from_vec(renamed))
}

/// A task.
fn rest_task<V: BoxView>(task: &CumTask, places: &[u32], view: &V) -> CumTask
    requires places { ArePlaces (V.shape view.now) (length (V.shape view.now)) places.now }
    requires s { TermIn (length (V.shape view.now)) task.now.s }
    requires d { TermIn (length (V.shape view.now)) task.now.d }
    requires r { TermIn (length (V.shape view.now)) task.now.r }
    ensures { result ≡ task_by (rest_term (V.shape view.now)) task.now }
{
    CumTask {
        s: rest_term(task.s, places, view),
        d: rest_term(task.d, places, view),
        r: rest_term(task.r, places, view),
    }
}

/// The tasks of a list.
#[tactic(auto, unfolding(crate::specs::Renamed::tasks_by))]
fn rest_tasks<V: BoxView>(
    alloc: Global,
    tasks: &[CumTask],
    places: &[u32],
    view: &V,
) -> Result<List<CumTask>, AllocError>
    requires places { ArePlaces (V.shape view.now) (length (V.shape view.now)) places.now }
    requires tasks { TasksInLimits (length (V.shape view.now)) tasks.now }
    ensures { IfOk result (λ renamed. renamed ≡ tasks_by (rest_term (V.shape view.now)) tasks.now) }
{
    let mut renamed = Vec::with_capacity(alloc, tasks.len())?;
    for task in tasks {
        renamed.push(rest_task(task, places, view))?;
    }
    Ok(List::from_vec(renamed))
}

/// A base.
fn rest_base<V: BoxView>(
    alloc: Global,
    base: Base,
    places: &[u32],
    view: &V,
) -> Result<Base, AllocError>
    requires places { ArePlaces (V.shape view.now) (length (V.shape view.now)) places.now }
    requires kept { BaseInLimits of_call (length (V.shape view.now)) base }
    ensures { IfOk result (λ renamed. renamed ≡ base_by (rest_term (V.shape view.now)) base) }
{
    match base {
        Base::Lin(lin) => Ok(Base::Lin(Lin {
            rel: lin.rel,
            terms: rest_linear_terms(alloc, lin.terms.as_slice(), places, view)?,
            r: lin.r,
        })),
        Base::Clause(clause) => Ok(Base::Clause(Clause {
            pos: rest_terms(alloc, clause.pos.as_slice(), places, view)?,
            neg: rest_terms(alloc, clause.neg.as_slice(), places, view)?,
        })),
        Base::Member(member) => Ok(Base::Member(Member {
            x: rest_term(member.x, places, view),
            set: member.set,
        })),
    }
}

/// A constraint.
pub(crate) fn rest_con<V: BoxView>(
    alloc: Global,
    con: Con,
    places: &[u32],
    view: &V,
) -> Result<Con, AllocError>
    requires places { ArePlaces (V.shape view.now) (length (V.shape view.now)) places.now }
    requires kept { ConInLimits of_call (length (V.shape view.now)) con }
    ensures { IfOk result (λ renamed. renamed ≡ con_by (rest_term (V.shape view.now)) con) }
{
    let to = |term: Term| rest_term(term, places, view);
    let all = |terms: List<Term>|
        requires places { ArePlaces (V.shape view.now) (length (V.shape view.now)) places.now }
        requires terms { All (TermIn (length (V.shape view.now))) terms }
    { rest_terms(alloc, terms.as_slice(), places, view) };
    match con {
        Con::Base(base) => Ok(Con::Base(rest_base(alloc, base, places, view)?)),
        Con::Reif(base, truth, flag) => {
            let base = rest_base(alloc, base, places, view)?;
            Ok(Con::Reif(base, to(truth), flag))
        }
        Con::Times(a, b, c) => Ok(Con::Times(to(a), to(b), to(c))),
        Con::Abs(a, b) => Ok(Con::Abs(to(a), to(b))),
        Con::Div(a, b, c) => Ok(Con::Div(to(a), to(b), to(c))),
        Con::Mod(a, b, c) => Ok(Con::Mod(to(a), to(b), to(c))),
        Con::Greatest(m, xs) => Ok(Con::Greatest(to(m), all(xs)?)),
        Con::Least(m, xs) => Ok(Con::Least(to(m), all(xs)?)),
        Con::Element(i, xs, c) => Ok(Con::Element(to(i), all(xs)?, to(c))),
        Con::AllDiffExcept(xs, taken) => Ok(Con::AllDiffExcept(all(xs)?, taken)),
        Con::CumulUsed(tasks, used, b) => {
            let tasks = rest_tasks(alloc, tasks.as_slice(), places, view)?;
            Ok(Con::CumulUsed(tasks, used, to(b)))
        }
        Con::Table(xs, rows) => Ok(Con::Table(all(xs)?, rows)),
    }
}
