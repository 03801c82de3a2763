ghost use Rattle.std.specs.Prelude.{◌≡◌, ◌↔◌, IsTrue};

use fzn_model::{Base, Clause, CumTask, Lin, Member, Term};

/// Whether the terms are the same.
#[tactic(auto, using(crate::proofs::EqualParts::terms_decide))]
pub(crate) fn same_terms(terms: &[Term], others: &[Term]) -> bool
    ensures { IsTrue result ↔ (terms.now ≡ others.now) }
{
    terms == others
}

/// Whether the terms of two sums are the same, each with its coefficient.
pub(crate) fn same_linear_terms(terms: &[(i64, Term)], others: &[(i64, Term)]) -> bool
    ensures { IsTrue result ↔ (terms.now ≡ others.now) }
{
    terms == others
}

/// Whether the tasks are the same.
#[tactic(auto, using(crate::proofs::EqualParts::tasks_decide))]
pub(crate) fn same_tasks(tasks: &[CumTask], others: &[CumTask]) -> bool
    ensures { IsTrue result ↔ (tasks.now ≡ others.now) }
{
    tasks == others
}

/// Whether the runs are the same.
fn same_runs(runs: &[(i64, i64)], others: &[(i64, i64)]) -> bool
    ensures { IsTrue result ↔ (runs.now ≡ others.now) }
{
    runs == others
}

/// Whether the terms of two costs are the same.
pub(crate) fn same_cost(cost: &[(i64, u32)], others: &[(i64, u32)]) -> bool
    ensures { IsTrue result ↔ (cost.now ≡ others.now) }
{
    cost == others
}

/// Whether the rows are the same.
pub(crate) fn same_row(row: &[i64], other: &[i64]) -> bool
    ensures { IsTrue result ↔ (row.now ≡ other.now) }
{
    row == other
}

/// Whether the linear relations are the same.
#[tactic(auto, using(crate::proofs::EqualParts::lins_same))]
fn same_lin(lin: &Lin, other: &Lin) -> bool
    ensures { IsTrue result ↔ (lin.now ≡ other.now) }
{
    lin.rel == other.rel
        && same_linear_terms(lin.terms.as_slice(), other.terms.as_slice())
        && lin.r == other.r
}

/// Whether the clauses are the same.
#[tactic(auto, using(crate::proofs::EqualParts::clauses_same))]
fn same_clause(clause: &Clause, other: &Clause) -> bool
    ensures { IsTrue result ↔ (clause.now ≡ other.now) }
{
    same_terms(clause.pos.as_slice(), other.pos.as_slice())
        && same_terms(clause.neg.as_slice(), other.neg.as_slice())
}

/// Whether the members are the same.
#[tactic(auto, using(crate::proofs::EqualParts::members_same))]
fn same_member(member: &Member, other: &Member) -> bool
    ensures { IsTrue result ↔ (member.now ≡ other.now) }
{
    member.x == other.x && same_runs(member.set.runs.as_slice(), other.set.runs.as_slice())
}

/// Whether the bases are the same.
pub(crate) fn same_base(base: &Base, other: &Base) -> bool
    ensures { IsTrue result ↔ (base.now ≡ other.now) }
{
    match (base, other) {
        (Base::Lin(lin), Base::Lin(other)) => same_lin(lin, other),
        (Base::Clause(clause), Base::Clause(other)) => same_clause(clause, other),
        (Base::Member(member), Base::Member(other)) => same_member(member, other),
        _ => false,
    }
}
