ghost use Rattle.std.specs.Prelude.{◌≡◌, ◌++◌, ◌∷◌, [], MatchOption};
ghost use Rattle.rest_key.specs.Words.{rel_number, base_number, kind_number, base_parts, con_parts};
ghost use Rattle.rest_key.specs.WordsLeft.{few_words, field_words, fields_words};

use crate::few::Few;
use crate::items::{
    Field, linear_terms, numbers, one, runs, tasks, term, term_and_flag, terms, three, used,
};
use fzn_model::{Base, Con, Rel};

/// Up to three fields.
#[derive(Clone, Copy)]
pub(crate) enum Fields<'a> {
    Done,
    One(Field<'a>),
    Two(Field<'a>, Field<'a>),
    Three(Field<'a>, Field<'a>, Field<'a>),
}

impl<'a> Fields<'a> {
    /// Takes the first of the fields.
    pub(crate) fn take(&mut self) -> Option<Field<'a>>
        ensures { MatchOption result ((fields_words self.old ≡ []) × (fields_words self.new ≡ [])) (λ f. fields_words self.old ≡ field_words f ++ fields_words self.new) }
    {
        match *self {
            Fields::Done => None,
            Fields::One(a) => {
                *self = Fields::Done;
                Some(a)
            }
            Fields::Two(a, b) => {
                *self = Fields::One(b);
                Some(a)
            }
            Fields::Three(a, b, c) => {
                *self = Fields::Two(b, c);
                Some(a)
            }
        }
    }
}

/// The number of a relation.
fn rel_number(rel: Rel) -> i128
    ensures { result ≡ rel_number rel }
{
    match rel {
        Rel::Le => 1,
        Rel::Eq => 2,
        Rel::Ne => 3,
    }
}

/// The number of the kind of a base.
fn base_number(base: &Base) -> i128
    ensures { result ≡ base_number base.now }
{
    match base {
        Base::Lin(lin) => rel_number(lin.rel),
        Base::Clause(_) => 4,
        Base::Member(_) => 5,
    }
}

/// The parts of a base.
fn base_fields(base: &Base) -> (Field<'_>, Field<'_>)
    ensures { field_words result.0 ++ field_words result.1 ≡ base_parts base.now }
{
    match base {
        Base::Lin(lin) => (linear_terms(lin.terms.as_slice()), one(lin.r)),
        Base::Clause(clause) => (terms(clause.pos.as_slice()), terms(clause.neg.as_slice())),
        Base::Member(member) => (term(member.x), runs(member.set.runs.as_slice())),
    }
}

/// The number of the kind and the parts of a constraint.
pub(crate) fn con_fields(con: &Con) -> (Few, Fields<'_>)
    ensures { few_words result.0 ++ fields_words result.1 ≡ kind_number con.now ∷ con_parts con.now }
{
    match con {
        Con::Base(base) => {
            let (first, second) = base_fields(base);
            (Few::One(base_number(base)), Fields::Two(first, second))
        }
        Con::Reif(base, truth, flag) => {
            let (first, second) = base_fields(base);
            (
                Few::Two(6, base_number(base)),
                Fields::Three(first, second, term_and_flag(*truth, *flag)),
            )
        }
        Con::Times(a, b, c) => (Few::One(7), Fields::One(three(*a, *b, *c))),
        Con::Abs(a, b) => (Few::One(8), Fields::Two(term(*a), term(*b))),
        Con::Div(a, b, c) => (Few::One(9), Fields::One(three(*a, *b, *c))),
        Con::Mod(a, b, c) => (Few::One(10), Fields::One(three(*a, *b, *c))),
        Con::Greatest(m, xs) => (Few::One(11), Fields::Two(term(*m), terms(xs.as_slice()))),
        Con::Least(m, xs) => (Few::One(12), Fields::Two(term(*m), terms(xs.as_slice()))),
        Con::Element(index, xs, c) => (
            Few::One(13),
            Fields::Three(term(*index), terms(xs.as_slice()), term(*c)),
        ),
        Con::AllDiffExcept(xs, taken) => (
            Few::One(14),
            Fields::Two(terms(xs.as_slice()), numbers(taken.as_slice())),
        ),
        Con::CumulUsed(list, amounts, capacity) => (
            Few::One(15),
            Fields::Three(
                tasks(list.as_slice()),
                used(amounts.as_slice()),
                term(*capacity),
            ),
        ),
        Con::Table(xs, rows) => (
            Few::One(16),
            Fields::Two(terms(xs.as_slice()), numbers(rows.as_slice())),
        ),
    }
}
