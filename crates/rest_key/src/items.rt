ghost use Rattle.std.specs.Prelude.{◌≡◌, ◌++◌, ◌∷◌, [], MatchOption, pos};
ghost use Rattle.rest_key.specs.Words.{list_words, number_words, term_words, run_words, linear_term_words, task_words, used_words, cost_words};
ghost use Rattle.fzn_model.specs.Meaning.{bit};
ghost use Rattle.rest_key.specs.WordsLeft.{few_words, items_words, field_words};

use crate::few::{Few, of_three, pair};
use fzn_model::{CumTask, Term, Used};

/// The members that are left of a list.
#[derive(Clone, Copy)]
pub(crate) enum Items<'a> {
    Done,
    Runs(&'a [(i64, i64)]),
    LinearTerms(&'a [(i64, Term)]),
    Terms(&'a [Term]),
    Numbers(&'a [i64]),
    Tasks(&'a [CumTask]),
    Used(&'a [Used]),
    Cost(&'a [(i64, u32)]),
}

/// Some words, the first by itself, and then the members of a list.
#[derive(Clone, Copy)]
pub(crate) struct Field<'a> {
    pub(crate) word: i128,
    pub(crate) few: Few,
    pub(crate) items: Items<'a>,
}

/// The words of the first member, and the others.
pub(crate) fn first<'a>(items: Items<'a>) -> Option<Field<'a>>
    ensures { MatchOption result (items_words items.entry ≡ []) (λ f. field_words f ≡ items_words items.entry) }
{
    match items {
        Items::Done => None,
        Items::Runs(runs) => {
            let (run, others) = runs.split_first()?;
            Some(Field {
                word: i128::from(run.0),
                few: Few::One(i128::from(run.1)),
                items: Items::Runs(others),
            })
        }
        Items::LinearTerms(terms) => {
            let (term, others) = terms.split_first()?;
            let (second, third) = pair(term.1);
            Some(Field {
                word: i128::from(term.0),
                few: Few::Two(second, third),
                items: Items::LinearTerms(others),
            })
        }
        Items::Terms(terms) => {
            let (term, others) = terms.split_first()?;
            let (word, second) = pair(*term);
            Some(Field {
                word,
                few: Few::One(second),
                items: Items::Terms(others),
            })
        }
        Items::Numbers(numbers) => {
            let (number, others) = numbers.split_first()?;
            Some(Field {
                word: i128::from(*number),
                few: Few::Zero,
                items: Items::Numbers(others),
            })
        }
        Items::Tasks(tasks) => {
            let (task, others) = tasks.split_first()?;
            let (word, few) = of_three(task.s, task.d, task.r);
            Some(Field {
                word,
                few,
                items: Items::Tasks(others),
            })
        }
        Items::Used(used) => {
            let (amount, others) = used.split_first()?;
            Some(Field {
                word: i128::from(amount.from),
                few: Few::Two(i128::from(amount.to), amount.amount),
                items: Items::Used(others),
            })
        }
        Items::Cost(cost) => {
            let (term, others) = cost.split_first()?;
            Some(Field {
                word: i128::from(term.0),
                few: Few::One(i128::from(term.1)),
                items: Items::Cost(others),
            })
        }
    }
}

/// Words that are ready, and no list.
fn ready<'a>(word: i128, few: Few) -> Field<'a>
    ensures { field_words result ≡ word ∷ few_words few }
{
    Field {
        word,
        few,
        items: Items::Done,
    }
}

/// A list: its length and its members.
fn listed<'a>(count: usize, items: Items<'a>) -> Field<'a>
    ensures { field_words result ≡ pos count ∷ items_words items.entry }
{
    Field {
        word: count as i128,
        few: Few::Zero,
        items,
    }
}

/// One word.
pub(crate) fn one<'a>(word: i128) -> Field<'a>
    ensures { field_words result ≡ word ∷ [] }
{
    ready(word, Few::Zero)
}

/// A term.
pub(crate) fn term<'a>(term: Term) -> Field<'a>
    ensures { field_words result ≡ term_words term }
{
    let (word, second) = pair(term);
    ready(word, Few::One(second))
}

/// A term and a flag.
pub(crate) fn term_and_flag<'a>(term: Term, flag: bool) -> Field<'a>
    ensures { field_words result ≡ term_words term ++ bit flag ∷ [] }
{
    let (word, second) = pair(term);
    ready(word, Few::Two(second, i128::from(flag)))
}

/// Three terms.
pub(crate) fn three<'a>(first: Term, second: Term, third: Term) -> Field<'a>
    ensures { field_words result ≡ term_words first ++ term_words second ++ term_words third }
{
    let (word, few) = of_three(first, second, third);
    ready(word, few)
}

/// A set.
pub(crate) fn runs(runs: &[(i64, i64)]) -> Field<'_>
    ensures { field_words result ≡ list_words run_words runs.now }
{
    listed(runs.len(), Items::Runs(runs))
}

/// The terms of a sum, each with its coefficient.
pub(crate) fn linear_terms(terms: &[(i64, Term)]) -> Field<'_>
    ensures { field_words result ≡ list_words linear_term_words terms.now }
{
    listed(terms.len(), Items::LinearTerms(terms))
}

/// A list of terms.
pub(crate) fn terms(terms: &[Term]) -> Field<'_>
    ensures { field_words result ≡ list_words term_words terms.now }
{
    listed(terms.len(), Items::Terms(terms))
}

/// A list of numbers.
pub(crate) fn numbers(numbers: &[i64]) -> Field<'_>
    ensures { field_words result ≡ list_words number_words numbers.now }
{
    listed(numbers.len(), Items::Numbers(numbers))
}

/// A list of tasks.
pub(crate) fn tasks(tasks: &[CumTask]) -> Field<'_>
    ensures { field_words result ≡ list_words task_words tasks.now }
{
    listed(tasks.len(), Items::Tasks(tasks))
}

/// A list of used amounts.
pub(crate) fn used(used: &[Used]) -> Field<'_>
    ensures { field_words result ≡ list_words used_words used.now }
{
    listed(used.len(), Items::Used(used))
}

/// The terms of a cost.
pub(crate) fn cost(cost: &[(i64, u32)]) -> Field<'_>
    ensures { field_words result ≡ list_words cost_words cost.now }
{
    listed(cost.len(), Items::Cost(cost))
}
