ghost use Rattle.std.specs.Prelude.{◌≡◌, ◌++◌, [], MatchOption};
ghost use Rattle.std.specs.Iterator.{YieldsFirst, item_count};
ghost use Rattle.rest_key.specs.Words.{words_of};
ghost use Rattle.rest_key.specs.WordsLeft.{field_words};

use crate::few::Few;
use crate::fields::{Fields, con_fields};
use crate::items::{Field, Items, cost, first, one, runs};
use fzn_model::{Con, Rest, Runs};

/// The lists of a residual problem that are still to come.
#[derive(Drop)]
struct Ahead<'a> {
    fields: Fields<'a>,
    doms: &'a [Runs],
    cost: Option<&'a [(i64, u32)]>,
    count: Option<i128>,
    cons: &'a [Con],
    labels: &'a [u32],
}

impl<'a> std::marker::Model for Ahead<'a> {
    ghost use Rattle.std.specs.Prelude.{List, ℤ, ◌++◌};
    ghost use Rattle.rest_key.specs.WordsLeft.{fields_words, cost_left, count_left};
    ghost use Rattle.rest_key.specs.Words.{set_words, con_parts, labelled};
    ghost use Rattle.std.specs.List.{flat_map};

    ghost Value = { List ℤ };

    ghost view = { λ s. fields_words s.fields ++ flat_map set_words s.doms.now ++ cost_left s.cost ++ count_left s.count ++ labelled con_parts s.cons.now s.labels.now };
}

/// The words of a residual problem that are left, in order. It is an iterator that takes no memory; contracts see it as
/// the list of these words.
#[derive(Drop)]
pub struct RestWords<'a> {
    few: Few,
    items: Items<'a>,
    ahead: Ahead<'a>,
}

impl<'a> std::marker::Model for RestWords<'a> {
    ghost use Rattle.std.specs.Prelude.{List, ℤ, ◌++◌};
    ghost use Rattle.rest_key.specs.WordsLeft.{few_words, items_words};

    ghost Value = { List ℤ };

    ghost view = { λ s. few_words s.few ++ items_words s.items ++ s.ahead };
}

/// The words of a residual problem, in order: the number of variables, and for each the number of runs, then low and high
/// of each; the number of cost terms, then coefficient and variable of each; the number of constraints, then for each its
/// label, the number of its kind and its parts. Takes no memory.
#[tactic(auto, unfolding(crate::specs::Words::words_of))]
pub fn words(rest: &Rest) -> RestWords<'_>
    ensures { result ≡ words_of rest.now }
{
    RestWords {
        few: Few::One(rest.doms.as_slice().len() as i128),
        items: Items::Done,
        ahead: Ahead {
            fields: Fields::Done,
            doms: rest.doms.as_slice(),
            cost: Some(rest.cost.as_slice()),
            count: Some(rest.cons.as_slice().len() as i128),
            cons: rest.cons.as_slice(),
            labels: rest.labels.as_slice(),
        },
    }
}

impl<'a> Ahead<'a> {
    /// Takes the first field of what is to come.
    fn take_field(&mut self) -> Option<Field<'a>>
        ensures { MatchOption result ((self.old ≡ []) × (self.new ≡ [])) (λ f. self.old ≡ field_words f ++ self.new) }
    {
        if let Some(field) = self.fields.take() {
            return Some(field);
        }
        if let Some((dom, others)) = self.doms.split_first() {
            self.doms = others;
            return Some(runs(dom.runs.as_slice()));
        }
        if let Some(terms) = self.cost.take() {
            return Some(cost(terms));
        }
        if let Some(count) = self.count.take() {
            return Some(one(count));
        }
        let (con, cons) = self.cons.split_first()?;
        let (label, labels) = self.labels.split_first()?;
        self.cons = cons;
        self.labels = labels;
        let (few, fields) = con_fields(con);
        self.fields = fields;
        Some(Field {
            word: i128::from(*label),
            few,
            items: Items::Done,
        })
    }
}

impl<'a> Iterator for RestWords<'a> {
    type Item = i128;

    ghost next_gives = { YieldsFirst (λ s. s) };

    ghost remaining = { item_count (λ s. s) };

    fn next(&mut self) -> Option<i128> {
        if let Some(word) = self.few.pop() {
            return Some(word);
        }
        let field = match first(self.items) {
            Some(field) => field,
            None => self.ahead.take_field()?,
        };
        self.few = field.few;
        self.items = field.items;
        Some(field.word)
    }
}
