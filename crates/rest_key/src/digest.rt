//! Digests of a residual problem, folded over the slices of its parts.

ghost use Rattle.std.specs.Prelude.{◌≡◌, List, ℤ, ◌*◌, ◌%◌, ◌^◌, ◌++◌, ◌∷◌, [], bit_xor, fold, pos, length};
ghost use Rattle.fzn_model.specs.Meaning.{bit};
ghost use Rattle.std.specs.List.{flat_map};
ghost use Rattle.rest_key.specs.Words.{words_of, far_words, list_words, number_words, run_words, set_words, term_words, linear_term_words, task_words, used_words, cost_words, rel_number, base_number, kind_number, base_parts, con_parts, far_parts, far_lin, far_base, far_capacity, labelled};
ghost use Rattle.rest_key.specs.WordsLeft.{detail_parts};
ghost use Rattle.rest_key.specs.Digest.{digest_of, low_bits, mixed};

use fzn_model::{Base, Con, CumTask, Lin, Rel, Rest, Runs, Term, Used};

/// Which parts of a constraint are digested: all, or those that the far digest takes.
#[derive(Clone, Copy)]
enum Detail {
    All,
    Far,
}

/// The low 64 bits of a word of 64 bits.
#[tactic(auto, using(crate::proofs::LowBits::of_short))]
fn short_bits(word: &i64) -> u64
    ensures { result ≡ low_bits word.now }
{
    word.cast_unsigned()
}

/// The low 64 bits of a word of 128 bits.
#[tactic(auto, using(crate::proofs::LowBits::of_long))]
fn long_bits(word: &i128) -> u64
    ensures { result ≡ low_bits word.now }
{
    (word.cast_unsigned() % (1 << 64)) as u64
}

/// The low 64 bits of a number that isn't negative.
#[tactic(auto, using(crate::proofs::LowBits::of_number))]
fn number_bits(number: u64) -> u64
    ensures { result ≡ low_bits (pos number) }
{
    number
}

/// The digest with the low 64 bits of one word more.
fn mixed_bits(digest: u64, bits: u64) -> u64
    ensures { result ≡ (bit_xor digest bits * 1099511628211) % 2 ^ 64 }
{
    (digest ^ bits).wrapping_mul(1_099_511_628_211)
}

/// The digest with one word more.
#[tactic(auto, unfolding(crate::specs::Digest::mixed))]
fn mixed(digest: u64, word: &i64) -> u64
    ensures { result ≡ mixed digest word.now }
{
    mixed_bits(digest, short_bits(word))
}

/// The digest with one word of 128 bits more.
#[tactic(auto, unfolding(crate::specs::Digest::mixed))]
fn mixed_long(digest: u64, word: &i128) -> u64
    ensures { result ≡ mixed digest word.now }
{
    mixed_bits(digest, long_bits(word))
}

/// The digest with one word more that isn't negative.
#[tactic(auto, unfolding(crate::specs::Digest::mixed))]
fn mixed_number(digest: u64, number: u64) -> u64
    ensures { result ≡ mixed digest (pos number) }
{
    mixed_bits(digest, number_bits(number))
}

/// What a digest takes word by word.
trait HasWords {
    /// Its words.
    ghost words: { Self → List ℤ };

    /// The digest with it more.
    fn mixed_into(&self, digest: u64) -> u64
        ensures { result ≡ fold mixed digest (words self.now) };
}

/// The digest with a list more: how many members it has, and each of them.
fn mixed_list<W: HasWords>(digest: u64, list: &[W]) -> u64
    ensures { result ≡ fold mixed digest (list_words W.words list.now) }
{
    let mut digest = mixed_number(digest, list.len() as u64);
    for member in list {
        digest = member.mixed_into(digest);
    }
    digest
}

impl HasWords for Term {
    ghost words = { term_words };

    fn mixed_into(&self, digest: u64) -> u64 {
        match self {
            Term::Const(value) => mixed(mixed_number(digest, 0), value),
            Term::Var(var) => mixed_number(mixed_number(digest, 1), u64::from(*var)),
        }
    }
}

/// A number of a list.
impl HasWords for i64 {
    ghost words = { number_words };

    fn mixed_into(&self, digest: u64) -> u64 {
        mixed(digest, self)
    }
}

/// A run.
impl HasWords for (i64, i64) {
    ghost words = { run_words };

    fn mixed_into(&self, digest: u64) -> u64 {
        mixed(mixed(digest, &self.0), &self.1)
    }
}

impl HasWords for Runs {
    ghost words = { set_words };

    fn mixed_into(&self, digest: u64) -> u64 {
        mixed_list(digest, self.runs.as_slice())
    }
}

/// A coefficient and its term.
impl HasWords for (i64, Term) {
    ghost words = { linear_term_words };

    fn mixed_into(&self, digest: u64) -> u64 {
        self.1.mixed_into(mixed(digest, &self.0))
    }
}

/// The digest with three terms more.
fn mixed_three(digest: u64, first: &Term, second: &Term, third: &Term) -> u64
    ensures { result ≡ fold mixed digest (term_words first.now ++ term_words second.now ++ term_words third.now) }
{
    third.mixed_into(second.mixed_into(first.mixed_into(digest)))
}

impl HasWords for CumTask {
    ghost words = { task_words };

    fn mixed_into(&self, digest: u64) -> u64 {
        mixed_three(digest, &self.s, &self.d, &self.r)
    }
}

impl HasWords for Used {
    ghost words = { used_words };

    fn mixed_into(&self, digest: u64) -> u64 {
        mixed_long(mixed(mixed(digest, &self.from), &self.to), &self.amount)
    }
}

/// A term of a cost.
impl HasWords for (i64, u32) {
    ghost words = { cost_words };

    fn mixed_into(&self, digest: u64) -> u64 {
        mixed_number(mixed(digest, &self.0), u64::from(self.1))
    }
}

/// The number of a relation.
fn rel_number(rel: Rel) -> u64
    ensures { pos result ≡ rel_number rel }
{
    match rel {
        Rel::Le => 1,
        Rel::Eq => 2,
        Rel::Ne => 3,
    }
}

/// The number of the kind of a base.
fn base_number(base: &Base) -> u64
    ensures { pos result ≡ base_number base.now }
{
    match base {
        Base::Lin(lin) => rel_number(lin.rel),
        Base::Clause(_) => 4,
        Base::Member(_) => 5,
    }
}

/// The number of the kind of a constraint.
fn kind_number(con: &Con) -> u64
    ensures { pos result ≡ kind_number con.now }
{
    match con {
        Con::Base(base) => base_number(base),
        Con::Reif(_, _, _) => 6,
        Con::Times(_, _, _) => 7,
        Con::Abs(_, _) => 8,
        Con::Div(_, _, _) => 9,
        Con::Mod(_, _, _) => 10,
        Con::Greatest(_, _) => 11,
        Con::Least(_, _) => 12,
        Con::Element(_, _, _) => 13,
        Con::AllDiffExcept(_, _) => 14,
        Con::CumulUsed(_, _, _) => 15,
        Con::Table(_, _) => 16,
    }
}

/// The digest with the parts of a base more.
fn mixed_base(digest: u64, base: &Base) -> u64
    ensures { result ≡ fold mixed digest (base_parts base.now) }
{
    match base {
        Base::Lin(lin) => mixed_long(mixed_list(digest, lin.terms.as_slice()), &lin.r),
        Base::Clause(clause) => {
            mixed_list(
                mixed_list(digest, clause.pos.as_slice()),
                clause.neg.as_slice(),
            )
        }
        Base::Member(member) => member.set.mixed_into(member.x.mixed_into(digest)),
    }
}

/// The digest with the parts of a reified base more.
fn mixed_reified(digest: u64, base: &Base, truth: &Term, flag: bool) -> u64
    ensures { result ≡ fold mixed digest (base_number base.now ∷ base_parts base.now ++ term_words truth.now ++ bit flag ∷ []) }
{
    let digest = mixed_base(mixed_number(digest, base_number(base)), base);
    mixed_number(truth.mixed_into(digest), u64::from(flag))
}

/// The digest with a term and a list of terms more.
fn mixed_term_and_terms(digest: u64, term: &Term, terms: &[Term]) -> u64
    ensures { result ≡ fold mixed digest (term_words term.now ++ list_words term_words terms.now) }
{
    mixed_list(term.mixed_into(digest), terms)
}

/// The digest with all parts of a constraint more.
fn mixed_parts(digest: u64, con: &Con) -> u64
    ensures { result ≡ fold mixed digest (con_parts con.now) }
{
    match con {
        Con::Base(base) => mixed_base(digest, base),
        Con::Reif(base, truth, flag) => mixed_reified(digest, base, truth, *flag),
        Con::Times(a, b, c) | Con::Div(a, b, c) | Con::Mod(a, b, c) => mixed_three(digest, a, b, c),
        Con::Abs(a, b) => b.mixed_into(a.mixed_into(digest)),
        Con::Greatest(m, xs) | Con::Least(m, xs) => {
            mixed_term_and_terms(digest, m, xs.as_slice())
        }
        Con::Element(index, xs, c) => {
            c.mixed_into(mixed_term_and_terms(digest, index, xs.as_slice()))
        }
        Con::AllDiffExcept(xs, taken) => {
            mixed_list(mixed_list(digest, xs.as_slice()), taken.as_slice())
        }
        Con::CumulUsed(tasks, used, capacity) => {
            let digest = mixed_list(mixed_list(digest, tasks.as_slice()), used.as_slice());
            capacity.mixed_into(digest)
        }
        Con::Table(xs, rows) => mixed_list(mixed_list(digest, xs.as_slice()), rows.as_slice()),
    }
}

/// The digest with what the far digest takes of a linear relation more.
fn mixed_far_lin(digest: u64, lin: &Lin) -> u64
    ensures { result ≡ fold mixed digest (far_lin lin.now.rel lin.now) }
{
    let sum = mixed_list(digest, lin.terms.as_slice());
    match lin.rel {
        Rel::Le => sum,
        Rel::Eq | Rel::Ne => mixed_long(sum, &lin.r),
    }
}

/// The digest with what the far digest takes of a base more, as a constraint of its own.
fn mixed_far_base(digest: u64, base: &Base) -> u64
    ensures { result ≡ fold mixed digest (far_base base.now) }
{
    match base {
        Base::Lin(lin) => mixed_far_lin(digest, lin),
        Base::Clause(_) => digest,
        Base::Member(member) => member.x.mixed_into(digest),
    }
}

/// The digest with a capacity more, where it is a variable.
fn mixed_capacity(digest: u64, capacity: &Term) -> u64
    ensures { result ≡ fold mixed digest (far_capacity capacity.now) }
{
    match capacity {
        Term::Const(_) => digest,
        Term::Var(_) => capacity.mixed_into(digest),
    }
}

/// The digest with those parts of a constraint more that the far digest takes.
fn mixed_far_parts(digest: u64, con: &Con) -> u64
    ensures { result ≡ fold mixed digest (far_parts con.now) }
{
    match con {
        Con::Base(base) => mixed_far_base(digest, base),
        Con::AllDiffExcept(xs, _) => mixed_list(digest, xs.as_slice()),
        Con::CumulUsed(tasks, _, capacity) => {
            mixed_capacity(mixed_list(digest, tasks.as_slice()), capacity)
        }
        Con::Table(xs, _) => mixed_list(digest, xs.as_slice()),
        Con::Reif(_, _, _)
        | Con::Times(_, _, _)
        | Con::Abs(_, _)
        | Con::Div(_, _, _)
        | Con::Mod(_, _, _)
        | Con::Greatest(_, _)
        | Con::Least(_, _)
        | Con::Element(_, _, _) => mixed_parts(digest, con),
    }
}

/// The digest with the parts of a constraint in this detail more.
fn mixed_detail(digest: u64, con: &Con, detail: Detail) -> u64
    ensures { result ≡ fold mixed digest (detail_parts detail con.now) }
{
    match detail {
        Detail::All => mixed_parts(digest, con),
        Detail::Far => mixed_far_parts(digest, con),
    }
}

/// The digest with a label and its constraint in this detail more.
fn mixed_labelled(digest: u64, label: u32, con: &Con, detail: Detail) -> u64
    ensures { result ≡ fold mixed digest (pos label ∷ kind_number con.now ∷ detail_parts detail con.now) }
{
    let digest = mixed_number(mixed_number(digest, u64::from(label)), kind_number(con));
    mixed_detail(digest, con, detail)
}

/// The digest with labelled constraints in this detail more.
#[tactic(auto, using(crate::proofs::LowBits::labelled_from, crate::proofs::LowBits::labelled_end))]
fn mixed_constraints(digest: u64, cons: &[Con], labels: &[u32], detail: Detail) -> u64
    requires { length labels.now ≡ length cons.now }
    ensures { result ≡ fold mixed digest (labelled (detail_parts detail) cons.now labels.now) }
{
    let mut digest = digest;
    for (at, con) in cons.iter().enumerate() {
        digest = mixed_labelled(digest, labels[at], con, detail);
    }
    digest
}

/// The digest with the cost, the number of constraints, and these in this detail more.
fn mixed_rest(digest: u64, rest: &Rest, detail: Detail) -> u64
    ensures { result ≡ fold mixed digest (list_words cost_words rest.now.cost ++ pos (length rest.now.cons) ∷ labelled (detail_parts detail) rest.now.cons rest.now.labels) }
{
    let cons = rest.cons.as_slice();
    let digest = mixed_list(digest, rest.cost.as_slice());
    let digest = mixed_number(digest, cons.len() as u64);
    mixed_constraints(digest, cons, rest.labels.as_slice(), detail)
}

/// The digest of no words.
const NO_WORDS: u64 = 14_695_981_039_346_656_037;

/// The digest of all words: a residual problem with the same words has the same. Takes no memory; a step a word.
#[tactic(auto, unfolding(crate::specs::Digest::digest_of, crate::specs::Words::words_of))]
pub fn near(rest: &Rest) -> u64
    ensures { result ≡ digest_of (words_of rest.now) }
{
    let digest = mixed_list(NO_WORDS, rest.doms.as_slice());
    mixed_rest(digest, rest, Detail::All)
}

/// The digest of all words but the domains, the number of each linear relation Le, the literals of each clause, the set of
/// each member, and all taken values, used amounts, constant capacities and rows. Two residual problems of which the one
/// dominates the other mostly have the same, but need not: labels and the number of constraints are digested, and the one
/// that dominates may have fewer constraints. Takes no memory; a step a word.
#[tactic(auto, unfolding(crate::specs::Digest::digest_of, crate::specs::Words::far_words))]
pub fn far(rest: &Rest) -> u64
    ensures { result ≡ digest_of (far_words rest.now) }
{
    let digest = mixed_number(NO_WORDS, rest.doms.as_slice().len() as u64);
    mixed_rest(digest, rest, Detail::Far)
}
