ghost use Rattle.std.specs.Prelude.{◌≡◌, ◌+◌, ◌*◌, ◌≤◌, All, length};
ghost use Rattle.fzn_model.specs.Values.{largest};
ghost use Rattle.rest_key.specs.Counts.{base_count, con_count, cons_count, domains_count, IsNarrow, IsShortBase, IsShort};
ghost use Rattle.rest_key.specs.Words.{words_of};

use fzn_model::{Base, Con, Rest, Runs};

/// How many runs a set has.
#[tactic(auto, using(crate::proofs::WordCounts::few_runs))]
fn run_count(set: &Runs) -> u64
    requires { IsNarrow set.now }
    ensures value { result ≡ length set.now }
    ensures small { result ≤ largest + 1 }
{
    set.runs.as_slice().len() as u64
}

/// How many words the parts of a base are.
fn base_count(base: &Base) -> u64
    requires { IsShortBase base.now }
    ensures value { result ≡ base_count base.now }
    ensures small { result ≤ 8000002 + 2 * largest }
{
    match base {
        Base::Lin(lin) => 2 + 3 * lin.terms.as_slice().len() as u64,
        Base::Clause(clause) => {
            2 + 2 * clause.pos.as_slice().len() as u64 + 2 * clause.neg.as_slice().len() as u64
        }
        Base::Member(member) => 3 + 2 * run_count(&member.set),
    }
}

/// How many words the number of the kind and the parts of a constraint are.
pub fn con_count(con: &Con) -> u64
    requires { IsShort con.now }
    ensures value { result ≡ con_count con.now }
    ensures small { result ≤ 36000005 + 2 * largest }
{
    match con {
        Con::Base(base) => 1 + base_count(base),
        Con::Reif(base, _, _) => 5 + base_count(base),
        Con::Abs(_, _) => 5,
        Con::Times(_, _, _) | Con::Div(_, _, _) | Con::Mod(_, _, _) => 7,
        Con::Greatest(_, xs) | Con::Least(_, xs) => 4 + 2 * xs.as_slice().len() as u64,
        Con::Element(_, xs, _) => 6 + 2 * xs.as_slice().len() as u64,
        Con::AllDiffExcept(xs, taken) => {
            3 + 2 * xs.as_slice().len() as u64 + taken.as_slice().len() as u64
        }
        Con::CumulUsed(tasks, used, _) => {
            5 + 6 * tasks.as_slice().len() as u64 + 3 * used.as_slice().len() as u64
        }
        Con::Table(xs, rows) => 3 + 2 * xs.as_slice().len() as u64 + rows.as_slice().len() as u64,
    }
}

/// How many words domains are, each the number of its runs, and two for each run.
#[tactic(auto, using(crate::proofs::WordCounts::domains_from, crate::proofs::WordCounts::domains_end))]
pub fn domains_count(domains: &[Runs]) -> u64
    requires few { length domains.now ≤ 100000 }
    requires narrow { All IsNarrow domains.now }
    ensures value { result ≡ domains_count domains.now }
    ensures small { result ≤ 100000 * (2 * largest + 3) }
{
    let mut count = 0;
    for domain in domains {
        count += 1 + 2 * run_count(domain);
    }
    count
}

/// How many words labelled constraints are.
#[tactic(auto, using(crate::proofs::WordCounts::cons_from, crate::proofs::WordCounts::cons_end))]
fn cons_count(cons: &[Con]) -> u64
    requires few { length cons.now ≤ 400000 }
    requires short { All IsShort cons.now }
    ensures value { result ≡ cons_count cons.now }
    ensures small { result ≤ 400000 * (36000006 + 2 * largest) }
{
    let mut count = 0;
    for con in cons {
        count += 1 + con_count(con);
    }
    count
}

/// How many words a residual problem is. It goes over its domains and its constraints, and not over its words.
#[tactic(auto, using(crate::proofs::WordCounts::words_count, crate::proofs::WordCounts::domains_narrow, crate::proofs::WordCounts::cons_short))]
pub fn count(rest: &Rest) -> u64
    ensures { result ≡ length (words_of rest.now) }
{
    3 + domains_count(rest.doms.as_slice())
        + 2 * rest.cost.as_slice().len() as u64
        + cons_count(rest.cons.as_slice())
}
