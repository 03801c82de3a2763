ghost use Rattle.std.specs.Prelude.{IsTrue, All};
ghost use Rattle.fzn_model.specs.Limits.{IsNear};

// The parts of a search.
mod parts;

use fzn_model::{Model, cost_of, satisfies};
use fzn_parser::parse;
use solver::{Answer, Meter, Options, Outcome, Why, solve};
use std::alloc::{AllocError, Global};
use std::process::Abort;
use std::test::Fail;
use std::thread::Threads;

/// The model that a text states.
fn model_of(alloc: Global, text: &str) -> Result<Model, Fail> {
    match parse(alloc, text.as_bytes()) {
        Ok(model) => Ok(model),
        Err(_) => Err("a text is refused")?,
    }
}

/// The outcome with so many ways, words of a key and nodes, and how many paths the search settled.
fn solved<R: Threads + Abort + Sync>(
    rt: &R,
    alloc: Global,
    model: &Model,
    ways: u32,
    key_words: u32,
    nodes: u64,
) -> Result<(Outcome, u128), Fail> {
    assert!(rt; ways % 8 == 0 && ways <= 1_048_576 && nodes <= 1_000_000_000);
    let options = Options {
        workers: 1,
        ways,
        key_words,
        nodes,
    };
    let mut meter = Meter::new();
    let outcome = solve(rt, alloc, model, &options, &mut meter)?;
    assert_eq!(rt; meter.count(), u128::from(outcome.nodes));
    Ok((outcome, meter.closed()))
}

fn are_near(values: &[i64]) -> bool
    ensures { IsTrue result → All IsNear values.now }
{
    values.iter().all(|value| value.unsigned_abs() <= 2_000_000)
}

/// What a solution costs. Fails where it is none.
fn cost(rt: &impl Abort, model: &Model, values: &[i64]) -> i64 {
    assert!(rt; values.len() == model.doms.as_slice().len());
    assert!(rt; are_near(values));
    assert!(rt; satisfies(model, values));
    cost_of(model, values)
}

/// The verdict of an answer, with what its solution costs where there is a goal. Fails where it isn't a solution.
fn verdict(
    rt: &impl Abort,
    alloc: Global,
    model: &Model,
    answer: &Answer,
) -> Result<String, AllocError> {
    match answer {
        Answer::Unsat => String::from_str(alloc, "unsat"),
        Answer::Sat(values) => {
            assert_eq!(rt; cost(rt, model, values.as_slice()), 0);
            String::from_str(alloc, "sat")
        }
        Answer::Best(values) => {
            let least = cost(rt, model, values.as_slice());
            format!(in alloc; "best {least}")
        }
        Answer::Undecided(_, _) => String::from_str(alloc, "undecided"),
    }
}

/// The text of a model, and its verdict: `unsat`, `sat`, or `best` and the least value, or minus the greatest one.
type Row = (&'static str, &'static str);

#[rattlefmt::skip]
static MODELS: [Row; 30] = [
    // No variable, no constraint, and a domain without values.
    ("solve satisfy;", "sat"),
    ("solve minimize 7;", "best 7"),
    ("var {}: x; solve satisfy;", "unsat"),
    // Sums.
    ("var 0..1: a; var 0..1: b; var 0..1: c; var 0..1: d; var 0..18: z; constraint int_lin_le([2,3,4,5],[a,b,c,d],7); constraint int_lin_eq([3,4,5,6,-1],[a,b,c,d,z],0); solve maximize z;", "best -9"),
    ("var 0..9: x; var 0..9: y; var 0..9: z; constraint int_lin_eq([3,5,-7],[x,y,z],4); constraint int_lin_ne([1,1],[x,y],6); constraint int_lin_ne([1,1,1],[x,y,z],4); solve minimize z;", "best 2"),
    ("var 1..2: x; var 1..2: y; var 1..2: z; constraint int_ne(x,y); constraint int_ne(y,z); constraint int_ne(x,z); solve minimize x;", "unsat"),
    ("var 2..5: z; var 0..3: x; var 0..3: y; constraint int_lt(x,y); solve :: int_search([x,y],first_fail,indomain_max,complete) maximize z;", "best -5"),
    ("var 0..30: x; var 0..30: y; constraint int_lin_eq([7,5],[x,y],151); constraint int_le(x,y); solve :: int_search([x,y],largest,indomain_split,complete) satisfy;", "sat"),
    // Sums of which a Boolean tells whether they hold.
    ("var bool: b; var bool: c; var 0..6: x; var 0..6: y; constraint int_lin_le_reif([1,1],[x,y],4,b); constraint int_lin_eq_reif([1,-1],[x,y],2,c); constraint bool_xor(b,c); solve maximize y;", "best -4"),
    ("var 0..7: x; var 0..7: y; var bool: b; constraint int_lin_ne_reif([1,2],[x,y],11,false); constraint int_le_reif(x,y,b); constraint int_lt_reif(4,y,b); constraint int_eq_reif(x,7,false); solve :: seq_search([bool_search([b],input_order,indomain_max,complete),int_search([x,y],smallest,indomain_split,complete)]) minimize y;", "best 3"),
    ("var bool: p; var bool: q; var bool: r; var bool: s; var 0..4: n; var 0..4: k; constraint bool_eq_reif(p,q,r); constraint bool_lt_reif(p,q,s); constraint bool_le_reif(q,p,r); constraint bool_not(p,s); constraint int_ne_reif(n,2,q); constraint int_le(n,2); constraint int_eq(k,n); solve maximize k;", "best -1"),
    // Booleans.
    ("var bool: a; var bool: b; var bool: c; constraint bool_clause([a,b,c],[]); constraint bool_clause([a,b],[c]); constraint bool_clause([a,c],[b]); constraint bool_clause([a],[b,c]); constraint bool_clause([b,c],[a]); constraint bool_clause([b],[a,c]); constraint bool_clause([c],[a,b]); constraint bool_clause([],[a,b,c]); solve satisfy;", "unsat"),
    ("var bool: a; var bool: b; var bool: c; var bool: d; var 0..1: i; var 0..4: z; constraint bool_and(a,b,c); constraint bool_or(c,d,false); constraint array_bool_and([a,c,d],false); constraint array_bool_or([a,b,d],true); constraint bool_clause_reif([a],[b],d); constraint bool2int(a,i); constraint int_lin_eq([4,-1],[i,z],0); solve minimize z;", "best 0"),
    ("var bool: a; var bool: b; var bool: c; var bool: d; constraint bool_eq(a,b); constraint bool_lt(c,a); constraint bool_le(b,d); constraint bool_xor(a,c,d); solve :: bool_search([d,c,b,a],input_order,indomain_min,complete) satisfy;", "sat"),
    // Sets.
    ("var -5..9: x; var -5..9: y; var bool: b; constraint set_in(x,{-4,0,3,8}); constraint set_in_reif(y,2..5,b); constraint set_in_reif(x,{-4,3},b); constraint int_lin_le([-1,-1],[x,y],-9); solve :: int_search([y,x],input_order,indomain_max,complete) minimize y;", "best 1"),
    // Products, quotients, remainders, sizes.
    ("var -3..3: a; var -3..3: b; var -9..9: c; constraint int_times(a,b,c); constraint int_lt(a,b); constraint int_lin_ne([1,1],[a,b],0); solve minimize c;", "best -6"),
    ("var -9..9: x; var 0..81: y; constraint int_times(x,x,y); constraint int_lin_eq([1,-2],[y,x],2); solve satisfy;", "unsat"),
    ("var -6..6: x; var 0..6: y; constraint int_abs(x,y); constraint int_lin_le([2,1],[x,y],-3); solve maximize x;", "best 3"),
    ("var -7..7: a; var -2..2: b; var -7..7: c; constraint int_div(a,b,c); constraint int_plus(a,b,-5); solve maximize c;", "best -4"),
    ("var -7..7: a; var -3..3: b; var -4..4: c; constraint int_mod(a,b,c); constraint int_lt(c,0); constraint int_lin_le([1,1],[a,b],-9); solve minimize a;", "best -7"),
    ("var 0..9: a; var 0..0: b; var 0..9: c; constraint int_div(a,b,c); solve minimize c;", "unsat"),
    // Greatest and least.
    ("var 0..5: a; var 0..5: b; var 0..5: m; var 0..5: n; constraint int_max(a,b,m); constraint int_min(a,b,n); constraint int_lin_eq([1,-1],[m,n],3); constraint int_lt(b,a); solve :: int_search([b,a],input_order,indomain_split,complete) minimize m;", "best 3"),
    ("var -2..2: a; var -2..2: b; var -2..2: c; var -2..2: m; var -2..0: n; constraint array_int_maximum(m,[a,b,c]); constraint array_int_minimum(n,[a,b,c]); constraint int_lin_eq([1,1,1,1],[a,b,c,n],1); solve minimize m;", "best 1"),
    // Members of lists.
    ("var 0..6: i; var 0..6: j; var -3..9: c; constraint array_int_element(i,[5,-3,7,9,0],c); constraint array_var_int_element(j,[c,i,4,j],i); constraint int_ne(i,j); solve maximize c;", "best -9"),
    ("var 1..4: i; var 1..4: j; var bool: p; var bool: q; constraint array_bool_element(i,[true,false,false,true],p); constraint array_var_bool_element(j,[q,p,true,p],q); constraint int_lin_eq([1,2],[i,j],8); constraint bool_not(p,q); solve satisfy;", "sat"),
    // Different values.
    ("var 1..5: a; var 1..5: b; var 1..5: c; var 1..5: d; constraint all_different_int([a,b,c,d]); constraint int_lin_eq([1,1,1,-1],[a,b,c,d],2); solve maximize a;", "best -4"),
    ("var 1..3: a; var 1..3: b; var 1..3: c; var 1..3: d; constraint fzn_all_different_int([a,b,c,d]); solve maximize d;", "unsat"),
    // Tasks that share a machine.
    ("var 0..4: a; var 0..4: b; var 0..4: c; var 0..9: e; constraint cumulative([a,b,c],[2,3,1],[1,1,2],2); constraint int_lin_le([1,-1],[a,e],-2); constraint int_lin_le([1,-1],[b,e],-3); constraint int_lin_le([1,-1],[c,e],-1); solve :: int_search([a,b,c],smallest,indomain_min,complete) minimize e;", "best 4"),
    ("var 0..2: a; var 0..2: b; var 1..3: d; var 1..2: r; var 0..4: h; constraint fzn_cumulative([a,b,1],[2,d,1],[1,2,r],h); constraint int_lin_eq([1,1],[d,r],4); solve minimize h;", "best 2"),
    // Rows of a table.
    ("var 0..9: x; var 0..9: y; var 0..9: z; constraint fzn_table_int([x,y,z],[1,2,3,4,0,4,4,9,1,7,7,7,2,8,0]); constraint int_ne(x,z); constraint int_le(x,y); solve minimize z;", "best 0"),
];

/// Listing all assignments gave the verdicts. The cache has none, few or many ways, and takes short keys or long ones too.
#[test]
fn models_have_their_verdicts(rt: HostRuntime) -> Result<(), Fail> {
    for (text, expected) in &MODELS {
        let model = model_of(rt.alloc(), text)?;
        for (ways, key_words) in [
            (0, 16),
            (0, 512),
            (8, 16),
            (8, 512),
            (65_536, 16),
            (65_536, 512),
        ] {
            let (outcome, _) = solved(&rt, rt.alloc(), &model, ways, key_words, 1_000_000_000)?;
            let found = verdict(&rt, rt.alloc(), &model, &outcome.answer)?;
            assert_eq!(rt; found.as_str(), *expected, "{ways} {key_words} {text}");
        }
    }
    Ok(())
}

/// Two variables with different values. One expansion settles both sides.
const PAIR: &str =
    "var 1..2: x :: output_var; var 1..2: y :: output_var; constraint int_ne(x,y); solve minimize x;";

#[test]
fn a_budget_is_spent_exactly(rt: HostRuntime) -> Result<(), Fail> {
    let model = model_of(rt.alloc(), PAIR)?;
    let (outcome, closed) = solved(&rt, rt.alloc(), &model, 0, 16, 0)?;
    assert!(rt; matches!(&outcome.answer, Answer::Undecided(None, Why::Budget)));
    assert_eq!(rt; (outcome.nodes, closed), (0, 0));
    let (outcome, closed) = solved(&rt, rt.alloc(), &model, 0, 16, 1)?;
    assert!(rt;
        matches!(&outcome.answer, Answer::Best(values) if values.as_slice() == [1, 2].as_slice())
    );
    assert_eq!(rt; (outcome.nodes, closed), (1, 1));
    Ok(())
}

/// Twice the number of ones would be 13. What is left of it depends only on how many of the first are one.
const HALVES: &str =
    "var 0..1: a; var 0..1: b; var 0..1: c; var 0..1: d; var 0..1: e; var 0..1: f; var 0..1: g; var 0..1: h; var 0..1: i; var 0..1: j; var 0..1: k; var 0..1: l; array [1..12] of var int: all = [a,b,c,d,e,f,g,h,i,j,k,l]; constraint int_lin_le([2,2,2,2,2,2,2,2,2,2,2,2],all,13); constraint int_lin_le([-2,-2,-2,-2,-2,-2,-2,-2,-2,-2,-2,-2],all,-13); solve satisfy;";

/// With a cache the search has fewer nodes, and the same verdict.
#[test]
fn the_cache_hits(rt: HostRuntime) -> Result<(), Fail> {
    let model = model_of(rt.alloc(), HALVES)?;
    let (plain, _) = solved(&rt, rt.alloc(), &model, 0, 512, 1_000_000_000)?;
    let (cached, _) = solved(&rt, rt.alloc(), &model, 65_536, 512, 1_000_000_000)?;
    assert!(rt;
        plain.hits == 0 && cached.hits > 0 && cached.nodes < plain.nodes,
        "{plain:?} {cached:?}"
    );
    assert!(rt; matches!(&plain.answer, Answer::Unsat) && matches!(&cached.answer, Answer::Unsat));
    assert!(rt;
        plain.stores == 0 && cached.stores > 0 && plain.gone == 0 && cached.gone == 0,
        "{plain:?} {cached:?}"
    );
    Ok(())
}

/// As many Booleans, with no constraint.
fn unbound(alloc: Global, count: u32) -> Result<String, AllocError> {
    let mut text = String::new(alloc);
    for number in 0..count {
        text.push_str(format!(in alloc; "var bool: x{number}; ")?.as_str())?;
    }
    text.push_str("solve satisfy;")?;
    Ok(text)
}

/// The first solution is as deep as there are variables.
#[test]
fn deep_searches_end(rt: HostRuntime) -> Result<(), Fail> {
    let text = unbound(rt.alloc(), 400)?;
    let model = model_of(rt.alloc(), text.as_str())?;
    let (outcome, closed) = solved(&rt, rt.alloc(), &model, 0, 16, 1_000_000_000)?;
    assert!(rt; matches!(&outcome.answer, Answer::Sat(_)));
    assert_eq!(rt; (outcome.nodes, closed), (400, 1));
    Ok(())
}
