use crate::make;
use fzn_model::{Base, Con, Goal, Lin, Model, Rel, Term};
use std::process::Abort;

/// A constraint of the model, which is a sum.
fn sum_at<'a>(rt: &impl Abort, model: &'a Model, place: usize) -> &'a Lin {
    match model.cons.as_slice().get(place) {
        Some(Con::Base(Base::Lin(sum))) => sum,
        _ => panic!(rt; "no sum at {place}"),
    }
}

fn assert_coefficients(rt: &impl Abort, sum: &Lin, want: &[i64]) {
    let terms = sum.terms.as_slice();
    assert_eq!(rt; terms.len(), want.len());
    for (term, coefficient) in terms.iter().zip(want) {
        assert_eq!(rt; term.0, *coefficient);
    }
}

/// The ends of the domain of a variable, which has no gap.
fn domain_at(rt: &impl Abort, model: &Model, var: usize) -> (i64, i64) {
    let Some(domain) = model.doms.as_slice().get(var) else {
        panic!(rt; "no variable {var}");
    };
    match domain.runs.as_slice() {
        [run] => *run,
        _ => panic!(rt; "variable {var} has a gap"),
    }
}

const WEIGHTS: [i64; 32] = [
    7, 13, 11, 11, 10, 12, 13, 11, 11, 5, 12, 15, 14, 5, 2, 16, 13, 15, 11, 13, 16, 11, 14, 5, 16,
    11, 13, 14, 7, 8, 10, 13,
];

/// The worth of each item, and then the coefficient of what the taken ones are worth.
const VALUES: [i64; 33] = [
    10, 7, 12, 23, 11, 11, 1, 5, 24, 22, 14, 19, 9, 9, 17, 11, 6, 19, 11, 14, 5, 17, 23, 22, 11,
    17, 11, 9, 20, 23, 7, 6, -1,
];

#[test]
fn makes_known_models(rt: HostRuntime) {
    let first = make(rt.alloc(), 1).expect(&rt, "there is memory");
    let limit = sum_at(&rt, &first, 0);
    assert_coefficients(&rt, limit, &WEIGHTS);
    assert_eq!(rt; (limit.rel, limit.r), (Rel::Le, 119));
    let worth = sum_at(&rt, &first, 1);
    assert_coefficients(&rt, worth, &VALUES);
    assert_eq!(rt; (worth.rel, worth.r), (Rel::Eq, 0));
    assert_eq!(rt; first.doms.as_slice().len(), 33);
    assert_eq!(rt; domain_at(&rt, &first, 0), (0, 1));
    assert_eq!(rt; domain_at(&rt, &first, 32), (0, 426));
    assert_eq!(rt; first.goal, Goal::Maximise(Term::Var(32)));

    let last = make(rt.alloc(), u64::MAX).expect(&rt, "there is memory");
    assert_eq!(rt; sum_at(&rt, &last, 0).r, 86);
    assert_eq!(rt; domain_at(&rt, &last, 32), (0, 468));
}
