use crate::{Domain, LARGEST_VALUE, Narrow};
use std::process::Abort;

/// A narrowing, with its number.
#[derive(Clone, Copy, Debug)]
enum Step {
    Below(i64),
    Above(i64),
    Fix(i64),
    Drop(i64),
}

/// What a step answers, and the low bound, the high bound and the size after it.
type Outcome = (Narrow, i64, i64, u64);

fn interval(rt: &impl Abort, low: i64, high: i64) -> Domain {
    assert!(rt; -LARGEST_VALUE <= low && low <= high && high <= LARGEST_VALUE);
    Domain::from_runs(&[(low, high)]).expect(rt, "there is a run")
}

fn narrowed(domain: &mut Domain, step: Step) -> Narrow {
    match step {
        Step::Below(low) => domain.cut_below(low),
        Step::Above(high) => domain.cut_above(high),
        Step::Fix(value) => domain.fix(value),
        Step::Drop(value) => domain.drop_value(value),
    }
}

fn follow(rt: &impl Abort, domain: &mut Domain, steps: &[(Step, Outcome)]) {
    for (step, outcome) in steps {
        let answer = narrowed(domain, *step);
        let found = (answer, domain.low(), domain.high(), domain.size());
        assert_eq!(rt; found, *outcome, "after {step:?}");
    }
}

/// The domain of 1, 2, 3, 7, 8 and 9.
#[tactic(auto, unfolding(crate::specs::Values::is_wide, crate::specs::Values::values_of, crate::specs::Values::range, crate::specs::Values::numbers_from, crate::specs::Values::low_of, crate::specs::Values::high_of))]
fn gapped(rt: &impl Abort) -> Domain {
    Domain::from_runs(&[(1, 3), (7, 9)]).expect(rt, "there are runs")
}

#[test]
fn bounds(rt: HostRuntime) {
    let wide = [
        (Step::Drop(5), (Narrow::Same, 0, 2000, 2001)),
        (Step::Drop(0), (Narrow::Changed, 1, 2000, 2000)),
        (Step::Drop(2001), (Narrow::Same, 1, 2000, 2000)),
        (Step::Above(1024), (Narrow::Changed, 1, 1024, 1024)),
        (Step::Drop(5), (Narrow::Changed, 1, 1024, 1023)),
    ];
    follow(&rt, &mut interval(&rt, 0, 2000), &wide);

    let greatest_narrow = [(Step::Drop(5), (Narrow::Changed, 0, 1023, 1023))];
    follow(&rt, &mut interval(&rt, 0, 1023), &greatest_narrow);

    let least_wide = [
        (Step::Drop(5), (Narrow::Same, 0, 1024, 1025)),
        (Step::Drop(1024), (Narrow::Changed, 0, 1023, 1024)),
        (Step::Drop(5), (Narrow::Changed, 0, 1023, 1023)),
    ];
    follow(&rt, &mut interval(&rt, 0, 1024), &least_wide);

    let limits = [
        (
            Step::Below(-LARGEST_VALUE),
            (Narrow::Same, -LARGEST_VALUE, LARGEST_VALUE, 2_000_001),
        ),
        (
            Step::Above(-LARGEST_VALUE - 1),
            (Narrow::Empty, -LARGEST_VALUE, LARGEST_VALUE, 2_000_001),
        ),
        (
            Step::Below(LARGEST_VALUE - 9),
            (Narrow::Changed, LARGEST_VALUE - 9, LARGEST_VALUE, 10),
        ),
        (
            Step::Below(LARGEST_VALUE + 1),
            (Narrow::Empty, LARGEST_VALUE - 9, LARGEST_VALUE, 10),
        ),
    ];
    follow(
        &rt,
        &mut interval(&rt, -LARGEST_VALUE, LARGEST_VALUE),
        &limits,
    );

    let one_value = [
        (Step::Drop(7), (Narrow::Empty, 7, 7, 1)),
        (Step::Fix(8), (Narrow::Empty, 7, 7, 1)),
        (Step::Fix(7), (Narrow::Same, 7, 7, 1)),
        (Step::Drop(8), (Narrow::Same, 7, 7, 1)),
    ];
    follow(&rt, &mut interval(&rt, 7, 7), &one_value);
}

#[test]
fn gaps(rt: HostRuntime) {
    let rising = [
        (Step::Below(5), (Narrow::Changed, 7, 9, 3)),
        (Step::Drop(7), (Narrow::Changed, 8, 9, 2)),
        (Step::Above(6), (Narrow::Empty, 8, 9, 2)),
        (Step::Fix(9), (Narrow::Changed, 9, 9, 1)),
    ];
    follow(&rt, &mut gapped(&rt), &rising);

    let falling = [
        (Step::Fix(5), (Narrow::Empty, 1, 9, 6)),
        (Step::Drop(2), (Narrow::Changed, 1, 9, 5)),
        (Step::Above(6), (Narrow::Changed, 1, 3, 2)),
        (Step::Drop(3), (Narrow::Changed, 1, 1, 1)),
    ];
    follow(&rt, &mut gapped(&rt), &falling);

    // 64 and 128 numbers above the least begin another word of the bitmap.
    let across_words = [
        (Step::Drop(-7), (Narrow::Changed, -70, 70, 140)),
        (Step::Drop(-6), (Narrow::Changed, -70, 70, 139)),
        (Step::Below(-7), (Narrow::Changed, -5, 70, 76)),
        (Step::Drop(58), (Narrow::Changed, -5, 70, 75)),
        (Step::Drop(57), (Narrow::Changed, -5, 70, 74)),
        (Step::Above(58), (Narrow::Changed, -5, 56, 62)),
    ];
    follow(&rt, &mut interval(&rt, -70, 70), &across_words);
}

#[test]
fn members(rt: HostRuntime) {
    let domain = gapped(&rt);
    let wide = interval(&rt, 0, 2000);
    assert!(rt; Domain::from_runs(&[]).is_none());
    for (value, in_gapped, in_wide) in [
        (0, false, true),
        (1, true, true),
        (3, true, true),
        (5, false, true),
        (7, true, true),
        (10, false, true),
        (2001, false, false),
    ] {
        assert_eq!(rt; domain.has(value), in_gapped, "{value}");
        assert_eq!(rt; wide.copy().has(value), in_wide, "{value}");
    }
}
