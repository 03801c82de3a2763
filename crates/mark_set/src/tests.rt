use crate::{MarkSet, RankedSet};
use std::process::Abort;
use std::test::Fail;

/// The numbers below the limit that are in the set.
fn members(rt: &impl Abort, set: &MarkSet, numbers: &[(u32, bool)]) {
    for (number, is_in) in numbers {
        assert!(rt; (*number as usize) < set.limit());
        assert_eq!(rt; set.has(*number), *is_in, "{number}");
    }
}

#[test]
fn adds_and_takes(rt: HostRuntime) -> Result<(), Fail> {
    let mut set = MarkSet::new(rt.alloc(), 5)?;
    set.add(3);
    set.add(1);
    set.add(3);
    members(&rt, &set, &[(0, false), (1, true), (3, true), (4, false)]);
    assert_eq!(rt; set.take(), Some(1));
    set.add(1);
    set.add(4);
    assert_eq!(rt; set.take(), Some(4));
    assert_eq!(rt; set.take(), Some(1));
    assert_eq!(rt; set.take(), Some(3));
    assert_eq!(rt; set.take(), None);
    set.add(0);
    set.add(2);
    set.add(4);
    set.clear();
    members(&rt, &set, &[(0, false), (2, false), (4, false)]);
    assert_eq!(rt; set.take(), None);
    Ok(())
}

/// Adds the numbers, which are below the limit, and looks whether they are in the set.
fn add_each(rt: &impl Abort, set: &mut RankedSet, numbers: &[u32]) {
    for number in numbers {
        assert!(rt; (*number as usize) < set.limit());
        set.add(*number);
        assert!(rt;
            (*number as usize) < set.limit() && set.has(*number),
            "{number}"
        );
    }
}

/// Takes the numbers out, one after the other, and then no more.
fn take_each(rt: &impl Abort, set: &mut RankedSet, numbers: &[u32]) {
    for number in numbers {
        assert_eq!(rt; set.take(), Some(*number));
        assert!(rt;
            (*number as usize) < set.limit() && !set.has(*number),
            "{number}"
        );
    }
    assert_eq!(rt; set.take(), None);
}

#[test]
fn takes_cheap_ones_first(rt: HostRuntime) -> Result<(), Fail> {
    let dear = vec![in rt.alloc(); true, false, true, false, true]?;
    let mut set = RankedSet::new(rt.alloc(), dear)?;
    assert_eq!(rt; set.limit(), 5);
    add_each(&rt, &mut set, &[1, 2, 0, 3]);
    assert_eq!(rt; set.take(), Some(3));
    add_each(&rt, &mut set, &[3, 2]);
    take_each(&rt, &mut set, &[3, 1, 0, 2]);
    add_each(&rt, &mut set, &[3, 4]);
    set.clear();
    take_each(&rt, &mut set, &[]);
    add_each(&rt, &mut set, &[4, 1]);
    take_each(&rt, &mut set, &[1, 4]);
    Ok(())
}
