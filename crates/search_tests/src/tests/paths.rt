use search_core::{Decision, Local, Move, Path, StepFault};
use std::alloc::{AllocError, Global};
use std::process::Abort;
use std::test::Fail;

/// The decision of a letter: x is x <= 1, y is y <= 5, and a capital is the other side.
fn decision(letter: u8) -> Decision {
    let (var, at) = if letter == b'x' || letter == b'X' {
        (0, 1)
    } else {
        (1, 5)
    };
    Decision {
        var,
        at,
        up: letter == b'X' || letter == b'Y',
    }
}

fn path_of(alloc: Global, letters: &[u8]) -> Result<Path, AllocError> {
    let mut path = Path::new(alloc);
    for letter in letters {
        path.push(decision(*letter))?;
    }
    Ok(path)
}

/// Whether the path has the decisions of these letters.
fn is(path: &Path, letters: &[u8]) -> bool {
    let decisions = path.decisions();
    decisions.len() == letters.len()
        && decisions
            .iter()
            .zip(letters)
            .all(|(found, letter)| *found == decision(*letter))
}

/// A copy has the same decisions, a decision that is pushed is the last, and `pop` takes it off.
fn try_path(rt: &impl Abort, alloc: Global, front: &[u8], whole: &[u8]) -> Result<(), Fail> {
    let path = path_of(alloc, front)?;
    let mut other = path.copy()?;
    assert!(rt; is(&path, front) && is(&other, front));
    other.push(Decision {
        var: 0,
        at: 1,
        up: false,
    })?;
    assert!(rt; is(&other, whole) && is(&other.copy()?, whole) && is(&path, front));
    other.pop();
    assert!(rt; is(&other, front));
    Ok(())
}

#[test]
fn paths(rt: HostRuntime) -> Result<(), Fail> {
    try_path(&rt, rt.alloc(), b"", b"x")?;
    try_path(&rt, rt.alloc(), b"Y", b"Yx")?;
    try_path(&rt, rt.alloc(), b"xYyXxYy", b"xYyXxYyx")?;
    try_path(&rt, rt.alloc(), b"xYyXxYyX", b"xYyXxYyXx")?;
    try_path(&rt, rt.alloc(), b"xYyXxYyXx", b"xYyXxYyXxx")
}

/// A move, with the letters of its path and of its cut.
#[derive(Clone, Copy, Debug)]
enum Turn {
    Claim(&'static [u8]),
    Give(&'static [u8]),
    Expand(&'static [u8], u8),
    Hit(&'static [u8]),
    Leaf(&'static [u8]),
    Join(&'static [u8], u8),
    Offer(i64),
    See(i64),
    Return(&'static [u8]),
}

fn move_of(alloc: Global, turn: Turn) -> Result<Move, AllocError> {
    match turn {
        Turn::Claim(letters) => {
            let path = path_of(alloc, letters)?;
            Ok(Move::Claim { path })
        }
        Turn::Give(letters) => {
            let path = path_of(alloc, letters)?;
            Ok(Move::Give { path })
        }
        Turn::Expand(letters, cut) => {
            let path = path_of(alloc, letters)?;
            let cut = decision(cut);
            Ok(Move::Expand { path, cut })
        }
        Turn::Hit(letters) => {
            let path = path_of(alloc, letters)?;
            Ok(Move::Hit { path })
        }
        Turn::Leaf(letters) => {
            let path = path_of(alloc, letters)?;
            Ok(Move::Leaf { path })
        }
        Turn::Join(letters, cut) => {
            let path = path_of(alloc, letters)?;
            let cut = decision(cut);
            Ok(Move::Join { path, cut })
        }
        Turn::Offer(cost) => Ok(Move::Offer { cost }),
        Turn::See(seen) => Ok(Move::See { seen }),
        Turn::Return(letters) => {
            let path = path_of(alloc, letters)?;
            Ok(Move::Return { path })
        }
    }
}

/// Whether the move is allowed, and how many expansions were counted after it.
fn take(
    rt: &impl Abort,
    alloc: Global,
    local: &mut Local,
    turn: Turn,
) -> Result<(bool, u128), Fail> {
    assert!(rt; local.expands() < 100);
    let step = move_of(alloc, turn)?;
    let allowed = match local.step(&step) {
        Ok(()) => true,
        Err(fault) => {
            assert_eq!(rt; fault, StepFault::NotAllowed);
            false
        }
    };
    Ok((allowed, local.expands()))
}

#[test]
fn steps(rt: HostRuntime) -> Result<(), Fail> {
    let rows = [
        (Turn::Give(b""), false, 0),
        (Turn::Expand(b"", b'x'), false, 0),
        (Turn::Claim(b""), true, 0),
        (Turn::Join(b"", b'x'), false, 0),
        (Turn::Expand(b"", b'x'), true, 1),
        (Turn::Expand(b"", b'x'), false, 1),
        (Turn::Expand(b"x", b'Y'), true, 2),
        (Turn::Leaf(b"xy"), true, 2),
        (Turn::Leaf(b"xy"), false, 2),
        (Turn::Join(b"x", b'Y'), false, 2),
        (Turn::Offer(7), true, 2),
        (Turn::Hit(b"xY"), true, 2),
        (Turn::Join(b"x", b'x'), false, 2),
        (Turn::Join(b"x", b'Y'), true, 2),
        (Turn::Join(b"x", b'Y'), false, 2),
        (Turn::Join(b"", b'x'), false, 2),
        (Turn::See(3), true, 2),
        (Turn::Give(b"x"), false, 2),
        (Turn::Hit(b"X"), true, 2),
        (Turn::Join(b"", b'X'), true, 2),
        (Turn::Return(b""), false, 2),
        (Turn::Claim(b"yX"), true, 2),
        (Turn::Claim(b"yX"), true, 2),
        (Turn::Give(b"yX"), true, 2),
        (Turn::Return(b"yX"), true, 2),
        (Turn::Return(b"yX"), false, 2),
    ];
    let mut local = Local::new(rt.alloc(), 0, 4)?;
    assert_eq!(rt; local.worker(), 0);
    for (turn, allowed, expands) in rows {
        let found = take(&rt, rt.alloc(), &mut local, turn)?;
        assert_eq!(rt; found, (allowed, expands), "after {turn:?}");
    }
    Ok(())
}
