//! Lines with neither words nor values.
ghost use Rattle.std.specs.Prelude.{◌≡◌, codes};
ghost use Rattle.run_log.specs.Steps.{Finds, IsLine};

use crate::fields::{count, flag, small, value};
use crate::line::LogLine;

fn node(numbers: &[i128]) -> Option<LogLine>
    ensures { Finds (IsLine (codes "node") numbers.now) result }
{
    match numbers {
        [depth, seen] => Some(LogLine::Node {
            depth: small(depth)?,
            seen: value(seen)?,
        }),
        _ => None,
    }
}

fn wide(numbers: &[i128]) -> Option<LogLine>
    ensures { Finds (IsLine (codes "wide") numbers.now) result }
{
    match numbers {
        [words] => Some(LogLine::Wide {
            words: count(words)?,
        }),
        _ => None,
    }
}

fn gone(numbers: &[i128]) -> Option<LogLine>
    ensures { Finds (IsLine (codes "gone") numbers.now) result }
{
    match numbers {
        [place] => Some(LogLine::Gone {
            place: small(place)?,
        }),
        _ => None,
    }
}

fn hit(numbers: &[i128]) -> Option<LogLine>
    ensures { Finds (IsLine (codes "hit") numbers.now) result }
{
    match numbers {
        [depth, bound, place] => Some(LogLine::Hit {
            depth: small(depth)?,
            bound: value(bound)?,
            place: small(place)?,
        }),
        _ => None,
    }
}

fn expand(numbers: &[i128]) -> Option<LogLine>
    ensures { Finds (IsLine (codes "expand") numbers.now) result }
{
    match numbers {
        [depth, var, at, up] => Some(LogLine::Expand {
            depth: small(depth)?,
            var: small(var)?,
            at: value(at)?,
            up: flag(up)?,
        }),
        _ => None,
    }
}

fn leaf(numbers: &[i128]) -> Option<LogLine>
    ensures { Finds (IsLine (codes "leaf") numbers.now) result }
{
    match numbers {
        [depth, bound] => Some(LogLine::Leaf {
            depth: small(depth)?,
            bound: value(bound)?,
        }),
        _ => None,
    }
}

fn join(numbers: &[i128]) -> Option<LogLine>
    ensures { Finds (IsLine (codes "join") numbers.now) result }
{
    match numbers {
        [depth, bound] => Some(LogLine::Join {
            depth: small(depth)?,
            bound: value(bound)?,
        }),
        _ => None,
    }
}

fn publish(numbers: &[i128]) -> Option<LogLine>
    ensures { Finds (IsLine (codes "publish") numbers.now) result }
{
    match numbers {
        [place, bound] => Some(LogLine::Publish {
            place: small(place)?,
            bound: *bound,
        }),
        _ => None,
    }
}

/// The line of this name that shows these numbers.
pub(crate) fn plain(name: &[u8], numbers: &[i128]) -> Option<LogLine>
    ensures { Finds (IsLine name.now numbers.now) result }
{
    if name == b"node".as_slice() {
        node(numbers)
    } else if name == b"wide".as_slice() {
        wide(numbers)
    } else if name == b"gone".as_slice() {
        gone(numbers)
    } else if name == b"hit".as_slice() {
        hit(numbers)
    } else if name == b"expand".as_slice() {
        expand(numbers)
    } else if name == b"leaf".as_slice() {
        leaf(numbers)
    } else if name == b"join".as_slice() {
        join(numbers)
    } else if name == b"publish".as_slice() {
        publish(numbers)
    } else {
        None
    }
}
