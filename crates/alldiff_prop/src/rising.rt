//! Numbers in order.
ghost use Rattle.alldiff_prop.specs.Rising.{Climbs, IsSplit, IsRising};

/// How many of the numbers, none of which is greater than a later one, are less than another.
pub fn count_below(numbers: &[i64], number: &i64) -> usize
    requires { Climbs numbers.now }
    ensures { IsSplit numbers.now number.now result }
{
    numbers.partition_point(|x| *x < *number)
}

/// Puts numbers in order, each of them once.
pub fn make_rising(numbers: &mut Vec<i64>)
    ensures { IsRising numbers.old.items numbers.new.items }
{
    numbers.sort_unstable();
    numbers.dedup();
}

/// The same numbers, rising, each of them once.
pub fn rising(mut numbers: Vec<i64>) -> Vec<i64>
    ensures { IsRising numbers.items result.items }
{
    make_rising(&mut numbers);
    numbers
}
