ghost use Rattle.std.specs.Prelude.{◌≡◌, ◌↔◌, ◌*◌, ◌^◌, ◌≤◌, ◌≤ℤ◌, ◌-◌, ◌<◌, ◌&&◌, if◌then◌else◌, IsTrue, length, slice_index_or, pos, int_le, int_lt, unsigned_abs};
ghost use Rattle.fzn_model.specs.Meaning.{amount_at};
ghost use Rattle.fzn_model.specs.Limits.{IsValue, UsedInLimits, of_call};
ghost use Rattle.rest_key.specs.Weaker.{LeavesAsMuch, UsesNoMore};
ghost use Rattle.rest_key.specs.PartTests.{AreApart, TellsApart, IsFirstAfter, excess_at, StaysBelow, BeginsBelow, EndsBelow};

use fzn_model::Used;

/// What a used amount is at a moment.
fn part_at(part: &Used, moment: i64) -> i128
    requires amount { (pos 0 ≤ℤ part.now.amount) × (unsigned_abs part.now.amount ≤ 2 ^ 100) }
    ensures value { result ≡ (if int_le part.now.from moment && int_lt moment part.now.to then part.now.amount else pos 0) }
    ensures low { pos 0 ≤ℤ result }
    ensures high { result ≤ℤ pos (2 ^ 100) }
{
    if part.from <= moment && moment < part.to {
        part.amount
    } else {
        0
    }
}

/// The sum of all that is used at a moment.
#[tactic(auto, using(fzn_model::proofs::Moments::amount_drop))]
fn sum_at(used: &[Used], moment: i64) -> i128
    requires { UsedInLimits of_call used.now }
    ensures value { result ≡ amount_at used.now moment }
    ensures low { pos 0 ≤ℤ result }
    ensures high { result ≤ℤ pos (8000000 * 2 ^ 100) }
{
    let mut amount: i128 = 0;
    for part in used {
        amount += part_at(part, moment);
    }
    amount
}

/// Whether the amount at the place begins no later than it ends, and no earlier than the one before ends.
fn follows(used: &[Used], place: usize) -> bool
    requires { place < length used.now }
    ensures ends { IsTrue result → (d : Used) → (slice_index_or used.now place d).from ≤ℤ (slice_index_or used.now place d).to }
    ensures gap { IsTrue result → 0 < place → (d : Used) → (slice_index_or used.now (place - 1) d).to ≤ℤ (slice_index_or used.now place d).from }
{
    let part = used[place];
    part.from <= part.to && (place == 0 || used[place - 1].to <= part.from)
}

/// Whether the amounts rise and don't overlap.
#[tactic(auto, unfolding(crate::specs::PartTests::TellsApart))]
fn are_apart(used: &[Used]) -> bool
    ensures { TellsApart result used.now }
{
    for k in 0..used.len() {
        if !follows(used, k) {
            return false;
        }
    }
    true
}

/// Whether the amount has ended by the moment.
fn has_ended(part: &Used, moment: &i64) -> bool
    ensures { IsTrue result ↔ (part.now.to ≤ℤ moment.now) }
{
    part.to <= *moment
}

/// The place of the first amount that hasn't ended by the moment, or the number of amounts.
fn first_after(used: &[Used], moment: &i64) -> usize
    requires { AreApart used.now }
    ensures { IsFirstAfter used.now moment.now result }
{
    let mut first = 0;
    let mut end = used.len();
    while first < end {
        let middle = first + (end - first) / 2;
        if has_ended(&used[middle], moment) {
            first = middle + 1;
        } else {
            end = middle;
        }
    }
    first
}

/// What is used at a moment, of amounts that don't overlap: at most one of them is.
#[tactic(auto, using(crate::proofs::Amounts::one_at, crate::proofs::Amounts::none_at))]
fn one_at(used: &[Used], moment: i64) -> i128
    requires kept { UsedInLimits of_call used.now }
    requires apart { AreApart used.now }
    ensures value { result ≡ amount_at used.now moment }
    ensures low { pos 0 ≤ℤ result }
    ensures high { result ≤ℤ pos (8000000 * 2 ^ 100) }
{
    let place = first_after(used, &moment);
    if place == used.len() {
        return 0;
    }
    part_at(&used[place], moment)
}

/// What is used at a moment. As many steps as there are amounts, or the logarithm where these are apart.
#[tactic(auto, unfolding(crate::specs::PartTests::TellsApart))]
fn amount_at(used: &[Used], apart: bool, moment: i64) -> i128
    requires kept { UsedInLimits of_call used.now }
    requires apart { TellsApart apart used.now }
    ensures value { result ≡ amount_at used.now moment }
    ensures low { pos 0 ≤ℤ result }
    ensures high { result ≤ℤ pos (8000000 * 2 ^ 100) }
{
    if apart {
        one_at(used, moment)
    } else {
        sum_at(used, moment)
    }
}

/// What is used of the first amounts over what is used of the second. The flags tell whether each are apart.
fn excess_at(used: &[Used], apart: bool, other: &[Used], other_apart: bool, moment: i64) -> i128
    requires used { UsedInLimits of_call used.now }
    requires other { UsedInLimits of_call other.now }
    requires apart { TellsApart apart used.now }
    requires other_apart { TellsApart other_apart other.now }
    ensures { result ≡ excess_at used.now other.now moment }
{
    amount_at(used, apart, moment) - amount_at(other, other_apart, moment)
}

/// Whether that is at most the room.
fn is_below_at(
    used: &[Used],
    apart: bool,
    other: &[Used],
    other_apart: bool,
    room: &i128,
    moment: &i64,
) -> bool
    requires used { UsedInLimits of_call used.now }
    requires other { UsedInLimits of_call other.now }
    requires apart { TellsApart apart used.now }
    requires other_apart { TellsApart other_apart other.now }
    ensures { IsTrue result ↔ (excess_at used.now other.now moment.now ≤ℤ room.now) }
{
    excess_at(used, apart, other, other_apart, *moment) <= *room
}

/// Whether it is wherever one of the first amounts begins.
#[tactic(auto, unfolding(crate::specs::PartTests::BeginsBelow))]
fn begins_below(used: &[Used], apart: bool, other: &[Used], other_apart: bool, room: &i128) -> bool
    requires used { UsedInLimits of_call used.now }
    requires other { UsedInLimits of_call other.now }
    requires apart { TellsApart apart used.now }
    requires other_apart { TellsApart other_apart other.now }
    ensures { IsTrue result ↔ BeginsBelow used.now other.now room.now }
{
    used.iter().all(|part| is_below_at(used, apart, other, other_apart, room, &part.from))
}

/// Whether it is wherever one of the second amounts ends.
#[tactic(auto, unfolding(crate::specs::PartTests::EndsBelow))]
fn ends_below(used: &[Used], apart: bool, other: &[Used], other_apart: bool, room: &i128) -> bool
    requires used { UsedInLimits of_call used.now }
    requires other { UsedInLimits of_call other.now }
    requires apart { TellsApart apart used.now }
    requires other_apart { TellsApart other_apart other.now }
    ensures { IsTrue result ↔ EndsBelow used.now other.now room.now }
{
    other.iter().all(|part| is_below_at(used, apart, other, other_apart, room, &part.to))
}

/// Whether the first amounts are above the second by at most the room at each moment. The difference rises only where one
/// of the first begins or one of the second ends, so it is tested before all of them and there. A binary search for each
/// amount in lists that are apart; else as many steps as there are pairs of amounts.
#[tactic(auto, using(crate::proofs::Amounts::stays_below, crate::proofs::Amounts::below_begins, crate::proofs::Amounts::below_ends, crate::proofs::Amounts::below_room))]
fn stays_below(used: &[Used], other: &[Used], room: i128) -> bool
    requires used { UsedInLimits of_call used.now }
    requires other { UsedInLimits of_call other.now }
    ensures { IsTrue result ↔ StaysBelow used.now other.now room }
{
    let apart = are_apart(used);
    let other_apart = are_apart(other);
    room >= 0
        && begins_below(used, apart, other, other_apart, &room)
        && ends_below(used, apart, other, other_apart, &room)
}

/// Whether at each moment the first capacity leaves as much as the second or more.
#[tactic(auto, using(crate::proofs::Amounts::leaves_stays, crate::proofs::Amounts::stays_leaves))]
pub(crate) fn leaves_as_much(
    capacity: i64,
    used: &[Used],
    other_capacity: i64,
    other_used: &[Used],
) -> bool
    requires used { UsedInLimits of_call used.now }
    requires other_used { UsedInLimits of_call other_used.now }
    requires capacity { IsValue capacity }
    requires other_capacity { IsValue other_capacity }
    ensures { IsTrue result ↔ LeavesAsMuch capacity used.now other_capacity other_used.now }
{
    stays_below(used, other_used, i128::from(capacity - other_capacity))
}

/// Whether at each moment no more is used of the first than of the second.
#[tactic(auto, using(crate::proofs::Amounts::no_more_stays, crate::proofs::Amounts::stays_no_more))]
pub(crate) fn uses_no_more(used: &[Used], other: &[Used]) -> bool
    requires used { UsedInLimits of_call used.now }
    requires other { UsedInLimits of_call other.now }
    ensures { IsTrue result ↔ UsesNoMore used.now other.now }
{
    stays_below(used, other, 0)
}
