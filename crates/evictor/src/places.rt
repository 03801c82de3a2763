//! The places of a residual problem.

ghost use Rattle.std.specs.Prelude.{◌≡◌, ◌≢◌, ◌<◌, ◌*◌, ◌+◌, All};
ghost use Rattle.evictor.specs.Passes.{IsWays};
ghost use Rattle.evictor.specs.Places.{group_count, near_group, far_group, places_by, places_of, place_by_turn};

use fzn_model::Rest;
use rest_key::{far, near};

/// The number of groups of four words.
fn groups_in(ways: u32) -> u64
    requires ways { IsWays ways }
    requires some { ways ≢ 0 }
    ensures count { result ≡ group_count ways }
    ensures some { 0 < result }
    ensures whole { 4 * result ≡ ways }
{
    u64::from(ways / 4)
}

/// The group of the near digest.
fn near_group(ways: u32, near: u64) -> u64
    requires ways { IsWays ways }
    requires some { ways ≢ 0 }
    ensures group { result ≡ near_group ways near }
    ensures below { 4 * result + 3 < ways }
{
    near % groups_in(ways)
}

/// The group of the far digest, or the next one where that is the near group.
fn far_group(ways: u32, near: u64, far: u64) -> u64
    requires ways { IsWays ways }
    requires some { ways ≢ 0 }
    ensures group { result ≡ far_group ways near far }
    ensures below { 4 * result + 3 < ways }
{
    let groups = groups_in(ways);
    let group = far % groups;
    if group == near_group(ways, near) {
        (group + 1) % groups
    } else {
        group
    }
}

/// The eight places of a residual problem with these digests, the near group first.
#[tactic(auto, unfolding(crate::specs::Places::places_by))]
pub(crate) fn places_by(ways: u32, near: u64, far: u64) -> [u32; 8]
    requires ways { IsWays ways }
    requires some { ways ≢ 0 }
    ensures places { result ≡ places_by ways near far }
    ensures below { All (λ place. place < ways) result }
{
    let first = near_group(ways, near) as u32 * 4;
    let second = far_group(ways, near, far) as u32 * 4;
    [
        first,
        first + 1,
        first + 2,
        first + 3,
        second,
        second + 1,
        second + 2,
        second + 3,
    ]
}

/// The place among them that is taken where each has an entry that is unlike.
#[tactic(auto, unfolding(crate::specs::Places::place_by_turn))]
pub(crate) fn place_by_turn(ways: u32, near: u64, far: u64) -> u32
    requires ways { IsWays ways }
    requires some { ways ≢ 0 }
    ensures place { result ≡ place_by_turn ways near far }
    ensures below { result < ways }
{
    let turn = near / groups_in(ways);
    if turn % 8 == 7 {
        far_group(ways, near, far) as u32 * 4 + ((turn / 8) % 4) as u32
    } else {
        near_group(ways, near) as u32 * 4 + (turn % 4) as u32
    }
}

/// The eight places of a residual problem.
#[tactic(auto, unfolding(entry_slab::specs::Entries::near_digest, entry_slab::specs::Entries::far_digest))]
pub(crate) fn places_of(ways: u32, rest: &Rest) -> [u32; 8]
    requires ways { IsWays ways }
    requires some { ways ≢ 0 }
    ensures places { result ≡ places_of ways rest.now }
    ensures below { All (λ place. place < ways) result }
{
    places_by(ways, near(rest), far(rest))
}
