//! What is used at the moments where used amounts begin and end, and compulsory parts begin.
ghost use Rattle.std.specs.Prelude.{◌≡◌, ◌↔◌, ◌≤◌, ℤ, All, IsTrue, length, OnOk};
ghost use Rattle.fzn_model.specs.Limits.{IsNear};
ghost use Rattle.cumul_prop.specs.Parts.{AreParts, IsUseAt, HasMoment, IsProfileTo, AreWithin};

use crate::parts::load;
use fzn_model::Used;
use std::alloc::AllocError;

/// What is used at a moment, beside the moment.
#[tactic(auto, unfolding(crate::specs::Parts::IsUseAt))]
fn used_at(all: &[Used], moment: &i64) -> (i64, i128)
    requires parts { AreParts all.now }
    requires moment { IsNear moment.now }
    ensures moment { result.0 ≡ moment.now }
    ensures value { IsUseAt all.now result }
{
    (*moment, load(all, moment))
}

/// Adds what is used at a moment.
fn add_moment(profile: &mut Vec<(i64, i128)>, all: &[Used], moment: &i64) -> Result<(), AllocError>
    requires parts { AreParts all.now }
    requires moment { IsNear moment.now }
    requires each { All (IsUseAt all.now) profile.old.items }
    ensures each { All (IsUseAt all.now) profile.new.items }
    ensures keeps { (t : ℤ) → HasMoment profile.old.items t → HasMoment profile.new.items t }
    ensures has { OnOk result (HasMoment profile.new.items moment.now) }
{
    profile.push(used_at(all, moment))?;
    Ok(())
}

/// Adds what is used where each of the amounts begins.
fn add_begins(profile: &mut Vec<(i64, i128)>, all: &[Used]) -> Result<(), AllocError>
    requires parts { AreParts all.now }
    requires profile { IsProfileTo all.now 0 0 profile.old.items }
    ensures { OnOk result (IsProfileTo all.now (length all.now) 0 profile.new.items) }
{
    for at in 0..all.len() {
        add_moment(profile, all, &all[at].from)?;
    }
    Ok(())
}

/// Adds what is used where each of the first amounts ends.
fn add_ends(profile: &mut Vec<(i64, i128)>, all: &[Used], count: usize) -> Result<(), AllocError>
    requires parts { AreParts all.now }
    requires count { count ≤ length all.now }
    requires profile { IsProfileTo all.now (length all.now) 0 profile.old.items }
    ensures { OnOk result (IsProfileTo all.now (length all.now) count profile.new.items) }
{
    for at in 0..count {
        add_moment(profile, all, &all[at].to)?;
    }
    Ok(())
}

/// Puts what is used where amounts begin, and where the first of them end, in a list.
#[tactic(auto, using(crate::proofs::Profiling::profile_none))]
pub(crate) fn put_profile(
    profile: &mut Vec<(i64, i128)>,
    all: &[Used],
    count: usize,
) -> Result<(), AllocError>
    requires parts { AreParts all.now }
    requires count { count ≤ length all.now }
    ensures { OnOk result (IsProfileTo all.now (length all.now) count profile.new.items) }
{
    profile.clear();
    add_begins(profile, all)?;
    add_ends(profile, all, count)
}

/// Whether at each of the moments at most so much is used.
#[tactic(auto, unfolding(crate::specs::Parts::AreWithin))]
pub(crate) fn are_within(profile: &[(i64, i128)], most: &i64) -> bool
    ensures { IsTrue result ↔ AreWithin most.now profile.now }
{
    profile.iter().all(|used| used.1 <= i128::from(*most))
}
