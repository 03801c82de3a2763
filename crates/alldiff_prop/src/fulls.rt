//! The intervals from a number on that have as many members within them as numbers that aren't taken.
ghost use Rattle.std.specs.Prelude.{◌≡◌, ◌+◌, ◌<◌, length, pos, IfOk, IsTrue, IsFalse, slice_index_or};
ghost use Rattle.fzn_model.specs.Limits.{IsValue};
ghost use Rattle.dom_store.specs.Strength.{free_count};
ghost use Rattle.alldiff_prop.specs.Rising.{Climbs};
ghost use Rattle.alldiff_prop.specs.Fulls.{AreBetween, HasOverfull, AreFullsTo};

use crate::taken::Taken;
use std::alloc::AllocError;

/// How many numbers from one to that in a place of a list aren't taken.
fn room(taken: &Taken, low: &i64, highs: &[i64], place: usize) -> usize
    requires low { IsValue low.now }
    requires highs { AreBetween low.now highs.now }
    requires place { place < length highs.now }
    ensures { result ≡ free_count taken.now low.now (slice_index_or highs.now place (pos 0)) }
{
    taken.free_between(low, &highs[place])
}

/// Puts those of the greatest values, in order, of the members from a number on in a list, up to which there are exactly as
/// many as numbers that aren't taken; answers false where there are more up to one of them.
#[tactic(auto, using(crate::proofs::Filling::fulls_none, crate::proofs::Filling::fulls_pass, crate::proofs::Filling::fulls_push))]
pub fn put_fulls(
    taken: &Taken,
    low: &i64,
    highs: &[i64],
    fulls: &mut Vec<i64>,
) -> Result<bool, AllocError>
    requires low { IsValue low.now }
    requires climbs { Climbs highs.now }
    requires highs { AreBetween low.now highs.now }
    ensures over { IfOk result (λ few. IsFalse few → HasOverfull taken.now low.now highs.now) }
    ensures full { IfOk result (λ few. IsTrue few → AreFullsTo taken.now low.now highs.now fulls.new.items (length highs.now)) }
{
    fulls.clear();
    for place in 0..highs.len() {
        let free = room(taken, low, highs, place);
        if free < place + 1 {
            return Ok(false);
        }
        if place + 1 < free {
            continue;
        }
        fulls.push(highs[place])?;
    }
    Ok(true)
}
