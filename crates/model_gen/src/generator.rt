//! The generator that the numbers of a model are drawn from.

ghost use Rattle.std.specs.Prelude.{◌≡◌, ◌/◌, ◌^◌};
ghost use Rattle.model_gen.specs.Made.{next};

/// A linear congruential generator of 64 bits.
#[derive(Clone, Copy, Debug)]
pub(crate) struct Generator {
    pub(crate) state: u64,
}

/// The state after a state.
#[tactic(auto, unfolding(crate::specs::Made::next))]
fn next_state(state: u64) -> u64
    ensures { result ≡ next state }
{
    state
        .wrapping_mul(6_364_136_223_846_793_005)
        .wrapping_add(1_442_695_040_888_963_407)
}

/// The 31 high bits of a state.
fn high_bits(state: u64) -> u64
    ensures { result ≡ state / 2 ^ 33 }
{
    state >> 33
}

impl Generator {
    /// Steps, and keeps the high bits of the new state.
    pub(crate) fn draw(&mut self) -> u64
        ensures stepped { self.new.state ≡ next self.old.state }
        ensures drawn { result ≡ next self.old.state / 2 ^ 33 }
    {
        self.state = next_state(self.state);
        high_bits(self.state)
    }
}
