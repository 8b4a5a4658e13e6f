//! Numbers drawn from a seed.

ghost use Rattle.std.specs.Prelude.{◌≡◌, ◌<◌};
ghost use Rattle.ofx_world.specs.Chance as rules;

/// The factor and the summand of the next state, modulo 2^64.
const FACTOR: u64 = 6_364_136_223_846_793_005;

const SUMMAND: u64 = 1_442_695_040_888_963_407;

/// The low bits of a state, which repeat soon, aren't drawn.
const LOW: u64 = 8_589_934_592;

/// The state of the drawing.
#[derive(Clone, Copy)]
pub(crate) struct Chance {
    state: u64,
}

impl Chance {
    /// The drawing begins at the seed.
    pub(crate) fn new(seed: u64) -> Chance
        ensures { result.state ≡ seed }
    {
        Chance { state: seed }
    }

    /// A number below `most`, which is at least 1.
    #[tactic(auto, using(crate::proofs::Wrapping::wrapped), unfolding(crate::specs::Chance::draw, crate::specs::Chance::next))]
    pub(crate) fn draw(&mut self, most: u32) -> u32
        requires { 0 < most }
        ensures drawn { result ≡ rules.draw most self.old.state }
        ensures below { result < most }
        ensures state { self.new.state ≡ rules.next self.old.state }
    {
        self.state = self.state.wrapping_mul(FACTOR).wrapping_add(SUMMAND);
        (self.state / LOW % u64::from(most)) as u32
    }
}
