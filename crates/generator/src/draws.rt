// Numbers drawn one after another.
ghost use Rattle.std.specs.Prelude.{◌≡◌};
ghost use Rattle.generator.specs.Draws.{draw, next_state};

const MULTIPLIER: u64 = 6_364_136_223_846_793_005;

const INCREMENT: u64 = 1_442_695_040_888_963_407;

// The state of a sequence of draws.
#[derive(Clone, Copy)]
pub(crate) struct Draws {
    pub(crate) state: u64,
}

impl Draws {
    // Draws a number.
    #[tactic(auto, unfolding(crate::specs::Draws::next_state))]
    pub(crate) fn draw(&mut self) -> u64
        ensures number { result ≡ draw 0 self.old.state }
        ensures state { self.new.state ≡ next_state self.old.state }
    {
        self.state = self.state.wrapping_mul(MULTIPLIER).wrapping_add(INCREMENT);
        self.state >> 33
    }
}
