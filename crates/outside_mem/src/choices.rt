// Choices that follow from a number.
ghost use Rattle.std.specs.Prelude.{◌<◌};

/// Numbers that follow from one, by Knuth's generator for MMIX.
#[derive(Drop)]
pub(crate) struct Choices {
    state: u64,
}

impl Choices {
    pub(crate) fn new(pick: u64) -> Choices {
        Choices { state: pick }
    }

    /// The next one, below `limit`.
    pub(crate) fn below(&mut self, limit: usize) -> usize
        requires { 0 < limit }
        ensures { result < limit }
    {
        self.state = self
            .state
            .wrapping_mul(6_364_136_223_846_793_005)
            .wrapping_add(1_442_695_040_888_963_407);
        (self.state >> 33) as usize % limit
    }
}
