// The last jumps of a run.

/// How many are kept.
const KEPT: u64 = 16;

/// A step to another place than the instruction after it, and how often it was made in a row.
#[derive(Clone, Copy)]
pub(crate) struct Jump {
    pub(crate) from: u64,
    pub(crate) to: u64,
    pub(crate) times: u64,
}

/// The last jumps, of which those that are alike and follow one another count as one.
#[derive(Drop)]
pub(crate) struct Jumps {
    // The jump of number n lies at n modulo 16.
    ring: [Jump; 16],
    count: u64,
}

impl Jumps {
    pub(crate) fn new() -> Jumps {
        let none = Jump {
            from: 0,
            to: 0,
            times: 0,
        };
        Jumps {
            ring: [none; 16],
            count: 0,
        }
    }

    /// A step that went from one place to another. Where that is 2 or 4 bytes on it is taken for the next instruction.
    pub(crate) fn note_step(&mut self, from: u64, to: u64) {
        let length = to.wrapping_sub(from);
        if length != 2 && length != 4 {
            self.note_jump(from, to);
        }
    }

    fn note_jump(&mut self, from: u64, to: u64) {
        if self.count > 0 {
            let last = (self.count - 1) % KEPT;
            let jump = self.ring[last as usize];
            if jump.from == from && jump.to == to {
                self.ring[last as usize].times = jump.times.saturating_add(1);
                return;
            }
        }
        let next = self.count % KEPT;
        self.ring[next as usize] = Jump { from, to, times: 1 };
        self.count = self.count.saturating_add(1);
    }

    /// How many are kept.
    pub(crate) fn len(&self) -> u64 {
        self.count.min(KEPT)
    }

    /// The jump of a place among those that are kept, the oldest first.
    pub(crate) fn at(&self, place: u64) -> Jump {
        let number = self.count.saturating_sub(self.len()).saturating_add(place);
        self.ring[(number % KEPT) as usize]
    }
}
