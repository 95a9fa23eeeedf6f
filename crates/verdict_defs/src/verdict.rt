ghost use Rattle.std.specs.Prelude.{◌≡◌};

/// What becomes of an item that was handed in as a block.
#[derive(Clone, Copy, Debug, PartialEq, Eq)]
pub enum Verdict {
    /// It is kept from now on: its number and its hash.
    Joined(u64, [u8; 32]),
    /// A block with this hash is kept already.
    Known([u8; 32]),
    /// The first rule that it breaks, J1 to J32.
    Refused(u8),
    /// It breaks no rule, and there is no room for it: as many blocks are kept as may be.
    Full,
}

impl Verdict {
    ghost use Rattle.verdict_defs.specs.Verdict as rules;

    /// Whether the item is kept from now on.
    pub fn joins(&self) -> bool
        ensures { result ≡ rules.joins self.now }
    {
        match self {
            Verdict::Joined(_, _) => true,
            Verdict::Known(_) => false,
            Verdict::Refused(_) => false,
            Verdict::Full => false,
        }
    }

    /// Whether the item was refused: it broke a rule, or there was no room for it.
    pub fn refuses(&self) -> bool
        ensures { result ≡ rules.refuses self.now }
    {
        match self {
            Verdict::Joined(_, _) => false,
            Verdict::Known(_) => false,
            Verdict::Refused(_) => true,
            Verdict::Full => true,
        }
    }
}
