/// What comes of a transaction that is judged alone.
#[derive(Clone, Copy, Debug, PartialEq, Eq)]
pub enum Trial {
    /// It breaks no rule: its fee in shannons, and the cycles that its scripts take.
    Passes(u64, u64),
    /// The first rule that it breaks, J1, J18 or J20 to J30.
    Refused(u8),
}
