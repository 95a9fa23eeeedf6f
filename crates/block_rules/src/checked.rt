// What the rules on what a block holds leave of it.

use rule_defs::Rule;

/// What J9 to J14 say of a block.
#[derive(Drop)]
pub enum Checked {
    /// The first of them that it breaks.
    Broken(Rule),
    /// It breaks none. The hashes of its transactions, in their order.
    Kept(Vec<[u8; 32]>),
}
