//! The instruction that a word of code encodes: RV64IM and its compressed forms (RFC 0003).
//!
//! `decode` is exact against the instruction table of `machine_defs`, for every word. It reads the word's
//! fields in place, takes no memory and keeps no state. What an instruction does and costs, and where
//! words come from, is left to the machine above.
#![tactic(auto)]

ghost use Rattle.std.specs.Prelude.{◌≡◌, ◌≢◌, ℕ, ◌%◌, ◌^◌, IfSome};
ghost use Rattle.machine_defs.specs.Instruction.{FitsFormat};
ghost use Rattle.machine_defs.specs.Decode.{HasFullForm, decode};

mod compressed;
mod fields;
mod full;

pub use machine_defs::Ins;

/// The instruction at the start of a word of code, and its length in bytes, 2 or 4.
///
/// A compressed form is given as the full form that it stands for, and leaves the upper half of the word
/// unread. None comes exactly where no row of the table matches.
#[tactic(auto, unfolding(machine_defs::specs::Decode::decode))]
pub fn decode(word: u32) -> Option<(Ins, u8)>
    ensures exact { result ≡ decode word }
    // Of a compressed form the low two bytes alone are read.
    ensures low_half { word % 4 ≢ 3 → (other : ℕ) → other % 2 ^ 16 ≡ word % 2 ^ 16 → decode other ≡ result }
    // The instruction is a full form, also where a compressed form stands for it.
    ensures full_form { IfSome result (λ decoded. HasFullForm decoded.0) }
    // Its registers are below 32, and its immediate has the bits of its format.
    ensures fits { IfSome result (λ decoded. FitsFormat decoded.0) }
{
    if word % 4 == 3 {
        Some((full::instruction(word)?, 4))
    } else {
        Some((compressed::instruction(word % 0x1_0000)?, 2))
    }
}
