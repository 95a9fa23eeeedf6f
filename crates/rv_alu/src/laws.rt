// The laws of products and divisions.
ghost use Rattle.rv_alu.specs.Laws.{MixedHalves, SignedDividend, SignedHalves, UnsignedDividend, UnsignedHalves};

/// States what the operations of the extension M are to one another, as the RISC-V manual has it. It does nothing.
///
/// MULHU, MULH and MULHSU with MUL are the two halves of a product, and a quotient and its remainder give the dividend
/// back, also by zero and where the quotient does not fit.
pub fn alu_laws()
    ensures unsigned_halves { UnsignedHalves }
    ensures signed_halves { SignedHalves }
    ensures mixed_halves { MixedHalves }
    ensures unsigned_dividend { UnsignedDividend }
    ensures signed_dividend { SignedDividend }
{}
