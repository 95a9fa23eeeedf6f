/// The operands of an instruction, in the order of its fields, by the form that its text has.
#[derive(Clone, Copy)]
pub enum Operands {
    /// `rd,rs1,rs2`
    Registers(u8, u8, u8),
    /// `rd,rs1,n`
    Immediate(u8, u8, i64),
    /// `rd,rs1,n`, with an amount of 6 bits
    Shift(u8, u8, i64),
    /// `rd,rs1,n`, with an amount of 5 bits
    WordShift(u8, u8, i64),
    /// `rd,n(rs1)`
    Address(u8, u8, i64),
    /// `rs2,n(rs1)`, of `rs1`, `rs2` and `n`
    Store(u8, u8, i64),
    /// `rs1,rs2,n`
    Branch(u8, u8, i64),
    /// `rd,n`
    Jump(u8, i64),
    /// `rd,n`, with the upper 20 bits of 32
    Upper(u8, i64),
    /// No operand, and no space.
    Bare,
}
