// Rows of operations.

use row_table::Row;
use rv_alu::{Alu, op};

const OPERATIONS: [(&str, Alu); 28] = [
    ("ADD", Alu::Add),
    ("SUB", Alu::Sub),
    ("SLL", Alu::Sll),
    ("SLT", Alu::Slt),
    ("SLTU", Alu::Sltu),
    ("XOR", Alu::Xor),
    ("SRL", Alu::Srl),
    ("SRA", Alu::Sra),
    ("OR", Alu::Or),
    ("AND", Alu::And),
    ("ADDW", Alu::Addw),
    ("SUBW", Alu::Subw),
    ("SLLW", Alu::Sllw),
    ("SRLW", Alu::Srlw),
    ("SRAW", Alu::Sraw),
    ("MUL", Alu::Mul),
    ("MULH", Alu::Mulh),
    ("MULHSU", Alu::Mulhsu),
    ("MULHU", Alu::Mulhu),
    ("DIV", Alu::Div),
    ("DIVU", Alu::Divu),
    ("REM", Alu::Rem),
    ("REMU", Alu::Remu),
    ("MULW", Alu::Mulw),
    ("DIVW", Alu::Divw),
    ("DIVUW", Alu::Divuw),
    ("REMW", Alu::Remw),
    ("REMUW", Alu::Remuw),
];

/// Two registers, and what the operation gives of them.
pub(crate) fn agrees(row: &mut Row) -> Option<bool> {
    let operation = operation_of(row.word())?;
    let a = row.digits()?;
    let b = row.digits()?;
    Some(op(operation, a, b) == row.digits()?)
}

fn operation_of(name: &str) -> Option<Alu> {
    for (known, operation) in &OPERATIONS {
        if *known == name {
            return Some(*operation);
        }
    }
    None
}
