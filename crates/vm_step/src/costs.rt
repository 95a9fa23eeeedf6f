// What instructions cost in cycles (RFC 0014, "Instruction Cycles").

pub(crate) const BASE: u64 = 1;

/// A load or a store of 8 bytes.
pub(crate) const DOUBLE: u64 = 2;

/// A load or a store of fewer.
pub(crate) const ACCESS: u64 = 3;

pub(crate) const BRANCH: u64 = 3;

pub(crate) const JUMP: u64 = 3;

pub(crate) const MULTIPLY: u64 = 5;

pub(crate) const DIVIDE: u64 = 32;

/// ECALL and EBREAK.
pub(crate) const ENVIRONMENT: u64 = 500;
