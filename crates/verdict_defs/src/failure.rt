use std::fmt;

/// Why the script groups of a transaction fail it. A group is named by its place.
#[derive(Clone, Copy, Debug, PartialEq, Eq)]
pub enum Failure {
    /// No resolved dep is the code of the group's script.
    NoCode(u32),
    /// More than one is, of a script that names its code by a type script, and they are not one code.
    ManyCodes(u32),
    /// The code is no program: the number of the first condition that it meets.
    BadElf(u32, u8),
    /// The program met a fault of this number.
    MachineFault(u32, u8),
    /// It exited with this code, which is not 0.
    ExitNot0(u32, i8),
    /// The cycles passed what was left.
    Spent,
}

impl fmt::Display for Failure {
    fn fmt<W: fmt::Write>(&self, f: &mut fmt::Formatter<W>) -> fmt::Result {
        match self {
            Failure::NoCode(group) => write!(f, "the code of script group {group} is not found"),
            Failure::ManyCodes(group) => write!(f, "script group {group} has more than one code"),
            Failure::BadElf(group, number) => write!(
                f,
                "the code of script group {group} is no program: condition {number}"
            ),
            Failure::MachineFault(group, number) => write!(
                f,
                "script group {group} met fault {number}"
            ),
            Failure::ExitNot0(group, code) => write!(f, "script group {group} exited with {code}"),
            Failure::Spent => write!(f, "the cycles are spent"),
        }
    }
}
