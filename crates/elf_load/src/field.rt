// The fields of a file: numbers at their places, little-endian.
ghost use Rattle.std.specs.Prelude.{◌≡◌, ◌+◌, ◌≤◌, length};
ghost use Rattle.machine_defs.specs.Elf.{field, is_inside};

pub(crate) fn u8_at(file: &[u8], at: usize) -> u8
    requires { at + 1 ≤ length file.now }
    ensures { result ≡ field file.now at 1 }
{
    file[at]
}

pub(crate) fn u16_at(file: &[u8], at: usize) -> u16
    requires { at + 2 ≤ length file.now }
    ensures { result ≡ field file.now at 2 }
{
    u16::from_le_bytes([file[at], file[at + 1]])
}

pub(crate) fn u32_at(file: &[u8], at: usize) -> u32
    requires { at + 4 ≤ length file.now }
    ensures { result ≡ field file.now at 4 }
{
    u32::from_le_bytes([file[at], file[at + 1], file[at + 2], file[at + 3]])
}

pub(crate) fn u64_at(file: &[u8], at: usize) -> u64
    requires { at + 8 ≤ length file.now }
    ensures { result ≡ field file.now at 8 }
{
    u64::from_le_bytes([
        file[at],
        file[at + 1],
        file[at + 2],
        file[at + 3],
        file[at + 4],
        file[at + 5],
        file[at + 6],
        file[at + 7],
    ])
}

// Whether so many bytes from an offset on lie inside the file. The sum does not wrap.
#[tactic(auto, unfolding(machine_defs::specs::Elf::is_inside))]
pub(crate) fn is_inside(file: &[u8], offset: u64, count: u64) -> bool
    ensures { result ≡ is_inside file.now offset count }
{
    let size = file.len() as u64;
    offset <= size && count <= size - offset
}
