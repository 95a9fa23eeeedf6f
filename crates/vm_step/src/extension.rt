// What a load leaves in a register.
ghost use Rattle.std.specs.Prelude.{◌≡◌};
ghost use Rattle.vm_step.specs.Extension.{extended};

use machine_defs::Width;

/// How a number that was loaded is extended to 64 bits.
#[derive(Clone, Copy)]
pub(crate) enum Extension {
    Sign,
    Zero,
}

/// A number that was loaded, as a register holds it.
#[inline(always)]
#[tactic(auto, unfolding(machine_defs::specs::Step::extended_from))]
pub(crate) fn extended(extension: Extension, width: Width, n: u64) -> u64
    ensures { result ≡ extended extension width n }
{
    match extension {
        Extension::Zero => n,
        Extension::Sign => match width {
            Width::B1 => i64::from(((n % 0x100) as u8).cast_signed()).cast_unsigned(),
            Width::B2 => i64::from(((n % 0x1_0000) as u16).cast_signed()).cast_unsigned(),
            Width::B4 => i64::from(((n % 0x1_0000_0000) as u32).cast_signed()).cast_unsigned(),
            Width::B8 => n,
        },
    }
}
