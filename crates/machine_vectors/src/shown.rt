// A world that shows one item, whatever is asked for.
use outside::ReadStop;
use std::alloc::Global;
use vm_sys::{Call, Found, World};

/// Whether the item is there, and its bytes.
#[derive(Drop)]
pub(crate) struct Shown {
    found: Found,
    bytes: Vec<u8>,
}

impl Shown {
    pub(crate) fn new(alloc: Global, column: &str) -> Option<Shown> {
        let found = match column {
            "unknown" => Found::Unknown,
            "no_index" => Found::NoIndex,
            "missing" => Found::Missing,
            _ => Found::Here,
        };
        let bytes = match column.split_once(':') {
            Some((_, digits)) => hex::decode(alloc, digits).ok()?,
            None => Vec::new(alloc),
        };
        Some(Shown { found, bytes })
    }
}

impl World for Shown {
    ghost use Rattle.std.specs.Prelude.{Some, None, ⊤};
    ghost use Rattle.std.proofs.Common.{arith};
    ghost use Rattle.vm_sys.specs.Finding.{item_of};

    ghost told = { λ shown. Some (λ call. item_of shown.found (Some shown.bytes.items)) };

    ghost here = { λ shown. Some shown.bytes.items };

    ghost faults = { λ shown. 0 };

    ghost damages = { λ shown. (0, None) };

    ghost last_fault = { λ shown. omega arith };

    ghost Loans = { ⊤ };

    ghost loans_of = { λ shown. tt };

    ghost IsSound = { λ loans. ⊤ };

    ghost sound_where_told = { λ shown told. tt };

    fn find(&mut self, _call: Call) -> Result<Found, ReadStop> {
        Ok(self.found)
    }

    fn bytes(&self) -> &[u8] {
        &self.bytes
    }
}
