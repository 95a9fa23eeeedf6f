//! The 32 bytes of the DAO field.

ghost use Rattle.std.specs.Prelude.{◌≡◌, length};
ghost use Rattle.std.specs.Int.{w64, to_le_bytes, from_le_bytes};
ghost use Rattle.chain_defs.specs.Dao as dao;
ghost use Rattle.chain_defs.specs.Dao.{field_bytes, field_of_bytes};

use std::marker::Model;

/// The four numbers of a header's DAO field (RFC 0023), in shannons but for the rate.
#[derive(Clone, Copy, Debug, PartialEq, Eq)]
pub struct Dao {
    /// C: all that was issued.
    pub c: u64,
    /// AR: the accumulated rate.
    pub ar: u64,
    /// S: what is left of the secondary issuance for savers and the treasury.
    pub s: u64,
    /// U: what all live cells occupy.
    pub u: u64,
}

impl Model for Dao {
    ghost use Rattle.chain_defs.specs.Dao.{DaoField};

    ghost Value = { DaoField };

    ghost view = { λ dao. record { issued = dao.c; rate = dao.ar; savings = dao.s; occupied = dao.u } };

    ghost inverse = { λ field. record { c = field.issued; ar = field.rate; s = field.savings; u = field.occupied } };
}

#[tactic(auto, unfolding(chain_defs::specs::Dao::field_of_bytes))]
impl Dao {
    /// The field that the bytes hold.
    pub fn read(b: &[u8; 32]) -> Dao
        ensures field { result ≡ field_of_bytes b.now }
        ensures bytes { field_bytes result ≡ b.now }
    {
        Dao {
            c: u64_of(&b[0..8]),
            ar: u64_of(&b[8..16]),
            s: u64_of(&b[16..24]),
            u: u64_of(&b[24..32]),
        }
    }

    /// The bytes of the field.
    pub fn write(&self) -> [u8; 32]
        ensures bytes { result ≡ field_bytes self.now }
        ensures field { field_of_bytes result ≡ self.now }
    {
        let Dao { c, ar, s, u } = *self;
        let mut bytes = [0; 32];
        bytes[0..8].copy_from_slice(&c.to_le_bytes());
        bytes[8..16].copy_from_slice(&ar.to_le_bytes());
        bytes[16..24].copy_from_slice(&s.to_le_bytes());
        bytes[24..32].copy_from_slice(&u.to_le_bytes());
        bytes
    }
}

/// Whether the C and the AR of the field that the bytes hold are above 0.
pub fn is_rated(b: &[u8; 32]) -> bool
    ensures { result ≡ dao.is_rated b.now }
{
    let field = Dao::read(b);
    0 < field.c && 0 < field.ar
}

fn u64_of(bytes: &[u8]) -> u64
    requires { length bytes.now ≡ 8 }
    ensures number { result ≡ from_le_bytes w64 bytes.now }
    ensures bytes { to_le_bytes w64 result ≡ bytes.now }
{
    u64::from_le_bytes([
        bytes[0], bytes[1], bytes[2], bytes[3], bytes[4], bytes[5], bytes[6], bytes[7],
    ])
}
