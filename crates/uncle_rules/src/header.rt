// A header by its hash and its number.
ghost use Rattle.std.specs.Prelude.{◌≡◌};
ghost use Rattle.uncle_rules.specs.Known as known;

use mol_schema::HeaderView;
use view_hashes::header_hash;

pub(crate) fn parent_hash_of(header: &HeaderView<'_>) -> [u8; 32]
    ensures { result ≡ header.now.parent_hash }
{
    let mut hash = [0; 32];
    hash.copy_from_slice(header.parent_hash());
    hash
}

/// Whether a number is the one that is looked for, if one is.
pub(crate) fn has_number(number: Option<u64>, own: u64) -> bool
    ensures { result ≡ known.has_number number own }
{
    match number {
        None => true,
        Some(number) => own == number,
    }
}

/// Whether a header has this hash and number.
pub(crate) fn is_named(header: &HeaderView<'_>, hash: &[u8; 32], number: Option<u64>) -> bool
    ensures { result ≡ known.is_named hash.now number header.now }
{
    header_hash(header) == *hash && has_number(number, header.number())
}
