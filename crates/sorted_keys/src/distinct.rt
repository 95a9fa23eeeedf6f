// Whether no key comes twice.
ghost use Rattle.std.specs.Prelude.{◌≡◌};
ghost use Rattle.chain_defs.specs.Hashes as hashes;

/// Whether no two keys are equal. It puts them in rising order.
pub fn are_distinct<const N: usize>(keys: &mut [[u8; N]]) -> bool
    ensures { result ≡ hashes.are_distinct keys.old }
{
    keys.sort_unstable();
    'later: for i in 1..keys.len() {
        if keys[i - 1] == keys[i] {
            return false;
        }
    }
    true
}
