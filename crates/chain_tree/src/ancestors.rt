// Places up the path of a place. Beside its parent each entry has a jump to an ancestor, by the skew-binary rule of
// Myers ("An applicative random-access stack", 1983): a walk takes at most about 3 log2 of the entry's number of steps.
ghost use Rattle.std.specs.Prelude.{◌≡◌, ◌<◌, ◌≤◌, IsSomeAnd, length};
ghost use Rattle.chain_tree.specs.Entries.{entry_at, IsAncestor, IsTree};
ghost use Rattle.chain_tree.specs.Indexed.{AreJumps};

use crate::entry::Entry;

/// The next place towards a number: the jump of a place where it does not pass that number, else the parent.
fn next_up(entries: &[Entry], jumps: &[u32], place: u32, number: u64) -> u32
    requires tree { IsTree entries.now }
    requires jumps { AreJumps entries.now jumps.now }
    requires above { IsSomeAnd (entry_at entries.now place) (λ entry. number < entry.number) }
    ensures up { IsAncestor entries.now place result }
    ensures nearer { result < place }
    ensures at_least { IsSomeAnd (entry_at entries.now result) (λ entry. number ≤ entry.number) }
{
    let jump = jumps[place as usize];
    if number <= entries[jump as usize].number {
        jump
    } else {
        entries[place as usize].parent
    }
}

/// The place on the path of a place whose number is this one.
pub fn ancestor_of(entries: &[Entry], jumps: &[u32], place: u32, number: u64) -> u32
    requires tree { IsTree entries.now }
    requires jumps { AreJumps entries.now jumps.now }
    requires at_most { IsSomeAnd (entry_at entries.now place) (λ entry. number ≤ entry.number) }
    ensures up { IsAncestor entries.now place result }
    ensures number { IsSomeAnd (entry_at entries.now result) (λ entry. entry.number ≡ number) }
{
    let mut at = place;
    'walk: while number < entries[at as usize].number {
        at = next_up(entries, jumps, at, number);
    }
    at
}

/// The jump of an entry on this parent: where the parent's jump and the one after it go over as many numbers, both
/// in one, else the parent.
pub fn jump_over(entries: &[Entry], jumps: &[u32], parent: u32) -> u32
    requires tree { IsTree entries.now }
    requires jumps { AreJumps entries.now jumps.now }
    requires within { parent < length entries.now }
    ensures up { IsAncestor entries.now parent result }
    ensures within { result < length entries.now }
{
    let first = jumps[parent as usize];
    let second = jumps[first as usize];
    let middle = entries[first as usize].number;
    if entries[parent as usize].number - middle == middle - entries[second as usize].number {
        second
    } else {
        parent
    }
}
