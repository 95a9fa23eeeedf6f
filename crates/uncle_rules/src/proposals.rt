// The proposal ids of an uncle.
ghost use Rattle.std.specs.Prelude.{◌≡◌, ◌<◌, Some, length, slice_get, IfOk};
ghost use Rattle.chain_defs.specs.Hashes as hashes;
ghost use Rattle.rule_defs.specs.Uncles as rules;

use blake2b_ckb::Hasher;
use epochs::Spec;
use mol_schema::UncleView;
use outside::NoMemory;
use std::alloc::Global;

/// The hash that a header has of the proposal ids.
fn proposals_hash(uncle: &UncleView<'_>) -> [u8; 32]
    ensures { result ≡ hashes.proposals_hash uncle.now.proposals }
{
    if uncle.proposals_count() == 0 {
        return [0; 32];
    }
    let mut hasher = Hasher::new();
    'ids: for i in 0..uncle.proposals_count() {
        hasher.update(uncle.proposals_item(i));
    }
    hasher.finalize()
}

/// The proposal id at a place.
fn id_at(uncle: &UncleView<'_>, i: usize) -> [u8; 10]
    requires { i < length uncle.now.proposals }
    ensures { slice_get uncle.now.proposals i ≡ Some result }
{
    let mut id = [0; 10];
    id.copy_from_slice(uncle.proposals_item(i));
    id
}

/// The proposal ids, in their order.
fn ids_of(alloc: Global, uncle: &UncleView<'_>) -> Result<Vec<[u8; 10]>, NoMemory>
    ensures { IfOk result (λ ids. ids.items ≡ uncle.now.proposals) }
{
    let mut ids = Vec::with_capacity(alloc, uncle.proposals_count())?;
    'ids: for i in 0..uncle.proposals_count() {
        ids.push(id_at(uncle, i))?;
    }
    Ok(ids)
}

/// Whether no proposal id comes twice. Who proposes picks them, so they are sorted and not hashed.
fn are_ids_distinct(alloc: Global, uncle: &UncleView<'_>) -> Result<bool, NoMemory>
    ensures { IfOk result (λ distinct. distinct ≡ hashes.are_distinct uncle.now.proposals) }
{
    let mut ids = ids_of(alloc, uncle)?;
    Ok(sorted_keys::are_distinct(&mut ids))
}

/// Whether an uncle's proposal ids are so many at most, all distinct, and its header commits to them.
pub(crate) fn proposes_well(
    alloc: Global,
    spec: &Spec,
    uncle: &UncleView<'_>,
) -> Result<bool, NoMemory>
    ensures { IfOk result (λ well. well ≡ rules.proposes_well spec.now uncle.now) }
{
    if uncle.proposals_count() > spec.max_proposals as usize {
        return Ok(false);
    }
    if !are_ids_distinct(alloc, uncle)? {
        return Ok(false);
    }
    Ok(uncle.header().proposals_hash() == proposals_hash(uncle).as_slice())
}
