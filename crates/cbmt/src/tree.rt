// The root of a complete binary Merkle tree (RFC 0006).

ghost use Rattle.std.specs.Prelude.{◌≡◌, ◌+◌, ◌*◌, ◌^◌, ◌<◌, ◌≤◌, ◌++◌, [], length, IfOk, slice_index_or};
ghost use Rattle.chain_defs.specs.CkbHash.{ckbhash};
ghost use Rattle.chain_defs.specs.Root.{node, root};

use blake2b_ckb::Hasher;
use outside::NoMemory;
use std::alloc::Global;

/// A hash: what the tree is made of.
type Hash = [u8; 32];

/// The root of the items. Each inner node is hashed once, from the last one up to the root.
pub fn root(alloc: Global, items: &[[u8; 32]]) -> Result<[u8; 32], NoMemory>
    requires { length items.now < 2 ^ 31 }
    ensures { IfOk result (λ hash. hash ≡ root items.now) }
{
    if items.is_empty() {
        return Ok([0; 32]);
    }
    let inner_count = items.len() - 1;
    let mut inner = vec![in alloc; [0u8; 32]; inner_count]?;
    'inner_nodes: for j in (0..inner_count).rev() {
        inner[j] = hash_pair(
            node_at(items, &inner, 2 * j + 1),
            node_at(items, &inner, 2 * j + 2),
        );
    }
    Ok(*node_at(items, &inner, 0))
}

/// Node `j`, by the items and the inner nodes: the items come after the inner nodes.
fn node_at<'a>(items: &'a [Hash], inner: &'a [Hash], j: usize) -> &'a Hash
    requires count { length inner.now + 1 ≡ length items.now }
    requires within { j ≤ 2 * length inner.now }
    requires known { j < length inner.now → slice_index_or inner.now j [] ≡ node items.now j }
    ensures { result.now ≡ node items.now j }
{
    if j < inner.len() {
        &inner[j]
    } else {
        &items[j - inner.len()]
    }
}

fn hash_pair(left: &Hash, right: &Hash) -> Hash
    ensures { result ≡ ckbhash (left.now ++ right.now) }
{
    let mut hasher = Hasher::new();
    hasher.update(left);
    hasher.update(right);
    hasher.finalize()
}
