//! Rows by their hash, and made-up ones.
use blake2b_ckb::{Hasher, ckbhash};
use cell_state::{CellMeta, OutPoint, State};
use std::alloc::Global;

/// Hashes the bytes of a row on, as docs/STORE.md has them.
pub(crate) fn hash_on(hasher: &mut Hasher, o: &OutPoint, meta: &CellMeta) {
    hasher.update(&o.tx_hash);
    hasher.update(&o.index.to_le_bytes());
    hasher.update(&meta.block.to_le_bytes());
    hasher.update(&meta.tx.to_le_bytes());
    hasher.update(&meta.capacity.to_le_bytes());
    hasher.update(&meta.occupied.to_le_bytes());
    hasher.update(&meta.lock_hash);
    match &meta.type_hash {
        None => hasher.update(&[0; 33]),
        Some(hash) => {
            hasher.update(&[1]);
            hasher.update(hash);
        }
    }
    hasher.update(&meta.data_hash);
    hasher.update(&meta.data_len.to_le_bytes());
}

/// The hash of all rows in order.
pub(crate) fn hash_of_all(alloc: Global, state: &State) -> Option<[u8; 32]> {
    let mut hasher = Hasher::new();
    for row in &state.sorted(alloc).ok()? {
        hash_on(&mut hasher, &row.0, &row.1);
    }
    Some(hasher.finalize())
}

/// The index of a made-up row: four rows have a hash in common, and their order by bytes is another than by number.
fn made_up_index(i: u32) -> u32 {
    match i % 4 {
        0 => 3,
        1 => 70_000,
        2 => 256,
        _ => 1,
    }
}

/// The made-up row of a number.
pub(crate) fn made_up(i: u32) -> (OutPoint, CellMeta) {
    let tx_hash = ckbhash(&(i / 4).to_le_bytes());
    let lock_hash = ckbhash(&i.to_le_bytes());
    let type_hash = if i % 2 == 0 { Some(tx_hash) } else { None };
    let o = OutPoint {
        tx_hash,
        index: made_up_index(i),
    };
    let meta = CellMeta {
        block: i % 1000,
        tx: i % 7,
        capacity: u64::from(i) * 1_000_000_007,
        occupied: u64::from(i) * 1009,
        lock_hash,
        type_hash,
        data_hash: [0; 32],
        data_len: i,
    };
    (o, meta)
}
