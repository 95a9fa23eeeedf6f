// Out-points, rows, and the map from the one to the other.
ghost use Rattle.std.specs.Prelude.{◌≡◌, ◌<◌, ◌^◌, Option, is_some, map, not};
ghost use Rattle.std.specs.List.{list_any, range_with_len};
ghost use Rattle.chain_defs.specs.Schema as schema;
ghost use Rattle.chain_defs.specs.Row.{Row};

use mol_schema::{OutPointView, TxView};
use std::marker::Model;

/// An output of a transaction, by the transaction's hash and the output's index. Clauses see the schema's `OutPoint`.
#[derive(Clone, Copy, PartialEq, Eq)]
pub struct OutPoint {
    pub tx_hash: [u8; 32],
    pub index: u32,
}

impl Model for OutPoint {
    ghost use Rattle.chain_defs.specs.Schema as schema;

    ghost Value = { schema.OutPoint };

    ghost view = { λ o. record { tx_hash = o.tx_hash; index = o.index } };

    ghost inverse = { λ o. record { tx_hash = o.tx_hash; index = o.index } };
}

/// The out-point that stands in a transaction's bytes.
pub fn out_point_of(view: &OutPointView<'_>) -> OutPoint
    ensures { result ≡ view.now }
{
    let mut tx_hash = [0; 32];
    tx_hash.copy_from_slice(view.tx_hash());
    OutPoint {
        tx_hash,
        index: view.index(),
    }
}

/// What is kept of a live cell: its row. Clauses see a `Row` of the definitions.
#[derive(Clone, Copy, PartialEq, Eq)]
pub struct CellMeta {
    /// The place among the kept blocks of the block that made it. In the block that is judged: how many are kept.
    pub block: u32,
    /// The place of its transaction in that block.
    pub tx: u32,
    /// Shannons.
    pub capacity: u64,
    /// Shannons that the output occupies with its data.
    pub occupied: u64,
    pub lock_hash: [u8; 32],
    pub type_hash: Option<[u8; 32]>,
    pub data_hash: [u8; 32],
    /// Bytes of its data.
    pub data_len: u32,
}

impl Model for CellMeta {
    ghost use Rattle.chain_defs.specs.Row.{Row};

    ghost Value = { Row };

    ghost view = { λ meta. record {
      block = meta.block;
      transaction = meta.tx;
      capacity = meta.capacity;
      occupied = meta.occupied;
      lock_hash = meta.lock_hash;
      type_hash = meta.type_hash;
      data_hash = meta.data_hash;
      data_len = meta.data_len;
    } };

    ghost inverse = { λ row. record {
      block = row.block;
      tx = row.transaction;
      capacity = row.capacity;
      occupied = row.occupied;
      lock_hash = row.lock_hash;
      type_hash = row.type_hash;
      data_hash = row.data_hash;
      data_len = row.data_len;
    } };
}

/// The live cells that something sees, by their out-points.
pub trait Cells {
    /// The rows, as a function from out-points.
    ghost rows: { Self → schema.OutPoint → Option Row };

    fn get(&self, o: &OutPoint) -> Option<CellMeta>
        ensures { result ≡ rows self.now o.now };
}

/// Whether no cell is live with the hash of a transaction and an index below a count.
pub fn is_none_live<C: Cells>(hash: [u8; 32], count: usize, cells: &C) -> bool
    requires { count < 2 ^ 32 }
    ensures { result ≡ not (list_any (λ o. is_some (C.rows cells.now o)) (map (λ index. record { tx_hash = hash; index = index }) (range_with_len 0 count))) }
{
    'indexes: for i in 0..count {
        let made = OutPoint {
            tx_hash: hash,
            index: i as u32,
        };
        if cells.get(&made).is_some() {
            return false;
        }
    }
    true
}

/// A live cell with a copy of its bytes: the encoding of its output, and its data.
#[derive(Drop)]
pub struct Resolved {
    pub out_point: OutPoint,
    pub meta: CellMeta,
    pub output: Vec<u8>,
    pub content: Vec<u8>,
}

impl Model for Resolved {
    ghost use Rattle.cell_state.specs.Copies.{ResolvedValue};

    ghost Value = { ResolvedValue };

    ghost view = { λ it. record { out_point = it.out_point; row = it.meta; output = it.output.items; content = it.content.items } };
}

/// A transaction with its hash, the cells of its inputs and of its resolved deps, each in their order, and the places
/// of its header deps in the tree. Clauses see a record of lists.
#[derive(Drop)]
pub struct ResolvedTx<'a> {
    pub tx: TxView<'a>,
    pub hash: [u8; 32],
    pub inputs: Vec<Resolved>,
    pub deps: Vec<Resolved>,
    pub headers: Vec<u32>,
}

impl<'a> Model for ResolvedTx<'a> {
    ghost use Rattle.cell_state.specs.Copies.{ResolvedTxValue};

    ghost Value = { ResolvedTxValue };

    ghost view = { λ it. record { tx = it.tx; hash = it.hash; inputs = it.inputs.items; deps = it.deps.items; headers = it.headers.items } };
}
