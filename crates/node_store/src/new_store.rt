// A new store.
ghost use Rattle.std.specs.Prelude.{◌≡◌, ◌<◌, ◌^◌, ℕ, Err, None, Some, length, IsSome, IfOk, OnOk};
ghost use Rattle.chain_defs.specs.Shape.{decoded};
ghost use Rattle.chain_defs.specs.Schema as schema;
ghost use Rattle.outside.specs.Causes.{CountsFault};
ghost use Rattle.outside.specs.Disk.{LeavesOnly, IsKnownAsBefore};
ghost use Rattle.outside.specs.declared.disk.WriteStop.TheVariants.{DiskFault};
ghost use Rattle.chain_defs.specs.Specification.{broken_specification_rule};
ghost use Rattle.rule_defs.specs.Genesis.{broken_genesis_rule};
ghost use Rattle.node_store.specs.Node.{IsHashOf, IsNew, KeepsLog, HasOldLogOrNoSnapshots};

use crate::area::clear;
use epochs::Spec;
use log_file::judge_genesis;
use mol_schema::BlockView;
use outside::{Area, Disk, WriteStop};
use std::alloc::Global;
use std::error::Error;
use std::fmt;
use std::marker::Model;
use view_hashes::block_hash;

/// Why no store is made of a specification and a genesis.
#[derive(Clone, Copy, Debug, PartialEq, Eq)]
pub enum NewStop {
    /// The specification breaks the rule of this number, S1 to S7, and none before it.
    BadSpec(u8),
    /// The specification breaks none, and the genesis the rule of this number, G1 to G7, and none before it.
    BadGenesis(u8),
    NoMemory,
}

impl fmt::Display for NewStop {
    fn fmt<W: fmt::Write>(&self, f: &mut fmt::Formatter<W>) -> fmt::Result {
        match self {
            NewStop::BadSpec(number) => write!(f, "the specification breaks S{number}"),
            NewStop::BadGenesis(number) => write!(f, "the genesis breaks G{number}"),
            NewStop::NoMemory => write!(f, "out of memory"),
        }
    }
}

impl Error for NewStop {}

/// A specification and a genesis that keep their rules.
#[derive(Drop)]
pub struct NewStore<'a> {
    spec: &'a [u8],
    genesis: &'a [u8],
    hash: [u8; 32],
}

impl<'a> Model for NewStore<'a> {
    ghost use Rattle.node_store.specs.Node.{NewStoreValue, AreJudged};

    ghost Value = { NewStoreValue };

    ghost view = { λ new. record { specification = new.spec.now; genesis = new.genesis.now } };

    ghost invariant = { λ new. AreJudged new.spec.now new.genesis.now new.hash };
}

/// Judges a specification by S1 to S7, and then a genesis by G1 to G7 (docs/RULES.md). Memory is wanted only where the
/// specification breaks none and the genesis is a block.
pub fn judge<'a>(alloc: Global, spec: &'a [u8], genesis: &'a [u8]) -> Result<NewStore<'a>, NewStop>
    requires spec { length spec.now < 2 ^ 32 }
    requires genesis { length genesis.now < 2 ^ 32 }
    ensures both { IfOk result (λ new. (new.specification ≡ spec.now) × (new.genesis ≡ genesis.now)) }
    ensures good_spec { OnOk result (broken_specification_rule spec.now ≡ None) }
    ensures good_genesis { OnOk result (broken_genesis_rule genesis.now ≡ None) }
    ensures bad_spec { (rule : ℕ) → result ≡ Err (NewStop.BadSpec rule) → broken_specification_rule spec.now ≡ Some rule }
    ensures bad_genesis { (rule : ℕ) → result ≡ Err (NewStop.BadGenesis rule)
        → (broken_specification_rule spec.now ≡ None) × (broken_genesis_rule genesis.now ≡ Some rule) }
    ensures asked { result ≡ Err NewStop.NoMemory → (broken_specification_rule spec.now ≡ None) × IsSome (decoded schema.block genesis.now) }
{
    if let Err(rule) = Spec::read(spec) {
        return Err(NewStop::BadSpec(rule));
    }
    let Some(block) = BlockView::read(genesis) else {
        return Err(NewStop::BadGenesis(1));
    };
    match judge_genesis(alloc, &block) {
        Err(_) => Err(NewStop::NoMemory),
        Ok(Some(rule)) => Err(NewStop::BadGenesis(rule)),
        Ok(None) => Ok(NewStore {
            spec,
            genesis,
            hash: block_hash(&block),
        }),
    }
}

impl<'a> NewStore<'a> {
    /// The hash of the genesis.
    pub fn genesis_hash(&self) -> [u8; 32]
        ensures { IsHashOf self.now.genesis result }
    {
        self.hash
    }

    /// Makes the store, in place of what the disk holds: after `Ok` a crash leaves the log of these two items and not a
    /// byte more. The snapshots are cleared before LOG is touched; of LOG nothing is promised then before it is whole.
    pub fn create<D: Disk>(&self, alloc: Global, disk: &mut D) -> Result<(), WriteStop>
        ensures made { IsSome (D.reads_as disk.old) → OnOk result (IsNew self.now.specification self.now.genesis (D.reads_as disk.new) (D.images disk.new)) }
        ensures unmade { result ≡ Err WriteStop.NoMemory → KeepsLog (D.reads_as disk.old) (D.reads_as disk.new) (D.images disk.old) (D.images disk.new) }
        ensures moments { IsSome (D.reads_as disk.old) → LeavesOnly D.moment D.left_since disk.old disk.new (HasOldLogOrNoSnapshots (D.images disk.old)) }
        ensures told { IsKnownAsBefore (D.reads_as disk.old) (D.reads_as disk.new) }
        ensures cause { CountsFault (D.faults disk.old) (D.faults disk.new) (result ≡ Err DiskFault) }
    {
        match clear(disk, Area::SnapA) {
            Ok(()) => {}
            Err(_) => return Err(WriteStop::DiskFault),
        }
        match clear(disk, Area::SnapB) {
            Ok(()) => {}
            Err(_) => return Err(WriteStop::DiskFault),
        }
        match log_file::create(alloc, disk, self.spec, self.genesis) {
            Err(stop) => Err(stop),
            Ok(_) => Ok(()),
        }
    }
}
