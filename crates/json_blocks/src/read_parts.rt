// The parts of a transaction, and what the first witness of a cellbase holds, read from their trees.
use crate::by_keys::Rows;
use crate::items::{ByteString, DepType, Hash, HashType, U32, U64};
use crate::lists::Item;
use crate::stop::JsonStop;
use serde_json::Value;
use std::alloc::Global;

/// A script.
pub(crate) struct Script;

impl Item for Script {
    ghost use Rattle.json_blocks.specs.Reading.{script_at};

    ghost reads_as = { script_at };

    #[tactic(auto, unfolding(crate::specs::Reading::script_at))]
    fn read(alloc: Global, value: &Value) -> Result<Vec<u8>, JsonStop> {
        let mut rows = Rows::of(alloc, value, false)?;
        rows.read::<ByteString>("args");
        rows.read::<Hash>("code_hash");
        rows.read::<HashType>("hash_type");
        rows.table(&[1, 2, 0])
    }
}

/// An optional script: null where there is none.
pub(crate) struct OptionalScript;

impl Item for OptionalScript {
    ghost use Rattle.json_blocks.specs.Reading.{type_script_at};

    ghost reads_as = { type_script_at };

    #[tactic(auto, unfolding(crate::specs::Reading::type_script_at))]
    fn read(alloc: Global, value: &Value) -> Result<Vec<u8>, JsonStop> {
        match value {
            Value::Null => Ok(Vec::new(alloc)),
            _ => Script::read(alloc, value),
        }
    }
}

/// An out-point.
pub(crate) struct OutPoint;

impl Item for OutPoint {
    ghost use Rattle.json_blocks.specs.Reading.{out_point_at};

    ghost reads_as = { out_point_at };

    #[tactic(auto, unfolding(crate::specs::Reading::out_point_at))]
    fn read(alloc: Global, value: &Value) -> Result<Vec<u8>, JsonStop> {
        let mut rows = Rows::of(alloc, value, false)?;
        rows.read::<U32>("index");
        rows.read::<Hash>("tx_hash");
        rows.joined(&[1, 0])
    }
}

/// An input.
pub(crate) struct Input;

impl Item for Input {
    ghost use Rattle.json_blocks.specs.Reading.{cell_input_at};

    ghost reads_as = { cell_input_at };

    #[tactic(auto, unfolding(crate::specs::Reading::cell_input_at))]
    fn read(alloc: Global, value: &Value) -> Result<Vec<u8>, JsonStop> {
        let mut rows = Rows::of(alloc, value, false)?;
        rows.read::<OutPoint>("previous_output");
        rows.read::<U64>("since");
        rows.joined(&[1, 0])
    }
}

/// A cell dep.
pub(crate) struct Dep;

impl Item for Dep {
    ghost use Rattle.json_blocks.specs.Reading.{cell_dep_at};

    ghost reads_as = { cell_dep_at };

    #[tactic(auto, unfolding(crate::specs::Reading::cell_dep_at))]
    fn read(alloc: Global, value: &Value) -> Result<Vec<u8>, JsonStop> {
        let mut rows = Rows::of(alloc, value, false)?;
        rows.read::<DepType>("dep_type");
        rows.read::<OutPoint>("out_point");
        rows.joined(&[1, 0])
    }
}

/// An output.
pub(crate) struct Output;

impl Item for Output {
    ghost use Rattle.json_blocks.specs.Reading.{cell_output_at};

    ghost reads_as = { cell_output_at };

    #[tactic(auto, unfolding(crate::specs::Reading::cell_output_at))]
    fn read(alloc: Global, value: &Value) -> Result<Vec<u8>, JsonStop> {
        let mut rows = Rows::of(alloc, value, false)?;
        rows.read::<U64>("capacity");
        rows.read::<Script>("lock");
        rows.read::<OptionalScript>("type");
        rows.table(&[0, 1, 2])
    }
}

/// What the first witness of a cellbase holds.
pub(crate) struct CellbaseWitness;

impl Item for CellbaseWitness {
    ghost use Rattle.json_blocks.specs.Reading.{cellbase_witness_at};

    ghost reads_as = { cellbase_witness_at };

    #[tactic(auto, unfolding(crate::specs::Reading::cellbase_witness_at))]
    fn read(alloc: Global, value: &Value) -> Result<Vec<u8>, JsonStop> {
        let mut rows = Rows::of(alloc, value, false)?;
        rows.read::<Script>("lock");
        rows.read::<ByteString>("message");
        rows.table(&[0, 1])
    }
}
