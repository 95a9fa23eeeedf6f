// The lists of a block, by their items.
use crate::text::{Items, Text, Written};
use mol_schema::{BlockView, RawTxView, TxView, UncleView};

pub(crate) struct CellDeps;

impl Items<RawTxView<'_>> for CellDeps {
    ghost use Rattle.std.specs.Prelude.{map};
    ghost use Rattle.json_defs.specs.Blocks as form;

    ghost trees = { λ v. map form.cell_dep.tree v.cell_deps };

    fn write(of: &RawTxView<'_>, i: usize, out: &mut Text) {
        of.cell_deps_item(i).write(out)
    }
}

pub(crate) struct HeaderDeps;

impl Items<RawTxView<'_>> for HeaderDeps {
    ghost use Rattle.std.specs.Prelude.{map};
    ghost use Rattle.json_defs.specs.Form.{byte_string};

    ghost trees = { λ v. map byte_string.tree v.header_deps };

    fn write(of: &RawTxView<'_>, i: usize, out: &mut Text) {
        out.put_bytes(of.header_deps_item(i))
    }
}

pub(crate) struct Inputs;

impl Items<RawTxView<'_>> for Inputs {
    ghost use Rattle.std.specs.Prelude.{map};
    ghost use Rattle.json_defs.specs.Blocks as form;

    ghost trees = { λ v. map form.cell_input.tree v.inputs };

    fn write(of: &RawTxView<'_>, i: usize, out: &mut Text) {
        of.inputs_item(i).write(out)
    }
}

pub(crate) struct Outputs;

impl Items<RawTxView<'_>> for Outputs {
    ghost use Rattle.std.specs.Prelude.{map};
    ghost use Rattle.json_defs.specs.Blocks as form;

    ghost trees = { λ v. map form.cell_output.tree v.outputs };

    fn write(of: &RawTxView<'_>, i: usize, out: &mut Text) {
        of.outputs_item(i).write(out)
    }
}

pub(crate) struct OutputsData;

impl Items<RawTxView<'_>> for OutputsData {
    ghost use Rattle.std.specs.Prelude.{map};
    ghost use Rattle.json_defs.specs.Form.{byte_string};

    ghost trees = { λ v. map byte_string.tree v.outputs_data };

    fn write(of: &RawTxView<'_>, i: usize, out: &mut Text) {
        out.put_bytes(of.outputs_data_item(i))
    }
}

pub(crate) struct Witnesses;

impl Items<TxView<'_>> for Witnesses {
    ghost use Rattle.std.specs.Prelude.{map};
    ghost use Rattle.json_defs.specs.Form.{byte_string};

    ghost trees = { λ v. map byte_string.tree v.witnesses };

    fn write(of: &TxView<'_>, i: usize, out: &mut Text) {
        out.put_bytes(of.witnesses_item(i))
    }
}

pub(crate) struct UncleProposals;

impl Items<UncleView<'_>> for UncleProposals {
    ghost use Rattle.std.specs.Prelude.{map};
    ghost use Rattle.json_defs.specs.Form.{byte_string};

    ghost trees = { λ v. map byte_string.tree v.proposals };

    fn write(of: &UncleView<'_>, i: usize, out: &mut Text) {
        out.put_bytes(of.proposals_item(i))
    }
}

pub(crate) struct Proposals;

impl Items<BlockView<'_>> for Proposals {
    ghost use Rattle.std.specs.Prelude.{map};
    ghost use Rattle.json_defs.specs.Form.{byte_string};

    ghost trees = { λ v. map byte_string.tree v.proposals };

    fn write(of: &BlockView<'_>, i: usize, out: &mut Text) {
        out.put_bytes(of.proposals_item(i))
    }
}

pub(crate) struct Transactions;

impl Items<BlockView<'_>> for Transactions {
    ghost use Rattle.std.specs.Prelude.{map};
    ghost use Rattle.json_defs.specs.Blocks as form;

    ghost trees = { λ v. map form.transaction.tree v.transactions };

    fn write(of: &BlockView<'_>, i: usize, out: &mut Text) {
        of.transactions_item(i).write(out)
    }
}

pub(crate) struct Uncles;

impl Items<BlockView<'_>> for Uncles {
    ghost use Rattle.std.specs.Prelude.{map};
    ghost use Rattle.json_defs.specs.Blocks as form;

    ghost trees = { λ v. map form.uncle.tree v.uncles };

    fn write(of: &BlockView<'_>, i: usize, out: &mut Text) {
        of.uncles_item(i).write(out)
    }
}
