// Transactions, uncles and blocks.
use crate::list_rows::{
    CellDeps, HeaderDeps, Inputs, Outputs, OutputsData, Proposals, Transactions, UncleProposals,
    Uncles, Witnesses,
};
use crate::text::{Text, Written};
use mol_schema::{BlockView, TxView, UncleView};

impl Written for TxView<'_> {
    ghost use Rattle.json_defs.specs.Blocks as form;

    ghost tree = { form.transaction.tree };

    fn write(&self, out: &mut Text) {
        let raw = self.raw();
        out.list_row::<CellDeps, _>(b'{', "cell_deps", raw.cell_deps_count(), &raw);
        out.list_row::<HeaderDeps, _>(b',', "header_deps", raw.header_deps_count(), &raw);
        out.list_row::<Inputs, _>(b',', "inputs", raw.inputs_count(), &raw);
        out.list_row::<Outputs, _>(b',', "outputs", raw.outputs_count(), &raw);
        out.list_row::<OutputsData, _>(b',', "outputs_data", raw.outputs_data_count(), &raw);
        out.number_row(b',', "version", raw.version() as u128);
        out.list_row::<Witnesses, _>(b',', "witnesses", self.witnesses_count(), self);
        out.put(b"}")
    }
}

impl Written for UncleView<'_> {
    ghost use Rattle.json_defs.specs.Blocks as form;

    ghost tree = { form.uncle.tree };

    fn write(&self, out: &mut Text) {
        out.row(b'{', "header", &self.header());
        out.list_row::<UncleProposals, _>(b',', "proposals", self.proposals_count(), self);
        out.put(b"}")
    }
}

impl Written for BlockView<'_> {
    ghost use Rattle.json_defs.specs.Blocks as form;

    ghost tree = { form.block.tree };

    fn write(&self, out: &mut Text) {
        out.row(b'{', "header", &self.header());
        out.list_row::<Proposals, _>(b',', "proposals", self.proposals_count(), self);
        out.list_row::<Transactions, _>(b',', "transactions", self.transactions_count(), self);
        out.list_row::<Uncles, _>(b',', "uncles", self.uncles_count(), self);
        out.put(b"}")
    }
}
