// The parts of a transaction, headers, and what the first witness of a cellbase holds.
use crate::text::{Text, Written};
use mol_schema::{
    CellbaseWitnessView, DepView, HeaderView, InputView, OutPointView, OutputView, ScriptView,
};

impl Written for ScriptView<'_> {
    ghost use Rattle.json_defs.specs.Blocks as form;

    ghost tree = { form.script.tree };

    fn write(&self, out: &mut Text) {
        out.bytes_row(b'{', "args", self.args());
        out.bytes_row(b',', "code_hash", self.code_hash());
        out.named_row(b',', "hash_type", "data", "type", self.hash_type());
        out.put(b"}")
    }
}

/// Null where there is no script.
impl Written for Option<ScriptView<'_>> {
    ghost use Rattle.json_defs.specs.Form.{option};
    ghost use Rattle.json_defs.specs.Blocks as form;

    ghost tree = { (option form.script).tree };

    fn write(&self, out: &mut Text) {
        match self {
            None => out.put(b"null"),
            Some(script) => script.write(out),
        }
    }
}

impl Written for OutPointView<'_> {
    ghost use Rattle.json_defs.specs.Blocks as form;

    ghost tree = { form.out_point.tree };

    fn write(&self, out: &mut Text) {
        out.number_row(b'{', "index", self.index() as u128);
        out.bytes_row(b',', "tx_hash", self.tx_hash());
        out.put(b"}")
    }
}

impl Written for InputView<'_> {
    ghost use Rattle.json_defs.specs.Blocks as form;

    ghost tree = { form.cell_input.tree };

    fn write(&self, out: &mut Text) {
        out.row(b'{', "previous_output", &self.previous_output());
        out.number_row(b',', "since", self.since() as u128);
        out.put(b"}")
    }
}

impl Written for DepView<'_> {
    ghost use Rattle.json_defs.specs.Blocks as form;

    ghost tree = { form.cell_dep.tree };

    fn write(&self, out: &mut Text) {
        out.named_row(b'{', "dep_type", "code", "dep_group", self.dep_type());
        out.row(b',', "out_point", &self.out_point());
        out.put(b"}")
    }
}

impl Written for OutputView<'_> {
    ghost use Rattle.json_defs.specs.Blocks as form;

    ghost tree = { form.cell_output.tree };

    fn write(&self, out: &mut Text) {
        out.number_row(b'{', "capacity", self.capacity() as u128);
        out.row(b',', "lock", &self.lock());
        out.row(b',', "type", &self.type_script());
        out.put(b"}")
    }
}

impl Written for HeaderView<'_> {
    ghost use Rattle.json_defs.specs.Blocks as form;

    ghost tree = { form.header.tree };

    fn write(&self, out: &mut Text) {
        out.number_row(b'{', "compact_target", self.compact_target() as u128);
        out.bytes_row(b',', "dao", self.dao());
        out.number_row(b',', "epoch", self.epoch() as u128);
        out.number_row(b',', "nonce", self.nonce());
        out.number_row(b',', "number", self.number() as u128);
        out.bytes_row(b',', "parent_hash", self.parent_hash());
        out.bytes_row(b',', "proposals_hash", self.proposals_hash());
        out.number_row(b',', "timestamp", self.timestamp() as u128);
        out.bytes_row(b',', "transactions_root", self.transactions_root());
        out.bytes_row(b',', "uncles_hash", self.uncles_hash());
        out.number_row(b',', "version", self.version() as u128);
        out.put(b"}")
    }
}

impl Written for CellbaseWitnessView<'_> {
    ghost use Rattle.json_defs.specs.Blocks as form;

    ghost tree = { form.cellbase_witness.tree };

    fn write(&self, out: &mut Text) {
        out.row(b'{', "lock", &self.lock());
        out.bytes_row(b',', "message", self.message());
        out.put(b"}")
    }
}
