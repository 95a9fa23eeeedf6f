// The laws of the tables.
ghost use Rattle.chain_defs.specs.Schema as schema;
ghost use Rattle.json_defs.specs.Blocks as form;
ghost use Rattle.json_defs.specs.Laws.{IsReadBack, IsReadOnce, IsTextOfTree, IsTextBack, IsOneOfText, HasTexts};

/// States that the text of a block reads as its tree, that a block is read from its own tree, and that at most one
/// block is read from a tree. It does nothing.
pub fn form_laws()
    ensures text_of_tree { IsTextOfTree form.block }
    ensures read_back { IsReadBack form.block }
    ensures read_once { IsReadOnce form.block schema.block }
{}

/// States that the text of a block is read as this block, so that `from_json` of `to_json` gives the block back, and
/// that a text is read as at most one block. It does nothing.
pub fn reading_laws()
    ensures text_back { IsTextBack form.block }
    ensures one_block { IsOneOfText form.block schema.block }
{}

/// States all of that of a transaction, of a script, and of what the first witness of a cellbase holds. It does nothing.
pub fn item_laws()
    ensures transaction { HasTexts form.transaction schema.transaction }
    ensures script { HasTexts form.script schema.script }
    ensures cellbase_witness { HasTexts form.cellbase_witness schema.cellbase_witness }
{}
