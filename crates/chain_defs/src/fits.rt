ghost use Rattle.chain_defs.specs.FitLaws.{HashesHave32, RowsOfOutputsFit, InputsFit, TransactionsAreFew, InputsAreFew};

/// States that a hash has 32 bytes, that the outputs of a canonical block have rows that fit their bytes, that so do the
/// out-points that its inputs name, and that four bytes count its transactions, and the inputs of all of them. It does
/// nothing.
pub fn canonical()
    ensures hashes { HashesHave32 }
    ensures outputs { RowsOfOutputsFit }
    ensures inputs { InputsFit }
    ensures few_transactions { TransactionsAreFew }
    ensures few_inputs { InputsAreFew }
{}
