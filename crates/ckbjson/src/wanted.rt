// What is wanted in each place of a text: the tables of keys that `Form` and `Blocks` of json_defs, and `Form` of json_spec,
// have as definitions.
use crate::words::Kind;

/// What is wanted in a place.
#[derive(Clone, Copy)]
pub(crate) enum Wanted {
    /// A number of so many bits.
    Number(usize),
    /// An epoch value, as a number or by hand.
    Epochs,
    /// Bytes, any number of them.
    Bytes,
    /// So many bytes.
    Array(usize),
    HashType,
    DepType,
    Object(Object),
    /// A script, or null.
    OptionalScript,
    List(Listed),
    /// What is not looked at.
    Anything,
}

/// An object with keys of its own.
#[derive(Clone, Copy)]
pub(crate) enum Object {
    Script,
    OutPoint,
    Input,
    Dep,
    Output,
    Transaction,
    Header,
    Uncle,
    Block,
    Witness,
    Specification,
}

/// What a list is of.
#[derive(Clone, Copy)]
pub(crate) enum Listed {
    Deps,
    Hashes,
    Inputs,
    Outputs,
    Contents,
    Ids,
    Transactions,
    Uncles,
}

/// A key, and what is wanted there.
pub(crate) type Key = (&'static str, Wanted);

const SCRIPT: [Key; 3] = [
    ("args", Wanted::Bytes),
    ("code_hash", Wanted::Array(32)),
    ("hash_type", Wanted::HashType),
];

const OUT_POINT: [Key; 2] = [
    ("index", Wanted::Number(32)),
    ("tx_hash", Wanted::Array(32)),
];

const INPUT: [Key; 2] = [
    ("previous_output", Wanted::Object(Object::OutPoint)),
    ("since", Wanted::Number(64)),
];

const DEP: [Key; 2] = [
    ("dep_type", Wanted::DepType),
    ("out_point", Wanted::Object(Object::OutPoint)),
];

const OUTPUT: [Key; 3] = [
    ("capacity", Wanted::Number(64)),
    ("lock", Wanted::Object(Object::Script)),
    ("type", Wanted::OptionalScript),
];

const TRANSACTION: [Key; 7] = [
    ("cell_deps", Wanted::List(Listed::Deps)),
    ("header_deps", Wanted::List(Listed::Hashes)),
    ("inputs", Wanted::List(Listed::Inputs)),
    ("outputs", Wanted::List(Listed::Outputs)),
    ("outputs_data", Wanted::List(Listed::Contents)),
    ("version", Wanted::Number(32)),
    ("witnesses", Wanted::List(Listed::Contents)),
];

const HEADER: [Key; 11] = [
    ("compact_target", Wanted::Number(32)),
    ("dao", Wanted::Array(32)),
    ("epoch", Wanted::Number(64)),
    ("nonce", Wanted::Number(128)),
    ("number", Wanted::Number(64)),
    ("parent_hash", Wanted::Array(32)),
    ("proposals_hash", Wanted::Array(32)),
    ("timestamp", Wanted::Number(64)),
    ("transactions_root", Wanted::Array(32)),
    ("uncles_hash", Wanted::Array(32)),
    ("version", Wanted::Number(32)),
];

const UNCLE: [Key; 2] = [
    ("header", Wanted::Object(Object::Header)),
    ("proposals", Wanted::List(Listed::Ids)),
];

const BLOCK: [Key; 4] = [
    ("header", Wanted::Object(Object::Header)),
    ("proposals", Wanted::List(Listed::Ids)),
    ("transactions", Wanted::List(Listed::Transactions)),
    ("uncles", Wanted::List(Listed::Uncles)),
];

const WITNESS: [Key; 2] = [
    ("lock", Wanted::Object(Object::Script)),
    ("message", Wanted::Bytes),
];

const SPECIFICATION: [Key; 12] = [
    ("compact_target", Wanted::Number(32)),
    ("dao_code_hash", Wanted::Array(32)),
    ("epoch_length", Wanted::Number(32)),
    ("halving_interval", Wanted::Number(64)),
    ("maturity", Wanted::Epochs),
    ("max_block_bytes", Wanted::Number(32)),
    ("max_cycles", Wanted::Number(64)),
    ("max_proposals", Wanted::Number(32)),
    ("primary_reward", Wanted::Number(64)),
    ("secondary_reward", Wanted::Number(64)),
    ("w_close", Wanted::Number(32)),
    ("w_far", Wanted::Number(32)),
];

/// The object of a kind.
pub(crate) fn object_of(kind: Kind) -> Object {
    match kind {
        Kind::Transaction => Object::Transaction,
        Kind::Block => Object::Block,
        Kind::Script => Object::Script,
        Kind::Witness => Object::Witness,
        Kind::Specification => Object::Specification,
    }
}

impl Object {
    /// The keys that an object has.
    pub(crate) fn keys(self) -> &'static [Key] {
        match self {
            Object::Script => &SCRIPT,
            Object::OutPoint => &OUT_POINT,
            Object::Input => &INPUT,
            Object::Dep => &DEP,
            Object::Output => &OUTPUT,
            Object::Transaction => &TRANSACTION,
            Object::Header => &HEADER,
            Object::Uncle => &UNCLE,
            Object::Block => &BLOCK,
            Object::Witness => &WITNESS,
            Object::Specification => &SPECIFICATION,
        }
    }

    /// Whether it may have a key `hash` too, whose value is not looked at.
    pub(crate) fn may_have_hash(self) -> bool {
        matches!(self, Object::Transaction | Object::Header)
    }
}

impl Listed {
    /// What each item is.
    pub(crate) fn item(self) -> Wanted {
        match self {
            Listed::Deps => Wanted::Object(Object::Dep),
            Listed::Hashes => Wanted::Array(32),
            Listed::Inputs => Wanted::Object(Object::Input),
            Listed::Outputs => Wanted::Object(Object::Output),
            Listed::Contents => Wanted::Bytes,
            Listed::Ids => Wanted::Array(10),
            Listed::Transactions => Wanted::Object(Object::Transaction),
            Listed::Uncles => Wanted::Object(Object::Uncle),
        }
    }
}
