// The codes of scripts, among the resolved deps (RFC 0022, "Code Locating").
ghost use Rattle.std.specs.Prelude.{◌≡◌, ◌||◌, not, ℕ, List, IfOk};
ghost use Rattle.std.specs.HashMap.{get};
ghost use Rattle.std.specs.Str.{bytes_eq};
ghost use Rattle.verdict_defs.specs.Codes.{code_of, code_by_data, code_by_type};
ghost use Rattle.verdict_defs.specs.Scene.{Scene};
ghost use Rattle.script_run.specs.Locating.{first_with_data, typed_with};
ghost use Rattle.script_run.specs.Shown.{AreCodesIn, code_meaning};

use cell_state::Resolved;
use mol_schema::ScriptView;
use outside::NoMemory;
use std::alloc::Global;
use std::collections::HashMap;
use std::marker::Model;

/// The code hash is the hash of the code.
const BY_DATA: u8 = 0;

/// The code hash is the hash of the type script of the cell that holds the code.
const BY_TYPE: u8 = 1;

/// The code of a script.
#[derive(Clone, Copy)]
pub(crate) enum Located<'a> {
    /// No dep is named.
    NoCode,
    /// More than one is, by a type script, and they are not one code.
    ManyCodes,
    At(&'a [u8]),
}

/// The deps with a hash of their type script.
#[derive(Clone, Copy)]
struct Typed {
    /// The place of the first of them.
    first: usize,
    /// There are others, and with them it is not one code.
    many: bool,
}

/// The resolved deps, found by their hashes. Clauses see the list of the deps, and whether code is found by the second
/// edition.
#[derive(Drop)]
pub(crate) struct Codes<'a> {
    deps: &'a [Resolved],
    second: bool,
    /// The place of the first dep with a hash of its data.
    by_data: HashMap<[u8; 32], usize>,
    by_type: HashMap<[u8; 32], Typed>,
}

impl<'a> Model for Codes<'a> {
    ghost use Rattle.std.specs.Prelude.{◌≡◌, ℕ, List};
    ghost use Rattle.std.specs.HashMap.{get};
    ghost use Rattle.std.specs.Str.{bytes_eq};
    ghost use Rattle.script_run.specs.Locating.{first_with_data, typed_with};
    ghost use Rattle.script_run.specs.Shown.{CodesValue};

    ghost Value = { CodesValue };

    ghost view = { λ codes. record { deps = codes.deps.now; second = codes.second } };

    ghost invariant = { λ codes. (hash : List ℕ) → (get bytes_eq codes.by_data hash ≡ first_with_data hash 0 codes.deps.now)
        × (get bytes_eq codes.by_type hash ≡ typed_with codes.second hash 0 codes.deps.now) };
}

/// The place of the first of the deps with each hash of their data.
fn places_by_data(alloc: Global, deps: &[Resolved]) -> Result<HashMap<[u8; 32], usize>, NoMemory>
    ensures { (hash : List ℕ) → IfOk result (λ places. get bytes_eq places hash ≡ first_with_data hash 0 deps.now) }
{
    let mut places = HashMap::new(alloc);
    'deps: for done in 0..deps.len() {
        let place = deps.len() - 1 - done;
        let dep = &deps[place];
        let meta = &dep.meta;
        let hash = meta.data_hash;
        places.insert(hash, place)?;
    }
    Ok(places)
}

/// Whether a dep and the later ones with its type script are not one code: `next` is the first of these, and `many` says it of
/// them. Data is compared under the second edition alone, and that of each dep once.
fn are_many(dep: &Resolved, next: &Resolved, many: bool, second: bool) -> bool
    ensures { result ≡ many || not second || not (bytes_eq next.now.content dep.now.content) }
{
    many || !second || next.content.as_slice() != dep.content.as_slice()
}

/// The deps with each hash of their type script.
fn places_by_type(
    alloc: Global,
    deps: &[Resolved],
    second: bool,
) -> Result<HashMap<[u8; 32], Typed>, NoMemory>
    ensures { (hash : List ℕ) → IfOk result (λ places. get bytes_eq places hash ≡ typed_with second hash 0 deps.now) }
{
    let mut places: HashMap<[u8; 32], Typed> = HashMap::new(alloc);
    'deps: for done in 0..deps.len() {
        let first = deps.len() - 1 - done;
        let dep = &deps[first];
        let meta = &dep.meta;
        let type_hash = meta.type_hash;
        if let Some(hash) = type_hash {
            let many = match places.get(&hash) {
                None => false,
                Some(later) => are_many(dep, &deps[later.first], later.many, second),
            };
            places.insert(hash, Typed { first, many })?;
        }
    }
    Ok(places)
}

impl<'a> Codes<'a> {
    /// Takes each dep by its row's hashes, once.
    pub(crate) fn of(
        alloc: Global,
        deps: &'a [Resolved],
        second: bool,
    ) -> Result<Codes<'a>, NoMemory>
        ensures deps { IfOk result (λ codes. codes.deps ≡ deps.now) }
        ensures second { IfOk result (λ codes. codes.second ≡ second) }
    {
        let by_data = places_by_data(alloc, deps)?;
        let by_type = places_by_type(alloc, deps, second)?;
        Ok(Codes {
            deps,
            second,
            by_data,
            by_type,
        })
    }

    fn with_data_hash(&self, hash: [u8; 32]) -> Located<'a>
        ensures { (scene : Scene) → AreCodesIn self.now scene → code_meaning result ≡ code_by_data scene.deps hash }
    {
        match self.by_data.get(&hash) {
            None => Located::NoCode,
            Some(place) => {
                let dep = &self.deps[*place];
                Located::At(&dep.content)
            }
        }
    }

    fn with_type_hash(&self, hash: [u8; 32]) -> Located<'a>
        ensures { (scene : Scene) → AreCodesIn self.now scene → code_meaning result ≡ code_by_type scene.second scene.deps hash }
    {
        match self.by_type.get(&hash) {
            None => Located::NoCode,
            Some(typed) => {
                if typed.many {
                    Located::ManyCodes
                } else {
                    let dep = &self.deps[typed.first];
                    Located::At(&dep.content)
                }
            }
        }
    }

    /// The code of a script.
    #[tactic(auto, unfolding(verdict_defs::specs::Codes::code_of))]
    pub(crate) fn find(&self, script: &ScriptView<'_>) -> Located<'a>
        ensures { (scene : Scene) → AreCodesIn self.now scene → code_meaning result ≡ code_of scene.second scene.deps script.now }
    {
        let mut hash = [0; 32];
        hash.copy_from_slice(script.code_hash());
        match script.hash_type() {
            BY_DATA => self.with_data_hash(hash),
            BY_TYPE => self.with_type_hash(hash),
            _ => Located::NoCode,
        }
    }
}
