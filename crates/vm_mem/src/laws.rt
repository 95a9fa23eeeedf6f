// The laws of loads and stores, and of code.
ghost use Rattle.machine_defs.specs.Code.{SetCodeKeepsCode, StoreKeepsCode};
ghost use Rattle.vm_mem.specs.Laws.{LoadsWhatWasStored, StoreLeavesTheRest};

/// States what a load gives after a store. It does nothing.
///
/// At the place that was stored to it is the number's low bytes, and elsewhere what it was.
pub fn store_laws()
    ensures same_place { LoadsWhatWasStored }
    ensures elsewhere { StoreLeavesTheRest }
{}

/// States that no page is written and run: a word that can be fetched is the same after any store and any
/// `set_code`. It does nothing.
pub fn code_laws()
    ensures after_store { StoreKeepsCode }
    ensures after_set_code { SetCodeKeepsCode }
{}
