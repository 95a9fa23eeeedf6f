// The laws of imports that are begun again.
ghost use Rattle.report_defs.specs.SoakLaws.{PrefixesReplay, GeneratedNameNoLater, JoinedAreCounted};

use chain_defs::canonical;
use gen_defs::walk_laws;

/// States that imports of prefixes of one list, each begun with its first item, come to the import of the longest of them, where no item
/// names itself or a later one as its parent; that so it is of the blocks of a seed where their hashes differ; and that as many
/// blocks are kept more as items joined. It does nothing.
pub fn soak_laws()
    ensures prefixes_replay { PrefixesReplay }
    ensures generated_name_no_later { GeneratedNameNoLater }
    ensures joined_are_counted { JoinedAreCounted }
{
    walk_laws();
    canonical();
}
