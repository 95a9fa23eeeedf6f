// The one call.
ghost use Rattle.std.specs.Prelude.{◌≡◌, ◌≢◌, ◌↔◌, ◌+◌, ◌≤◌, None, Some, map, slice_index, string_bytes};
ghost use Rattle.outside.specs.Causes.{CountsFault};
ghost use Rattle.outside.specs.Disk.{IsAsBefore, IsOnlyRead, IsKnownAsBefore};
ghost use Rattle.outside.specs.Image.{Image};
ghost use Rattle.disk_defs.specs.Log.{end_of_log};
ghost use Rattle.store_defs.specs.Store.{NoLog, Keeps, store_of, StandsFor};
ghost use Rattle.verdict_defs.specs.Chain.{Chain};
ghost use Rattle.report_defs.specs.Items.{split_of};
ghost use Rattle.report_defs.specs.Report.{import_limits};
ghost use Rattle.report_defs.specs.Words as grammar;
ghost use Rattle.report_defs.specs.Status.{IsOneOf};
ghost use Rattle.report_defs.specs.Promise.{statuses_of};
ghost use Rattle.report_defs.specs.Survival.{IsPromised, CallsNoDisk, OpensStore, AsksStore, Imports, Migrates, KeepsRecords, MayAdd, NoneJoins, refusals, as_before};
ghost use Rattle.run_text.specs.Items.{SourceGave};
ghost use Rattle.node_store.specs.OpeningSteps.{moves_to_open};
ghost use Rattle.node_store.specs.Steps.{steps_over};
ghost use Rattle.run_text.specs.Output.{Transfers};

use outside::{Disk, Sink, Source, Steps};
use report_defs::{Command, Status};
use run_alone::standalone;
use run_import::import;
use run_init::init;
use run_migration::migrate;
use run_query::query;
use run_question::question;
use run_simulation::simulate;
use run_text::command_of;
use std::alloc::Global;
use std::sync::ledger::Ledger;

/// Does what the words ask for: reads the input, writes its text, and answers how it ended.
/// The words are a folder, which is any word that is not empty, and a command: `init`, `import`, `tip`, `epoch`, `audit`, `check`,
/// `assemble`, `header` or `json` and a height, `migrate` and an epoch, `watch` or `list` and the hash of a lock, `cell` or `dao` with the hash of a transaction and an index, `asm`, `dis`, `unjson`, `exec` and a
/// budget in cycles, at most 2^40, or `make` or `soak` with a seed and a count of blocks, at most 20,000 and 100.
pub fn run<S: Source, K: Sink, D: Disk, L: Ledger>(
    alloc: Global,
    words: &[String],
    input: &mut S,
    out: &mut K,
    disk: &mut D,
    steps: &mut Steps<L>,
) -> Status
    // All that a run promises of the bytes that the source gave and the sink took, and of the disk: the text and the order of reading and
    // writing, what a crash leaves now and might have left at each moment, what a list of runs keeps, and what a query answers.
    ensures run { Transfers (S.left input.old) (S.left input.new) (K.taken out.old) (K.taken out.new)
        (λ given taken. IsPromised (grammar.command_of (map string_bytes words.now)) (D.reads_as disk.old)
        (D.images disk.old) (D.images disk.new) (D.left_since disk.new (D.moment disk.old)) (S.left input.new) given taken result) }

    // The words alone decide on `BadWords`, and with them nothing is read and nothing written.
    ensures words { (result ≡ Status.BadWords) ↔ (grammar.command_of (map string_bytes words.now) ≡ None) }
    ensures silent { result ≡ Status.BadWords → (input.new ≡ input.old) × (out.new ≡ out.old) }

    // No other status comes than those of the command.
    ensures status { IsOneOf (statuses_of (grammar.command_of (map string_bytes words.now))) result }

    // A fault is answered where its count rose, and the count is unchanged with every other answer.
    ensures input_faults { CountsFault (S.faults input.old) (S.faults input.new) (result ≡ Status.InputFault) }
    ensures out_faults { CountsFault (K.faults out.old) (K.faults out.new) (result ≡ Status.SinkFault) }
    ensures disk_faults { CountsFault (D.faults disk.old) (D.faults disk.new) (result ≡ Status.DiskFault) }

    // What the disk reads as is known after the call exactly where it was known before, so that the same is said of the next run.
    ensures told { IsKnownAsBefore (D.reads_as disk.old) (D.reads_as disk.new) }

    // Where the disk is not called, is as it was, also for an `init` that finds a log, and where it is only read: it has no log, or a query or question, or a `migrate` that is refused, finds its log at rest.
    ensures uncalled { CallsNoDisk (grammar.command_of (map string_bytes words.now)) → disk.new ≡ disk.old }
    ensures as_before { IsOneOf (as_before (grammar.command_of (map string_bytes words.now))) result
        → IsAsBefore D.reads_as D.images D.moment D.left_since disk.old disk.new }
    ensures log_there { (now : Image) → D.reads_as disk.old ≡ Some now → (store_of now ≡ NoLog → ⊥)
        → grammar.command_of (map string_bytes words.now) ≡ Some Command.Init → IsAsBefore D.reads_as D.images D.moment D.left_since disk.old disk.new }
    ensures loses_nothing { (now : Image) → D.reads_as disk.old ≡ Some now → ((chain : Chain) → store_of now ≡ Keeps chain → ⊥)
        → OpensStore (grammar.command_of (map string_bytes words.now)) → IsOnlyRead D.reads_as D.images D.moment D.left_since disk.old disk.new }
    ensures rests { (now : Image) → D.reads_as disk.old ≡ Some now → slice_index now.log (end_of_log now.log) ≢ 1
        → AsksStore (grammar.command_of (map string_bytes words.now)) → IsOnlyRead D.reads_as D.images D.moment D.left_since disk.old disk.new }
    ensures refused_rests { (now : Image) → D.reads_as disk.old ≡ Some now → slice_index now.log (end_of_log now.log) ≢ 1
        → Migrates (grammar.command_of (map string_bytes words.now)) → IsOneOf refusals result
        → IsOnlyRead D.reads_as D.images D.moment D.left_since disk.old disk.new }

    // A command that opens the store keeps the records of LOG, over a log that is sound or not, and whatever status it ends with: an image is one of the
    // start, or its LOG has the records that it read as, and after them those of some of the items, or that of the edition which is asked for, where the chain may have it.
    ensures records { OpensStore (grammar.command_of (map string_bytes words.now)) → SourceGave (S.left input.old) (S.left input.new)
        (λ given. (now : Image) (chain : Chain) → D.reads_as disk.old ≡ Some now → store_of now ≡ Keeps chain
        → KeepsRecords (MayAdd (grammar.command_of (map string_bytes words.now)) chain given) now (D.images disk.old) (D.images disk.new)
        (D.left_since disk.new (D.moment disk.old))) }

    // Nothing joined, nothing written: over a sound store whose log is at rest an import only reads the disk where none of its items joins.
    ensures still { Imports (grammar.command_of (map string_bytes words.now)) → SourceGave (S.left input.old) (S.left input.new)
        (λ given. (now : Image) (chain : Chain) → D.reads_as disk.old ≡ Some now → StandsFor chain now → slice_index now.log (end_of_log now.log) ≢ 1
        → NoneJoins chain (split_of import_limits given).items → IsOnlyRead D.reads_as D.images D.moment D.left_since disk.old disk.new) }

    // Only a command that opens the store counts steps: a query or question at most one for each row of the snapshot that is loaded and those from its tip to
    // the tip, or those from the genesis, and so a migration; an import over a store that is sound at most these, and for each item that is not answered at sight one and those
    // from the tip to its parent and back.
    ensures steps { (OpensStore (grammar.command_of (map string_bytes words.now)) → ⊥) → steps.new ≡ steps.old }
    ensures query_steps { (now : Image) → D.reads_as disk.old ≡ Some now → AsksStore (grammar.command_of (map string_bytes words.now))
        → steps.new ≤ steps.old + moves_to_open now }
    ensures migrate_steps { (now : Image) → D.reads_as disk.old ≡ Some now → Migrates (grammar.command_of (map string_bytes words.now))
        → steps.new ≤ steps.old + moves_to_open now }
    ensures import_steps { Imports (grammar.command_of (map string_bytes words.now)) → SourceGave (S.left input.old) (S.left input.new)
        (λ given. (now : Image) (chain : Chain) → D.reads_as disk.old ≡ Some now → StandsFor chain now
        → steps.new ≤ steps.old + moves_to_open now + steps_over chain (split_of import_limits given).items) }
{
    match command_of(words) {
        Some(Command::Init) => init(alloc, input, out, disk),
        Some(Command::Import { watched }) => import(alloc, input, out, disk, watched, steps),
        Some(Command::Migrate { epoch }) => migrate(alloc, out, disk, epoch, steps),
        Some(Command::Query(asked)) => query(alloc, out, disk, asked, steps),
        Some(Command::Question(asked)) => question(alloc, input, out, disk, asked, steps),
        Some(Command::Standalone(command)) => standalone(alloc, input, out, command),
        Some(Command::Simulation(simulation)) => simulate(alloc, out, simulation),
        None => Status::BadWords,
    }
}
