//! What holds of the reports on every legal history. A law is the contract of a function that does nothing.

ghost use Rattle.std.specs.Prelude.{List};
ghost use Rattle.meta_journal.specs.declared.entry.Entry.{Entry};
ghost use Rattle.meta_store.specs.History.{history};
ghost use Rattle.meta_store.specs.Ledgers.{ledger};
ghost use Rattle.meta_store.specs.Readings.{Reads};
ghost use Rattle.meta_store.specs.State.{Legal, state_of};
ghost use Rattle.index_report.specs.Listed.{AreNamed};

use meta_store::laws::counted;

/// The partitions that the report on an index names are those from which something was taken in and no others, in
/// the order of their names' bytes, each with the ledger's checkpoint.
pub fn partitions_are_named()
    ensures { (reads : Reads) (entries : List Entry) → Legal reads (history entries) →
        AreNamed (state_of reads (history entries)).checkpoints (ledger reads (history entries)) }
{
    counted();
}
