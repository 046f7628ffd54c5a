//! The commands `splits` and `describe`: a report on the index of a store.

ghost use Rattle.std.specs.Prelude.{◌≡◌, ◌≤◌, ◌++◌, ℕ, List, Option, Some, IfOk, string_bytes};
ghost use Rattle.meta_journal.specs.declared.entry.Entry.{Entry};
ghost use Rattle.object_store.specs.Store.{HasLanded, WhereTold};
ghost use Rattle.index_world.specs.Index.{IsIndexOf};
ghost use Rattle.quick_node.specs.Opening.{outside_of, ReportFinds, BeforeLine};
ghost use Rattle.quick_node.specs.Reporting.{report_text, ReportsUpTo, EndsReportBy, EndsWriting, SaysReport};
ghost use Rattle.quick_node.specs.Serve.{Before};

use crate::error_line::End;
use crate::writing::write_all;
use byte_fields::Sink;
use clock_time::ScriptClock;
use index_report::{print_describe, print_splits};
use index_world::{Unopened, World};
use meta_store::Meta;
use object_store::ObjectStore;
use std::alloc::{AllocError, Global};

/// Which report is asked for.
#[derive(Clone, Copy)]
pub enum Report {
    /// A line for each row.
    Splits,
    /// The index as a whole.
    Describe,
}

fn print_report(alloc: Global, asked: Report, meta: &Meta) -> Result<String, AllocError>
    ensures { IfOk result (λ text. string_bytes text ≡ report_text asked meta.now.state) }
{
    match asked {
        Report::Splits => print_splits(alloc, meta),
        Report::Describe => print_describe(alloc, meta),
    }
}

// Writes the report on a state. Gives how it ends.
fn say_report<W: Sink>(alloc: Global, asked: Report, meta: &Meta, output: &mut W) -> End
    ensures says { (held : List ℕ) → W.content output.old ≡ Some held → (said : List ℕ) × (W.content output.new ≡ Some (held ++ said))
        × SaysReport (report_text asked meta.now.state) (W.fault_count output.old) (W.fault_count output.new) said result }
    ensures causes { (low high : ℕ) → EndsReportBy low (W.fault_count output.old) high (W.fault_count output.new) result }
    ensures writing { EndsWriting result }
    ensures later { W.fault_count output.old ≤ W.fault_count output.new }
{
    let Ok(text) = print_report(alloc, asked, meta) else {
        return End::Memory;
    };
    match write_all(output, text.as_bytes()) {
        Ok(()) => End::Done,
        Err(_) => End::WriteFault,
    }
}

/// Opens the index of a store, and writes a report on its state. Gives how it ends, and the store.
pub fn write_report<S: ObjectStore, W: Sink>(
    alloc: Global,
    asked: Report,
    store: S,
    output: &mut W,
) -> (End, S)
    ensures reports { (history : List Entry) (before : Before) → S.told store ≡ Some before.kept → S.fault_count store ≡ before.store_faults →
        W.content output.old ≡ Some before.written → W.fault_count output.old ≡ before.write_faults → IsIndexOf before.kept history before.log →
        ReportsUpTo asked history before (S.told result.1) (W.content output.new) (S.fault_count result.1) (W.fault_count output.new) result.0 }
    // What any store that tells is found to be, whatever the input is.
    ensures opening { (input : Option (List ℕ)) (read : ℕ) →
        BeforeLine (ReportFinds asked) (outside_of (S.told store) (S.fault_count store) input read (W.content output.old) (W.fault_count output.old))
        (outside_of (S.told result.1) (S.fault_count result.1) input read (W.content output.new) (W.fault_count output.new)) result.0 }
    // Nothing is written to a store, whatever it is.
    ensures landed { WhereTold (S.told store) (S.told result.1) HasLanded }
    ensures causes { EndsReportBy (S.fault_count store) (W.fault_count output.old) (S.fault_count result.1) (W.fault_count output.new) result.0 }
    ensures later { W.fault_count output.old ≤ W.fault_count output.new }
{
    match World::load(alloc, store, ScriptClock::at(0)) {
        Ok(world) => {
            let end = say_report(alloc, asked, world.meta(), output);
            let (store, _) = world.unload();
            (end, store)
        }
        Err(Unopened { error, store }) => (End::NotOpened(error), store),
    }
}
