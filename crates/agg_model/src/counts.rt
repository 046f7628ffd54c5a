//! The part of a partial that one aggregation has.

ghost use Rattle.std.specs.Prelude.{◌≡◌, ◌^◌, ◌<◌, IfSome, OnOk};

use crate::tallies::{
    StepCounts, TextTallies, WholeTallies, add_step, merge_steps, merge_texts, merge_wholes,
    raise_text, raise_whole,
};
use doc_value::Value;
use std::alloc::{AllocError, Global};
use std::collections::{BTreeMap, HashMap};

/// How many documents have each value, each kind of values for itself, and how many lie in each step of a histogram.
#[derive(Drop)]
pub struct Counts {
    pub(crate) texts: TextTallies,
    pub(crate) signed: WholeTallies,
    pub(crate) unsigned: WholeTallies,
    pub(crate) truths: WholeTallies,
    pub(crate) datetimes: WholeTallies,
    pub(crate) steps: StepCounts,
}

impl Counts {
    ghost use Rattle.agg_model.specs.Partials.{IsVacant, IsRaised, AreRaised, IsStepRaised, IsMerged, HasRoom, tally_at, in_step};
    ghost use Rattle.agg_model.specs.Counting.{slot_of};

    /// The part of no documents.
    pub fn vacant(alloc: Global) -> Counts
        ensures { IsVacant result }
    {
        Counts {
            texts: HashMap::new(alloc),
            signed: HashMap::new(alloc),
            unsigned: HashMap::new(alloc),
            truths: HashMap::new(alloc),
            datetimes: HashMap::new(alloc),
            steps: BTreeMap::new(alloc),
        }
    }

    /// Counts the document of this number for the value, once however often it is called.
    fn raise(&mut self, alloc: Global, value: &Value, number: u64) -> Result<(), AllocError>
        requires { IfSome (tally_at self.old (slot_of value.now)) (λ t. t.count < 2 ^ 63) }
        ensures { OnOk result (IsRaised number value.now self.old self.new) }
    {
        match value {
            Value::Text(text) => raise_text(alloc, &mut self.texts, text.as_str(), number),
            Value::I64(whole) => raise_whole(&mut self.signed, i128::from(*whole), number),
            Value::U64(whole) => raise_whole(&mut self.unsigned, i128::from(*whole), number),
            Value::Bool(truth) => raise_whole(&mut self.truths, i128::from(*truth), number),
            Value::Datetime(seconds) => {
                raise_whole(&mut self.datetimes, i128::from(*seconds), number)
            }
        }
    }

    /// Counts the document of this number once for each of its different values.
    pub fn raise_all(
        &mut self,
        alloc: Global,
        values: &[Value],
        number: u64,
    ) -> Result<(), AllocError>
        requires { HasRoom self.old }
        ensures { OnOk result (AreRaised number values.now self.old self.new) }
    {
        for value in values {
            self.raise(alloc, value, number)?;
        }
        Ok(())
    }

    /// Counts one more document in a step.
    pub fn raise_step(&mut self, step: i128) -> Result<(), AllocError>
        requires { IfSome (in_step self.old step) (λ count. count < 2 ^ 62) }
        ensures { OnOk result (IsStepRaised step self.old self.new) }
    {
        add_step(&mut self.steps, step, 1)
    }

    /// Adds what another part of the same aggregation counts.
    pub fn merge(&mut self, alloc: Global, other: &Counts) -> Result<(), AllocError>
        requires mine { HasRoom self.old }
        requires yours { HasRoom other.now }
        ensures { OnOk result (IsMerged self.old other.now self.new) }
    {
        merge_texts(alloc, &mut self.texts, &other.texts)?;
        merge_wholes(&mut self.signed, &other.signed)?;
        merge_wholes(&mut self.unsigned, &other.unsigned)?;
        merge_wholes(&mut self.truths, &other.truths)?;
        merge_wholes(&mut self.datetimes, &other.datetimes)?;
        merge_steps(&mut self.steps, &other.steps)
    }
}
