//! How many documents have a text or a whole number.

ghost use Rattle.std.specs.Prelude.{◌≡◌, ℕ, ◌+◌, ◌^◌, ◌<◌, List, ℤ, Some, IfSome, OnOk, if◌then◌else◌};
ghost use Rattle.std.specs.HashMap.{get, get_by_text};
ghost use Rattle.std.specs.BTreeMap as tree;
ghost use Rattle.std.specs.Ordering.{int_cmp, int_eq};
ghost use Rattle.std.specs.Str.{bytes_eq};
ghost use Rattle.agg_model.specs.Tallies.{raised, joined, merged, FitsWith, HaveRoom, step_sum};

use std::alloc::{AllocError, Global};
use std::collections::{BTreeMap, HashMap};

/// How many documents have a key, and the number of the last of them, counted from 1.
#[derive(Clone, Copy)]
pub struct Tally {
    pub count: u64,
    pub last: u64,
}

/// Tallies of texts.
pub type TextTallies = HashMap<String, Tally>;

/// Tallies of whole numbers.
pub type WholeTallies = HashMap<i128, Tally>;

// Counts the document of this number for the key, where it isn't counted yet.
fn raise(tally: &mut Tally, number: u64)
    requires { tally.old.count < 2 ^ 63 }
    ensures { tally.new ≡ raised number (Some tally.old) }
{
    if tally.last != number {
        tally.count += 1;
        tally.last = number;
    }
}

// Puts a tally in at the text.
fn put_text(
    alloc: Global,
    tallies: &mut TextTallies,
    text: &str,
    tally: Tally,
) -> Result<(), AllocError>
    ensures { OnOk result ((t : List ℕ) → get_by_text tallies.new t ≡ (if bytes_eq text.now t then Some tally else get_by_text tallies.old t)) }
{
    let key = String::from_str(alloc, text)?;
    tallies.insert(key, tally)?;
    Ok(())
}

/// Counts the document of this number for the text, once however often it is called.
pub fn raise_text(
    alloc: Global,
    tallies: &mut TextTallies,
    text: &str,
    number: u64,
) -> Result<(), AllocError>
    requires { IfSome (get_by_text tallies.old text.now) (λ t. t.count < 2 ^ 63) }
    ensures { OnOk result ((t : List ℕ) → get_by_text tallies.new t ≡
        (if bytes_eq text.now t then Some (raised number (get_by_text tallies.old text.now)) else get_by_text tallies.old t)) }
{
    if let Some(tally) = tallies.get_mut(text) {
        raise(tally, number);
        return Ok(());
    }
    put_text(
        alloc,
        tallies,
        text,
        Tally {
            count: 1,
            last: number,
        },
    )
}

/// Counts the document of this number for the whole number, once however often it is called.
pub fn raise_whole(tallies: &mut WholeTallies, whole: i128, number: u64) -> Result<(), AllocError>
    requires { IfSome (get int_eq tallies.old whole) (λ t. t.count < 2 ^ 63) }
    ensures { OnOk result ((z : ℤ) → get int_eq tallies.new z ≡
        (if int_eq whole z then Some (raised number (get int_eq tallies.old whole)) else get int_eq tallies.old z)) }
{
    if let Some(tally) = tallies.get_mut(&whole) {
        raise(tally, number);
        return Ok(());
    }
    tallies.insert(
        whole,
        Tally {
            count: 1,
            last: number,
        },
    )?;
    Ok(())
}

/// Adds documents that another tally counted for the text.
pub fn add_text(
    alloc: Global,
    tallies: &mut TextTallies,
    text: &str,
    more: Tally,
) -> Result<(), AllocError>
    requires { FitsWith more (get_by_text tallies.old text.now) }
    ensures { OnOk result ((t : List ℕ) → get_by_text tallies.new t ≡
        (if bytes_eq text.now t then Some (joined (get_by_text tallies.old text.now) more) else get_by_text tallies.old t)) }
{
    if let Some(tally) = tallies.get_mut(text) {
        tally.count += more.count;
        return Ok(());
    }
    put_text(alloc, tallies, text, more)
}

/// Adds documents that another tally counted for the whole number.
pub fn add_whole(tallies: &mut WholeTallies, whole: i128, more: Tally) -> Result<(), AllocError>
    requires { FitsWith more (get int_eq tallies.old whole) }
    ensures { OnOk result ((z : ℤ) → get int_eq tallies.new z ≡
        (if int_eq whole z then Some (joined (get int_eq tallies.old whole) more) else get int_eq tallies.old z)) }
{
    if let Some(tally) = tallies.get_mut(&whole) {
        tally.count += more.count;
        return Ok(());
    }
    tallies.insert(whole, more)?;
    Ok(())
}

/// Adds all documents that another part counted for texts.
pub fn merge_texts(
    alloc: Global,
    tallies: &mut TextTallies,
    other: &TextTallies,
) -> Result<(), AllocError>
    requires mine { HaveRoom (get_by_text tallies.old) }
    requires yours { HaveRoom (get_by_text other.now) }
    ensures { OnOk result ((t : List ℕ) → get_by_text tallies.new t ≡ merged (get_by_text tallies.old t) (get_by_text other.now t)) }
{
    for (text, tally) in other.iter() {
        add_text(alloc, tallies, text.as_str(), *tally)?;
    }
    Ok(())
}

/// Adds all documents that another part counted for whole numbers.
pub fn merge_wholes(tallies: &mut WholeTallies, other: &WholeTallies) -> Result<(), AllocError>
    requires mine { HaveRoom (get int_eq tallies.old) }
    requires yours { HaveRoom (get int_eq other.now) }
    ensures { OnOk result ((z : ℤ) → get int_eq tallies.new z ≡ merged (get int_eq tallies.old z) (get int_eq other.now z)) }
{
    for (whole, tally) in other.iter() {
        add_whole(tallies, *whole, *tally)?;
    }
    Ok(())
}

/// How many documents lie in each step of a histogram.
pub type StepCounts = BTreeMap<i128, u64>;

/// Adds documents that lie in a step.
pub fn add_step(steps: &mut StepCounts, step: i128, more: u64) -> Result<(), AllocError>
    requires { IfSome (tree.get int_cmp steps.old step) (λ count. count + more < 2 ^ 64) }
    ensures { OnOk result ((z : ℤ) → tree.get int_cmp steps.new z ≡
        (if int_eq step z then step_sum (tree.get int_cmp steps.old step) (Some more) else tree.get int_cmp steps.old z)) }
{
    *steps.entry(step)?.or_insert(0) += more;
    Ok(())
}

/// Adds all documents that another part counted in steps.
pub fn merge_steps(steps: &mut StepCounts, other: &StepCounts) -> Result<(), AllocError>
    requires mine { (z : ℤ) → IfSome (tree.get int_cmp steps.old z) (λ count. count < 2 ^ 62) }
    requires yours { (z : ℤ) → IfSome (tree.get int_cmp other.now z) (λ count. count < 2 ^ 62) }
    ensures { OnOk result ((z : ℤ) → tree.get int_cmp steps.new z ≡ step_sum (tree.get int_cmp steps.old z) (tree.get int_cmp other.now z)) }
{
    for (step, count) in other.iter() {
        add_step(steps, *step, *count)?;
    }
    Ok(())
}
