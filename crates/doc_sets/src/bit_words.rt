// Steps over the words of a set.

ghost use Rattle.std.specs.Prelude.{◌≡◌, ℕ, ◌+◌, ◌-◌, ◌*◌, ◌/◌, ◌%◌, ◌<◌, ◌≤◌, ◌≢◌, min, max, ◌^◌, ◌++◌, nat_eq, length, take, slice_index, IfOk, OnOk, MatchOption};
ghost use Rattle.std.specs.Int.{bit_at};
ghost use Rattle.doc_sets.specs.BitWords.{bit_of, is_set, members};

use std::alloc::{AllocError, Global};

pub(crate) fn and_words(words: &mut [u64], others: &[u64])
    requires { length words.old ≡ length others.now }
    ensures { (k : ℕ) → bit_of words.new k ≡ min (bit_of words.old k) (bit_of others.now k) }
{
    for i in 0..words.len() {
        words[i] &= others[i];
    }
}

pub(crate) fn or_words(words: &mut [u64], others: &[u64])
    requires { length words.old ≡ length others.now }
    ensures { (k : ℕ) → bit_of words.new k ≡ max (bit_of words.old k) (bit_of others.now k) }
{
    for i in 0..words.len() {
        words[i] |= others[i];
    }
}

fn turn_words(words: &mut [u64])
    ensures { (k : ℕ) → k < 64 * length words.old → bit_of words.new k ≡ 1 - bit_of words.old k }
{
    for word in words.iter_mut() {
        *word = !*word;
    }
}

// Leaves the numbers below a size.
fn cut_words(words: &mut [u64], size: u32)
    requires { length words.old ≡ (size + 63) / 64 }
    ensures below { (k : ℕ) → k < size → bit_of words.new k ≡ bit_of words.old k }
    ensures behind { (k : ℕ) → size ≤ k → bit_of words.new k ≡ 0 }
{
    let within = size % 64;
    if within > 0 {
        let last = (size / 64) as usize;
        words[last] &= u64::MAX >> (64 - within);
    }
}

// The numbers below a size that were not in.
pub(crate) fn turn_below(words: &mut [u64], size: u32)
    requires { length words.old ≡ (size + 63) / 64 }
    ensures below { (k : ℕ) → k < size → bit_of words.new k ≡ 1 - bit_of words.old k }
    ensures behind { (k : ℕ) → size ≤ k → bit_of words.new k ≡ 0 }
{
    turn_words(words);
    cut_words(words, size);
}

pub(crate) fn set_word(words: &mut [u64], number: u32)
    requires { number < 64 * length words.old }
    ensures set { bit_of words.new number ≡ 1 }
    ensures others { (k : ℕ) → k ≢ number → bit_of words.new k ≡ bit_of words.old k }
{
    let at = (number / 64) as usize;
    words[at] |= 1 << (number % 64);
}

pub(crate) fn has_word(words: &[u64], number: u32) -> bool
    requires { number < 64 * length words.now }
    ensures { result ≡ nat_eq (bit_of words.now number) 1 }
{
    let at = (number / 64) as usize;
    (words[at] >> (number % 64)) & 1 == 1
}

// The first number from one on, if there is one.
pub(crate) fn next_word(words: &[u64], from: u32) -> Option<u32>
    requires { 64 * length words.now ≤ 2 ^ 32 }
    ensures { MatchOption result
        ((k : ℕ) → from ≤ k → bit_of words.now k ≡ 0)
        (λ n. (from ≤ n) × (n < 64 * length words.now) × (bit_of words.now n ≡ 1) × ((k : ℕ) → from ≤ k → k < n → bit_of words.now k ≡ 0)) }
{
    let first = (from / 64) as usize;
    if first >= words.len() {
        return None;
    }
    let word = words[first] & (u64::MAX << (from % 64));
    if word != 0 {
        return Some(64 * first as u32 + word.trailing_zeros());
    }
    for at in first + 1..words.len() {
        let word = words[at];
        if word != 0 {
            return Some(64 * at as u32 + word.trailing_zeros());
        }
    }
    None
}

// The numbers of the bits of a word, of which the first has a number, in front of `found`, and how many they are.
fn word_numbers(word: u64, first: u32, found: &mut [u32; 64]) -> usize
    requires { first + 64 ≤ 2 ^ 32 }
    ensures within { result ≤ 64 }
    ensures only { take result found.new ≡ members (is_set word first) first 64 }
{
    let mut count = 0;
    let mut left = word;
    while left != 0 {
        found[count] = first + left.trailing_zeros();
        count += 1;
        left &= left - 1;
    }
    count
}

// The numbers of a word of which each bit is set.
fn full_numbers(first: u32, found: &mut [u32; 64])
    requires { first + 64 ≤ 2 ^ 32 }
    ensures { found.new ≡ members (is_set (2 ^ 64 - 1) first) first 64 }
{
    for at in 0..64u32 {
        found[at as usize] = first + at;
    }
}

// Puts the numbers of the bits of a word behind others.
fn push_word(
    numbers: &mut Vec<u32>,
    word: u64,
    first: u32,
    found: &mut [u32; 64],
) -> Result<(), AllocError>
    requires { first + 64 ≤ 2 ^ 32 }
    ensures { OnOk result (numbers.new.items ≡ numbers.old.items ++ members (is_set word first) first 64) }
{
    if word == 0 {
        return Ok(());
    }
    if word == u64::MAX {
        full_numbers(first, found);
        return numbers.extend_from_slice(found);
    }
    let count = word_numbers(word, first, found);
    numbers.extend_from_slice(&found[..count])
}

// The numbers of the bits of words, as they rise.
pub(crate) fn numbers_of(alloc: Global, words: &[u64]) -> Result<Vec<u32>, AllocError>
    requires { 64 * length words.now ≤ 2 ^ 32 }
    ensures { IfOk result (λ ns. ns.items ≡ members (λ k. nat_eq (bit_of words.now k) 1) 0 (64 * length words.now)) }
{
    let mut numbers = Vec::with_capacity(alloc, count_words(words) as usize)?;
    let mut found = [0; 64];
    for at in 0..words.len() {
        push_word(&mut numbers, words[at], 64 * at as u32, &mut found)?;
    }
    Ok(numbers)
}

// How many bits of a word are set.
fn count_word(word: u64) -> u64
    ensures { (first : ℕ) → result ≡ length (members (is_set word first) first 64) }
{
    u64::from(word.count_ones())
}

// How many bits of words are set.
pub(crate) fn count_words(words: &[u64]) -> u64
    requires { 64 * length words.now ≤ 2 ^ 32 }
    ensures { result ≡ length (members (λ k. nat_eq (bit_of words.now k) 1) 0 (64 * length words.now)) }
{
    let mut count = 0u64;
    for at in 0..words.len() {
        count += count_word(words[at]);
    }
    count
}
