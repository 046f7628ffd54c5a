ghost use Rattle.std.specs.Prelude.{◌≡◌, ℕ, ◌+◌, ◌/◌, ◌<◌, ◌≤◌, ◌||◌, ◌&&◌, not, true, false, nat_eq, length, vec_len, IfOk, MatchOption};
ghost use Rattle.doc_sets.specs.BitWords.{bit_of, members};

use crate::bit_words::{
    and_words, count_words, has_word, next_word, numbers_of, or_words, set_word, turn_below,
};
use std::alloc::{AllocError, Global};

/// A set of numbers below a size.
#[derive(Drop)]
pub struct DocBits {
    words: Vec<u64>,
    size: u32,
    ghost words_len: { vec_len words ≡ (size + 63) / 64 },
    ghost behind: { (k : ℕ) → size ≤ k → bit_of words.items k ≡ 0 },
}

impl DocBits {
    ghost use Rattle.doc_sets.specs.Bits.{has};

    /// No number.
    pub fn vacant(alloc: Global, size: u32) -> Result<DocBits, AllocError>
        ensures size { IfOk result (λ b. b.size ≡ size) }
        ensures none { IfOk result (λ b. (k : ℕ) → has b k ≡ false) }
    {
        let words = vec![in alloc; 0u64; (size as usize + 63) / 64]?;
        Ok(DocBits { words, size })
    }

    /// All numbers below the size.
    pub fn filled(alloc: Global, size: u32) -> Result<DocBits, AllocError>
        ensures size { IfOk result (λ b. b.size ≡ size) }
        ensures all { IfOk result (λ b. (k : ℕ) → k < size → has b k ≡ true) }
    {
        let mut bits = DocBits::vacant(alloc, size)?;
        bits.turn();
        Ok(bits)
    }

    pub fn size(&self) -> u32
        ensures { result ≡ self.now.size }
    {
        self.size
    }

    /// Puts a number in.
    pub fn insert(&mut self, number: u32)
        requires { number < self.old.size }
        ensures size { self.new.size ≡ self.old.size }
        ensures has { (k : ℕ) → has self.new k ≡ nat_eq k number || has self.old k }
    {
        set_word(&mut self.words, number);
    }

    pub fn contains(&self, number: u32) -> bool
        requires { number < self.now.size }
        ensures { result ≡ has self.now number }
    {
        has_word(&self.words, number)
    }

    /// Keeps the numbers that are in both sets.
    pub fn keep(&mut self, other: &DocBits)
        requires { self.old.size ≡ other.now.size }
        ensures size { self.new.size ≡ self.old.size }
        ensures has { (k : ℕ) → has self.new k ≡ has self.old k && has other.now k }
    {
        and_words(&mut self.words, &other.words);
    }

    /// Puts in the numbers of another set.
    pub fn add(&mut self, other: &DocBits)
        requires { self.old.size ≡ other.now.size }
        ensures size { self.new.size ≡ self.old.size }
        ensures has { (k : ℕ) → has self.new k ≡ has self.old k || has other.now k }
    {
        or_words(&mut self.words, &other.words);
    }

    /// Takes the numbers below the size that were not in.
    pub fn turn(&mut self)
        ensures size { self.new.size ≡ self.old.size }
        ensures has { (k : ℕ) → k < self.old.size → has self.new k ≡ not (has self.old k) }
    {
        turn_below(&mut self.words, self.size);
    }

    /// The least number from one on, if there is one.
    pub fn next_from(&self, from: u32) -> Option<u32>
        ensures { MatchOption result
            ((k : ℕ) → from ≤ k → has self.now k ≡ false)
            (λ n. (from ≤ n) × (n < self.now.size) × (has self.now n ≡ true) × ((k : ℕ) → from ≤ k → k < n → has self.now k ≡ false)) }
    {
        if from >= self.size {
            return None;
        }
        next_word(&self.words, from)
    }

    /// How many numbers are in.
    pub fn count(&self) -> u32
        ensures { result ≡ length (members (has self.now) 0 self.now.size) }
    {
        let _size = self.size;
        count_words(&self.words) as u32
    }

    /// The numbers that are in, as they rise.
    pub fn numbers(&self, alloc: Global) -> Result<Vec<u32>, AllocError>
        ensures { IfOk result (λ ns. ns.items ≡ members (has self.now) 0 self.now.size) }
    {
        let _size = self.size;
        numbers_of(alloc, &self.words)
    }
}
