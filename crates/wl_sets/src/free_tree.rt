//! The free places of a range, as a tree of words.
//!
//! A *place* is the position of a number in its range, counted from 0. A place is free if no object has its number. A
//! *word* has 64 bits.

ghost use Rattle.std.specs.Prelude.{◌≡◌, ◌≢◌, ◌+◌, ◌%◌, ◌<◌, ◌≤◌, ℕ, Bool, true, false, [], ◌∷◌, ◌++◌, length, Vec, vec_len, OnErr, OnOk, IfOk};
ghost use Rattle.std.specs.Int.{bit_at};
ghost use Rattle.wl_sets.specs.FreeTree.{word, as_bit, has_capacity, is_ready, lowest_bit, with_first, words_of, height, reads_of, IsTree, IsSomeTree, IsWholeTree, ClearsBelow, TakesLeast, HasFlag, HasHeight, IsLeastOf, is_one_word, is_one_word_above, KeepsFlags, ChangesFlag, AddsFlag, RoomMade};

use std::alloc::{AllocError, Global};

/// Which places are free. The least free place is found by reading one word on each level.
///
/// The lowest level has a bit for each place, which is set if the place is free. Each level above has a bit for each word
/// of the level below, which is set if that word is not 0. The highest level is one word.
#[derive(Drop)]
pub struct FreeTree {
    /// The words of each level, from the lowest up. There may be one more level without words: it has the capacity for the
    /// first word of the next level.
    levels: Vec<Vec<u64>>,
}

impl FreeTree {
    /// A tree without places. It allocates nothing.
    pub fn new(alloc: Global) -> Self
        ensures { result.levels.items ≡ [] }
    {
        FreeTree {
            levels: Vec::new(alloc),
        }
    }

    /// The least free place; `None` if none is free. The words that it reads are added to `reads`.
    pub fn least(&self, reads: &mut u32) -> Option<usize>
        requires few { reads.old + height (words_of self.now.levels.items) < 4294967296 }
        requires tree { IsSomeTree (words_of self.now.levels.items) }
        ensures least { IsLeastOf (words_of self.now.levels.items) result }
        ensures reads { reads.new ≡ reads.old + reads_of result (words_of self.now.levels.items) }
        ensures height { HasHeight (words_of self.now.levels.items) }
    {
        // Up to 64 places have one word, and no level above it is read.
        match self.levels.as_slice().split_first() {
            Some((words, _)) if words.len() == 1 => lowest(words, 0, reads),
            _ => least(self.levels.as_slice(), reads),
        }
    }

    /// The least free place; `None` if none is free. If it is below `end`, it is not free from then on. The words that the
    /// search reads are added to `reads`.
    #[inline(always)]
    pub fn take_least(&mut self, end: usize, reads: &mut u32) -> Option<usize>
        requires few { reads.old + height (words_of self.old.levels.items) < 4294967296 }
        requires tree { IsWholeTree (words_of self.old.levels.items) }
        ensures least { IsLeastOf (words_of self.old.levels.items) result }
        ensures reads { reads.new ≡ reads.old + reads_of result (words_of self.old.levels.items) }
        ensures height { HasHeight (words_of self.old.levels.items) }
        ensures taken { TakesLeast end (words_of self.old.levels.items) result (words_of self.new.levels.items) }
        ensures ready { is_ready self.new.levels.items ≡ is_ready self.old.levels.items }
    {
        take_least(&mut self.levels, end, reads)
    }

    /// Sets whether the place is free.
    pub fn mark(&mut self, at: usize, is_free: bool)
        requires tree { HasFlag at (words_of self.old.levels.items) }
        ensures tree { ChangesFlag at is_free (words_of self.old.levels.items) (words_of self.new.levels.items) }
        ensures ready { is_ready self.new.levels.items ≡ is_ready self.old.levels.items }
    {
        mark(&mut self.levels, at, is_free);
    }

    /// Adds the next place, which is not free. It allocates nothing.
    ///
    /// Most places are in a word that is there already. So this test stands in the caller, and the rest is a function.
    #[inline(always)]
    pub fn push(&mut self, at: usize)
        requires tree { (flag : ℕ → Bool) × IsTree flag at (words_of self.old.levels.items) }
        requires ready { at % 64 ≡ 0 → is_ready self.old.levels.items ≡ true }
        ensures tree { AddsFlag at (words_of self.old.levels.items) (words_of self.new.levels.items) }
    {
        if at % 64 != 0 {
            return;
        }
        push(&mut self.levels, at);
    }

    /// Reserves what `push` needs for this place. Only the first of 64 places begins a word, so others need nothing.
    #[inline(always)]
    pub fn reserve_for(&mut self, at: usize) -> Result<(), AllocError>
        ensures tree { KeepsFlags (words_of self.old.levels.items) (words_of self.new.levels.items) }
        ensures ok { OnOk result (at % 64 ≡ 0 → is_ready self.new.levels.items ≡ true) }
        ensures err { OnErr result (is_ready self.old.levels.items ≡ false) }
        ensures kept { is_ready self.old.levels.items ≡ true → is_ready self.new.levels.items ≡ true }
    {
        if at % 64 != 0 {
            return Ok(());
        }
        self.reserve()
    }

    /// Reserves the capacity for one more place. The error says that there was no memory.
    #[inline(never)]
    pub fn reserve(&mut self) -> Result<(), AllocError>
        ensures tree { KeepsFlags (words_of self.old.levels.items) (words_of self.new.levels.items) }
        ensures ok { OnOk result (is_ready self.new.levels.items ≡ true) }
        ensures err { OnErr result (is_ready self.old.levels.items ≡ false) }
        ensures kept { is_ready self.old.levels.items ≡ true → is_ready self.new.levels.items ≡ true }
    {
        let alloc = *self.levels.allocator();
        reserve(&mut self.levels, alloc)
    }
}

/// Reads a word for a search, and counts it. All words that a search reads are read here.
fn read(words: &[u64], at: usize, reads: &mut u32) -> u64
    requires within { at < length words.now }
    requires few { reads.old + 1 < 4294967296 }
    ensures value { result ≡ word words.now at }
    ensures count { reads.new ≡ reads.old + 1 }
{
    *reads += 1;
    words[at]
}

/// The number of the lowest bit that is set in this word of a level; `None` if none is set.
fn lowest(words: &[u64], at: usize, reads: &mut u32) -> Option<usize>
    requires within { at < length words.now }
    requires small { length words.now ≤ 67108864 }
    requires few { reads.old + 1 < 4294967296 }
    ensures value { result ≡ lowest_bit at (word words.now at) }
    ensures count { reads.new ≡ reads.old + 1 }
{
    let word = read(words, at, reads);
    if word == 0 {
        None
    } else {
        Some(64 * at + word.trailing_zeros() as usize)
    }
}

/// The number of the lowest bit that is set on the lowest level; `None` if none is set. The level above says in which word
/// it is.
fn least(levels: &[Vec<u64>], reads: &mut u32) -> Option<usize>
    requires few { reads.old + height (words_of levels.now) < 4294967296 }
    requires tree { IsSomeTree (words_of levels.now) }
    ensures least { IsLeastOf (words_of levels.now) result }
    ensures reads { reads.new ≡ reads.old + reads_of result (words_of levels.now) }
{
    let (words, above) = match levels.split_first() {
        Some(level) => level,
        None => return None,
    };
    let len = words.len();
    if len == 0 {
        return None;
    }
    if len == 1 {
        return lowest(words, 0, reads);
    }
    match least(above, reads) {
        Some(at) => lowest(words, at, reads),
        None => None,
    }
}

/// The word with this bit set or cleared.
fn with_bit(word: u64, at: usize, is_set: bool) -> u64
    requires { at < 64 }
    ensures here { bit_at result at ≡ as_bit is_set }
    ensures others { (i : ℕ) → i < 64 → i ≢ at → bit_at result i ≡ bit_at word i }
{
    if is_set {
        word | 1 << at
    } else {
        word & !(1 << at)
    }
}

/// Sets or clears a bit of the lowest level. On each level above it does the same with the bit of the word that changed
/// below, as long as that word became 0 or was 0.
fn mark(levels: &mut [Vec<u64>], at: usize, is_set: bool)
    requires tree { HasFlag at (words_of levels.old) }
    ensures tree { ChangesFlag at is_set (words_of levels.old) (words_of levels.new) }
    ensures ready { is_ready levels.new ≡ is_ready levels.old }
    ensures len { length levels.new ≡ length levels.old }
{
    if let Some((words, above)) = levels.split_first_mut() {
        let before = words[at / 64];
        let word = with_bit(before, at % 64, is_set);
        words[at / 64] = word;
        // The level above tells which words are not 0.
        if words.len() > 1 {
            if (before == 0) != (word == 0) {
                mark(above, at / 64, word != 0);
            }
        }
    }
}

/// The number of the lowest bit that is set in the only word of a level; `None` if none is set. If it is below `end`, it is
/// cleared.
#[inline(always)]
fn take_lowest(words: &mut Vec<u64>, end: usize, reads: &mut u32) -> Option<usize>
    requires one { length words.old.items ≡ 1 }
    requires few { reads.old + 1 < 4294967296 }
    ensures value { result ≡ lowest_bit 0 (word words.old.items 0) }
    ensures count { reads.new ≡ reads.old + 1 }
    ensures cleared { ClearsBelow end words.old.items result words.new.items }
    ensures len { vec_len words.new ≡ vec_len words.old }
    ensures room { has_capacity words.new ≡ has_capacity words.old }
{
    let at = lowest(words, 0, reads)?;
    if at < end {
        words[0] = with_bit(words[0], at, false);
    }
    Some(at)
}

/// Whether the lowest level is one word, which is then the highest level too.
fn has_one_word(levels: &[Vec<u64>]) -> bool
    ensures { result ≡ is_one_word (words_of levels.now) }
{
    match levels.split_first() {
        Some((words, _above)) => words.len() == 1,
        None => false,
    }
}

/// Whether the level above the lowest is one word, which is then the highest level.
fn has_one_word_above(levels: &[Vec<u64>]) -> bool
    ensures { result ≡ is_one_word_above (words_of levels.now) }
{
    match levels.split_first() {
        Some((_words, above)) => has_one_word(above),
        None => false,
    }
}

/// The number of the lowest bit that is set on the lowest level; `None` if none is set. If it is below `end`, it is cleared.
#[inline(always)]
fn take_least(levels: &mut [Vec<u64>], end: usize, reads: &mut u32) -> Option<usize>
    requires few { reads.old + height (words_of levels.old) < 4294967296 }
    requires tree { IsWholeTree (words_of levels.old) }
    ensures least { IsLeastOf (words_of levels.old) result }
    ensures reads { reads.new ≡ reads.old + reads_of result (words_of levels.old) }
    ensures taken { TakesLeast end (words_of levels.old) result (words_of levels.new) }
    ensures ready { is_ready levels.new ≡ is_ready levels.old }
    ensures len { length levels.new ≡ length levels.old }
{
    // Up to 64 places have one word: the search reads it once, and clears the bit in it. That stands in the caller. Up to
    // 4096 have one word above. These, and more, are functions of their own, so that few places do not pay for them.
    if has_one_word(levels) {
        take_from_one(levels, end, reads)
    } else if has_one_word_above(levels) {
        take_from_two(levels, end, reads)
    } else {
        take_least_of_many(levels, end, reads)
    }
}

/// The same of a tree of one word.
#[inline(always)]
fn take_from_one(levels: &mut [Vec<u64>], end: usize, reads: &mut u32) -> Option<usize>
    requires one { is_one_word (words_of levels.old) ≡ true }
    requires few { reads.old + height (words_of levels.old) < 4294967296 }
    requires tree { IsWholeTree (words_of levels.old) }
    ensures least { IsLeastOf (words_of levels.old) result }
    ensures reads { reads.new ≡ reads.old + reads_of result (words_of levels.old) }
    ensures taken { TakesLeast end (words_of levels.old) result (words_of levels.new) }
    ensures ready { is_ready levels.new ≡ is_ready levels.old }
    ensures len { length levels.new ≡ length levels.old }
{
    if let Some((words, _above)) = levels.split_first_mut() {
        take_lowest(words, end, reads)
    } else {
        None
    }
}

/// The same of a tree of two levels.
#[inline(always)]
fn take_from_two(levels: &mut [Vec<u64>], end: usize, reads: &mut u32) -> Option<usize>
    requires two { is_one_word_above (words_of levels.old) ≡ true }
    requires few { reads.old + height (words_of levels.old) < 4294967296 }
    requires tree { IsWholeTree (words_of levels.old) }
    ensures least { IsLeastOf (words_of levels.old) result }
    ensures reads { reads.new ≡ reads.old + reads_of result (words_of levels.old) }
    ensures taken { TakesLeast end (words_of levels.old) result (words_of levels.new) }
    ensures ready { is_ready levels.new ≡ is_ready levels.old }
    ensures len { length levels.new ≡ length levels.old }
{
    if let Some((words, above)) = levels.split_first_mut() {
        if let Some((tops, _up)) = above.split_first_mut() {
            return take_least_of_two(words, tops, end, reads);
        }
    }
    None
}

/// The same of the words of the lowest level and the only word above them.
#[inline(never)]
fn take_least_of_two(
    words: &mut Vec<u64>,
    tops: &mut Vec<u64>,
    end: usize,
    reads: &mut u32,
) -> Option<usize>
    requires top { length tops.old.items ≡ 1 }
    requires few { reads.old + 2 < 4294967296 }
    requires tree { IsWholeTree (words.old.items ∷ tops.old.items ∷ []) }
    ensures least { IsLeastOf (words.old.items ∷ tops.old.items ∷ []) result }
    ensures reads { reads.new ≡ reads.old + reads_of result (words.old.items ∷ tops.old.items ∷ []) }
    ensures taken { TakesLeast end (words.old.items ∷ tops.old.items ∷ []) result (words.new.items ∷ tops.new.items ∷ []) }
    ensures lens { (vec_len words.new ≡ vec_len words.old) × (vec_len tops.new ≡ vec_len tops.old) }
    ensures room { (has_capacity words.new ≡ has_capacity words.old) × (has_capacity tops.new ≡ has_capacity tops.old) }
{
    let top = read(tops, 0, reads);
    if top == 0 {
        return None;
    }
    let row = top.trailing_zeros() as usize;
    // The word above says that this one is not 0.
    let word = read(words, row, reads);
    let bit = word.trailing_zeros() as usize;
    let at = 64 * row + bit;
    if at < end {
        let rest = with_bit(word, bit, false);
        words[row] = rest;
        if rest == 0 {
            tops[0] = with_bit(top, row, false);
        }
    }
    Some(at)
}

/// The same of a tree of any number of levels.
#[inline(never)]
fn take_least_of_many(levels: &mut [Vec<u64>], end: usize, reads: &mut u32) -> Option<usize>
    requires few { reads.old + height (words_of levels.old) < 4294967296 }
    requires tree { IsWholeTree (words_of levels.old) }
    ensures least { IsLeastOf (words_of levels.old) result }
    ensures reads { reads.new ≡ reads.old + reads_of result (words_of levels.old) }
    ensures taken { TakesLeast end (words_of levels.old) result (words_of levels.new) }
    ensures ready { is_ready levels.new ≡ is_ready levels.old }
    ensures len { length levels.new ≡ length levels.old }
{
    let at = least(levels, reads)?;
    if at < end {
        mark(levels, at, false);
    }
    Some(at)
}

/// Appends a word. There is capacity for it.
fn push_word(words: &mut Vec<u64>, word: u64)
    requires { has_capacity words.old ≡ true }
    ensures items { words.new.items ≡ words.old.items ++ word ∷ [] }
    ensures len { vec_len words.new ≡ vec_len words.old + 1 }
{
    match words.push(word) {
        Ok(()) => (),
        Err(_) => unreachable!(),
    }
}

/// Gives a level its first word, in which only the first bit may be set.
fn push_first(levels: &mut [Vec<u64>], is_set: bool)
    requires { is_ready levels.old ≡ true }
    ensures words { words_of levels.new ≡ with_first is_set (words_of levels.old) }
    ensures len { length levels.new ≡ length levels.old }
{
    if let Some((words, _above)) = levels.split_first_mut() {
        push_word(words, is_set as u64);
    }
}

/// Appends a bit to the lowest level. It is not set.
///
/// If it begins a word, the level above needs a bit for that word. A level has bits only once the level below has two
/// words.
#[inline(never)]
fn push(levels: &mut [Vec<u64>], count: usize)
    requires tree { (flag : ℕ → Bool) × IsTree flag count (words_of levels.old) }
    requires ready { is_ready levels.old ≡ true }
    ensures tree { AddsFlag count (words_of levels.old) (words_of levels.new) }
    ensures len { length levels.new ≡ length levels.old }
{
    if count % 64 != 0 {
        return;
    }
    if let Some((words, above)) = levels.split_first_mut() {
        let len = words.len();
        push_word(words, 0);
        if len == 1 {
            push_first(above, words[0] != 0);
        } else if len > 1 {
            push(above, len);
        }
    }
}

/// Reserves the capacity for one more word on each level, up to and with the first level without words. Returns whether
/// there is such a level.
fn reserve_levels(levels: &mut [Vec<u64>]) -> Result<bool, AllocError>
    ensures words { words_of levels.new ≡ words_of levels.old }
    ensures len { length levels.new ≡ length levels.old }
    ensures ok { IfOk result (λ found. RoomMade found levels.old levels.new) }
    ensures err { OnErr result (is_ready levels.old ≡ false) }
    ensures kept { is_ready levels.old ≡ true → is_ready levels.new ≡ true }
{
    if let Some((words, above)) = levels.split_first_mut() {
        words.reserve(1)?;
        if words.is_empty() {
            return Ok(true);
        }
        return reserve_levels(above);
    }
    Ok(false)
}

/// Reserves the capacity for one more word on each level, and for the first word of a level above them.
fn reserve(levels: &mut Vec<Vec<u64>>, alloc: Global) -> Result<(), AllocError>
    ensures tree { KeepsFlags (words_of levels.old.items) (words_of levels.new.items) }
    ensures ok { OnOk result (is_ready levels.new.items ≡ true) }
    ensures err { OnErr result (is_ready levels.old.items ≡ false) }
    ensures kept { is_ready levels.old.items ≡ true → is_ready levels.new.items ≡ true }
{
    if reserve_levels(levels)? {
        return Ok(());
    }
    let mut top = Vec::new(alloc);
    top.reserve(1)?;
    levels.push(top)?;
    Ok(())
}
