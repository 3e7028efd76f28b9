// Sets of numbers as bits in words of 64.
#![tactic(auto)]

ghost use Rattle.std.specs.Prelude.{◌+◌, ◌-◌, ◌*◌, ◌≤◌, ◌<◌, ◌≡◌, length};
ghost use Rattle.marks.specs.Marks.{marked, MarkedAll, MarkedToo, FromWord, NextMarked, Copied};

// Whether number i is marked.
pub fn is_marked(words: &[u64], i: usize) -> bool
    requires { i < 64 * length words.now }
    ensures { result ≡ marked words.now i }
{
    (words[i / 64] >> (i % 64)) % 2 == 1
}

// Marks number i.
pub fn mark(words: &mut [u64], i: usize)
    requires { i < 64 * length words.old }
    ensures { MarkedToo i words.old words.new }
{
    words[i / 64] |= 1 << (i % 64);
}

// The next number from `from` on that may be marked, or `end`: none before it is.
pub fn next_marked(words: &[u64], from: usize, end: usize) -> usize
    requires from_le_end { from ≤ end }
    requires end_bound { end ≤ 64 * length words.now }
    requires words_len_bound { length words.now ≤ 65536 }
    ensures { NextMarked words.now from end result }
{
    if from == end {
        return end;
    }
    let word = words[from / 64] >> (from % 64);
    if word != 0 {
        return end.min(from + word.trailing_zeros() as usize);
    }
    for i in from / 64 + 1..end.div_ceil(64) {
        if words[i] != 0 {
            return end.min(64 * i + words[i].trailing_zeros() as usize);
        }
    }
    end
}

// Copies words of `from`, from word `at` on, over all of `to`.
pub fn copy_marks(to: &mut [u64], from: &[u64], at: usize)
    requires { at + length to.old ≤ length from.now }
    ensures { Copied at from.now to.old to.new }
{
    to.copy_from_slice(&from[at..at + to.len()]);
}

// Marks the numbers of `from` in `to`, counted on from word `at`.
pub fn join_marks(to: &mut [u64], at: usize, from: &[u64])
    requires { at + length from.now ≤ length to.old }
    ensures { MarkedAll (FromWord at from.now) to.old to.new }
{
    for (i, word) in from.iter().enumerate() {
        to[at + i] |= *word;
    }
}
