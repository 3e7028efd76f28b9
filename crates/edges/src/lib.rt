// Whether a record may spell a line at all, by the line's first and last byte and by the bytes that no letter holds.
#![tactic(auto)]

ghost use Rattle.std.specs.Prelude.{◌+◌, ◌*◌, ◌/◌, ◌%◌, ◌^◌, ◌≤◌, ◌<◌, ◌≡◌, false, get_or};
ghost use Rattle.posix.specs.Expressions.{holds};
ghost use Rattle.posix.specs.Spells.{spells};
ghost use Rattle.table.specs.Records.{count};
ghost use Rattle.table.specs.Faults.{Passes};
ghost use Rattle.table.specs.Kinds.{number_of};
ghost use Rattle.table.specs.Letters.{byte_set};
ghost use Rattle.table.specs.Expression.{exp_of};
ghost use Rattle.edges.specs.Bits.{bits, bits_at, SeqBits, Found, Near};
ghost use Rattle.edges.specs.Held.{MarkedFrom, MarkedIn, LettersMarked, Unmarked};

use table::{Kind, Rules};

// The bits of a letter, by whether it holds the two bytes.
fn letter_bits(kind: Kind, a: u8, b: u8, first: u8, last: u8) -> u8
    ensures { result ≡ bits false (holds (byte_set (number_of kind) a b) first) (holds (byte_set (number_of kind) a b) last) }
{
    let starts = table::letter_holds(kind.number(), a, b, first);
    let ends = table::letter_holds(kind.number(), a, b, last);
    starts as u8 + ends as u8 * 2
}

// The bits of a Seq by those of its two sides: the start of the second counts where the first spells the empty line, and the end of the first
// where the second does. The bit of the empty line makes a mask of all bits.
fn seq_bits(a: u8, b: u8) -> u8
    ensures { SeqBits a b result }
{
    (a & ((b >> 7) * 255 | 1)) | (b & ((a >> 7) * 255 | 2))
}

// Byte i of those that are found, where `near` is the one before k: what was stored last need not be read.
fn found_at(found: &[u8; 256], i: u8, k: usize, near: u8) -> u8
    requires { Near found.now k near }
    ensures { result ≡ get_or found.now i 0 }
{
    if i as usize + 1 == k {
        return near;
    }
    found[i as usize]
}

// Marks the numbers from `low` on below `high`, at least one, all of one word.
fn mark_in_word(words: &mut [u64; 4], low: usize, high: usize)
    requires some { low < high }
    requires one_word { high ≤ 64 * (low / 64 + 1) }
    requires bytes { high ≤ 256 }
    ensures { MarkedFrom low high words.old words.new }
{
    let ones = u64::MAX >> (64 - (high - low));
    words[low / 64] |= ones << (low % 64);
}

// Marks the numbers of word w, if it is between the words `low` and `high`.
fn mark_between(words: &mut [u64; 4], w: usize, low: usize, high: usize)
    requires { w < 4 }
    ensures { MarkedIn w (64 * low + 64) (64 * high) words.old words.new }
{
    if low < w && w < high {
        mark_in_word(words, 64 * w, 64 * w + 64);
    }
}

// Marks the bytes from a to b, which are mostly of one word.
fn mark_range(words: &mut [u64; 4], a: usize, b: usize)
    requires ordered { a ≤ b }
    requires byte { b ≤ 255 }
    ensures { MarkedFrom a (b + 1) words.old words.new }
{
    let low = a / 64;
    let high = b / 64;
    if low == high {
        mark_in_word(words, a, b + 1);
        return;
    }
    mark_in_word(words, a, 64 * low + 64);
    mark_between(words, 1, low, high);
    mark_between(words, 2, low, high);
    mark_in_word(words, 64 * high, b + 1);
}

// Marks the bytes below a.
fn mark_below(words: &mut [u64; 4], a: usize)
    requires { a ≤ 255 }
    ensures { MarkedFrom 0 a words.old words.new }
{
    if 0 < a {
        mark_range(words, 0, a - 1);
    }
}

// Marks the bytes above b.
fn mark_above(words: &mut [u64; 4], b: usize)
    requires { b ≤ 255 }
    ensures { MarkedFrom (b + 1) 256 words.old words.new }
{
    if b < 255 {
        mark_range(words, b + 1, 255);
    }
}

// The bits of record k, from those of the records below it: bit 128 where it spells the empty line, bit 1 where a line of it may start with
// `first`, bit 2 where a line of it may end with `last`. Marks the bytes that it holds, if it is a letter.
fn bits_of(
    table: &Rules,
    k: usize,
    first: u8,
    last: u8,
    found: &[u8; 256],
    near: u8,
    words: &mut [u64; 4],
) -> u8
    requires record { k < count table.now }
    requires found { Found table.now first last k found.now }
    requires near { Near found.now k near }
    requires marked { LettersMarked table.now k words.old }
    ensures value { result ≡ bits_at table.now first last k }
    ensures marked { LettersMarked table.now (k + 1) words.new }
    ensures passes { Passes table.now }
{
    let kind = table.kind_at(k);
    let a = table.a_at(k);
    let b = table.b_at(k);
    match kind {
        Kind::Nothing => 0,
        Kind::Empty => 128,
        Kind::Range => {
            mark_range(words, a as usize, b as usize);
            letter_bits(Kind::Range, a, b, first, last)
        }
        Kind::Or => found[a as usize] | found[b as usize],
        Kind::Seq => seq_bits(found[a as usize], found_at(found, b, k, near)),
        Kind::Star => found[a as usize] | 128,
        Kind::Other => {
            mark_below(words, a as usize);
            mark_above(words, b as usize);
            letter_bits(Kind::Other, a, b, first, last)
        }
    }
}

// The bits of record k, from the table alone. Marks the bytes that the letters up to it hold.
pub fn find_bits(table: &Rules, k: usize, first: u8, last: u8, words: &mut [u64; 4]) -> u8
    requires { k < count table.now }
    ensures value { result ≡ bits_at table.now first last k }
    ensures letters_marked { LettersMarked table.now (k + 1) words.new }
    ensures passes { Passes table.now }
{
    let mut found = [0u8; 256];
    let mut near = 0;
    for j in 0..=k {
        near = bits_of(table, j, first, last, &found, near, words);
        found[j] = near;
    }
    near
}

// The word of byte c from its mark on: the lowest bit is the mark.
fn from_mark(words: &[u64; 4], c: u8) -> u64
    ensures { result ≡ get_or words.now (c / 64) 0 / 2 ^ (c % 64) }
{
    let at = c as usize;
    words[at / 64] >> (at % 64)
}

// Whether each byte of the line is marked: two at a time.
fn all_marked(line: &[u8], words: &[u64; 4]) -> bool
    ensures { result ≡ false → Unmarked line.now words.now }
{
    let n = line.len();
    for i in 0..n / 2 {
        if from_mark(words, line[2 * i]) & from_mark(words, line[2 * i + 1]) & 1 == 0 {
            return false;
        }
    }
    n % 2 == 0 || from_mark(words, line[n - 1]) & 1 != 0
}

// Whether record k may spell the line, by the line's first byte, its last byte, and each of its bytes: where the answer is no, it does not.
pub fn may_spell(table: &Rules, k: usize, line: &[u8]) -> bool
    requires { k < count table.now }
    ensures { result ≡ false → spells (exp_of table.now k) line.now ≡ false }
{
    let n = line.len();
    if n == 0 {
        return true;
    }
    let mut words = [0u64; 4];
    let bits = find_bits(table, k, line[0], line[n - 1], &mut words);
    bits & 1 != 0 && bits & 2 != 0 && all_marked(line, &words)
}
