// Compare and Earlier: which of two readings of a line ranks ahead.
#![tactic(auto)]

ghost use Rattle.std.specs.Prelude.{◌+◌, ◌≤◌, ◌≡◌, [], ◌⊎◌, length};
ghost use Rattle.table.specs.Answers.{says};
ghost use Rattle.reading.specs.Codec.{record_size, record_at, records_of};
ghost use Rattle.reading.specs.Fitting.{Fits, spelled};
ghost use Rattle.ranking.specs.Answers.{verdict_number, same_line, compare_values, compare_says, chosen, the_first, the_second, neither};
ghost use Rattle.ranking.specs.OneLine.{OneLine, AnswersPrecedence};
ghost use Rattle.ranking.specs.Records.{rank_records, RecordVerdict, order_number};

use reading::Place;
use std::cmp::Ordering;
use table::Refusal;

// The order of the two records at one place, by which the greater ranks ahead: the longer, and of one length that of the lower kind.
fn rank_record(first: &[u8], second: &[u8], at: usize) -> Ordering
    requires inside_first { at + record_size ≤ length first.now }
    requires inside_second { at + record_size ≤ length second.now }
    ensures { RecordVerdict (record_at first.now at) (record_at second.now at) (order_number result) }
{
    let m = reading::record_length(first, at);
    let n = reading::record_length(second, at);
    let i = reading::record_kind(first, at);
    let j = reading::record_kind(second, at);
    m.cmp(&n).then(j.cmp(&i))
}

// The order of two readings: that of the first records that differ.
fn rank_records(first: &[u8], second: &[u8]) -> Ordering
    ensures { order_number result
        ≡ verdict_number (rank_records (records_of first.now) (records_of second.now)) }
{
    let n = first.len().min(second.len());
    for i in 0..n / Place::RECORD {
        let order = rank_record(first, second, Place::RECORD * i);
        if order != Ordering::Equal {
            return order;
        }
    }
    Ordering::Equal
}

// Compare's result for an order.
fn verdict_of(order: Ordering) -> usize
    ensures { result ≡ order_number order }
{
    match order {
        Ordering::Equal => 0,
        Ordering::Greater => 1,
        Ordering::Less => 2,
    }
}

// Whether two readings of at most 255 bytes spell one line.
fn same_line(first: &[u8], second: &[u8]) -> bool
    requires short_first { length (spelled first.now) ≤ 255 }
    requires short_second { length (spelled second.now) ≤ 255 }
    ensures { result ≡ same_line (spelled first.now) (spelled second.now) }
{
    let mut a = [0u8; 256];
    let mut b = [0u8; 256];
    let m = reading::spell_into(first, &mut a);
    let n = reading::spell_into(second, &mut b);
    a[..m] == b[..n]
}

// Two readings that fit the start record: refusal 14, or which of them ranks ahead.
fn compare_fitting(
    table: &[u8],
    start: usize,
    first: &[u8],
    second: &[u8],
) -> Result<usize, Refusal>
    requires fitting_first { Fits table.now start first.now }
    requires fitting_second { Fits table.now start second.now }
    ensures { (f : Fits table.now start first.now) (g : Fits table.now start second.now) → says result ≡ compare_values f.value g.value }
{
    if same_line(first, second) {
        return Ok(verdict_of(rank_records(first, second)));
    }
    Err(Refusal::Differ)
}

// Compare: 0 if two readings are the same, 1 if the first ranks ahead, 2 if the second does.
pub fn compare(table: &[u8], start: usize, first: &[u8], second: &[u8]) -> Result<usize, Refusal>
    ensures answer { says result ≡ compare_says table.now start first.now second.now }
    ensures precedence { (o : OneLine table.now start first.now second.now)
        → AnswersPrecedence (λ x. says result ≡ x) first.now second.now o.first.value o.second.value }
{
    let rules = reading::admit(table, start)?;
    reading::fit_whole(&rules, start, first).ok_or(Refusal::Unfit(0))?;
    reading::fit_whole(&rules, start, second).ok_or(Refusal::Unfit(1))?;
    compare_fitting(table, start, first, second)
}

// Earlier: the reading that ranks ahead, the first if they are the same, an empty part of the first where Compare refuses.
pub fn earlier<'a>(table: &[u8], start: usize, first: &'a [u8], second: &'a [u8]) -> &'a [u8]
    ensures ahead { chosen (compare_says table.now start first.now second.now) ≡ the_first → result ≡ first.entry }
    ensures behind { chosen (compare_says table.now start first.now second.now) ≡ the_second → result ≡ second.entry }
    ensures refused { chosen (compare_says table.now start first.now second.now) ≡ neither → (result.ref_ptr ≡ first.entry.ref_ptr) × (result.now ≡ []) }
{
    match compare(table, start, first, second) {
        Ok(verdict) => {
            if verdict < 2 {
                return first;
            }
            second
        }
        Err(_) => &first[..0],
    }
}
