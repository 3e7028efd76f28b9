// The rows of Read's work area: for each record and each start in the line, the lengths of the parts that the record spells there. A row is a
// run of lengths where it can be, and is written out byte by byte otherwise. Nothing here knows the table or the line.

#![tactic(auto)]

ghost use Rattle.std.specs.Prelude.{ℕ, ◌+◌, ◌-◌, ◌*◌, ◌≤◌, ◌<◌, ◌≡◌, ◌⊎◌, true, false, cond, ◌||◌, leb, length, MatchOption, IfSome};
ghost use Rattle.rows.specs.Layout.{area_size, head_at, row_at, is_set, longest_at, lowest_at, has, tells};
ghost use Rattle.rows.specs.Rows.{Written, joined, NextSet, RunTold, Inside, Shaped, Growing, Grown, Explicit, Marked, mark_set, in_run, behind, behind_non_empty, Earlier, cuts_joined, NextLength, OfLength, Cutting, Skipped, AllSet, Tail, open_has, Open, WrittenOut, LowBehind, JoinedRun, Reached};

// A run of lengths, and the first cut that was not looked at for it.
#[derive(Drop)]
struct Run {
    low: usize,
    high: usize,
    next: usize,
}

// Record k's row in the block of the last d bytes of the line, in the area of a table of m records. Where a method is to be inlined, the loop that
// calls it keeps these numbers in registers.
#[derive(Clone, Copy, Drop)]
pub struct Row {
    pub m: usize,
    pub d: usize,
    pub k: usize,
}

// The bytes of work area that a table of m records and a line of n bytes need.
pub fn area_size(m: usize, n: usize) -> usize
    requires m_bound { m ≤ 65535 }
    requires n_bound { n ≤ 255 }
    ensures { result ≡ area_size m n }
{
    m * (n + 1) * (n + 2) / 2
}

// Stores a byte n times from `to` on.
fn put(work: &mut [u8], to: usize, n: usize, value: u8)
    requires { to + n ≤ length work.old }
    ensures { Written (λ i. is_set value) to n work.old work.new }
{
    if n == 1 {
        work[to] = value;
        return;
    }
    work[to..to + n].fill(value);
}

// Joins n bytes from `from` on, which end before `to`, into those from `to` on.
fn join(work: &mut [u8], to: usize, from: usize, n: usize)
    requires room { to + n ≤ length work.old }
    requires apart { from + n ≤ to }
    ensures { Written (joined work.old to from) to n work.old work.new }
{
    for i in 0..n {
        work[to + i] |= work[from + i];
    }
}

// The first set byte from byte `from` of `start` on that stands before byte `end`.
fn next_set(work: &[u8], start: usize, from: usize, end: usize) -> Option<usize>
    requires from_le_end { from ≤ end }
    requires end_in_bounds { start + end ≤ length work.now }
    ensures { MatchOption result (NextSet work.now start from end end) (λ r. (r < end) × NextSet work.now start from end r) }
{
    for i in from..end {
        if work[start + i] != 0 {
            return Some(i);
        }
    }
    None
}

// Whether every byte from byte `from` of `start` up to `end` is set.
fn all_set(work: &[u8], start: usize, from: usize, end: usize) -> bool
    requires { start + end ≤ length work.now }
    ensures { AllSet work.now start from end result }
{
    for i in from..end {
        if work[start + i] == 0 {
            return false;
        }
    }
    true
}

// The lowest length of two runs together, the lengths from `low` to `high` and those from a to b, where they make a run. Where `high` is 0 the
// first has no length.
fn join_low(low: usize, high: usize, a: usize, b: usize) -> Option<usize>
    requires le_low { (1 ≤ low) × (1 ≤ high → low ≤ high) }
    requires le_a { (1 ≤ a) × (a ≤ b) }
    requires high_bound { (high ≤ 255) × (b ≤ 255) }
    ensures { IfSome result (λ r. JoinedRun low high a b r) }
{
    if high == 0 {
        return Some(a);
    }
    if high + 1 < a {
        return None;
    }
    if b + 1 < low {
        return None;
    }
    Some(low.min(a))
}

impl Row {
    // Where record k's header of block d stands.
    #[inline(always)]
    pub fn head(&self) -> usize
        requires m_bound { self.now.m ≤ 65535 }
        requires d_bound { self.now.d ≤ 255 }
        requires k_bound { self.now.k ≤ 65535 }
        ensures { result ≡ head_at self.now.m self.now.d self.now.k }
    {
        self.m * (self.d * (self.d + 1) / 2) + self.k
    }

    // Where record k's row of block d starts.
    #[inline(always)]
    pub fn start(&self) -> usize
        requires m_bound { self.now.m ≤ 65535 }
        requires d_bound { self.now.d ≤ 255 }
        requires k_bound { self.now.k ≤ 65535 }
        ensures { result ≡ row_at self.now.m self.now.d self.now.k }
    {
        self.m * (self.d * (self.d + 1) / 2) + self.m + self.k * self.d
    }

    // The longest length of record k's row in block d, or 0.
    #[inline(always)]
    pub fn longest(&self, work: &[u8]) -> usize
        requires { Inside self.now.m self.now.d self.now.k work.now }
        ensures { (result ≡ longest_at work.now self.now.m self.now.d self.now.k) × (result < 256) }
    {
        usize::from(work[self.head()])
    }

    // The lowest length of the row's run, where it is one; h is its longest length.
    #[inline(always)]
    fn lowest(&self, work: &[u8], h: usize) -> Option<usize>
        requires inside { Inside self.now.m self.now.d self.now.k work.now }
        requires le_d { 1 ≤ self.now.d }
        requires longest { h ≡ longest_at work.now self.now.m self.now.d self.now.k }
        ensures { RunTold work.now self.now.m self.now.d self.now.k result }
    {
        if h <= 1 {
            return Some(1);
        }
        let low = usize::from(work[self.start()]);
        if low == 0 {
            return None;
        }
        Some(low)
    }

    // Whether record k spells the first e of the last d bytes of the line.
    #[inline(always)]
    pub fn tell(&self, work: &[u8], e: usize) -> bool
        requires inside { Inside self.now.m self.now.d self.now.k work.now }
        requires e_le_d { e ≤ self.now.d }
        ensures { result ≡ tells self.now.m work.now self.now.k self.now.d e }
    {
        if e == 0 {
            return work[self.k] != 0;
        }
        let h = self.longest(work);
        if h < e {
            return false;
        }
        if let Some(low) = self.lowest(work, h) {
            return low <= e;
        }
        if e == self.d {
            return true;
        }
        work[self.start() + e] != 0
    }

    // Marks the lengths from `low` to `high` in a row that is written out; the whole block's length has no mark.
    #[inline(always)]
    fn mark_lengths(&self, work: &mut [u8], low: usize, high: usize)
        requires inside { Inside self.now.m self.now.d self.now.k work.old }
        requires le_low { 1 ≤ low }
        requires high_le_d { high ≤ self.now.d }
        ensures { Marked self.now.m self.now.d self.now.k (λ e. mark_set self.now.m work.old self.now.k self.now.d e || in_run low high e) work.old work.new }
    {
        let end = (high + 1).min(self.d);
        if low < end {
            let to = self.start() + low;
            put(work, to, end - low, 1);
        }
    }

    // Writes out a row with the lengths from `low` to `high`, none where `high` is 0.
    fn write_out(&self, work: &mut [u8], low: usize, high: usize)
        requires inside { Inside self.now.m self.now.d self.now.k work.old }
        requires le_d { 1 ≤ self.now.d }
        requires le_low { 1 ≤ low }
        requires high_le_d { high ≤ self.now.d }
        ensures { Explicit self.now.m self.now.d self.now.k (in_run low high) work.old work.new }
    {
        let at = self.start();
        put(work, at, self.d, 0);
        self.mark_lengths(work, low, high);
    }

    // Writes out a row that is a run; one that is written out stays.
    fn without_run(&self, work: &mut [u8])
        requires { Growing self.now.m self.now.d self.now.k work.old }
        ensures { Explicit self.now.m self.now.d self.now.k (has self.now.m work.old self.now.k self.now.d) work.old work.new }
    {
        let h = self.longest(work);
        if let Some(low) = self.lowest(work, h) {
            self.write_out(work, low, h);
        }
    }

    // Adds the lengths from `low` to `high` to a row that is written out, and raises its header; h is its longest length. Returns the new one.
    #[inline(always)]
    fn raise_run(&self, work: &mut [u8], low: usize, high: usize, h: usize) -> usize
        requires is_open { Open self.now.m self.now.d self.now.k h work.old }
        requires le_low { (1 ≤ low) × (low ≤ high) × (high ≤ self.now.d) }
        requires long { (2 ≤ high) ⊎ (2 ≤ h) }
        ensures grown { Grown self.now.m self.now.d self.now.k (λ e. open_has self.now.m work.old self.now.k self.now.d h e || in_run low high e) work.old work.new }
        ensures written_out { WrittenOut self.now.m self.now.d self.now.k result work.new }
    {
        self.mark_lengths(work, low, high);
        let top = h.max(high);
        let at = self.head();
        work[at] = top as u8;
        top
    }

    // The same for the lengths of another row that is written out, which stands in block p, behind the first d - p bytes; `high` is its longest
    // length.
    #[inline(always)]
    fn raise_row(&self, work: &mut [u8], s: usize, p: usize, high: usize, h: usize) -> usize
        requires is_open { Open self.now.m self.now.d self.now.k h work.old }
        requires earlier { Earlier self.now.m self.now.d self.now.k s p work.old }
        requires le_p { 1 ≤ p }
        requires other_longest { high ≡ longest_at work.old self.now.m p s }
        requires no_run { is_set (lowest_at work.old self.now.m p s) ≡ false }
        ensures grown { Grown self.now.m self.now.d self.now.k (λ e. open_has self.now.m work.old self.now.k self.now.d h e || behind_non_empty self.now.m work.old s self.now.d p e) work.old work.new }
        ensures written_out { WrittenOut self.now.m self.now.d self.now.k result work.new }
    {
        let to = self.start() + (self.d - p) + 1;
        let other = Row {
            d: p,
            k: s,
            ..*self
        };
        let from = other.start() + 1;
        join(work, to, from, p - 1);
        let top = h.max(self.d - p + high);
        let at = self.head();
        work[at] = top as u8;
        top
    }

    // Adds the lengths from `low` to `high` to a row, written out.
    fn add_marks(&self, work: &mut [u8], low: usize, high: usize)
        requires growing { Growing self.now.m self.now.d self.now.k work.old }
        requires le_low { (1 ≤ low) × (low ≤ high) × (high ≤ self.now.d) }
        requires long { (2 ≤ high) ⊎ (2 ≤ longest_at work.old self.now.m self.now.d self.now.k) }
        ensures { Grown self.now.m self.now.d self.now.k (λ e. has self.now.m work.old self.now.k self.now.d e || in_run low high e) work.old work.new }
    {
        let h = self.longest(work);
        self.without_run(work);
        self.raise_run(work, low, high, h);
    }

    // Adds the lengths of a row that is written out, which stands in block p, behind the first d - p bytes, to a row, written out.
    fn join_marks(&self, work: &mut [u8], s: usize, p: usize)
        requires growing { Growing self.now.m self.now.d self.now.k work.old }
        requires earlier { Earlier self.now.m self.now.d self.now.k s p work.old }
        requires le_p { 1 ≤ p }
        requires no_run { is_set (lowest_at work.old self.now.m p s) ≡ false }
        ensures { Grown self.now.m self.now.d self.now.k (λ e. has self.now.m work.old self.now.k self.now.d e || behind_non_empty self.now.m work.old s self.now.d p e) work.old work.new }
    {
        let h = self.longest(work);
        let other = Row {
            d: p,
            k: s,
            ..*self
        };
        let high = other.longest(work);
        self.without_run(work);
        self.raise_row(work, s, p, high, h);
    }

    // Makes a row the run of lengths from `low` to `high`.
    fn set_run(&self, work: &mut [u8], low: usize, high: usize)
        requires inside { Inside self.now.m self.now.d self.now.k work.old }
        requires le_low { (1 ≤ low) × (low ≤ high) × (high ≤ self.now.d) }
        ensures { Grown self.now.m self.now.d self.now.k (in_run low high) work.old work.new }
    {
        let head = self.head();
        let at = self.start();
        work[head] = high as u8;
        work[at] = low as u8;
    }

    // Makes a row a run again where it has every length up to its longest.
    fn close_row(&self, work: &mut [u8])
        requires { Growing self.now.m self.now.d self.now.k work.old }
        ensures { Grown self.now.m self.now.d self.now.k (has self.now.m work.old self.now.k self.now.d) work.old work.new }
    {
        let h = self.longest(work);
        if self.lowest(work, h).is_some() {
            return;
        }
        let end = (h + 1).min(self.d);
        let at = self.start();
        if !all_set(work, at, 1, end) {
            return;
        }
        self.set_run(work, 1, h);
    }

    // Adds the lengths from `low` to `high` to a row that they make no run with, or that is none.
    fn mark_run(&self, work: &mut [u8], low: usize, high: usize)
        requires growing { Growing self.now.m self.now.d self.now.k work.old }
        requires le_low { (1 ≤ low) × (low ≤ high) × (high ≤ self.now.d) }
        requires long { (2 ≤ high) ⊎ (2 ≤ longest_at work.old self.now.m self.now.d self.now.k) }
        ensures { Grown self.now.m self.now.d self.now.k (λ e. has self.now.m work.old self.now.k self.now.d e || in_run low high e) work.old work.new }
    {
        self.add_marks(work, low, high);
        self.close_row(work);
    }

    // Adds the lengths of a row that is written out, which stands in block p, behind the first d - p bytes.
    fn mark_row(&self, work: &mut [u8], s: usize, p: usize)
        requires growing { Growing self.now.m self.now.d self.now.k work.old }
        requires earlier { Earlier self.now.m self.now.d self.now.k s p work.old }
        requires le_p { 1 ≤ p }
        requires no_run { is_set (lowest_at work.old self.now.m p s) ≡ false }
        ensures { Grown self.now.m self.now.d self.now.k (λ e. has self.now.m work.old self.now.k self.now.d e || behind_non_empty self.now.m work.old s self.now.d p e) work.old work.new }
    {
        self.join_marks(work, s, p);
        self.close_row(work);
    }

    // Adds the lengths from `low` to `high` to a row.
    fn add_run(&self, work: &mut [u8], low: usize, high: usize)
        requires growing { Growing self.now.m self.now.d self.now.k work.old }
        requires le_low { (1 ≤ low) × (low ≤ high) × (high ≤ self.now.d) }
        ensures { Grown self.now.m self.now.d self.now.k (λ e. has self.now.m work.old self.now.k self.now.d e || in_run low high e) work.old work.new }
    {
        let h = self.longest(work);
        if h == 0 {
            self.set_run(work, low, high);
            return;
        }
        let Some(l) = self.lowest(work, h) else {
            self.mark_run(work, low, high);
            return;
        };
        if h + 1 < low {
            self.mark_run(work, low, high);
            return;
        }
        if high + 1 < l {
            self.mark_run(work, low, high);
            return;
        }
        self.set_run(work, l.min(low), h.max(high));
    }

    // Adds the lengths of record s's row in block p, p > 0, behind the first d - p bytes.
    fn add_row(&self, work: &mut [u8], s: usize, p: usize)
        requires growing { Growing self.now.m self.now.d self.now.k work.old }
        requires earlier { Earlier self.now.m self.now.d self.now.k s p work.old }
        requires le_p { 1 ≤ p }
        ensures { Grown self.now.m self.now.d self.now.k (λ e. has self.now.m work.old self.now.k self.now.d e || behind_non_empty self.now.m work.old s self.now.d p e) work.old work.new }
    {
        let other = Row {
            d: p,
            k: s,
            ..*self
        };
        let h = other.longest(work);
        if h == 0 {
            return;
        }
        let Some(low) = other.lowest(work, h) else {
            self.mark_row(work, s, p);
            return;
        };
        self.add_run(work, self.d - p + low, self.d - p + h);
    }

    // The same with the empty part, p < d.
    fn add_row_and_empty(&self, work: &mut [u8], s: usize, p: usize)
        requires growing { Growing self.now.m self.now.d self.now.k work.old }
        requires earlier { Earlier self.now.m self.now.d self.now.k s p work.old }
        requires le_p { (1 ≤ p) × (p < self.now.d) }
        requires spells_empty { tells self.now.m work.old s p 0 ≡ true }
        ensures { Grown self.now.m self.now.d self.now.k (λ e. has self.now.m work.old self.now.k self.now.d e || behind self.now.m work.old s self.now.d p e) work.old work.new }
    {
        let other = Row {
            d: p,
            k: s,
            ..*self
        };
        let h = other.longest(work);
        if other.lowest(work, h) == Some(1) {
            self.add_run(work, self.d - p, self.d - p + h);
            return;
        }
        self.add_run(work, self.d - p, self.d - p);
        self.add_row(work, s, p);
    }

    // Adds what record s spells of the last p bytes, behind the first d - p bytes.
    pub fn add(&self, work: &mut [u8], s: usize, p: usize)
        requires growing { Growing self.now.m self.now.d self.now.k work.old }
        requires earlier { Earlier self.now.m self.now.d self.now.k s p work.old }
        ensures { Grown self.now.m self.now.d self.now.k (λ e. has self.now.m work.old self.now.k self.now.d e || behind self.now.m work.old s self.now.d p e) work.old work.new }
    {
        if p == self.d {
            self.add_row(work, s, p);
            return;
        }
        if work[s] == 0 {
            if p == 0 {
                return;
            }
            self.add_row(work, s, p);
            return;
        }
        if p == 0 {
            self.add_run(work, self.d, self.d);
            return;
        }
        self.add_row_and_empty(work, s, p);
    }

    // Adds the lengths of record s's row in block p, p > 0, behind the first d - p bytes, to a row that is written out; h is its longest length.
    // Returns the new one.
    #[inline(always)]
    fn add_row_marked(&self, work: &mut [u8], s: usize, p: usize, h: usize) -> usize
        requires growing { Growing self.now.m self.now.d self.now.k work.old }
        requires written_out { WrittenOut self.now.m self.now.d self.now.k h work.old }
        requires earlier { Earlier self.now.m self.now.d self.now.k s p work.old }
        requires le_p { 1 ≤ p }
        ensures grown { Grown self.now.m self.now.d self.now.k (λ e. has self.now.m work.old self.now.k self.now.d e || behind_non_empty self.now.m work.old s self.now.d p e) work.old work.new }
        ensures still_written_out { WrittenOut self.now.m self.now.d self.now.k result work.new }
    {
        let other = Row {
            d: p,
            k: s,
            ..*self
        };
        let high = other.longest(work);
        if high == 0 {
            return h;
        }
        let Some(low) = other.lowest(work, high) else {
            return self.raise_row(work, s, p, high, h);
        };
        self.raise_run(work, self.d - p + low, self.d - p + high, h)
    }

    // Adds what record s spells of the last p bytes, p < d, behind the first d - p bytes, to a row that is written out; h is its longest length.
    // Returns the new one.
    #[inline(always)]
    fn add_marked(&self, work: &mut [u8], s: usize, p: usize, h: usize) -> usize
        requires growing { Growing self.now.m self.now.d self.now.k work.old }
        requires written_out { WrittenOut self.now.m self.now.d self.now.k h work.old }
        requires earlier { Earlier self.now.m self.now.d self.now.k s p work.old }
        requires p_lt_d { p < self.now.d }
        ensures grown { Grown self.now.m self.now.d self.now.k (λ e. has self.now.m work.old self.now.k self.now.d e || behind self.now.m work.old s self.now.d p e) work.old work.new }
        ensures still_written_out { WrittenOut self.now.m self.now.d self.now.k result work.new }
    {
        if work[s] == 0 {
            if p == 0 {
                return h;
            }
            return self.add_row_marked(work, s, p, h);
        }
        let top = self.raise_run(work, self.d - p, self.d - p, h);
        if p == 0 {
            return top;
        }
        self.add_row_marked(work, s, p, top)
    }

    // The least length of a row that is not below `from`; h is its longest length, and low its lowest where it is a run.
    #[inline(always)]
    fn next_in(&self, work: &[u8], h: usize, low: Option<usize>, from: usize) -> Option<usize>
        requires growing { Growing self.now.m self.now.d self.now.k work.now }
        requires longest { h ≡ longest_at work.now self.now.m self.now.d self.now.k }
        requires run { RunTold work.now self.now.m self.now.d self.now.k low }
        requires le_from { (1 ≤ from) × (from ≤ self.now.d + 1) }
        ensures { OfLength self.now.d (NextLength self.now.m work.now self.now.k self.now.d from) result }
    {
        if h < from {
            return None;
        }
        if let Some(low) = low {
            return Some(from.max(low));
        }
        let end = (h + 1).min(self.d);
        let at = self.start();
        if from < end {
            if let Some(r) = next_set(work, at, from, end) {
                return Some(r);
            }
        }
        if h == self.d {
            return Some(self.d);
        }
        None
    }

    // The least length of a row that is not below `from`.
    fn next_length(&self, work: &[u8], from: usize) -> Option<usize>
        requires growing { Growing self.now.m self.now.d self.now.k work.now }
        requires le_from { (1 ≤ from) × (from ≤ self.now.d + 1) }
        ensures { OfLength self.now.d (NextLength self.now.m work.now self.now.k self.now.d from) result }
    {
        let h = self.longest(work);
        if h < from {
            return None;
        }
        let low = self.lowest(work, h);
        self.next_in(work, h, low, from)
    }

    // The cut behind c bytes, or the next one where `star` and the row has it.
    #[inline(always)]
    fn skip_reached(&self, work: &[u8], c: usize, star: bool) -> usize
        requires growing { Growing self.now.m self.now.d self.now.k work.now }
        requires le_c { (1 ≤ c) × (c ≤ self.now.d + 1) }
        ensures skipped { Skipped self.now.m work.now self.now.k self.now.d c star result }
        ensures upper_bound { result ≤ self.now.d + 1 }
    {
        if !star {
            return c;
        }
        if self.d < c {
            return c;
        }
        if self.tell(work, c) {
            return c + 1;
        }
        c
    }

    // The cut behind c bytes, or a later one where those from c on add nothing: the row is full; or `star`, and the row has them.
    fn skip(&self, work: &[u8], c: usize, star: bool) -> usize
        requires growing { Growing self.now.m self.now.d self.now.k work.now }
        requires le_c { (1 ≤ c) × (c ≤ self.now.d + 1) }
        ensures skipped { Skipped self.now.m work.now self.now.k self.now.d c star result }
        ensures upper_bound { result ≤ self.now.d + 1 }
    {
        let h = self.longest(work);
        if h < c {
            return c;
        }
        let Some(low) = self.lowest(work, h) else {
            return self.skip_reached(work, c, star);
        };
        if low == 1 && h == self.d {
            return self.d + 1;
        }
        if !star {
            return c;
        }
        if c < low {
            return c;
        }
        h + 1
    }

    // Where the lengths that a row has up to the last one start: it has each from there on. h is its longest length, and it has each from t on.
    #[inline(always)]
    fn tail(&self, work: &[u8], h: usize, t: usize) -> usize
        requires growing { Growing self.now.m self.now.d self.now.k work.now }
        requires written_out { WrittenOut self.now.m self.now.d self.now.k h work.now }
        requires le_t { (1 ≤ t) × (t ≤ self.now.d + 1) }
        requires tail { Tail self.now.m work.now self.now.k self.now.d t }
        ensures still_tail { Tail self.now.m work.now self.now.k self.now.d result }
        ensures lower_bound { (1 ≤ result) × (result ≤ self.now.d + 1) }
    {
        if h < self.d {
            return t;
        }
        let at = self.start();
        for i in (1..t.min(self.d)).rev() {
            if work[at + i] == 0 {
                return i + 1;
            }
        }
        1
    }

    // Adds, for each length of record f's row from c on, what record s spells behind it, to a row that is written out.
    fn mark_cuts(&self, work: &mut [u8], f: usize, s: usize, c: usize, star: bool)
        requires cutting { Cutting self.now.m self.now.d self.now.k f s star work.old }
        requires no_run { lowest_at work.old self.now.m self.now.d self.now.k ≡ 0 }
        requires le_c { (1 ≤ c) × (c ≤ self.now.d + 1) }
        ensures { Grown self.now.m self.now.d self.now.k (cuts_joined self.now.m work.old self.now.d self.now.k f s c (self.now.d + 1)) work.old work.new }
    {
        let row = *self;
        let first = Row { k: f, ..row };
        let mut h = row.longest(work);
        let high = first.longest(work);
        let low = first.lowest(work, high);
        let mut t = row.d + 1;
        let mut next = first.next_in(work, high, low, c);
        while let Some(i) = next {
            h = row.add_marked(work, s, row.d - i, h);
            t = row.tail(work, h, t);
            if t <= i + 1 {
                return;
            }
            let open = row.skip_reached(work, i + 1, star);
            next = first.next_in(work, high, low, open);
        }
    }

    // The longest length that record k spells of the last d bytes, 0 for the empty part or none.
    fn high_behind(&self, work: &[u8]) -> usize
        requires { Inside self.now.m self.now.d self.now.k work.now }
        ensures { (result ≡ cond (leb self.now.d 0) 0 (longest_at work.now self.now.m self.now.d self.now.k)) × (result < 256) }
    {
        if self.d == 0 {
            return 0;
        }
        self.longest(work)
    }

    // The lowest length that record k spells of the last d bytes, the empty part included, where its lengths are a run; h is the longest. It
    // spells some part.
    fn low_behind(&self, work: &[u8], h: usize) -> Option<usize>
        requires inside { Inside self.now.m self.now.d self.now.k work.now }
        requires shaped { 1 ≤ self.now.d → Shaped self.now.m self.now.d self.now.k work.now }
        requires longest { h ≡ cond (leb self.now.d 0) 0 (longest_at work.now self.now.m self.now.d self.now.k) }
        requires spells_empty { h ≡ 0 → tells self.now.m work.now self.now.k self.now.d 0 ≡ true }
        ensures { IfSome result (λ low. LowBehind self.now.m work.now self.now.k self.now.d h low) }
    {
        if h == 0 {
            return Some(0);
        }
        let low = self.lowest(work, h)?;
        if work[self.k] == 0 {
            return Some(low);
        }
        if low == 1 {
            return Some(0);
        }
        None
    }

    // The lengths from `low` to `high`, and with them what record k spells behind each cut from c on up to `end`, as long as they are a run.
    fn reach(&self, work: &[u8], c: usize, end: usize, low: usize, high: usize) -> Run
        requires inside { Inside self.now.m self.now.d self.now.k work.now }
        requires second_shape { (p : ℕ) → 1 ≤ p → p < self.now.d → Shaped self.now.m p self.now.k work.now }
        requires le_c { (1 ≤ c) × (c ≤ self.now.d + 1) × (end ≤ self.now.d) }
        requires le_low { (1 ≤ low) × (high ≤ self.now.d) × (1 ≤ high → low ≤ high) }
        ensures { Reached self.now.m work.now self.now.d self.now.k c end low high result.low result.high result.next }
    {
        let mut bottom = low;
        let mut top = high;
        for i in c..end + 1 {
            let rest = Row {
                d: self.d - i,
                ..*self
            };
            let h = rest.high_behind(work);
            if h == 0 && work[self.k] == 0 {
                continue;
            }
            let Some(l) = rest.low_behind(work, h) else {
                return Run {
                    low: bottom,
                    high: top,
                    next: i,
                };
            };
            let Some(joined) = join_low(bottom, top, i + l, i + h) else {
                return Run {
                    low: bottom,
                    high: top,
                    next: i,
                };
            };
            bottom = joined;
            top = top.max(i + h);
            if top == self.d && bottom <= i + 1 {
                return Run {
                    low: bottom,
                    high: top,
                    next: self.d + 1,
                };
            }
        }
        Run {
            low: bottom,
            high: top,
            next: c.max(end + 1),
        }
    }

    // The last of the lengths from c on that a row has one after the other, as far as its form shows; it has c.
    fn run_end(&self, work: &[u8], c: usize) -> usize
        requires growing { Growing self.now.m self.now.d self.now.k work.now }
        requires le_c { (1 ≤ c) × (c ≤ self.now.d) }
        requires held { has self.now.m work.now self.now.k self.now.d c ≡ true }
        ensures run { (i : ℕ) → c ≤ i → i ≤ result → has self.now.m work.now self.now.k self.now.d i ≡ true }
        ensures upper_bound { result ≤ self.now.d }
    {
        let h = self.longest(work);
        match self.lowest(work, h) {
            Some(_) => h,
            None => c,
        }
    }

    // Adds, for the lengths of record f's row from c on, what record s spells behind them, as long as the row stays a run. Returns the first
    // length that was not looked at.
    fn extend(&self, work: &mut [u8], f: usize, s: usize, c: usize) -> usize
        requires cutting { Cutting self.now.m self.now.d self.now.k f s false work.old }
        requires le_c { (1 ≤ c) × (c ≤ self.now.d) }
        requires held { has self.now.m work.old f self.now.d c ≡ true }
        ensures grown { Grown self.now.m self.now.d self.now.k (cuts_joined self.now.m work.old self.now.d self.now.k f s c result) work.old work.new }
        ensures lower_bound { (c ≤ result) × (result ≤ self.now.d + 1) }
    {
        let high = self.longest(work);
        let Some(low) = self.lowest(work, high) else {
            return c;
        };
        let first = Row { k: f, ..*self };
        let second = Row { k: s, ..*self };
        let end = first.run_end(work, c);
        let run = second.reach(work, c, end, low, high);
        if run.high == 0 {
            return run.next;
        }
        self.set_run(work, run.low, run.high);
        run.next
    }

    // Adds, for the length c of record f's row and as many of those behind it as one form of the row allows, what record s spells behind them.
    // Returns the first length that was not looked at.
    fn add_some_cuts(&self, work: &mut [u8], f: usize, s: usize, c: usize, star: bool) -> usize
        requires cutting { Cutting self.now.m self.now.d self.now.k f s star work.old }
        requires le_c { (1 ≤ c) × (c ≤ self.now.d) }
        requires held { has self.now.m work.old f self.now.d c ≡ true }
        ensures grown { Grown self.now.m self.now.d self.now.k (cuts_joined self.now.m work.old self.now.d self.now.k f s c result) work.old work.new }
        ensures lower_bound { (c < result) × (result ≤ self.now.d + 1) }
    {
        let r = self.extend(work, f, s, c);
        if c < r {
            return r;
        }
        self.add(work, s, self.d - c);
        let h = self.longest(work);
        if self.lowest(work, h).is_some() {
            return c + 1;
        }
        self.mark_cuts(work, f, s, c + 1, star);
        self.close_row(work);
        self.d + 1
    }

    // Adds, for each length c of record f's row, what record s spells behind c bytes.
    fn add_all_cuts(&self, work: &mut [u8], f: usize, s: usize, star: bool)
        requires { Cutting self.now.m self.now.d self.now.k f s star work.old }
        ensures { Grown self.now.m self.now.d self.now.k (cuts_joined self.now.m work.old self.now.d self.now.k f s 1 (self.now.d + 1)) work.old work.new }
    {
        let first = Row { k: f, ..*self };
        let mut next = first.next_length(work, 1);
        while let Some(c) = next {
            let r = self.add_some_cuts(work, f, s, c, star);
            let open = self.skip(work, r, star);
            next = first.next_length(work, open);
        }
    }

    // Adds, for each length c of record f's row, what record s spells behind c bytes. Most rows have no length, or one byte alone.
    pub fn add_cuts(&self, work: &mut [u8], f: usize, s: usize, star: bool)
        requires { Cutting self.now.m self.now.d self.now.k f s star work.old }
        ensures { Grown self.now.m self.now.d self.now.k (cuts_joined self.now.m work.old self.now.d self.now.k f s 1 (self.now.d + 1)) work.old work.new }
    {
        let first = Row { k: f, ..*self };
        let h = first.longest(work);
        if h == 0 {
            return;
        }
        if h == 1 {
            self.add(work, s, self.d - 1);
            return;
        }
        self.add_all_cuts(work, f, s, star);
    }
}

// Where record k's header of block d stands.
pub fn head_at(m: usize, d: usize, k: usize) -> usize
    requires m_bound { m ≤ 65535 }
    requires d_bound { d ≤ 255 }
    requires k_bound { k ≤ 65535 }
    ensures { result ≡ head_at m d k }
{
    Row { m, d, k }.head()
}

// Where record k's row of block d starts.
pub fn row_at(m: usize, d: usize, k: usize) -> usize
    requires m_bound { m ≤ 65535 }
    requires d_bound { d ≤ 255 }
    requires k_bound { k ≤ 65535 }
    ensures { result ≡ row_at m d k }
{
    Row { m, d, k }.start()
}

// The longest length of record k's row in block d, or 0.
pub fn longest(work: &[u8], m: usize, d: usize, k: usize) -> usize
    requires { Inside m d k work.now }
    ensures { (result ≡ longest_at work.now m d k) × (result < 256) }
{
    Row { m, d, k }.longest(work)
}

// Whether record k spells the first e of the last d bytes of the line.
pub fn tell(work: &[u8], m: usize, k: usize, d: usize, e: usize) -> bool
    requires inside { Inside m d k work.now }
    requires e_le_d { e ≤ d }
    ensures { result ≡ tells m work.now k d e }
{
    Row { m, d, k }.tell(work, e)
}
