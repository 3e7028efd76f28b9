// Read's work area: for every record and every part of the line, whether the record spells the part. It is filled from the line's last byte
// towards its first.

#![tactic(auto)]

ghost use Rattle.std.specs.Prelude.{ℕ, ◌+◌, ◌-◌, ◌≤◌, ◌<◌, ◌≡◌, true, false, cond, [], leb, length, get_or, drop};
ghost use Rattle.std.specs.Int.Bits.{bit_and};
ghost use Rattle.posix.specs.Spells.{spells};
ghost use Rattle.table.specs.Records.{count, kind_at, a_at, is_letter};
ghost use Rattle.table.specs.Faults.{Passes};
ghost use Rattle.table.specs.Expression.{exp_of};
ghost use Rattle.rows.specs.Layout.{area_size, longest_at};
ghost use Rattle.plans.specs.Plans.{in_either, Bounded, Parents, EmptyTold, Planned};
ghost use Rattle.area.specs.Area.{Told};
ghost use Rattle.area.specs.Filling.{Sized, Ready, Made, Progress, Visited, Woken, MarkedUnless, FilledFor, Seeded, LowsSet, Base};

use plans::{Bounds, Plan};
use rows::Row;
use table::{Kind, Rules};

// What a walk over a filled work area goes by: rules, a line, and the work area that is filled for both.
#[derive(Drop)]
pub struct Filled<'a> {
    pub table: &'a Rules<'a>,
    pub line: &'a [u8],
    pub work: &'a [u8],
}

// Whether c is within one of two ranges, as 1 or 0.
fn in_either(low: u8, high: u8, low2: u8, high2: u8, c: u8) -> u8
    ensures { result ≡ cond (in_either low high low2 high2 c) 1 0 }
{
    ((low <= c) & (c <= high) | (low2 <= c) & (c <= high2)) as u8
}

// A header for the byte c: 0 where c is in neither range, otherwise 1, or for a record that repeats one more than behind it.
fn seed(low: u8, high: u8, low2: u8, high2: u8, repeat: u8, behind: u8, c: u8) -> u8
    requires { bit_and behind repeat ≤ 254 }
    ensures { result ≡ cond (in_either low high low2 high2 c) (bit_and behind repeat + 1) 0 }
{
    (in_either(low, high, low2, high2, c) * 255) & ((behind & repeat) + 1)
}

// 255, or 0 for the line's last byte, behind which there is nothing.
fn behind_mask(d: usize) -> u8
    ensures { result ≡ cond (leb d 1) 0 255 }
{
    if d <= 1 {
        return 0;
    }
    255
}

// The headers of block d for the byte c.
fn seed_block(work: &mut [u8], m: usize, d: usize, bounds: &Bounds, c: u8)
    requires sizes { (m ≤ 255) × (1 ≤ d) × (d ≤ 255) }
    requires room { area_size m d ≤ length work.old }
    requires behind { (k : ℕ) → k < m → 1 < d → longest_at work.old m (d - 1) k ≤ 254 }
    ensures { Seeded bounds.now c m d m work.old work.new }
{
    let at = rows::head_at(m, d, 0);
    let before = rows::head_at(m, d - 1, 0);
    let mask = behind_mask(d);
    for k in 0..m {
        work[at + k] = seed(
            bounds.low[k],
            bounds.high[k],
            bounds.low2[k],
            bounds.high2[k],
            bounds.repeat[k],
            work[before + k] & mask,
            c,
        );
    }
}

// The rows of a list's records start with 1: they are runs from there on.
fn set_lows(work: &mut [u8], m: usize, d: usize, runs: &[u8])
    requires sizes { (m ≤ 255) × (1 ≤ d) × (d ≤ 255) }
    requires room { area_size m d ≤ length work.old }
    requires records { (i : ℕ) → i < length runs.now → get_or runs.now i 0 < m }
    ensures { LowsSet m d runs.now (length runs.now) work.old work.new }
{
    for &k in runs {
        let at = rows::row_at(m, d, k as usize);
        work[at] = 1;
    }
}

// The row of an Or: its children's rows.
fn fill_or(table: &Rules, rest: &[u8], work: &mut [u8], k: usize)
    requires ready { Ready table.now rest.now k work.old }
    requires kind { kind_at table.now k ≡ 3 }
    ensures { Made table.now rest.now k work.old work.new }
{
    let m = table.count();
    let d = rest.len();
    let row = Row { m, d, k };
    row.add(work, table.a_at(k) as usize, d);
    row.add(work, table.b_at(k) as usize, d);
}

// The record that a Star iterates, below all the Stars of Stars: a Star of it spells the same lines.
fn base_of(table: &Rules, k: usize) -> usize
    requires passes { Passes table.now }
    requires inside { k < count table.now }
    requires kind { kind_at table.now k ≡ 5 }
    ensures { Base table.now k result }
{
    let mut j = table.a_at(k) as usize;
    while table.kind_at(j) == Kind::Star {
        j = table.a_at(j) as usize;
    }
    j
}

// The row of a Seq whose first child is a Star: the second child's row, and for each iteration its own row behind it.
fn fill_seq_of_star(table: &Rules, rest: &[u8], work: &mut [u8], k: usize)
    requires ready { Ready table.now rest.now k work.old }
    requires kind { kind_at table.now k ≡ 4 }
    requires child { kind_at table.now (a_at table.now k) ≡ 5 }
    ensures { Made table.now rest.now k work.old work.new }
{
    let m = table.count();
    let d = rest.len();
    let row = Row { m, d, k };
    let base = base_of(table, table.a_at(k) as usize);
    row.add(work, table.b_at(k) as usize, d);
    row.add_cuts(work, base, k, false);
}

// The row of another Seq: the second child's row, if the first child spells the empty line, and for each part of at least one byte that the
// first child spells, the second child's row behind it.
fn fill_seq_of_other(table: &Rules, rest: &[u8], work: &mut [u8], k: usize)
    requires ready { Ready table.now rest.now k work.old }
    requires kind { kind_at table.now k ≡ 4 }
    ensures { Made table.now rest.now k work.old work.new }
{
    let m = table.count();
    let d = rest.len();
    let row = Row { m, d, k };
    let a = table.a_at(k) as usize;
    let b = table.b_at(k) as usize;
    let star = table.kind_at(b) == Kind::Star;
    if work[a] != 0 {
        row.add(work, b, d);
    }
    row.add_cuts(work, a, b, star);
}

// The row of a Seq.
fn fill_seq(table: &Rules, rest: &[u8], work: &mut [u8], k: usize)
    requires ready { Ready table.now rest.now k work.old }
    requires kind { kind_at table.now k ≡ 4 }
    ensures { Made table.now rest.now k work.old work.new }
{
    if table.kind_at(table.a_at(k) as usize) == Kind::Star {
        fill_seq_of_star(table, rest, work, k);
    } else {
        fill_seq_of_other(table, rest, work, k);
    }
}

// The row of a Star: for each part of at least one byte that the child spells, its own row behind it; that of a Star of a Star is the child's.
fn fill_star(table: &Rules, rest: &[u8], work: &mut [u8], k: usize)
    requires ready { Ready table.now rest.now k work.old }
    requires kind { kind_at table.now k ≡ 5 }
    ensures { Made table.now rest.now k work.old work.new }
{
    let m = table.count();
    let d = rest.len();
    let row = Row { m, d, k };
    let a = table.a_at(k) as usize;
    if table.kind_at(a) == Kind::Star {
        row.add(work, a, d);
        return;
    }
    row.add_cuts(work, a, k, true);
}

// Record k's row in the block of all of `rest`.
fn fill_row(table: &Rules, rest: &[u8], work: &mut [u8], k: usize)
    requires ready { Ready table.now rest.now k work.old }
    requires no_letter { is_letter table.now k ≡ false }
    ensures { Made table.now rest.now k work.old work.new }
{
    match table.kind_at(k) {
        Kind::Or => fill_or(table, rest, work, k),
        Kind::Seq => fill_seq(table, rest, work, k),
        Kind::Star => fill_star(table, rest, work, k),
        Kind::Nothing | Kind::Empty | Kind::Range | Kind::Other => {}
    }
}

// Looks at record k: a plain record has its row already.
fn visit(table: &Rules, rest: &[u8], work: &mut [u8], bounds: &Bounds, k: usize)
    requires progress { Progress table.now bounds.now rest.now k work.old }
    requires inside { k < count table.now }
    requires bounded { Bounded table.now (count table.now) bounds.now }
    ensures { Visited table.now bounds.now rest.now k work.old work.new }
{
    if !bounds.plain[k] {
        fill_row(table, rest, work, k);
    }
}

// Marks the record that a part of record k may matter to, where k spells some part.
fn wake_parent(work: &[u8], m: usize, d: usize, k: usize, up: &[u8; 256], marks: &mut [u64; 4])
    requires sizes { (m ≤ 255) × (d ≤ 255) × (k < m) }
    requires room { area_size m d ≤ length work.now }
    ensures { MarkedUnless (longest_at work.now m d k) (get_or up.now k 0) marks.old marks.new }
{
    if rows::longest(work, m, d, k) != 0 {
        marks::mark(marks, up[k] as usize);
    }
}

// The rows of the block of all of `rest`, from those that its first byte wakes.
fn fill_block(table: &Rules, rest: &[u8], work: &mut [u8], plan: &Plan, marks: &mut [u64; 4])
    requires progress { Progress table.now plan.now.bounds rest.now 0 work.old }
    requires planned { Planned table.now plan.now }
    requires woken { Woken table.now plan.now.bounds rest.now 0 work.old marks.old }
    ensures progress { Progress table.now plan.now.bounds rest.now (count table.now) work.new }
    ensures length { length work.new ≡ length work.old }
{
    let m = table.count();
    let d = rest.len();
    let mut k = marks::next_marked(marks, 0, m);
    while k < m {
        visit(table, rest, work, &plan.bounds, k);
        wake_parent(work, m, d, k, &plan.up, marks);
        k = marks::next_marked(marks, k + 1, m);
    }
}

// One byte of the line, the first of `rest`, which is the line from there on: afterwards the area tells the truth of every record and every
// part that starts at that byte or later.
fn fill_byte(table: &Rules, rest: &[u8], work: &mut [u8], plan: &Plan)
    requires sized { Sized table.now rest.now work.old }
    requires some_byte { 1 ≤ length rest.now }
    requires planned { Planned table.now plan.now }
    requires filled { FilledFor table.now plan.now.bounds (drop 1 rest.now) work.old }
    ensures filled { FilledFor table.now plan.now.bounds rest.now work.new }
    ensures length { length work.new ≡ length work.old }
{
    let m = table.count();
    let d = rest.len();
    let c = rest[0];
    let mut marks = [0; 4];
    seed_block(work, m, d, &plan.bounds, c);
    set_lows(work, m, d, &plan.runs[..plan.run_count]);
    marks::copy_marks(&mut marks, &plan.sets, 4 * c as usize);
    fill_block(table, rest, work, plan, &mut marks);
}

// The line's bytes one after the other, from the last to the first.
fn fill_bytes(table: &Rules, line: &[u8], work: &mut [u8], plan: &Plan)
    requires sized { Sized table.now line.now work.old }
    requires planned { Planned table.now plan.now }
    requires empty_told { EmptyTold table.now (count table.now) work.old }
    ensures told { Told table.now line.now work.new }
    ensures length { length work.new ≡ length work.old }
{
    for i in (0..line.len()).rev() {
        fill_byte(table, &line[i..], work, plan);
    }
}

// Fills the work area for a line of at most 255 bytes. The plan is made here, where it lies: one that a function hands out is copied.
pub fn fill(table: &Rules, line: &[u8], work: &mut [u8])
    requires short { length line.now ≤ 255 }
    requires room { area_size (count table.now) (length line.now) ≤ length work.old }
    ensures told { Told table.now line.now work.new }
    ensures length { length work.new ≡ length work.old }
{
    let mut plan = Plan {
        bounds: Bounds {
            low: [0; 256],
            high: [0; 256],
            low2: [0; 256],
            high2: [0; 256],
            repeat: [0; 256],
            plain: [false; 256],
        },
        up: [255; 256],
        sets: [0; 1024],
        runs: [0; 256],
        run_count: 0,
    };
    plan.find(table, work);
    fill_bytes(table, line, work, &plan);
}
