// What is found of a table before Read's work area is filled: which records follow from the line's bytes alone, which record a part of
// another may matter to, and which ones to look at first at a byte.

#![tactic(auto)]

ghost use Rattle.std.specs.Prelude.{ℕ, ◌+◌, ◌*◌, ◌≤◌, ◌<◌, ◌≡◌, true, false, [], length, get_or};
ghost use Rattle.posix.specs.Spells.{spells};
ghost use Rattle.table.specs.Records.{count, kind_at};
ghost use Rattle.table.specs.Faults.{Passes};
ghost use Rattle.table.specs.Expression.{exp_of};
ghost use Rattle.plans.specs.Plans.{Columns, in_bounds, is_plain, repeat_at, Bounded, Put, Parents, MarkedIn, Waking, Listed, EmptyTold, Planned, PutOther, Repeated};

use table::{Kind, Rules};

// For each record two ranges of bytes, 255 where it repeats and otherwise 0, and whether it is plain. A column for each: `area` reads them side
// by side.
#[derive(Drop)]
pub struct Bounds {
    pub low: [u8; 256],
    pub high: [u8; 256],
    pub low2: [u8; 256],
    pub high2: [u8; 256],
    pub repeat: [u8; 256],
    pub plain: [bool; 256],
}

impl Bounds {
    // Stores the columns of record k.
    fn put(&mut self, k: usize, low: u8, high: u8, low2: u8, high2: u8, repeat: u8, plain: bool)
        requires { k < 256 }
        ensures { Put k low high low2 high2 repeat plain self.old self.new }
    {
        self.low[k] = low;
        self.high[k] = high;
        self.low2[k] = low2;
        self.high2[k] = high2;
        self.repeat[k] = repeat;
        self.plain[k] = plain;
    }

    // The columns of a record that is not plain.
    fn put_none(&mut self, k: usize)
        requires { k < 256 }
        ensures { Put k 1 0 1 0 0 false self.old self.new }
    {
        self.put(k, 1, 0, 1, 0, 0, false);
    }

    // The columns of an Other that holds the bytes below a and above b.
    fn put_other(&mut self, k: usize, a: u8, b: u8)
        requires { k < 256 }
        ensures { PutOther k a b self.old self.new }
    {
        match (a, b) {
            (0, 255) => self.put(k, 1, 0, 1, 0, 0, true),
            (0, _) => self.put(k, 1, 0, b + 1, 255, 0, true),
            (_, 255) => self.put(k, 0, a - 1, 1, 0, 0, true),
            _ => self.put(k, 0, a - 1, b + 1, 255, 0, true),
        }
    }

    // Record k repeats the ranges of record a.
    fn put_repeated(&mut self, k: usize, a: usize)
        requires { (a < k) × (k < 256) }
        ensures { Repeated k a self.old self.new }
    {
        self.put(
            k,
            self.low[a],
            self.high[a],
            self.low2[a],
            self.high2[a],
            255,
            true,
        );
    }

    // Whether record k is plain and does not repeat.
    fn is_unit(&self, k: usize) -> bool
        requires { k < 256 }
        ensures { result ≡ true → (is_plain self.now k ≡ true) × (repeat_at self.now k ≡ 0) }
    {
        self.plain[k] && self.repeat[k] == 0
    }

    // Whether record k is plain and repeats.
    fn is_run(&self, k: usize) -> bool
        requires { k < 256 }
        ensures { result ≡ true → (is_plain self.now k ≡ true) × (repeat_at self.now k ≡ 255) }
    {
        self.plain[k] && self.repeat[k] == 255
    }

    // Whether records k and j have the same ranges.
    fn same_ranges(&self, k: usize, j: usize) -> bool
        requires { (k < 256) × (j < 256) }
        ensures { result ≡ true → ((c : ℕ) → in_bounds self.now k c ≡ in_bounds self.now j c) }
    {
        self.low[k] == self.low[j]
            && self.high[k] == self.high[j]
            && self.low2[k] == self.low2[j]
            && self.high2[k] == self.high2[j]
    }
}

// The columns of an Or: plain where both children are Ranges.
fn find_or(table: &Rules, k: usize, bounds: &mut Bounds)
    requires passes { Passes table.now }
    requires inside { k < count table.now }
    requires kind { kind_at table.now k ≡ 3 }
    requires bounded { Bounded table.now k bounds.old }
    ensures { Bounded table.now (k + 1) bounds.new }
{
    let a = table.a_at(k) as usize;
    let b = table.b_at(k) as usize;
    if table.kind_at(a) == Kind::Range && table.kind_at(b) == Kind::Range {
        let low = table.a_at(a);
        let high = table.b_at(a);
        let low2 = table.a_at(b);
        let high2 = table.b_at(b);
        bounds.put(k, low, high, low2, high2, 0, true);
    } else {
        bounds.put_none(k);
    }
}

// The columns of a Star: plain where it repeats a plain record that does not repeat.
fn find_star(table: &Rules, k: usize, bounds: &mut Bounds)
    requires passes { Passes table.now }
    requires inside { k < count table.now }
    requires kind { kind_at table.now k ≡ 5 }
    requires bounded { Bounded table.now k bounds.old }
    ensures { Bounded table.now (k + 1) bounds.new }
{
    let a = table.a_at(k) as usize;
    if bounds.is_unit(a) {
        bounds.put_repeated(k, a);
    } else {
        bounds.put_none(k);
    }
}

// The columns of a Seq: plain where a record that does not repeat is followed by a Star of the same ranges.
fn find_seq(table: &Rules, k: usize, bounds: &mut Bounds)
    requires passes { Passes table.now }
    requires inside { k < count table.now }
    requires kind { kind_at table.now k ≡ 4 }
    requires bounded { Bounded table.now k bounds.old }
    ensures { Bounded table.now (k + 1) bounds.new }
{
    let a = table.a_at(k) as usize;
    let b = table.b_at(k) as usize;
    let star = table.kind_at(b) == Kind::Star;
    if bounds.is_unit(a) && star && bounds.is_run(b) && bounds.same_ranges(a, b) {
        bounds.put_repeated(k, a);
    } else {
        bounds.put_none(k);
    }
}

// The columns of record k.
fn find_bounds_of(table: &Rules, k: usize, bounds: &mut Bounds)
    requires inside { k < count table.now }
    requires bounded { Bounded table.now k bounds.old }
    ensures { Bounded table.now (k + 1) bounds.new }
{
    let kind = table.kind_at(k);
    let a = table.a_at(k);
    let b = table.b_at(k);
    match kind {
        Kind::Nothing | Kind::Empty => bounds.put_none(k),
        Kind::Range => bounds.put(k, a, b, 1, 0, 0, true),
        Kind::Or => find_or(table, k, bounds),
        Kind::Seq => find_seq(table, k, bounds),
        Kind::Star => find_star(table, k, bounds),
        Kind::Other => bounds.put_other(k, a, b),
    }
}

// The columns of all records.
fn find_bounds(table: &Rules, bounds: &mut Bounds)
    requires { Columns bounds.old }
    ensures { Bounded table.now (count table.now) bounds.new }
{
    for k in 0..table.count() {
        find_bounds_of(table, k, bounds);
    }
}

// Whether record k spells the empty line, by what is set for its children.
fn spells_empty(table: &Rules, work: &[u8], k: usize) -> bool
    requires inside { k < count table.now }
    requires room { count table.now ≤ length work.now }
    requires empty_told { EmptyTold table.now k work.now }
    ensures { result ≡ spells (exp_of table.now k) [] }
{
    let kind = table.kind_at(k);
    let a = table.a_at(k) as usize;
    let b = table.b_at(k) as usize;
    match kind {
        Kind::Empty | Kind::Star => true,
        Kind::Or => work[a] != 0 || work[b] != 0,
        Kind::Seq => work[a] != 0 && work[b] != 0,
        Kind::Nothing | Kind::Range | Kind::Other => false,
    }
}

// Which records spell the empty line.
fn find_empty(table: &Rules, work: &mut [u8])
    requires { count table.now ≤ length work.old }
    ensures empty_told { EmptyTold table.now (count table.now) work.new }
    ensures length { length work.new ≡ length work.old }
{
    for k in 0..table.count() {
        work[k] = spells_empty(table, work, k) as u8;
    }
}

// Notes record k as the one that a part of its children may matter to, where it is not plain.
fn find_parent(table: &Rules, bounds: &Bounds, work: &[u8], k: usize, up: &mut [u8; 256])
    requires passes { Passes table.now }
    requires inside { k < count table.now }
    requires room { count table.now ≤ length work.now }
    requires empty_told { EmptyTold table.now (count table.now) work.now }
    requires parents { Parents table.now bounds.now k up.old }
    ensures { Parents table.now bounds.now (k + 1) up.new }
{
    if bounds.plain[k] {
        return;
    }
    let kind = table.kind_at(k);
    let a = table.a_at(k) as usize;
    let b = table.b_at(k) as usize;
    match kind {
        Kind::Star => up[a] = k as u8,
        Kind::Or => {
            up[a] = k as u8;
            up[b] = k as u8;
        }
        Kind::Seq => {
            up[a] = k as u8;
            if work[a] != 0 {
                up[b] = k as u8;
            }
        }
        Kind::Nothing | Kind::Empty | Kind::Range | Kind::Other => {}
    }
}

// For each record, the one that a part of it may matter to.
fn find_parents(table: &Rules, bounds: &Bounds, work: &[u8], up: &mut [u8; 256])
    requires room { count table.now ≤ length work.now }
    requires empty_told { EmptyTold table.now (count table.now) work.now }
    ensures { Parents table.now bounds.now (count table.now) up.new }
{
    for k in 0..table.count() {
        find_parent(table, bounds, work, k, up);
    }
}

// Marks record k in the sets of the bytes from `low` up to `high`.
fn wake_by(sets: &mut [u64; 1024], k: usize, low: usize, high: usize)
    requires inside { k < 256 }
    requires bytes { high ≤ 256 }
    ensures { MarkedIn k low high sets.old sets.new }
{
    for c in low..high {
        marks::mark(sets, 256 * c + k);
    }
}

// Marks the record that record k may matter to in the set of each byte of k's ranges.
fn wake_parent_of(bounds: &Bounds, up: &[u8; 256], k: usize, sets: &mut [u64; 1024])
    requires inside { k < 256 }
    requires waking { Waking bounds.now up.now k sets.old }
    ensures { Waking bounds.now up.now (k + 1) sets.new }
{
    let parent = up[k] as usize;
    let low = bounds.low[k] as usize;
    let high = bounds.high[k] as usize;
    wake_by(sets, parent, low, high + 1);
    let low2 = bounds.low2[k] as usize;
    let high2 = bounds.high2[k] as usize;
    wake_by(sets, parent, low2, high2 + 1);
}

// For each byte, the records to look at first.
fn find_sets(m: usize, bounds: &Bounds, up: &[u8; 256], sets: &mut [u64; 1024])
    requires { m ≤ 255 }
    ensures { Waking bounds.now up.now m sets.new }
{
    for k in 0..m {
        wake_parent_of(bounds, up, k, sets);
    }
}

// Lists record k where it repeats; `n` are listed so far. Returns how many are listed.
fn list_run(bounds: &Bounds, k: usize, runs: &mut [u8; 256], n: usize) -> usize
    requires inside { k < 256 }
    requires listed { Listed bounds.now k runs.old n }
    ensures { Listed bounds.now (k + 1) runs.new result }
{
    if bounds.repeat[k] != 255 {
        return n;
    }
    runs[n] = k as u8;
    n + 1
}

// The records that repeat, in their order. Returns how many there are.
fn find_runs(m: usize, bounds: &Bounds, runs: &mut [u8; 256]) -> usize
    requires { m ≤ 255 }
    ensures { Listed bounds.now m runs.new result }
{
    let mut n = 0;
    for k in 0..m {
        n = list_run(bounds, k, runs, n);
    }
    n
}

// What is found of a table: its records' columns; at each record the one that a part of it may matter to; 256 bits for each byte, the records to
// look at first there; and the records that repeat, the first `run_count` numbers of `runs`.
#[derive(Drop)]
pub struct Plan {
    pub bounds: Bounds,
    pub up: [u8; 256],
    pub sets: [u64; 1024],
    pub runs: [u8; 256],
    pub run_count: usize,
}

impl Plan {
    // Finds it, and sets which records spell the empty line.
    pub fn of(table: &Rules, work: &mut [u8]) -> Plan
        requires { count table.now ≤ length work.old }
        ensures planned { Planned table.now result }
        ensures passes { Passes table.now }
        ensures empty_told { EmptyTold table.now (count table.now) work.new }
        ensures length { length work.new ≡ length work.old }
    {
        let mut plan = Plan {
            bounds: Bounds {
                low: [0; 256],
                high: [0; 256],
                low2: [0; 256],
                high2: [0; 256],
                repeat: [0; 256],
                plain: [false; 256],
            },
            up: [255; 256],
            sets: [0; 1024],
            runs: [0; 256],
            run_count: 0,
        };
        plan.find(table, work);
        plan
    }

    // The same in the place of another plan: one that is handed out is copied.
    pub fn find(&mut self, table: &Rules, work: &mut [u8])
        requires columns { Columns self.old.bounds }
        requires room { count table.now ≤ length work.old }
        ensures planned { Planned table.now self.new }
        ensures passes { Passes table.now }
        ensures empty_told { EmptyTold table.now (count table.now) work.new }
        ensures length { length work.new ≡ length work.old }
    {
        let m = table.count();
        find_empty(table, work);
        find_bounds(table, &mut self.bounds);
        find_parents(table, &self.bounds, work, &mut self.up);
        find_sets(m, &self.bounds, &self.up, &mut self.sets);
        self.run_count = find_runs(m, &self.bounds, &mut self.runs);
    }
}
