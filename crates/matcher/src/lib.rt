// Read: the POSIX reading of a line. The work area tells which record spells which part of the line; the walk goes from the start record
// and the whole line down to single bytes and stores the records of the reading on its way. A `Part` says where the walk is.

#![tactic(auto)]

ghost use Rattle.std.specs.Prelude.{ℕ, ◌≤◌, ◌<◌, ◌≡◌, true, length};
ghost use Rattle.table.specs.Records.{count, kind_at, is_letter};
ghost use Rattle.table.specs.Answers.{says, gives};
ghost use Rattle.rows.specs.Layout.{area_size};
ghost use Rattle.reading.specs.Codec.{record_with, encode_below, encode};
ghost use Rattle.reading.specs.ValueKinds.{value_number};
ghost use Rattle.matcher.specs.Calls.{read_says, read_leaves, keeps_work, PosixWritten, Unbeaten};
ghost use Rattle.matcher.specs.Demands.{Setting, NoneOutranks};
ghost use Rattle.matcher.specs.Walks.{most_bytes, Room, Stored, Searched, LongestCut, Given, Walked, Counted, Answered};
ghost use Rattle.matcher.specs.Parts.{HereIn, GivenIn, WalkedIn};

use area::Filled;
use reading::{Place, ValueKind};
use table::{Kind, Refusal};

// A part of the line for a record to read: the record's number, and the first `size` of the line's last `left` bytes.
#[derive(Clone, Copy)]
pub struct Part {
    pub record: usize,
    pub left: usize,
    pub size: usize,
}

// Stores the record of a part's reading at a position of the buffer, or only counts it, and returns the position behind it.
fn put(out: &mut [u8], at: usize, kind: ValueKind, argument: u8, part: Part, writing: bool) -> usize
    requires room { Room (record_with (value_number kind) argument part.size part.record) out.old at writing }
    requires bytes { (part.size < 256) × (part.record < 256) }
    ensures { Stored (record_with (value_number kind) argument part.size part.record) out.old at writing out.new result }
{
    if writing {
        reading::store_record(out, at, kind.number(), argument, part.size, part.record);
    }
    at + Place::RECORD
}

// The longest first part of the first `size` of the line's last `left` bytes, of at least `lowest` bytes, that record a spells and whose rest record b
// spells.
fn longest_first_part(
    work: &[u8],
    m: usize,
    a: usize,
    b: usize,
    left: usize,
    size: usize,
    lowest: usize,
) -> usize
    requires { Searched m a b left size lowest work.now }
    ensures { LongestCut m work.now a b left size lowest result }
{
    let mut cut = size.min(rows::longest(work, m, left, a));
    while lowest < cut {
        if rows::tell(work, m, a, left, cut) {
            if rows::tell(work, m, b, left - cut, size - cut) {
                return cut;
            }
        }
        cut -= 1;
    }
    cut
}

// How many iterations a Star's reading has, by its longest first parts.
fn count_iterations(area: &Filled, part: Part) -> usize
    requires here { HereIn area.now part }
    requires area { area_size (count area.now.table.now) (length area.now.line.now) ≤ length area.now.work.now }
    requires star { kind_at area.now.table.now part.record ≡ 5 }
    ensures { Counted area.now.table.now area.now.line.now part.record part.left part.size result }
{
    let m = area.table.count();
    let record = area.table.a_at(part.record) as usize;
    let mut left = part.left;
    let mut size = part.size;
    let mut times = 0;
    while 0 < size {
        let first = longest_first_part(area.work, m, record, part.record, left, size, 1);
        left -= first;
        size -= first;
        times += 1;
    }
    times
}

// An Empty's part: Void.
fn walk_empty(area: &Filled, part: Part, out: &mut [u8], at: usize, writing: bool) -> usize
    requires given { GivenIn (encode area.now.table.now part.record) area.now part out.old at writing }
    requires empty { kind_at area.now.table.now part.record ≡ 1 }
    ensures { WalkedIn (encode area.now.table.now part.record) area.now part out.old at writing out.new result }
{
    put(out, at, ValueKind::Void, 0, part, writing)
}

// A letter's part: Byte.
fn walk_letter(area: &Filled, part: Part, out: &mut [u8], at: usize, writing: bool) -> usize
    requires given { GivenIn (encode area.now.table.now part.record) area.now part out.old at writing }
    requires letter { is_letter area.now.table.now part.record ≡ true }
    ensures { WalkedIn (encode area.now.table.now part.record) area.now part out.old at writing out.new result }
{
    let c = area.line[area.line.len() - part.left];
    put(out, at, ValueKind::Byte, c, part, writing)
}

// The functions from here on call one another. They take a part as its numbers, record k and the first `size` of the line's last `left` bytes: so
// the last call of an Or and of a Seq is a jump, and takes no stack.

// An Or's part: Left where the first child spells it, otherwise Right.
#[cycle(walking)]
fn walk_or(
    area: &Filled,
    k: usize,
    left: usize,
    size: usize,
    out: &mut [u8],
    at: usize,
    writing: bool,
) -> usize
    requires given { Given (encode area.now.table.now k) area.now.table.now area.now.line.now area.now.work.now k left size out.old at writing }
    requires or { kind_at area.now.table.now k ≡ 3 }
    ensures { Walked (encode area.now.table.now k) area.now.table.now area.now.line.now k left size out.old at writing out.new result }
{
    let m = area.table.count();
    let a = area.table.a_at(k) as usize;
    let b = area.table.b_at(k) as usize;
    let part = Part {
        record: k,
        left,
        size,
    };
    if rows::tell(area.work, m, a, left, size) {
        let next = put(out, at, ValueKind::Left, 0, part, writing);
        return walk(area, a, left, size, out, next, writing);
    }
    let next = put(out, at, ValueKind::Right, 0, part, writing);
    walk(area, b, left, size, out, next, writing)
}

// A Seq's part: the longest first part, then the rest.
#[cycle(walking)]
fn walk_seq(
    area: &Filled,
    k: usize,
    left: usize,
    size: usize,
    out: &mut [u8],
    at: usize,
    writing: bool,
) -> usize
    requires given { Given (encode area.now.table.now k) area.now.table.now area.now.line.now area.now.work.now k left size out.old at writing }
    requires seq { kind_at area.now.table.now k ≡ 4 }
    ensures { Walked (encode area.now.table.now k) area.now.table.now area.now.line.now k left size out.old at writing out.new result }
{
    let m = area.table.count();
    let a = area.table.a_at(k) as usize;
    let b = area.table.b_at(k) as usize;
    let part = Part {
        record: k,
        left,
        size,
    };
    let first = longest_first_part(area.work, m, a, b, left, size, 0);
    let next = put(out, at, ValueKind::Both, 0, part, writing);
    let middle = walk(area, a, left, first, out, next, writing);
    walk(area, b, left - first, size - first, out, middle, writing)
}

// A Star's part: the count, then the iterations.
#[cycle(walking)]
fn walk_star(
    area: &Filled,
    k: usize,
    left: usize,
    size: usize,
    out: &mut [u8],
    at: usize,
    writing: bool,
) -> usize
    requires given { Given (encode area.now.table.now k) area.now.table.now area.now.line.now area.now.work.now k left size out.old at writing }
    requires star { kind_at area.now.table.now k ≡ 5 }
    ensures { Walked (encode area.now.table.now k) area.now.table.now area.now.line.now k left size out.old at writing out.new result }
{
    let part = Part {
        record: k,
        left,
        size,
    };
    let times = count_iterations(area, part);
    let next = put(out, at, ValueKind::Stars, times as u8, part, writing);
    walk_iterations(area, k, left, size, out, next, writing)
}

// A Star's iterations, each the longest first part of what is left.
#[cycle(walking)]
fn walk_iterations(
    area: &Filled,
    k: usize,
    whole_left: usize,
    whole_size: usize,
    out: &mut [u8],
    at: usize,
    writing: bool,
) -> usize
    requires given { Given (encode_below area.now.table.now k) area.now.table.now area.now.line.now area.now.work.now k whole_left whole_size out.old at writing }
    requires star { kind_at area.now.table.now k ≡ 5 }
    ensures { Walked (encode_below area.now.table.now k) area.now.table.now area.now.line.now k whole_left whole_size out.old at writing out.new result }
{
    let m = area.table.count();
    let record = area.table.a_at(k) as usize;
    let mut left = whole_left;
    let mut size = whole_size;
    let mut next = at;
    while 0 < size {
        let cut = longest_first_part(area.work, m, record, k, left, size, 1);
        next = walk(area, record, left, cut, out, next, writing);
        left -= cut;
        size -= cut;
    }
    next
}

// Stores, or only counts, the records of a part's POSIX reading, and returns the position behind them.
#[cycle(walking)]
fn walk(
    area: &Filled,
    k: usize,
    left: usize,
    size: usize,
    out: &mut [u8],
    at: usize,
    writing: bool,
) -> usize
    requires { Given (encode area.now.table.now k) area.now.table.now area.now.line.now area.now.work.now k left size out.old at writing }
    ensures { Walked (encode area.now.table.now k) area.now.table.now area.now.line.now k left size out.old at writing out.new result }
{
    match area.table.kind_at(k) {
        Kind::Nothing => at,
        Kind::Empty => walk_empty(
            area,
            Part {
                record: k,
                left,
                size,
            },
            out,
            at,
            writing,
        ),
        Kind::Range | Kind::Other => walk_letter(
            area,
            Part {
                record: k,
                left,
                size,
            },
            out,
            at,
            writing,
        ),
        Kind::Or => walk_or(area, k, left, size, out, at, writing),
        Kind::Seq => walk_seq(area, k, left, size, out, at, writing),
        Kind::Star => walk_star(area, k, left, size, out, at, writing),
    }
}

// The bytes of the largest reading of a line of n bytes by a table of m records.
fn most_bytes(m: usize, n: usize) -> usize
    requires m_bound { m ≤ 65535 }
    requires n_bound { n ≤ 255 }
    ensures { result ≡ most_bytes m n }
{
    if n == 0 {
        return Place::RECORD * m;
    }
    Place::RECORD * (m * n)
}

// The answer for a line that the part's record spells as a whole. Where the buffer holds the largest reading there can be, its reading is written at
// once; otherwise it is counted first and written where the buffer holds it.
fn write_reading(area: &Filled, line: Part, out: &mut [u8]) -> Result<usize, Refusal>
    requires here { HereIn area.now line }
    requires whole { (line.left ≡ length area.now.line.now) × (line.size ≡ length area.now.line.now) }
    requires area { area_size (count area.now.table.now) (length area.now.line.now) ≤ length area.now.work.now }
    ensures { Answered area.now.table.now area.now.line.now line.record out.old out.new (says result) }
{
    if most_bytes(area.table.count(), line.size) <= out.len() {
        let end = walk(area, line.record, line.left, line.size, out, 0, true);
        return Ok(end / Place::RECORD);
    }
    let need = walk(area, line.record, line.left, line.size, out, 0, false);
    if out.len() < need {
        return Err(Refusal::Buffer(need));
    }
    let end = walk(area, line.record, line.left, line.size, out, 0, true);
    Ok(end / Place::RECORD)
}

// Read: writes the POSIX reading of the line by the start record to the front of the buffer and returns its record count.
pub fn read(
    table: &[u8],
    start: usize,
    line: &[u8],
    work: &mut [u8],
    out: &mut [u8],
) -> Result<usize, Refusal>
    ensures answer { says result ≡ read_says table.now start line.now (length work.old) (length out.old) }
    ensures buffer { out.new ≡ read_leaves table.now start line.now (length work.old) out.old }
    ensures work { keeps_work
        (read_says table.now start line.now (length work.old) (length out.old))
        ≡ true → work.new ≡ work.old }
    ensures relation { (n : ℕ) → says result ≡ gives n
        → PosixWritten table.now start line.now out.old out.new n }
    ensures unbeaten { (n : ℕ) → says result ≡ gives n
        → Unbeaten table.now start line.now out.old out.new }
    ensures rivals { Setting table.now start line.now (length work.old)
        → NoneOutranks (λ x. says result ≡ x) table.now start line.now out.old out.new }
{
    let rules = reading::admit(table, start)?;
    let m = rules.count();
    let n = line.len();
    if 255 < n {
        return Err(Refusal::Line);
    }
    let size = rows::area_size(m, n);
    if work.len() < size {
        return Err(Refusal::Work);
    }
    if !edges::may_spell(&rules, start, line) {
        return Err(Refusal::NoReading);
    }
    area::fill(&rules, line, work);
    if !rows::tell(work, m, start, n, n) {
        return Err(Refusal::NoReading);
    }
    let whole = Part {
        record: start,
        left: n,
        size: n,
    };
    let area = Filled {
        table: &rules,
        line,
        work,
    };
    write_reading(&area, whole, out)
}
