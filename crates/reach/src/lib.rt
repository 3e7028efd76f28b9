// Whether some bytes behind a line make it one that a record spells, from what the work area tells of the line's parts. The search goes from the
// start record and the whole line down to single records: a mark (j, d) says that record j is to be looked at from the last d bytes of the line
// on. Each record's marks stand in 256 bits.

#![tactic(auto)]

ghost use Rattle.std.specs.Prelude.{◌+◌, ◌*◌, ◌≤◌, ◌<◌, ◌≡◌, length, replicate, true};
ghost use Rattle.posix.specs.Extends.{extends};
ghost use Rattle.table.specs.Records.{count, kind_at, is_letter};
ghost use Rattle.table.specs.Faults.{Passes};
ghost use Rattle.table.specs.Expression.{exp_of};
ghost use Rattle.marks.specs.Marks.{marked, MarkedAll, MarkedToo};
ghost use Rattle.rows.specs.Rows.{Inside};
ghost use Rattle.reach.specs.Reaching.{place, If, spells_some, SomeFound, Known, RestOf, RestOfRow, Visiting, Visited, Reaching};

use area::Filled;
use table::{Kind, Rules};

// Whether record k spells some line at all, by the records below it that do.
fn spells_some(table: &Rules, k: usize, some: &[u64; 4]) -> bool
    requires inside { k < count table.now }
    requires found { SomeFound table.now k some.now }
    ensures value { result ≡ spells_some table.now k }
    ensures passes { Passes table.now }
{
    let kind = table.kind_at(k);
    let a = table.a_at(k);
    let b = table.b_at(k);
    match kind {
        Kind::Nothing => false,
        Kind::Empty | Kind::Star => true,
        Kind::Range | Kind::Other => table::letter_holds_some(kind.number(), a, b),
        Kind::Or => marks::is_marked(some, a as usize) || marks::is_marked(some, b as usize),
        Kind::Seq => marks::is_marked(some, a as usize) && marks::is_marked(some, b as usize),
    }
}

// Marks number i if it is to be.
fn mark_if(marks: &mut [u64], i: usize, wanted: bool)
    requires { i < 64 * length marks.old }
    ensures { MarkedAll (If wanted (λ j. j ≡ i)) marks.old marks.new }
{
    if wanted {
        marks::mark(marks, i);
    }
}

// The records below `end` that spell some line at all.
fn find_some(table: &Rules, end: usize) -> [u64; 4]
    requires { end ≤ count table.now }
    ensures { SomeFound table.now end result }
{
    let mut some = [0; 4];
    for k in 0..end {
        let spells = spells_some(table, k, &some);
        mark_if(&mut some, k, spells);
    }
    some
}

// Where the row has a mark d, marks record `to` at each rest of the last d bytes behind a part that record `of` spells.
fn mark_rests(
    work: &[u8],
    m: usize,
    row: &[u64; 4],
    of: usize,
    to: usize,
    d: usize,
    marks: &mut [u64; 1024],
)
    requires inside { Inside m d of work.now }
    requires number { to < 256 }
    ensures { MarkedAll (If (marked row.now d) (RestOf m work.now of to d)) marks.old marks.new }
{
    if marks::is_marked(row, d) {
        for e in 0..=d {
            let told = rows::tell(work, m, of, d, e);
            mark_if(marks, 256 * to + (d - e), told);
        }
    }
}

// The same for each of the row's marks, up to the line's n bytes.
fn mark_row_rests(
    work: &[u8],
    m: usize,
    n: usize,
    row: &[u64; 4],
    of: usize,
    to: usize,
    marks: &mut [u64; 1024],
)
    requires inside { Inside m n of work.now }
    requires number { to < 256 }
    ensures { MarkedAll (RestOfRow m work.now row.now n of to) marks.old marks.new }
{
    let mut d = marks::next_marked(row, 0, n + 1);
    while d <= n {
        mark_rests(work, m, row, of, to, d, marks);
        d = marks::next_marked(row, d + 1, n + 1);
    }
}

// A letter: found where no byte of the line is left and it holds some byte, or where one is left and it holds that.
fn visit_letter(area: &Filled, k: usize, row: &[u64; 4], marks: &[u64; 1024]) -> bool
    requires visiting { Visiting area.now.table.now area.now.line.now area.now.work.now k marks.now row.now }
    requires letter { is_letter area.now.table.now k ≡ true }
    ensures { Visited area.now.table.now area.now.line.now k marks.now marks.now result }
{
    let kind = area.table.kind_at(k).number();
    let a = area.table.a_at(k);
    let b = area.table.b_at(k);
    let at_end = marks::is_marked(row, 0) & table::letter_holds_some(kind, a, b);
    let n = area.line.len();
    if n == 0 {
        return at_end;
    }
    at_end | (marks::is_marked(row, 1) & table::letter_holds(kind, a, b, area.line[n - 1]))
}

// An Or: both children are looked at from where it is.
fn visit_or(area: &Filled, k: usize, row: &[u64; 4], marks: &mut [u64; 1024]) -> bool
    requires visiting { Visiting area.now.table.now area.now.line.now area.now.work.now k marks.old row.now }
    requires kind { kind_at area.now.table.now k ≡ 3 }
    ensures { Visited area.now.table.now area.now.line.now k marks.old marks.new result }
{
    let a = area.table.a_at(k) as usize;
    let b = area.table.b_at(k) as usize;
    marks::join_marks(marks, 4 * a, row);
    marks::join_marks(marks, 4 * b, row);
    false
}

// A Seq: the second child is looked at behind each part that the first spells, and the first from where the Seq is, if the second spells some
// line at all.
fn visit_seq(
    area: &Filled,
    k: usize,
    some: &[u64; 4],
    row: &[u64; 4],
    marks: &mut [u64; 1024],
) -> bool
    requires visiting { Visiting area.now.table.now area.now.line.now area.now.work.now k marks.old row.now }
    requires found { SomeFound area.now.table.now k some.now }
    requires kind { kind_at area.now.table.now k ≡ 4 }
    ensures { Visited area.now.table.now area.now.line.now k marks.old marks.new result }
{
    let m = area.table.count();
    let a = area.table.a_at(k) as usize;
    let b = area.table.b_at(k) as usize;
    mark_row_rests(area.work, m, area.line.len(), row, a, b, marks);
    if marks::is_marked(some, b) {
        marks::join_marks(marks, 4 * a, row);
    }
    false
}

// A Star: found where no byte of the line is left; otherwise its child is looked at behind each part that the Star spells.
fn visit_star(area: &Filled, k: usize, row: &[u64; 4], marks: &mut [u64; 1024]) -> bool
    requires visiting { Visiting area.now.table.now area.now.line.now area.now.work.now k marks.old row.now }
    requires kind { kind_at area.now.table.now k ≡ 5 }
    ensures { Visited area.now.table.now area.now.line.now k marks.old marks.new result }
{
    if marks::is_marked(row, 0) {
        return true;
    }
    let m = area.table.count();
    let a = area.table.a_at(k) as usize;
    mark_row_rests(area.work, m, area.line.len(), row, k, a, marks);
    false
}

// Looks at record k: whether it is found there that the line can be extended; otherwise its marks are handed on to its children.
fn visit(area: &Filled, k: usize, some: &[u64; 4], marks: &mut [u64; 1024]) -> bool
    requires known { Known area.now.table.now area.now.line.now area.now.work.now }
    requires inside { k < count area.now.table.now }
    requires found { SomeFound area.now.table.now k some.now }
    ensures { Visited area.now.table.now area.now.line.now k marks.old marks.new result }
{
    let kind = area.table.kind_at(k);
    let mut row = [0; 4];
    marks::copy_marks(&mut row, marks, 4 * k);
    match kind {
        Kind::Nothing => false,
        Kind::Empty => marks::is_marked(&row, 0),
        Kind::Range | Kind::Other => visit_letter(area, k, &row, marks),
        Kind::Or => visit_or(area, k, &row, marks),
        Kind::Seq => visit_seq(area, k, some, &row, marks),
        Kind::Star => visit_star(area, k, &row, marks),
    }
}

// Visits the records from the start record down, until it is found that the line can be extended.
fn search(area: &Filled, start: usize, some: &[u64; 4], marks: &mut [u64; 1024]) -> bool
    requires known { Known area.now.table.now area.now.line.now area.now.work.now }
    requires inside { start < count area.now.table.now }
    requires found { SomeFound area.now.table.now start some.now }
    requires reaching { Reaching area.now.table.now area.now.line.now start (start + 1) marks.old }
    ensures { result ≡ extends (exp_of area.now.table.now start) area.now.line.now }
{
    for k in (0..=start).rev() {
        if visit(area, k, some, marks) {
            return true;
        }
    }
    false
}

// Marks nothing but the start record at the whole line.
fn mark_start(start: usize, n: usize) -> [u64; 1024]
    requires number { start < 256 }
    requires short { n ≤ 255 }
    ensures { MarkedToo (place start n) (replicate 1024 0) result }
{
    let mut marks = [0; 1024];
    marks::mark(&mut marks, 256 * start + n);
    marks
}

// Whether some bytes behind the line, none included, make it one that the start record spells.
pub fn can_extend(table: &Rules, start: usize, line: &[u8], work: &[u8]) -> bool
    requires known { Known table.now line.now work.now }
    requires inside { start < count table.now }
    ensures { result ≡ extends (exp_of table.now start) line.now }
{
    let some = find_some(table, start);
    let mut marks = mark_start(start, line.len());
    let area = Filled { table, line, work };
    search(&area, start, &some, &mut marks)
}
