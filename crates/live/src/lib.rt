// The live line: a line that is still being typed, with the rules that it is read by. Each call alters it by one byte and tells whether it has a
// reading, and whether some bytes behind it would make it a line that has one.

#![tactic(auto)]

ghost use Rattle.std.specs.Prelude.{IfOk, ◌≤◌, ◌<◌, ◌≡◌, true, length};
ghost use Rattle.table.specs.Records.{count};
ghost use Rattle.table.specs.Answers.{gives, says, rules_say, is_refused};
ghost use Rattle.live.specs.Lines.{table_of, refused_line, with_bytes, lengthened, shortened};
ghost use Rattle.live.specs.Calls.{heard_says, new_says, new_leaves, if_held, facts_say, add_says, add_leaves, take_back_says, take_back_leaves, after_call};
ghost use Rattle.live.specs.Steps.{Answered};

use rows::Row;
use table::{Refusal, Rules};

// A line that is still being typed: the first `size` bytes of `table` are the rule table, `start` is the start number, and the first `count`
// bytes of `bytes` are the line.
#[repr(C)]
#[derive(Drop)]
pub struct LiveLine {
    pub table: [u8; 1020],
    pub size: usize,
    pub start: usize,
    pub bytes: [u8; 255],
    pub count: usize,
}

// The two facts of a line: it has a reading, and some bytes behind it, none included, would make it a line that has one.
#[derive(Clone, Copy, Debug, PartialEq, Eq)]
pub struct Facts {
    pub reads: bool,
    pub extends: bool,
}

// The live line that a call leaves, and its answer.
#[derive(Drop)]
pub struct Step<T> {
    pub line: LiveLine,
    pub answer: Result<T, Refusal>,
}

// The line of a refused constructor: one Nothing record, start number 0, and no bytes.
fn refused_line() -> LiveLine
    ensures { result ≡ refused_line }
{
    LiveLine {
        table: [0; 1020],
        size: 4,
        start: 0,
        bytes: [0; 255],
        count: 0,
    }
}

// The two facts of a line, or refusal 10.
fn find_facts(rules: &Rules, start: usize, line: &[u8], work: &mut [u8]) -> Result<Facts, Refusal>
    requires start_bound { start < count rules.now }
    requires line_len_bound { length line.now ≤ 255 }
    ensures answer { heard_says result ≡ facts_say rules.now start line.now (length work.old) }
    ensures work { is_refused (facts_say rules.now start line.now (length work.old)) ≡ true → work.new ≡ work.old }
{
    let n = line.len();
    let m = rules.count();
    if work.len() < rows::area_size(m, n) {
        return Err(Refusal::Work);
    }
    area::fill(rules, line, work);
    let whole = Row { m, d: n, k: start };
    if whole.tell(work, n) {
        return Ok(Facts {
            reads: true,
            extends: true,
        });
    }
    let extends = reach::can_extend(rules, start, line, work);
    Ok(Facts {
        reads: false,
        extends,
    })
}

impl LiveLine {
    // The most bytes of a line.
    pub const LIMIT: usize = 255;

    // A live line made afresh from a table and a start number: a copy of both and no bytes; or the refused one, with 1 to 6 or 9.
    pub fn new(table: &[u8], start: usize) -> Step<usize>
        ensures answer { says result.answer ≡ new_says table.now start }
        ensures line { result.line ≡ new_leaves table.now start }
    {
        match reading::admit(table, start) {
            Ok(rules) => {
                let size = table.len();
                let mut copy = [0; 1020];
                copy[..size].copy_from_slice(table);
                Step {
                    line: LiveLine {
                        table: copy,
                        size,
                        start,
                        bytes: [0; 255],
                        count: 0,
                    },
                    answer: Ok(rules.count()),
                }
            }
            Err(why) => Step {
                line: refused_line(),
                answer: Err(why),
            },
        }
    }

    // The rules of a live line, or the refusal of one that was filled by hand: 1 to 6, 9 and 7.
    fn rules(&self) -> Result<Rules<'_>, Refusal>
        ensures answer { rules_say result
            ≡ if_held self.entry.now.table self.entry.now.size self.entry.now.start self.entry.now.count
            (gives (count (table_of self.entry.now))) }
        ensures rules { IfOk result (λ rules. rules ≡ table_of self.entry.now) }
    {
        if 1020 < self.size {
            return Err(Refusal::Size);
        }
        let rules = reading::admit(&self.table[..self.size], self.start)?;
        if LiveLine::LIMIT < self.count {
            return Err(Refusal::Line);
        }
        Ok(rules)
    }

    // Puts other bytes in the line's place where their facts were found; a refusal leaves the line as it was.
    fn settle(
        &mut self,
        bytes: [u8; 255],
        count: usize,
        found: Result<Facts, Refusal>,
    ) -> Result<Facts, Refusal>
        ensures answer { result ≡ found }
        ensures line { self.new ≡ after_call (heard_says found) (with_bytes self.old bytes count) self.old }
    {
        let facts = found?;
        self.bytes = bytes;
        self.count = count;
        Ok(facts)
    }

    // Add: puts a byte at the line's end.
    pub fn add(&mut self, byte: u8, work: &mut [u8]) -> Result<Facts, Refusal>
        ensures answer { heard_says result ≡ add_says self.old byte (length work.old) }
        ensures line { self.new ≡ add_leaves self.old byte (length work.old) }
        ensures work { is_refused (add_says self.old byte (length work.old)) ≡ true → work.new ≡ work.old }
    {
        let rules = self.rules()?;
        let count = self.count;
        if LiveLine::LIMIT <= count {
            return Err(Refusal::Line);
        }
        let longer = count + 1;
        let mut bytes = self.bytes;
        bytes[count] = byte;
        let found = find_facts(&rules, self.start, &bytes[..longer], work);
        self.settle(bytes, longer, found)
    }

    // Take back: removes the line's last byte.
    pub fn take_back(&mut self, work: &mut [u8]) -> Result<Facts, Refusal>
        ensures answer { heard_says result ≡ take_back_says self.old (length work.old) }
        ensures line { self.new ≡ take_back_leaves self.old (length work.old) }
        ensures work { is_refused (take_back_says self.old (length work.old)) ≡ true → work.new ≡ work.old }
    {
        let rules = self.rules()?;
        let count = self.count;
        if count == 0 {
            return Err(Refusal::EmptyLine);
        }
        let shorter = count - 1;
        let mut bytes = self.bytes;
        bytes[shorter] = 0;
        let found = find_facts(&rules, self.start, &bytes[..shorter], work);
        self.settle(bytes, shorter, found)
    }

    // Add, by value: the live line with the byte at its end, and the facts of that line.
    #[tactic(auto, unfolding(crate::specs::Calls::add_leaves))]
    pub fn added(self, byte: u8, work: &mut [u8]) -> Step<Facts>
        ensures { Answered (add_says self byte (length work.old)) self (lengthened self byte) result.line result.answer work.old work.new }
    {
        let mut line = self;
        let answer = line.add(byte, work);
        Step { line, answer }
    }

    // Take back, by value: the live line without its last byte, and the facts of that line.
    #[tactic(auto, unfolding(crate::specs::Calls::take_back_leaves))]
    pub fn taken_back(self, work: &mut [u8]) -> Step<Facts>
        ensures { Answered (take_back_says self (length work.old)) self (shortened self) result.line result.answer work.old work.new }
    {
        let mut line = self;
        let answer = line.take_back(work);
        Step { line, answer }
    }
}
