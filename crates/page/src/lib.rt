// Rules over the lines of a page: each line is read by one table, and the classes of the lines by another.

#![tactic(auto)]

ghost use Rattle.std.specs.Prelude.{◌+◌, ◌*◌, ◌≤◌, ◌<◌, ◌≡◌, true, List, length, take};
ghost use Rattle.tokens.specs.Tokens.{Token, token_bytes, nth_token, text_at};
ghost use Rattle.matcher.specs.Calls.{read_says, read_leaves};
ghost use Rattle.lines.specs.Lines.{lines_of};
ghost use Rattle.page.specs.Entries.{same_named, alike, first_name, Within};
ghost use Rattle.page.specs.Outcomes.{the_page, names, outcome_says};
ghost use Rattle.page.specs.Pages.{by_parity, page_says, page_leaves, keeps_scratch};
ghost use Rattle.page.specs.Steps.{rules_of, opens_run, Stepped, LinesRead};

use table::Refusal;

// Who refuses a page, and why: the line rules, the page rules, one line with its number, or the page.
#[derive(Clone, Copy, Debug, PartialEq, Eq)]
pub enum PageRefusal {
    LineRules(Refusal),
    PageRules(Refusal),
    OneLine(Refusal, usize),
    WholePage(Refusal),
}

// What a line is read by: a table and a start number.
#[derive(Clone, Copy)]
struct Reader<'a> {
    table: &'a [u8],
    start: usize,
}

// A line with the bytes of its tokens, which lie inside it.
#[derive(Drop)]
struct Line<'a> {
    text: &'a [u8],
    tokens: &'a [u8],
    ghost inside: { Within text.now tokens.now },
}

impl Line<'_> {
    // Whether token i of this line and of another have the same name and the same text.
    fn same_token(&self, other: &Line, i: usize) -> bool
        requires own { 3 * i + 2 < length self.now.tokens.now }
        requires others { 3 * i + 2 < length other.now.tokens.now }
        ensures { result
            ≡ same_named (text_at self.now.text.now (nth_token self.now.tokens.now i))
            (text_at other.now.text.now (nth_token other.now.tokens.now i)) }
    {
        let at = 3 * i;
        if self.tokens[at] != other.tokens[at] {
            return false;
        }
        let own_start = self.tokens[at + 1] as usize;
        let own_end = own_start + self.tokens[at + 2] as usize;
        let start = other.tokens[at + 1] as usize;
        let end = start + other.tokens[at + 2] as usize;
        self.text[own_start..own_end] == other.text[start..end]
    }

    // Whether this line and another are alike.
    fn same_tokens(&self, other: &Line) -> bool
        ensures { (xs ys : List Token) → self.now.tokens.now ≡ token_bytes xs → other.now.tokens.now ≡ token_bytes ys
            → result
            ≡ alike (record { text = self.now.text.now; tokens = xs }) (record { text = other.now.text.now; tokens = ys }) }
    {
        if self.tokens.len() != other.tokens.len() {
            return false;
        }
        for i in 0..self.tokens.len() / 3 {
            if !self.same_token(other, i) {
                return false;
            }
        }
        true
    }

    // The name of the line's first token, or 0.
    fn first_name(&self) -> u8
        ensures { (xs : List Token) → self.now.tokens.now ≡ token_bytes xs → result ≡ first_name xs }
    {
        self.tokens.first().copied().unwrap_or(0)
    }

    // Whether the line with a number opens a run behind the line before it.
    fn opens_run(&self, number: usize, prior: &Line) -> bool
        ensures { (xs ys : List Token) → prior.now.tokens.now ≡ token_bytes xs → self.now.tokens.now ≡ token_bytes ys
            → result
            ≡ opens_run number (record { text = prior.now.text.now; tokens = xs })
            (record { text = self.now.text.now; tokens = ys }) }
    {
        number == 0 || !prior.same_tokens(self)
    }
}

// What is read of a line: the bytes of its tokens, and the number of class bytes with its own.
#[derive(Drop)]
struct Step {
    size: usize,
    count: usize,
}

// Reads a line: its tokens go into a buffer of its own, and its class behind so many class bytes if it opens a run.
fn take_line(
    reader: Reader,
    text: &[u8],
    number: usize,
    prior: &Line,
    work: &mut [u8],
    reading: &mut [u8],
    own: &mut [u8],
    classes: &mut [u8],
    count: usize,
) -> Result<Step, Refusal>
    requires { count < length classes.old }
    ensures { Stepped (rules_of reader.entry) (length work.old) (length reading.old) number text.now
        prior.now.text.now prior.now.tokens.now own.old own.new
        classes.old count classes.new result }
{
    let tokens = lexer::lex(reader.table, reader.start, text, work, reading, own)?;
    let size = 3 * tokens;
    let line = Line {
        text,
        tokens: &own[..size],
    };
    if !line.opens_run(number, prior) {
        return Ok(Step { size, count });
    }
    classes[count] = line.first_name();
    Ok(Step {
        size,
        count: count + 1,
    })
}

// The same with two token buffers, of which the line uses the first if its number is even; the other one has the tokens of the line before, so
// many bytes.
fn take_by_parity(
    reader: Reader,
    text: &[u8],
    number: usize,
    prior: &[u8],
    size: usize,
    work: &mut [u8],
    reading: &mut [u8],
    first: &mut [u8],
    second: &mut [u8],
    classes: &mut [u8],
    count: usize,
) -> Result<Step, Refusal>
    requires classes { count < length classes.old }
    requires size { size ≤ length (by_parity number second.old first.old) }
    requires prior { Within prior.now (take size (by_parity number second.old first.old)) }
    ensures kept { by_parity number second.new first.new ≡ by_parity number second.old first.old }
    ensures line { Stepped (rules_of reader.entry) (length work.old) (length reading.old) number
        text.now prior.now (take size (by_parity number second.old first.old))
        (by_parity number first.old second.old) (by_parity number first.new second.new)
        classes.old count classes.new result }
{
    if number % 2 == 0 {
        let prior = Line {
            text: prior,
            tokens: &second[..size],
        };
        return take_line(
            reader, text, number, &prior, work, reading, first, classes, count,
        );
    }
    let prior = Line {
        text: prior,
        tokens: &first[..size],
    };
    take_line(
        reader, text, number, &prior, work, reading, second, classes, count,
    )
}

// Reads the lines of a page in order, up to the first that is refused, and puts their class bytes to the front of a buffer.
fn take_lines(
    reader: Reader,
    page: &[u8],
    work: &mut [u8],
    reading: &mut [u8],
    first: &mut [u8],
    second: &mut [u8],
    classes: &mut [u8],
) -> Result<usize, PageRefusal>
    requires few { length (lines_of page.now) ≤ 255 }
    requires classes { length classes.old ≡ 255 }
    ensures { LinesRead (rules_of reader.entry)
        (record { work = length work.old; reading = length reading.old; first = length first.old; second = length second.old })
        page.now classes.new result }
{
    let mut prior_start = 0;
    let mut prior_end = 0;
    let mut at = 0;
    let mut number = 0;
    let mut size = 0;
    let mut count = 0;
    while at < page.len() {
        let end = lines::line_end(page, at);
        let step = take_by_parity(
            reader,
            &page[at..end],
            number,
            &page[prior_start..prior_end],
            size,
            work,
            reading,
            first,
            second,
            classes,
            count,
        )
        .map_err(|why| PageRefusal::OneLine(why, number))?;
        size = step.size;
        count = step.count;
        prior_start = at;
        prior_end = end;
        at = lines::next_line(page, end);
        number += 1;
    }
    Ok(count)
}

// Reads class bytes by the page rules.
fn read_classes(
    table: &[u8],
    start: usize,
    classes: &[u8],
    work: &mut [u8],
    out: &mut [u8],
) -> Result<usize, PageRefusal>
    ensures answer { outcome_says result
        ≡ names the_page (read_says table.now start classes.now (length work.old) (length out.old)) }
    ensures buffer { out.new ≡ read_leaves table.now start classes.now (length work.old) out.old }
{
    matcher::read(table, start, classes, work, out).map_err(PageRefusal::WholePage)
}

// Reads a page: its lines by the line rules, and their classes by the page rules. Writes the POSIX reading of the class bytes to the front of the
// output buffer and returns its record count.
pub fn read_page(
    linetable: &[u8],
    linestart: usize,
    pagetable: &[u8],
    pagestart: usize,
    page: &[u8],
    work: &mut [u8],
    reading: &mut [u8],
    first: &mut [u8],
    second: &mut [u8],
    out: &mut [u8],
) -> Result<usize, PageRefusal>
    ensures answer { outcome_says result
        ≡ page_says (record { table = linetable.now; start = linestart }) (record { table = pagetable.now; start = pagestart })
        page.now
        (record { work = length work.old; reading = length reading.old; first = length first.old; second = length second.old })
        (length out.old) }
    ensures buffer { out.new
        ≡ page_leaves (record { table = linetable.now; start = linestart }) (record { table = pagetable.now; start = pagestart })
        page.now
        (record { work = length work.old; reading = length reading.old; first = length first.old; second = length second.old })
        out.old }
    ensures scratch { keeps_scratch (record { table = linetable.now; start = linestart }) (record { table = pagetable.now; start = pagestart })
        page.now ≡ true
        → (work.new ≡ work.old) × (reading.new ≡ reading.old) × (first.new ≡ first.old)
        × (second.new ≡ second.old) }
{
    reading::admit(linetable, linestart).map_err(PageRefusal::LineRules)?;
    reading::admit(pagetable, pagestart).map_err(PageRefusal::PageRules)?;
    if 255 < lines::count_lines(page) {
        return Err(PageRefusal::WholePage(Refusal::Lines));
    }
    let mut classes = [0u8; 255];
    let reader = Reader {
        table: linetable,
        start: linestart,
    };
    let count = take_lines(reader, page, work, reading, first, second, &mut classes)?;
    read_classes(pagetable, pagestart, &classes[..count], work, out)
}
