// The calls for C: numbers, byte slices, pairs of names and live lines in, one 64-bit number out.
#![tactic(auto)]

ghost use Rattle.std.specs.Prelude.{◌≤◌, ◌≡◌, true, length};
ghost use Rattle.table.specs.Answers.{says, refusal, number, is_refused};
ghost use Rattle.table.specs.Checked.{checked};
ghost use Rattle.reading.specs.Calls.{spell_says, spell_leaves};
ghost use Rattle.ranking.specs.Answers.{compare_says};
ghost use Rattle.ranking.specs.OneLine.{OneLine, AnswersPrecedence};
ghost use Rattle.tokens.specs.Listed.{tokens_says, tokens_leaves};
ghost use Rattle.matcher.specs.Calls.{work_size, read_says, read_leaves, keeps_work};
ghost use Rattle.matcher.specs.Demands.{Setting, NoneOutranks};
ghost use Rattle.notation.specs.Calls.{compile_says, compile_leaves};
ghost use Rattle.live.specs.Calls.{heard_says, new_says, new_leaves, add_says, add_leaves, take_back_says, take_back_leaves};
ghost use Rattle.order.specs.Verdicts.{verdict_says, order_says};
ghost use Rattle.posix.specs.Language.{Bytes};
ghost use Rattle.table.specs.Records.{count};
ghost use Rattle.page.specs.Outcomes.{outcome_says, page_number};
ghost use Rattle.page.specs.Pages.{classes_of, page_says, page_leaves, keeps_scratch, PageTaken};
ghost use Rattle.reorder.specs.Exchanges.{Apart};
ghost use Rattle.apart.specs.Calls.{apart_says};
ghost use Rattle.trace.specs.Numbers.{Small, Encodable, SmallPage};

use live::{Facts, LiveLine};
use order::{Pair, Verdict};
use page::PageRefusal;
use table::Refusal;

// What a refusal's number stands for in the answer: 2^32. Who is refused by a page: 2^56 for the line rules, twice that for the page rules, three times
// that for one line.
const REFUSAL: u64 = 4294967296;

const LINE_RULES: u64 = 72057594037927936;

const PAGE_RULES: u64 = 144115188075855872;

const ONE_LINE: u64 = 216172782113783808;

// A refusal: its number and its detail.
fn refusal_number(why: Refusal) -> u64
    requires { Small (refusal why) }
    ensures { result ≡ number (refusal why) }
{
    (why.number() as u64) * REFUSAL + why.detail() as u64
}

// The result, or the refusal.
fn number_of(answer: Result<usize, Refusal>) -> u64
    requires { Small (says answer) }
    ensures { result ≡ number (says answer) }
{
    match answer {
        Ok(n) => n as u64,
        Err(why) => refusal_number(why),
    }
}

// The same of a verdict.
fn verdict_number(verdict: Result<Verdict, Refusal>) -> u64
    requires { Encodable (verdict_says verdict) }
    ensures { result ≡ number (verdict_says verdict) }
{
    match verdict {
        Ok(Verdict::Kept(n)) => n as u64,
        Ok(Verdict::Broken(i)) => i as u64,
        Err(why) => refusal_number(why),
    }
}

// The same of the answer of a call on a live line: 1 where the line has a reading, and 2 more where some bytes behind it would make it a line that
// has one.
fn heard_number(heard: Result<Facts, Refusal>) -> u64
    requires { Small (heard_says heard) }
    ensures { result ≡ number (heard_says heard) }
{
    match heard {
        Ok(facts) => (facts.reads as u64) + 2 * (facts.extends as u64),
        Err(why) => refusal_number(why),
    }
}

// The same of a page's answer, and who is refused.
fn outcome_number(outcome: Result<usize, PageRefusal>) -> u64
    requires { SmallPage (outcome_says outcome) }
    ensures { result ≡ page_number (outcome_says outcome) }
{
    match outcome {
        Ok(n) => n as u64,
        Err(PageRefusal::LineRules(why)) => LINE_RULES + refusal_number(why),
        Err(PageRefusal::PageRules(why)) => PAGE_RULES + refusal_number(why),
        Err(PageRefusal::OneLine(why, line)) => {
            ONE_LINE + (why.number() as u64) * REFUSAL + line as u64
        }
        Err(PageRefusal::WholePage(why)) => refusal_number(why),
    }
}

// Check.
#[unsafe(no_mangle)]
pub extern "C" fn trace_check(table: &[u8]) -> u64
    ensures { result ≡ number (checked table.now) }
{
    number_of(table::check(table))
}

// Read.
#[unsafe(no_mangle)]
pub extern "C" fn trace_read(
    table: &[u8],
    start: u64,
    line: &[u8],
    work: &mut [u8],
    out: &mut [u8],
) -> u64
    ensures answer { result
        ≡ number
        (read_says table.now start line.now (length work.old) (length out.old)) }
    ensures buffer { out.new
        ≡ read_leaves table.now start line.now (length work.old) out.old }
    ensures work { keeps_work
        (read_says table.now start line.now (length work.old) (length out.old))
        ≡ true
        → work.new ≡ work.old }
    ensures rivals { Setting table.now start line.now (length work.old)
        → NoneOutranks (λ x. result ≡ number x) table.now start line.now out.old out.new }
{
    number_of(matcher::read(table, start as usize, line, work, out))
}

// Spell.
#[unsafe(no_mangle)]
pub extern "C" fn trace_spell(table: &[u8], start: u64, reading: &[u8], out: &mut [u8]) -> u64
    ensures answer { result ≡ number (spell_says table.now start reading.now (length out.old)) }
    ensures buffer { out.new ≡ spell_leaves table.now start reading.now out.old }
{
    number_of(reading::spell(table, start as usize, reading, out))
}

// Compare.
#[unsafe(no_mangle)]
pub extern "C" fn trace_compare(table: &[u8], start: u64, first: &[u8], second: &[u8]) -> u64
    ensures answer { result ≡ number (compare_says table.now start first.now second.now) }
    ensures precedence { (o : OneLine table.now start first.now second.now)
        → AnswersPrecedence (λ x. result ≡ number x) first.now second.now o.first.value o.second.value }
{
    number_of(ranking::compare(table, start as usize, first, second))
}

// Tokens.
#[unsafe(no_mangle)]
pub extern "C" fn trace_tokens(table: &[u8], start: u64, reading: &[u8], out: &mut [u8]) -> u64
    ensures answer { result ≡ number (tokens_says table.now start reading.now (length out.old)) }
    ensures buffer { out.new ≡ tokens_leaves table.now start reading.now out.old }
{
    number_of(tokens::tokens(table, start as usize, reading, out))
}

// The table of a text of the notation.
#[unsafe(no_mangle)]
pub extern "C" fn trace_compile(text: &[u8], out: &mut [u8]) -> u64
    ensures answer { result ≡ number (compile_says text.now (length out.old)) }
    ensures buffer { out.new ≡ compile_leaves text.now out.old }
{
    number_of(notation::compile(text, out))
}

// The order of tokens.
#[unsafe(no_mangle)]
pub extern "C" fn trace_order(tokens: &[u8], pairs: &[Pair]) -> u64
    ensures { result ≡ number (order_says tokens.now pairs.now) }
{
    verdict_number(order::order(tokens, pairs))
}

// A live line made afresh.
#[unsafe(no_mangle)]
pub extern "C" fn trace_live_new(line: &mut LiveLine, table: &[u8], start: u64) -> u64
    ensures answer { result ≡ number (new_says table.now start) }
    ensures line { line.new ≡ new_leaves table.now start }
{
    let made = LiveLine::new(table, start as usize);
    *line = made.line;
    number_of(made.answer)
}

// Add.
#[unsafe(no_mangle)]
pub extern "C" fn trace_live_add(line: &mut LiveLine, byte: u8, work: &mut [u8]) -> u64
    ensures answer { result ≡ number (add_says line.old byte (length work.old)) }
    ensures line { line.new ≡ add_leaves line.old byte (length work.old) }
    ensures work { is_refused (add_says line.old byte (length work.old)) ≡ true → work.new ≡ work.old }
{
    heard_number(line.add(byte, work))
}

// Take back.
#[unsafe(no_mangle)]
pub extern "C" fn trace_live_take_back(line: &mut LiveLine, work: &mut [u8]) -> u64
    ensures answer { result ≡ number (take_back_says line.old (length work.old)) }
    ensures line { line.new ≡ take_back_leaves line.old (length work.old) }
    ensures work { is_refused (take_back_says line.old (length work.old)) ≡ true → work.new ≡ work.old }
{
    heard_number(line.take_back(work))
}

// A page.
#[unsafe(no_mangle)]
pub extern "C" fn trace_page(
    linetable: &[u8],
    linestart: u64,
    pagetable: &[u8],
    pagestart: u64,
    page: &[u8],
    work: &mut [u8],
    reading: &mut [u8],
    first: &mut [u8],
    second: &mut [u8],
    out: &mut [u8],
) -> u64
    ensures answer { result
        ≡ page_number
        (page_says (record { table = linetable.now; start = linestart }) (record { table = pagetable.now; start = pagestart })
        page.now
        (record { work = length work.old; reading = length reading.old; first = length first.old; second = length second.old })
        (length out.old)) }
    ensures buffer { out.new
        ≡ page_leaves (record { table = linetable.now; start = linestart }) (record { table = pagetable.now; start = pagestart })
        page.now
        (record { work = length work.old; reading = length reading.old; first = length first.old; second = length second.old })
        out.old }
    ensures scratch { keeps_scratch (record { table = linetable.now; start = linestart }) (record { table = pagetable.now; start = pagestart })
        page.now ≡ true
        → (work.new ≡ work.old) × (reading.new ≡ reading.old) × (first.new ≡ first.old)
        × (second.new ≡ second.old) }
    ensures rivals { PageTaken (record { table = linetable.now; start = linestart }) (record { table = pagetable.now; start = pagestart })
        page.now
        (record { work = length work.old; reading = length reading.old; first = length first.old; second = length second.old })
        → Bytes linetable.now
        → work_size (count pagetable.now) (length (classes_of (record { table = linetable.now; start = linestart }) page.now))
        ≤ length work.old
        → NoneOutranks (λ x. result ≡ number x) pagetable.now pagestart
        (classes_of (record { table = linetable.now; start = linestart }) page.now) out.old out.new }
{
    outcome_number(page::read_page(
        linetable,
        linestart as usize,
        pagetable,
        pagestart as usize,
        page,
        work,
        reading,
        first,
        second,
        out,
    ))
}

// Apart, of record k.
#[unsafe(no_mangle)]
pub extern "C" fn trace_apart(table: &[u8], k: u64) -> u64
    ensures answer { result ≡ number (apart_says table.now k) }
    ensures yes { result ≡ 1 → Apart table.now k }
{
    number_of(apart::apart(table, k as usize))
}
