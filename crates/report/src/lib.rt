// What the program prints for a table and for a line.

#![tactic(auto)]

ghost use Rattle.std.specs.Prelude.{ℕ, ◌+◌, ◌*◌, ◌≤◌, ◌≡◌, List, [], ◌∷◌, ◌++◌, length, take, drop};
ghost use Rattle.table.specs.Answers.{refuses, refusal};
ghost use Rattle.tokens.specs.Tokens.{Token, token_bytes};
ghost use Rattle.printing.specs.Decimal.{decimal};
ghost use Rattle.printing.specs.Writes.{Wrote};
ghost use Rattle.report.specs.Text.{ok_word, refused_word, table_word};
ghost use Rattle.report.specs.Report.{token_line, token_lines, refused_line, work_length, reading_length, token_length, line_report, table_report, failure_text};
ghost use Rattle.report.specs.Writes.{line_with};

use printing::{put_byte, put_decimal, put_text};
use table::Refusal;

// Writes a token's line at a position and returns the next position.
fn put_token(out: &mut [u8], at: usize, tag: u8, offset: u8, size: u8) -> usize
    requires { at + 12 ≤ length out.old }
    ensures { Wrote out.old out.new at result (token_line (record { tag = tag; offset = offset; size = size })) }
{
    let tag_end = put_decimal(out, at, tag as u64);
    let offset_at = put_byte(out, tag_end, b' ');
    let offset_end = put_decimal(out, offset_at, offset as u64);
    let size_at = put_byte(out, offset_end, b' ');
    let size_end = put_decimal(out, size_at, size as u64);
    put_byte(out, size_end, b'\n')
}

// Writes the lines of so many tokens, whose records of 3 bytes stand in front of the slice, at a position and returns the next position.
fn put_tokens(out: &mut [u8], at: usize, tokens: &[u8], count: usize) -> usize
    requires tokens { 3 * count ≤ length tokens.now }
    requires room { at + 12 * count ≤ length out.old }
    ensures bound { result ≤ at + 12 * count }
    ensures lines { (xs : List Token) → take (3 * count) tokens.now ≡ token_bytes xs
        → Wrote out.old out.new at result (token_lines xs) }
{
    let mut next = at;
    let (records, _) = tokens.as_chunks::<3>();
    for &[tag, offset, size] in &records[..count] {
        next = put_token(out, next, tag, offset, size);
    }
    next
}

// Writes a line's own printed line to the front: its number, a word and a number.
fn put_line(out: &mut [u8], number: u64, word: &[u8], n: u64) -> usize
    requires { 46 + length word.now ≤ length out.old }
    ensures bound { result ≤ 46 + length word.now }
    ensures line { Wrote out.old out.new 0 result (line_with number word.now n) }
{
    let number_at = put_text(out, 0, b"line ");
    let word_at = put_decimal(out, number_at, number);
    let n_at = put_text(out, word_at, word);
    let n_end = put_decimal(out, n_at, n);
    put_byte(out, n_end, b'\n')
}

// Writes the printed line of a line that was refused.
fn put_refused(out: &mut [u8], number: u64, refusal: u64) -> usize
    requires { 64 ≤ length out.old }
    ensures bound { result ≤ 64 }
    ensures line { Wrote out.old out.new 0 result (refused_line number refusal) }
{
    put_line(out, number, b" refused ", refusal)
}

// Writes the printed line of a line that was read, before its tokens.
fn put_ok(out: &mut [u8], number: u64, count: u64) -> usize
    requires { 64 ≤ length out.old }
    ensures bound { result ≤ 64 }
    ensures line { Wrote out.old out.new 0 result (line_with number ok_word count) }
{
    put_line(out, number, b" ok ", count)
}

// Writes the printed line of a table that was refused.
fn put_table(out: &mut [u8], refusal: u64) -> usize
    requires { 64 ≤ length out.old }
    ensures bound { result ≤ 64 }
    ensures line { Wrote out.old out.new 0 result (table_word ++ (refused_word ++ (decimal refusal ++ (10 ∷ [])))) }
{
    let refusal_at = put_text(out, 0, b"table refused ");
    let refusal_end = put_decimal(out, refusal_at, refusal);
    put_byte(out, refusal_end, b'\n')
}

// A refusal's number.
fn refusal_number(why: Refusal) -> u64
    ensures { (n d : ℕ) → refusal why ≡ refuses n d → result ≡ n }
{
    why.number() as u64
}

// Writes what is printed for a line to the front of the buffer and returns its length.
pub fn report_line(
    table: &[u8],
    start: usize,
    number: u64,
    line: &[u8],
    work: &mut [u8],
    reading: &mut [u8],
    tokens: &mut [u8],
    out: &mut [u8],
) -> usize
    requires work { length work.old ≡ work_length }
    requires reading { length reading.old ≡ reading_length }
    requires tokens { length tokens.old ≡ token_length }
    requires out { 32768 ≤ length out.old }
    ensures bound { result ≤ 32768 }
    ensures size { result ≡ length (line_report table.now start number line.now) }
    ensures buffer { out.new
        ≡ line_report table.now start number line.now
        ++ drop (length (line_report table.now start number line.now)) out.old }
{
    match lexer::lex(table, start, line, work, reading, tokens) {
        Ok(count) => {
            let at = put_ok(out, number, count as u64);
            put_tokens(out, at, tokens, count)
        }
        Err(why) => put_refused(out, number, refusal_number(why)),
    }
}

// Writes what is printed for a table to the front of the buffer and returns its length: 0 for a table that passes.
pub fn report_table(table: &[u8], out: &mut [u8]) -> usize
    requires { 64 ≤ length out.old }
    ensures bound { result ≤ 64 }
    ensures size { result ≡ length (table_report table.now) }
    ensures buffer { out.new
        ≡ table_report table.now ++ drop (length (table_report table.now)) out.old }
{
    match table::check(table) {
        Ok(_) => 0,
        Err(why) => put_table(out, refusal_number(why)),
    }
}

// Writes what is said of a read of standard input that failed in the line with a number, to the front of the buffer, and returns its length.
pub fn report_failure(number: u64, out: &mut [u8]) -> usize
    requires { 64 ≤ length out.old }
    ensures bound { result ≤ 64 }
    ensures size { result ≡ length (failure_text number) }
    ensures buffer { out.new ≡ failure_text number ++ drop (length (failure_text number)) out.old }
{
    let number_at = put_text(out, 0, b"tracecut: reading failed in line ");
    put_decimal(out, number_at, number)
}
