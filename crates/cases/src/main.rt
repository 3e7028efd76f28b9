// Runs the cases A to J of document 01, and those of document 02's Other, empty parts, texts and written lengths, through the calls and writes a line for
// each: the answer, and the bytes that the call wrote. The tables and readings are those of specs/, which the one proof over the cases covers.

#![tactic(auto)]

ghost use Rattle.std.specs.Prelude.{◌≡◌};
ghost use Rattle.cases.specs.Tables.{T1, T2, T3, T4, Remark, NoByte, AllBut5, Crossed, Kind7, Gust, Blank, T1-text, T2-text};
ghost use Rattle.cases.specs.Cases.{B-reading, B-length, B-number, B-count, B-first, C-reading, D-reading, F-reading, G-rival, Remark-reading, Remark-unfit, Gust-there, Gust-absent, Blank-reading, D-written};

use std::io;
use table::Refusal;

fn t1() -> [u8; 40]
    ensures { result ≡ T1 }
{
    *b"\x02\x61\x61\x01\x02\x61\x61\x00\x02\x62\x62\x00\x04\x01\x02\x02\x02\x62\x62\x00\x02\x63\x63\x00\x04\x04\x05\x03\x03\x00\x03\x00\x03\x07\x06\x00\x05\x08\x00\x00"
}

fn t2() -> [u8; 36]
    ensures { result ≡ T2 }
{
    *b"\x02\x61\x61\x00\x01\x00\x00\x00\x03\x00\x01\x00\x02\x62\x62\x00\x02\x61\x61\x00\x02\x62\x62\x00\x04\x04\x05\x00\x03\x03\x06\x00\x04\x02\x07\x00"
}

fn t3() -> [u8; 8]
    ensures { result ≡ T3 }
{
    *b"\x01\x00\x00\x00\x05\x00\x00\x00"
}

fn t4() -> [u8; 4]
    ensures { result ≡ T4 }
{
    *b"\x01\x00\x00\x07"
}

fn remark() -> [u8; 16]
    ensures { result ≡ Remark }
{
    *b"\x06\x3b\x3b\x00\x05\x00\x00\x09\x02\x3b\x3b\x00\x04\x01\x02\x00"
}

fn no_byte() -> [u8; 4]
    ensures { result ≡ NoByte }
{
    *b"\x06\x00\xff\x00"
}

fn all_but_5() -> [u8; 4]
    ensures { result ≡ AllBut5 }
{
    *b"\x06\x05\x05\x00"
}

fn crossed() -> [u8; 4]
    ensures { result ≡ Crossed }
{
    *b"\x06\x06\x05\x00"
}

fn kind_7() -> [u8; 4]
    ensures { result ≡ Kind7 }
{
    *b"\x07\x00\x00\x00"
}

fn gust() -> [u8; 28]
    ensures { result ≡ Gust }
{
    *b"\x02\x61\x61\x01\x02\x67\x67\x00\x01\x00\x00\x00\x03\x01\x02\x02\x02\x62\x62\x03\x04\x03\x04\x00\x04\x00\x05\x00"
}

fn blank() -> [u8; 12]
    ensures { result ≡ Blank }
{
    *b"\x01\x00\x00\x07\x01\x00\x00\x08\x04\x00\x01\x09"
}

fn t1_text() -> [u8; 26]
    ensures { result ≡ T1-text }
{
    *b"(a#001|(ab)#002|(bc)#003)*"
}

fn t2_text() -> [u8; 12]
    ensures { result ≡ T2-text }
{
    *b"(a|())(b|ab)"
}

fn b_reading() -> [u8; 24]
    ensures { result ≡ B-reading }
{
    *b"\x05\x01\x02\x09\x02\x00\x02\x08\x03\x00\x02\x07\x04\x00\x02\x03\x01\x61\x01\x01\x01\x62\x01\x02"
}

fn b_length() -> [u8; 24]
    ensures { result ≡ B-length }
{
    *b"\x05\x01\x02\x09\x02\x00\x02\x08\x03\x00\x01\x07\x04\x00\x02\x03\x01\x61\x01\x01\x01\x62\x01\x02"
}

fn b_number() -> [u8; 24]
    ensures { result ≡ B-number }
{
    *b"\x05\x01\x02\x09\x02\x00\x02\x07\x03\x00\x02\x07\x04\x00\x02\x03\x01\x61\x01\x01\x01\x62\x01\x02"
}

fn b_count() -> [u8; 24]
    ensures { result ≡ B-count }
{
    *b"\x05\x01\x01\x09\x02\x00\x02\x08\x03\x00\x02\x07\x04\x00\x02\x03\x01\x61\x01\x01\x01\x62\x01\x02"
}

fn b_first() -> [u8; 24]
    ensures { result ≡ B-first }
{
    *b"\x05\x01\x02\x09\x02\x00\x02\x08\x03\x00\x02\x07\x04\x00\x01\x03\x01\x61\x01\x01\x01\x62\x01\x02"
}

fn c_reading() -> [u8; 32]
    ensures { result ≡ C-reading }
{
    *b"\x05\x02\x03\x09\x02\x00\x01\x08\x02\x00\x01\x07\x01\x61\x01\x00\x03\x00\x02\x08\x04\x00\x02\x06\x01\x62\x01\x04\x01\x63\x01\x05"
}

fn d_reading() -> [u8; 52]
    ensures { result ≡ D-reading }
{
    *b"\x05\x03\x05\x09\x02\x00\x01\x08\x02\x00\x01\x07\x01\x61\x01\x00\x03\x00\x02\x08\x04\x00\x02\x06\x01\x62\x01\x04\x01\x63\x01\x05\x02\x00\x02\x08\x03\x00\x02\x07\x04\x00\x02\x03\x01\x61\x01\x01\x01\x62\x01\x02"
}

fn f_reading() -> [u8; 20]
    ensures { result ≡ F-reading }
{
    *b"\x04\x00\x02\x08\x02\x00\x01\x02\x01\x61\x01\x00\x02\x00\x01\x07\x01\x62\x01\x03"
}

fn g_rival() -> [u8; 28]
    ensures { result ≡ G-rival }
{
    *b"\x04\x00\x02\x08\x03\x00\x00\x02\x00\x00\x00\x01\x03\x00\x02\x07\x04\x00\x02\x06\x01\x61\x01\x04\x01\x62\x01\x05"
}

fn remark_reading() -> [u8; 20]
    ensures { result ≡ Remark-reading }
{
    *b"\x04\x00\x03\x03\x05\x02\x02\x01\x01\x61\x01\x00\x01\x62\x01\x00\x01\x3b\x01\x02"
}

fn remark_unfit() -> [u8; 16]
    ensures { result ≡ Remark-unfit }
{
    *b"\x04\x00\x02\x03\x05\x01\x01\x01\x01\x3b\x01\x00\x01\x3b\x01\x02"
}

fn gust_there() -> [u8; 24]
    ensures { result ≡ Gust-there }
{
    *b"\x04\x00\x03\x06\x01\x61\x01\x00\x04\x00\x02\x05\x02\x00\x01\x03\x01\x67\x01\x01\x01\x62\x01\x04"
}

fn gust_absent() -> [u8; 24]
    ensures { result ≡ Gust-absent }
{
    *b"\x04\x00\x02\x06\x01\x61\x01\x00\x04\x00\x01\x05\x03\x00\x00\x03\x00\x00\x00\x02\x01\x62\x01\x04"
}

fn blank_reading() -> [u8; 12]
    ensures { result ≡ Blank-reading }
{
    *b"\x04\x00\x00\x02\x00\x00\x00\x00\x00\x00\x00\x01"
}

fn d_written() -> [u8; 52]
    ensures { result ≡ D-written }
{
    *b"\x05\x03\x05\x09\x02\x00\x01\x08\x02\x00\x01\x04\x01\x61\x01\x00\x03\x00\x02\x08\x04\x00\x02\x07\x01\x62\x01\x05\x01\x63\x01\x06\x02\x00\x02\x08\x03\x00\x02\x04\x04\x00\x02\x03\x01\x61\x01\x01\x01\x62\x01\x02"
}

// An answer: `gives` and the result, or `refuses`, the number and the detail.
fn show_answer(rt: &impl Print, answer: Result<usize, Refusal>) -> io::Result<()> {
    match answer {
        Ok(n) => print!(rt; " gives {n}"),
        Err(why) => { print!(rt; " refuses {} {}", why.number(), why.detail()) }
    }
}

// The bytes of a buffer in hexadecimal, and the end of the line.
fn show_bytes(rt: &impl Print, bytes: &[u8]) -> io::Result<()> {
    for byte in bytes {
        print!(rt; " {byte:02x}")?;
    }
    println!(rt)
}

fn run_check(rt: &impl Print, name: &[u8], bytes: &[u8]) -> io::Result<()> {
    rt.write_all(name)?;
    show_answer(rt, table::check(bytes))?;
    show_bytes(rt, b"")
}

// Each call below is lent a buffer of 52 bytes of 0xee, as many as D's reading has, and shows all of it afterwards; a work area has 280 bytes, what T1
// needs for a line of 6.
fn run_read(
    rt: &impl Print,
    name: &[u8],
    bytes: &[u8],
    start: usize,
    line: &[u8],
) -> io::Result<()> {
    let mut work = [0u8; 280];
    let mut out = [0xeeu8; 52];
    rt.write_all(name)?;
    show_answer(rt, matcher::read(bytes, start, line, &mut work, &mut out))?;
    show_bytes(rt, &out)
}

fn run_spell(
    rt: &impl Print,
    name: &[u8],
    bytes: &[u8],
    start: usize,
    reading: &[u8],
) -> io::Result<()> {
    let mut out = [0xeeu8; 52];
    rt.write_all(name)?;
    show_answer(rt, reading::spell(bytes, start, reading, &mut out))?;
    show_bytes(rt, &out)
}

fn run_tokens(
    rt: &impl Print,
    name: &[u8],
    bytes: &[u8],
    start: usize,
    reading: &[u8],
) -> io::Result<()> {
    let mut out = [0xeeu8; 52];
    rt.write_all(name)?;
    show_answer(rt, tokens::tokens(bytes, start, reading, &mut out))?;
    show_bytes(rt, &out)
}

fn run_compare(
    rt: &impl Print,
    name: &[u8],
    bytes: &[u8],
    start: usize,
    first: &[u8],
    second: &[u8],
) -> io::Result<()> {
    rt.write_all(name)?;
    show_answer(rt, ranking::compare(bytes, start, first, second))?;
    show_bytes(rt, b"")
}

// Earlier hands back the lent reading that ranks ahead.
fn run_earlier<'a>(
    rt: &impl Print,
    name: &[u8],
    bytes: &[u8],
    start: usize,
    first: &'a [u8],
    second: &'a [u8],
) -> io::Result<()> {
    rt.write_all(name)?;
    show_bytes(rt, ranking::earlier(bytes, start, first, second))
}

fn run_t1(rt: &impl Print) -> io::Result<()> {
    let table = t1();
    run_check(rt, b"T1", &table)?;
    run_read(rt, b"A", &table, 9, b"")?;
    run_read(rt, b"B", &table, 9, b"ab")?;
    run_spell(rt, b"B spelled", &table, 9, &b_reading())?;
    run_read(rt, b"C", &table, 9, b"abc")?;
    run_spell(rt, b"C spelled", &table, 9, &c_reading())
}

// B's reading with a wrong length or record number.
fn run_t1_unfit(rt: &impl Print) -> io::Result<()> {
    let table = t1();
    run_spell(rt, b"B, a length one short", &table, 9, &b_length())?;
    run_spell(rt, b"B, another record's number", &table, 9, &b_number())?;
    run_tokens(rt, b"B, the count for the length", &table, 9, &b_count())?;
    run_tokens(rt, b"B, the first part's length", &table, 9, &b_first())
}

fn run_t1_unfit_compared(rt: &impl Print) -> io::Result<()> {
    let table = t1();
    let reading = b_reading();
    let length = b_length();
    let number = b_number();
    run_compare(rt, b"The first unfit", &table, 9, &length, &reading)?;
    run_compare(rt, b"The second unfit", &table, 9, &reading, &number)
}

fn run_t1_more(rt: &impl Print) -> io::Result<()> {
    let table = t1();
    run_read(rt, b"D", &table, 9, b"abcab")?;
    run_tokens(rt, b"D tokens", &table, 9, &d_reading())?;
    run_read(rt, b"abcabc", &table, 9, b"abcabc")?;
    run_read(rt, b"E", &table, 9, b"b")
}

fn run_t2(rt: &impl Print) -> io::Result<()> {
    let table = t2();
    let best = f_reading();
    let rival = g_rival();
    run_check(rt, b"T2", &table)?;
    run_read(rt, b"F", &table, 8, b"ab")?;
    run_compare(rt, b"G", &table, 8, &best, &rival)?;
    run_compare(rt, b"G the other way round", &table, 8, &rival, &best)?;
    run_compare(rt, b"F against itself", &table, 8, &best, &best)
}

fn run_t2_more(rt: &impl Print) -> io::Result<()> {
    let table = t2();
    let best = f_reading();
    let rival = g_rival();
    run_earlier(rt, b"G earlier", &table, 8, &rival, &best)?;
    run_earlier(
        rt,
        b"G earlier, one that does not fit",
        &table,
        8,
        &best,
        b"\x00\x00\x00\x00",
    )
}

fn run_t3(rt: &impl Print) -> io::Result<()> {
    let table = t3();
    run_check(rt, b"T3", &table)?;
    run_spell(rt, b"H", &table, 1, b"\x05\x01\x00\x01\x00\x00\x00\x00")?;
    run_read(rt, b"I", &table, 1, b"")
}

fn run_t4(rt: &impl Print) -> io::Result<()> {
    let table = t4();
    run_check(rt, b"T4", &table)?;
    run_read(rt, b"J", &table, 0, b"")?;
    run_tokens(rt, b"J tokens", &table, 0, b"\x00\x00\x00\x00")
}

fn run_remark(rt: &impl Print) -> io::Result<()> {
    let table = remark();
    let reading = remark_reading();
    run_check(rt, b"Remark", &table)?;
    run_read(rt, b"Remark ab;", &table, 3, b"ab;")?;
    run_spell(rt, b"Remark spelled", &table, 3, &reading)?;
    run_tokens(rt, b"Remark tokens", &table, 3, &reading)?;
    run_read(rt, b"Remark a;b;", &table, 3, b"a;b;")?;
    run_spell(rt, b"Remark with ; in the text", &table, 3, &remark_unfit())
}

fn run_no_byte(rt: &impl Print) -> io::Result<()> {
    let table = no_byte();
    run_check(rt, b"NoByte", &table)?;
    run_read(rt, b"NoByte, no byte", &table, 0, b"")?;
    run_read(rt, b"NoByte, byte 0", &table, 0, b"\x00")?;
    run_read(rt, b"NoByte, byte 255", &table, 0, b"\xff")?;
    run_spell(rt, b"NoByte spelled", &table, 0, b"\x01\xff\x01\x00")
}

fn run_all_but_5(rt: &impl Print) -> io::Result<()> {
    let table = all_but_5();
    run_check(rt, b"AllBut5", &table)?;
    run_read(rt, b"AllBut5, byte 4", &table, 0, b"\x04")?;
    run_read(rt, b"AllBut5, byte 5", &table, 0, b"\x05")?;
    run_read(rt, b"AllBut5, byte 6", &table, 0, b"\x06")?;
    run_spell(rt, b"AllBut5 spelled", &table, 0, b"\x01\x05\x01\x00")
}

fn run_refused(rt: &impl Print) -> io::Result<()> {
    run_check(rt, b"Crossed", &crossed())?;
    run_check(rt, b"Kind7", &kind_7())
}

fn run_gust(rt: &impl Print) -> io::Result<()> {
    let table = gust();
    run_read(rt, b"Gust agb", &table, 6, b"agb")?;
    run_tokens(rt, b"Gust agb tokens", &table, 6, &gust_there())?;
    run_read(rt, b"Gust ab", &table, 6, b"ab")?;
    run_tokens(rt, b"Gust ab tokens", &table, 6, &gust_absent())
}

fn run_blank(rt: &impl Print) -> io::Result<()> {
    let table = blank();
    run_read(rt, b"Blank", &table, 2, b"")?;
    run_tokens(rt, b"Blank tokens", &table, 2, &blank_reading())
}

fn run_compile(rt: &impl Print, name: &[u8], text: &[u8]) -> io::Result<()> {
    let mut out = [0xeeu8; 52];
    rt.write_all(name)?;
    show_answer(rt, notation::compile(text, &mut out))?;
    show_bytes(rt, &out)
}

fn run_texts(rt: &impl Print) -> io::Result<()> {
    run_compile(rt, b"a#009*", b"a#009*")?;
    run_compile(rt, b"T1 as a text", &t1_text())?;
    run_compile(rt, b"T2 as a text", &t2_text())
}

fn run_t1_written(rt: &impl Print, table: &[u8]) -> io::Result<()> {
    show_bytes(rt, table)?;
    run_check(rt, b"T1 written", table)?;
    run_read(rt, b"A by the text", table, 9, b"")?;
    run_read(rt, b"B by the text", table, 9, b"ab")?;
    run_read(rt, b"C by the text", table, 9, b"abc")?;
    run_read(rt, b"D by the text", table, 9, b"abcab")?;
    run_tokens(rt, b"D tokens by the text", table, 9, &d_written())?;
    run_read(rt, b"E by the text", table, 9, b"b")
}

fn run_t2_written(rt: &impl Print, table: &[u8]) -> io::Result<()> {
    show_bytes(rt, table)?;
    run_check(rt, b"T2 written", table)?;
    run_read(rt, b"F by the text", table, 8, b"ab")
}

fn run_written(rt: &impl Print) -> io::Result<()> {
    let mut t1 = [0u8; 40];
    rt.write_all(b"T1 as a text, 40 bytes")?;
    show_answer(rt, notation::compile(&t1_text(), &mut t1))?;
    run_t1_written(rt, &t1)?;
    let mut t2 = [0u8; 36];
    rt.write_all(b"T2 as a text, 36 bytes")?;
    show_answer(rt, notation::compile(&t2_text(), &mut t2))?;
    run_t2_written(rt, &t2)
}

fn main(rt: HostRuntime) -> io::Result<()> {
    run_t1(&rt)?;
    run_t1_unfit(&rt)?;
    run_t1_unfit_compared(&rt)?;
    run_t1_more(&rt)?;
    run_t2(&rt)?;
    run_t2_more(&rt)?;
    run_t3(&rt)?;
    run_t4(&rt)?;
    run_remark(&rt)?;
    run_no_byte(&rt)?;
    run_all_but_5(&rt)?;
    run_refused(&rt)?;
    run_gust(&rt)?;
    run_blank(&rt)?;
    run_texts(&rt)?;
    run_written(&rt)
}
