// Reads a text of the notation from standard input and writes its rule table to standard output, or says on standard error why there is none.

#![tactic(auto)]

ghost use Rattle.std.specs.Prelude.{◌+◌, ◌≤◌, ◌≡◌, length};
ghost use Rattle.printing.specs.Writes.{Wrote};
ghost use Rattle.tracerules.specs.Text.{text_of, input_length};
ghost use Rattle.tracerules.specs.Messages.{fault_of, reason, refused_line};
ghost use Rattle.tracerules.specs.Outputs.{table_length, output, shown, Inside};

use printing::{put_byte, put_decimal, put_text};

// What is written for an input: so many bytes of the buffer, a table's to standard output or a refusal's line to standard error.
#[derive(Drop)]
pub enum Reply {
    Table(usize),
    Complaint(usize),
}

// The text of an input: one final byte 10 is left out.
fn text_of(input: &[u8]) -> &[u8]
    ensures { result.now ≡ text_of input.now }
{
    input.strip_suffix(b"\n").unwrap_or(input)
}

// Writes what is wrong with a text that is refused by 15, at a position, and returns the next position.
fn put_fault(out: &mut [u8], at: usize, text: &[u8]) -> usize
    requires { at + 64 ≤ length out.old }
    ensures bound { result ≤ at + 64 }
    ensures bytes { Wrote out.old out.new at result (fault_of text.now) }
{
    if 4096 < text.len() {
        return put_text(out, at, b": over 4096 bytes");
    }
    let offset_at = put_text(out, at, b": outside the notation at offset ");
    put_decimal(out, offset_at, notation::stops_at(text) as u64)
}

// Writes why a text is refused by a number, at a position, and returns the next position.
fn put_reason(out: &mut [u8], at: usize, number: u64, text: &[u8]) -> usize
    requires { at + 64 ≤ length out.old }
    ensures bound { result ≤ at + 64 }
    ensures bytes { Wrote out.old out.new at result (reason text.now number) }
{
    match number {
        15 => put_fault(out, at, text),
        16 => put_text(out, at, b": more than 255 records"),
        _ => at,
    }
}

// Writes the line for a text that is refused by a number to the front of the buffer and returns its length.
fn put_refused(out: &mut [u8], number: u64, text: &[u8]) -> usize
    requires { 128 ≤ length out.old }
    ensures bound { result ≤ 128 }
    ensures line { Wrote out.old out.new 0 result (refused_line text.now number) }
{
    let number_at = put_text(out, 0, b"tracerules: refused ");
    let reason_at = put_decimal(out, number_at, number);
    let reason_end = put_reason(out, reason_at, number, text);
    put_byte(out, reason_end, b'\n')
}

// Puts what is written for an input to the front of the buffer.
fn respond(input: &[u8], out: &mut [u8]) -> Reply
    requires { length out.old ≡ table_length }
    ensures inside { Inside result (length out.new) }
    ensures output { shown result out.new ≡ output input.now }
{
    let text = text_of(input);
    match notation::compile(text, out) {
        Ok(count) => Reply::Table(4 * count),
        Err(why) => Reply::Complaint(put_refused(out, why.number() as u64, text)),
    }
}

// Writes a table, or says that writing failed.
fn print(rt: &HostRuntime, table: &[u8]) {
    if let Err(why) = descriptors::write_whole(rt, &mut rt.stdout(), table) {
        descriptors::fail(&mut rt.stderr(), b"tracerules: writing failed", &why);
    }
}

// Writes what is to be written for an input.
fn answer(rt: &HostRuntime, input: &[u8]) {
    let mut out = [0u8; 1020];
    match respond(input, &mut out) {
        Reply::Table(n) => print(rt, &out[..n]),
        Reply::Complaint(n) => {
            let _ = descriptors::write_whole(rt, &mut rt.stderr(), &out[..n]);
        }
    }
}

// Reads standard input, until it ends or the buffer is full, and answers it.
fn run(rt: &HostRuntime, input: &mut [u8])
    requires { length input.old ≡ input_length }
{
    match descriptors::read_whole(rt, &mut rt.stdin(), input) {
        Ok(n) => answer(rt, &input[..n]),
        Err(why) => descriptors::fail(
            &mut rt.stderr(),
            b"tracerules: reading standard input failed",
            &why,
        ),
    }
}

fn main(rt: HostRuntime) {
    let mut input = [0u8; 4098];
    run(&rt, &mut input);
}
