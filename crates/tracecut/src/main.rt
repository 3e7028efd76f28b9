// Reads lines from standard input and prints the tokens of each by the rule table in the file rules.tab. What is printed is made by `report`
// and `stream`; here it is only read and written.

#![tactic(auto)]

ghost use Rattle.std.specs.Prelude.{◌+◌, ◌≤◌, ◌<◌, ◌≡◌, length};

use std::io::{Error, ErrorKind};
use std::{fs, io};
use stream::{Buffers, OpenLine};

// Prints bytes.
fn print(rt: &HostRuntime, bytes: &[u8]) -> io::Result<()> {
    descriptors::write_whole(rt, &mut rt.stdout(), bytes)
}

// Reads rules.tab until it ends or the buffer is full, and returns the number of bytes: 0 where it cannot be opened or a read fails. Standard
// error says why, unless the file is just missing.
fn read_table(rt: &HostRuntime, table: &mut [u8]) -> usize
    ensures { result ≤ length table.new }
{
    let mut file = match fs::open(rt, "rules.tab") {
        Ok(file) => file,
        Err(why) => {
            if why.kind() != ErrorKind::NotFound {
                descriptors::fail(
                    &mut rt.stderr(),
                    b"tracecut: opening rules.tab failed",
                    &why,
                );
            }
            return 0;
        }
    };
    match descriptors::read_whole(rt, &mut file, table) {
        Ok(size) => size,
        Err(why) => {
            descriptors::fail(
                &mut rt.stderr(),
                b"tracecut: reading rules.tab failed",
                &why,
            );
            0
        }
    }
}

// Prints the reports of the lines that end in a block of input.
fn print_block(
    rt: &HostRuntime,
    table: &[u8],
    block: &[u8],
    line: &mut OpenLine,
    buffers: &mut Buffers,
    out: &mut [u8],
) -> io::Result<()>
    requires out { 32768 ≤ length out.old }
    requires numbers { line.old.ended + length block.now < 18446744073709551615 }
    ensures { line.new.ended ≤ line.old.ended + length block.now }
{
    let mut rest = block;
    while !rest.is_empty() {
        let step = stream::take_block(table, rest, line, buffers, out);
        print(rt, &out[..step.written])?;
        rest = &rest[step.taken..];
    }
    Ok(())
}

// Says on standard error that reading failed, in which line and why.
fn say_failed(rt: &HostRuntime, ended: u64, out: &mut [u8], why: &Error)
    requires ended { ended < 18446744073709551615 }
    requires out { 64 ≤ length out.old }
{
    let number = lines::line_number(ended);
    let size = report::report_failure(number, out);
    descriptors::fail(&mut rt.stderr(), &out[..size], why);
}

// Reads standard input and prints the reports of its lines. A proved loop has to end, so this one stops after some 2^64 bytes.
fn run(rt: &HostRuntime, table: &[u8], out: &mut [u8]) -> io::Result<()>
    requires { length out.old ≡ 65536 }
{
    let mut block = [0u8; 65536];
    let mut line = OpenLine::new();
    let mut buffers = Buffers::new();
    let mut input = rt.stdin();
    let mut left = u64::MAX - 1;
    while 65536 < left {
        let n = match descriptors::read_some(rt, &mut input, &mut block) {
            Ok(n) => n,
            Err(why) => {
                say_failed(rt, line.ended, out, &why);
                return Ok(());
            }
        };
        if n == 0 {
            let size = stream::take_end(table, line.kept(), line.ended, &mut buffers, out);
            return print(rt, &out[..size]);
        }
        print_block(rt, table, &block[..n], &mut line, &mut buffers, out)?;
        left -= n as u64;
    }
    let _ = rt.stderr().write_all(b"tracecut: the input is too long\n");
    Ok(())
}

// Prints what is said of a table that is refused, or the reports of the lines of standard input. It fails only where printing does.
fn cut(rt: &HostRuntime) -> io::Result<()> {
    let mut table = [0u8; 1025];
    let mut out = [0u8; 65536];
    let size = read_table(rt, &mut table);
    let refused = report::report_table(&table[..size], &mut out);
    if 0 < refused {
        return print(rt, &out[..refused]);
    }
    run(rt, &table[..size], &mut out)
}

fn main(rt: HostRuntime) {
    if let Err(why) = cut(&rt) {
        descriptors::fail(&mut rt.stderr(), b"tracecut: writing failed", &why);
    }
}
