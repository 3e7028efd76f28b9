// The lines of an input that comes in blocks: where one ends, the bytes kept of one that has not ended yet, and their numbers.

#![tactic(auto)]

ghost use Rattle.std.specs.Prelude.{suc, ◌+◌, ◌≤◌, ◌<◌, min, ◌≡◌, ◌==◌, length, count_by};
ghost use Rattle.lines.specs.Lines.{lines_of};
ghost use Rattle.lines.specs.Ends.{NextEnd, Kept};

// Where the line ends that a block has from a position on: at its byte 10, or at the block's end where there is none.
pub fn line_end(block: &[u8], from: usize) -> usize
    requires { from ≤ length block.now }
    ensures { NextEnd block.now from result }
{
    for i in from..block.len() {
        if block[i] == b'\n' {
            return i;
        }
    }
    block.len()
}

// Where the line behind one begins that ends at a position: behind its byte 10, or at the block's end where there is none.
pub fn next_line(block: &[u8], end: usize) -> usize
    requires { end ≤ length block.now }
    ensures { result ≡ min (end + 1) (length block.now) }
{
    (end + 1).min(block.len())
}

// How many bytes of an input end a line.
fn count_ends(input: &[u8]) -> usize
    ensures { result ≡ count_by (λ b. b == 10) input.now }
{
    input.iter().filter(|&&b| b == b'\n').count()
}

// How many lines an input has: one for each byte 10, and one where something stands behind the last.
pub fn count_lines(input: &[u8]) -> usize
    ensures { result ≡ length (lines_of input.now) }
{
    let ended = count_ends(input);
    match input.last() {
        Some(&last) if last != b'\n' => ended + 1,
        _ => ended,
    }
}

// Takes bytes into the line, of which the first 256 bytes are kept, and returns the number of bytes kept.
pub fn keep(line: &mut [u8], kept: usize, bytes: &[u8]) -> usize
    requires line { length line.old ≡ 256 }
    requires kept { kept ≤ 256 }
    ensures { Kept line.old kept bytes.now line.new result }
{
    let next = (kept + bytes.len()).min(256);
    line[kept..next].copy_from_slice(&bytes[..next - kept]);
    next
}

// The number of the next line after so many: lines are numbered from 1.
pub fn line_number(ended: u64) -> u64
    requires { ended < 18446744073709551615 }
    ensures { result ≡ suc ended }
{
    ended + 1
}
