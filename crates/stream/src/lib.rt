// What the program prints for an input that comes in blocks.
#![tactic(auto)]

ghost use Rattle.std.specs.Prelude.{replicate, ◌+◌, ◌≤◌, ◌<◌, ◌≡◌, ◌++◌, length, take, drop};
ghost use Rattle.report.specs.Report.{line_report};
ghost use Rattle.printing.specs.Writes.{Wrote};
ghost use Rattle.stream.specs.Output.{last_record};
ghost use Rattle.stream.specs.Blocks.{Took, last_report};

// The buffers that a report is made with.
#[derive(Drop)]
pub struct Buffers {
    pub work: [u8; 65536],
    pub reading: [u8; 32768],
    pub tokens: [u8; 4096],
}

impl Buffers {
    // Buffers of zeros.
    pub fn new() -> Buffers
        ensures work { result.work ≡ replicate 65536 0 }
        ensures reading { result.reading ≡ replicate 32768 0 }
        ensures tokens { result.tokens ≡ replicate 4096 0 }
    {
        Buffers {
            work: [0; 65536],
            reading: [0; 32768],
            tokens: [0; 4096],
        }
    }
}

// What stands between two blocks of input: the first bytes of the line that has not ended yet, how many are kept, and the lines ended so far.
#[derive(Drop)]
pub struct OpenLine {
    pub bytes: [u8; 256],
    pub kept: usize,
    pub ended: u64,
    pub ghost few: { kept ≤ 256 },
}

impl OpenLine {
    // Before the first block nothing is kept and no line ended.
    pub fn new() -> OpenLine
        ensures kept { result.kept ≡ 0 }
        ensures ended { result.ended ≡ 0 }
    {
        OpenLine {
            bytes: [0; 256],
            kept: 0,
            ended: 0,
        }
    }

    // The bytes that are kept.
    pub fn kept(&self) -> &[u8]
        ensures { result.now ≡ take self.now.kept self.now.bytes }
    {
        &self.bytes[..self.kept]
    }
}

// What a call did: the bytes of the block that were taken, and the bytes written to the output buffer.
#[derive(Drop)]
pub struct Progress {
    pub taken: usize,
    pub written: usize,
}

// The number of the table's last record, at which the program starts.
fn last_record(table: &[u8]) -> usize
    ensures { result ≡ last_record table.now }
{
    (table.len() / 4).saturating_sub(1)
}

// Writes the report of a line at a position of the output buffer and returns the position behind it.
fn end_line(
    table: &[u8],
    number: u64,
    line: &[u8],
    buffers: &mut Buffers,
    out: &mut [u8],
    at: usize,
) -> usize
    requires { at + 32768 ≤ length out.old }
    ensures bound { result ≤ at + 32768 }
    ensures report { Wrote out.old out.new at result
        (line_report table.now (last_record table.now) number line.now) }
{
    let start = last_record(table);
    let size = report::report_line(
        table,
        start,
        number,
        line,
        &mut buffers.work,
        &mut buffers.reading,
        &mut buffers.tokens,
        &mut out[at..],
    );
    at + size
}

// Takes a block of input: writes the reports of the lines that end in it to the front of the output buffer, and keeps the bytes of the line
// that does not. Where the buffer has no room for a further report it stops.
pub fn take_block(
    table: &[u8],
    block: &[u8],
    line: &mut OpenLine,
    buffers: &mut Buffers,
    out: &mut [u8],
) -> Progress
    requires { line.old.ended + length block.now < 18446744073709551615 }
    ensures { Took table.now (take line.old.kept line.old.bytes) line.old.ended block.now out.old
        (take line.new.kept line.new.bytes) line.new.ended result.taken result.written out.new }
{
    let mut at = 0;
    let mut written = 0;
    while at < block.len() && 32768 <= out.len() - written {
        let end = lines::line_end(block, at);
        line.kept = lines::keep(&mut line.bytes, line.kept, &block[at..end]);
        at = end;
        if end < block.len() {
            let number = lines::line_number(line.ended);
            written = end_line(table, number, line.kept(), buffers, out, written);
            line.kept = 0;
            line.ended += 1;
            at += 1;
        }
    }
    Progress { taken: at, written }
}

// Writes the report of the last line, of which the kept bytes are given, to the front of the output buffer and returns its length: 0 where
// nothing stands behind the last byte 10.
pub fn take_end(
    table: &[u8],
    line: &[u8],
    ended: u64,
    buffers: &mut Buffers,
    out: &mut [u8],
) -> usize
    requires room { 32768 ≤ length out.old }
    requires number { ended < 18446744073709551615 }
    ensures bound { result ≤ 32768 }
    ensures size { result ≡ length (last_report table.now line.now ended) }
    ensures buffer { out.new
        ≡ last_report table.now line.now ended ++ drop result out.old }
{
    if line.is_empty() {
        return 0;
    }
    let number = lines::line_number(ended);
    end_line(table, number, line, buffers, out, 0)
}
