// Tokens: the outermost tagged parts of a reading.
#![tactic(auto)]

ghost use Rattle.std.specs.Prelude.{◌+◌, ◌≤◌, ◌<◌, ◌≡◌, true, [], ◌∷◌, length};
ghost use Rattle.table.specs.Answers.{says};
ghost use Rattle.reading.specs.Codec.{record_size, record_at};
ghost use Rattle.reading.specs.Writing.{wrote};
ghost use Rattle.tokens.specs.Tokens.{token_bytes};
ghost use Rattle.tokens.specs.Listed.{tokens_says, tokens_leaves};
ghost use Rattle.tokens.specs.Walks.{width, list_reading, Listable, Passable, Passed};

use reading::{Place, ValueKind};
use table::{Refusal, Rules};

// The walk so far: the offset in the line, the offset where the last token ends, and the index in the buffer behind the tokens.
#[derive(Clone, Copy)]
pub struct Listing {
    pub offset: usize,
    pub end: usize,
    pub to: usize,
}

// One token at an index of the buffer, stored if writing, and the index behind it.
fn put(out: &mut [u8], at: usize, tag: u8, offset: usize, size: usize, writing: bool) -> usize
    requires bytes { (offset < 256) × (size < 256) }
    requires low { at ≤ 765 }
    requires room { writing ≡ true → at + 3 ≤ length out.old }
    ensures index { result ≡ at + 3 }
    ensures buffer { out.new ≡ wrote writing out.old at (tag ∷ offset ∷ size ∷ []) }
{
    if writing {
        out[at] = tag;
        out[at + 1] = offset as u8;
        out[at + 2] = size as u8;
    }
    at + 3
}

// How many bytes of the line a record of a kind is.
fn width_of(kind: u8) -> usize
    ensures { result ≡ width kind }
{
    if kind == ValueKind::Byte.number() {
        return 1;
    }
    0
}

// The walk behind the record at a place. The record's part is listed if its table record is tagged, it has a byte, and the last token has ended.
fn list_record(
    table: &Rules,
    reading: &[u8],
    at: usize,
    listing: Listing,
    out: &mut [u8],
    writing: bool,
) -> Listing
    requires placed { at + record_size ≤ length reading.now }
    requires given { Passable table.now (record_at reading.now at) writing (length out.old) listing }
    ensures { Passed table.now (record_at reading.now at) writing out.old out.new listing result }
{
    let number = reading::record_number(reading, at);
    let tag = table.tag_at(number);
    let size = reading::record_length(reading, at) as usize;
    let kind = reading::record_kind(reading, at);
    let offset = listing.offset;
    let unlisted = Listing {
        offset: offset + width_of(kind),
        ..listing
    };
    if tag == 0 {
        return unlisted;
    }
    if size == 0 {
        return unlisted;
    }
    if offset < listing.end {
        return unlisted;
    }
    Listing {
        end: offset + size,
        to: put(out, listing.to, tag, offset, size, writing),
        ..unlisted
    }
}

// Lists the tokens of a reading, record by record, and returns the index behind them.
fn list_records(table: &Rules, reading: &[u8], out: &mut [u8], writing: bool) -> usize
    requires { Listable table.now reading.now writing (length out.old) }
    ensures index { result ≡ length (token_bytes (list_reading table.now reading.now)) }
    ensures buffer { out.new
        ≡ wrote writing out.old 0 (token_bytes (list_reading table.now reading.now)) }
{
    let mut listing = Listing {
        offset: 0,
        end: 0,
        to: 0,
    };
    for i in 0..reading.len() / Place::RECORD {
        listing = list_record(table, reading, Place::RECORD * i, listing, out, writing);
    }
    listing.to
}

// Tokens: writes the tokens of a fitting reading from the start record on, 3 bytes each, and returns their count. The first walk only
// counts, so that a buffer that is too short is left as it was.
pub fn tokens(table: &[u8], start: usize, reading: &[u8], out: &mut [u8]) -> Result<usize, Refusal>
    ensures answer { says result ≡ tokens_says table.now start reading.now (length out.old) }
    ensures buffer { out.new ≡ tokens_leaves table.now start reading.now out.old }
{
    let rules = reading::admit(table, start)?;
    reading::fit_whole(&rules, start, reading).ok_or(Refusal::Unfit(0))?;
    let needed = list_records(&rules, reading, out, false);
    if out.len() < needed {
        return Err(Refusal::Buffer(needed));
    }
    let listed = list_records(&rules, reading, out, true);
    Ok(listed / 3)
}
