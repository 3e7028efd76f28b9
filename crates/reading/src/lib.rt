// Readings as bytes: fitting, and Spell.
#![tactic(auto)]

ghost use Rattle.std.specs.Prelude.{ℕ, Option, Some, IfOk, ◌+◌, ◌*◌, ◌≤◌, ◌<◌, ◌≡◌, ◌++◌, length, drop};
ghost use Rattle.std.proofs.lemmas.List.Edits.{sets};
ghost use Rattle.table.specs.Records.{count};
ghost use Rattle.table.specs.Faults.{Passes};
ghost use Rattle.table.specs.Kinds.{number_of};
ghost use Rattle.table.specs.Answers.{says, gives, rules_say};
ghost use Rattle.reading.specs.Codec.{record_size, record_with, record_at};
ghost use Rattle.reading.specs.Fitting.{spelled, stepped};
ghost use Rattle.reading.specs.ValueKinds.{value_number, Decodes};
ghost use Rattle.reading.specs.Walks.{shape_of, shape_at, length_at, fit_at, fit_items, whole_at};
ghost use Rattle.reading.specs.Calls.{if_start, spell_says, spell_leaves};

use table::{Kind, Refusal, Rules, UnknownKind};

// The kind of a reading's record, in the order of their numbers. Both is document 01's Seq.
#[derive(Clone, Copy, Debug, PartialEq, Eq)]
pub enum ValueKind {
    Void,
    Byte,
    Left,
    Right,
    Both,
    Stars,
}

impl TryFrom<u8> for ValueKind {
    type Error = UnknownKind;

    ghost try_from_gives = { Decodes };

    fn try_from(number: u8) -> Result<ValueKind, UnknownKind> {
        match number {
            0 => Ok(ValueKind::Void),
            1 => Ok(ValueKind::Byte),
            2 => Ok(ValueKind::Left),
            3 => Ok(ValueKind::Right),
            4 => Ok(ValueKind::Both),
            5 => Ok(ValueKind::Stars),
            _ => Err(UnknownKind(number)),
        }
    }
}

impl ValueKind {
    // The kind's number.
    pub fn number(self) -> u8
        ensures { result ≡ value_number self }
    {
        self as u8
    }
}

// A place in a reading: the number of the byte at which a record starts.
#[derive(Clone, Copy)]
pub struct Place {
    pub at: usize,
}

// A part of a reading: where it ends and how many bytes it spells.
#[derive(Clone, Copy)]
pub struct Span {
    pub next: Place,
    pub size: usize,
}

// What a reading's record is by the table record that is to read it: one that ends a branch and spells so many bytes, Left or Right with
// the child's number, Seq with both, or Stars with the child's number and the count.
#[derive(Clone, Copy)]
pub enum Shape {
    Leaf(usize),
    Left(usize),
    Right(usize),
    Both(usize, usize),
    Many(usize, usize),
}

impl Place {
    // The bytes of a record.
    pub const RECORD: usize = 4;

    // The place one record on, or the same place at the end or with less than a record left.
    pub fn step(self, reading: &[u8]) -> Place
        ensures { result.at ≡ stepped reading.now self.at }
    {
        let at = self.at;
        if at <= reading.len() && Place::RECORD <= reading.len() - at {
            return Place {
                at: at + Place::RECORD,
            };
        }
        Place { at }
    }
}

// The kind of the record at a place.
pub fn record_kind(reading: &[u8], at: usize) -> u8
    requires { at + record_size ≤ length reading.now }
    ensures { result ≡ (record_at reading.now at).kind }
{
    reading[at]
}

// The argument of the record at a place.
pub fn record_argument(reading: &[u8], at: usize) -> u8
    requires { at + record_size ≤ length reading.now }
    ensures { result ≡ (record_at reading.now at).argument }
{
    reading[at + 1]
}

// The length that is written in the record at a place.
pub fn record_length(reading: &[u8], at: usize) -> u8
    requires { at + record_size ≤ length reading.now }
    ensures length { result ≡ (record_at reading.now at).size }
    ensures byte { result < 256 }
{
    reading[at + 2]
}

// The number of the table's record that is written in the record at a place.
pub fn record_number(reading: &[u8], at: usize) -> usize
    requires { at + record_size ≤ length reading.now }
    ensures { result ≡ (record_at reading.now at).number }
{
    reading[at + 3] as usize
}

// Stores a record at a position of a buffer.
pub fn store_record(out: &mut [u8], at: usize, kind: u8, argument: u8, size: usize, number: usize)
    requires room { at + record_size ≤ length out.old }
    requires bytes { (size < 256) × (number < 256) }
    ensures { out.new ≡ sets out.old at (record_with kind argument size number) }
{
    out[at] = kind;
    out[at + 1] = argument;
    out[at + 2] = size as u8;
    out[at + 3] = number as u8;
}

// The shape of a reading's record x, y by a table record of a kind, a, b, if it fits.
fn shape_of(kind: Kind, a: u8, b: u8, x: u8, y: u8) -> Option<Shape>
    ensures { result ≡ shape_of (number_of kind) a b x y }
{
    let value = ValueKind::try_from(x).ok()?;
    match (kind, value) {
        (Kind::Empty, ValueKind::Void) if y == 0 => Some(Shape::Leaf(0)),
        (Kind::Range | Kind::Other, ValueKind::Byte)
            if table::letter_holds(kind.number(), a, b, y) => { Some(Shape::Leaf(1)) }
        (Kind::Or, ValueKind::Left) if y == 0 => Some(Shape::Left(a as usize)),
        (Kind::Or, ValueKind::Right) if y == 0 => Some(Shape::Right(b as usize)),
        (Kind::Seq, ValueKind::Both) if y == 0 => Some(Shape::Both(a as usize, b as usize)),
        (Kind::Star, ValueKind::Stars) => Some(Shape::Many(a as usize, y as usize)),
        _ => None,
    }
}

// The shape of the record at a place, by table record k, if it fits.
fn look(table: &Rules, k: usize, reading: &[u8], place: Place) -> Option<Shape>
    requires { k < count table.now }
    ensures shape { result ≡ shape_at table.now k reading.now place.at }
    ensures passes { Passes table.now }
{
    let kind = table.kind_at(k);
    let at = place.at;
    let n = reading.len();
    if n <= at || n - at < Place::RECORD || record_number(reading, at) != k {
        return None;
    }
    let a = table.a_at(k);
    let b = table.b_at(k);
    let x = record_kind(reading, at);
    let y = record_argument(reading, at);
    shape_of(kind, a, b, x, y)
}

// The part that starts at a place, by record k: an element, whose iterations are elements again of a lower record. The length that is written for it
// is the one that it spells.
#[cycle(fitting)]
fn fit_element(table: &Rules, k: usize, reading: &[u8], place: Place) -> Option<Span>
    requires inside { k < count table.now }
    requires placed { place.at ≤ length reading.now }
    ensures { result ≡ fit_at table.now k reading.now place.at }
{
    let part = part_length(table, k, reading, place)?;
    let written = record_length(reading, place.at) as usize;
    if written == part.size {
        Some(part)
    } else {
        None
    }
}

// The part that starts at a place, by record k, with the length that it spells, the sum over its children: each of them is fitted, which holds the
// length that is written for it against its own sum.
#[cycle(fitting)]
pub fn part_length(table: &Rules, k: usize, reading: &[u8], place: Place) -> Option<Span>
    requires inside { k < count table.now }
    requires placed { place.at ≤ length reading.now }
    ensures length { result ≡ length_at table.now k reading.now place.at }
    ensures passes { Passes table.now }
{
    let next = place.step(reading);
    match look(table, k, reading, place)? {
        Shape::Leaf(size) => Some(Span { next, size }),
        Shape::Left(c) | Shape::Right(c) => fit_element(table, c, reading, next),
        Shape::Both(c, d) => {
            let first = fit_element(table, c, reading, next)?;
            let second = fit_element(table, d, reading, first.next)?;
            Some(Span {
                next: second.next,
                size: first.size + second.size,
            })
        }
        Shape::Many(c, n) => fit_iterations(table, c, n, reading, next),
    }
}

// So many iterations that start at a place, each an element of record c that spells at least one byte.
#[cycle(fitting)]
fn fit_iterations(
    table: &Rules,
    c: usize,
    times: usize,
    reading: &[u8],
    place: Place,
) -> Option<Span>
    requires inside { c < count table.now }
    requires placed { place.at ≤ length reading.now }
    ensures { result ≡ fit_items table.now c times reading.now place.at }
{
    let mut next = place;
    let mut size: usize = 0;
    for _ in 0..times {
        let part = fit_element(table, c, reading, next)?;
        if part.size == 0 {
            return None;
        }
        size += part.size;
        next = part.next;
    }
    Some(Span { next, size })
}

// How many bytes a byte sequence spells as a reading of record k, if it is one with no byte over.
pub fn fit_whole(table: &Rules, k: usize, reading: &[u8]) -> Option<usize>
    requires { k < count table.now }
    ensures { result ≡ whole_at table.now k reading.now }
{
    let part = fit_element(table, k, reading, Place { at: 0 })?;
    if part.next.at == reading.len() {
        Some(part.size)
    } else {
        None
    }
}

// The rules of a table that passes and has the start record, or refusal 1 to 6 or 9.
pub fn admit<'a>(table: &'a [u8], start: usize) -> Result<Rules<'a>, Refusal>
    ensures answer { rules_say result ≡ if_start table.entry.now start (gives (count table.entry.now)) }
    ensures rules { IfOk result (λ rules. rules ≡ table.entry.now) }
{
    let rules = Rules::new(table)?;
    if start < rules.count() {
        Ok(rules)
    } else {
        Err(Refusal::Start)
    }
}

// Copies the Byte arguments of a reading to the front of the buffer, and returns their count.
pub fn spell_into(reading: &[u8], out: &mut [u8]) -> usize
    requires { length (spelled reading.now) ≤ length out.old }
    ensures size { result ≡ length (spelled reading.now) }
    ensures buffer { out.new ≡ spelled reading.now ++ drop (length (spelled reading.now)) out.old }
{
    let mut size = 0;
    for i in 0..reading.len() / Place::RECORD {
        let at = Place::RECORD * i;
        if record_kind(reading, at) == ValueKind::Byte.number() {
            out[size] = record_argument(reading, at);
            size += 1;
        }
    }
    size
}

// Spell: writes the Byte arguments of a fitting reading and returns their count.
pub fn spell(table: &[u8], start: usize, reading: &[u8], out: &mut [u8]) -> Result<usize, Refusal>
    ensures answer { says result ≡ spell_says table.now start reading.now (length out.old) }
    ensures buffer { out.new ≡ spell_leaves table.now start reading.now out.old }
{
    let rules = admit(table, start)?;
    let size = fit_whole(&rules, start, reading).ok_or(Refusal::Unfit(0))?;
    if out.len() < size {
        return Err(Refusal::Buffer(size));
    }
    Ok(spell_into(reading, out))
}
