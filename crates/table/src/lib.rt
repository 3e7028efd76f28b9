// The rule table of document 01: Check, and the answers of every call.
#![tactic(auto)]

ghost use Rattle.std.specs.Prelude.{ℕ, List, IfOk, ◌+◌, ◌*◌, ◌<◌, suc, ◌≡◌, length, set};
ghost use Rattle.std.proofs.lemmas.List.Edits.{sets};
ghost use Rattle.posix.specs.Expressions.{holds};
ghost use Rattle.posix.specs.Extends.{holds_some};
ghost use Rattle.table.specs.Records.{count, kind_at, a_at, b_at, tag_at, record_bytes};
ghost use Rattle.table.specs.Kinds.{number_of, Decodes};
ghost use Rattle.table.specs.Faults.{bad_named, Passes};
ghost use Rattle.table.specs.Answers.{Said, refusal, number_in, detail_in, says, rules_say};
ghost use Rattle.table.specs.Checked.{checked};
ghost use Rattle.table.specs.Letters.{byte_set};
ghost use Rattle.table.specs.Steps.{or_said, own_fault_or, is_set, Marks};

use std::marker::Model;

// The kind of a record, in the order of their numbers.
#[derive(Clone, Copy, Debug, PartialEq, Eq)]
pub enum Kind {
    Nothing,
    Empty,
    Range,
    Or,
    Seq,
    Star,
    Other,
}

// A number that no kind has.
#[derive(Clone, Copy, Debug, PartialEq, Eq)]
pub struct UnknownKind(pub u8);

impl TryFrom<u8> for Kind {
    type Error = UnknownKind;

    ghost try_from_gives = { Decodes };

    fn try_from(number: u8) -> Result<Kind, UnknownKind> {
        match number {
            0 => Ok(Kind::Nothing),
            1 => Ok(Kind::Empty),
            2 => Ok(Kind::Range),
            3 => Ok(Kind::Or),
            4 => Ok(Kind::Seq),
            5 => Ok(Kind::Star),
            6 => Ok(Kind::Other),
            _ => Err(UnknownKind(number)),
        }
    }
}

impl Kind {
    // The kind's number.
    pub fn number(self) -> u8
        ensures { result ≡ number_of self }
    {
        self as u8
    }
}

// Why a call is refused: one case for each of the paper's numbers 1 to 20 but 13, which no call gives, in their order. A case holds the
// refusal's detail where it has one.
#[derive(Clone, Copy, Debug, PartialEq, Eq)]
pub enum Refusal {
    Size,
    Kind(usize),
    Unused(usize),
    Bounds(usize),
    Child(usize),
    Named(usize),
    Line,
    NoReading,
    Start,
    Work,
    Buffer(usize),
    Unfit(usize),
    Differ,
    Text,
    Records,
    Pairs,
    TokenBytes,
    EmptyLine,
    Lines,
}

impl Refusal {
    // The refusal's number.
    pub fn number(self) -> usize
        ensures { result ≡ number_in (refusal self) }
    {
        match self {
            Refusal::Size => 1,
            Refusal::Kind(_) => 2,
            Refusal::Unused(_) => 3,
            Refusal::Bounds(_) => 4,
            Refusal::Child(_) => 5,
            Refusal::Named(_) => 6,
            Refusal::Line => 7,
            Refusal::NoReading => 8,
            Refusal::Start => 9,
            Refusal::Work => 10,
            Refusal::Buffer(_) => 11,
            Refusal::Unfit(_) => 12,
            Refusal::Differ => 14,
            Refusal::Text => 15,
            Refusal::Records => 16,
            Refusal::Pairs => 17,
            Refusal::TokenBytes => 18,
            Refusal::EmptyLine => 19,
            Refusal::Lines => 20,
        }
    }

    // The refusal's detail, 0 where it has none.
    pub fn detail(self) -> usize
        ensures { result ≡ detail_in (refusal self) }
    {
        match self {
            Refusal::Kind(k) => k,
            Refusal::Unused(k) => k,
            Refusal::Bounds(k) => k,
            Refusal::Child(k) => k,
            Refusal::Named(k) => k,
            Refusal::Buffer(n) => n,
            Refusal::Unfit(i) => i,
            _ => 0,
        }
    }
}

// Stores record k, its kind by its number.
pub fn put_record(table: &mut [u8], k: usize, kind: u8, a: u8, b: u8, tag: u8)
    requires { 4 * k + 3 < length table.old }
    ensures { table.new ≡ sets table.old (4 * k) (record_bytes kind a b tag) }
{
    table[4 * k] = kind;
    table[4 * k + 1] = a;
    table[4 * k + 2] = b;
    table[4 * k + 3] = tag;
}

// Stores the tag of record k.
pub fn put_tag(table: &mut [u8], k: usize, tag: u8)
    requires { 4 * k + 3 < length table.old }
    ensures { table.new ≡ set table.old (4 * k + 3) tag }
{
    table[4 * k + 3] = tag;
}

// Whether a letter with the bounds a and b holds byte c: an Other by its kind's number, otherwise a Range.
pub fn letter_holds(kind: u8, a: u8, b: u8, c: u8) -> bool
    ensures { result ≡ holds (byte_set kind a b) c }
{
    if kind == Kind::Other.number() {
        return c < a || b < c;
    }
    a <= c && c <= b
}

// Whether a letter with the bounds a and b holds some byte.
pub fn letter_holds_some(kind: u8, a: u8, b: u8) -> bool
    ensures { result ≡ holds_some (byte_set kind a b) }
{
    if kind == Kind::Other.number() {
        return 0 < a || b < 255;
    }
    a <= b
}

// Record k's first fault of refusals 2 to 5, if it has one.
fn own_fault(table: &[u8], k: usize) -> Result<(), Refusal>
    requires { 4 * k + 3 < length table.now }
    ensures { (said : Said) → or_said result said ≡ own_fault_or table.now k said }
{
    let Ok(kind) = Kind::try_from(table[4 * k]) else {
        return Err(Refusal::Kind(k));
    };
    let a = table[4 * k + 1] as usize;
    let b = table[4 * k + 2] as usize;
    match kind {
        Kind::Nothing | Kind::Empty => {
            if a != 0 || b != 0 {
                return Err(Refusal::Unused(k));
            }
        }
        Kind::Range | Kind::Other => {
            if b < a {
                return Err(Refusal::Bounds(k));
            }
        }
        Kind::Or | Kind::Seq => {
            if k <= a || k <= b {
                return Err(Refusal::Child(k));
            }
        }
        Kind::Star => {
            if b != 0 {
                return Err(Refusal::Unused(k));
            }
            if k <= a {
                return Err(Refusal::Child(k));
            }
        }
    }
    Ok(())
}

// Marks child c, and says whether it was marked before.
fn name_child(marks: &mut [u8; 256], c: u8) -> bool
    ensures before { result ≡ is_set marks.old c }
    ensures marked { marks.new ≡ set marks.old c 1 }
{
    let at = c as usize;
    let before = marks[at] != 0;
    marks[at] = 1;
    before
}

// Marks record k's children, and says whether one was marked before, by a lower record or by the other field.
fn name_children(table: &[u8], k: usize, marks: &mut [u8; 256]) -> bool
    requires inside { 4 * k + 3 < length table.now }
    requires right { Marks table.now k marks.old }
    ensures again { result ≡ bad_named table.now k }
    ensures right { Marks table.now (suc k) marks.new }
{
    let a = table[4 * k + 1];
    let b = table[4 * k + 2];
    match Kind::try_from(table[4 * k]) {
        Ok(Kind::Star) => name_child(marks, a),
        Ok(Kind::Or | Kind::Seq) => {
            let first = name_child(marks, a);
            let second = name_child(marks, b);
            first | second
        }
        _ => false,
    }
}

// Check: the number of records, or the first fault.
pub fn check(table: &[u8]) -> Result<usize, Refusal>
    ensures answer { says result ≡ checked table.now }
{
    let size = table.len();
    if size == 0 || 1020 < size || size % 4 != 0 {
        return Err(Refusal::Size);
    }
    let m = size / 4;
    let mut marks = [0u8; 256];
    for k in 0..m {
        own_fault(table, k)?;
        if name_children(table, k, &mut marks) {
            return Err(Refusal::Named(k));
        }
    }
    Ok(m)
}

// A table that passes Check. Contracts see its bytes.
#[derive(Drop)]
pub struct Rules<'a> {
    bytes: &'a [u8],
}

impl<'a> Model for Rules<'a> {
    ghost Value = { List ℕ };

    ghost view = { λ r. r.bytes.now };

    ghost invariant = { λ r. Passes r.bytes.now };
}

impl<'a> Rules<'a> {
    // A table's rules, or its first fault.
    pub fn new(bytes: &'a [u8]) -> Result<Rules<'a>, Refusal>
        ensures answer { rules_say result ≡ checked bytes.entry.now }
        ensures rules { IfOk result (λ rules. rules ≡ bytes.entry.now) }
    {
        check(bytes)?;
        Ok(Rules::of(bytes))
    }

    // The rules of a table that is known to pass.
    pub fn of(bytes: &'a [u8]) -> Rules<'a>
        requires { Passes bytes.now }
        ensures { result ≡ bytes.entry.now }
    {
        Rules { bytes }
    }

    // The number of records.
    pub fn count(&self) -> usize
        ensures count { result ≡ count self.now }
        ensures passes { Passes self.now }
    {
        self.bytes.len() / 4
    }

    // The kind of record k.
    pub fn kind_at(&self, k: usize) -> Kind
        requires { k < count self.now }
        ensures kind { number_of result ≡ kind_at self.now k }
        ensures passes { Passes self.now }
    {
        let bytes = self.bytes;
        Kind::try_from(bytes[4 * k]).unwrap()
    }

    // Field a of record k.
    pub fn a_at(&self, k: usize) -> u8
        requires { k < count self.now }
        ensures { result ≡ a_at self.now k }
    {
        let bytes = self.bytes;
        bytes[4 * k + 1]
    }

    // Field b of record k.
    pub fn b_at(&self, k: usize) -> u8
        requires { k < count self.now }
        ensures { result ≡ b_at self.now k }
    {
        let bytes = self.bytes;
        bytes[4 * k + 2]
    }

    // The tag of record k.
    pub fn tag_at(&self, k: usize) -> u8
        requires { k < count self.now }
        ensures { result ≡ tag_at self.now k }
    {
        let bytes = self.bytes;
        bytes[4 * k + 3]
    }
}
