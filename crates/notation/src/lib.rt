// Rules written as text (document 02, request 3): a text of the notation is turned into a table.

#![tactic(auto)]

ghost use Rattle.std.specs.Prelude.{ℕ, suc, ◌+◌, ◌-◌, ◌%◌, ◌≤◌, ◌<◌, ◌≡◌, List, ◌∷◌, Option, Some, None, IfSome, length, get_or, drop};
ghost use Rattle.table.specs.Records.{record_bytes};
ghost use Rattle.table.specs.Answers.{says};
ghost use Rattle.table.specs.Kinds.{number_of};
ghost use Rattle.notation.specs.Trees.{Tree, range};
ghost use Rattle.notation.specs.Decision.{later, numeral, escaped_word, range_word, tag_word, byte_word, word_at};
ghost use Rattle.notation.specs.Decision.{Held, none, some, Frame, frame, state, row_with, all_with, closed_in, starred, tagged, parted, step, ended, outcome};
ghost use Rattle.notation.specs.Calls.{limited, compile_says, compile_leaves, stops_at};
ghost use Rattle.notation.specs.Walks.{stored, tag_stored, join_leaves, join_count, group_item, TagGiven};
ghost use Rattle.notation.specs.Walks.{outer_parts, LastPart, Shows, Took, Fit, ItemEnded, counted, Ended, WalkedTo};

use table::{Kind, Refusal};

// A word of the notation. A Letter has its bounds, and how many bytes it takes beyond the first.
#[derive(Clone, Copy)]
pub enum Word {
    Letter(u8, u8, usize),
    Open,
    Close,
    Star,
    Bar,
    Tag(u8),
}

// The last item: none, or one whose own record, the last, has no tag or has one.
#[derive(Clone, Copy, PartialEq, Eq)]
pub enum Item {
    Absent,
    Untagged,
    Tagged,
}

// The marks of two parts: the alternatives up to the last bar, and the row since. A mark is the record count behind its part, 0 where there is
// none.
#[derive(Clone, Copy, PartialEq, Eq)]
pub struct Marks {
    pub left: u16,
    pub row: u16,
}

impl Marks {
    // Neither alternatives nor a row.
    pub const NONE: Marks = Marks { left: 0, row: 0 };
}

// Where the walk over a text stands: the records so far, the marks of what stands before the last item, that item, and how many parentheses are
// open.
#[derive(Clone, Copy)]
pub struct Walk {
    pub count: usize,
    pub marks: Marks,
    pub item: Item,
    pub depth: usize,
}

impl Walk {
    // Before the first word.
    pub const START: Walk = Walk {
        count: 0,
        marks: Marks::NONE,
        item: Item::Absent,
        depth: 0,
    };
}

// The value of a digit.
fn digit_value(c: u8) -> usize
    ensures value { result ≡ c - 48 }
    ensures bound { result ≤ 207 }
{
    c.saturating_sub(b'0') as usize
}

// The word behind a backslash.
fn escaped_word(rest: &[u8]) -> Option<Word>
    ensures { result ≡ escaped_word rest.now }
{
    let c = *rest.first()?;
    Some(Word::Letter(c, c, 1))
}

// The word behind an opening bracket.
fn range_word(rest: &[u8]) -> Option<Word>
    ensures { result ≡ range_word rest.now }
{
    match rest {
        [low, b'-', high, b']', ..] if low <= high => Some(Word::Letter(*low, *high, 4)),
        _ => None,
    }
}

// The number that three digits are.
fn three_digits(rest: &[u8]) -> usize
    requires { 3 ≤ length rest.now }
    ensures { result ≡ numeral rest.now }
{
    100 * digit_value(rest[0]) + 10 * digit_value(rest[1]) + digit_value(rest[2])
}

// The word behind a hash.
fn tag_word(rest: &[u8]) -> Option<Word>
    ensures { result ≡ tag_word rest.now }
{
    if rest.len() < 3 {
        return None;
    }
    if !rest[0].is_ascii_digit() || !rest[1].is_ascii_digit() || !rest[2].is_ascii_digit() {
        return None;
    }
    let number = three_digits(rest);
    if number < 1 || 255 < number {
        return None;
    }
    Some(Word::Tag(number as u8))
}

// The word of a byte that needs no other.
fn byte_word(c: u8) -> Option<Word>
    ensures { result ≡ byte_word c }
{
    match c {
        b'|' => Some(Word::Bar),
        b'*' => Some(Word::Star),
        b'(' => Some(Word::Open),
        b')' => Some(Word::Close),
        b']' => None,
        _ => Some(Word::Letter(c, c, 0)),
    }
}

// The word at the front of a text.
fn word_at(text: &[u8]) -> Option<Word>
    requires { 1 ≤ length text.now }
    ensures { result ≡ word_at (get_or text.now 0 0) (drop 1 text.now) }
{
    let rest = &text[1..];
    match text[0] {
        b'\\' => escaped_word(rest),
        b'[' => range_word(rest),
        b'#' => tag_word(rest),
        c => byte_word(c),
    }
}

// How many bytes a word takes beyond its first.
fn later_bytes(word: Word) -> usize
    ensures { result ≡ later (Some word) }
{
    match word {
        Word::Letter(_, _, n) => n,
        Word::Tag(_) => 3,
        Word::Open | Word::Close | Word::Star | Word::Bar => 0,
    }
}

// Stores record k, without a tag, where the buffer has room for it.
fn store(out: &mut [u8], k: usize, kind: Kind, a: u8, b: u8)
    requires { k ≤ 16384 }
    ensures { out.new ≡ stored out.old k (record_bytes (number_of kind) a b 0) }
{
    if out.len() < 4 * k + 4 {
        return;
    }
    table::put_record(out, k, kind.number(), a, b, 0);
}

// Writes the tag of record k where the buffer has room for that record.
fn store_tag(out: &mut [u8], k: usize, tag: u8)
    requires { k ≤ 16384 }
    ensures { out.new ≡ tag_stored out.old k tag }
{
    if out.len() < 4 * k + 4 {
        return;
    }
    table::put_tag(out, k, tag);
}

// The byte of a record's number. A table has no number beyond it.
fn number_byte(k: usize) -> u8
    ensures { result ≡ k % 256 }
{
    (k % 256) as u8
}

// Joins the last part, whose root is the last record, by a record of a kind to the part with the given mark, if there is one. Returns the record
// count.
fn join(kind: Kind, mark: u16, count: usize, out: &mut [u8]) -> usize
    requires { (1 ≤ count) × (count ≤ 16384) }
    ensures count { result ≡ join_count mark count }
    ensures buffer { out.new ≡ join_leaves (number_of kind) mark count out.old }
    ensures near { (count ≤ result) × (result ≤ count + 1) }
{
    if mark == 0 {
        return count;
    }
    let left = number_byte(mark as usize - 1);
    let right = number_byte(count - 1);
    store(out, count, kind, left, right);
    count + 1
}

// Ends the last item: it joins the row.
fn end_item(walk: Walk, out: &mut [u8]) -> Walk
    requires { Fit walk 4095 }
    ensures ended { ItemEnded walk result }
    ensures shown { (fs : List Frame) (l m i : Held) (stack : List Marks) (entry : List ℕ)
        → Shows fs l m i walk stack entry out.old
        → Shows fs l (row_with m i) none result stack entry out.new }
{
    if walk.item == Item::Absent {
        return walk;
    }
    let count = join(Kind::Seq, walk.marks.row, walk.count, out);
    let marks = Marks {
        row: count as u16,
        ..walk.marks
    };
    Walk {
        count,
        marks,
        item: Item::Absent,
        ..walk
    }
}

// Ends the last item, the row and the alternatives with it. Returns the record count.
fn end_row(walk: Walk, out: &mut [u8]) -> usize
    requires { (1 ≤ walk.count) × (walk.count ≤ 8192) }
    ensures bound { (1 ≤ result) × (result ≤ walk.count + 2) }
    ensures shown { (fs : List Frame) (l m : Held) (t : Tree) (stack : List Marks) (entry : List ℕ)
        → Shows fs l m (some t) walk stack entry out.old
        → LastPart (outer_parts fs) (all_with l m (some t)) result entry out.new }
{
    let row = join(Kind::Seq, walk.marks.row, walk.count, out);
    join(Kind::Or, walk.marks.left, row, out)
}

// A letter.
fn take_letter(low: u8, high: u8, walk: Walk, out: &mut [u8]) -> Walk
    requires { Fit walk 4095 }
    ensures fit { (n : ℕ) → Fit walk n → Fit result (suc n) }
    ensures shown { (fs : List Frame) (l m i : Held) (stack : List Marks) (entry : List ℕ)
        → Shows fs l m i walk stack entry out.old
        → Shows fs l (row_with m i) (some (range low high 0)) result stack entry out.new }
{
    let ended = end_item(walk, out);
    store(out, ended.count, Kind::Range, low, high);
    Walk {
        count: ended.count + 1,
        item: Item::Untagged,
        ..ended
    }
}

// An opening parenthesis: the marks of what stands before it are kept.
fn take_open(walk: Walk, stack: &mut [Marks; 4096], out: &mut [u8]) -> Walk
    requires { Fit walk 4095 }
    ensures fit { (n : ℕ) → Fit walk n → Fit result (suc n) }
    ensures shown { (fs : List Frame) (l m i : Held) (entry : List ℕ)
        → Shows fs l m i walk stack.old entry out.old
        → Shows (frame l (row_with m i) ∷ fs) none none none result stack.new entry out.new }
{
    let ended = end_item(walk, out);
    stack[ended.depth] = ended.marks;
    Walk {
        marks: Marks::NONE,
        depth: ended.depth + 1,
        ..ended
    }
}

// A group as an item: its own record has the last item's tag where that is all that stands in it.
fn group_item(walk: Walk) -> Item
    ensures { result ≡ group_item walk }
{
    if walk.marks != Marks::NONE {
        return Item::Untagged;
    }
    walk.item
}

// A closing parenthesis: the group is the last item, and the marks are those of what stands before it.
fn take_close(walk: Walk, stack: &[Marks; 4096], out: &mut [u8]) -> Option<Walk>
    requires { Fit walk 4095 }
    ensures fit { (n : ℕ) → Fit walk n → IfSome result (λ next. Fit next (suc n)) }
    ensures took { (fs : List Frame) (l m i : Held) (entry : List ℕ)
        → Shows fs l m i walk stack.now entry out.old
        → Took (closed_in fs l m i) result stack.now entry out.new }
{
    if walk.depth == 0 {
        return None;
    }
    let depth = walk.depth - 1;
    if walk.item != Item::Absent {
        let count = end_row(walk, out);
        return Some(Walk {
            count,
            marks: stack[depth],
            item: group_item(walk),
            depth,
        });
    }
    if walk.marks != Marks::NONE {
        return None;
    }
    store(out, walk.count, Kind::Empty, 0, 0);
    Some(Walk {
        count: walk.count + 1,
        marks: stack[depth],
        item: Item::Untagged,
        depth,
    })
}

// An asterisk: the last item becomes a Star of it.
fn take_star(walk: Walk, out: &mut [u8]) -> Option<Walk>
    requires { Fit walk 4095 }
    ensures fit { (n : ℕ) → Fit walk n → IfSome result (λ next. Fit next (suc n)) }
    ensures took { (fs : List Frame) (l m i : Held) (stack : List Marks) (entry : List ℕ)
        → Shows fs l m i walk stack entry out.old
        → Took (starred fs l m i) result stack entry out.new }
{
    if walk.item == Item::Absent {
        return None;
    }
    let count = walk.count;
    store(out, count, Kind::Star, number_byte(count - 1), 0);
    Some(Walk {
        count: count + 1,
        item: Item::Untagged,
        ..walk
    })
}

// A tag: the last item's root takes it, if it has none.
fn take_tag(tag: u8, walk: Walk, out: &mut [u8]) -> Option<Walk>
    requires fit { Fit walk 4095 }
    requires tag { 1 ≤ tag }
    ensures fit { (n : ℕ) → Fit walk n → IfSome result (λ next. Fit next (suc n)) }
    ensures took { (fs : List Frame) (l m i : Held) (stack : List Marks) (entry : List ℕ)
        → Shows fs l m i walk stack entry out.old
        → Took (tagged fs l m i tag) result stack entry out.new }
{
    if walk.item != Item::Untagged {
        return None;
    }
    store_tag(out, walk.count - 1, tag);
    Some(Walk {
        item: Item::Tagged,
        ..walk
    })
}

// A bar: the row ends.
fn take_bar(walk: Walk, out: &mut [u8]) -> Option<Walk>
    requires { Fit walk 4095 }
    ensures fit { (n : ℕ) → Fit walk n → IfSome result (λ next. Fit next (suc n)) }
    ensures took { (fs : List Frame) (l m i : Held) (stack : List Marks) (entry : List ℕ)
        → Shows fs l m i walk stack entry out.old
        → Took (parted fs l m i) result stack entry out.new }
{
    if walk.item == Item::Absent {
        return None;
    }
    let count = end_row(walk, out);
    Some(Walk {
        count,
        marks: Marks {
            left: count as u16,
            row: 0,
        },
        item: Item::Absent,
        ..walk
    })
}

// One word, or None where it cannot stand.
fn take_word(word: Word, walk: Walk, stack: &mut [Marks; 4096], out: &mut [u8]) -> Option<Walk>
    requires fit { Fit walk 4095 }
    requires word { TagGiven (Some word) }
    ensures fit { (n : ℕ) → Fit walk n → IfSome result (λ next. Fit next (suc n)) }
    ensures took { (fs : List Frame) (l m i : Held) (entry : List ℕ)
        → Shows fs l m i walk stack.old entry out.old
        → Took (step (Some word) (state fs l m i)) result stack.new entry out.new }
{
    match word {
        Word::Letter(low, high, _) => Some(take_letter(low, high, walk, out)),
        Word::Open => Some(take_open(walk, stack, out)),
        Word::Close => take_close(walk, stack, out),
        Word::Star => take_star(walk, out),
        Word::Bar => take_bar(walk, out),
        Word::Tag(tag) => take_tag(tag, walk, out),
    }
}

// The end of a text: its record count, or None where it ends too early.
fn finish(walk: Walk, out: &mut [u8]) -> Option<usize>
    requires { Fit walk 4096 }
    ensures { (fs : List Frame) (l m i : Held) (stack : List Marks) (entry : List ℕ)
        → Shows fs l m i walk stack entry out.old
        → Ended (ended (state fs l m i)) result entry out.new }
{
    if walk.depth != 0 || walk.item == Item::Absent {
        return None;
    }
    Some(end_row(walk, out))
}

// Walks over a text word by word, and writes its records where the buffer has room for them. Returns the record count, or the offset where the
// text stops. The array is for the marks of the open parentheses.
fn walk_text(text: &[u8], stack: &mut [Marks; 4096], out: &mut [u8]) -> Result<usize, usize>
    requires { length text.now ≤ 4096 }
    ensures { WalkedTo (outcome text.now) (length text.now) result out.old out.new }
{
    let mut walk = Walk::START;
    let mut at = 0;
    while at < text.len() {
        let Some(word) = word_at(&text[at..]) else {
            return Err(at);
        };
        let Some(next) = take_word(word, walk, stack, out) else {
            return Err(at);
        };
        walk = next;
        at += 1 + later_bytes(word);
    }
    finish(walk, out).ok_or(at)
}

// Walks over a text without writing its records. One over the limit is not looked at.
fn count_text(text: &[u8], stack: &mut [Marks; 4096]) -> Result<usize, usize>
    ensures { result ≡ counted (length text.now) (limited text.now) }
{
    if 4096 < text.len() {
        return Err(4096);
    }
    walk_text(text, stack, &mut [])
}

// The table of a text goes to the front of the buffer. Returns the record count.
pub fn compile(text: &[u8], out: &mut [u8]) -> Result<usize, Refusal>
    ensures answer { says result ≡ compile_says text.now (length out.old) }
    ensures buffer { out.new ≡ compile_leaves text.now out.old }
{
    let mut stack = [Marks::NONE; 4096];
    let Ok(count) = count_text(text, &mut stack) else {
        return Err(Refusal::Text);
    };
    if 255 < count {
        return Err(Refusal::Records);
    }
    if out.len() < 4 * count {
        return Err(Refusal::Buffer(4 * count));
    }
    walk_text(text, &mut stack, out).map_err(|_| Refusal::Text)
}

// The offset at which a text stops being readable.
pub fn stops_at(text: &[u8]) -> usize
    ensures { result ≡ stops_at text.now }
{
    let mut stack = [Marks::NONE; 4096];
    match count_text(text, &mut stack) {
        Ok(_) => text.len(),
        Err(at) => at,
    }
}
