// Whether the alternatives of an Or record are seen to share no line: by the bytes with which their lines start, and by those with which they
// end.

#![tactic(auto)]

ghost use Rattle.std.specs.Prelude.{◌<◌, ◌≡◌};
ghost use Rattle.table.specs.Records.{count};
ghost use Rattle.table.specs.Answers.{says, gives};
ghost use Rattle.table.specs.Expression.{exp_of};
ghost use Rattle.reorder.specs.Exchanges.{Apart};
ghost use Rattle.apart.specs.Calls.{apart_says};
ghost use Rattle.apart.specs.Shared.{shared_bits, shared_below, Told};

use table::{Kind, Refusal, Rules};

// What records i and j share, by byte c: bit 128 where both spell the empty line, bit 1 where lines of both may start with c, bit 2 where lines
// of both may end with c.
fn shared_bits(table: &Rules, i: usize, j: usize, c: u8) -> u8
    requires { (i < count table.now) × (j < count table.now) }
    ensures { result ≡ shared_bits (exp_of table.now i) (exp_of table.now j) c }
{
    let mut words = [0u64; 4];
    let first = edges::find_bits(table, i, c, c, &mut words);
    let second = edges::find_bits(table, j, c, c, &mut words);
    first & second
}

// What they share by some byte.
fn all_shared(table: &Rules, i: usize, j: usize) -> u8
    requires { (i < count table.now) × (j < count table.now) }
    ensures { result ≡ shared_below (exp_of table.now i) (exp_of table.now j) 256 }
{
    let mut shared = 0;
    for c in 0..256usize {
        shared |= shared_bits(table, i, j, c as u8);
    }
    shared
}

// Whether these bits tell two records apart: the empty line is not shared, and either no first byte is or no last byte.
fn told_apart(shared: u8) -> bool
    ensures { Told shared result }
{
    if shared & 128 != 0 {
        return false;
    }
    shared & 3 != 3
}

// Apart: 1 where the alternatives of Or record k are seen to share no line, 0 where that is not known or record k is no Or.
pub fn apart(table: &[u8], k: usize) -> Result<usize, Refusal>
    ensures equation { says result ≡ apart_says table.now k }
    ensures yes { says result ≡ gives 1 → Apart table.now k }
{
    let rules = reading::admit(table, k)?;
    let Kind::Or = rules.kind_at(k) else {
        return Ok(0);
    };
    let a = rules.a_at(k) as usize;
    let b = rules.b_at(k) as usize;
    if told_apart(all_shared(&rules, a, b)) {
        Ok(1)
    } else {
        Ok(0)
    }
}
