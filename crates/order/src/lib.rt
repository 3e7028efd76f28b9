// The order of tokens: pairs of names of which the first must stand before the second.

#![tactic(auto)]

ghost use Rattle.std.specs.Prelude.{◌≡◌, length};
ghost use Rattle.marks.specs.Marks.{marked};
ghost use Rattle.order.specs.Breaks.{token_count};
ghost use Rattle.order.specs.Verdicts.{first_from, ordered};
ghost use Rattle.order.specs.Steps.{lacks};

use table::Refusal;

// A token with the second name must have, earlier in its list, a token with the first name.
#[repr(C)]
#[derive(Clone, Copy, Debug, PartialEq, Eq)]
pub struct Pair {
    pub first: u8,
    pub second: u8,
}

// What is found of a token list: that it keeps every pair, with its token count; or the number of the first token that breaks one.
#[derive(Clone, Copy, Debug, PartialEq, Eq)]
pub enum Verdict {
    Kept(usize),
    Broken(usize),
}

// Whether one of the pairs has this second name, and a first name that is not in the set.
fn lacks_first(seen: &[u64], name: u8, pairs: &[Pair]) -> bool
    requires { length seen.now ≡ 4 }
    ensures { result ≡ lacks (marked seen.now) name pairs.now }
{
    pairs.iter().any(|pair| name == pair.second && !marks::is_marked(seen, pair.first as usize))
}

// The verdict on whole tokens. A name is tested where it stands first: if its first token breaks no pair, none of its later ones does.
fn judge(tokens: &[u8], pairs: &[Pair]) -> Verdict
    ensures { result ≡ first_from tokens.now pairs.now (token_count tokens.now) 0 }
{
    let end = tokens.len() / 3;
    let mut seen = [0u64; 4];
    for i in 0..end {
        let name = tokens[3 * i];
        if !marks::is_marked(&seen, name as usize) {
            if lacks_first(&seen, name, pairs) {
                return Verdict::Broken(i);
            }
            marks::mark(&mut seen, name as usize);
        }
    }
    Verdict::Kept(end)
}

// Whether every token with the second name of a pair has, earlier in the list, a token with its first name.
#[tactic(auto, unfolding(crate::specs::Verdicts::judged, crate::specs::Verdicts::ordered))]
pub fn order(tokens: &[u8], pairs: &[Pair]) -> Result<Verdict, Refusal>
    ensures { result ≡ ordered tokens.now pairs.now }
{
    if 64 < pairs.len() {
        return Err(Refusal::Pairs);
    }
    if tokens.len() % 3 != 0 {
        return Err(Refusal::TokenBytes);
    }
    Ok(judge(tokens, pairs))
}
