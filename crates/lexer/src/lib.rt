// A line's tokens: Read, then Tokens on the reading.

#![tactic(auto)]

ghost use Rattle.std.specs.Prelude.{◌≡◌, length};
ghost use Rattle.table.specs.Answers.{says};
ghost use Rattle.lexer.specs.Lexing.{lex_says, lex_leaves};

use reading::Place;
use table::Refusal;

// Writes the tokens of a line to the front of the token buffer and returns their count. The line's reading goes into the reading buffer.
pub fn lex(
    table: &[u8],
    start: usize,
    line: &[u8],
    work: &mut [u8],
    reading: &mut [u8],
    tokens: &mut [u8],
) -> Result<usize, Refusal>
    ensures answer { says result
        ≡ lex_says table.now start line.now (length work.old) (length reading.old)
        (length tokens.old) }
    ensures buffer { tokens.new
        ≡ lex_leaves table.now start line.now (length work.old) (length reading.old)
        tokens.old }
{
    let records = matcher::read(table, start, line, work, reading)?;
    tokens::tokens(table, start, &reading[..Place::RECORD * records], tokens)
}
