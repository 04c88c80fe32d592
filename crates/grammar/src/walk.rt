// The declarations of a unit, line by line.
ghost use Rattle.std.specs.Prelude.{◌≡◌, ◌<◌, length};
ghost use Rattle.bounded.specs.Held.{held};
ghost use Rattle.grammar.specs.Walk.{ends, noted, declarations, told, body};

use crate::declaration::{Declaration, Declared};
use crate::flaw::Flaw;
use crate::line::judge;
use bounded::Bounded;
use names::Fault;
use tokens::Token;

fn is_line_end(token: &Token) -> bool
    ensures { result ≡ ends token.now }
{
    matches!(token, Token::LineEnd)
}

// Takes down what a line said.
// Five parameters: a line's number, its two places and what it said are the parts of one declaration, `out` is the list of them.
fn note(
    line: u16,
    start: usize,
    end: usize,
    said: Result<Option<Declared>, Flaw>,
    out: &mut Bounded<Declaration, 513>,
) -> Result<(), Fault>
    requires { (length (held out.old) < 513) × (start < 1000) }
    ensures { told result (held out.new) ≡ noted line start end said (held out.old) }
{
    if let Some(Declared { kind, name }) = said.map_err(|flaw| flaw.at(line))? {
        let start = start + 3;
        let _ = out.push(Declaration {
            kind,
            name,
            line,
            start,
            end,
        });
    }
    Ok(())
}

// Fills the list with the declarations, or answers the first wrong line.
pub fn declare(
    tokens: &Bounded<Token, 513>,
    out: &mut Bounded<Declaration, 513>,
) -> Result<(), Fault>
    ensures { told result (held out.new) ≡ declarations (held tokens.now) }
{
    out.clear();
    let all = tokens.as_slice();
    // kept as counters: a declaration says its places among all tokens, which the pieces of a split do not tell,
    // and lines are counted only at their ends
    let mut start = 0;
    let mut line: u16 = 1;
    for (i, t) in all.iter().enumerate() {
        if is_line_end(t) {
            note(line, start, i, judge(line, &all[start..i]), out)?;
            start = i + 1;
            line += 1;
        }
    }
    Ok(())
}

// The tokens of a declaration's expression.
pub fn expression_of<'a>(tokens: &'a [Token], declaration: &Declaration) -> &'a [Token]
    ensures { result.now ≡ body tokens.now declaration.now }
{
    let end = declaration.end.min(tokens.len());
    let start = declaration.start.min(end);
    &tokens[start..end]
}
