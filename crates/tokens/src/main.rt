// Writes the tokens of the text on standard input, a line for each, or one line for the refusal of the text.
#![tactic(auto)]

ghost use Rattle.std.specs.Prelude.{◌≤◌, length};
ghost use Rattle.lexer.specs.Limit.{limit};

use lexer::location::{LOC, Lexer, Next, ParserToken};
use std::io::Stdout;
use std::{fmt, io};

// The kind number of a token and where it stands.
#[derive(Clone, Copy)]
struct Row(ParserToken);

impl fmt::Display for Row {
    ghost use Rattle.std.specs.Prelude.{Some};
    ghost use Rattle.tokens.specs.Text.{row_text};

    ghost output = { λ row. Some (row_text row.0) };

    fn fmt<W: fmt::Write>(&self, f: &mut fmt::Formatter<W>) -> fmt::Result {
        let ParserToken { token, loc } = self.0;
        let LOC { start, end } = loc;
        // in one go: a `Display` of a place, called for both, took a tenth more time
        write!(
            f,
            "{} {} {} {} {} {} {}",
            u32::from(token),
            start.index,
            start.line,
            start.column,
            end.index,
            end.line,
            end.column
        )
    }
}

// Writes the tokens of a text, a line for each.
fn write_tokens(out: Stdout, text: &[u8]) -> io::Result<()>
    requires { length text.now ≤ limit }
{
    let mut from = Lexer::new();
    while let Next::On(token, behind) = lexer::next_token(text, from) {
        println!(out; "{}", Row(token))?;
        from = behind;
    }
    Ok(())
}

// Writes the tokens of a text, or its refusal.
fn write_text(out: Stdout, text: &[u8]) -> io::Result<()> {
    match lexer::check(text) {
        Ok(()) => write_tokens(out, text),
        Err(refusal) => println!(out; "R {refusal}"),
    }
}

fn main(rt: HostRuntime) -> io::Result<()> {
    let mut text = [0u8; 65537];
    let n = input::read_full(&mut rt.stdin(), &mut text)?;
    write_text(rt.stdout(), &text[..n])
}
