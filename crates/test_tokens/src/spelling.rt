use pt_lexer::{Token, TokenKind};
use test_notation::{Printed, show};

/// A sign stands behind a quote, an integer behind `#`, a string in quotes, and the literal text of
/// an f-string behind `~`.
fn token(out: &mut String, kind: &TokenKind) -> Printed {
    match kind {
        TokenKind::Name(text) => show(out, text.as_str()),
        TokenKind::Sign(text) => {
            out.push_str("'")?;
            out.push_str(text.as_str())
        }
        TokenKind::Int(value) => write!(out, "#{value}"),
        TokenKind::Str(text) => {
            out.push_str("\"")?;
            show(out, text.as_str())?;
            out.push_str("\"")
        }
        TokenKind::FText(text) => {
            out.push_str("~")?;
            show(out, text.as_str())
        }
        TokenKind::FStart => out.push_str("<"),
        TokenKind::FEnd => out.push_str(">"),
        TokenKind::Newline => out.push_str("NEWLINE"),
        TokenKind::Indent => out.push_str("INDENT"),
        TokenKind::Dedent => out.push_str("DEDENT"),
        TokenKind::End => out.push_str("END"),
    }
}

/// Each token, spelled out.
pub fn spell(out: &mut String, tokens: &[Token]) -> Printed {
    for each in tokens {
        out.push_str(" ")?;
        token(out, &each.kind)?;
    }
    Ok(())
}

/// The byte and the line of each token.
pub fn places(out: &mut String, tokens: &[Token]) -> Printed {
    for each in tokens {
        write!(out, " {}:{}", each.at, each.line.0)?;
    }
    Ok(())
}
