ghost use Rattle.std.specs.Prelude.{◌≡◌};
ghost use Rattle.pt_strs.specs.Blank.{is_blank};

/// Whether a character is white space for Python (Library Reference, `str.isspace`).
pub fn is_blank(c: char) -> bool
    ensures { result ≡ is_blank c }
{
    c.is_whitespace() || ('\x1c'..='\x1f').contains(&c)
}
