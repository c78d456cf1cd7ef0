//! What stands before the blocks of functions, classes and handlers (Language Reference 8.4, 8.7,
//! 8.8).

ghost use Rattle.std.specs.Prelude.{◌≡◌, map, []};
ghost use Rattle.pt_readers.specs.Settled.{Settled};
ghost use Rattle.pt_readers.proofs.Readers.{left};
ghost use Rattle.pt_grammar.specs.declared.sign.Sign.TheVariants.{Mark as mark_sign};
ghost use Rattle.pt_grammar.specs.declared.sign.Mark.TheVariants.{Colon as colon_mark};
ghost use Rattle.pt_grammar.specs.Lexemes.{lexemes};
ghost use Rattle.pt_grammar.specs.Nodes.{is_given};
ghost use Rattle.pt_parser.specs.Headings.{Caught, comma_before_last as comma_before_last_of};
ghost use Rattle.pt_parser.specs.Parts.{a_sign_next, a_renamed, some_decorators, a_signature, some_bases, a_catch};
ghost use Rattle.pt_parser.specs.Views.{decorator_in, signature_in, bases_in, catch_in};

use crate::signs::{ARROW, AS, AT, CLOSE, COLON, COMMA, NEWLINE, OPEN, STAR};
use crate::{Statements, nodes};
use pt_base::{Boxed, Line, Seq, Text};
use pt_grammar::Lexemes;
use pt_grammar::deep::Parameters;
use pt_lexer::Token;
use pt_readers::Halt;
use pt_wide::{WideArgument, WideDecorator, WideExpr};

/// A function's name, its parameters, and the annotation of its result.
#[derive(Drop)]
pub struct Signature {
    pub name: Text,
    pub parameters: Parameters,
    pub returns: Option<Boxed<WideExpr>>,
}

/// The arguments of a class, and whether a comma stands before their `)`.
#[derive(Drop)]
pub struct Bases {
    pub arguments: Seq<WideArgument>,
    pub trailing_comma: bool,
}

/// What a handler catches: whether a `*` follows its `except`, the class, and the name for it.
#[derive(Drop)]
pub struct Catch {
    pub star: bool,
    pub class: Option<Boxed<WideExpr>>,
    pub name: Option<Text>,
}

impl Catch {
    /// Whether it names a class.
    pub(crate) fn names_class(&self) -> bool
        ensures { result ≡ is_given (catch_in self.now).class }
    {
        match &self.class {
            Some(_) => true,
            None => false,
        }
    }
}

/// Whether the last of these tokens but one is a comma.
fn comma_before_last(tokens: &[Token]) -> bool
    ensures { result ≡ comma_before_last_of (lexemes tokens.now) }
{
    let at = tokens.len().saturating_sub(2);
    Lexemes::new(&tokens[at..]).is(COMMA)
}

impl<'a> Statements<'a> {
    /// Decorators, behind the `@` of the first (Language Reference 8.7).
    pub(crate) fn decorators(&mut self, line: Line) -> Result<Seq<WideDecorator>, Halt>
        ensures { Settled (some_decorators line.0) (λ ds. map decorator_in ds) self.old self.new result }
    {
        let mut all = Seq::new(self.alloc);
        let mut at = line;
        'more: loop {
            let value = self.expression()?;
            self.expect(NEWLINE)?;
            all.push(nodes::decorator(at, value))?;
            at = self.line();
            if !self.take(AT) {
                return Ok(all);
            }
        }
    }

    /// What stands between `def` and `:` (Language Reference 8.7).
    pub(crate) fn signature(&mut self) -> Result<Signature, Halt>
        ensures { Settled a_signature signature_in self.old self.new result }
    {
        let name = self.identifier()?;
        self.expect(OPEN)?;
        let parameters = self.parameters()?;
        self.expect(CLOSE)?;
        let returns = self.optional(ARROW)?;
        Ok(Signature {
            name,
            parameters,
            returns,
        })
    }

    /// What stands behind the `(` of a class, with its `)` (Language Reference 8.8).
    pub(crate) fn bases(&mut self) -> Result<Bases, Halt>
        ensures { Settled some_bases bases_in self.old self.new result }
    {
        let tokens = self.as_slice();
        let arguments = self.arguments()?;
        let read = tokens.len() - self.len();
        Ok(Bases {
            arguments: arguments.items,
            trailing_comma: comma_before_last(&tokens[..read]),
        })
    }

    /// `as` and a name, if they are there.
    pub(crate) fn renamed(&mut self) -> Result<Option<Text>, Halt>
        ensures { Settled a_renamed (λ x. x) self.old self.new result }
    {
        if !self.take(AS) {
            return Ok(None);
        }
        let name = self.identifier()?;
        Ok(Some(name))
    }

    /// This sign, which has to be next and stays.
    fn colon(&mut self) -> Result<(), Halt>
        ensures { Settled (a_sign_next (mark_sign colon_mark)) (λ u. tt) self.old self.new result }
    {
        if !self.is(COLON) {
            return Err(Halt::Unexpected);
        }
        Ok(())
    }

    /// The class that a handler catches, if it names one, and its name for what it caught.
    fn caught(&mut self, star: bool) -> Result<Catch, Halt>
        ensures { Settled (left a_catch (Caught star)) catch_in self.old self.new result }
    {
        if self.is(COLON) {
            return Ok(Catch {
                star,
                class: None,
                name: None,
            });
        }
        let class = self.expression()?;
        let name = self.renamed()?;
        self.colon()?;
        Ok(Catch {
            star,
            class: Some(class),
            name,
        })
    }

    /// What stands between `except` and `:` (Language Reference 8.4.1, 8.4.2).
    pub(crate) fn catch(&mut self) -> Result<Catch, Halt>
        ensures { Settled a_catch catch_in self.old self.new result }
    {
        if self.take(STAR) {
            return self.caught(true);
        }
        self.caught(false)
    }
}
