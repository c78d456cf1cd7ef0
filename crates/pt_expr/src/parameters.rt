//! Lambdas and lists of parameters (Language Reference 6.14, 8.7).

ghost use Rattle.std.specs.Prelude.{◌≡◌, ◌≢◌, ◌≤◌, ◌<◌, ℕ, Bool, Some, true, false, length, IfOk};
ghost use Rattle.pt_wide.specs.Fold.{exp_of};
ghost use Rattle.pt_wide.specs.Measure.{count_params};
ghost use Rattle.pt_readers.specs.Reading.{next_of};
ghost use Rattle.pt_readers.specs.Settled.{Settled};
ghost use Rattle.pt_base.specs.declared.operators.BinOp.TheVariants.{Div as divide, Mul as multiply, Pow as power};
ghost use Rattle.pt_wide.specs.declared.expression.WideBinOp.TheVariants.{Plain as plain_operator};
ghost use Rattle.pt_grammar.specs.Lexemes.{name as name_lexeme, sign_at};
ghost use Rattle.pt_grammar.specs.Signs.{ends_parameters as ends_parameters_at};
ghost use Rattle.pt_grammar.specs.declared.sign.Sign.TheVariants.{Operator as operator_sign, Word as word_sign};
ghost use Rattle.pt_grammar.specs.declared.sign.Word.TheVariants.{Lambda as lambda_word};
ghost use Rattle.pt_grammar.specs.Nodes.{params_of};
ghost use Rattle.pt_grammar.specs.Parts.{an_expr, some_parameters};
ghost use Rattle.pt_grammar.specs.ReadViews.{gathered_read};
ghost use Rattle.pt_grammar.specs.ParameterViews.{given_read};
ghost use Rattle.pt_grammar.specs.ParameterSteps.{Steps, Sound, Held, NameNext, next_parameters, more_parameters, an_annotation};

use crate::Reader;
use crate::reader::MAX_ITEMS;
use pt_base::{BinOp, Memory, Text};
use pt_grammar::deep::{Deep, Parameters};
use pt_grammar::{Mark, Sign, parameter_nodes};
use pt_lexer::TokenKind;
use pt_readers::Halt;
use pt_tree::NamedParameter;
use pt_wide::WideBinOp;

impl<'a> Reader<'a> {
    /// `lambda parameters: body` (Language Reference 6.14).
    #[cycle(reading)]
    pub(crate) fn lambda(&mut self, room: u32) -> Result<Deep, Halt>
        requires first { sign_at (next_of self.old.lexemes) ≡ Some (word_sign lambda_word) }
        requires some { 0 < room }
        requires few { room ≤ 500 }
        ensures { Settled (an_expr room) (λ e. exp_of e.tree) self.old.lexemes self.new.lexemes result }
    {
        if room == 1 {
            return Err(Halt::Limit);
        }
        let line = self.lexemes.line();
        self.lexemes.skip();
        let parameters = self.parameters(false, room - 1)?;
        self.lexemes.skip();
        let body = self.expr(room - 1)?;
        Ok(parameter_nodes::lambda(self.alloc, line, parameters, body)?)
    }

    /// The name that is next, if one is.
    fn next_name(&self) -> Result<Option<NamedParameter>, Memory>
        ensures { IfOk result (λ o. NameNext (next_of self.now.lexemes) o) }
    {
        let Some(token) = self.lexemes.peek() else {
            return Ok(None);
        };
        let line = token.line;
        match &token.kind {
            TokenKind::Name(text) => {
                let name = Text::from_str(self.alloc, text.as_str())?;
                Ok(Some(NamedParameter { line, name }))
            }
            _ => Ok(None),
        }
    }

    /// `: annotation`, if it is there and may be.
    #[cycle(reading)]
    fn annotation(&mut self, annotated: bool, room: u32) -> Result<Option<Deep>, Halt>
        requires some { 0 < room }
        requires few { room ≤ 500 }
        ensures { Settled (an_annotation annotated room) given_read self.old.lexemes self.new.lexemes result }
    {
        if !annotated {
            return Ok(None);
        }
        if !self.lexemes.take(Sign::Mark(Mark::Colon)) {
            return Ok(None);
        }
        let value = self.expr(room)?;
        Ok(Some(value))
    }

    /// A parameter that a named argument may reach, whose name is next.
    #[cycle(reading)]
    fn formal(
        &mut self,
        annotated: bool,
        parameters: Parameters,
        parameter: NamedParameter,
        room: u32,
    ) -> Result<Parameters, Halt>
        requires name { next_of self.old.lexemes ≡ Some (name_lexeme parameter.line.0 parameter.name) }
        requires held { Held room (gathered_read parameters) }
        requires some { 0 < room }
        requires few { room ≤ 500 }
        ensures value { Steps (next_parameters annotated room (gathered_read parameters)) (λ r. more_parameters annotated room (gathered_read r)) self.old.lexemes self.new.lexemes result }
        ensures held { IfOk result (λ r. Held room (gathered_read r)) }
        ensures shorter { IfOk result (λ r. length self.new.lexemes < length self.old.lexemes) }
    {
        if !parameters.takes_more() {
            return Err(Halt::Unexpected);
        }
        if parameters.count() >= MAX_ITEMS {
            return Err(Halt::Limit);
        }
        self.lexemes.skip();
        let annotation = self.annotation(annotated, room)?;
        if self.lexemes.take(Sign::Mark(Mark::Assign)) {
            let default = self.expr(room)?;
            return Ok(parameters.with_formal(parameter, annotation, Some(default))?);
        }
        if parameters.needs_default() {
            return Err(Halt::Unexpected);
        }
        Ok(parameters.with_formal(parameter, annotation, None)?)
    }

    /// `/` behind parameters.
    fn slash(&mut self, parameters: Parameters) -> Result<Parameters, Halt>
        requires slash { sign_at (next_of self.old.lexemes) ≡ Some (operator_sign (plain_operator divide)) }
        requires sound { Sound (gathered_read parameters) }
        ensures value { (b : Bool) → (d : ℕ) → Held d (gathered_read parameters) → Steps (next_parameters b d (gathered_read parameters)) (λ r. more_parameters b d (gathered_read r)) self.old.lexemes self.new.lexemes result }
        ensures held { IfOk result (λ r. (d : ℕ) → Held d (gathered_read parameters) → Held d (gathered_read r)) }
        ensures shorter { IfOk result (λ r. length self.new.lexemes < length self.old.lexemes) }
    {
        if !parameters.takes_slash() {
            return Err(Halt::Unexpected);
        }
        let line = self.lexemes.line();
        self.lexemes.skip();
        Ok(parameters.with_slash(self.alloc, line))
    }

    /// `*` behind parameters, alone or with a name.
    fn star(&mut self, parameters: Parameters) -> Result<Parameters, Halt>
        requires star { sign_at (next_of self.old.lexemes) ≡ Some (operator_sign (plain_operator multiply)) }
        requires few { count_params (params_of (gathered_read parameters)) ≤ 4096 }
        ensures value { (b : Bool) → (d : ℕ) → Held d (gathered_read parameters) → Steps (next_parameters b d (gathered_read parameters)) (λ r. more_parameters b d (gathered_read r)) self.old.lexemes self.new.lexemes result }
        ensures held { IfOk result (λ r. (d : ℕ) → Held d (gathered_read parameters) → Held d (gathered_read r)) }
        ensures shorter { IfOk result (λ r. length self.new.lexemes < length self.old.lexemes) }
    {
        if !parameters.takes_star() {
            return Err(Halt::Unexpected);
        }
        self.lexemes.skip();
        let Some(parameter) = self.next_name()? else {
            return Ok(parameters.with_bare_star());
        };
        if parameters.count() >= MAX_ITEMS {
            return Err(Halt::Limit);
        }
        self.lexemes.skip();
        Ok(parameters.with_star(parameter))
    }

    /// `**` and a name behind parameters.
    fn double_star(&mut self, parameters: Parameters) -> Result<Parameters, Halt>
        requires double_star { sign_at (next_of self.old.lexemes) ≡ Some (operator_sign (plain_operator power)) }
        requires few { count_params (params_of (gathered_read parameters)) ≤ 4096 }
        ensures value { (b : Bool) → (d : ℕ) → Held d (gathered_read parameters) → Steps (next_parameters b d (gathered_read parameters)) (λ r. more_parameters b d (gathered_read r)) self.old.lexemes self.new.lexemes result }
        ensures held { IfOk result (λ r. (d : ℕ) → Held d (gathered_read parameters) → Held d (gathered_read r)) }
        ensures shorter { IfOk result (λ r. length self.new.lexemes < length self.old.lexemes) }
    {
        if !parameters.takes_more() {
            return Err(Halt::Unexpected);
        }
        if parameters.count() >= MAX_ITEMS {
            return Err(Halt::Limit);
        }
        self.lexemes.skip();
        let Some(parameter) = self.next_name()? else {
            return Err(Halt::Unexpected);
        };
        self.lexemes.skip();
        Ok(parameters.with_double_star(parameter))
    }

    /// One more parameter behind these (Language Reference 8.7).
    #[cycle(reading)]
    fn parameter(
        &mut self,
        annotated: bool,
        parameters: Parameters,
        room: u32,
    ) -> Result<Parameters, Halt>
        requires more { ends_parameters_at annotated (next_of self.old.lexemes) ≡ false }
        requires held { Held room (gathered_read parameters) }
        requires some { 0 < room }
        requires few { room ≤ 500 }
        ensures value { Steps (next_parameters annotated room (gathered_read parameters)) (λ r. more_parameters annotated room (gathered_read r)) self.old.lexemes self.new.lexemes result }
        ensures held { IfOk result (λ r. Held room (gathered_read r)) }
        ensures shorter { IfOk result (λ r. length self.new.lexemes < length self.old.lexemes) }
    {
        if self
            .lexemes
            .is(Sign::Operator(WideBinOp::Plain(BinOp::Div)))
        {
            return self.slash(parameters);
        }
        if self
            .lexemes
            .is(Sign::Operator(WideBinOp::Plain(BinOp::Mul)))
        {
            return self.star(parameters);
        }
        if self
            .lexemes
            .is(Sign::Operator(WideBinOp::Plain(BinOp::Pow)))
        {
            return self.double_star(parameters);
        }
        let Some(parameter) = self.next_name()? else {
            return Err(Halt::Unexpected);
        };
        self.formal(annotated, parameters, parameter, room)
    }

    /// Parameters up to what closes them, which stays: `)` where annotations may stand, and `:` in a lambda.
    #[cycle(reading)]
    pub fn parameters(&mut self, annotated: bool, room: u32) -> Result<Parameters, Halt>
        requires some { 0 < room }
        requires few { room ≤ 500 }
        ensures { Settled (some_parameters annotated room) gathered_read self.old.lexemes self.new.lexemes result }
    {
        let mut parameters = Parameters::new(self.alloc);
        'more: while !self.lexemes.ends_parameters(annotated) {
            parameters = self.parameter(annotated, parameters, room)?;
            if self.lexemes.ends_parameters(annotated) {
                return Ok(parameters);
            }
            if !self.lexemes.take(Sign::Mark(Mark::Comma)) {
                return Err(Halt::Unexpected);
            }
        }
        Ok(parameters)
    }
}
