// Rules.
#![tactic(auto, using(literal_parse::proofs::Steps::no_memory))]

ghost use Rattle.std.specs.Prelude.{length, ◌≤◌};
ghost use Rattle.grammar.specs.Form.{◌⨾◌};
ghost use Rattle.grammar.specs.Form.Form.{Tok};
ghost use Rattle.ap_grammar.specs.Grammar.{Name as names};
ghost use Rattle.ap_grammar.specs.Factored.{call};
ghost use Rattle.ap_grammar.specs.declared.terminals.Terminal.TheVariants.{Dot, If};
ghost use Rattle.literal_parse.specs.Reads.{Reads};
ghost use Rattle.ap_parse.specs.Rules.{optional_body, IsConstraint, IsOptionalBody, IsRule, IsRuleOf};

use crate::bodies::read_body;
use crate::heads::{begins_head, read_head};
use ap_grammar::Terminal;
use ap_syntax::{BodyItem, HeadForm, Rule};
use literal_parse::{Cursor, Place, Stop, read_atom};
use sqlite_items::Items;
use std::alloc::Global;

// A body behind `:-`, or none.
fn read_optional_body(alloc: Global, tokens: &mut Cursor<'_>) -> Result<Items<BodyItem>, Stop>
    ensures read { Reads optional_body IsOptionalBody tokens.old tokens.new result }
    ensures shorter { length tokens.new ≤ length tokens.old }
{
    if tokens.eat(Terminal::If) {
        read_body(alloc, tokens)
    } else {
        Ok(Items::new(alloc))
    }
}

// What stands behind the head of a rule that begins at this place.
fn read_rest(
    alloc: Global,
    tokens: &mut Cursor<'_>,
    place: Place,
    head: HeadForm,
) -> Result<Rule, Stop>
    ensures read { Reads (optional_body ⨾ Tok Dot) (IsRuleOf place head) tokens.old tokens.new result }
    ensures shorter { length tokens.new ≤ length tokens.old }
{
    let body = read_optional_body(alloc, tokens)?;
    tokens.expect(Terminal::Dot)?;
    let Place { file, at } = place;
    Ok(Rule {
        file,
        at,
        head,
        body,
    })
}

// A rule without head: `:-`, its body and a dot.
fn read_constraint(alloc: Global, tokens: &mut Cursor<'_>) -> Result<Rule, Stop>
    ensures read { Reads (Tok If ⨾ call names.Body ⨾ Tok Dot) IsConstraint tokens.old tokens.new result }
    ensures shorter { length tokens.new ≤ length tokens.old }
{
    let Place { file, at } = tokens.place();
    if !tokens.eat(Terminal::If) {
        return Err(Stop::Syntax);
    }
    let body = read_body(alloc, tokens)?;
    tokens.expect(Terminal::Dot)?;
    Ok(Rule {
        file,
        at,
        head: HeadForm::Nothing,
        body,
    })
}

/// A rule. In a type's part its head is an atom.
///
/// `Syntax` comes where the next token goes on with no such rule; `Memory` for want of memory alone.
pub fn read_rule(alloc: Global, tokens: &mut Cursor<'_>, of_type: bool) -> Result<Rule, Stop>
    ensures read { Reads (call (names.Rule of_type)) IsRule tokens.old tokens.new result }
    ensures shorter { length tokens.new ≤ length tokens.old }
{
    let place = tokens.place();
    if of_type {
        let atom = read_atom(alloc, tokens)?;
        return read_rest(alloc, tokens, place, HeadForm::One(atom));
    }
    if !begins_head(tokens) {
        return read_constraint(alloc, tokens);
    }
    let head = read_head(alloc, tokens)?;
    read_rest(alloc, tokens, place, head)
}
