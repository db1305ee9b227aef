// Rules from rows.
ghost use Rattle.std.specs.Prelude.{◌≡◌, ◌++◌, map, IfOk, OnOk, Some};
ghost use Rattle.pref_library.specs.Programs as programs;
ghost use Rattle.pref_library.specs.Programs.{read_statement};
ghost use Rattle.pref_library.specs.Rows as spec;
ghost use Rattle.pref_library.specs.Rows.{rule_row, rows_rules};
ghost use Rattle.rule_form.specs.Readings.{read_term, read_atom, read_literal, read_element, read_item, read_rule};

use crate::rows::{AtomRow, ElementRow, ItemRow, LiteralRow, RuleRow, TermRow};
use crate::table::rows_of;
use ap_syntax::{
    AggElement, Atom, BodyItem, Function, Guard, HeadForm, Literal, Program, Rel, Rule, Statement,
    Statements, Term, Text,
};
use pref_kinds::BuiltIn;
use sqlite_items::{Boxed, Items};
use std::alloc::{AllocError, Global};

// `name(variable)`
fn applied(alloc: Global, name: &str, variable: &str) -> Result<Term, AllocError>
    ensures { IfOk result (λ t. read_term t ≡ spec.applied name.now variable.now) }
{
    let mut parts = Vec::new(alloc);
    parts.push(Term::Var(Text::new(alloc, variable)?))?;
    Ok(Term::Fun(
        Text::new(alloc, name)?,
        Boxed::new(alloc, Items::from_vec(parts))?,
    ))
}

fn term(alloc: Global, row: TermRow) -> Result<Term, AllocError>
    ensures { IfOk result (λ t. read_term t ≡ spec.term_row row) }
{
    match row {
        TermRow::Var(name) => Ok(Term::Var(Text::new(alloc, name)?)),
        TermRow::Any => Ok(Term::Any),
        TermRow::Name(name) => Ok(Term::Const(Text::new(alloc, name)?)),
        TermRow::Number(number) => Ok(Term::Int(number)),
        TermRow::Apply(name, variable) => applied(alloc, name, variable),
        TermRow::MinusVar(name) => {
            let part = Term::Var(Text::new(alloc, name)?);
            Ok(Term::Minus(Boxed::new(alloc, part)?))
        }
        TermRow::MinusNumber(number) => { Ok(Term::Minus(Boxed::new(alloc, Term::Int(number))?)) }
    }
}

fn terms(alloc: Global, rows: &[TermRow]) -> Result<Items<Term>, AllocError>
    ensures { IfOk result (λ ts. map read_term ts ≡ map spec.term_row rows.now) }
{
    let mut terms = Vec::new(alloc);
    for row in rows {
        terms.push(term(alloc, *row)?)?;
    }
    Ok(Items::from_vec(terms))
}

fn atom(alloc: Global, row: AtomRow) -> Result<Atom, AllocError>
    ensures { IfOk result (λ a. read_atom a ≡ spec.atom_row row) }
{
    Ok(Atom {
        name: Text::new(alloc, row.name)?,
        terms: terms(alloc, row.terms)?,
    })
}

fn literal(alloc: Global, row: LiteralRow) -> Result<Literal, AllocError>
    ensures { IfOk result (λ l. read_literal l ≡ spec.literal_row row) }
{
    match row {
        LiteralRow::Yes(row) => Ok(Literal::Pos(atom(alloc, row)?)),
        LiteralRow::No(row) => Ok(Literal::Not(atom(alloc, row)?)),
        LiteralRow::Compare(left, rel, right) => {
            let left = Boxed::new(alloc, term(alloc, left)?)?;
            let right = Boxed::new(alloc, term(alloc, right)?)?;
            Ok(Literal::Compare(left, rel, right))
        }
    }
}

fn literals(alloc: Global, rows: &[LiteralRow]) -> Result<Items<Literal>, AllocError>
    ensures { IfOk result (λ ls. map read_literal ls ≡ map spec.literal_row rows.now) }
{
    let mut literals = Vec::new(alloc);
    for row in rows {
        literals.push(literal(alloc, *row)?)?;
    }
    Ok(Items::from_vec(literals))
}

fn element(alloc: Global, row: ElementRow) -> Result<AggElement, AllocError>
    ensures { IfOk result (λ e. read_element e ≡ spec.element_row row) }
{
    Ok(AggElement {
        terms: terms(alloc, row.terms)?,
        condition: literals(alloc, row.condition)?,
    })
}

fn elements(alloc: Global, rows: &[ElementRow]) -> Result<Items<AggElement>, AllocError>
    ensures { IfOk result (λ es. map read_element es ≡ map spec.element_row rows.now) }
{
    let mut elements = Vec::new(alloc);
    for row in rows {
        elements.push(element(alloc, *row)?)?;
    }
    Ok(Items::from_vec(elements))
}

fn sum(alloc: Global, number: i64, rel: Rel, rows: &[ElementRow]) -> Result<BodyItem, AllocError>
    ensures { IfOk result (λ i. read_item i ≡ spec.sum_row number rel rows.now) }
{
    let guard = Guard {
        rel,
        term: Term::Int(number),
    };
    Ok(BodyItem::Agg {
        negated: false,
        left: Some(Boxed::new(alloc, guard)?),
        function: Function::Sum,
        elements: Boxed::new(alloc, elements(alloc, rows)?)?,
        right: None,
    })
}

fn item(alloc: Global, row: ItemRow) -> Result<BodyItem, AllocError>
    ensures { IfOk result (λ i. read_item i ≡ spec.item_row row) }
{
    match row {
        ItemRow::Plain(row) => Ok(BodyItem::Plain(literal(alloc, row)?)),
        ItemRow::All(row, condition) => {
            let literal = Boxed::new(alloc, Literal::Pos(atom(alloc, row)?))?;
            Ok(BodyItem::All {
                at: 0,
                literal,
                condition: literals(alloc, condition)?,
            })
        }
        ItemRow::Sum(number, rel, rows) => sum(alloc, number, rel, rows),
    }
}

fn body(alloc: Global, rows: &[ItemRow]) -> Result<Items<BodyItem>, AllocError>
    ensures { IfOk result (λ is. map read_item is ≡ map spec.item_row rows.now) }
{
    let mut items = Vec::new(alloc);
    for row in rows {
        items.push(item(alloc, *row)?)?;
    }
    Ok(Items::from_vec(items))
}

fn rule(alloc: Global, row: RuleRow) -> Result<Rule, AllocError>
    ensures { IfOk result (λ r. read_rule r ≡ rule_row row) }
{
    Ok(Rule {
        file: 0,
        at: 0,
        head: HeadForm::One(atom(alloc, row.head)?),
        body: body(alloc, row.body)?,
    })
}

// Puts the rules of some rows behind the others.
fn push_rules(alloc: Global, rules: &mut Vec<Rule>, rows: &[RuleRow]) -> Result<(), AllocError>
    ensures { OnOk result (map read_rule rules.new.items ≡ map read_rule rules.old.items ++ map rule_row rows.now) }
{
    for row in rows {
        rules.push(rule(alloc, *row)?)?;
    }
    Ok(())
}

/// The rules of a type's program, in order. They belong to no file. The one error is want of memory.
pub fn rules_of(alloc: Global, kind: BuiltIn) -> Result<Vec<Rule>, AllocError>
    ensures { IfOk result (λ rules. map read_rule rules.items ≡ programs.rules_of kind) }
{
    let mut rules = Vec::new(alloc);
    for passage in rows_of(kind) {
        push_rules(alloc, &mut rules, passage.rules)?;
    }
    Ok(rules)
}

// Puts the rules of some rows behind the other statements.
fn push_statements(
    alloc: Global,
    statements: &mut Vec<Statement>,
    rows: &[RuleRow],
) -> Result<(), AllocError>
    ensures { OnOk result (map read_statement statements.new.items ≡ map read_statement statements.old.items ++ map (λ row. Some (rule_row row)) rows.now) }
{
    for row in rows {
        statements.push(Statement::Rule(rule(alloc, *row)?))?;
    }
    Ok(())
}

/// The program of a type: its rules as statements, in order. The one error is want of memory.
pub fn program_of(alloc: Global, kind: BuiltIn) -> Result<Program, AllocError>
    ensures { IfOk result (λ program. map read_statement program.statements ≡ map Some (programs.rules_of kind)) }
{
    let mut statements = Vec::new(alloc);
    for passage in rows_of(kind) {
        push_statements(alloc, &mut statements, passage.rules)?;
    }
    Ok(Program {
        statements: Statements::fitted(statements),
    })
}
