// The canonical text of programs.
ghost use Rattle.std.specs.Prelude.{◌≡◌, ◌++◌, OnOk, OnErr, string_bytes};
ghost use Rattle.std.specs.List.{flat_map};
ghost use Rattle.ap_syntax.specs.Pieces.{text_of};
ghost use Rattle.ap_syntax.specs.Canonical.{canonical_text, line_pieces, part_pieces, show_pieces, signature_pieces, statement_pieces};

use crate::printed_preferences::{push_kind, push_preference};
use crate::printed_rules::push_rule;
use crate::printed_terms::{push_spaced, push_term};
use crate::programs::{PartKind, Program, Statement};
use crate::text::Text;
use itoa::Buffer;
use std::alloc::AllocError;

/// Appends the canonical text of a program: one statement on each line, in order, each `#program` among them. Fails only
/// for want of memory, and then leaves `out` as it was.
pub fn print_program(program: &Program, out: &mut String) -> Result<(), AllocError>
    ensures text { OnOk result (string_bytes out.new ≡ string_bytes out.old ++ canonical_text program.now) }
    ensures kept { OnErr result (string_bytes out.new ≡ string_bytes out.old) }
{
    let mut text = String::new(*out.allocator());
    push_lines(program.statements.as_slice(), &mut text)?;
    out.push_str(text.as_str())
}

/// Appends a name and an arity.
fn push_signature(name: &Text, arity: u32, out: &mut String) -> Result<(), AllocError>
    ensures { OnOk result (string_bytes out.new ≡ string_bytes out.old ++ text_of (signature_pieces name.now arity)) }
{
    out.push_str(name.as_str())?;
    out.push_str("/")?;
    out.push_str(Buffer::new().format(arity))
}

/// Appends a `#show`.
fn push_show(signature: &Option<(Text, u32)>, out: &mut String) -> Result<(), AllocError>
    ensures { OnOk result (string_bytes out.new ≡ string_bytes out.old ++ text_of (show_pieces signature.now)) }
{
    match signature {
        None => out.push_str("#show."),
        Some((name, arity)) => {
            out.push_str("#show ")?;
            push_signature(name, *arity, out)?;
            out.push_str(".")
        }
    }
}

/// Appends a `#program`.
fn push_part(part: &PartKind, out: &mut String) -> Result<(), AllocError>
    ensures { OnOk result (string_bytes out.new ≡ string_bytes out.old ++ text_of (part_pieces part.now)) }
{
    match part {
        PartKind::Base => out.push_str("#program base."),
        PartKind::Kind(kind) => {
            out.push_str("#program preference(")?;
            push_kind(kind, out)?;
            out.push_str(").")
        }
    }
}

/// Appends a statement.
fn push_statement(statement: &Statement, out: &mut String) -> Result<(), AllocError>
    ensures { OnOk result (string_bytes out.new ≡ string_bytes out.old ++ text_of (statement_pieces statement.now)) }
{
    match statement {
        Statement::Rule(rule) => push_rule(rule, out),
        Statement::Const {
            file: _,
            at: _,
            name,
            value,
        } => {
            out.push_str("#const ")?;
            out.push_str(name.as_str())?;
            push_spaced("=", out)?;
            push_term(value, out)?;
            out.push_str(".")
        }
        Statement::Show(signature) => push_show(signature, out),
        Statement::Defined(name, arity) => {
            out.push_str("#defined ")?;
            push_signature(name, *arity, out)?;
            out.push_str(".")
        }
        Statement::Part {
            file: _,
            at: _,
            part,
        } => push_part(part, out),
        Statement::Preference(preference) => push_preference(preference, out),
        Statement::Optimize {
            file: _,
            at: _,
            name,
        } => {
            out.push_str("#optimize(")?;
            out.push_str(name.as_str())?;
            out.push_str(").")
        }
    }
}

/// Appends the lines of statements.
fn push_lines(statements: &[Statement], out: &mut String) -> Result<(), AllocError>
    ensures { OnOk result (string_bytes out.new ≡ string_bytes out.old
        ++ text_of (flat_map line_pieces statements.now)) }
{
    for statement in statements {
        push_statement(statement, out)?;
        out.push_str("\n")?;
    }
    Ok(())
}
