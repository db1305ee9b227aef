// The first statement with a wrong name.
ghost use Rattle.std.specs.Prelude.{◌≡◌, not, IfOk, OnOk};
ghost use Rattle.std.specs.List.{list_any};
ghost use Rattle.pref_bind.specs.Before.{Declares, IsDeclaredIn, Precedes};
ghost use Rattle.pref_bind.specs.Causes.{first_misnamed as first_of_all, is_built_in as is_built_in_type, is_type as is_known_type, misnamed_by, optimize_cause, part_cause, placed, preference_cause, when};
ghost use Rattle.pref_bind.specs.Named.{is_named};

use crate::cause::Cause;
use crate::graph::names_in;
use crate::names::Names;
use ap_syntax::{PartKind, Preference, Statement, Text};
use pref_kinds::kind_of;
use std::alloc::{AllocError, Global};

/// A statement with a wrong name.
#[derive(Clone, Copy, Debug, PartialEq, Eq)]
pub struct WrongName {
    /// The number of its file.
    pub file: u32,
    /// The byte of the text at which it begins.
    pub at: u32,
    /// What is wrong.
    pub cause: Cause,
}

/// What all statements declare.
#[derive(Drop)]
pub(crate) struct Declared {
    /// The names of the preference statements.
    pub(crate) names: Names,
    /// The types with a part.
    pub(crate) parts: Names,
}

/// What stands before a statement.
#[derive(Drop)]
pub(crate) struct Before {
    /// The names of the preference statements.
    pub(crate) names: Names,
    /// The names of the constants.
    pub(crate) constants: Names,
    /// Whether there is an `#optimize`.
    pub(crate) optimised: bool,
}

fn declare(alloc: Global, declared: &mut Declared, statement: &Statement) -> Result<(), AllocError>
    ensures { OnOk result (Declares declared.old declared.new statement.now) }
{
    match statement {
        Statement::Preference(preference) => declared.names.insert(alloc, &preference.name),
        Statement::Part {
            part: PartKind::Kind(kind),
            ..
        } => declared.parts.insert(alloc, kind),
        _ => Ok(()),
    }
}

fn is_built_in(kind: &Text) -> bool
    ensures { result ≡ is_built_in_type kind.now }
{
    kind_of(kind.as_str()).is_some()
}

fn is_type(declared: &Declared, kind: &Text) -> bool
    ensures { result ≡ is_known_type (is_named declared.now.names) (is_named declared.now.parts) kind.now }
{
    is_built_in(kind) || declared.parts.contains(kind)
}

fn any_undeclared(declared: &Names, names: &[Text]) -> bool
    ensures { result ≡ list_any (λ name. not (is_named declared.now name)) names.now }
{
    names.iter().any(|name| !declared.contains(name))
}

fn when(is_so: bool, cause: Cause) -> Option<Cause>
    ensures { result ≡ when is_so cause }
{
    if is_so { Some(cause) } else { None }
}

fn preference_cause(
    alloc: Global,
    declared: &Declared,
    before: &Names,
    statement: &Preference,
) -> Result<Option<Cause>, AllocError>
    ensures { IfOk result (λ found. found ≡ preference_cause (is_named declared.now.names) (is_named declared.now.parts) (is_named before.now) statement.now) }
{
    if !is_type(declared, &statement.kind) {
        return Ok(Some(Cause::Type));
    }
    let names = names_in(alloc, statement)?;
    if any_undeclared(&declared.names, names.as_slice()) {
        return Ok(Some(Cause::Statement));
    }
    Ok(when(before.contains(&statement.name), Cause::Twice))
}

fn optimize_cause(declared: &Declared, before: bool, name: &Text) -> Option<Cause>
    ensures { result ≡ optimize_cause (is_named declared.now.names) (is_named declared.now.parts) before name.now }
{
    if !declared.names.contains(name) {
        return Some(Cause::Statement);
    }
    when(before, Cause::Optimize)
}

fn part_cause(part: &PartKind) -> Option<Cause>
    ensures { result ≡ part_cause part.now }
{
    match part {
        PartKind::Base => None,
        PartKind::Kind(kind) => when(is_built_in(kind), Cause::Reserved),
    }
}

fn placed(file: u32, at: u32, cause: Option<Cause>) -> Option<WrongName>
    ensures { result ≡ placed file at cause }
{
    match cause {
        Some(cause) => Some(WrongName { file, at, cause }),
        None => None,
    }
}

/// What is wrong with a statement, behind those before it.
fn misnamed(
    alloc: Global,
    declared: &Declared,
    before: &Before,
    statement: &Statement,
) -> Result<Option<WrongName>, AllocError>
    ensures { IfOk result (λ found. found ≡ misnamed_by (is_named declared.now.names) (is_named declared.now.parts) (is_named before.now.names) (is_named before.now.constants) before.now.optimised statement.now) }
{
    match statement {
        Statement::Preference(preference) => {
            let cause = preference_cause(alloc, declared, &before.names, preference)?;
            Ok(placed(preference.file, preference.at, cause))
        }
        Statement::Optimize { file, at, name } => {
            let cause = optimize_cause(declared, before.optimised, name);
            Ok(placed(*file, *at, cause))
        }
        Statement::Const { file, at, name, .. } => {
            let cause = when(before.constants.contains(name), Cause::Const);
            Ok(placed(*file, *at, cause))
        }
        Statement::Part { file, at, part } => Ok(placed(*file, *at, part_cause(part))),
        _ => Ok(None),
    }
}

/// Goes past a statement.
fn pass(alloc: Global, before: &mut Before, statement: &Statement) -> Result<(), AllocError>
    ensures { OnOk result (Precedes before.old before.new statement.now) }
{
    match statement {
        Statement::Preference(preference) => before.names.insert(alloc, &preference.name),
        Statement::Const { name, .. } => before.constants.insert(alloc, name),
        Statement::Optimize { .. } => {
            before.optimised = true;
            Ok(())
        }
        _ => Ok(()),
    }
}

/// What the statements declare.
fn declared_in(alloc: Global, statements: &[Statement]) -> Result<Declared, AllocError>
    ensures { IfOk result (IsDeclaredIn statements.now) }
{
    let mut declared = Declared {
        names: Names::new(alloc),
        parts: Names::new(alloc),
    };
    for statement in statements {
        declare(alloc, &mut declared, statement)?;
    }
    Ok(declared)
}

/// The first statement with a wrong name.
fn first_of(
    alloc: Global,
    declared: &Declared,
    statements: &[Statement],
) -> Result<Option<WrongName>, AllocError>
    requires { IsDeclaredIn statements.now declared.now }
    ensures { IfOk result (λ found. found ≡ first_of_all statements.now) }
{
    let mut before = Before {
        names: Names::new(alloc),
        constants: Names::new(alloc),
        optimised: false,
    };
    for statement in statements {
        let found = misnamed(alloc, declared, &before, statement)?;
        if found.is_some() {
            return Ok(found);
        }
        pass(alloc, &mut before, statement)?;
    }
    Ok(None)
}

/// The first statement with a wrong name.
pub(crate) fn first_misnamed(
    alloc: Global,
    statements: &[Statement],
) -> Result<Option<WrongName>, AllocError>
    ensures { IfOk result (λ found. found ≡ first_of_all statements.now) }
{
    let declared = declared_in(alloc, statements)?;
    first_of(alloc, &declared, statements)
}
