// The static conditions.
ghost use Rattle.std.specs.Prelude.{◌≡◌, IfOk};
ghost use Rattle.ap_bindings.specs.Texts.{NoneFails};
ghost use Rattle.ap_safety.specs.Conditions.{HasAggregateFault};
ghost use Rattle.ap_safety.specs.Judged.{IsRecursionAnswer};
ghost use Rattle.ap_safety.specs.Answers.{IsCheckAnswer, IsDomainAnswer};
ghost use Rattle.pred_graph.specs.Known.{IsSafe};

use crate::conditions::RuleFault;
use crate::domains::first_indefinite;
use crate::fault::{DomainFault, SafetyFault};
use crate::faults::first_fault;
use ap_bindings::unsafe_in;
use ap_syntax::{Preference, Rule};
use pred_graph::{Safe, judge};
use std::alloc::Global;

/// Checks that no rule goes through its own head, where no aggregate does.
fn check_heads(alloc: Global, rules: &[Rule], safe: Safe) -> Result<Safe, SafetyFault>
    requires known { IsSafe rules.now safe }
    requires aggregates { NoneFails (HasAggregateFault safe.base rules.now) rules.now }
    ensures answer { IsRecursionAnswer rules.now safe.base result }
    ensures same { IfOk result (λ told. told ≡ safe) }
{
    let Ok(recursion) = first_fault(alloc, RuleFault::Recursion, &safe, rules) else {
        return Err(SafetyFault::Memory);
    };
    match recursion {
        Some(found) => Err(SafetyFault::Recursion {
            file: found.file,
            at: found.at,
        }),
        None => Ok(safe),
    }
}

/// Checks that no rule goes through its own head in a way that its program may not.
fn check_recursion(alloc: Global, rules: &[Rule], safe: Safe) -> Result<Safe, SafetyFault>
    requires known { IsSafe rules.now safe }
    ensures answer { IsRecursionAnswer rules.now safe.base result }
    ensures same { IfOk result (λ told. told ≡ safe) }
{
    let Ok(aggregate) = first_fault(alloc, RuleFault::Aggregate, &safe, rules) else {
        return Err(SafetyFault::Memory);
    };
    match aggregate {
        Some(found) => Err(SafetyFault::AggregateRecursion {
            file: found.file,
            at: found.at,
        }),
        None => check_heads(alloc, rules, safe),
    }
}

/// Checks that all variables are bound, and that no rule goes through its own head in a way that its program may not.
/// `base` tells whether the rules are those of a base program or those of a type's program. The faults come in this order, each
/// of them for the first rule or element in the texts: `Unsafe`, `AggregateRecursion`, `Recursion`. `Memory` may come at any time;
/// it is told too where the rules have an atom of 2^32 arguments or more.
pub fn check(
    alloc: Global,
    rules: &[Rule],
    elements: &[Preference],
    base: bool,
) -> Result<Safe, SafetyFault>
    ensures { IsCheckAnswer rules.now elements.now base result }
{
    let Ok(safe) = judge(alloc, rules, base) else {
        return Err(SafetyFault::Memory);
    };
    let Ok(unbound) = unsafe_in(alloc, rules, elements, &safe) else {
        return Err(SafetyFault::Memory);
    };
    match unbound {
        Some(found) => Err(SafetyFault::Unsafe {
            file: found.file,
            at: found.at,
            variable: found.what,
        }),
        None => check_recursion(alloc, rules, safe),
    }
}

/// Checks that the conditions of conditional literals and the `:` parts of elements have definite predicates only, for `safe` as
/// `check` answered it for these rules. `NotDomain` names the first in the texts that has another.
pub fn domain(
    alloc: Global,
    rules: &[Rule],
    elements: &[Preference],
    safe: &Safe,
) -> Result<(), DomainFault>
    requires known { IsSafe rules.now safe.now }
    ensures { IsDomainAnswer rules.now elements.now safe.now.base result }
{
    let Ok(indefinite) = first_indefinite(alloc, safe, rules, elements) else {
        return Err(DomainFault::Memory);
    };
    match indefinite {
        Some(found) => Err(DomainFault::NotDomain {
            file: found.file,
            at: found.at,
        }),
        None => Ok(()),
    }
}
