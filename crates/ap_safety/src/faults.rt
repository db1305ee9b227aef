// The first rule that fails a condition.
ghost use Rattle.std.specs.Prelude.{◌≡◌, None, IfOk, ⊤};
ghost use Rattle.ap_bindings.specs.Texts.{IsFirstFailing};
ghost use Rattle.ap_safety.specs.Conditions.{rule_place};
ghost use Rattle.pred_graph.specs.Known.{IsSafe};
ghost use Rattle.ap_safety.specs.Tests.{rule_failing, first_rule, HasFault};

use crate::conditions::{RuleFault, has_fault};
use ap_bindings::{Failing, earlier};
use ap_syntax::Rule;
use pred_graph::Safe;
use std::alloc::{AllocError, Global};

fn failing(
    alloc: Global,
    fault: RuleFault,
    safe: &Safe,
    rule: &Rule,
) -> Result<Option<Failing<()>>, AllocError>
    ensures { IfOk result (λ found. found ≡ rule_failing fault safe.now rule.now) }
{
    if has_fault(alloc, fault, safe, rule)? {
        Ok(Some(Failing {
            file: rule.file,
            at: rule.at,
            what: (),
        }))
    } else {
        Ok(None)
    }
}

/// The first of the rules that fails the condition, for `safe` as it tells their components.
pub(crate) fn first_fault(
    alloc: Global,
    fault: RuleFault,
    safe: &Safe,
    rules: &[Rule],
) -> Result<Option<Failing<()>>, AllocError>
    requires { IsSafe rules.now safe.now }
    ensures { IfOk result (IsFirstFailing rule_place (HasFault fault safe.now.base rules.now) (λ rule told. ⊤) rules.now) }
{
    look_in_rules(alloc, fault, safe, rules)
}

fn look_in_rules(
    alloc: Global,
    fault: RuleFault,
    safe: &Safe,
    rules: &[Rule],
) -> Result<Option<Failing<()>>, AllocError>
    ensures { IfOk result (λ found. found ≡ first_rule fault safe.now None rules.now) }
{
    let mut found = None;
    for rule in rules {
        let own = failing(alloc, fault, safe, rule)?;
        found = earlier(found, own);
    }
    Ok(found)
}
