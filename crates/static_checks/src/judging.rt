// The first fault of several programs.
ghost use Rattle.std.specs.Prelude.{◌≡◌, ◌==◌, ◌++◌, ◌∷◌, [], false, List, Some, Ok, map, IfOk, OnOk};
ghost use Rattle.ap_safety.specs.Answers.{IsCheckAnswer};
ghost use Rattle.static_checks.specs.Faults.{place as place_of, rank as rank_of};
ghost use Rattle.static_checks.specs.Judgements.{first_of, is_before, IsJudgement, IsOwnDomain, precedes};
ghost use Rattle.pred_graph.specs.Known.{IsSafe};
ghost use Rattle.static_checks.specs.Programs.{Judged, programs_of, type_program};

use ap_bindings::{Failing, earlier};
use ap_safety::{DomainFault, SafetyFault, check, domain};
use ap_syntax::{Preference, Rule};
use pred_graph::Safe;
use program_parts::{Parts, TypeProgram};
use sqlite_items::Items;
use std::alloc::{AllocError, Global};

/// What was found of the programs that were judged.
#[derive(Drop)]
pub(crate) struct Judgement {
    /// Their first fault.
    pub(crate) fault: Option<SafetyFault>,
    /// Where none has a fault, the first condition that is not definite.
    pub(crate) domain: Option<Failing<()>>,
    /// Where none has a fault, what is known of each.
    pub(crate) safes: Items<Safe>,
}

fn rank(fault: &SafetyFault) -> u8
    ensures { result ≡ rank_of fault.now }
{
    match fault {
        SafetyFault::Unsafe { .. } => 0,
        SafetyFault::AggregateRecursion { .. } => 1,
        SafetyFault::Recursion { .. } => 2,
        SafetyFault::Memory => 3,
    }
}

fn is_memory(fault: &SafetyFault) -> bool
    ensures { result ≡ (rank_of fault.now == 3) }
{
    rank(fault) == 3
}

fn file(fault: &SafetyFault) -> u32
    ensures { result ≡ (place_of fault.now).file }
{
    match fault {
        SafetyFault::Unsafe { file, .. } => *file,
        SafetyFault::AggregateRecursion { file, .. } => *file,
        SafetyFault::Recursion { file, .. } => *file,
        SafetyFault::Memory => 0,
    }
}

fn at(fault: &SafetyFault) -> u32
    ensures { result ≡ (place_of fault.now).at }
{
    match fault {
        SafetyFault::Unsafe { at, .. } => *at,
        SafetyFault::AggregateRecursion { at, .. } => *at,
        SafetyFault::Recursion { at, .. } => *at,
        SafetyFault::Memory => 0,
    }
}

fn is_before(one: &SafetyFault, other: &SafetyFault) -> bool
    ensures { result ≡ is_before (place_of one.now) (place_of other.now) }
{
    file(one) < file(other) || (file(one) == file(other) && at(one) < at(other))
}

fn precedes(one: &SafetyFault, other: &SafetyFault) -> bool
    ensures { result ≡ precedes one.now other.now }
{
    rank(one) < rank(other) || (rank(one) == rank(other) && is_before(one, other))
}

fn first_of(found: Option<SafetyFault>, other: SafetyFault) -> SafetyFault
    ensures { result ≡ first_of found other }
{
    match found {
        Some(fault) => {
            if precedes(&other, &fault) {
                other
            } else {
                fault
            }
        }
        None => other,
    }
}

/// The first condition of a program that is not definite, where the program has no fault and this is known of it.
fn own_domain(
    alloc: Global,
    rules: &[Rule],
    elements: &[Preference],
    safe: &Safe,
) -> Result<Option<Failing<()>>, AllocError>
    requires { IsSafe rules.now safe.now }
    ensures { IfOk result (IsOwnDomain (record { rules = rules.now; elements = elements.now; base = safe.now.base })) }
{
    match domain(alloc, rules, elements, safe) {
        Ok(()) => Ok(None),
        Err(DomainFault::NotDomain { file, at }) => Ok(Some(Failing { file, at, what: () })),
        Err(DomainFault::Memory) => Err(AllocError),
    }
}

impl Judgement {
    /// No program was judged.
    pub(crate) fn new(alloc: Global) -> Judgement
        ensures { IsJudgement [] result }
    {
        Judgement {
            fault: None,
            domain: None,
            safes: Items::new(alloc),
        }
    }

    /// A program has this fault, which is none of the program if it is want of memory.
    fn add_fault(&mut self, fault: SafetyFault) -> Result<(), AllocError>
        ensures first { OnOk result (self.new.fault ≡ Some (first_of self.old.fault fault)) }
        ensures told { OnOk result ((rank_of fault == 3) ≡ false) }
    {
        if is_memory(&fault) {
            return Err(AllocError);
        }
        let found = self.fault.take();
        self.fault = Some(first_of(found, fault));
        Ok(())
    }

    /// A program has no fault, and this is known of it.
    fn add_safe(
        &mut self,
        alloc: Global,
        rules: &[Rule],
        elements: &[Preference],
        safe: Safe,
    ) -> Result<(), AllocError>
        requires { IsCheckAnswer rules.now elements.now safe.base (Ok safe) }
        ensures { OnOk result ((js : List Judged) → IsJudgement js self.old → IsJudgement (js ++ record { rules = rules.now; elements = elements.now; base = safe.base } ∷ []) self.new) }
    {
        let own = own_domain(alloc, rules, elements, &safe)?;
        let found = self.domain.take();
        self.domain = earlier(found, own);
        self.safes.push(safe)
    }

    /// Judges a program more.
    fn add(
        &mut self,
        alloc: Global,
        rules: &[Rule],
        elements: &[Preference],
        base: bool,
    ) -> Result<(), AllocError>
        ensures { OnOk result ((js : List Judged) → IsJudgement js self.old → IsJudgement (js ++ record { rules = rules.now; elements = elements.now; base = base } ∷ []) self.new) }
    {
        match check(alloc, rules, elements, base) {
            Ok(safe) => self.add_safe(alloc, rules, elements, safe),
            Err(fault) => self.add_fault(fault),
        }
    }

    fn add_kinds(&mut self, alloc: Global, kinds: &[TypeProgram]) -> Result<(), AllocError>
        ensures { OnOk result ((js : List Judged) → IsJudgement js self.old → IsJudgement (js ++ map type_program kinds.now) self.new) }
    {
        for kind in kinds {
            self.add(alloc, kind.rules.as_slice(), &[], false)?;
        }
        Ok(())
    }
}

/// What is found of the base and of the program of each type.
pub(crate) fn judge_parts(alloc: Global, parts: &Parts) -> Result<Judgement, AllocError>
    ensures { IfOk result (IsJudgement (programs_of parts.now)) }
{
    let mut judgement = Judgement::new(alloc);
    judgement.add(
        alloc,
        parts.base.as_slice(),
        parts.preferences.as_slice(),
        true,
    )?;
    judgement.add_kinds(alloc, parts.kinds.as_slice())?;
    Ok(judgement)
}
