//! A rule as far as it is compiled.
ghost use Rattle.std.specs.Prelude.{◌≡◌, ◌+◌, List, [], ◌∷◌, ◌++◌, length, take, IfOk, OnOk};
ghost use Rattle.ap_term.specs.Value.{Value};
ghost use Rattle.rule_joins.specs.Drafts.{IsDraft, IsPlacedIn};

use crate::variables::{copied, place_in, put_in};
use ap_term::Text;
use indexmap::IndexMap;
use join_form::Step;
use sqlite_items::Items;
use std::alloc::{AllocError, Global};
use std::marker::Model;
use std::mem;

/// How far a draft is: how many variables and how many places it has.
#[derive(Clone, Copy, Debug)]
pub struct Mark {
    /// How many variables.
    pub variables: usize,
    /// How many places.
    pub places: u32,
}

/// A rule as far as it is compiled: its variables with their places, how many places there are, and the steps. Places are numbered
/// from 0.
#[derive(Drop)]
pub struct Draft {
    // Each variable by its name, with its place.
    variables: IndexMap<Text, u32>,
    places: u32,
    steps: Items<Step>,
}

impl Model for Draft {
    ghost use Rattle.std.specs.Prelude.{ℕ, List, refl};
    ghost use Rattle.std.specs.Coded.{code_by, coded×, coded_ℕ, coded_list};
    ghost use Rattle.join_form.specs.declared.step.Step.{Step as Taken};
    ghost use Rattle.join_form.specs.contracts.step.Step.{the_row};
    ghost use Rattle.rule_joins.specs.Drafts.{Drafted};

    ghost Value = { Drafted };

    ghost coded = { code_by (List (List ℕ × ℕ) × (ℕ × List Taken)) (coded× (coded_list (coded× (coded_list coded_ℕ) coded_ℕ)) (coded× coded_ℕ (coded_list the_row.coded))) (λ d. (d.variables, (d.places, d.steps))) (λ p. record { variables = p.0; places = p.1.0; steps = p.1.1 }) (λ _. refl) };

    ghost view = { λ d. record { variables = d.variables.entries; places = d.places; steps = d.steps } };
}

impl Draft {
    /// Without variables, places and steps.
    pub fn new(alloc: Global) -> Draft
        ensures draft { result ≡ record { variables = []; places = 0; steps = [] } }
        ensures over { (table : List Value) → IsDraft table result }
    {
        Draft {
            variables: IndexMap::new(alloc),
            places: 0,
            steps: Items::new(alloc),
        }
    }

    /// A new place. It fails where there is no number for it: after 4,294,967,295 places.
    pub fn new_place(&mut self) -> Result<u32, AllocError>
        ensures place { IfOk result (λ place. place ≡ self.old.places) }
        ensures draft { OnOk result (self.new ≡ record self.old { places = self.old.places + 1 }) }
    {
        let place = self.places;
        let Some(next) = place.checked_add(1) else {
            return Err(AllocError);
        };
        self.places = next;
        Ok(place)
    }

    /// The place of the variable of this name, which gets a new one where it has none. It fails for want of memory, and where
    /// `new_place` fails.
    pub fn place_of(&mut self, alloc: Global, name: &str) -> Result<u32, AllocError>
        ensures { IfOk result (λ place. IsPlacedIn self.old name.now place self.new) }
    {
        let name = Text::new(alloc, name)?;
        if let Some(place) = place_in(&self.variables, &name) {
            return Ok(place);
        }
        let place = self.places;
        let Some(next) = place.checked_add(1) else {
            return Err(AllocError);
        };
        put_in(&mut self.variables, name, place)?;
        self.places = next;
        Ok(place)
    }

    /// Puts a step behind the others.
    pub fn push(&mut self, step: Step) -> Result<(), AllocError>
        ensures { OnOk result (self.new ≡ record self.old { steps = self.old.steps ++ step ∷ [] }) }
    {
        self.steps.push(step)
    }

    /// How many places there are.
    pub fn places(&self) -> u32
        ensures { result ≡ self.now.places }
    {
        self.places
    }

    /// The variables by their names, each with its place, in the order in which they came.
    pub fn variables(&self, alloc: Global) -> Result<Items<(Text, u32)>, AllocError>
        ensures { IfOk result (λ variables. variables ≡ self.now.variables) }
    {
        copied(alloc, &self.variables)
    }

    /// The steps, which are taken out.
    pub fn take_steps(&mut self, alloc: Global) -> Items<Step>
        ensures steps { result ≡ self.old.steps }
        ensures draft { self.new ≡ record self.old { steps = [] } }
    {
        mem::replace(&mut self.steps, Items::new(alloc))
    }

    /// How far the draft is, so that it can go back.
    pub fn mark(&self) -> Mark
        ensures variables { result.variables ≡ length self.now.variables }
        ensures places { result.places ≡ self.now.places }
    {
        Mark {
            variables: self.variables.len(),
            places: self.places,
        }
    }

    /// Goes back to where the draft had fewer variables and places. The steps are taken out.
    pub fn back_to(&mut self, alloc: Global, mark: &Mark) -> Items<Step>
        ensures steps { result ≡ self.old.steps }
        ensures draft { self.new ≡ record { variables = take mark.now.variables self.old.variables; places = mark.now.places; steps = [] } }
    {
        self.variables.truncate(mark.variables);
        self.places = mark.places;
        self.take_steps(alloc)
    }
}
