// The ground elements of all statements of a program.
ghost use Rattle.std.specs.Prelude.{◌≡◌, ◌<◌, length, slice_index_or, Contains, IfSome, IfNone, IfOk, IfErr};
ghost use Rattle.element_form.specs.declared.ground.GroundFormula.{GroundFormula};
ghost use Rattle.element_form.specs.declared.ground.GroundStatement.{GroundStatement};
ghost use Rattle.element_form.specs.Specs.{IsSpec, IsNumberAt, HasNoNumber};

use crate::ground::{FormulaId, GroundElement, GroundFormula, GroundStatement, StmtId};
use ap_syntax::Text;
use ap_term::TermId;
use std::marker::Model;

/// The ground elements of all statements of a program, and their formulas. Each number that is named is there, a formula
/// stands behind its parts, equal formulas have one number, and no two elements of a statement have the same place and
/// values.
#[derive(Debug, Drop)]
pub struct Spec {
    statements: Vec<GroundStatement>,
    formulas: Vec<GroundFormula>,
    ordered: Vec<FormulaId>,
    numbers: Vec<(TermId, i64)>,
}

impl Model for Spec {
    ghost use Rattle.element_form.specs.Specs.{IsSpec, Parts};

    ghost Value = { Parts };

    ghost view = { λ s. record { statements = s.statements.items; formulas = s.formulas.items; ordered = s.ordered.items; numbers = s.numbers.items } };

    ghost invariant = { λ s. IsSpec (record { statements = s.statements.items; formulas = s.formulas.items; ordered = s.ordered.items; numbers = s.numbers.items }) };
}

impl Spec {
    /// The spec of these statements, in the order of the texts; of these formulas, by number; of the numbers of all formulas, in
    /// the order of their terms; and of the weights that are integers, in the order of their numbers. It takes no memory.
    pub fn new(
        statements: Vec<GroundStatement>,
        formulas: Vec<GroundFormula>,
        ordered: Vec<FormulaId>,
        numbers: Vec<(TermId, i64)>,
    ) -> Spec
        requires { IsSpec (record { statements = statements.items; formulas = formulas.items; ordered = ordered.items; numbers = numbers.items }) }
        ensures { result ≡ record { statements = statements.items; formulas = formulas.items; ordered = ordered.items; numbers = numbers.items } }
    {
        Spec {
            statements,
            formulas,
            ordered,
            numbers,
        }
    }

    /// The statements, by number.
    pub fn statements(&self) -> &[GroundStatement]
        ensures value { result.now ≡ self.now.statements }
        ensures spec { IsSpec self.now }
    {
        self.statements.as_slice()
    }

    /// The formulas, by number.
    pub fn table(&self) -> &[GroundFormula]
        ensures value { result.now ≡ self.now.formulas }
        ensures spec { IsSpec self.now }
    {
        self.formulas.as_slice()
    }

    /// The numbers of all formulas and of their parts, each once, in the order of their terms.
    pub fn formulas(&self) -> &[FormulaId]
        ensures value { result.now ≡ self.now.ordered }
        ensures spec { IsSpec self.now }
    {
        self.ordered.as_slice()
    }

    /// The type of a statement, as it is written: `subset` or `less(weight)`.
    pub fn kind(&self, s: StmtId) -> &Text
        requires { s.0 < length self.now.statements }
        ensures { (d : GroundStatement) → result.now ≡ (slice_index_or self.now.statements s.0 d).kind }
    {
        &self.statements[s.0 as usize].kind
    }

    /// The ground elements of a statement, in ascending order.
    pub fn elements(&self, s: StmtId) -> &[GroundElement]
        requires { s.0 < length self.now.statements }
        ensures { (d : GroundStatement) → result.now ≡ (slice_index_or self.now.statements s.0 d).elements }
    {
        self.statements[s.0 as usize].elements.as_slice()
    }

    /// The formula of a number.
    pub fn formula(&self, f: FormulaId) -> &GroundFormula
        requires { f.0 < length self.now.formulas }
        ensures { (d : GroundFormula) → result.now ≡ slice_index_or self.now.formulas f.0 d }
    {
        &self.formulas[f.0 as usize]
    }

    /// The integer that a weight is. None exactly where it is no integer weight of this spec. It looks by halving.
    pub fn number(&self, w: TermId) -> Option<i64>
        ensures found { IfSome result (λ n. Contains self.now.numbers (w, n)) }
        ensures none { IfNone result (HasNoNumber self.now.numbers w) }
    {
        match self.place_of(w) {
            Ok(place) => Some(self.numbers[place].1),
            Err(_) => None,
        }
    }

    // Where the integer of a weight is kept.
    fn place_of(&self, w: TermId) -> Result<usize, usize>
        ensures found { IfOk result (IsNumberAt self.now.numbers w) }
        ensures absent { IfErr result (λ gap. HasNoNumber self.now.numbers w) }
    {
        self.numbers.binary_search_by_key(&w, |entry| entry.0)
    }
}
