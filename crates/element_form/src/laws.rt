// Laws over the definitions. The functions do nothing.
ghost use Rattle.std.specs.Prelude.{◌≡◌, ◌↔◌, ◌<◌, ℕ, Bool, List, length, slice_index_or, Contains, IsTrue};
ghost use Rattle.ap_term.specs.Value.{Value};
ghost use Rattle.components.specs.Graphs.{HasEdge, IsGraph, Reaches, AreComponentNumbers, number_of};
ghost use Rattle.element_form.specs.declared.ground.GroundFormula.{GroundFormula};
ghost use Rattle.element_form.specs.Closures.{Leads, IsAmong, IsGraphOf, IsWalk};
ghost use Rattle.element_form.specs.Elements.{IsElementOf};
ghost use Rattle.element_form.specs.Flips.{IsPath};
ghost use Rattle.element_form.specs.Formulas.{satisfied_by};
ghost use Rattle.element_form.specs.Greater.{IsGreater};
ghost use Rattle.element_form.specs.Ground.{Ground, Statement};
ghost use Rattle.element_form.specs.Preferences.{Element, Preference};
ghost use Rattle.element_form.specs.Safety.{HaveNames};
ghost use Rattle.element_form.specs.Shapes.{HaveNoInterval, OfElement};
ghost use Rattle.element_form.specs.Specs.{IsTermOf, IsTruthOf, TellAtoms};
ghost use Rattle.element_form.specs.States.{IsStateOf, state_of};
ghost use Rattle.rule_form.specs.Possible.{Setting, IsCertain};

/// Where no `_` and no interval stands outside the `:` parts of a statement, a ground element is given by its place and its
/// values.
pub fn elements_have_keys()
    ensures { (setting : Setting) (p : Preference) →
        ((e : Element) → Contains p.elements e → OfElement HaveNoInterval e × OfElement HaveNames e) →
        (g h : Ground) → IsElementOf (IsCertain setting) p g → IsElementOf (IsCertain setting) p h →
        g.place ≡ h.place → g.values ≡ h.values → g ≡ h }
{}

/// A formula of a table of formulas is true where its term is.
pub fn tables_tell_truth()
    ensures { (values : List Value) (formulas : List GroundFormula) (x : ℕ → Bool) (atoms : Value → Bool) →
        TellAtoms values formulas x atoms → (f : ℕ) (v : Value) → IsTermOf values formulas f v →
        IsTruthOf formulas x f (satisfied_by atoms v) }
{}

/// Each set has just one state.
pub fn sets_have_one_state()
    ensures there { (st : Statement) (sat : Value → Bool) → IsStateOf st sat (state_of st sat) }
    ensures one { (st : Statement) (sat : Value → Bool) (u : Value) → IsStateOf st sat u → u ≡ state_of st sat }
{}

/// There are tests of what is greater in a statement, and of its paths.
pub fn closures_have_tests()
    ensures greater { (st : Statement) → (test : Value → Value → Bool) × ((f g : Value) → IsTrue (test f g) ↔ IsGreater st f g) }
    ensures path { (st : Statement) → (test : Value → Value → Bool) × ((u v : Value) → IsTrue (test u v) ↔ IsPath st u v) }
{}

/// A walk from a value over steps between finitely many values marks just what one or more steps lead to. Where the steps are
/// the edges of a graph, one or more steps lead from the one to the other where an edge and a walk do, and back to itself
/// where an edge leads into the same component.
pub fn walks_find_all()
    ensures marks { (test : Value → Value → Bool) (values : List Value) → IsAmong values (λ a b. IsTrue (test a b)) →
        (a : Value) (marked : Value → Bool) → IsWalk (λ a b. IsTrue (test a b)) a marked →
        (b : Value) → IsTrue (marked b) ↔ Leads (λ a b. IsTrue (test a b)) a b }
    ensures edges { (test : Value → Value → Bool) (values : List Value) (graph : List (List ℕ)) →
        IsGraphOf (λ a b. IsTrue (test a b)) values graph → IsAmong values (λ a b. IsTrue (test a b)) → IsGraph graph →
        (d : Value) (i j : ℕ) → i < length values → j < length values →
        Leads (λ a b. IsTrue (test a b)) (slice_index_or values i d) (slice_index_or values j d) ↔
        ((k : ℕ) × HasEdge graph i k × Reaches graph k j) }
    ensures cycles { (test : Value → Value → Bool) (values : List Value) (graph : List (List ℕ)) →
        IsGraphOf (λ a b. IsTrue (test a b)) values graph → IsAmong values (λ a b. IsTrue (test a b)) → IsGraph graph →
        (d : Value) (numbers : List ℕ) → AreComponentNumbers graph numbers → (i : ℕ) → i < length values →
        Leads (λ a b. IsTrue (test a b)) (slice_index_or values i d) (slice_index_or values i d) ↔
        ((k : ℕ) × HasEdge graph i k × (number_of numbers i ≡ number_of numbers k)) }
{}
