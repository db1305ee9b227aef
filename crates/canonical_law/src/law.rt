// The law.
ghost use Rattle.std.specs.Prelude.{◌≡◌, ◌≢◌, ℕ, Bool, Err, List, Ok, map};
ghost use Rattle.ap_lexemes.specs.declared.fault.ParseFault.{ParseFault};
ghost use Rattle.ap_lexemes.specs.declared.fault.ParseFault.TheVariants.{Memory};
ghost use Rattle.ap_parse.specs.Texts.{IsReading};
ghost use Rattle.ap_syntax.specs.Canonical.{canonical_text};
ghost use Rattle.ap_syntax.specs.declared.programs.PartKind.{PartKind};
ghost use Rattle.ap_syntax.specs.declared.programs.Program.{Program};
ghost use Rattle.canonical_law.specs.ReadsBack.{ReadsBack};
ghost use Rattle.canonical_law.specs.Unplaced.{unplaced};

/// The law of the canonical text, with no code. The canonical text of a program that was read is a text of the grammar,
/// for the same statements but for their places, is UTF-8, and goes beyond no limit of nesting, arity or formulas. So it
/// is read as these statements: in a file, as well as in the part in which a text without preference statements was
/// read. Programs that differ in places alone have one canonical text, so the canonical text of what is read of it is
/// itself.
pub fn canonical_text_reads_back()
    ensures reads_back { (whole : Bool) (part : PartKind) (bytes : List ℕ) (file : ℕ) (p : Program)
        → IsReading whole part bytes file (Ok p)
        → (other : ℕ) → ReadsBack whole part p other }
    // So whatever is read of the canonical text is that program, and it is never refused.
    ensures again { (whole : Bool) (part : PartKind) (bytes : List ℕ) (file : ℕ) (p q : Program)
        → IsReading whole part bytes file (Ok p)
        → (other : ℕ) → IsReading whole part (canonical_text p) other (Ok q)
        → map unplaced q.statements ≡ map unplaced p.statements }
    ensures accepted { (whole : Bool) (part : PartKind) (bytes : List ℕ) (file : ℕ) (p : Program) (fault : ParseFault)
        → IsReading whole part bytes file (Ok p)
        → (other : ℕ) → IsReading whole part (canonical_text p) other (Err fault)
        → fault ≡ Memory }
    ensures one_text { (p q : Program)
        → map unplaced p.statements ≡ map unplaced q.statements
        → canonical_text p ≡ canonical_text q }
    // Programs that no text comes to may differ and have one canonical text.
    ensures others { (p q : Program)
        × (map unplaced p.statements ≢ map unplaced q.statements)
        × (canonical_text p ≡ canonical_text q) }
{}
