//! A law of the loops of reading.
ghost use Rattle.std.specs.Prelude.{ℕ, List, length};
ghost use Rattle.stl_lex.specs.declared.token.Token.{Token};
ghost use Rattle.stl_decl.specs.Places.{Place};
ghost use Rattle.stl_decl.specs.Layout.{Section};
ghost use Rattle.stl_decl.specs.Repeat.{IsSameAbove};
ghost use Rattle.stl_decl.specs.Initials.{initials_at};
ghost use Rattle.stl_decl.specs.Declarations.{declaration_at};
ghost use Rattle.stl_decl.specs.Sections.{section_at, temporaries_at, structure_at, assignments_at};
ghost use Rattle.stl_decl.specs.declared.grammar.SectionKind.{SectionKind};

/// The bounds of the loops are never met: with any number of turns above that of the tokens the reading is the same,
/// value or fault, since each turn that goes on takes a token. So a definition that has such a number means
/// turns without a bound.
pub fn more_turns_read_the_same()
    ensures initials { (text : List ℕ) (variable : Place) (tokens : List Token) → IsSameAbove (length tokens) (λ turns. initials_at turns text variable tokens) }
    ensures declaration { (text : List ℕ) (kind : SectionKind) (section : Section) (tokens : List Token) → IsSameAbove (length tokens) (λ turns. declaration_at turns text kind section tokens) }
    ensures section { (text : List ℕ) (kind : SectionKind) (section : Section) (tokens : List Token) → IsSameAbove (length tokens) (λ turns. section_at turns text kind section tokens) }
    ensures temporaries { (text : List ℕ) (tokens : List Token) → IsSameAbove (length tokens) (λ turns. temporaries_at turns text tokens) }
    ensures structure { (text : List ℕ) (tokens : List Token) → IsSameAbove (length tokens) (λ turns. structure_at turns text tokens) }
    ensures assignments { (text : List ℕ) (section : Section) (tokens : List Token) → IsSameAbove (length tokens) (λ turns. assignments_at turns text section tokens) }
{}
