//! A law of reading: the bound of its turns decides nothing.
ghost use Rattle.std.specs.Prelude.{◌≡◌, ◌≤◌, ℕ, List, length};
ghost use Rattle.s7_base.specs.declared.blocks.CodeKind.{CodeKind};
ghost use Rattle.stl_lex.specs.declared.token.Token.{Token};
ghost use Rattle.stl_decl.specs.Layout.{Section};
ghost use Rattle.stl_reader.specs.Reading.{parts_in, parts_at};

/// The bound of the turns decides nothing. A body is read in at most as many turns as there are tokens; with any more
/// turns the same body is read, or the same fault is found.
pub fn more_turns_read_the_same()
    ensures { (turns : ℕ) (text : List ℕ) (kind : CodeKind) (temps : Section) (tokens : List Token) → length tokens ≤ turns → parts_in turns text kind temps tokens ≡ parts_at text kind temps tokens }
{}
