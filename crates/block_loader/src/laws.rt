//! A law of the loops of reading.
ghost use Rattle.std.specs.Prelude.{ℕ, List, length};
ghost use Rattle.stl_lex.specs.declared.token.Token.{Token};
ghost use Rattle.stl_decl.specs.Repeat.{IsSameAbove};
ghost use Rattle.block_loader.specs.Heads.{heads_at};
ghost use Rattle.block_loader.specs.Fronts.{front_at};
ghost use Rattle.block_loader.specs.Blocks.{blocks_in};

/// The bounds of the loops are never met: with any number of turns above that of the tokens the heads of a block, a block
/// up to its statements and all blocks of a source are read the same, value or fault. Each turn that goes on takes a
/// token.
pub fn more_turns_read_the_same()
    ensures heads { (text : List ℕ) (tokens : List Token) → IsSameAbove (length tokens) (λ turns. heads_at turns text tokens) }
    ensures front { (text : List ℕ) (tokens : List Token) → IsSameAbove (length tokens) (λ turns. front_at turns text tokens) }
    ensures blocks { (text : List ℕ) (tokens : List Token) → IsSameAbove (length tokens) (λ turns. blocks_in turns text tokens) }
{}
