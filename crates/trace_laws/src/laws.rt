//! What the text of a run tells.
ghost use Rattle.s7_base.specs.Blocks.{Program};
ghost use Rattle.std.specs.Prelude.{◌≡◌, ◌↔◌, IsTrue};
ghost use Rattle.trace_laws.specs.Determines.{Run, TextDetermines, TextAloneDetermines, AreOfOneRun};

/// The text of a run determines its record, its showings and its end: two runs of one program with one text, each
/// under a script of its own, have the same record, the same showings and the same end. The text has its record: its mode
/// is `Solo` or `Pair`.
#[tactic(auto, using(crate::proofs::Whole::text_determines))]
pub fn text_determines()
    ensures { (program : Program) (first second : Run) → TextDetermines program first second }
{}

/// The same of runs of two programs, each with its own, where the requests in both records lie in the ranges of their
/// types: so the text alone, without the program, tells the run.
#[tactic(auto, using(crate::proofs::Whole::text_alone_determines))]
pub fn text_alone_determines()
    ensures { (program other : Program) (first second : Run) → TextAloneDetermines program other first second }
{}

/// Whether two texts are those of one run: it compares their bytes, since a text determines its run. Where they are equal
/// and are the texts of two runs of one program, the records, the showings and the ends are the same.
pub fn is_same_text(first: &[u8], second: &[u8]) -> bool
    ensures equal { IsTrue result ↔ (first.now ≡ second.now) }
    ensures same { IsTrue result → (program : Program) (one two : Run) → AreOfOneRun program one two first.now second.now }
{
    first == second
}
