//! What a made script and a made source are read as.
ghost use Rattle.std.specs.Prelude.{ℕ};
ghost use Rattle.workload_laws.specs.MadeScripts.{HasItsLines, HasItsWords, HasItsNumbers, MadeScriptsAreAccepted};
ghost use Rattle.workload_laws.specs.MadeSources.{MadeSourcesAreAccepted};
ghost use Rattle.workload_laws.specs.Forms.{HaveTheirForms};

/// A made script of at most 100,000 moments has the lines that it was made of.
#[tactic(auto, using(crate::proofs::Lines::script_is_lines))]
pub fn made_scripts_have_their_lines()
    ensures { (n : ℕ) → HasItsLines n }
{}

/// The lines of a moment, and the last line, have their words.
#[tactic(auto, using(crate::proofs::Words::lines_have_words))]
pub fn made_lines_have_their_words()
    ensures { (m : ℕ) → HasItsWords m }
{}

/// The numbers in these lines are read as what was written.
#[tactic(auto, using(crate::proofs::Words::numbers_are_read))]
pub fn made_numbers_are_read()
    ensures { (n : ℕ) → HasItsNumbers n }
{}

/// The words of each kind of line have the form that says what was meant.
#[tactic(auto, using(crate::proofs::Forms::lines_have_forms))]
pub fn made_lines_have_their_forms()
    ensures { (number : ℕ) → HaveTheirForms number }
{}

/// A made script, for each n that the maker takes, is read without fault, as the plan that was meant: its modules, what
/// happens, and its end.
pub fn made_scripts_are_accepted()
    ensures { MadeScriptsAreAccepted }
{}

/// A made source, for each n that the maker takes, is loaded without fault, as the program that was meant: OB1, OB40 and a
/// function for each full thousand of moments, each with its statements.
pub fn made_sources_are_accepted()
    ensures { MadeSourcesAreAccepted }
{}
