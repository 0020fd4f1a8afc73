//! A law of the definitions.
ghost use Rattle.statement_effects.specs.Statements.{StatementsMean};

/// Each statement of the language means an instruction, so that in a program no statement is passed over.
pub fn statements_mean_instructions()
    ensures { StatementsMean }
{}
