//! What the reader reads, by how the language is spelled.
ghost use Rattle.reader_laws.specs.Operands.{OperandsReadAreSpelled};
ghost use Rattle.reader_laws.specs.Statements.{StatementsReadAreSpelled, StatementsSpelledAreRead};
ghost use Rattle.reader_laws.specs.Spelled.{WordsSpelledAreFound, AddressesSpelledAreRead, LiteralsSpelledAreRead, LabelsSpelledAreRead, InstancesSpelledAreRead, SystemFunctionsSpelledAreRead, ComparisonsSpelledAreRead, DataAddressesSpelledAreRead, OperandsSpelledAreRead};
ghost use Rattle.reader_laws.specs.Pieces.{PartsAreTokens};
ghost use Rattle.reader_laws.specs.Types.{TypesReadAreSpelled, TypesSpelledAreRead};
ghost use Rattle.reader_laws.specs.Values.{ValuesReadAreSpelled, ValuesSpelledAreRead};
ghost use Rattle.reader_laws.specs.Declared.{DeclarationsReadAreSpelled, DeclarationsSpelledAreRead};
ghost use Rattle.reader_laws.specs.Sections.{SectionsReadAreSpelled, SectionsSpelledAreRead, TemporariesReadAreSpelled, TemporariesSpelledAreRead, StructuresReadAreSpelled, StructuresSpelledAreRead, AssignmentsReadAreSpelled, AssignmentsSpelledAreRead};
ghost use Rattle.reader_laws.specs.Heads.{HeadingsReadAreSpelled, HeadingsSpelledAreRead, HeadsReadAreSpelled, HeadsSpelledAreRead};
ghost use Rattle.reader_laws.specs.Bodies.{BodiesReadAreSpelled, BodiesSpelledAreRead};
ghost use Rattle.reader_laws.specs.Blocks.{BlocksReadAreSpelled, BlocksSpelledAreRead, SourcesReadAreSpelled, SourcesSpelledAreRead, SpellingsAreOfOneSource, ProgramsLoadedAreSpelled, ProgramsSpelledAreLoaded};
ghost use Rattle.reader_laws.specs.Bounds.{BoundsAreNeverMet};
ghost use Rattle.reader_laws.specs.Numerals.{NumeralsReadAreSpelled, NumeralsSpelledAreRead};
ghost use Rattle.reader_laws.specs.Literals.{LiteralValuesReadAreSpelled, LiteralValuesSpelledAreRead, LiteralsOfTextsAreSpelled};
ghost use Rattle.reader_laws.specs.Forms.{FormsAreOfTheirOperations};
ghost use Rattle.reader_laws.specs.Tables.{WordsSayTheirOperands, OneOperationForAnOperand, FormsStandApart};

/// What is read as an operand is spelled so, by the tables of the language: its word says its area and its unit, its
/// numbers are its address or its value, and it has a form that the mnemonic takes.
#[tactic(auto, using(crate::proofs::Takes::operand_takes))]
pub fn operands_read_are_spelled()
    ensures { OperandsReadAreSpelled }
{}

/// What is read as a statement is spelled so: by the mnemonic of its operation, in one token or in two that stand
/// directly side by side, by its operand or by none, and by `;`. Its operation allows the operand.
#[tactic(auto, using(crate::proofs::Statements::statement_takes))]
pub fn statements_read_are_spelled()
    ensures { StatementsReadAreSpelled }
{}

/// Each word of the table is spelled by its area and its unit, and no word stands twice: a word stands for one area and
/// one unit.
#[tactic(auto, using(crate::proofs::Tables::words_are_theirs))]
pub fn words_say_their_operands()
    ensures { WordsSayTheirOperands }
{}

/// Rows of the instruction set with one mnemonic have no operand in common: a mnemonic with an operand names one
/// operation.
pub fn one_operation_for_an_operand()
    ensures { OneOperationForAnOperand }
{}

/// A mnemonic that takes a label takes nothing else; none takes an FB both alone and with a data block; one that takes
/// system functions takes functions.
pub fn forms_stand_apart()
    ensures { FormsStandApart }
{}

/// A word of the table, in large or small letters, is found as its row, and as no other.
#[tactic(auto, using(crate::proofs::Again::word_again))]
pub fn words_spelled_are_found()
    ensures { WordsSpelledAreFound }
{}

/// What is spelled as a word of the table and its address is read as that operand and as no other, whatever follows
/// it.
pub fn addresses_spelled_are_read()
    ensures { AddressesSpelledAreRead }
{}

/// `DBn.` and an address of a data block are read as that address in that data block, whatever follows it.
pub fn data_addresses_spelled_are_read()
    ensures { DataAddressesSpelledAreRead }
{}

/// A literal or characters are read as the constant that they are, whatever follows them, behind each mnemonic that
/// takes constants of this form.
pub fn literals_spelled_are_read()
    ensures { LiteralsSpelledAreRead }
{}

/// A word of at most four letters is read as a label, whatever follows it, behind each mnemonic that takes a label.
pub fn labels_spelled_are_read()
    ensures { LabelsSpelledAreRead }
{}

/// `FB n, DB m` is read as an FB with its data block, whatever follows it.
pub fn instances_spelled_are_read()
    ensures { InstancesSpelledAreRead }
{}

/// SFC 43 and SFC 46 are read as these system functions, whatever follows them.
pub fn system_functions_spelled_are_read()
    ensures { SystemFunctionsSpelledAreRead }
{}

/// A comparison sign and 0 are read as that status operand, whatever follows them.
pub fn comparisons_spelled_are_read()
    ensures { ComparisonsSpelledAreRead }
{}

/// What is spelled as an operand, in a form that the mnemonic takes, is read as that operand and as no other, whatever
/// follows it but a point or a bracket, by which a number or a name would go on.
pub fn operands_spelled_are_read()
    ensures { OperandsSpelledAreRead }
{}

/// What is spelled as a statement is read as that statement and as no other, whatever follows it.
pub fn statements_spelled_are_read()
    ensures { StatementsSpelledAreRead }
{}

/// The tokens of parts with blanks between them are the parts' tokens, each where its part stands.
pub fn parts_are_tokens()
    ensures { PartsAreTokens }
{}

/// What is spelled as a type is read as that type and as no other, whatever follows it.
pub fn types_spelled_are_read()
    ensures { TypesSpelledAreRead }
{}

/// What is read as a type is spelled so: by its word, or as an array with its bounds and its elements' type.
pub fn types_read_are_spelled()
    ensures { TypesReadAreSpelled }
{}

/// What is read as a value of a type is spelled so, and suits the type: a number from -32,768 to 32,767, or one token
/// that is a literal, characters, TRUE or FALSE.
pub fn values_read_are_spelled()
    ensures { ValuesReadAreSpelled }
{}

/// What is spelled as a value that suits the type is read as that value and as no other, whatever follows it.
pub fn values_spelled_are_read()
    ensures { ValuesSpelledAreRead }
{}

/// What is read as a declaration is spelled so: a name that isn't declared yet, perhaps an attribute, `:`, a type, in a
/// STRUCT perhaps `:=` and first values with commas between, each a value or `n (value)`, and `;`. The values are those
/// of the elements one behind the other, and none is past the last.
pub fn declarations_read_are_spelled()
    ensures { DeclarationsReadAreSpelled }
{}

/// What is spelled as a declaration is read as that declaration and as no other, whatever follows it.
pub fn declarations_spelled_are_read()
    ensures { DeclarationsSpelledAreRead }
{}

/// What is read as a section is spelled so: declarations, none of which begins with the end word, and the end word.
pub fn sections_read_are_spelled()
    ensures { SectionsReadAreSpelled }
{}

/// What is spelled as a section is read as it and as no other, whatever follows it.
pub fn sections_spelled_are_read()
    ensures { SectionsSpelledAreRead }
{}

/// What is read as the temporary names of a block is spelled so: sections behind VAR_TEMP, or none, and no other section
/// follows.
pub fn temporaries_read_are_spelled()
    ensures { TemporariesReadAreSpelled }
{}

/// What is spelled as the temporary names of a block is read as they are and as no others, whatever follows them but
/// another section.
pub fn temporaries_spelled_are_read()
    ensures { TemporariesSpelledAreRead }
{}

/// What is read as the names of a data block is spelled so: STRUCT, a section and perhaps `;`.
pub fn structures_read_are_spelled()
    ensures { StructuresReadAreSpelled }
{}

/// What is spelled as the names of a data block is read as they are and as no others, whatever follows them but `;`.
pub fn structures_spelled_are_read()
    ensures { StructuresSpelledAreRead }
{}

/// What is read as the assignments of a data block is spelled so: declared names, an array with the index of its element,
/// `:=`, a value of the type and `;`, and END_DATA_BLOCK behind them.
pub fn assignments_read_are_spelled()
    ensures { AssignmentsReadAreSpelled }
{}

/// What is spelled as the assignments of a data block is read as they are and as no others, whatever follows them.
pub fn assignments_spelled_are_read()
    ensures { AssignmentsSpelledAreRead }
{}

/// What is read as the first line of a block is spelled so: the two words of its kind, a number that a block of the kind may
/// have, and `: VOID` behind that of a function.
pub fn headings_read_are_spelled()
    ensures { HeadingsReadAreSpelled }
{}

/// What is spelled as the first line of a block is read as it and as no other, whatever follows it.
pub fn headings_spelled_are_read()
    ensures { HeadingsSpelledAreRead }
{}

/// What is passed over as heads of a block is spelled so: titles, attributes, KNOW_HOW_PROTECT, owners and versions.
pub fn heads_read_are_spelled()
    ensures { HeadsReadAreSpelled }
{}

/// What is spelled as heads of a block is passed over, whatever follows it but another head.
pub fn heads_spelled_are_read()
    ensures { HeadsSpelledAreRead }
{}

/// What is read as the body of a code block is spelled so: headings of networks, and statements or nothing with `;`, each
/// behind its label or without one, up to the end word, before which a label may stand alone.
pub fn bodies_read_are_spelled()
    ensures { BodiesReadAreSpelled }
{}

/// What is spelled as the body of a code block is read as it and as no other, whatever follows it.
pub fn bodies_spelled_are_read()
    ensures { BodiesSpelledAreRead }
{}

/// What is read as a block is spelled so: its first line, heads, and behind them temporary names, BEGIN and a body up to the
/// end word of its kind, or in a data block names, BEGIN and assignments up to END_DATA_BLOCK.
pub fn blocks_read_are_spelled()
    ensures { BlocksReadAreSpelled }
{}

/// What is spelled as a block is read as it and as no other, whatever stands before it and whatever follows it.
pub fn blocks_spelled_are_read()
    ensures { BlocksSpelledAreRead }
{}

/// What is read as a source is spelled so, to its last token: blocks one behind the other.
pub fn sources_read_are_spelled()
    ensures { SourcesReadAreSpelled }
{}

/// What is spelled as a source is read as its blocks and as no others.
pub fn sources_spelled_are_read()
    ensures { SourcesSpelledAreRead }
{}

/// Tokens spell the blocks of one source at most.
pub fn spellings_are_of_one_source()
    ensures { SpellingsAreOfOneSource }
{}

/// A program that a text is loaded as is spelled by its tokens: they spell blocks without a fault, and these make the
/// program.
pub fn programs_loaded_are_spelled()
    ensures { ProgramsLoadedAreSpelled }
{}

/// A text whose tokens spell a program is loaded as it, and as no other.
pub fn programs_spelled_are_loaded()
    ensures { ProgramsSpelledAreLoaded }
{}

/// The turns of a loop of reading never run out: with more of them than there are tokens left the reading is the same for
/// any two answers that would stand at their end.
pub fn bounds_are_never_met()
    ensures { BoundsAreNeverMet }
{}

/// What is read as a number is spelled so: digits of its base, between which one `_` at a time may stand.
pub fn numerals_read_are_spelled()
    ensures { NumeralsReadAreSpelled }
{}

/// What is spelled as a number is read as it and as no other.
pub fn numerals_spelled_are_read()
    ensures { NumeralsSpelledAreRead }
{}

/// The constant that a literal is read as is spelled so: by a prefix of the table, and behind it by its value in digits, by a
/// duration or by bits.
pub fn literal_values_read_are_spelled()
    ensures { LiteralValuesReadAreSpelled }
{}

/// What is spelled as a literal is one, and is read as its constant and as no other.
pub fn literal_values_spelled_are_read()
    ensures { LiteralValuesSpelledAreRead }
{}

/// The constant that a literal among the tokens of a text is read as is spelled by its bytes.
pub fn literals_of_texts_are_spelled()
    ensures { LiteralsOfTextsAreSpelled }
{}

/// An operation that takes operands in a form allows one that is written in it; and where operands of the form are stored as
/// no others are, an operation that allows one takes the form.
pub fn forms_are_of_their_operations()
    ensures { FormsAreOfTheirOperations }
{}
