//! Laws of the reader: what it reads is spelled so, and what is spelled so is read.
#![tactic(auto)]

mod laws;

pub use laws::{
    addresses_spelled_are_read, assignments_read_are_spelled, assignments_spelled_are_read,
    blocks_read_are_spelled, blocks_spelled_are_read, bodies_read_are_spelled,
    bodies_spelled_are_read, bounds_are_never_met, comparisons_spelled_are_read,
    data_addresses_spelled_are_read, declarations_read_are_spelled, declarations_spelled_are_read,
    forms_are_of_their_operations, forms_stand_apart, headings_read_are_spelled,
    headings_spelled_are_read, heads_read_are_spelled, heads_spelled_are_read,
    instances_spelled_are_read, labels_spelled_are_read, literal_values_read_are_spelled,
    literal_values_spelled_are_read, literals_of_texts_are_spelled, literals_spelled_are_read,
    numerals_read_are_spelled, numerals_spelled_are_read, one_operation_for_an_operand,
    operands_read_are_spelled, operands_spelled_are_read, parts_are_tokens,
    programs_loaded_are_spelled, programs_spelled_are_loaded, sections_read_are_spelled,
    sections_spelled_are_read, sources_read_are_spelled, sources_spelled_are_read,
    spellings_are_of_one_source, statements_read_are_spelled, statements_spelled_are_read,
    structures_read_are_spelled, structures_spelled_are_read, system_functions_spelled_are_read,
    temporaries_read_are_spelled, temporaries_spelled_are_read, types_read_are_spelled,
    types_spelled_are_read, values_read_are_spelled, values_spelled_are_read,
    words_say_their_operands, words_spelled_are_found,
};
