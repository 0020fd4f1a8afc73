//! The words and signs that operands begin with.
ghost use Rattle.std.specs.Prelude.{◌≡◌};
ghost use Rattle.stl_reader.specs.Words.{operand_word, status_sign};

use crate::forms::OperandForm;
use crate::letters::is_named;
use instruction_set::OperandArea;
use stl_lex::letters_of;

/// A word that an operand begins with, filled up with zeros: the form of the operand, and its area; the stored
/// unit of a byte, word or double word, and the value of an operand that has no number behind it.
#[derive(Clone, Copy, Debug, PartialEq, Eq)]
pub struct OperandWord {
    pub spelling: [u8; 4],
    pub form: OperandForm,
    pub area: OperandArea,
    pub unit: u8,
    pub value: u32,
}

macro_rules! words {
    ($($spelling:literal $form:ident $area:ident $unit:literal $value:literal;)*) => {
        [$(OperandWord {
            spelling: *$spelling,
            form: OperandForm::$form,
            area: OperandArea::$area,
            unit: $unit,
            value: $value,
        }),*]
    };
}

const OPERAND_WORDS: [OperandWord; 46] = words! {
    b"I\0\0\0" Bit Inputs 0 0;
    b"Q\0\0\0" Bit Outputs 0 0;
    b"M\0\0\0" Bit Memory 0 0;
    b"L\0\0\0" Bit Local 0 0;
    b"DBX\0" Bit Data 0 0;
    b"DIX\0" Bit Instance 0 0;
    b"IB\0\0" Value Inputs 8 0;
    b"IW\0\0" Value Inputs 9 0;
    b"ID\0\0" Value Inputs 10 0;
    b"QB\0\0" Value Outputs 8 0;
    b"QW\0\0" Value Outputs 9 0;
    b"QD\0\0" Value Outputs 10 0;
    b"MB\0\0" Value Memory 8 0;
    b"MW\0\0" Value Memory 9 0;
    b"MD\0\0" Value Memory 10 0;
    b"LB\0\0" Value Local 8 0;
    b"LW\0\0" Value Local 9 0;
    b"LD\0\0" Value Local 10 0;
    b"DBB\0" Value Data 8 0;
    b"DBW\0" Value Data 9 0;
    b"DBD\0" Value Data 10 0;
    b"DIB\0" Value Instance 8 0;
    b"DIW\0" Value Instance 9 0;
    b"DID\0" Value Instance 10 0;
    b"PIB\0" PeripheralIn PeripheralIn 8 0;
    b"PIW\0" PeripheralIn PeripheralIn 9 0;
    b"PID\0" PeripheralIn PeripheralIn 10 0;
    b"PQB\0" PeripheralOut PeripheralOut 8 0;
    b"PQW\0" PeripheralOut PeripheralOut 9 0;
    b"PQD\0" PeripheralOut PeripheralOut 10 0;
    b"T\0\0\0" Timer Timer 0 0;
    b"C\0\0\0" Counter Counter 0 0;
    b"BR\0\0" Status Status 0 0;
    b"OV\0\0" Status Status 0 1;
    b"OS\0\0" Status Status 0 2;
    b"UO\0\0" Status Status 0 3;
    b"STW\0" StatusWord StatusWord 0 0;
    b"DBLG" DataRegister DataLength 0 0;
    b"DBNO" DataRegister DataNumber 0 0;
    b"DILG" DataRegister InstanceLength 0 0;
    b"DINO" DataRegister InstanceNumber 0 0;
    b"DB\0\0" DataBlock Data 0 0;
    b"DI\0\0" InstanceBlock Instance 0 0;
    b"FC\0\0" Function Function 0 0;
    b"FB\0\0" FunctionBlock FunctionBlock 0 0;
    b"SFC\0" SystemFunction SystemFunction 0 0;
};

/// A comparison with 0 as a status operand: its sign, filled up with zeros, and its number.
#[derive(Clone, Copy, Debug, PartialEq, Eq)]
pub struct StatusSign {
    pub sign: [u8; 2],
    pub value: u32,
}

const STATUS_SIGNS: [StatusSign; 6] = [
    StatusSign {
        sign: *b"==",
        value: 4,
    },
    StatusSign {
        sign: *b"<>",
        value: 5,
    },
    StatusSign {
        sign: *b">\0",
        value: 6,
    },
    StatusSign {
        sign: *b"<\0",
        value: 7,
    },
    StatusSign {
        sign: *b">=",
        value: 8,
    },
    StatusSign {
        sign: *b"<=",
        value: 9,
    },
];

/// The row of a word.
#[tactic(auto, unfolding(crate::specs::Words::operand_word))]
pub fn operand_word(word: &[u8]) -> Option<OperandWord>
    ensures { result ≡ operand_word word.now }
{
    OPERAND_WORDS
        .iter()
        .copied()
        .find(|row| is_named(row.spelling.as_slice(), word))
}

/// The row of a comparison sign.
#[tactic(auto, unfolding(crate::specs::Words::status_sign))]
pub fn status_sign(sign: &[u8]) -> Option<StatusSign>
    ensures { result ≡ status_sign sign.now }
{
    STATUS_SIGNS
        .iter()
        .copied()
        .find(|row| letters_of(row.sign.as_slice()) == sign)
}
