//! Tests of the machine. Programs are written in Statement List, with `@n` for the statement of number n, `W#` and `D#` for
//! constants of 16 and 32 bits in hexadecimal, and `L#` for one of 32 bits in decimal.
ghost use Rattle.std.specs.Prelude.{◌≡◌, IfOk};
ghost use Rattle.mc_machine.specs.Meaning.{asked};
ghost use Rattle.mc_machine.specs.Stands.{IsRunning};
ghost use Rattle.mc_machine.specs.Rung.{rung, rung_answers, rung_requests};

use instruction_set::instruction_row;
use mc_machine::*;
use s7_base::{
    Answer, Area, Ask, Blocks, CodeBlock, CodeKind, DataBlock, DiagCode, Loss, Request, Side,
    Statement, StopCode, fits,
};
use std::alloc::Global;
use std::process::Abort;
use std::test::Fail;

mod access;
mod alarms;
mod jobs;
mod logic;
mod plays;
mod values;

/// The definitions give the requests that were worked out by hand.
#[tactic(auto, using(mc_machine::proofs::Row::rung_asks))]
fn the_definitions_play_the_rung()
    ensures { asked rung rung_answers ≡ rung_requests }
{}

const STATUS_OPERANDS: [&str; 10] = [
    "BR", "OV", "OS", "UO", "==0", "<>0", ">0", "<0", ">=0", "<=0",
];

/// The area, the unit and the spelling of an operand's address.
const ADDRESSES: [(&str, u8, u8); 24] = [
    ("IB", 1, 8),
    ("IW", 1, 9),
    ("ID", 1, 10),
    ("QB", 2, 8),
    ("QW", 2, 9),
    ("QD", 2, 10),
    ("MB", 3, 8),
    ("MW", 3, 9),
    ("MD", 3, 10),
    ("LB", 4, 8),
    ("LD", 4, 10),
    ("DBB", 5, 8),
    ("DB", 5, 0),
    ("I", 1, 0),
    ("Q", 2, 0),
    ("M", 3, 0),
    ("PIB", 7, 8),
    ("PIW", 7, 9),
    ("PID", 7, 10),
    ("PQB", 8, 8),
    ("PQW", 8, 9),
    ("PQD", 8, 10),
    ("T", 9, 0),
    ("C", 10, 0),
];

/// An operand of an area: its area, its bit or unit, and its address.
fn address_of(text: &str) -> Option<(u8, u8, u32)> {
    for (word, area, unit) in ADDRESSES {
        if let Some(rest) = text.strip_prefix(word) {
            return match rest.split_once('.') {
                Some((at_byte, bit)) => {
                    Some((area, bit.parse::<u8>().ok()?, at_byte.parse::<u32>().ok()?))
                }
                None => Some((area, unit, rest.parse::<u32>().ok()?)),
            };
        }
    }
    None
}

/// An operand: its area, its bit or unit, and its value.
fn operand_of(text: &str) -> Option<(u8, u8, u32)> {
    if text.is_empty() {
        return Some((0, 0, 0));
    }
    if text == "STW" {
        return Some((15, 0, 0));
    }
    if let Ok(number) = text.parse::<i16>() {
        return Some((11, 0, u32::from(number.cast_unsigned())));
    }
    if let Some(number) = text.strip_prefix("L#") {
        return Some((12, 0, number.parse::<i32>().ok()?.cast_unsigned()));
    }
    if let Some(digits) = text.strip_prefix("W#") {
        return Some((11, 0, u32::from_str_radix(digits, 16).ok()?));
    }
    if let Some(digits) = text.strip_prefix("D#") {
        return Some((12, 0, u32::from_str_radix(digits, 16).ok()?));
    }
    if let Some(number) = text.strip_prefix("SFC ") {
        return Some((18, 0, number.parse::<u32>().ok()?));
    }
    if let Some(number) = text.strip_prefix("@") {
        return Some((13, 0, number.parse::<u32>().ok()?));
    }
    for (number, word) in STATUS_OPERANDS.iter().enumerate() {
        if *word == text {
            return Some((14, 0, number as u32));
        }
    }
    address_of(text)
}

fn is_spelled(op: u16, word: &[u8]) -> bool {
    let Some(row) = instruction_row(op) else {
        return false;
    };
    row.mnemonic
        .iter()
        .enumerate()
        .all(|(k, letter)| *letter == word.get(k).copied().unwrap_or(0))
}

fn statement_of(text: &str) -> Option<Statement> {
    let (word, operand) = text.split_once(' ').unwrap_or((text, ""));
    let (area, bit, value) = operand_of(operand)?;
    for op in 0..128 {
        let statement = Statement {
            op,
            area,
            bit,
            db: 0,
            value,
        };
        if is_spelled(op, word.as_bytes()) && statement.is_of_language(20) {
            return Some(statement);
        }
    }
    None
}

fn push_all(all: &mut Vec<Statement>, text: &str) -> Result<(), Fail> {
    for piece in text.split(';') {
        let Some(statement) = statement_of(piece) else {
            return Err("no statement".into());
        };
        all.push(statement)?;
    }
    Ok(())
}

/// A machine that was loaded with these blocks.
fn machine_with_blocks(
    alloc: Global,
    codes: Vec<CodeBlock>,
    data_blocks: Vec<DataBlock>,
) -> Result<Machine, Fail>
    ensures { IfOk result IsRunning }
{
    let Some(blocks) = Blocks::of(codes, data_blocks) else {
        return Err("not well formed".into());
    };
    let mut machine = Machine::new();
    if machine.load(alloc, &blocks).is_err() {
        return Err("no memory".into());
    }
    Ok(machine)
}

/// A machine that was loaded with OB1 of these statements.
fn machine_with(alloc: Global, statements: Vec<Statement>) -> Result<Machine, Fail>
    ensures { IfOk result IsRunning }
{
    let main = CodeBlock::new(CodeKind::Ob, 1, 0, statements);
    machine_with_blocks(alloc, vec![in alloc; main]?, Vec::new(alloc))
}

/// An organisation block of a text, with 20 bytes of temporary data.
fn block_of(alloc: Global, number: u8, text: &str) -> Result<CodeBlock, Fail> {
    let mut statements = Vec::new(alloc);
    push_all(&mut statements, text)?;
    Ok(CodeBlock::new(CodeKind::Ob, number, 20, statements))
}

/// A machine that was loaded with organisation blocks, each a number and a text, and with DB5 and DB6, of 8 bytes each: those of
/// DB5 are hexadecimal 55, those of DB6 are 66.
fn machine_of_blocks(alloc: Global, texts: &[(u8, &str)]) -> Result<Machine, Fail>
    ensures { IfOk result IsRunning }
{
    let mut codes = Vec::new(alloc);
    for (number, text) in texts {
        codes.push(block_of(alloc, *number, text)?)?;
    }
    let fives = DataBlock::new(5, vec![in alloc; 0x55; 8]?);
    let sixes = DataBlock::new(6, vec![in alloc; 0x66; 8]?);
    machine_with_blocks(alloc, codes, vec![in alloc; fives, sixes]?)
}

/// A step of a play: what is asked, with its priority, and the answer.
type Step = (u8, Ask, Answer);

/// Plays steps, the first of them at moment k.
fn play(rt: &impl Abort, machine: &mut Machine, k: u64, steps: &[Step])
    requires { IsRunning machine.old }
    ensures { IsRunning machine.new }
{
    for (n, (prio, ask, answer)) in steps.iter().enumerate() {
        let request = give(rt, machine, *answer, k.saturating_add(n as u64));
        assert_eq!(rt; (n, request.prio, request.ask), (n, *prio, *ask));
    }
}

/// The bytes of the bit memory at some addresses are these.
fn assert_bit_memory(rt: &impl Abort, machine: &Machine, bytes: &[(u16, u8)])
    requires { IsRunning machine.now }
{
    for (at_byte, byte) in bytes {
        assert_eq!(rt;
            (*at_byte, machine.image_byte(Area::M, *at_byte)),
            (*at_byte, Some(*byte))
        );
    }
}

/// A machine that was loaded with OB1 of two texts.
fn machine_of(alloc: Global, text: &str, after: &str) -> Result<Machine, Fail>
    ensures { IfOk result IsRunning }
{
    let mut statements = Vec::new(alloc);
    push_all(&mut statements, text)?;
    push_all(&mut statements, after)?;
    machine_with(alloc, statements)
}

/// Gives an answer that fits, and tells what was asked.
fn give(rt: &impl Abort, machine: &mut Machine, answer: Answer, moment: u64) -> Request
    requires running { IsRunning machine.old }
    ensures { IsRunning machine.new }
{
    assert!(rt; !machine.stopped());
    let request = machine.ask();
    assert!(rt; fits(&request, &answer));
    machine.take(&answer, moment);
    request
}

/// Plays up to the request after the input image.
fn begin(rt: &impl Abort, machine: &mut Machine, image: [u8; 64])
    requires { IsRunning machine.old }
    ensures { IsRunning machine.new }
{
    give(rt, machine, Answer::Done, 0);
    give(rt, machine, Answer::Image(image), 1);
}
