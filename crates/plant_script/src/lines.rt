//! The grammar of a line. A rule takes words from the front of a text, and gives what they say and the text behind them.
ghost use Rattle.std.specs.Prelude.{◌≡◌, ◌+◌, ◌<◌, ◌≤◌, ◌^◌, IfSome};
ghost use Rattle.std.specs.Option.{option_map};
ghost use Rattle.plant_script.specs.Words.{words_of, begins_with};
ghost use Rattle.plant_script.specs.Form.{IsWidth, IsTarget, IsWritten, IsLine};
ghost use Rattle.plant_script.specs.Lines.{number_at, hex_at, side_of, side_at, maybe_side_at, direction_of, one_sided_at, redundant_at, reach_of, kind_by, kind_at, module_at, byte_at, input_at, is_alarm_ob, alarm_at, read_job, memory_at, width_of, data_at, target_by, target_at, read_at, write_at, job_by, job_at, late_at, fail_at, return_at, pass_of, suspect_at, verb_of, what_by, at_at, end_at, head_of, line_by, statement_of, line_of, has_space, module_of};

use crate::numbers::{hex_of, is_number, number_within, value_of};
use crate::plan::{Module, ModuleKind, What};
use crate::words::{is_blank, next_word};
use s7_events::{Job, JobArea, Side};

/// A line that has a form. The moment of an AT line and the number of END are left as words.
#[derive(Clone, Copy, Debug, PartialEq, Eq)]
pub enum Line {
    /// It has no word, or its first begins with `#`.
    Skipped,
    /// A MODULE line.
    Module(Module),
    /// An AT line.
    At(What),
    /// The END line.
    End,
}

/// What the first word of a line means.
#[derive(Clone, Copy, Debug)]
enum Head {
    Module,
    At,
    End,
}

/// What the word of a module's kind means.
#[derive(Clone, Copy, Debug)]
enum Reach {
    Switched,
    OneSided,
    Redundant,
}

/// What the word of an event means.
#[derive(Clone, Copy, Debug)]
enum Verb {
    Input,
    Alarm,
    Job,
    Fail,
    Return,
    Suspect,
}

/// Reads a number that is at most `most`.
#[tactic(auto, unfolding(crate::specs::Lines::number_at))]
fn number_at(text: &[u8], most: u32) -> Option<(u32, &[u8])>
    requires { most ≤ 65535 }
    ensures exact { option_map (λ p. (p.0, words_of p.1.now)) result ≡ number_at most (words_of text.now) }
    ensures within { IfSome result (λ p. p.0 ≤ most) }
{
    let (word, rest) = next_word(text)?;
    let number = number_within(word, most)?;
    Some((number, rest))
}

/// Reads exactly `count` hexadecimal digits.
#[tactic(auto, unfolding(crate::specs::Lines::hex_at))]
fn hex_at(text: &[u8], count: usize) -> Option<(u32, &[u8])>
    requires { count ≤ 8 }
    ensures exact { option_map (λ p. (p.0, words_of p.1.now)) result ≡ hex_at count (words_of text.now) }
    ensures within { IfSome result (λ p. p.0 < 16 ^ count) }
{
    let (word, rest) = next_word(text)?;
    let value = hex_of(word, count)?;
    Some((value, rest))
}

/// Returns the side of a letter.
fn side_of(word: &[u8]) -> Option<Side>
    ensures { result ≡ side_of word.now }
{
    match word {
        b"A" => Some(Side::A),
        b"B" => Some(Side::B),
        _ => None,
    }
}

/// Reads a side.
#[tactic(auto, unfolding(crate::specs::Lines::side_at))]
fn side_at(text: &[u8]) -> Option<(Side, &[u8])>
    ensures { option_map (λ p. (p.0, words_of p.1.now)) result ≡ side_at (words_of text.now) }
{
    let (word, rest) = next_word(text)?;
    let side = side_of(word)?;
    Some((side, rest))
}

/// Reads a side where one stands there.
#[tactic(auto, unfolding(crate::specs::Lines::maybe_side_at))]
fn maybe_side_at(text: &[u8]) -> (Option<Side>, &[u8])
    ensures { (result.0, words_of result.1.now) ≡ maybe_side_at (words_of text.now) }
{
    match side_at(text) {
        Some((side, rest)) => (Some(side), rest),
        None => (None, text),
    }
}

/// Returns whether the word names inputs.
fn direction_of(word: &[u8]) -> Option<bool>
    ensures { result ≡ direction_of word.now }
{
    match word {
        b"IN" => Some(true),
        b"OUT" => Some(false),
        _ => None,
    }
}

/// Reads the side of a one-sided module.
#[tactic(auto, unfolding(crate::specs::Lines::one_sided_at))]
fn one_sided_at(text: &[u8]) -> Option<(ModuleKind, &[u8])>
    ensures { option_map (λ p. (p.0, words_of p.1.now)) result ≡ one_sided_at (words_of text.now) }
{
    let (side, rest) = side_at(text)?;
    Some((ModuleKind::OneSided(side), rest))
}

/// Reads the discrepancy time of a redundant module.
#[tactic(auto, unfolding(crate::specs::Lines::redundant_at))]
fn redundant_at(text: &[u8]) -> Option<(ModuleKind, &[u8])>
    ensures { option_map (λ p. (p.0, words_of p.1.now)) result ≡ redundant_at (words_of text.now) }
{
    let (time, rest) = number_at(text, 1_000)?;
    if time < 1 {
        return None;
    }
    Some((ModuleKind::Redundant(time as u16), rest))
}

/// Returns what the word of a module's kind means.
fn reach_of(word: &[u8]) -> Option<Reach>
    ensures { result ≡ reach_of word.now }
{
    if word == b"SWITCHED".as_slice() {
        Some(Reach::Switched)
    } else if word == b"ONESIDED".as_slice() {
        Some(Reach::OneSided)
    } else if word == b"REDUNDANT".as_slice() {
        Some(Reach::Redundant)
    } else {
        None
    }
}

/// Reads what stands behind the word of a module's kind.
fn kind_by(reach: Reach, text: &[u8]) -> Option<(ModuleKind, &[u8])>
    ensures { option_map (λ p. (p.0, words_of p.1.now)) result ≡ kind_by reach (words_of text.now) }
{
    match reach {
        Reach::Switched => Some((ModuleKind::Switched, text)),
        Reach::OneSided => one_sided_at(text),
        Reach::Redundant => redundant_at(text),
    }
}

/// Reads how a module is reached.
#[tactic(auto, unfolding(crate::specs::Lines::kind_at))]
fn kind_at(text: &[u8]) -> Option<(ModuleKind, &[u8])>
    ensures { option_map (λ p. (p.0, words_of p.1.now)) result ≡ kind_at (words_of text.now) }
{
    let (word, rest) = next_word(text)?;
    let reach = reach_of(word)?;
    kind_by(reach, rest)
}

/// Returns whether a module may have `len` bytes from this one on.
fn has_space(at_byte: u32, len: u32) -> bool
    requires { at_byte + len < 2 ^ 32 }
    ensures { result ≡ has_space at_byte len }
{
    1 <= len && at_byte + len <= 1_024
}

/// Reads a MODULE line behind its first word.
#[tactic(auto, unfolding(crate::specs::Lines::module_at))]
fn module_at(text: &[u8], number: u32) -> Option<(Line, &[u8])>
    ensures exact { option_map (λ p. (p.0, words_of p.1.now)) result ≡ module_at number (words_of text.now) }
    ensures form { IfSome result (λ p. IsLine p.0) }
{
    let (word, rest) = next_word(text)?;
    let input = direction_of(word)?;
    let (at_byte, rest) = number_at(rest, 1_023)?;
    let (len, rest) = number_at(rest, 64)?;
    let (kind, rest) = kind_at(rest)?;
    if !has_space(at_byte, len) {
        return None;
    }
    let module = Module {
        line: number,
        input,
        at_byte: at_byte as u16,
        len: len as u16,
        kind,
    };
    Some((Line::Module(module), rest))
}

/// Reads the number of a byte, of any size; those from 65,535 on are one, which no module has.
#[tactic(auto, unfolding(crate::specs::Lines::byte_at))]
fn byte_at(text: &[u8]) -> Option<(u16, &[u8])>
    ensures { option_map (λ p. (p.0, words_of p.1.now)) result ≡ byte_at (words_of text.now) }
{
    let (word, rest) = next_word(text)?;
    if !is_number(word) {
        return None;
    }
    Some((value_of(word).min(65_535) as u16, rest))
}

/// Reads an INPUT line behind that word.
#[tactic(auto, unfolding(crate::specs::Lines::input_at))]
fn input_at(text: &[u8]) -> Option<(What, &[u8])>
    ensures exact { option_map (λ p. (p.0, words_of p.1.now)) result ≡ input_at (words_of text.now) }
    ensures form { IfSome result (λ p. IsWritten p.0) }
{
    let (at_byte, rest) = byte_at(text)?;
    let (side, rest) = maybe_side_at(rest);
    let (value, rest) = hex_at(rest, 2)?;
    let what = What::Input {
        at_byte,
        side,
        value: value as u8,
    };
    Some((what, rest))
}

/// Returns whether alarms start this OB.
fn is_alarm_ob(ob: u32) -> bool
    ensures { result ≡ is_alarm_ob ob }
{
    (40 <= ob && ob <= 47) || ob == 82
}

/// Reads an ALARM line behind that word.
#[tactic(auto, unfolding(crate::specs::Lines::alarm_at))]
fn alarm_at(text: &[u8]) -> Option<(What, &[u8])>
    ensures exact { option_map (λ p. (p.0, words_of p.1.now)) result ≡ alarm_at (words_of text.now) }
    ensures form { IfSome result (λ p. IsWritten p.0) }
{
    let (ob, rest) = number_at(text, 82)?;
    let (info, rest) = hex_at(rest, 8)?;
    if !is_alarm_ob(ob) {
        return None;
    }
    Some((What::Alarm { ob: ob as u8, info }, rest))
}

/// Returns a job that reads `width` bytes there.
fn read_job(area: JobArea, at_byte: u16, width: u8) -> Job
    ensures { result ≡ read_job area at_byte width }
{
    Job {
        write: false,
        area,
        at_byte,
        width,
        value: 0,
    }
}

/// Reads a target in bit memory behind its first word.
#[tactic(auto, unfolding(crate::specs::Lines::memory_at))]
fn memory_at(text: &[u8], width: u8) -> Option<(Job, &[u8])>
    requires { IsWidth width }
    ensures exact { option_map (λ p. (p.0, words_of p.1.now)) result ≡ memory_at width (words_of text.now) }
    ensures form { IfSome result (λ p. IsTarget p.0) }
{
    let (at_byte, rest) = number_at(text, 65_535)?;
    Some((read_job(JobArea::M, at_byte as u16, width), rest))
}

/// Returns the number of bytes that a letter means.
fn width_of(word: &[u8]) -> Option<u8>
    ensures { result ≡ width_of word.now }
{
    match word {
        b"B" => Some(1),
        b"W" => Some(2),
        b"D" => Some(4),
        _ => None,
    }
}

/// Reads a target in a data block behind its first word.
#[tactic(auto, unfolding(crate::specs::Lines::data_at))]
fn data_at(text: &[u8]) -> Option<(Job, &[u8])>
    ensures exact { option_map (λ p. (p.0, words_of p.1.now)) result ≡ data_at (words_of text.now) }
    ensures form { IfSome result (λ p. IsTarget p.0) }
{
    let (block, rest) = number_at(text, 65_535)?;
    let (letter, rest) = next_word(rest)?;
    let width = width_of(letter)?;
    let (at_byte, rest) = number_at(rest, 65_535)?;
    let area = JobArea::Db(block as u16);
    Some((read_job(area, at_byte as u16, width), rest))
}

/// Reads the target of a job behind its first word.
fn target_by<'a>(word: &[u8], text: &'a [u8]) -> Option<(Job, &'a [u8])>
    ensures exact { option_map (λ p. (p.0, words_of p.1.now)) result ≡ target_by word.now (words_of text.now) }
    ensures form { IfSome result (λ p. IsTarget p.0) }
{
    match word {
        b"MB" => memory_at(text, 1),
        b"MW" => memory_at(text, 2),
        b"MD" => memory_at(text, 4),
        b"DB" => data_at(text),
        _ => None,
    }
}

/// Reads the target of a job, as a job that reads it.
#[tactic(auto, unfolding(crate::specs::Lines::target_at))]
fn target_at(text: &[u8]) -> Option<(Job, &[u8])>
    ensures exact { option_map (λ p. (p.0, words_of p.1.now)) result ≡ target_at (words_of text.now) }
    ensures form { IfSome result (λ p. IsTarget p.0) }
{
    let (word, rest) = next_word(text)?;
    target_by(word, rest)
}

/// Reads a job that reads, behind READ.
#[tactic(auto, unfolding(crate::specs::Lines::read_at))]
fn read_at(text: &[u8]) -> Option<(What, &[u8])>
    ensures exact { option_map (λ p. (p.0, words_of p.1.now)) result ≡ read_at (words_of text.now) }
    ensures form { IfSome result (λ p. IsWritten p.0) }
{
    let (target, rest) = target_at(text)?;
    Some((What::Job(target), rest))
}

/// Reads a job that writes, behind WRITE.
#[tactic(auto, unfolding(crate::specs::Lines::write_at))]
fn write_at(text: &[u8]) -> Option<(What, &[u8])>
    ensures exact { option_map (λ p. (p.0, words_of p.1.now)) result ≡ write_at (words_of text.now) }
    ensures form { IfSome result (λ p. IsWritten p.0) }
{
    let (target, rest) = target_at(text)?;
    let (value, rest) = hex_at(rest, 2 * usize::from(target.width))?;
    let job = Job {
        write: true,
        value,
        ..target
    };
    Some((What::Job(job), rest))
}

/// Reads a job behind READ or WRITE.
fn job_by<'a>(word: &[u8], text: &'a [u8]) -> Option<(What, &'a [u8])>
    ensures exact { option_map (λ p. (p.0, words_of p.1.now)) result ≡ job_by word.now (words_of text.now) }
    ensures form { IfSome result (λ p. IsWritten p.0) }
{
    match word {
        b"READ" => read_at(text),
        b"WRITE" => write_at(text),
        _ => None,
    }
}

/// Reads a JOB line behind that word.
#[tactic(auto, unfolding(crate::specs::Lines::job_at))]
fn job_at(text: &[u8]) -> Option<(What, &[u8])>
    ensures exact { option_map (λ p. (p.0, words_of p.1.now)) result ≡ job_at (words_of text.now) }
    ensures form { IfSome result (λ p. IsWritten p.0) }
{
    let (word, rest) = next_word(text)?;
    job_by(word, rest)
}

/// Reads the word LATE where it stands there.
fn late_at(text: &[u8]) -> (bool, &[u8])
    ensures { (result.0, words_of result.1.now) ≡ late_at (words_of text.now) }
{
    match next_word(text) {
        Some((b"LATE", rest)) => (true, rest),
        _ => (false, text),
    }
}

/// Reads a FAIL line behind that word.
#[tactic(auto, unfolding(crate::specs::Lines::fail_at))]
fn fail_at(text: &[u8]) -> Option<(What, &[u8])>
    ensures exact { option_map (λ p. (p.0, words_of p.1.now)) result ≡ fail_at (words_of text.now) }
    ensures form { IfSome result (λ p. IsWritten p.0) }
{
    let (side, rest) = side_at(text)?;
    let (late, rest) = late_at(rest);
    Some((What::Fail { side, late }, rest))
}

/// Reads a RETURN line behind that word.
#[tactic(auto, unfolding(crate::specs::Lines::return_at))]
fn return_at(text: &[u8]) -> Option<(What, &[u8])>
    ensures exact { option_map (λ p. (p.0, words_of p.1.now)) result ≡ return_at (words_of text.now) }
    ensures form { IfSome result (λ p. IsWritten p.0) }
{
    let (side, rest) = side_at(text)?;
    Some((What::Return { side, fresh: false }, rest))
}

/// Returns whether the word says that a self-test is passed.
fn pass_of(word: &[u8]) -> Option<bool>
    ensures { result ≡ pass_of word.now }
{
    match word {
        b"PASS" => Some(true),
        b"FAIL" => Some(false),
        _ => None,
    }
}

/// Reads a SUSPECT line behind that word.
#[tactic(auto, unfolding(crate::specs::Lines::suspect_at))]
fn suspect_at(text: &[u8]) -> Option<(What, &[u8])>
    ensures exact { option_map (λ p. (p.0, words_of p.1.now)) result ≡ suspect_at (words_of text.now) }
    ensures form { IfSome result (λ p. IsWritten p.0) }
{
    let (side, rest) = side_at(text)?;
    let (outcome, rest) = next_word(rest)?;
    let pass = pass_of(outcome)?;
    Some((What::Suspect { side, pass }, rest))
}

/// Returns what happens by this word.
fn verb_of(word: &[u8]) -> Option<Verb>
    ensures { result ≡ verb_of word.now }
{
    if word == b"INPUT".as_slice() {
        Some(Verb::Input)
    } else if word == b"ALARM".as_slice() {
        Some(Verb::Alarm)
    } else if word == b"JOB".as_slice() {
        Some(Verb::Job)
    } else if word == b"FAIL".as_slice() {
        Some(Verb::Fail)
    } else if word == b"RETURN".as_slice() {
        Some(Verb::Return)
    } else if word == b"SUSPECT".as_slice() {
        Some(Verb::Suspect)
    } else {
        None
    }
}

/// Reads what happens, behind its word.
fn what_by(verb: Verb, text: &[u8]) -> Option<(What, &[u8])>
    ensures exact { option_map (λ p. (p.0, words_of p.1.now)) result ≡ what_by verb (words_of text.now) }
    ensures form { IfSome result (λ p. IsWritten p.0) }
{
    match verb {
        Verb::Input => input_at(text),
        Verb::Alarm => alarm_at(text),
        Verb::Job => job_at(text),
        Verb::Fail => fail_at(text),
        Verb::Return => return_at(text),
        Verb::Suspect => suspect_at(text),
    }
}

/// Reads an AT line behind its first word.
#[tactic(auto, unfolding(crate::specs::Lines::at_at))]
fn at_at(text: &[u8]) -> Option<(Line, &[u8])>
    ensures exact { option_map (λ p. (p.0, words_of p.1.now)) result ≡ at_at (words_of text.now) }
    ensures form { IfSome result (λ p. IsLine p.0) }
{
    let (_, rest) = next_word(text)?;
    let (word, rest) = next_word(rest)?;
    let verb = verb_of(word)?;
    let (what, rest) = what_by(verb, rest)?;
    Some((Line::At(what), rest))
}

/// Reads the END line behind its first word.
#[tactic(auto, unfolding(crate::specs::Lines::end_at))]
fn end_at(text: &[u8]) -> Option<(Line, &[u8])>
    ensures exact { option_map (λ p. (p.0, words_of p.1.now)) result ≡ end_at (words_of text.now) }
    ensures form { IfSome result (λ p. IsLine p.0) }
{
    let (_, rest) = next_word(text)?;
    Some((Line::End, rest))
}

/// Returns the kind of a line that begins with this word.
fn head_of(word: &[u8]) -> Option<Head>
    ensures { result ≡ head_of word.now }
{
    if word == b"MODULE".as_slice() {
        Some(Head::Module)
    } else if word == b"AT".as_slice() {
        Some(Head::At)
    } else if word == b"END".as_slice() {
        Some(Head::End)
    } else {
        None
    }
}

/// Reads a line of this kind behind its first word.
fn line_by(head: Head, text: &[u8], number: u32) -> Option<(Line, &[u8])>
    ensures exact { option_map (λ p. (p.0, words_of p.1.now)) result ≡ line_by head number (words_of text.now) }
    ensures form { IfSome result (λ p. IsLine p.0) }
{
    match head {
        Head::Module => module_at(text, number),
        Head::At => at_at(text),
        Head::End => end_at(text),
    }
}

/// Returns a line behind its first word, where then no word is left.
#[tactic(auto, unfolding(crate::specs::Lines::statement_of))]
fn statement_of(word: &[u8], text: &[u8], number: u32) -> Option<Line>
    ensures exact { result ≡ statement_of number word.now (words_of text.now) }
    ensures form { IfSome result IsLine }
{
    let head = head_of(word)?;
    let (line, rest) = line_by(head, text, number)?;
    if !is_blank(rest) {
        return None;
    }
    Some(line)
}

/// Returns whether the first byte is this one.
fn begins_with(byte: u8, word: &[u8]) -> bool
    ensures { result ≡ begins_with byte word.now }
{
    !word.is_empty() && word[0] == byte
}

/// Returns the line of this number, or None where it has no form or a number is outside its range.
#[tactic(auto, unfolding(crate::specs::Lines::line_of))]
pub fn line_of(text: &[u8], number: u32) -> Option<Line>
    ensures exact { result ≡ line_of number (words_of text.now) }
    ensures form { IfSome result IsLine }
{
    let Some((word, rest)) = next_word(text) else {
        return Some(Line::Skipped);
    };
    if begins_with(b'#', word) {
        return Some(Line::Skipped);
    }
    statement_of(word, rest, number)
}
