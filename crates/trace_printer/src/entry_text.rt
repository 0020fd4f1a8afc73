//! The line of an entry of the record: its number, its request and its answer.
ghost use Rattle.std.specs.Prelude.{◌≡◌, ◌+◌, ◌≤◌, ◌++◌, length};
ghost use Rattle.trace_text.specs.EntryText.{side_word, stop_word, lost_text, back_text, width_letter, place_text, job_text, reply_text, ask_text, answer_text, entry_line};

use crate::line::Line;
use s7_base::{Answer, Ask, Entry, Job, JobArea, Loss, Side, StopCode};

/// Adds the letter of a side, at most 1 byte.
pub fn push_side(line: &mut Line, side: Side)
    requires { length line.old ≤ 1000 }
    ensures text { line.new ≡ line.old ++ side_word side }
    ensures length { length line.new ≤ length line.old + 1 }
{
    match side {
        Side::A => line.push_text(b"A"),
        Side::B => line.push_text(b"B"),
    }
}

/// Adds the word of a stop code, at most 7 bytes.
pub fn push_stop(line: &mut Line, code: StopCode)
    requires { length line.old ≤ 1000 }
    ensures text { line.new ≡ line.old ++ stop_word code }
    ensures length { length line.new ≤ length line.old + 7 }
{
    match code {
        StopCode::Cycle => line.push_text(b"CYCLE"),
        StopCode::Sfc46 => line.push_text(b"SFC46"),
        StopCode::NoOb121 => line.push_text(b"NOOB121"),
        StopCode::NoOb122 => line.push_text(b"NOOB122"),
        StopCode::NoOb85 => line.push_text(b"NOOB85"),
        StopCode::Depth => line.push_text(b"DEPTH"),
        StopCode::Local => line.push_text(b"LOCAL"),
        StopCode::InError => line.push_text(b"INERROR"),
    }
}

/// Adds that a side was lost, and why, at most 14 bytes.
pub fn push_lost(line: &mut Line, side: Side, why: Loss)
    requires { length line.old ≤ 900 }
    ensures text { line.new ≡ line.old ++ lost_text side why }
    ensures length { length line.new ≤ length line.old + 14 }
{
    line.push_text(b"LOST ");
    push_side(line, side);
    match why {
        Loss::Failed => line.push_text(b" FAILED"),
        Loss::Suspect => line.push_text(b" SUSPECT"),
    }
}

/// Adds that a side has come back, at most 6 bytes.
pub fn push_back(line: &mut Line, side: Side)
    requires { length line.old ≤ 900 }
    ensures text { line.new ≡ line.old ++ back_text side }
    ensures length { length line.new ≤ length line.old + 6 }
{
    line.push_text(b"BACK ");
    push_side(line, side);
}

/// Adds the letter of a width, at most 1 byte.
fn push_width(line: &mut Line, width: u8)
    requires { length line.old ≤ 900 }
    ensures text { line.new ≡ line.old ++ width_letter width }
    ensures length { length line.new ≤ length line.old + 1 }
{
    match width {
        1 => line.push_text(b"B"),
        2 => line.push_text(b"W"),
        _ => line.push_text(b"D"),
    }
}

/// Adds where a job reads or writes, at most 46 bytes.
#[tactic(auto, using(crate::proofs::Digits::twenty_digits, std::proofs::Common::append_assoc))]
fn push_place(line: &mut Line, area: JobArea, width: u8, at_byte: u16)
    requires { length line.old ≤ 800 }
    ensures text { line.new ≡ line.old ++ place_text area width at_byte }
    ensures length { length line.new ≤ length line.old + 46 }
{
    match area {
        JobArea::M => {
            line.push_text(b"M");
            push_width(line, width);
            line.push_text(b" ");
            line.push_decimal(u64::from(at_byte));
        }
        JobArea::Db(number) => {
            line.push_text(b"DB ");
            line.push_decimal(u64::from(number));
            line.push_text(b" ");
            push_width(line, width);
            line.push_text(b" ");
            line.push_decimal(u64::from(at_byte));
        }
    }
}

/// Adds a job as a script writes it, at most 600 bytes.
#[tactic(auto, using(std::proofs::Common::append_assoc))]
fn push_job(line: &mut Line, job: &Job)
    requires { length line.old ≤ 750 }
    ensures text { line.new ≡ line.old ++ job_text job.now }
    ensures length { length line.new ≤ length line.old + 600 }
{
    if job.write {
        line.push_text(b"JOB WRITE ");
        push_place(line, job.area, job.width, job.at_byte);
        line.push_text(b" ");
        line.push_hex(job.width, job.value);
        return;
    }
    line.push_text(b"JOB READ ");
    push_place(line, job.area, job.width, job.at_byte);
}

/// Adds the reply to a job, at most 17 bytes.
fn push_reply(line: &mut Line, value: Option<u32>)
    requires { length line.old ≤ 100 }
    ensures text { line.new ≡ line.old ++ reply_text value }
    ensures length { length line.new ≤ length line.old + 17 }
{
    match value {
        Some(value) => {
            line.push_text(b"REPLY OK ");
            line.push_hex(4, value);
        }
        None => line.push_text(b"REPLY BAD"),
    }
}

/// Adds a request, at most 600 bytes.
#[tactic(auto, using(crate::proofs::Digits::twenty_digits, std::proofs::Common::append_assoc))]
fn push_ask(line: &mut Line, ask: &Ask)
    requires { length line.old ≤ 100 }
    ensures text { line.new ≡ line.old ++ ask_text ask.now }
    ensures length { length line.new ≤ length line.old + 600 }
{
    match ask {
        Ask::Outputs(bytes) => {
            line.push_text(b"OUT ");
            line.push_image(bytes);
        }
        Ask::Inputs => line.push_text(b"IN"),
        Ask::Cycle => line.push_text(b"CYCLE"),
        Ask::ReadP { addr, width } => {
            line.push_text(b"RP ");
            line.push_decimal(u64::from(*addr));
            line.push_text(b" ");
            line.push_decimal(u64::from(*width));
        }
        Ask::WriteP { addr, width, value } => {
            line.push_text(b"WP ");
            line.push_decimal(u64::from(*addr));
            line.push_text(b" ");
            line.push_decimal(u64::from(*width));
            line.push_text(b" ");
            line.push_hex(*width, *value);
        }
        Ask::Now => line.push_text(b"NOW"),
        Ask::Tick => line.push_text(b"TICK"),
        Ask::Retrigger => line.push_text(b"TRIG"),
        Ask::Reply(value) => push_reply(line, *value),
        Ask::Stop(code) => {
            line.push_text(b"STOP ");
            push_stop(line, *code);
        }
    }
}

/// Adds an answer, at most 600 bytes.
#[tactic(auto, using(crate::proofs::Digits::twenty_digits, std::proofs::Common::append_assoc))]
fn push_answer(line: &mut Line, answer: &Answer)
    requires { length line.old ≤ 750 }
    ensures text { line.new ≡ line.old ++ answer_text answer.now }
    ensures length { length line.new ≤ length line.old + 600 }
{
    match answer {
        Answer::Image(bytes) => {
            line.push_text(b"IMG ");
            line.push_image(bytes);
        }
        Answer::Value(value) => {
            line.push_text(b"VAL ");
            line.push_hex(4, *value);
        }
        Answer::Now(moment) => {
            line.push_text(b"NOW ");
            line.push_decimal(*moment);
        }
        Answer::Done => line.push_text(b"DONE"),
        Answer::Go => line.push_text(b"GO"),
        Answer::Hold => line.push_text(b"HOLD"),
        Answer::Alarm { ob, info } => {
            line.push_text(b"ALARM ");
            line.push_decimal(u64::from(*ob));
            line.push_text(b" ");
            line.push_hex(4, *info);
        }
        Answer::Job(job) => push_job(line, job),
        Answer::Lost { side, why } => push_lost(line, *side, *why),
        Answer::Back { side } => push_back(line, *side),
        Answer::NoModule => line.push_text(b"NOMODULE"),
        Answer::CpuStop(code) => {
            line.push_text(b"CPUSTOP ");
            push_stop(line, *code);
        }
    }
}

/// Begins the line anew with that of entry k.
#[tactic(auto, using(crate::proofs::Digits::twenty_digits, std::proofs::Common::append_assoc))]
pub fn put_entry(line: &mut Line, k: u64, entry: &Entry)
    ensures { line.new ≡ entry_line k entry.now }
{
    line.clear();
    line.push_decimal(k);
    line.push_text(b" ");
    line.push_decimal(u64::from(entry.request.prio));
    line.push_text(b" ");
    push_ask(line, &entry.request.ask);
    line.push_text(b" = ");
    push_answer(line, &entry.answer);
    line.push_text(b"\n");
}
