//! What the CPU asked and what it was answered.
ghost use Rattle.std.specs.Prelude.{◌≡◌, ◌++◌, IfSome};
ghost use Rattle.std.specs.Option.{option_map};
ghost use Rattle.trace_reader.specs.Requests.{plain_request_at, access_at, reply_at, request_at, plain_answer_at, value_answer_at, job_at, alarm_at, back_at, state_answer_at, answer_at, numbered_event_at, event_at};
ghost use Rattle.trace_reader.specs.Ranges.{FitsRequest, FitsAnswer, FitsEvent};
ghost use Rattle.trace_reader.specs.Text.{request_text, answer_text, entry_line, event_text, side_text, back_text};

use crate::fields::{after, double_at, number_at};
use crate::images::process_image_at;
use crate::trace::{Answer, Event, Request, Side};
use crate::words::{
    address_at, lost_at, place_at, side_at, small_at, stop_at, value_at, width_digit_at,
};

/// Returns a request of one word, and the text after it.
#[tactic(auto, unfolding(crate::specs::Requests::plain_request_at))]
fn plain_request_at(text: &[u8]) -> Option<(Request, &[u8])>
    ensures exact { option_map (λ p. (p.0, p.1.now)) result ≡ plain_request_at text.now }
    ensures written { IfSome result (λ p. text.now ≡ request_text p.0 ++ p.1.now) }
    ensures fits { IfSome result (λ p. FitsRequest p.0) }
{
    if let Some(rest) = after(b"IN", text) {
        return Some((Request::Inputs, rest));
    }
    if let Some(rest) = after(b"CYCLE", text) {
        return Some((Request::Cycle, rest));
    }
    if let Some(rest) = after(b"NOW", text) {
        return Some((Request::Now, rest));
    }
    if let Some(rest) = after(b"TICK", text) {
        return Some((Request::Tick, rest));
    }
    let rest = after(b"TRIG", text)?;
    Some((Request::Retrigger, rest))
}

/// Returns an access to the periphery, and the text after it.
#[tactic(auto, unfolding(crate::specs::Requests::access_at), using(std::proofs::Common::append_assoc))]
fn access_at(text: &[u8]) -> Option<(Request, &[u8])>
    ensures exact { option_map (λ p. (p.0, p.1.now)) result ≡ access_at text.now }
    ensures written { IfSome result (λ p. text.now ≡ request_text p.0 ++ p.1.now) }
    ensures fits { IfSome result (λ p. FitsRequest p.0) }
{
    if let Some(rest) = after(b"RP ", text) {
        let (at, rest) = address_at(rest)?;
        let rest = after(b" ", rest)?;
        let (width, rest) = width_digit_at(rest)?;
        return Some((Request::ReadPeripheral { at, width }, rest));
    }
    let rest = after(b"WP ", text)?;
    let (at, rest) = address_at(rest)?;
    let rest = after(b" ", rest)?;
    let (width, rest) = width_digit_at(rest)?;
    let rest = after(b" ", rest)?;
    let (value, rest) = value_at(rest, width)?;
    Some((Request::WritePeripheral { at, width, value }, rest))
}

/// Returns the reply to a job, and the text after it.
#[tactic(auto, unfolding(crate::specs::Requests::reply_at), using(std::proofs::Common::append_assoc))]
fn reply_at(text: &[u8]) -> Option<(Request, &[u8])>
    ensures exact { option_map (λ p. (p.0, p.1.now)) result ≡ reply_at text.now }
    ensures written { IfSome result (λ p. text.now ≡ request_text p.0 ++ p.1.now) }
    ensures fits { IfSome result (λ p. FitsRequest p.0) }
{
    if let Some(rest) = after(b"REPLY OK ", text) {
        let (value, rest) = double_at(rest)?;
        return Some((Request::Reply(Some(value)), rest));
    }
    let rest = after(b"REPLY BAD", text)?;
    Some((Request::Reply(None), rest))
}

/// Returns a request, and the text after it.
#[tactic(auto, unfolding(crate::specs::Requests::request_at), using(std::proofs::Common::append_assoc))]
pub fn request_at(text: &[u8]) -> Option<(Request, &[u8])>
    ensures exact { option_map (λ p. (p.0, p.1.now)) result ≡ request_at text.now }
    ensures written { IfSome result (λ p. text.now ≡ request_text p.0 ++ p.1.now) }
    ensures fits { IfSome result (λ p. FitsRequest p.0) }
{
    if let Some(rest) = after(b"OUT ", text) {
        let (bytes, rest) = process_image_at(rest)?;
        return Some((Request::Outputs(bytes), rest));
    }
    if let Some(rest) = after(b"STOP ", text) {
        let (code, rest) = stop_at(rest)?;
        return Some((Request::Stop(code), rest));
    }
    if let Some(found) = plain_request_at(text) {
        return Some(found);
    }
    if let Some(found) = access_at(text) {
        return Some(found);
    }
    reply_at(text)
}

/// Returns an answer of one word, and the text after it.
#[tactic(auto, unfolding(crate::specs::Requests::plain_answer_at))]
fn plain_answer_at(text: &[u8]) -> Option<(Answer, &[u8])>
    ensures exact { option_map (λ p. (p.0, p.1.now)) result ≡ plain_answer_at text.now }
    ensures written { IfSome result (λ p. text.now ≡ answer_text p.0 ++ p.1.now) }
    ensures fits { IfSome result (λ p. FitsAnswer p.0) }
{
    if let Some(rest) = after(b"DONE", text) {
        return Some((Answer::Done, rest));
    }
    if let Some(rest) = after(b"GO", text) {
        return Some((Answer::Go, rest));
    }
    if let Some(rest) = after(b"HOLD", text) {
        return Some((Answer::Hold, rest));
    }
    let rest = after(b"NOMODULE", text)?;
    Some((Answer::NoModule, rest))
}

/// Returns an answer with a value, and the text after it.
#[tactic(auto, unfolding(crate::specs::Requests::value_answer_at), using(std::proofs::Common::append_assoc))]
fn value_answer_at(text: &[u8]) -> Option<(Answer, &[u8])>
    ensures exact { option_map (λ p. (p.0, p.1.now)) result ≡ value_answer_at text.now }
    ensures written { IfSome result (λ p. text.now ≡ answer_text p.0 ++ p.1.now) }
    ensures fits { IfSome result (λ p. FitsAnswer p.0) }
{
    if let Some(rest) = after(b"IMG ", text) {
        let (bytes, rest) = process_image_at(rest)?;
        return Some((Answer::Image(bytes), rest));
    }
    if let Some(rest) = after(b"VAL ", text) {
        let (value, rest) = double_at(rest)?;
        return Some((Answer::Value(value), rest));
    }
    let rest = after(b"NOW ", text)?;
    let (moment, rest) = number_at(rest, u32::MAX)?;
    Some((Answer::Now(moment), rest))
}

/// Returns a job, and the text after it.
#[tactic(auto, unfolding(crate::specs::Requests::job_at), using(std::proofs::Common::append_assoc))]
fn job_at(text: &[u8]) -> Option<(Answer, &[u8])>
    ensures exact { option_map (λ p. (p.0, p.1.now)) result ≡ job_at text.now }
    ensures written { IfSome result (λ p. text.now ≡ answer_text p.0 ++ p.1.now) }
    ensures fits { IfSome result (λ p. FitsAnswer p.0) }
{
    if let Some(rest) = after(b"JOB READ ", text) {
        let (place, rest) = place_at(rest)?;
        return Some((Answer::ReadJob(place), rest));
    }
    let rest = after(b"JOB WRITE ", text)?;
    let (place, rest) = place_at(rest)?;
    let rest = after(b" ", rest)?;
    let (value, rest) = value_at(rest, place.width)?;
    Some((Answer::WriteJob { place, value }, rest))
}

/// Returns an alarm, and the text after it.
#[tactic(auto, unfolding(crate::specs::Requests::alarm_at), using(std::proofs::Common::append_assoc))]
fn alarm_at(text: &[u8]) -> Option<(Answer, &[u8])>
    ensures exact { option_map (λ p. (p.0, p.1.now)) result ≡ alarm_at text.now }
    ensures written { IfSome result (λ p. text.now ≡ answer_text p.0 ++ p.1.now) }
    ensures fits { IfSome result (λ p. FitsAnswer p.0) }
{
    let rest = after(b"ALARM ", text)?;
    let (ob, rest) = small_at(rest)?;
    let rest = after(b" ", rest)?;
    let (info, rest) = double_at(rest)?;
    Some((Answer::Alarm { ob, info }, rest))
}

/// Returns the side that has come back, and the text after it.
#[tactic(auto, unfolding(crate::specs::Requests::back_at), using(std::proofs::Common::append_assoc))]
fn back_at(text: &[u8]) -> Option<(Side, &[u8])>
    ensures exact { option_map (λ p. (p.0, p.1.now)) result ≡ back_at text.now }
    ensures written { IfSome result (λ p. text.now ≡ back_text p.0 ++ p.1.now) }
{
    let rest = after(b"BACK ", text)?;
    side_at(rest)
}

/// Returns what became of a side or of the CPU, and the text after it.
#[tactic(auto, unfolding(crate::specs::Requests::state_answer_at), using(std::proofs::Common::append_assoc))]
fn state_answer_at(text: &[u8]) -> Option<(Answer, &[u8])>
    ensures exact { option_map (λ p. (p.0, p.1.now)) result ≡ state_answer_at text.now }
    ensures written { IfSome result (λ p. text.now ≡ answer_text p.0 ++ p.1.now) }
    ensures fits { IfSome result (λ p. FitsAnswer p.0) }
{
    if let Some(((side, why), rest)) = lost_at(text) {
        return Some((Answer::Lost { side, why }, rest));
    }
    if let Some((side, rest)) = back_at(text) {
        return Some((Answer::Back(side), rest));
    }
    let rest = after(b"CPUSTOP ", text)?;
    let (code, rest) = stop_at(rest)?;
    Some((Answer::CpuStop(code), rest))
}

/// Returns an answer, and the text after it.
#[tactic(auto, unfolding(crate::specs::Requests::answer_at))]
pub fn answer_at(text: &[u8]) -> Option<(Answer, &[u8])>
    ensures exact { option_map (λ p. (p.0, p.1.now)) result ≡ answer_at text.now }
    ensures written { IfSome result (λ p. text.now ≡ answer_text p.0 ++ p.1.now) }
    ensures fits { IfSome result (λ p. FitsAnswer p.0) }
{
    if let Some(found) = plain_answer_at(text) {
        return Some(found);
    }
    if let Some(found) = value_answer_at(text) {
        return Some(found);
    }
    if let Some(found) = job_at(text) {
        return Some(found);
    }
    if let Some(found) = alarm_at(text) {
        return Some(found);
    }
    state_answer_at(text)
}

/// Returns an event with a number, and the text after it.
#[tactic(auto, unfolding(crate::specs::Requests::numbered_event_at), using(std::proofs::Common::append_assoc))]
fn numbered_event_at(text: &[u8]) -> Option<(Event, &[u8])>
    ensures exact { option_map (λ p. (p.0, p.1.now)) result ≡ numbered_event_at text.now }
    ensures written { IfSome result (λ p. text.now ≡ event_text p.0 ++ p.1.now) }
    ensures fits { IfSome result (λ p. FitsEvent p.0) }
{
    if let Some(rest) = after(b"ERROR ", text) {
        let (number, rest) = small_at(rest)?;
        return Some((Event::Error(number), rest));
    }
    if let Some(rest) = after(b"OB85 ", text) {
        let (number, rest) = small_at(rest)?;
        return Some((Event::MissingOb(number), rest));
    }
    let rest = after(b"DISCREP ", text)?;
    let (address, rest) = address_at(rest)?;
    Some((Event::Discrepancy(address), rest))
}

/// Returns what a diagnostic entry says, and the text after it.
#[tactic(auto, unfolding(crate::specs::Requests::event_at), using(std::proofs::Common::append_assoc))]
pub fn event_at(text: &[u8]) -> Option<(Event, &[u8])>
    ensures exact { option_map (λ p. (p.0, p.1.now)) result ≡ event_at text.now }
    ensures written { IfSome result (λ p. text.now ≡ event_text p.0 ++ p.1.now) }
    ensures fits { IfSome result (λ p. FitsEvent p.0) }
{
    if let Some(rest) = after(b"START", text) {
        return Some((Event::Start, rest));
    }
    if let Some(rest) = after(b"CYCLE", text) {
        return Some((Event::Cycle, rest));
    }
    if let Some(((side, why), rest)) = lost_at(text) {
        return Some((Event::Lost { side, why }, rest));
    }
    if let Some((side, rest)) = back_at(text) {
        return Some((Event::Back(side), rest));
    }
    if let Some(rest) = after(b"STOP ", text) {
        let (code, rest) = stop_at(rest)?;
        return Some((Event::Stop(code), rest));
    }
    numbered_event_at(text)
}
