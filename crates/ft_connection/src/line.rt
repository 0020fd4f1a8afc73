//! Reads a line.
ghost use Rattle.std.specs.Prelude.{◌≡◌, ℕ};
ghost use Rattle.ft_connection.specs.LineForm.{path_spelled, path_event, counted_event, event_spelled, form_spelled, line_spelled};

use crate::event::Event;
use crate::frame::Path;
use crate::words::{job_from, number_from, split_word};

/// What a line says.
#[derive(Clone, Copy, Debug, PartialEq, Eq)]
pub enum Line {
    /// `JOB x`: the next of the jobs.
    Job(u32),
    /// An event.
    Happens(Event),
    /// `END`.
    End,
}

/// The path of a word.
fn path_from(word: &[u8]) -> Option<Path>
    ensures { result ≡ path_spelled word.now }
{
    match word {
        b"1" => Some(Path::One),
        b"2" => Some(Path::Two),
        _ => None,
    }
}

/// `SEND p`, `DOWN p` or `UP p`, by its first word.
fn path_event(first: &[u8], path: Path) -> Option<Event>
    ensures { result ≡ path_event first.now path }
{
    if first == b"SEND".as_slice() {
        return Some(Event::Send(path));
    }
    if first == b"DOWN".as_slice() {
        return Some(Event::Down(path));
    }
    if first == b"UP".as_slice() {
        return Some(Event::Up(path));
    }
    None
}

/// `DELIVER p i` or `ACK p i`, by its first word.
fn counted_event(first: &[u8], path: Path, which: u32) -> Option<Event>
    ensures { result ≡ counted_event first.now path which }
{
    if first == b"DELIVER".as_slice() {
        return Some(Event::Deliver(path, which));
    }
    if first == b"ACK".as_slice() {
        return Some(Event::Ack(path, which));
    }
    None
}

/// An event by its words, the third empty where there are two.
#[tactic(auto, unfolding(crate::specs::LineForm::event_spelled))]
fn event_from(first: &[u8], second: &[u8], third: &[u8]) -> Option<Event>
    ensures { result ≡ event_spelled first.now second.now third.now }
{
    let path = path_from(second)?;
    if third.is_empty() {
        return path_event(first, path);
    }
    let which = number_from(third)?;
    counted_event(first, path, which)
}

/// A line by its words, the missing ones empty.
#[tactic(auto, unfolding(crate::specs::LineForm::form_spelled))]
fn form_from(first: &[u8], second: &[u8], third: &[u8]) -> Option<Line>
    ensures { result ≡ form_spelled first.now second.now third.now }
{
    if first == b"END".as_slice() {
        return if second.is_empty() {
            Some(Line::End)
        } else {
            None
        };
    }
    if first == b"JOB".as_slice() {
        if !third.is_empty() {
            return None;
        }
        let job = job_from(second)?;
        return Some(Line::Job(job));
    }
    let event = event_from(first, second, third)?;
    Some(Line::Happens(event))
}

/// A line, without its end. None where it has no form.
pub(crate) fn line_from(text: &[u8]) -> Option<Line>
    ensures { result ≡ line_spelled text.now }
{
    let (first, rest) = split_word(text);
    let (second, rest) = split_word(rest);
    let (third, rest) = split_word(rest);
    let (fourth, _) = split_word(rest);
    if !fourth.is_empty() {
        return None;
    }
    form_from(first, second, third)
}
