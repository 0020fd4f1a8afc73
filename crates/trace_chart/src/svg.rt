//! A trace as a timeline: lanes of the sides and of the signals, marks, and an axis of time.
ghost use Rattle.std.specs.Prelude.{◌≡◌, ◌++◌, OnOk};
ghost use Rattle.std.specs.List.{flat_map};
ghost use Rattle.std.specs.Fmt.{decimal};
ghost use Rattle.trace_chart.specs.Chart.{place, height_of, edge_text, path_text};

use crate::lanes::{Change, Lane};
use crate::page::Page;
use crate::sides::{Role, Span, shows, spans};
use crate::vcd::add_name;
use std::alloc::{AllocError, Global};
use trace_reader::{Answer, Ending, Entry, Event, Mode, Note, Request, Side, Trace};

/// Where the lanes begin, and how wide they are, in pixels.
const LEFT: u64 = 90;

const WIDTH: u64 = 860;

/// Where the lanes begin below the title and the names of the marks, in pixels.
const TOP: u64 = 90;

/// How high a lane is, in pixels.
const HEIGHT: u64 = 30;

/// Where something stands.
#[derive(Clone, Copy, Debug)]
struct Scale {
    /// The moment at the right end, in ms.
    end: u64,
}

impl Scale {
    /// Returns the pixel of a moment.
    fn x(self, moment: u64) -> u64
        ensures { result ≡ place self.end moment }
    {
        let along = u128::from(moment) * 860 / u128::from(self.end.max(1));
        LEFT + along.min(860) as u64
    }
}

/// Adds an attribute with a number.
fn add_attribute(page: &mut Page, name: &[u8], value: u64) -> Result<(), AllocError> {
    page.text(b" ")?;
    page.text(name)?;
    page.text(b"=\"")?;
    page.number(value)?;
    page.text(b"\"")
}

/// Begins a text at a place.
fn begin_text(page: &mut Page, x: u64, y: u64, class: &[u8]) -> Result<(), AllocError> {
    page.text(b"<text")?;
    add_attribute(page, b"x", x)?;
    add_attribute(page, b"y", y)?;
    page.text(b" class=\"")?;
    page.text(class)?;
    page.text(b"\">")
}

/// Ends a text.
fn end_text(page: &mut Page) -> Result<(), AllocError> {
    page.text(b"</text>\n")
}

/// Adds a vertical line.
fn add_upright(
    page: &mut Page,
    x: u64,
    top: u64,
    bottom: u64,
    class: &[u8],
) -> Result<(), AllocError> {
    page.text(b"<line")?;
    add_attribute(page, b"x1", x)?;
    add_attribute(page, b"y1", top)?;
    add_attribute(page, b"x2", x)?;
    add_attribute(page, b"y2", bottom)?;
    page.text(b" class=\"")?;
    page.text(class)?;
    page.text(b"\"/>\n")
}

/// Returns the height at which a value is drawn.
fn height_of(value: bool, high: u64, low: u64) -> u64
    ensures { result ≡ height_of value high low }
{
    if value { high } else { low }
}

/// Adds an edge: across to the moment, then up or down to the value.
#[tactic(auto, using(std::proofs::Common::append_assoc))]
fn add_edge(
    page: &mut Page,
    scale: Scale,
    change: Change,
    high: u64,
    low: u64,
) -> Result<(), AllocError>
    ensures { OnOk result (page.new.bytes.items ≡ page.old.bytes.items ++ edge_text scale.end high low change) }
{
    page.text(b" H")?;
    page.number(scale.x(change.moment as u64))?;
    page.text(b" V")?;
    page.number(height_of(change.value, high, low))
}

/// Adds the edges of a lane, whose values stand at `high` and at `low`: one for each change, in order.
#[tactic(auto, using(std::proofs::Common::append_assoc))]
fn add_edges(
    page: &mut Page,
    scale: Scale,
    changes: &[Change],
    high: u64,
    low: u64,
) -> Result<(), AllocError>
    ensures { OnOk result (page.new.bytes.items ≡ page.old.bytes.items ++ flat_map (edge_text scale.end high low) changes.now) }
{
    for change in changes {
        add_edge(page, scale, *change, high, low)?;
    }
    Ok(())
}

/// Adds the line of a lane: low at first, its edges, and on to the right end.
#[tactic(auto, using(std::proofs::Common::append_assoc))]
fn add_path(
    page: &mut Page,
    scale: Scale,
    changes: &[Change],
    high: u64,
    low: u64,
) -> Result<(), AllocError>
    ensures { OnOk result (page.new.bytes.items ≡ page.old.bytes.items ++ path_text scale.end high low changes.now) }
{
    page.text(b"M90 ")?;
    page.number(low)?;
    add_edges(page, scale, changes, high, low)?;
    page.text(b" H950")
}

/// Adds the lane of a signal, with its name.
fn add_lane(page: &mut Page, scale: Scale, lane: &Lane, top: u64) -> Result<(), AllocError> {
    begin_text(page, 10, top.saturating_add(18), b"name")?;
    add_name(page, lane.signal)?;
    end_text(page)?;
    let high = top.saturating_add(6);
    let low = top.saturating_add(22);
    page.text(b"<path class=\"edge\" d=\"")?;
    add_path(page, scale, lane.changes.as_slice(), high, low)?;
    page.text(b"\"/>\n")
}

/// Returns the class of a role.
fn role_class(role: Role) -> &'static [u8] {
    match role {
        Role::Master => b"master",
        Role::Reserve => b"reserve",
        Role::LinkUp => b"linkup",
        Role::Out => b"out",
    }
}

/// Adds the bar of a side from one moment to another.
fn add_bar(
    page: &mut Page,
    scale: Scale,
    role: Role,
    from: u64,
    to: u64,
    top: u64,
) -> Result<(), AllocError> {
    page.text(b"<rect")?;
    let left = scale.x(from);
    add_attribute(page, b"x", left)?;
    add_attribute(page, b"y", top.saturating_add(6))?;
    add_attribute(page, b"width", scale.x(to).saturating_sub(left))?;
    add_attribute(page, b"height", 16)?;
    page.text(b" class=\"")?;
    page.text(role_class(role))?;
    page.text(b"\"/>\n")
}

/// Returns the role of a side.
fn role_of(span: Span, side: Side) -> Role {
    match side {
        Side::A => span.roles.a,
        Side::B => span.roles.b,
    }
}

/// Returns the moment at which a span ends.
fn end_of(spans: &[Span], index: usize, end: u64) -> u64 {
    match spans.get(index.saturating_add(1)) {
        Some(span) => span.moment as u64,
        None => end,
    }
}

/// Adds the bars of a side.
fn add_bars(
    page: &mut Page,
    scale: Scale,
    spans: &[Span],
    side: Side,
    top: u64,
) -> Result<(), AllocError> {
    for index in 0..spans.len() {
        let span = spans[index];
        let to = end_of(spans, index, scale.end);
        add_bar(
            page,
            scale,
            role_of(span, side),
            span.moment as u64,
            to,
            top,
        )?;
    }
    Ok(())
}

/// Adds a tick above the bar of a side at each of these moments.
fn add_ticks(page: &mut Page, scale: Scale, moments: &[usize], top: u64) -> Result<(), AllocError> {
    for moment in moments {
        let x = scale.x(*moment as u64);
        add_upright(page, x, top, top.saturating_add(6), b"edge")?;
    }
    Ok(())
}

/// Adds the lane of a side: its name, its bars, and a tick for each output that it shows.
fn add_side(
    alloc: Global,
    page: &mut Page,
    scale: Scale,
    trace: &Trace,
    side: Side,
    top: u64,
) -> Result<(), AllocError> {
    begin_text(page, 10, top.saturating_add(18), b"name")?;
    page.text(b"side ")?;
    add_letter(page, side)?;
    end_text(page)?;
    let entries = trace.entries.as_slice();
    let spans = spans(alloc, trace.mode, entries)?;
    add_bars(page, scale, spans.as_slice(), side, top)?;
    let moments = shows(alloc, side, entries)?;
    add_ticks(page, scale, moments.as_slice(), top)
}

/// Adds the lanes of the sides that the mode has. Returns where they end.
fn add_sides(
    alloc: Global,
    page: &mut Page,
    scale: Scale,
    trace: &Trace,
    top: u64,
) -> Result<u64, AllocError> {
    add_side(alloc, page, scale, trace, Side::A, top)?;
    let next = top.saturating_add(HEIGHT);
    match trace.mode {
        Mode::Solo => Ok(next),
        Mode::Pair => {
            add_side(alloc, page, scale, trace, Side::B, next)?;
            Ok(next.saturating_add(HEIGHT))
        }
    }
}

/// Adds the letter of a side.
fn add_letter(page: &mut Page, side: Side) -> Result<(), AllocError> {
    match side {
        Side::A => page.text(b"A"),
        Side::B => page.text(b"B"),
    }
}

/// Adds the text of a mark of an entry.
fn add_mark_text(page: &mut Page, entry: &Entry) -> Result<(), AllocError> {
    match (entry.request, entry.answer) {
        (_, Answer::Alarm { ob, .. }) => {
            page.text(b"alarm OB ")?;
            page.number(u64::from(ob))
        }
        (_, Answer::Lost { side, .. }) => {
            page.text(b"lost ")?;
            add_letter(page, side)
        }
        (_, Answer::Back(side)) => {
            page.text(b"back ")?;
            add_letter(page, side)
        }
        (Request::Stop(_), _) | (_, Answer::CpuStop(_)) => page.text(b"stop"),
        _ => Ok(()),
    }
}

/// Returns whether an entry is marked: an alarm, a loss, a return or a stop.
fn is_marked(entry: &Entry) -> bool {
    let stops = matches!(entry.request, Request::Stop(_));
    stops
        || matches!(
            entry.answer,
            Answer::Alarm { .. } | Answer::Lost { .. } | Answer::Back(_) | Answer::CpuStop(_)
        )
}

/// Returns where the text of a mark stands: in one of three rows by turns, so that neighbours do not overlap.
fn mark_y(number: u64, top: u64) -> u64 {
    top.saturating_add(14 * (number % 3 + 1))
}

/// Begins the text of a mark: right of its line, or left of it near the right end.
fn begin_mark(page: &mut Page, x: u64, y: u64) -> Result<(), AllocError> {
    if x > 840 {
        begin_text(page, x.saturating_sub(3), y, b"before")
    } else {
        begin_text(page, x.saturating_add(3), y, b"event")
    }
}

/// Adds a mark of each alarm, loss, return and stop. Returns their number.
fn add_entry_marks(
    page: &mut Page,
    scale: Scale,
    entries: &[Entry],
    top: u64,
    bottom: u64,
) -> Result<u64, AllocError> {
    let mut number: u64 = 0;
    for (k, entry) in entries.iter().enumerate() {
        if is_marked(entry) {
            let x = scale.x(k as u64);
            add_upright(page, x, top, bottom, b"mark")?;
            begin_mark(page, x, mark_y(number, top))?;
            add_mark_text(page, entry)?;
            end_text(page)?;
            number = number.wrapping_add(1);
        }
    }
    Ok(number)
}

/// Adds the text of a mark of a diagnostic entry.
fn add_note_text(page: &mut Page, event: Event) -> Result<(), AllocError> {
    match event {
        Event::Error(number) => {
            page.text(b"error ")?;
            page.number(u64::from(number))
        }
        Event::Cycle => page.text(b"cycle time"),
        Event::MissingOb(number) => {
            page.text(b"OB ")?;
            page.number(u64::from(number))?;
            page.text(b" missing")
        }
        Event::Discrepancy(address) => {
            page.text(b"discrepancy ")?;
            page.number(u64::from(address))
        }
        Event::Start | Event::Lost { .. } | Event::Back(_) | Event::Stop(_) => Ok(()),
    }
}

/// Returns whether a diagnostic entry is marked: what no entry of the trace says.
fn is_error(event: Event) -> bool {
    match event {
        Event::Error(_) | Event::Cycle | Event::MissingOb(_) | Event::Discrepancy(_) => true,
        Event::Start | Event::Lost { .. } | Event::Back(_) | Event::Stop(_) => false,
    }
}

/// Adds a mark of each diagnostic entry that is marked. The first takes the row of number `first`.
fn add_note_marks(
    page: &mut Page,
    scale: Scale,
    notes: &[Note],
    top: u64,
    bottom: u64,
    first: u64,
) -> Result<(), AllocError> {
    let mut number = first;
    for note in notes {
        if is_error(note.event) {
            let x = scale.x(u64::from(note.moment));
            add_upright(page, x, top, bottom, b"mark")?;
            begin_mark(page, x, mark_y(number, top))?;
            add_note_text(page, note.event)?;
            end_text(page)?;
            number = number.wrapping_add(1);
        }
    }
    Ok(())
}

/// Returns the distance of the lines of the time axis, in ms: 1, 2 or 5 times a power of ten, at most twelve to the end.
fn step_of(end: u64) -> u64 {
    let mut step: u64 = 1;
    for turn in 0..57u32 {
        if end / step.max(1) <= 12 {
            return step;
        }
        step = if turn % 3 == 1 {
            step.saturating_mul(5) / 2
        } else {
            step.saturating_mul(2)
        };
    }
    step
}

/// Adds the time axis: a line and its moment at each step.
fn add_axis(page: &mut Page, scale: Scale, top: u64, bottom: u64) -> Result<(), AllocError> {
    let step = step_of(scale.end).max(1);
    for turn in 0..14u64 {
        let moment = turn.saturating_mul(step);
        if moment <= scale.end {
            let x = scale.x(moment);
            add_upright(page, x, top, bottom, b"grid")?;
            begin_text(page, x, bottom.saturating_add(16), b"time")?;
            page.number(moment)?;
            end_text(page)?;
        }
    }
    begin_text(page, 10, bottom.saturating_add(16), b"name")?;
    page.text(b"ms")?;
    end_text(page)
}

/// Adds how a trace ended.
fn add_ending(page: &mut Page, ending: Ending) -> Result<(), AllocError> {
    match ending {
        Ending::End => page.text(b"to the end"),
        Ending::Stop(_) => page.text(b"to the stop of the CPU"),
        Ending::NoneLeft => page.text(b"until no side was left"),
        Ending::Spent => page.text(b"until the schedule was spent"),
    }
}

/// Adds the title: the first line of the trace, its entries and how it ended.
fn add_title(page: &mut Page, trace: &Trace) -> Result<(), AllocError> {
    begin_text(page, 10, 24, b"title")?;
    match trace.mode {
        Mode::Solo => page.text(b"TRACE 1 SOLO: ")?,
        Mode::Pair => page.text(b"TRACE 1 PAIR: ")?,
    }
    page.number(trace.entries.len() as u64)?;
    page.text(b" entries, ")?;
    add_ending(page, trace.ending)?;
    end_text(page)
}

/// How the chart looks: black, white and grey, so that it can be read when printed.
const STYLE: &[u8] =
    b"<style>text{font-family:sans-serif;font-size:12px}.title{font-size:16px;font-weight:bold}\
.name{font-weight:bold}.time{text-anchor:middle}.edge{fill:none;stroke:#000;stroke-width:2}.grid{stroke:#ccc}\
.mark{stroke:#000;stroke-dasharray:4 3}.event{font-size:11px}.before{font-size:11px;text-anchor:end}.master{fill:#333;stroke:#000}\
.reserve{fill:#ddd;stroke:#000}.linkup{fill:#fff;stroke:#000;stroke-dasharray:3 2}.out{fill:none}</style>\n";

/// Adds what the bars and the ticks mean.
fn add_legend(page: &mut Page, y: u64) -> Result<(), AllocError> {
    let names: [(&[u8], Role); 3] = [
        (b"master", Role::Master),
        (b"reserve", Role::Reserve),
        (b"link-up and update", Role::LinkUp),
    ];
    let mut x = LEFT;
    for (name, role) in names {
        page.text(b"<rect")?;
        add_attribute(page, b"x", x)?;
        add_attribute(page, b"y", y)?;
        page.text(b" width=\"16\" height=\"12\" class=\"")?;
        page.text(role_class(role))?;
        page.text(b"\"/>\n")?;
        begin_text(page, x.saturating_add(22), y.saturating_add(11), b"role")?;
        page.text(name)?;
        end_text(page)?;
        x = x.saturating_add(120);
    }
    add_tick_legend(page, y)
}

/// Adds what the ticks mean.
fn add_tick_legend(page: &mut Page, y: u64) -> Result<(), AllocError> {
    add_upright(page, 508, y.saturating_add(3), y.saturating_add(9), b"edge")?;
    begin_text(page, 518, y.saturating_add(11), b"role")?;
    page.text(b"the side shows an output")?;
    end_text(page)
}

/// Adds the first tag, for a chart of this height.
fn begin_chart(page: &mut Page, height: u64) -> Result<(), AllocError> {
    page.text(b"<svg xmlns=\"http://www.w3.org/2000/svg\"")?;
    add_attribute(page, b"width", LEFT + WIDTH + 50)?;
    add_attribute(page, b"height", height)?;
    page.text(b">\n<rect width=\"100%\" height=\"100%\" fill=\"#fff\"/>\n")?;
    page.text(STYLE)
}

/// Adds the lanes of the signals, the first at `top`.
fn add_lanes(page: &mut Page, scale: Scale, lanes: &[Lane], top: u64) -> Result<(), AllocError> {
    let mut at = top;
    for lane in lanes {
        add_lane(page, scale, lane, at)?;
        at = at.saturating_add(HEIGHT);
    }
    Ok(())
}

/// Adds the marks of the entries and of the diagnostic buffer.
fn add_marks(
    page: &mut Page,
    scale: Scale,
    trace: &Trace,
    top: u64,
    bottom: u64,
) -> Result<(), AllocError> {
    let number = add_entry_marks(page, scale, trace.entries.as_slice(), top, bottom)?;
    match &trace.tail {
        Some(tail) => add_note_marks(page, scale, tail.notes.as_slice(), top, bottom, number),
        None => Ok(()),
    }
}

/// Returns where the lanes end.
fn bottom_of(mode: Mode, lanes: usize) -> u64 {
    let sides = match mode {
        Mode::Solo => TOP + HEIGHT,
        Mode::Pair => TOP + 2 * HEIGHT,
    };
    HEIGHT.saturating_mul(lanes as u64).saturating_add(sides)
}

/// Adds the chart of a trace: the sides, the signals that change, the marks and the time axis.
pub fn draw(
    alloc: Global,
    page: &mut Page,
    trace: &Trace,
    lanes: &[Lane],
) -> Result<(), AllocError> {
    let scale = Scale {
        end: trace.entries.len() as u64,
    };
    let bottom = bottom_of(trace.mode, lanes.len());
    begin_chart(page, bottom.saturating_add(60))?;
    add_title(page, trace)?;
    add_axis(page, scale, 40, bottom)?;
    let signals = add_sides(alloc, page, scale, trace, TOP)?;
    add_lanes(page, scale, lanes, signals)?;
    add_marks(page, scale, trace, 40, bottom)?;
    add_legend(page, bottom.saturating_add(32))?;
    page.text(b"</svg>\n")
}
