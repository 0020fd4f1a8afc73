//! What each side is, moment by moment, and when it shows an output.
ghost use Rattle.std.specs.Prelude.{◌≡◌, IfOk};
ghost use Rattle.trace_chart.specs.Sides.{first_roles, promoted, held, after_loss, after_return, after_answer, is_same, are_same, spans_of, is_side, has_shown, shows_of};

use std::alloc::{AllocError, Global};
use trace_reader::{Answer, Entry, Mode, Showings, Side};

/// What a side is.
#[derive(Clone, Copy, Debug, PartialEq, Eq)]
pub enum Role {
    /// It runs, and its outputs are shown.
    Master,
    /// It runs beside the master.
    Reserve,
    /// It is linked up and updated, while the pair holds.
    LinkUp,
    /// It does not run.
    Out,
}

/// What both sides are.
#[derive(Clone, Copy, Debug, PartialEq, Eq)]
pub struct Roles {
    pub a: Role,
    pub b: Role,
}

/// From this moment on, in ms, the sides are these.
#[derive(Clone, Copy, Debug, PartialEq, Eq)]
pub struct Span {
    pub moment: usize,
    pub roles: Roles,
}

/// Returns what the sides are at first.
fn first_roles(mode: Mode) -> Roles
    ensures { result ≡ first_roles mode }
{
    let b = match mode {
        Mode::Solo => Role::Out,
        Mode::Pair => Role::Reserve,
    };
    Roles { a: Role::Master, b }
}

/// Returns what a side is where the other is lost.
fn promoted(role: Role) -> Role
    ensures { result ≡ promoted role }
{
    match role {
        Role::Master | Role::Reserve => Role::Master,
        Role::LinkUp | Role::Out => Role::Out,
    }
}

/// Returns what a side is while the pair holds.
fn held(role: Role) -> Role
    ensures { result ≡ held role }
{
    match role {
        Role::Master => Role::Master,
        Role::Reserve => Role::Reserve,
        Role::LinkUp | Role::Out => Role::LinkUp,
    }
}

/// Returns what the sides are after the loss of one.
fn after_loss(side: Side, roles: Roles) -> Roles
    ensures { result ≡ after_loss side roles }
{
    match side {
        Side::A => Roles {
            a: Role::Out,
            b: promoted(roles.b),
        },
        Side::B => Roles {
            a: promoted(roles.a),
            b: Role::Out,
        },
    }
}

/// Returns what the sides are after one has come back.
fn after_return(side: Side, roles: Roles) -> Roles
    ensures { result ≡ after_return side roles }
{
    match side {
        Side::A => Roles {
            a: Role::Reserve,
            b: roles.b,
        },
        Side::B => Roles {
            a: roles.a,
            b: Role::Reserve,
        },
    }
}

/// Returns what the sides are after an answer.
fn after_answer(answer: Answer, roles: Roles) -> Roles
    ensures { result ≡ after_answer answer roles }
{
    match answer {
        Answer::Lost { side, .. } => after_loss(side, roles),
        Answer::Back(side) => after_return(side, roles),
        Answer::Hold => Roles {
            a: held(roles.a),
            b: held(roles.b),
        },
        _ => roles,
    }
}

/// Returns whether two roles are the same.
fn is_same(now: Role, before: Role) -> bool
    ensures { result ≡ is_same now before }
{
    match (now, before) {
        (Role::Master, Role::Master) => true,
        (Role::Reserve, Role::Reserve) => true,
        (Role::LinkUp, Role::LinkUp) => true,
        (Role::Out, Role::Out) => true,
        _ => false,
    }
}

/// Returns whether both sides are what they were.
fn are_same(now: Roles, before: Roles) -> bool
    ensures { result ≡ are_same now before }
{
    if is_same(now.a, before.a) {
        is_same(now.b, before.b)
    } else {
        false
    }
}

/// Returns what the sides are, from the first moment on: a span for each change, in order. What a side is changes as
/// docs/pair.md says of the standing.
pub fn spans(alloc: Global, mode: Mode, entries: &[Entry]) -> Result<Vec<Span>, AllocError>
    ensures { IfOk result (λ spans. spans.items ≡ spans_of mode entries.now) }
{
    let mut roles = first_roles(mode);
    let mut spans = Vec::new(alloc);
    spans.push(Span { moment: 0, roles })?;
    for (k, entry) in entries.iter().enumerate() {
        let next = after_answer(entry.answer, roles);
        if are_same(next, roles) {
            continue;
        }
        spans.push(Span {
            moment: k,
            roles: next,
        })?;
        roles = next;
    }
    Ok(spans)
}

/// Returns whether two letters name the same side.
fn is_side(side: Side, by: Side) -> bool
    ensures { result ≡ is_side side by }
{
    match (side, by) {
        (Side::A, Side::A) => true,
        (Side::B, Side::B) => true,
        _ => false,
    }
}

/// Returns whether a side is one of those that showed an output.
fn has_shown(side: Side, shown: Showings) -> bool
    ensures { result ≡ has_shown side shown }
{
    match shown {
        Showings::None => false,
        Showings::Once(by) => is_side(side, by),
        Showings::Twice(first, second) => {
            if is_side(side, first) {
                true
            } else {
                is_side(side, second)
            }
        }
    }
}

/// Returns the moments, in ms, at which a side shows an output, in order.
pub fn shows(alloc: Global, side: Side, entries: &[Entry]) -> Result<Vec<usize>, AllocError>
    ensures { IfOk result (λ moments. moments.items ≡ shows_of side entries.now) }
{
    let mut moments = Vec::new(alloc);
    for (k, entry) in entries.iter().enumerate() {
        if has_shown(side, entry.shown) {
            moments.push(k)?;
        }
    }
    Ok(moments)
}
