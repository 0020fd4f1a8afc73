use bit_unit::{BitFault, BitUnit};
use status_word::{Check, StatusWord};
use std::test::Fail;

/// A statement of bracketed logic.
#[derive(Clone, Copy)]
enum Step {
    Check(Check, bool),
    Open(Check),
    Close,
    OrAlone,
}

/// Does a statement.
fn do_step(unit: &mut BitUnit, status: &mut StatusWord, step: Step) -> Result<(), BitFault> {
    match step {
        Step::Check(how, bit) => status.check(how, bit),
        Step::OrAlone => status.or_alone(),
        Step::Open(how) => unit.open_group(status, how)?,
        Step::Close => unit.close_group(status)?,
    }
    Ok(())
}

/// The RLO after these statements.
fn rlo_after(steps: &[Step]) -> Result<bool, BitFault> {
    let mut unit = BitUnit::new();
    let mut status = StatusWord::new();
    for next in steps {
        do_step(&mut unit, &mut status, *next)?;
    }
    Ok(status.rlo)
}

const A0: Step = Step::Check(Check::And, false);

const A1: Step = Step::Check(Check::And, true);

const O0: Step = Step::Check(Check::Or, false);

const O1: Step = Step::Check(Check::Or, true);

const X1: Step = Step::Check(Check::Xor, true);

#[test]
fn groups_are_bracketed_expressions(rt: HostRuntime) -> Result<(), Fail> {
    let and = Step::Open(Check::And);
    // 1 or ((0 or 1) and 0): the OR from before the group is there behind it
    let steps = [A1, Step::OrAlone, and, O0, O1, Step::Close, A0];
    assert!(rt; rlo_after(&steps)?);
    // 0 or ((0 or 1) and 0)
    let steps = [A0, Step::OrAlone, and, O0, O1, Step::Close, A0];
    assert!(rt; !rlo_after(&steps)?);
    // 1 and not (1 and 0)
    let steps = [A1, Step::Open(Check::AndNot), A1, A0, Step::Close];
    assert!(rt; rlo_after(&steps)?);
    // 0 or (1 xor 1) xor not (0)
    let steps = [
        A0,
        Step::Open(Check::Or),
        X1,
        X1,
        Step::Close,
        Step::Open(Check::XorNot),
        O0,
        Step::Close,
    ];
    assert!(rt; rlo_after(&steps)?);
    // 1 and (1 and (0 or (1))), and then a bracket too many
    let steps = [
        A1,
        and,
        A1,
        and,
        O0,
        Step::Open(Check::Or),
        A1,
        Step::Close,
        Step::Close,
        Step::Close,
    ];
    assert!(rt; rlo_after(&steps)?);
    assert_eq!(rt; rlo_after(&[A1, Step::Close]), Err(BitFault::NestingEmpty));
    Ok(())
}

#[test]
fn stacks_have_their_sizes(rt: HostRuntime) -> Result<(), Fail> {
    let mut unit = BitUnit::new();
    let mut status = StatusWord::new();
    status.set();
    for _ in 0..7 {
        unit.open_group(&mut status, Check::And)?;
    }
    let before = status;
    assert_eq!(rt;
        unit.open_group(&mut status, Check::Or),
        Err(BitFault::NestingFull)
    );
    assert_eq!(rt; status, before);
    unit.mcr_area(true);
    for _ in 0..8 {
        unit.open_mcr(&mut status)?;
    }
    assert!(rt; !unit.zone_off());
    assert_eq!(rt; unit.open_mcr(&mut status), Err(BitFault::McrFull));
    unit.close_mcr(&mut status)?;
    unit.close_mcr(&mut status)?;
    status.clear();
    unit.open_mcr(&mut status)?;
    status.set();
    unit.open_mcr(&mut status)?;
    // the zone around the innermost one is off
    assert!(rt; unit.zone_off());
    unit.mcr_area(false);
    assert!(rt; !unit.zone_off());
    for _ in 0..8 {
        unit.close_mcr(&mut status)?;
    }
    assert_eq!(rt; unit.close_mcr(&mut status), Err(BitFault::McrEmpty));
    Ok(())
}
