use status_word::{Check, Cmp, Jump, StatusWord};

/// A statement as the status word sees it.
#[derive(Clone, Copy, Debug)]
enum Step {
    Check(Check, bool),
    OrAlone,
    Bracket,
    Write,
    Not,
    Set,
    Clear,
    Save,
    Edge(bool, bool),
    Block,
    Timer,
    Take(Jump),
    Compare(i32, i32, Cmp),
    Logic(bool),
    Shift(bool),
}

/// The word after a statement, and what the call answered, false where it answers nothing.
fn after(step: Step, before: u16) -> (u16, bool) {
    let mut status = StatusWord::of_bits(before);
    let mut answer = false;
    match step {
        Step::Check(how, operand) => status.check(how, operand),
        Step::OrAlone => status.or_alone(),
        Step::Bracket => status.after_bracket(),
        Step::Write => status.after_write(),
        Step::Not => status.invert(),
        Step::Set => status.set(),
        Step::Clear => status.clear(),
        Step::Save => status.save(),
        Step::Edge(rising, old) => answer = status.edge(rising, old),
        Step::Block => status.after_block(),
        Step::Timer => status.after_timer(),
        Step::Take(how) => answer = status.jump(how),
        Step::Compare(left, right, how) => status.compare(left, right, how),
        Step::Logic(nonzero) => status.logic(nonzero),
        Step::Shift(last) => status.shifted(last),
    }
    (status.to_bits(), answer)
}

// /FC 1, RLO 2, STA 4, OR 8, OS 16, OV 32, CC0 64, CC1 128, BR 256
#[test]
fn rows_of_the_tables(rt: HostRuntime) {
    let rows = [
        (Step::Check(Check::And, true), 0, 7, false),
        (Step::Check(Check::AndNot, true), 0, 5, false),
        (Step::Check(Check::And, false), 3, 1, false),
        // an OR from before is added, at a first check and later
        (Step::Check(Check::And, false), 8, 11, false),
        (Step::Check(Check::And, true), 9, 15, false),
        (Step::Check(Check::Or, false), 11, 3, false),
        (Step::Check(Check::Or, false), 2, 1, false),
        (Step::Check(Check::OrNot, false), 0, 3, false),
        (Step::Check(Check::Xor, true), 3, 5, false),
        (Step::Check(Check::Xor, true), 2, 7, false),
        (Step::Check(Check::XorNot, true), 3, 7, false),
        (Step::OrAlone, 3, 14, false),
        (Step::Bracket, 11, 6, false),
        (Step::Write, 11, 6, false),
        (Step::Not, 9, 15, false),
        (Step::Set, 511, 502, false),
        (Step::Clear, 511, 496, false),
        (Step::Save, 2, 258, false),
        (Step::Save, 256, 0, false),
        (Step::Edge(true, false), 2, 7, true),
        (Step::Edge(true, true), 2, 5, true),
        (Step::Edge(false, true), 0, 3, false),
        (Step::Block, 19, 6, false),
        (Step::Timer, 15, 6, false),
        (Step::Take(Jump::Ju), 11, 11, true),
        (Step::Take(Jump::Jc), 1, 6, false),
        (Step::Take(Jump::Jcn), 1, 6, true),
        (Step::Take(Jump::Jcb), 2, 262, true),
        (Step::Take(Jump::Jnb), 257, 6, true),
        (Step::Take(Jump::Jbi), 257, 260, true),
        (Step::Take(Jump::Jnbi), 257, 260, false),
        (Step::Take(Jump::Jo), 32, 32, true),
        (Step::Take(Jump::Jos), 48, 32, true),
        (Step::Take(Jump::Jz), 0, 0, true),
        (Step::Take(Jump::Jn), 192, 192, false),
        (Step::Take(Jump::Jp), 128, 128, true),
        (Step::Take(Jump::Jm), 128, 128, false),
        (Step::Take(Jump::Jpz), 64, 64, false),
        (Step::Take(Jump::Jmz), 64, 64, true),
        (Step::Take(Jump::Juo), 192, 192, true),
        (Step::Compare(-1, 1, Cmp::Lt), 0, 71, false),
        (Step::Compare(1, -1, Cmp::Le), 0, 129, false),
        (Step::Compare(5, 5, Cmp::Ge), 56, 23, false),
        (Step::Compare(5, 5, Cmp::Ne), 0, 1, false),
        (Step::Compare(2, 1, Cmp::Gt), 0, 135, false),
        (Step::Compare(2, 1, Cmp::Eq), 0, 129, false),
        (Step::Logic(true), 96, 128, false),
        (Step::Shift(false), 224, 0, false),
    ];
    for (step, before, word, answer) in rows {
        assert_eq!(rt; after(step, before), (word, answer), "{step:?} at {before}");
    }
}

#[test]
fn codes_and_operands(rt: HostRuntime) {
    let mut status = StatusWord::new();
    status.arith(2, true);
    assert_eq!(rt; status.to_bits(), 176);
    status.arith(1, false);
    assert_eq!(rt; status.to_bits(), 80);
    // BR, OV, OS, UO, ==0, <>0, >0, <0, >=0, <=0
    let wanted = [
        false, false, true, false, false, true, false, true, false, true,
    ];
    for number in 0..10u8 {
        assert_eq!(rt; status.operand(number), wanted[number as usize]);
    }
}
