//! The inputs of a plant: rows of the definitions, and what the pair makes of the modules of whole scripts.
ghost use Rattle.std.specs.Prelude.{◌≡◌, ◌∷◌, [], ◌==◌, ◌&&◌, true, false, Some, None, map};
ghost use Rattle.std.specs.List.{range_with_len};
ghost use Rattle.s7_events.specs.declared.entry.Side.TheVariants.{A, B};
ghost use Rattle.plant_script.specs.declared.plan.ModuleKind.TheVariants as kinds;
ghost use Rattle.plant_io.specs.PlantValue.{is_reachable, side_named};
ghost use Rattle.plant_tests.specs.Moments.{both, alone, from_start, changed_at, one_from};

use plant_io::{Inputs, reachable, takes_output, value_at};
use plant_script::{Script, read_script};
use s7_events::Side;
use std::alloc::Global;
use std::test::Fail;

/// The bytes of A and B, and which of them run and which is master; whether OB70 becomes due, and the value, at a time
/// of 2 ms.
fn the_pair_takes_a_value_by_the_discrepancy_time()
    ensures { from_start 2
        (record { a = 6; b = 5; standing = both A }
        ∷ record { a = 5; b = 5; standing = both A }
        ∷ record { a = 6; b = 5; standing = both A }
        ∷ record { a = 6; b = 5; standing = both A }
        ∷ record { a = 7; b = 5; standing = both A }
        ∷ record { a = 7; b = 5; standing = both B }
        ∷ record { a = 7; b = 8; standing = alone B }
        ∷ record { a = 9; b = 8; standing = both B }
        ∷ record { a = 9; b = 4; standing = alone A }
        ∷ record { a = 1; b = 2; standing = both B }
        ∷ record { a = 1; b = 2; standing = both B }
        ∷ record { a = 3; b = 3; standing = both B }
        ∷ [])
        ≡ (false, Some 0) ∷ (false, Some 5) ∷ (false, Some 5) ∷ (true, Some 6) ∷ (false, Some 7) ∷ (false, Some 5)
        ∷ (false, Some 8) ∷ (false, Some 8) ∷ (false, Some 9) ∷ (false, Some 9) ∷ (true, Some 2) ∷ (false, Some 3) ∷ [] }
{}

/// Side A has the byte 1 from moment 30 on, side B from 49 or from 50 on; the time is 20 ms.
fn twenty_moments_of_a_difference_make_ob70_due()
    ensures nineteen { from_start 20 (changed_at 30 49) ≡ map (λ k. (false, Some (one_from 49 k))) (range_with_len 0 52) }
    ensures twenty { from_start 20 (changed_at 30 50) ≡ map (λ k. (k == 49, Some (one_from 49 k))) (range_with_len 0 52) }
{}

/// Whether a kind is reached where A alone runs, and where B alone does; the side that its INPUT lines name for B.
fn a_kind_has_its_sides()
    ensures switched { (is_reachable kinds.Switched true false ≡ true) × (is_reachable kinds.Switched false true ≡ true)
        × (side_named kinds.Switched B ≡ None) }
    ensures of_a { (is_reachable (kinds.OneSided A) true false ≡ true) × (is_reachable (kinds.OneSided A) false true ≡ false)
        × (side_named (kinds.OneSided A) B ≡ None) }
    ensures of_b { (is_reachable (kinds.OneSided B) true false ≡ false) × (is_reachable (kinds.OneSided B) false true ≡ true)
        × (side_named (kinds.OneSided B) B ≡ None) }
    ensures redundant { (is_reachable (kinds.Redundant 20) true false ≡ true) × (is_reachable (kinds.Redundant 20) false true ≡ true)
        × (side_named (kinds.Redundant 20) B ≡ Some B) }
{}

#[test]
fn a_byte_is_that_of_its_last_line(rt: HostRuntime) -> Result<(), Fail> {
    let text = b"MODULE IN 4 2 SWITCHED\nAT 3 INPUT 5 80\nAT 7 INPUT 5 01\nEND 9\n";
    let script = read_script(rt.alloc(), text)?;
    let [m] = script.modules() else {
        return Err("one module".into());
    };
    if m.at_byte > 5 || m.len < 2 || m.at_byte < 4 {
        return Err("another module".into());
    }
    for (k, value) in [(2, 0), (3, 0x80), (6, 0x80), (7, 1), (8, 1)] {
        assert_eq!(rt; value_at(&script, 0, Side::A, 5, k), value, "moment {k}");
    }
    assert!(rt; reachable(&script, 0, false, true));
    Ok(())
}

/// What the moments from 0 to 59 make of a script, where both sides run, or side B alone from the moment on at which side A
/// is lost: the moments at which OB70 becomes due at the first module, and those after which the image has byte 0 at 1.
fn sixty(alloc: Global, script: &Script, lost: u64) -> Result<(Vec<u64>, Vec<u64>), Fail> {
    let mut due = Vec::new(alloc);
    let mut ones = Vec::new(alloc);
    let mut inputs = Inputs::new(alloc, script)?;
    for k in 0..60 {
        let a_runs = k < lost;
        let master = if a_runs { Side::A } else { Side::B };
        inputs.step(script, a_runs, true, master, k);
        if !script.modules().is_empty() && inputs.is_due(script, 0) {
            due.push(k)?;
        }
        if inputs.image(script, a_runs, true, k)[0] == 1 {
            ones.push(k)?;
        }
    }
    Ok((due, ones))
}

/// The moments from one up to another.
fn moments(alloc: Global, from: u64, to: u64) -> Result<Vec<u64>, Fail> {
    let mut moments = Vec::new(alloc);
    for k in from..to {
        moments.push(k)?;
    }
    Ok(moments)
}

/// A script, when side A is lost, at which moments OB70 becomes due, and from which moment on byte 0 is 1, up to another.
#[test]
fn a_difference_reaches_its_time_or_does_not(rt: HostRuntime) -> Result<(), Fail> {
    let alloc = rt.alloc();
    let rows: [(&[u8], u64, &[u64], u64, u64); 6] = [
        // 20 moments differ, 30 to 49; 19 do; and the sides agree again at 50.
        (
            b"MODULE IN 0 1 REDUNDANT 20\nAT 30 INPUT 0 A 01\nAT 50 INPUT 0 B 01\nEND 60",
            60,
            &[49],
            49,
            60,
        ),
        (
            b"MODULE IN 0 1 REDUNDANT 20\nAT 30 INPUT 0 A 01\nAT 49 INPUT 0 B 01\nEND 60",
            60,
            &[],
            49,
            60,
        ),
        // Side A is lost after 10 moments: from then on the value is that of side B.
        (
            b"MODULE IN 0 1 REDUNDANT 20\nAT 30 INPUT 0 A 01\nEND 60",
            40,
            &[],
            60,
            60,
        ),
        // It is lost after the time was reached: the value is that of the master A until then.
        (
            b"MODULE IN 0 1 REDUNDANT 20\nAT 30 INPUT 0 A 01\nEND 60",
            55,
            &[49],
            49,
            55,
        ),
        // The value returns after 5 moments; of a second difference, from 40 on, the time is reached at 59.
        (
            b"MODULE IN 0 1 REDUNDANT 20\nAT 30 INPUT 0 A 01\nAT 35 INPUT 0 A 00\nAT 40 INPUT 0 A 01\nEND 60",
            60,
            &[59],
            59,
            60,
        ),
        // A module of side A is reached while it runs.
        (
            b"MODULE IN 0 1 ONESIDED A\nAT 0 INPUT 0 01\nEND 60",
            40,
            &[],
            0,
            40,
        ),
    ];
    for (text, lost, due, from, to) in rows {
        assert!(rt; text.len() < 200);
        let script = read_script(alloc, text)?;
        let (reached, ones) = sixty(alloc, &script, lost)?;
        assert_eq!(rt; reached.as_slice(), due);
        let expected = moments(alloc, from, to)?;
        assert_eq!(rt; ones.as_slice(), expected.as_slice());
    }
    Ok(())
}

#[test]
fn an_access_has_one_module(rt: HostRuntime) -> Result<(), Fail> {
    let alloc = rt.alloc();
    let text =
        b"MODULE IN 0 2 SWITCHED\nMODULE IN 2 4 ONESIDED B\nMODULE IN 1023 1 SWITCHED\nMODULE OUT 60 6 SWITCHED\nMODULE OUT 0 1 ONESIDED A\nAT 0 INPUT 0 12\nAT 0 INPUT 1 34\nAT 0 INPUT 2 56\nAT 0 INPUT 5 78\nAT 0 INPUT 1023 9A\nEND 9\n";
    let script = read_script(alloc, text)?;
    let mut inputs = Inputs::new(alloc, &script)?;
    inputs.step(&script, true, true, Side::A, 0);
    let reads: [(u16, u8, Option<u32>); 8] = [
        (0, 1, Some(0x12)),
        (0, 2, Some(0x1234)),
        (1, 2, None),
        (2, 4, Some(0x5600_0078)),
        (3, 4, None),
        (1023, 1, Some(0x9a)),
        (1023, 2, None),
        (60, 1, None),
    ];
    for (addr, width, value) in reads {
        assert_eq!(rt; inputs.read(&script, true, true, addr, width, 0), value);
    }
    assert_eq!(rt; inputs.read(&script, true, false, 2, 1, 0), None);
    let writes: [(u16, u8, bool); 5] = [
        (62, 4, true),
        (62, 2, true),
        (63, 4, false),
        (0, 1, true),
        (1, 1, false),
    ];
    for (addr, width, taken) in writes {
        assert_eq!(rt; takes_output(&script, true, true, addr, width), taken);
    }
    assert!(rt; !takes_output(&script, false, true, 0, 1));
    Ok(())
}

#[test]
fn two_modules_are_due_at_one_moment(rt: HostRuntime) -> Result<(), Fail> {
    let alloc = rt.alloc();
    let text =
        b"MODULE IN 0 1 REDUNDANT 2\nMODULE IN 4 1 REDUNDANT 2\nAT 0 INPUT 0 A 01\nAT 0 INPUT 4 B 01\nEND 9\n";
    let script = read_script(alloc, text)?;
    if script.modules().len() != 2 {
        return Err("two modules".into());
    }
    let mut inputs = Inputs::new(alloc, &script)?;
    inputs.step(&script, true, true, Side::B, 0);
    assert!(rt; !inputs.is_due(&script, 0) && !inputs.is_due(&script, 1));
    inputs.step(&script, true, true, Side::B, 1);
    assert!(rt; inputs.is_due(&script, 0) && inputs.is_due(&script, 1));
    let image = inputs.image(&script, true, true, 1);
    assert_eq!(rt; image[0], 0);
    assert_eq!(rt; image[4], 1);
    Ok(())
}
