use load_maker::*;
use plant_script::read_script;
use std::test::Fail;

/// n = 1000: OB1, OB40 and one function.
const SOURCE_1000: &[u8] = b"ORGANIZATION_BLOCK OB 1\n\
    BEGIN\n\
    L IB 0;\n\
    T QB 0;\n\
    L MW 0;\n\
    L 1;\n\
    +I;\n\
    T MW 0;\n\
    END_ORGANIZATION_BLOCK\n\
    ORGANIZATION_BLOCK OB 40\n\
    BEGIN\n\
    L MW 2;\n\
    L 1;\n\
    +I;\n\
    T MW 2;\n\
    END_ORGANIZATION_BLOCK\n\
    FUNCTION FC 1 : VOID\n\
    BEGIN\n\
    L 1;\n\
    END_FUNCTION\n";

/// n = 1000: no moment below it is a full thousand; half way is 500.
const SCRIPT_1000: &[u8] = b"MODULE IN 0 1 SWITCHED\n\
    MODULE OUT 0 1 SWITCHED\n\
    AT 100 INPUT 0 01\n\
    AT 200 INPUT 0 02\n\
    AT 300 INPUT 0 03\n\
    AT 400 INPUT 0 04\n\
    AT 500 INPUT 0 05\n\
    AT 500 FAIL B\n\
    AT 600 INPUT 0 06\n\
    AT 700 INPUT 0 07\n\
    AT 800 INPUT 0 08\n\
    AT 900 INPUT 0 09\n\
    END 1000\n";

/// The end of the source for n = 2500: two functions.
const FUNCTIONS_2500: &[u8] = b"END_ORGANIZATION_BLOCK\n\
    FUNCTION FC 1 : VOID\n\
    BEGIN\n\
    L 1;\n\
    END_FUNCTION\n\
    FUNCTION FC 2 : VOID\n\
    BEGIN\n\
    L 2;\n\
    END_FUNCTION\n";

/// n = 2500: alarms at 1000 and 2000; half of 2500 is 1250, and the full hundred there is 1200.
const SCRIPT_2500: &[u8] = b"MODULE IN 0 1 SWITCHED\n\
    MODULE OUT 0 1 SWITCHED\n\
    AT 100 INPUT 0 01\n\
    AT 200 INPUT 0 02\n\
    AT 300 INPUT 0 03\n\
    AT 400 INPUT 0 04\n\
    AT 500 INPUT 0 05\n\
    AT 600 INPUT 0 06\n\
    AT 700 INPUT 0 07\n\
    AT 800 INPUT 0 08\n\
    AT 900 INPUT 0 09\n\
    AT 1000 INPUT 0 0A\n\
    AT 1000 ALARM 40 00000001\n\
    AT 1100 INPUT 0 0B\n\
    AT 1200 INPUT 0 0C\n\
    AT 1200 FAIL B\n\
    AT 1300 INPUT 0 0D\n\
    AT 1400 INPUT 0 0E\n\
    AT 1500 INPUT 0 0F\n\
    AT 1600 INPUT 0 10\n\
    AT 1700 INPUT 0 11\n\
    AT 1800 INPUT 0 12\n\
    AT 1900 INPUT 0 13\n\
    AT 2000 INPUT 0 14\n\
    AT 2000 ALARM 40 00000002\n\
    AT 2100 INPUT 0 15\n\
    AT 2200 INPUT 0 16\n\
    AT 2300 INPUT 0 17\n\
    AT 2400 INPUT 0 18\n\
    END 2500\n";

#[test]
fn sources(rt: HostRuntime) -> Result<(), Fail> {
    let small = make_source(rt.alloc(), 1000)?;
    assert_eq!(rt; small.as_slice(), SOURCE_1000);
    let larger = make_source(rt.alloc(), 2500)?;
    assert!(rt; larger.as_slice().ends_with(FUNCTIONS_2500));
    let largest = make_source(rt.alloc(), 100_000)?;
    assert!(rt;
        largest
            .as_slice()
            .ends_with(b"FUNCTION FC 100 : VOID\nBEGIN\nL 100;\nEND_FUNCTION\n")
    );
    Ok(())
}

#[test]
fn scripts(rt: HostRuntime) -> Result<(), Fail> {
    let small = make_script(rt.alloc(), 1000)?;
    assert_eq!(rt; small.as_slice(), SCRIPT_1000);
    let larger = make_script(rt.alloc(), 2500)?;
    assert_eq!(rt; larger.as_slice(), SCRIPT_2500);
    // 24 inputs, 2 alarms and a loss
    let script = read_script(rt.alloc(), &larger)?;
    assert_eq!(rt; script.end(), 2500);
    assert_eq!(rt; script.events().len(), 27);
    // 999 modulo 256 is 231
    let largest = make_script(rt.alloc(), 100_000)?;
    assert!(rt;
        largest
            .as_slice()
            .ends_with(b"AT 99900 INPUT 0 E7\nEND 100000\n")
    );
    Ok(())
}
