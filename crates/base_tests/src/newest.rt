use diag_buffer::*;
use s7_events::DiagCode;
use std::test::Fail;

/// Of 130 entries the newest 120 are kept, from entry 10 on.
#[test]
fn the_newest_entries_are_kept(rt: HostRuntime) -> Result<(), Fail> {
    let Ok(mut diag) = Diag::new(rt.alloc()) else {
        return Err("no memory".into());
    };
    assert!(rt; diag.is_empty() && diag.get(0).is_none());
    for moment in 0..130u64 {
        let code = if moment == 128 {
            DiagCode::Ob85(40)
        } else {
            DiagCode::Error(7)
        };
        diag.note(moment, code);
    }
    let cases = [
        (0, Some((10, DiagCode::Error(7)))),
        (118, Some((128, DiagCode::Ob85(40)))),
        (119, Some((129, DiagCode::Error(7)))),
        (120, None),
    ];
    for (k, entry) in cases {
        assert_eq!(rt; diag.get(k), entry, "entry {k}");
    }
    assert_eq!(rt; diag.len(), 120);
    diag.clear();
    diag.note(5, DiagCode::Start);
    assert_eq!(rt; diag.len(), 1);
    assert_eq!(rt; diag.get(0), Some((5, DiagCode::Start)));
    Ok(())
}
