use event_record::*;
use s7_base::{Answer, Ask, Entry, Request};
use std::test::Fail;

#[test]
fn entries_stand_in_the_order_in_which_they_came(rt: HostRuntime) -> Result<(), Fail> {
    let first = Entry {
        request: Request {
            prio: 1,
            ask: Ask::Cycle,
        },
        answer: Answer::Go,
    };
    let second = Entry {
        request: Request {
            prio: 1,
            ask: Ask::Inputs,
        },
        answer: Answer::Image([7; 64]),
    };
    let none = Record::empty(rt.alloc());
    assert!(rt; none.is_empty() && none.room() == 0);
    let Ok(mut record) = Record::with_room(rt.alloc(), 3) else {
        return Err("no memory".into());
    };
    record.append(first);
    record.append(second);
    assert_eq!(rt; record.len(), 2);
    assert_eq!(rt; record.room(), 3);
    assert!(rt; *record.entry(0) == first && *record.entry(1) == second);
    assert_eq!(rt; record.as_slice().len(), 2);
    Ok(())
}
