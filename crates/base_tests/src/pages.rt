use page_pool::*;
use std::test::Fail;

/// Of two pages a third cannot be taken; a page that was written and given back is zeros when it is taken again.
#[test]
fn a_pool_of_two_pages(rt: HostRuntime) -> Result<(), Fail> {
    let Ok(mut pool) = Pool::new(rt.alloc(), 2) else {
        return Err("no memory".into());
    };
    let Some(first) = pool.take() else {
        return Err("no first page".into());
    };
    assert!(rt; *pool.read(&first) == [0; 256] && !pool.dirty(&first));
    let Some(second) = pool.take() else {
        return Err("no second page".into());
    };
    assert!(rt; *pool.read(&second) == [0; 256]);
    assert!(rt; pool.take().is_none() && pool.free() == 0);
    pool.write(&second, 254, &[7, 8]);
    let bytes = *pool.read(&second);
    assert!(rt; bytes[253] == 0 && bytes[254] == 7 && bytes[255] == 8);
    pool.clear_dirty(&second);
    assert!(rt; !pool.dirty(&second));
    pool.write(&second, 254, &[7]);
    assert!(rt; pool.dirty(&second));
    pool.give(second);
    assert_eq!(rt; pool.free(), 1);
    let Some(again) = pool.take() else {
        return Err("no page after one was given back".into());
    };
    assert!(rt; *pool.read(&again) == [0; 256] && !pool.dirty(&again));
    Ok(())
}
