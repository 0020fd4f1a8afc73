use link::*;

#[test]
fn one_parcel_lies_in_the_link_at_most(rt: HostRuntime) {
    let first = Parcel::Chunk {
        k: 3,
        len: 200,
        bytes: [1; 256],
    };
    let second = Parcel::Page {
        k: 0,
        last: true,
        bytes: [2; 256],
    };
    let mut link = Link::new();
    assert!(rt; link.is_empty() && link.take() == Err(Empty));
    assert_eq!(rt; link.offer(first), Ok(()));
    assert_eq!(rt; link.offer(second), Err(Busy { parcel: second }));
    assert!(rt; !link.is_empty() && link.take() == Ok(first));
    assert_eq!(rt; link.take(), Err(Empty));
    assert_eq!(rt; link.offer(second), Ok(()));
    link.drop_link();
    assert!(rt; link.is_empty());
}
