use common::{Refusal, quorum};

#[test]
fn table(rt: HostRuntime) {
    let rows = [
        (4, 1, 3),
        (5, 1, 4),
        (6, 1, 4),
        (7, 2, 5),
        (10, 3, 7),
        (13, 4, 9),
        (16, 5, 11),
    ];
    for (n, f, q) in rows {
        assert_eq!(rt; quorum(n), Ok((f, q)));
    }
}

#[test]
fn outside_the_table(rt: HostRuntime) {
    for n in [0, 3, 17, 255] {
        assert_eq!(rt; quorum(n).map_err(u8::from), Err(1));
    }
}

#[test]
fn numbers(rt: HostRuntime) {
    let all = [
        Refusal::Boxes,
        Refusal::Own,
        Refusal::Slots,
        Refusal::Table,
        Refusal::Place,
        Refusal::Letter,
        Refusal::Short,
        Refusal::Sender,
        Refusal::Long,
        Refusal::Range,
        Refusal::Entry,
        Refusal::Past,
        Refusal::Future,
        Refusal::Held,
        Refusal::Other,
        Refusal::Full,
        Refusal::Booked,
        Refusal::Over,
        Refusal::Begun,
        Refusal::Number,
        Refusal::Room,
        Refusal::Page,
        Refusal::File,
        Refusal::Sheet,
    ];
    assert_eq!(rt; all.len(), 24);
    for (refusal, number) in all.iter().zip(1..=24u8) {
        assert_eq!(rt; u8::from(*refusal), number);
    }
}
