use entry::{Reading, ShareOrder};
use listing::record;
use std::test::Fail;

#[test]
fn reading_record(rt: HostRuntime) -> Result<(), Fail> {
    let text = record::<Reading>(
        rt.alloc(),
        b"S\x00\x00\x0c\x07\x01\x00\x00\x0d\x48F\x07\x01",
    )?;
    assert!(rt;
        text.as_slice()
            == b"frame;13;2\nplace;letter;says;queue;slot;epoch;round;bit;set;house;week;quantity;amount\n0;S;send;;0;;;;;12;7;1;3400\n10;F;finish;;;7;;1;;;;;\n".as_slice()
    );
    Ok(())
}

#[test]
fn order_record(rt: HostRuntime) -> Result<(), Fail> {
    let text = record::<ShareOrder>(
        rt.alloc(),
        b"E\x02\x01\x02\x00\x28\x00\x00\x00\x00\x00\x00C\x00\x02",
    )?;
    assert!(rt;
        text.as_slice()
            == b"frame;15;1\nplace;letter;says;queue;slot;epoch;round;bit;set;kind;from;to;amount\n0;E;echo;2;1;;;;;2;40;0;0\nrefused;7;12\n".as_slice()
    );
    Ok(())
}
