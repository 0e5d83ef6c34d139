use entry::{Entry, Reading, ShareOrder};
use std::process::Abort;
use std::test::Fail;

// A reading's bytes.
fn reading(house: u16, week: u8, quantity: u8, amount: u32) -> [u8; 8] {
    let [h1, h0] = house.to_be_bytes();
    let [a3, a2, a1, a0] = amount.to_be_bytes();
    [h1, h0, week, quantity, a3, a2, a1, a0]
}

// A share order's bytes.
fn order(kind: u8, from: u16, to: u16, amount: u32) -> [u8; 9] {
    let [f1, f0] = from.to_be_bytes();
    let [t1, t0] = to.to_be_bytes();
    let [a3, a2, a1, a0] = amount.to_be_bytes();
    [kind, f1, f0, t1, t0, a3, a2, a1, a0]
}

// The bytes are an entry, which writes them again and is the same as itself.
fn is_entry<K: Entry>(rt: &impl Abort, bytes: &[u8]) -> Result<(), Fail> {
    let x = K::read(bytes).ok_or("no entry")?;
    let mut out = [0xff; 32];
    x.write(&mut out);
    assert_eq!(rt; bytes.len(), K::WIDTH);
    assert_eq!(rt; out.get(..bytes.len()), Some(bytes));
    assert_eq!(rt; out.get(bytes.len()), Some(&0xff));
    assert!(rt; x == x);
    Ok(())
}

fn is_none<K: Entry>(rt: &impl Abort, bytes: &[u8]) {
    assert!(rt; K::read(bytes).is_none());
}

#[test]
fn readings_at_the_edges(rt: HostRuntime) -> Result<(), Fail> {
    is_entry::<Reading>(&rt, &reading(1, 1, 1, 0))?;
    is_entry::<Reading>(&rt, &reading(999, 53, 3, u32::MAX))?;
    is_entry::<Reading>(&rt, &reading(256, 7, 2, 3400))?;
    is_none::<Reading>(&rt, &reading(0, 1, 1, 0));
    is_none::<Reading>(&rt, &reading(1000, 1, 1, 0));
    is_none::<Reading>(&rt, &reading(65535, 1, 1, 0));
    is_none::<Reading>(&rt, &reading(1, 0, 1, 0));
    is_none::<Reading>(&rt, &reading(1, 54, 1, 0));
    is_none::<Reading>(&rt, &reading(1, 1, 0, 0));
    is_none::<Reading>(&rt, &reading(1, 1, 4, 0));
    Ok(())
}

#[test]
fn readings_of_other_widths(rt: HostRuntime) {
    let bytes = reading(1, 1, 1, 0);
    is_none::<Reading>(&rt, &bytes[0..7]);
    is_none::<Reading>(&rt, &bytes[0..0]);
    is_none::<Reading>(&rt, &order(1, 1, 2, 1));
}

#[test]
fn gifts_at_the_edges(rt: HostRuntime) -> Result<(), Fail> {
    is_entry::<ShareOrder>(&rt, &order(1, 1, 999, 1))?;
    is_entry::<ShareOrder>(&rt, &order(1, 999, 1, u32::MAX))?;
    is_none::<ShareOrder>(&rt, &order(1, 0, 1, 1));
    is_none::<ShareOrder>(&rt, &order(1, 1000, 1, 1));
    is_none::<ShareOrder>(&rt, &order(1, 1, 0, 1));
    is_none::<ShareOrder>(&rt, &order(1, 1, 1000, 1));
    is_none::<ShareOrder>(&rt, &order(1, 7, 7, 1));
    is_none::<ShareOrder>(&rt, &order(1, 1, 2, 0));
    is_none::<ShareOrder>(&rt, &order(0, 1, 2, 1));
    is_none::<ShareOrder>(&rt, &order(3, 1, 2, 1));
    Ok(())
}

#[test]
fn closings_at_the_edges(rt: HostRuntime) -> Result<(), Fail> {
    is_entry::<ShareOrder>(&rt, &order(2, 1, 0, 0))?;
    is_entry::<ShareOrder>(&rt, &order(2, 999, 0, 0))?;
    is_none::<ShareOrder>(&rt, &order(2, 0, 0, 0));
    is_none::<ShareOrder>(&rt, &order(2, 1000, 0, 0));
    is_none::<ShareOrder>(&rt, &order(2, 1, 1, 0));
    is_none::<ShareOrder>(&rt, &order(2, 1, 256, 0));
    is_none::<ShareOrder>(&rt, &order(2, 1, 0, 1));
    is_none::<ShareOrder>(&rt, &order(2, 1, 0, 16777216));
    is_none::<ShareOrder>(&rt, &reading(1, 1, 1, 0));
    Ok(())
}

// Whether the entries of two byte strings are the same.
fn same<K: Entry>(rt: &impl Abort, a: &[u8], b: &[u8], answer: bool) -> Result<(), Fail> {
    let x = K::read(a).ok_or("no entry")?;
    let y = K::read(b).ok_or("no entry")?;
    assert_eq!(rt; x == y, answer);
    Ok(())
}

#[test]
fn sameness(rt: HostRuntime) -> Result<(), Fail> {
    let one = reading(12, 7, 1, 3400);
    same::<Reading>(&rt, &one, &reading(12, 7, 1, 3400), true)?;
    same::<Reading>(&rt, &one, &reading(13, 7, 1, 3400), false)?;
    same::<Reading>(&rt, &one, &reading(12, 8, 1, 3400), false)?;
    same::<Reading>(&rt, &one, &reading(12, 7, 2, 3400), false)?;
    same::<Reading>(&rt, &one, &reading(12, 7, 1, 3401), false)?;
    let gift = order(1, 12, 40, 250);
    same::<ShareOrder>(&rt, &gift, &order(1, 12, 40, 250), true)?;
    same::<ShareOrder>(&rt, &gift, &order(1, 13, 40, 250), false)?;
    same::<ShareOrder>(&rt, &gift, &order(1, 12, 41, 250), false)?;
    same::<ShareOrder>(&rt, &gift, &order(1, 12, 40, 251), false)?;
    same::<ShareOrder>(&rt, &gift, &order(2, 12, 0, 0), false)
}
