use coin::{Bench, Coin, Sheet};
use std::test::Fail;

#[test]
fn bench(rt: HostRuntime) {
    let mut coin = Bench;
    assert_eq!(rt; coin.toss(0, 0), false);
    assert_eq!(rt; coin.toss(0, 1), true);
    assert_eq!(rt; coin.toss(0, 1), true);
    assert_eq!(rt; coin.toss(255, 15), false);
    assert_eq!(rt; coin.toss(65535, 255), false);
    assert_eq!(rt; coin.toss(65535, 0), true);
}

#[test]
fn sheet_bits(rt: HostRuntime) -> Result<(), Fail> {
    let mut bytes = [0; 512];
    // epoch 0, round 0; epoch 0, round 15; epoch 7, round 3; epoch 255, round 8
    bytes[0] = 0x01;
    bytes[1] = 0x80;
    bytes[14] = 0x08;
    bytes[511] = 0x01;
    let mut coin = Sheet::deal(&bytes)?;
    assert_eq!(rt; coin.toss(0, 0), true);
    assert_eq!(rt; coin.toss(0, 1), false);
    assert_eq!(rt; coin.toss(0, 14), false);
    assert_eq!(rt; coin.toss(0, 15), true);
    assert_eq!(rt; coin.toss(7, 3), true);
    assert_eq!(rt; coin.toss(7, 3), true);
    assert_eq!(rt; coin.toss(7, 11), false);
    assert_eq!(rt; coin.toss(255, 8), true);
    assert_eq!(rt; coin.toss(255, 7), false);
    assert_eq!(rt; coin.toss(256, 0), false);
    Ok(())
}

// The number of the refusal, if the bytes are no sheet.
fn refused(bytes: &[u8]) -> Option<u8> {
    Sheet::deal(bytes).err().map(u8::from)
}

#[test]
fn sheet_lengths(rt: HostRuntime) {
    let bytes = [0; 513];
    assert_eq!(rt; refused(&bytes[0..0]), Some(24));
    assert_eq!(rt; refused(&bytes[0..511]), Some(24));
    assert_eq!(rt; refused(&bytes[0..512]), None);
    assert_eq!(rt; refused(&bytes), Some(24));
}
