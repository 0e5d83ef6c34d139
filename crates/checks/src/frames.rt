use common::Refusal;
use entry::{Reading, ShareOrder};
use std::process::Abort;
use wire::{Statement, next, parse};

// An echo of queue 2, slot 1, and a finish of epoch 7 with bit 1.
const FRAME: [u8; 14] = [b'E', 2, 1, 0, 12, 7, 1, 0, 0, 13, 72, b'F', 7, 1];

// The number of the refusal, where `parse` declines.
fn refused(bytes: &[u8]) -> Option<u8> {
    parse::<Reading>(bytes).err().map(u8::from)
}

// How many bytes `next` hands out, if any are left, or the number of the refusal.
fn cut(frame: &[u8], place: usize) -> Result<Option<usize>, u8> {
    let part = next::<Reading>(frame, place).map_err(u8::from)?;
    Ok(part.map(|part| part.len()))
}

#[test]
fn empty_frame(rt: HostRuntime) {
    assert_eq!(rt; cut(&[], 0), Ok(None));
    assert_eq!(rt; cut(&[], 1), Err(5));
    assert_eq!(rt; refused(&[]), Some(7));
}

#[test]
fn walk(rt: HostRuntime) {
    assert_eq!(rt; cut(&FRAME, 0), Ok(Some(11)));
    assert_eq!(rt; cut(&FRAME, 11), Ok(Some(3)));
    assert_eq!(rt; cut(&FRAME, 14), Ok(None));
    assert_eq!(rt; cut(&FRAME, 15), Err(5));
    assert_eq!(rt; cut(&FRAME, 1), Err(6));
}

// A whole statement, which is declined if it is cut at any byte.
fn whole(rt: &impl Abort, s: &[u8]) {
    assert_eq!(rt; refused(s), None);
    assert_eq!(rt; cut(s, 0), Ok(Some(s.len())));
    for n in 1..s.len() {
        assert_eq!(rt; cut(&s[0..n], 0), Err(7));
        assert_eq!(rt; refused(&s[0..n]), Some(7));
    }
}

#[test]
fn entries_cut_at_each_byte(rt: HostRuntime) {
    whole(&rt, &[b'S', 1, 0, 12, 7, 1, 0, 0, 13, 72]);
    whole(&rt, &[b'E', 2, 1, 0, 12, 7, 1, 0, 0, 13, 72]);
    whole(&rt, &[b'R', 2, 1, 0, 12, 7, 1, 0, 0, 13, 72]);
    whole(&rt, &[b'H', 2, 1, 0, 12, 7, 1, 0, 0, 13, 72]);
}

#[test]
fn votes_cut_at_each_byte(rt: HostRuntime) {
    whole(&rt, &[b'V', 7, 1, 0]);
    whole(&rt, &[b'A', 7, 1, 0]);
    whole(&rt, &[b'C', 7, 1, 3]);
    whole(&rt, &[b'F', 7, 1]);
}

#[test]
fn frame_cut_at_each_byte(rt: HostRuntime) {
    assert_eq!(rt; cut(&FRAME[0..11], 11), Ok(None));
    for n in 12..14 {
        assert_eq!(rt; cut(&FRAME[0..n], 0), Ok(Some(11)));
        assert_eq!(rt; cut(&FRAME[0..n], 11), Err(7));
    }
}

#[test]
fn unknown_letters(rt: HostRuntime) {
    assert_eq!(rt; refused(b"Z"), Some(6));
    assert_eq!(rt; refused(b"s"), Some(6));
    assert_eq!(rt; refused(&[0]), Some(6));
    assert_eq!(rt; refused(&[255]), Some(6));
    assert_eq!(rt; cut(b"f\x07\x01", 0), Err(6));
}

#[test]
fn bytes_left_over(rt: HostRuntime) {
    assert_eq!(rt; refused(b"F\x07\x01\x00"), Some(9));
    assert_eq!(rt; refused(b"V\x07\x01\x00\x00"), Some(9));
    assert_eq!(rt; refused(&FRAME), Some(9));
}

// What is read of a statement, written again over a buffer.
fn copied(bytes: &[u8], out: &mut [u8]) -> Result<usize, Refusal> {
    parse::<Reading>(bytes)?.write::<Reading>(out)
}

#[test]
fn written_as_read(rt: HostRuntime) {
    let mut out = [0xff; 12];
    assert_eq!(rt; copied(&FRAME[0..11], &mut out), Ok(11));
    assert_eq!(rt; out, [b'E', 2, 1, 0, 12, 7, 1, 0, 0, 13, 72, 0xff]);
}

#[test]
fn written_where_it_fits(rt: HostRuntime) {
    let mut two = [0xff; 2];
    assert_eq!(rt; copied(&FRAME[11..14], &mut two).map_err(u8::from), Err(21));
    assert_eq!(rt; two, [0xff, 0xff]);
    let mut four = [0xff; 4];
    assert_eq!(rt; copied(&FRAME[11..14], &mut four), Ok(3));
    assert_eq!(rt; four, [b'F', 7, 1, 0xff]);
}

// The number of the refusal, where a statement has no bytes.
fn unwritten(statement: Statement<'_>) -> Option<u8> {
    let mut out = [0; 64];
    statement.write::<ShareOrder>(&mut out).err().map(u8::from)
}

#[test]
fn entries_of_other_widths(rt: HostRuntime) {
    let send = |item| unwritten(Statement::Send { slot: 0, item });
    assert_eq!(rt; send(&[1; 8]), Some(7));
    assert_eq!(rt; send(&[1; 10]), Some(9));
}

#[test]
fn epoch_beyond_a_byte(rt: HostRuntime) {
    let finish = Statement::Finish { epoch: 256, bit: 0 };
    assert_eq!(rt; unwritten(finish), Some(10));
}
