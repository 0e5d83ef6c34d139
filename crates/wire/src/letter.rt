// The eight things that a replica states, each with its byte, cast because a case's number is an `isize`.
#[derive(Clone, Copy, Debug, PartialEq, Eq)]
pub enum Letter {
    Send = b'S' as isize,
    Echo = b'E' as isize,
    Ready = b'R' as isize,
    Have = b'H' as isize,
    Value = b'V' as isize,
    Seen = b'A' as isize,
    Confirm = b'C' as isize,
    Finish = b'F' as isize,
}
