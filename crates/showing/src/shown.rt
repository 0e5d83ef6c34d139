// How many bytes were written, and the number of the first statement that was not.
#[derive(Clone, Copy, PartialEq, Eq, Debug)]
pub struct Shown {
    pub bytes: usize,
    pub next: usize,
}
