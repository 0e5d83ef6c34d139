// A call to a replica.
#[derive(Clone, Copy)]
pub enum Call<'a> {
    Submit(&'a [u8]),
    Open,
    Hear { sender: u8, bytes: &'a [u8] },
    Turn,
}
