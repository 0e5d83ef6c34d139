use serving::Call;

// A command of a script. Each names its box by a byte, but the last, which is for all.
#[derive(Clone, Copy)]
pub enum Command<'a> {
    Call { at: u8, call: Call<'a> },
    Print { at: u8 },
    Settle,
}
