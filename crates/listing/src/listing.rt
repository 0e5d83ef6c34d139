use wire::Fault;

// What is listed of a frame.
#[derive(Drop)]
pub struct Listing {
    // The rows of its sound statements.
    pub rows: Vec<u8>,
    // How many they are.
    pub count: usize,
    // Why and where no more follow, if that is not the frame's end.
    pub fault: Option<Fault>,
}
