use group::Group;

// A group that plays a script: a buffer for its frames and files, and what it wrote.
#[derive(Drop)]
pub struct Player<'a, K, C> {
    pub group: Group<'a, K, C>,
    pub buffer: Vec<u8>,
    pub text: Vec<u8>,
}
