// The 64-bit FNV-1a digest of bytes, one part behind the other.
#[derive(Clone, Copy)]
pub struct Digest(pub u64);

impl Digest {
    // Of no bytes.
    pub fn new() -> Digest {
        Digest(0xcbf2_9ce4_8422_2325)
    }

    // Takes in more bytes.
    pub fn add(&mut self, bytes: &[u8]) {
        for byte in bytes {
            self.0 = (self.0 ^ u64::from(*byte)).wrapping_mul(0x0100_0000_01b3);
        }
    }
}
