// What reading an old record finds.

// What reading an old record finds: none, since it is cut; one whose count is too large, and the place behind it; or one whose count
// fits 32 bits.
#[derive(Clone, Copy)]
pub enum GotOld {
    Cut,
    TooLarge { next: usize },
    Fits { epoch: u16, count: u32, next: usize },
}
