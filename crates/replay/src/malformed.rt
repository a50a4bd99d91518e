// What a line of the recording is that is no case.
#[derive(Clone, Copy)]
pub struct Malformed;
