// Figures of many texts that were laid with the same settings.

// How many texts there were; their lines, those of them that end by LineBreak, and the characters that they dropped; the texts refused as
// too long (3) and as not UTF-8 (4); and the lines of the text that has most.
#[derive(Clone, Copy)]
pub struct Figures {
    pub texts: u64,
    pub lines: u64,
    pub broken: u64,
    pub dropped: u64,
    pub long: u64,
    pub invalid: u64,
    pub most: u64,
}
