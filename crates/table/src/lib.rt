#![tactic(auto)]
// The table file: its sizes and its rows are read, and it is written.
pub mod job;
pub mod read;
pub mod write;

// f, H and F.
#[derive(Clone, Copy)]
pub struct Sizes {
    pub f: u16,
    pub h: u16,
    pub height: u16,
}

// A row's entries in 16 places, filled from the first: task bytes and job bytes.
#[derive(Clone, Copy)]
pub struct Row {
    pub count: usize,
    pub tasks: [u8; 16],
    pub jobs: [u8; 16],
}

// Entries in a given order, `count` of them and at most 128, each with its row: row k of the table holds those whose row is k.
#[derive(Clone, Copy)]
pub struct Layout {
    pub f: u16,
    pub h: u16,
    pub height: u16,
    pub count: usize,
    pub rows: [u16; 128],
    pub tasks: [u8; 128],
    pub jobs: [u8; 128],
}
