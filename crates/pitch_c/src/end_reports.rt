//! The structs that C reads of an end with its sessions.

/// What a datagram had: blocks of the end's unit, which were heard, blocks of other units, and the
/// bytes after the last whole block.
#[repr(C)]
#[derive(Clone, Copy)]
pub struct DatagramOut {
    pub heard: u64,
    pub others: u64,
    pub rest: u64,
    pub spare: [u64; 5],
}

/// How many bytes to send were handed out, and how many wait still.
#[repr(C)]
#[derive(Clone, Copy)]
pub struct SentOut {
    pub count: u64,
    pub left: u64,
    pub spare: [u64; 2],
}
