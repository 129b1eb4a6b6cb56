//! A port as C has it.
use crate::handle::Handle;

/// Where C has the bytes of a queue's buffers: where those of index 0 begin, how far each buffer
/// begins behind the one before, and how many bytes each has; and what C frees once the queue has
/// closed, or null. Ports carry it for C. Nothing here follows these pointers.
#[repr(C)]
#[derive(Clone, Copy)]
pub struct Memory {
    pub base: *mut u8,
    pub stride: usize,
    pub len: usize,
    pub block: *mut u8,
}

/// A port, and beside it where the bytes of its buffers are. All calls but the opening see the
/// handle alone.
#[repr(C)]
#[derive(Drop)]
pub struct CPort {
    pub handle: Handle,
    pub memory: Memory,
}
