//! The stored data of a done event.
use std::alloc::AllocError;
use vlink::Message;

/// The stored data of a done event: its message, how many messages it sent, how many rows it gave, and the record by which it is undone.
/// The record can be large. It comes last, since a commit does not read it.
#[derive(Copy)]
pub struct Event<K: Copy> {
    pub message: Message,
    pub sent: u8,
    pub noted: u8,
    pub kept: K,
}

impl<K: Copy> Clone for Event<K> {
    fn clone(&self) -> Result<Self, AllocError> {
        Ok(*self)
    }
}
