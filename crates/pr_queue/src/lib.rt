//! A queue of 16 pieces of one size, which takes no memory once it is made.
#![tactic(auto)]

mod long;
mod short;

ghost use Rattle.std.specs.Prelude.{◌≡◌, ◌<◌, ◌≤◌, ◌↔◌, [], ◌∷◌, ◌++◌, length, IsErr, IfOk, OnOk, OnErr};
ghost use Rattle.pr_queue.specs.Pieces.{Pieces};

use crate::long::{get_bytes, put_bytes};
use crate::short::{get_word, put_word, word_of};
use circular_buffer::HeapCircularBuffer;
use std::alloc::{AllocError, Global};
use std::marker::Model;
use thiserror::Error;

/// How many pieces a queue holds.
const ROOM: usize = 16;

/// The queue already holds 16 pieces.
#[derive(Debug, Drop, Error)]
#[error("the queue is full")]
pub struct Full;

/// No piece waits.
#[derive(Debug, Drop, Error)]
#[error("the queue is empty")]
pub struct Empty;

/// Pieces of one size, first in, first out. Contracts see the size and the list of the pieces that wait.
///
/// A piece of at most 8 bytes waits as one word in the ring `words`. A longer piece waits byte by byte in the ring
/// `bytes`, and `count` says how many of these wait. One of the two rings is always empty.
#[derive(Drop)]
pub struct Queue {
    words: HeapCircularBuffer<u64>,
    bytes: HeapCircularBuffer<u8>,
    count: usize,
    size: usize,
}

impl Model for Queue {
    ghost use Rattle.std.specs.Prelude.{◌≡◌, ◌*◌, ◌<◌, ◌≤◌, length, []};
    ghost use Rattle.pr_queue.specs.Pieces.{Pieces, waiting_in};

    ghost Value = { Pieces };

    ghost view = { λ q. record { size = q.size; waiting = waiting_in q.size q.words.items q.count q.bytes.items } };

    ghost invariant = { λ q. (q.words.capacity ≡ 16) × (q.bytes.capacity ≡ 16 * q.size) × (length q.words.items ≤ 16)
        × (length q.bytes.items ≡ q.count * q.size) × (q.count ≤ 16) × (0 < q.size) × (q.size ≤ 1024)
        × (q.size ≤ 8 → q.count ≡ 0) × (8 < q.size → q.words.items ≡ []) };
}

impl Queue {
    /// An empty queue for 16 pieces of this many bytes, the only call that takes memory.
    pub fn make(alloc: Global, bytes: usize) -> Result<Queue, AllocError>
        requires low { 1 ≤ bytes }
        requires high { bytes ≤ 1024 }
        ensures { IfOk result (λ q. q ≡ record { size = bytes; waiting = [] }) }
    {
        let words = HeapCircularBuffer::with_capacity(alloc, ROOM)?;
        let rest = HeapCircularBuffer::with_capacity(alloc, ROOM * bytes)?;
        Ok(Queue {
            words,
            bytes: rest,
            count: 0,
            size: bytes,
        })
    }

    /// How many pieces wait: 16 at most.
    pub fn len(&self) -> usize
        ensures count { result ≡ length self.now.waiting }
        ensures few { result ≤ 16 }
    {
        self.words.len() + self.count
    }

    /// The bytes of a piece: 1,024 at most.
    pub fn piece_bytes(&self) -> usize
        ensures size { result ≡ self.now.size }
        ensures most { result ≤ 1024 }
    {
        self.size
    }

    /// Appends a piece of the queue's size.
    ///
    /// # Errors
    ///
    /// `Full` exactly where 16 pieces wait; the queue is then as it was.
    #[inline(always)]
    #[tactic(auto, using(crate::proofs::PiecesLemmas::how_many))]
    pub fn put(&mut self, piece: &[u8]) -> Result<(), Full>
        requires { length piece.now ≡ self.old.size }
        ensures full { IsErr result ↔ (length self.old.waiting ≡ 16) }
        ensures room { OnOk result (length self.old.waiting < 16) }
        ensures put { OnOk result (self.new ≡ record self.old { waiting = self.old.waiting ++ piece.now ∷ [] }) }
        ensures same { OnErr result (self.new ≡ self.old) }
        ensures size { self.new.size ≡ self.old.size }
    {
        match word_of(piece) {
            Some(word) => put_word(&mut self.words, word),
            None => match put_bytes(&mut self.bytes, &mut self.count, piece) {
                Ok(()) => Ok(()),
                Err(Full) => Err(Full),
            },
        }
    }

    /// Takes the front piece into a buffer of the queue's size.
    ///
    /// # Errors
    ///
    /// `Empty` exactly where no piece waits; the queue and the buffer are then as they were.
    #[inline(always)]
    pub fn get(&mut self, into: &mut [u8]) -> Result<(), Empty>
        requires { length into.old ≡ self.old.size }
        ensures empty { IsErr result ↔ (self.old.waiting ≡ []) }
        ensures some { OnOk result (0 < length self.old.waiting) }
        ensures got { OnOk result (self.old ≡ record self.new { waiting = into.new ∷ self.new.waiting }) }
        ensures same { OnErr result ((self.new ≡ self.old) × (into.new ≡ into.old)) }
        ensures size { self.new.size ≡ self.old.size }
    {
        match get_word(&mut self.words, into) {
            Ok(()) => Ok(()),
            Err(Empty) => match get_bytes(&mut self.bytes, &mut self.count, into) {
                Ok(()) => Ok(()),
                Err(Empty) => Err(Empty),
            },
        }
    }
}
