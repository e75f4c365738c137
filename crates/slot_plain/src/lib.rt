//! One client's log on one thread: slots that are counted, and the bytes that they hold. A write of
//! more than a slot's bytes is in as many slots as it needs, one piece to each; the lowest free
//! slots are taken. The first slots are in shared memory, and those behind them on the log's
//! device. Of the outside it touches that device alone, by the trait of devices.
//!
//! A slot is taken and then filled. It is read while something holds it, and each that holds it
//! counts: one takes it, others pin it, and each releases it once.
//!
//! ```
//! let mut log = PlainLog::new(alloc, Rank(0), shape, device)?;
//! let slots = log.take(alloc, 1)?;
//! let id = PieceId { line: LineNo(3), part: 0 };
//! log.fill(slots[0], id, b"hello")?;
//! log.pin(slots[0]);
//! log.release(slots[0]);
//! let mut out = [0; 4];
//! log.read_piece(slots[0], 1, &mut out)?;
//! log.release(slots[0]);
//! ```
#![tactic(auto)]

mod counted_dev;
mod entry;
mod free_slots;
mod least_tree;
mod plain_log;
mod slot_table;
mod take_no;

pub use plain_log::PlainLog;
pub use take_no::TakeNo;

#[cfg(test)]
mod tests;
