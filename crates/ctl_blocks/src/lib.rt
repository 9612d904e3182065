//! The ten standard function blocks of IEC 61131-3:2003, 2.5.2.3: each is its equations, and its saved words are its
//! whole state. It may use `il_model` alone (values, and the table of kinds and their fields), and `arrayvec`.
//!
//! ```rust
//! use ctl_blocks::Block;
//! use il_model::{BlockKind, Value};
//!
//! let mut delay = Block::cold(BlockKind::Ton);
//! let _ = delay.call(&[Value::Bool(true), Value::Time(2000)], 1000);
//! let outputs = delay.call(&[Value::Bool(true), Value::Time(2000)], 3000); // Q and ET: TRUE, T#2000ms
//! ```
//!
//! Proved, for every state, all inputs and every moment of 64 bits: a call makes exactly the state that the block's
//! equations give (`specs/Bistables`, `Edges`, `Counters`, `Timers`) and answers its outputs; the four saved words
//! restore the same block, and words are refused exactly where they are no state's.
//!
//! Only tested: nothing; `blocks.rows` of `tests_bytes` has runs of each kind with the words that are saved. Timers at
//! discrete moments are this project's own reading of the standard; the first call of F_TRIG with CLK FALSE is an edge,
//! as the standard's body of it gives.
#![tactic(auto)]

mod bistable;
mod block;
mod counter;
mod edge;
mod equations;
mod function_block;
mod standard_block;
mod timer;
mod words;

pub use bistable::{BistableOut, BistableState, ResetDominant, Rs, RsIn, SetDominant, Sr, SrIn};
pub use block::{Block, words_tell_a_block};
pub use counter::{
    CounterOut, CounterState, Ctd, CtdIn, Ctu, CtuIn, Ctud, CtudIn, CtudOut, CtudState,
    DownCounter, UpCounter, UpDownCounter,
};
pub use edge::{EdgeIn, EdgeOut, EdgeState, FTrig, FallingEdge, RTrig, RisingEdge};
pub use equations::{BlockState, Equations};
pub use function_block::{FunctionBlock, saved_again};
pub use standard_block::StandardBlock;
pub use timer::{OffDelay, OnDelay, Pulse, TimerIn, TimerOut, TimerState, Tof, Ton, Tp};
