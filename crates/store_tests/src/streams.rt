//! Sources and sinks. That whole runs go well over them, and what is written where a read or a write fails, is tested in
//! `acceptance`.

mod pieces;
mod system;
