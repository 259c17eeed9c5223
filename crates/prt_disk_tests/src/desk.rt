//! Tests of sessions on streams that fail, and of the desk over a publisher, on a database in memory.

mod atomic;
mod desks;
mod disks;
mod each_call;
mod lookers;
mod migration;
mod reopened;
mod streams;
mod world;
