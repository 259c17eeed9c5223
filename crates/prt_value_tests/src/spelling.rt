//! Tests of the lines of commands.

mod lines;
