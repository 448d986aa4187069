//! Tests of `jscan`: its calls on worked bytes, with values from outside, and on sources that fail.

mod blank_tests;
mod block_tests;
mod bytes;
mod fault_tests;
mod growth;
mod scan_tests;
mod stream_tests;
