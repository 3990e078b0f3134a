//! Bytes written out in hexadecimal, two digits to a byte, in lower case.
#![tactic(auto)]

pub mod decoding;
