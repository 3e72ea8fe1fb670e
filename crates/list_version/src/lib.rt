// The versions of an object: their identifiers and their values. The Sets of the object are given by their places in
// the table of records, in the order of arrival: bit i of a group stands for the i-th place.
#![tactic(auto)]

pub mod disputes;
pub mod gathered;
pub mod values;

use edit_record::KEYS;
use group_step::SETS;

// A site number is one byte, a sequence number two: a name is a site number times SEQ_NUMBERS, and a sequence number.
pub const SITE_NUMBERS: u64 = edit_record::SITE_NUMBERS as u64;

pub const SEQ_NUMBERS: u64 = edit_record::SEQ_NUMBERS as u64;

// The numbers that the Sets of an object have, from 0 on, in the order of arrival.
pub const NUMBERS: u64 = SETS as u64;

// The keys of a group, as the length of an array.
pub const ALL_KEYS: usize = KEYS as usize;
