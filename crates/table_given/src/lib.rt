// The drawing that given records make, taken one after another from an empty one; and what a call that takes them gives
// back where one is refused.
#![tactic(auto)]

use table_drawing::{Counters, Refusal};

// Why a file or one of its records is refused, the index of that record, or 0 for a file, and the counters that are
// left.
#[derive(Clone, Copy)]
pub struct FileRefusal {
    pub refusal: Refusal,
    pub index: usize,
    pub counters: Counters,
}
