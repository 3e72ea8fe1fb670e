// What is gathered of an object before its lines are printed: its Create, its Sets, and its groups in the order of
// their versions. It is work space that is lent from object to object.
ghost use Rattle.std.specs.Prelude.{◌≡◌, ◌≤◌, length};
ghost use Rattle.group_step.specs.GroupRows.{most_sets, most_groups};
ghost use Rattle.list_version.specs.VersionForms.{KeyedBy};

use super::ALL_KEYS;
use group_step::{GROUPS, SETS};

// Site and sequence number of the Create; the names of the Sets in dispute, ascending, and how many they are; the stamps
// of all Sets and how many they are, those that have each key, and the peaks among them; the groups and how many they
// are. What stands past their numbers does not matter.
#[derive(Drop)]
pub struct Workspace {
    pub site: u8,
    pub seq: u16,
    pub disputes: [u64; SETS],
    pub disputed: usize,
    pub stamps: [u64; SETS],
    pub sets: usize,
    pub keyed: [u64; ALL_KEYS],
    pub peaks: u64,
    pub versions: [u64; GROUPS],
    pub count: usize,
    pub ghost few_disputed: { disputed ≤ most_sets },
    pub ghost few_sets: { sets ≤ most_sets },
    pub ghost noted: { KeyedBy stamps keyed peaks sets },
    pub ghost few_groups: { count ≤ most_groups },
    pub ghost stamps_long: { length stamps ≡ most_sets },
    pub ghost versions_long: { length versions ≡ most_groups },
}

impl Workspace {
    // Nothing is gathered yet. Zeros in all: then it is made where it is to stand, and not first elsewhere, which would
    // take stack twice.
    pub fn none() -> Workspace
        ensures { result.sets ≡ 0 }
    {
        Workspace {
            site: 0,
            seq: 0,
            disputes: [0; SETS],
            disputed: 0,
            stamps: [0; SETS],
            sets: 0,
            keyed: [0; ALL_KEYS],
            peaks: 0,
            versions: [0; GROUPS],
            count: 0,
        }
    }
}
