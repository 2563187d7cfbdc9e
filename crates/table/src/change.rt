// What an edit does to the bytes of its range.
use base::SlotNumber;

#[derive(Clone, Copy)]
pub enum Change {
    Grant(SlotNumber),
    Clear,
    Recall,
}
