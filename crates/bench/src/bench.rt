// The four sheets, in a table: no heap is used, and there are never more or fewer.
use crate::sheet::Sheet;

pub mod calls;

#[derive(Clone, Copy)]
pub struct Bench {
    sheets: [Sheet; 4],
}
