// A call that would have used a sheet up and was refused.
use bench::fault::BenchFault;

// The sheet, given back as it was, and why the call was refused.
pub struct Refused<T> {
    pub sheet: T,
    pub fault: BenchFault,
}
