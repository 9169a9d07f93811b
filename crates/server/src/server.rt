// What the server keeps between lines.
use bench::bench::Bench;
use systems::System;

// The step system of the last setup, terms or a net behind a renaming behind a mask, and the four sheets.
#[derive(Clone, Copy)]
pub struct Server {
    pub(crate) system: System,
    pub(crate) bench: Bench,
}
