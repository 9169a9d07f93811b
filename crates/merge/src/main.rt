// A program over sheets whose standing is their type: two runs of one start are merged, printed, and gone on with.
// It does so over a net and over terms, and writes each call to standard output. It reads no input.
#![tactic(auto)]

mod hex;
mod merge;
mod plan;
mod plans;
mod trouble;

use crate::merge::merge;
use crate::trouble::{Trouble, tell};
use std::io;
use std::io::Write;

// The merge over the net.
fn over_net<W: Write>(output: &mut W) -> Result<(), Trouble> {
    writeln!(output, "over a net")?;
    merge(&plans::net()?, &plans::NET_PLAN, output)
}

// The merge over the terms.
fn over_terms<W: Write>(output: &mut W) -> Result<(), Trouble> {
    writeln!(output, "over terms")?;
    merge(&plans::terms()?, &plans::TERMS_PLAN, output)
}

fn main(rt: HostRuntime) -> io::Result<()> {
    let mut output = rt.stdout();
    let net = over_net(&mut output);
    tell(net, &mut output)?;
    let terms = over_terms(&mut output);
    tell(terms, &mut output)
}
