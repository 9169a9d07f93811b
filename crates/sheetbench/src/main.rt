// The program: frames in hexadecimal on standard input, a line each; answers on standard output.
#![tactic(auto)]

ghost use Rattle.std.specs.Prelude.{◌≤◌, length};

use byte_strings::held::Held;
use byte_strings::list::FixedList;
use command::{ARGUMENT_LIMIT, Argument, Command, HELP, VERSION};
use server::session::Session;
use server::text::TEXT_LIMIT;
use std::env::FillError;
use std::io;
use std::io::{Read, Write};
use std::process::ExitCode;
use std::rt::Env;

mod command;

const CHUNK: usize = 32768;

// Answers the lines that end in a chunk of input, and writes what is answered before it returns.
fn serve<W: Write>(
    session: &mut Session,
    input: &[u8],
    out: &mut [u8],
    output: &mut W,
) -> io::Result<()>
    requires { 5222 ≤ length out.old }
{
    let mut used = 0;
    for byte in input {
        if out.len() - used < TEXT_LIMIT {
            output.write_all(&out[0..used])?;
            used = 0;
        }
        if let Some(n) = session.take(*byte, &mut out[used..]) {
            used += n;
        }
    }
    output.write_all(&out[0..used])
}

// Answers all lines of the input, the last one too where it has no end.
fn run<R: Read, W: Write>(input: &mut R, output: &mut W) -> io::Result<()> {
    let mut session = Session::new();
    // Buffers with lengths: `Read` and `Write` lend slices, and no heap is used.
    let mut chunk = [0u8; CHUNK];
    let mut out = [0u8; CHUNK];
    // By a count and no `loop`, whose end does not prove: what is read may go on.
    // No input comes near that many reads.
    for _ in 0..u64::MAX {
        let n = input.read(&mut chunk)?;
        if n == 0 {
            break;
        }
        serve(&mut session, &chunk[0..n], &mut out, output)?;
    }
    if session.pending() {
        serve(&mut session, b"\n", &mut out, output)?;
    }
    Ok(())
}

// The first arguments behind the program's name: one more than it takes, where there are so many.
// Into lent bytes and not by `env::args`, which takes a heap and only text.
fn arguments<E: Env>(env: &E) -> Result<FixedList<Argument, 2>, FillError> {
    let mut arguments = FixedList::empty();
    let mut bytes = [0u8; ARGUMENT_LIMIT];
    for i in 1..3 {
        match env.arg(i, &mut bytes) {
            Ok(n) => arguments.push(Held::of(&bytes[..n]).unwrap()),
            Err(FillError::NotPresent) => break,
            Err(FillError::TooLong) => return Err(FillError::TooLong),
        }
    }
    Ok(arguments)
}

fn main(rt: HostRuntime) -> io::Result<ExitCode> {
    let Ok(arguments) = arguments(&rt) else {
        eprintln!(rt;
            "sheetbench: unexpected argument of more than {ARGUMENT_LIMIT} bytes; \
             see sheetbench --help"
        )?;
        return Ok(ExitCode::from(2));
    };
    match Command::read(arguments.items()) {
        Ok(Command::Serve) => run(&mut rt.stdin(), &mut rt.stdout())?,
        Ok(Command::Help) => rt.print(HELP)?,
        Ok(Command::Version) => rt.print(VERSION)?,
        Err(argument) => {
            let name = argument.items().escape_ascii();
            eprintln!(rt; "sheetbench: unexpected argument \"{name}\"; see sheetbench --help")?;
            return Ok(ExitCode::from(2));
        }
    }
    Ok(ExitCode::SUCCESS)
}
