// What the program's arguments ask for, and the texts that answer them.
ghost use Rattle.std.specs.Prelude.{◌≡◌, ◌≢◌, ◌↔◌, ℕ, List, [], ◌∷◌, Ok, Err, Some, codes, IfErr, Contains};
ghost use Rattle.sheetbench.specs.declared.command.Command.TheVariants.{Serve, Help, Version};

use byte_strings::held::Held;

// The most bytes of an argument that is told of by its name.
pub const ARGUMENT_LIMIT: usize = 64;

// An argument behind the program's name.
pub type Argument = Held<ARGUMENT_LIMIT>;

// What the program does.
#[derive(Clone, Copy)]
pub enum Command {
    // Answers frames.
    Serve,
    // Prints how it is used.
    Help,
    // Prints which program it is.
    Version,
}

pub const HELP: &str = "\
sheetbench reads frames from standard input, one a line, and writes an answer to
each on standard output before it waits for the next.

usage: sheetbench
       sheetbench --help | --version

A frame has two hexadecimal digits a byte. Its first byte names the call, and in
every call but the setup the next one names the sheet, 00 to 03:
  A0 setup    B0 open     B1 add       B2 swap     B3 withdraw
  B4 join     B5 release  B6 reopen    B7 print    B9 look
The answer is 00 and what the call gives, or the text alone of a printed sheet;
or four bytes and more that tell why it is refused: number, layer, place in two.

Terms are set up, a sheet is opened, two steps are added, and one is looked at:
  A001000000          00
  B00001010102010300  00
  B1001001            000102010300
  B1001002            00010300
  B90001              000102010300

Status 0: the input ended; 1: reading or writing failed; 2: an unexpected
argument. docs/FRAMES.md says what each frame means.
";

pub const VERSION: &str = "\
sheetbench 0.1.0
rattle-kit-13f logic dac8208d650f15bf
";

impl Command {
    // Reads the arguments behind the program's name: none, or one that names a command.
    // The error is an argument that is unexpected: the only one, or the second.
    pub fn read(arguments: &[Argument]) -> Result<Command, Argument>
        ensures serve { (result ≡ Ok Serve) ↔ (arguments.now ≡ []) }
        ensures help { (result ≡ Ok Help) ↔ (arguments.now ≡ codes "--help" ∷ []) }
        ensures version { (result ≡ Ok Version) ↔ (arguments.now ≡ codes "--version" ∷ []) }
        ensures unexpected { IfErr result (Contains arguments.now) }
        ensures second { (first other : List ℕ) (rest : List (List ℕ)) →
            arguments.now ≡ first ∷ other ∷ rest → result ≡ Err other }
    {
        match arguments {
            [] => Ok(Command::Serve),
            [argument] => match Command::named(argument.items()) {
                Some(command) => Ok(command),
                None => Err(*argument),
            },
            [_, argument, ..] => Err(*argument),
        }
    }

    // The command that an argument names.
    fn named(argument: &[u8]) -> Option<Command>
        ensures help { (result ≡ Some Help) ↔ (argument.now ≡ codes "--help") }
        ensures version { (result ≡ Some Version) ↔ (argument.now ≡ codes "--version") }
        ensures other { result ≢ Some Serve }
    {
        if argument == b"--help".as_slice() {
            Some(Command::Help)
        } else if argument == b"--version".as_slice() {
            Some(Command::Version)
        } else {
            None
        }
    }
}
