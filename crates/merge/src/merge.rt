// One merge of two runs, over any step system.
use crate::hex::Hex;
use crate::plan::Plan;
use crate::trouble::Trouble;
use sheets::any_sheet::AnySheet;
use sheets::open_sheet::OpenSheet;
use sheets::refused::Refused;
use sheets::released_sheet::ReleasedSheet;
use std::io::Write;
use steps::system::StepSystem;

// Joins the two runs, releases and prints the sheet, goes on with it, and releases and prints it again.
pub(crate) fn merge<S: StepSystem, W: Write>(
    system: &S,
    plan: &Plan<'_>,
    output: &mut W,
) -> Result<(), Trouble> {
    let merged = merged(system, plan, output)?;
    let printed = publish(system, merged, output)?;
    let longer = go_on(system, printed, plan.last, output)?;
    let done = publish(system, longer, output)?;
    let gone = done.discard();
    writeln!(output, "discarded, with {gone} steps")?;
    Ok(())
}

// The sheet, unless something went wrong with it: then it is let go.
fn kept(sheet: OpenSheet, done: Result<(), Trouble>) -> Result<OpenSheet, Trouble> {
    match done {
        Ok(()) => Ok(sheet),
        Err(trouble) => {
            sheet.discard();
            Err(trouble)
        }
    }
}

// A designer's run from a start.
fn run<S: StepSystem, W: Write>(
    system: &S,
    start: &[u8],
    title: &str,
    steps: &[&[u8]],
    output: &mut W,
) -> Result<OpenSheet, Trouble> {
    let mut sheet = OpenSheet::start(system, start)?;
    let done = extend(system, &mut sheet, title, steps, output);
    kept(sheet, done)
}

// Adds steps one by one, and writes where each leads.
fn extend<S: StepSystem, W: Write>(
    system: &S,
    sheet: &mut OpenSheet,
    title: &str,
    steps: &[&[u8]],
    output: &mut W,
) -> Result<(), Trouble> {
    writeln!(output, "{title}")?;
    let mut end = [0u8; 256];
    for step in steps {
        let n = sheet.add(system, step, &mut end)?;
        let added = Hex(step);
        let state = Hex(&end[..n]);
        writeln!(output, "  add {added}: now at {state}")?;
    }
    Ok(())
}

// The first designer's run with the second's joined into it.
fn merged<S: StepSystem, W: Write>(
    system: &S,
    plan: &Plan<'_>,
    output: &mut W,
) -> Result<OpenSheet, Trouble> {
    let start = Hex(plan.start);
    writeln!(output, "both designers start at {start}")?;
    let mut sheet = run(system, plan.start, "the first designer", plan.first, output)?;
    let done = join(system, &mut sheet, plan, output);
    kept(sheet, done)
}

// Swaps two steps of the first run, and joins the second into it.
fn join<S: StepSystem, W: Write>(
    system: &S,
    first: &mut OpenSheet,
    plan: &Plan<'_>,
    output: &mut W,
) -> Result<(), Trouble> {
    let place = plan.swapped;
    first.swap(system, place)?;
    writeln!(output, "  swap step {place} and the next")?;
    let second = run(
        system,
        plan.start,
        "the second designer",
        plan.second,
        output,
    )?;
    let joined = first.join(system, AnySheet::Open(&second));
    second.discard();
    let (len, shared) = joined?;
    writeln!(
        output,
        "joined into the first run: {len} steps, {shared} of them shared"
    )?;
    Ok(())
}

// Releases a sheet and prints it.
fn publish<S: StepSystem, W: Write>(
    system: &S,
    sheet: OpenSheet,
    output: &mut W,
) -> Result<ReleasedSheet, Trouble> {
    let released = match sheet.release(system) {
        Ok(released) => released,
        Err(Refused { sheet, fault }) => {
            sheet.discard();
            return Err(fault.into());
        }
    };
    match print(system, &released, output) {
        Ok(()) => Ok(released),
        Err(trouble) => {
            released.discard();
            Err(trouble)
        }
    }
}

// Writes the text of a released sheet.
fn print<S: StepSystem, W: Write>(
    system: &S,
    sheet: &ReleasedSheet,
    output: &mut W,
) -> Result<(), Trouble> {
    let mut text = [0u8; 5222];
    let n = sheet.print(system, &mut text)?;
    writeln!(output, "released")?;
    output.write_all(&text[..n])?;
    Ok(())
}

// Opens a released sheet again, and adds a step.
fn go_on<S: StepSystem, W: Write>(
    system: &S,
    sheet: ReleasedSheet,
    step: &[u8],
    output: &mut W,
) -> Result<OpenSheet, Trouble> {
    let mut open = match sheet.reopen(system) {
        Ok(open) => open,
        Err(Refused { sheet, fault }) => {
            sheet.discard();
            return Err(fault.into());
        }
    };
    let done = extend(system, &mut open, "reopened", &[step], output);
    kept(open, done)
}
