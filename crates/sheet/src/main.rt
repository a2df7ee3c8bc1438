// Prints the sheet of the trace on standard input, or says on standard error why there is none.
#![tactic(auto)]

ghost use Rattle.std.specs.Prelude.{◌≡◌, ◌<◌, ◌≤◌, length, take, IfOk, OnOk};
ghost use Rattle.std.specs.Io.KnownBytes.{Appends, Consumes, IsAtEnd};
ghost use Rattle.sheet_text.specs.Desk.{printed_of};
ghost use Rattle.sheet_text.specs.Sheet.{longest_sheet, Shows};

use counts::tallies::COLUMNS;
use engine::rows::ALL_ROWS;
use sheet_text::desk::{LARGEST_INPUT, desk_sheet};
use std::fs::{OpenFile, OpenOptions};
use std::io::{ErrorKind, Read, Write};
use std::process::ExitCode;
use std::rt::Files;
use std::{fs, io};
use terms::range::LARGEST_SIZE;

// No sheet is longer.
const LONGEST_SHEET: usize = 32768;

// How often a read is tried that signals interrupt: a proved loop has to end, and no day has so many signals.
const TRIES: u32 = 1000000;

// The status of a program that has no answer.
const NO_ANSWER: u8 = 2;

// One read, tried again where a signal interrupted it.
fn read_some<R: Read>(reader: &mut R, part: &mut [u8]) -> io::Result<usize>
    ensures within { IfOk result (λ got. got ≤ length part.new) }
    ensures bytes { IfOk result (λ got. Consumes (R.remaining reader.old) (R.remaining reader.new) (take got part.new)) }
    ensures end { IfOk result (λ got. got ≡ 0 → 0 < length part.new → IsAtEnd (R.remaining reader.new)) }
{
    for _ in 1..TRIES {
        match reader.read(part) {
            Err(error) if error.kind() == ErrorKind::Interrupted => {}
            read => return read,
        }
    }
    reader.read(part)
}

// Reads to the end of the input, or until the buffer is full. A read that fails is not the end.
fn read_input<R: Read>(reader: &mut R, input: &mut [u8]) -> io::Result<usize>
    ensures within { IfOk result (λ taken. taken ≤ length input.new) }
    ensures bytes { IfOk result (λ taken. Consumes (R.remaining reader.old) (R.remaining reader.new) (take taken input.new)) }
    ensures end { IfOk result (λ taken. taken < length input.new → IsAtEnd (R.remaining reader.new)) }
{
    let mut length = 0;
    // A turn goes on by as many bytes as the read brought.
    while length < input.len() {
        let more = read_some(reader, &mut input[length..])?;
        if more == 0 {
            return Ok(length);
        }
        length += more;
    }
    Ok(length)
}

// Writes the sheet of an input, which is what its bytes have to be.
fn write_sheet<W: Write>(input: &[u8], sheet: &[u8], output: &mut W) -> io::Result<()>
    requires { sheet.now ≡ printed_of input.now }
    ensures { OnOk result (Appends (W.contents output.old) (W.contents output.new) (printed_of input.now)) }
{
    output.write_all(sheet)?;
    output.flush()
}

// The sheet of an input as text, from the input alone: the areas have room for every trace.
fn sheet_of(input: &[u8], text: &mut [u8]) -> usize
    ensures text { Shows (printed_of input.now) result text.old text.new }
    ensures short { result ≤ longest_sheet }
{
    let mut blocks = [0u64; LARGEST_SIZE];
    let mut stretches = [0u16; ALL_ROWS];
    let mut counts = [0u64; COLUMNS * LARGEST_SIZE];
    desk_sheet(input, &mut blocks, &mut stretches, &mut counts, text)
}

fn print_sheet<W: Write>(input: &[u8], output: &mut W) -> io::Result<()>
    ensures { OnOk result (Appends (W.contents output.old) (W.contents output.new) (printed_of input.now)) }
{
    let mut text = [0u8; LONGEST_SHEET];
    let written = sheet_of(input, &mut text);
    write_sheet(input, &text[..written], output)
}

// The file behind standard output, where it is one, may tell of a lost write only when all of it has to be on the disk. A
// file that cannot be opened by this name tells no more than the writes did.
fn sync_output(rt: &impl Files) -> io::Result<()> {
    let name = "/dev/stdout";
    match fs::metadata(rt, name) {
        Ok(found) if found.is_file() => {}
        _ => return Ok(()),
    }
    match OpenOptions::new().write(true).open(rt, name) {
        Ok(output) => output.sync_data(),
        Err(_) => Ok(()),
    }
}

// Says what failed in the system's words, and not by the number that an error also shows.
fn fail(rt: &(impl Eprint + Alloc), what: &str, error: io::Error) -> ExitCode {
    let said = match format!(in rt.alloc(); "{error}") {
        Ok(text) => {
            let why = text.as_str();
            let (why, _) = why.split_once(" (os error ").unwrap_or((why, ""));
            eprintln!(rt; "sheet: {what}: {why}")
        }
        Err(_) => eprintln!(rt; "sheet: {what}: {error}"),
    };
    // The status tells it even where standard error takes nothing.
    let _ = said;
    ExitCode::from(NO_ANSWER)
}

fn main(rt: HostRuntime) -> ExitCode {
    // One byte more than the program takes, so that a longer input shows.
    let mut input = [0u8; LARGEST_INPUT + 1];
    let length = match read_input(&mut rt.stdin(), &mut input) {
        Ok(length) => length,
        Err(error) => return fail(&rt, "standard input", error),
    };
    match print_sheet(&input[..length], &mut rt.stdout()).and_then(|()| sync_output(&rt)) {
        Ok(()) => ExitCode::SUCCESS,
        Err(error) => fail(&rt, "standard output", error),
    }
}
