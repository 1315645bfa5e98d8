// The program of the buyers' sheet: a trial file on standard input, its sheet or its refusal on standard output, and nothing else.
#![tactic(auto)]

ghost use Rattle.std.specs.Prelude.{IfErr, IfSome, OnOk};
ghost use Rattle.std.specs.Io.KnownBytes.{Appends};
ghost use Rattle.sheet.specs.Sheets.{sheet_of};
ghost use Rattle.streams.specs.Programs.{Silent};

use limits::{INPUT_ROOM, LONGEST_SHEET};
use std::io;
use std::io::{Read, Write};
use streams::{Failure, Tell};

struct Sheet;

impl Tell for Sheet {
    ghost told = { sheet_of };

    fn tell(&self, file: &[u8], out: &mut [u8]) -> usize {
        sheet::sheet(file, out).unwrap_or(0)
    }
}

// The sheet of the whole input, from any reader to any writer.
fn run<R: Read, W: Write>(reader: &mut R, writer: &mut W) -> Result<(), Failure>
    ensures told { OnOk result (IfSome (R.remaining reader.old) (λ input. Appends (W.contents writer.old) (W.contents writer.new) (sheet_of input))) }
    ensures silent { IfErr result (λ failure. Silent failure (W.contents writer.old) (W.contents writer.new)) }
{
    let mut file = [0u8; INPUT_ROOM];
    let mut text = [0u8; LONGEST_SHEET];
    streams::run(&Sheet, reader, writer, &mut file, &mut text)
}

fn main(rt: HostRuntime) {
    streams::tell_failure(&rt, run(&mut rt.reader(), &mut io::writer(&rt)));
}
