// The program that prints balanced reports: a trial file on standard input, its balanced report or its refusal on standard output, and nothing else.
#![tactic(auto)]

ghost use Rattle.std.specs.Prelude.{IfErr, IfSome, OnOk};
ghost use Rattle.std.specs.Io.KnownBytes.{Appends};
ghost use Rattle.rendering.specs.Reports.{balanced_report_of};
ghost use Rattle.streams.specs.Programs.{Silent};

use limits::{INPUT_ROOM, LONGEST_REPORT};
use std::io;
use std::io::{Read, Write};
use streams::{Failure, Tell};

struct Balanced;

impl Tell for Balanced {
    ghost told = { balanced_report_of };

    fn tell(&self, file: &[u8], out: &mut [u8]) -> usize {
        rendering::balanced_report(file, out).unwrap_or(0)
    }
}

// The balanced report of the whole input, from any reader to any writer.
fn run<R: Read, W: Write>(reader: &mut R, writer: &mut W) -> Result<(), Failure>
    ensures told { OnOk result (IfSome (R.remaining reader.old) (λ input. Appends (W.contents writer.old) (W.contents writer.new) (balanced_report_of input))) }
    ensures silent { IfErr result (λ failure. Silent failure (W.contents writer.old) (W.contents writer.new)) }
{
    let mut file = [0u8; INPUT_ROOM];
    let mut text = [0u8; LONGEST_REPORT];
    streams::run(&Balanced, reader, writer, &mut file, &mut text)
}

fn main(rt: HostRuntime) {
    streams::tell_failure(&rt, run(&mut rt.reader(), &mut io::writer(&rt)));
}
