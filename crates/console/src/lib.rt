// What the programs over plan files share: the bytes that they look at, the lines that they print, and how they end.
#![tactic(auto)]

ghost use Rattle.std.specs.Prelude.{◌≡◌, ◌<◌, IfSome, MatchResult};
ghost use Rattle.std.specs.Process.{exit_status};

use anyhow::anyhow;
use line::Line;
use std::alloc::{AllocError, Global};
use std::io::{BufRead, BufReader, Read};
use std::process::ExitCode;
use std::rt::{Env, Files};
use std::{env, fs};

// The bytes of the file that the one argument names, or of standard input where there is none.
fn input<R: Env + Files + Input + AllocGlobal>(rt: &R, program: &str) -> anyhow::Result<Vec<u8>> {
    let mut args = env::args(rt)?;
    let _name = args.next();
    match (args.next(), args.next()) {
        (None, _) => {
            let mut bytes = Vec::new(rt.alloc());
            rt.reader().read_to_end(&mut bytes)?;
            Ok(bytes)
        }
        (Some(path), None) => fs::read(rt, path.as_str()).try_map_err(|e| Ok(anyhow!(
            format!(in rt.alloc(); "{path}: {e}")?
        ))),
        (Some(_), Some(_)) => Err(anyhow!(format!(in rt.alloc(); "usage: {program} [FILE]")?)),
    }
}

// What a program prints of the bytes of a plan file.
pub trait Reports {
    fn report(heap: Global, bytes: &[u8]) -> Result<Vec<Line>, AllocError>;
}

// Prints what is to be said of a file: the one that the one argument names, or standard input where there is none.
pub fn show<P: Reports, R: Env + Files + Input + Print + AllocGlobal>(
    rt: &R,
    program: &str,
) -> anyhow::Result<()> {
    let bytes = input(rt, program)?;
    let lines = P::report(rt.alloc(), bytes.as_slice())?;
    print_lines(rt, "", lines.as_slice())
}

// Prints of each case, one to a line of standard input, its name and what is to be said of its file.
pub fn show_cases<P: Reports, R: Input + Print + AllocGlobal>(rt: &R) -> anyhow::Result<()> {
    for case in BufReader::new(rt.alloc(), rt.reader())?.lines(rt.alloc()) {
        let bytes = case_bytes(rt, case?.as_str())?;
        let lines = P::report(rt.alloc(), bytes.as_slice())?;
        print_lines(rt, "  ", lines.as_slice())?;
    }
    Ok(())
}

// Prints each line, after an indent.
fn print_lines<R: Print + AllocGlobal>(rt: &R, indent: &str, lines: &[Line]) -> anyhow::Result<()> {
    for line in lines {
        println!(rt; "{indent}{line}")?;
    }
    Ok(())
}

// The status to end with: 0, or, after an error, 1. The error is one line on standard error.
pub fn status<R: Eprint>(rt: &R, done: anyhow::Result<()>) -> ExitCode
    ensures by_error { MatchResult done (λ _. exit_status result ≡ 0) (λ _. exit_status result ≡ 1) }
{
    match done {
        Ok(()) => ExitCode::SUCCESS,
        Err(e) => {
            let _ = eprintln!(rt; "{e}");
            ExitCode::FAILURE
        }
    }
}

// Kept so: the kit's `hex` takes capital letters too and refuses an odd number of digits, and these cases do neither.
fn digit(b: u8) -> Option<u8>
    ensures below_16 { IfSome result (λ d. d < 16) }
{
    match b {
        b'0'..=b'9' => Some(b - b'0'),
        b'a'..=b'f' => Some(b - b'a' + 10),
        _ => None,
    }
}

fn append_digits(out: &mut Vec<u8>, digits: &[u8]) -> anyhow::Result<()> {
    for pair in digits.chunks_exact(2) {
        let (high, low) = digit(pair[0])
            .zip(digit(pair[1]))
            .ok_or_else(|| anyhow!("no hexadecimal digit"))?;
        out.push(high * 16 + low)?;
    }
    Ok(())
}

fn append_piece(out: &mut Vec<u8>, piece: &str) -> anyhow::Result<()> {
    let (digits, times) = match piece.split_once('x') {
        Some((digits, times)) => (digits, times.parse::<u32>()?),
        None => (piece, 1),
    };
    for _ in 0..times {
        append_digits(out, digits.as_bytes())?;
    }
    Ok(())
}

// Prints the name of a case, and gives the bytes of its file. A case is a line of text: a name and then pieces of the file,
// hexadecimal digits, or digits, an `x` and how often they are repeated.
fn case_bytes<R: Print + AllocGlobal>(rt: &R, case: &str) -> anyhow::Result<Vec<u8>> {
    let mut words = case.split_whitespace();
    if let Some(name) = words.next() {
        println!(rt; "{name}")?;
    }
    let mut bytes = Vec::new(rt.alloc());
    for piece in words {
        append_piece(&mut bytes, piece)?;
    }
    Ok(bytes)
}
