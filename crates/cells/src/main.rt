// The program: reads plane codes from standard input, a line each, and prints the cell of each or its refusal (document 01, "Positions to check").
// It reads what there is, up to 65,536 bytes at a time, and writes the answers of whole lines before it reads on. The work is in `lines`.
// What could not be read or written it says on standard error; of an output that nobody reads any more it says nothing. Its exit status is 0 where
// all of the input was read and all of the answers were written, and 1 where not.
#![tactic(auto)]

ghost use Rattle.std.specs.Prelude.{◌≡◌, ◌≤◌, ◌<◌, true, false, [], length, take, IfOk, OnOk, OnErr, IfSome, IfNone};
ghost use Rattle.std.specs.Io.KnownBytes.{Appends, Consumes, IsAtEnd};
ghost use Rattle.std.proofs.lemmas.List.Edits.{sets};
ghost use Rattle.lines.specs.Lines.{output_of};
ghost use Rattle.lines.specs.Filling.{Work, start, fill};
ghost use Rattle.lines.specs.Run.{emptied, finish_text, Through, Ran};

use std::fmt;
use std::io::{self, ErrorKind, Read, Write};
use std::marker::Model;
use std::process::ExitCode;

// Why a run ended before all was read and written: the input could not be read, the output could not be written, or there were more turns than any
// run takes.
#[derive(Drop)]
enum Failed {
    Input(io::Error),
    Output(io::Error),
    Turns,
}

impl Failed {
    // Whether it is said on standard error. Where nobody reads the output any more, the program ends as quietly as other filters.
    fn is_said(&self) -> bool {
        match self {
            Failed::Input(_) => true,
            Failed::Output(cause) => cause.kind() != ErrorKind::BrokenPipe,
            Failed::Turns => false,
        }
    }
}

// What is said of it.
impl fmt::Display for Failed {
    fn fmt<W: fmt::Write>(&self, f: &mut fmt::Formatter<W>) -> fmt::Result {
        match self {
            Failed::Input(cause) => write!(f, "the input cannot be read: {cause}"),
            Failed::Output(cause) => write!(f, "the output cannot be written: {cause}"),
            Failed::Turns => write!(f, "the input does not end"),
        }
    }
}

// The state between two bytes of the input: of the line that has begun the first bytes, as many as are held, and the buffer that answers are laid
// into before they are handed over.
#[derive(Drop)]
struct State {
    line: [u8; 21],
    held: usize,
    out: [u8; 65536],
}

impl Model for State {
    ghost Value = { Work };

    ghost view = { λ s. start s.held s.line s.out };

    ghost invariant = { λ s. s.held ≤ 21 };
}

impl State {
    // No line has begun.
    fn new() -> Self {
        State {
            line: [0; 21],
            held: 0,
            out: [0; 65536],
        }
    }

    // As much of a block as there is room for is filled in and handed over: how many bytes of it.
    fn print_some<W: Write>(&mut self, to: &mut W, block: &[u8]) -> Result<usize, Failed>
        ensures filled { self.new ≡ emptied (fill self.old block.now) }
        ensures next { IfOk result (λ n. n ≡ (fill self.old block.now).marked.next) }
        ensures some { IfOk result (λ n. (n ≤ length block.now) × (0 < length block.now → 0 < n)) }
        ensures written { let w = fill self.old block.now in OnOk result (Appends (W.contents to.old) (W.contents to.new) (take w.marked.at w.out)) }
    {
        let filled = lines::fill(block, self.held, &mut self.line, &mut self.out);
        self.held = filled.held;
        to.write_all(&self.out[..filled.at])
            .map_err(Failed::Output)?;
        Ok(filled.next)
    }

    // A whole block, part after part, unless the output fails.
    fn print_block<W: Write>(&mut self, to: &mut W, block: &[u8]) -> Result<(), Failed>
        ensures failed { OnErr result (Through self.old block.now self.new false) }
        ensures written { OnOk result ((t : Through self.old block.now self.new true) × Appends (W.contents to.old) (W.contents to.new) t.output) }
    {
        let mut rest = block;
        while !rest.is_empty() {
            let used = self.print_some(to, rest)?;
            rest = &rest[used..];
        }
        Ok(())
    }

    // The answer of the last line, where no line feed ended it.
    fn print_last<W: Write>(&mut self, to: &mut W) -> Result<(), Failed>
        ensures laid { self.new ≡ record self.old { out = sets self.old.out 0 (finish_text self.old) } }
        ensures written { OnOk result (Appends (W.contents to.old) (W.contents to.new) (finish_text self.old)) }
    {
        let last = lines::finish(&self.line, self.held, &mut self.out);
        to.write_all(&self.out[..last]).map_err(Failed::Output)
    }

    // One read: how many bytes were read and printed, or none at the input's end, where the last line is answered. An input that cannot be read has
    // not ended.
    fn turn<I: Read, W: Write>(
        &mut self,
        input: &mut I,
        to: &mut W,
        block: &mut [u8],
    ) -> Result<Option<usize>, Failed>
        ensures read { IfOk result (λ r. IfSome r (λ n. Consumes (I.remaining input.old) (I.remaining input.new) (take n block.new))) }
        ensures written { IfOk result (λ r. IfSome r (λ n. (t : Through self.old (take n block.new) self.new true)
            × Appends (W.contents to.old) (W.contents to.new) t.output)) }
        ensures ended { IfOk result (λ r. IfNone r (0 < length block.old
            → Consumes (I.remaining input.old) (I.remaining input.new) [] × IsAtEnd (I.remaining input.new))) }
        ensures answered { IfOk result (λ r. IfNone r (Appends (W.contents to.old) (W.contents to.new) (finish_text self.old))) }
        ensures out_after { IfOk result (λ r. IfNone r (self.new.out ≡ sets self.old.out 0 (finish_text self.old))) }
    {
        let n = input.read(block).map_err(Failed::Input)?;
        if n == 0 {
            self.print_last(to)?;
            return Ok(None);
        }
        self.print_block(to, &block[..n])?;
        Ok(Some(n))
    }

    // Turn after turn from a line that has not begun on, until the input ends or something fails. A proved loop has to end, and nothing says that an
    // input does: so there are as many turns as no run uses up.
    fn run<I: Read, W: Write>(
        &mut self,
        input: &mut I,
        to: &mut W,
        block: &mut [u8],
    ) -> Result<(), Failed>
        ensures ran { OnOk result (Ran (start 0 self.old.line self.old.out) self.new.out) }
        ensures prints { OnOk result (0 < length block.old
            → IfSome (I.remaining input.old) (λ bytes. Appends (W.contents to.old) (W.contents to.new) (output_of bytes))) }
    {
        self.held = 0;
        for _ in 0..u64::MAX {
            if self.turn(input, to, block)?.is_none() {
                return Ok(());
            }
        }
        Err(Failed::Turns)
    }
}

fn main(rt: HostRuntime) -> ExitCode {
    let mut block = [0u8; 65536];
    let mut input = rt.stdin();
    let mut to = rt.stdout();
    match State::new().run(&mut input, &mut to, &mut block) {
        Ok(()) => ExitCode::SUCCESS,
        Err(failed) => {
            if failed.is_said() {
                let _ = eprintln!(rt; "cells: {failed}");
            }
            ExitCode::FAILURE
        }
    }
}
