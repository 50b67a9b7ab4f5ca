// Shows the step file on standard input (docs/RULES.md, section 9).
#![tactic(auto)]

use std::io;
use std::io::{Read, Write};
use text::stream::{read_full, room};

fn show_input<R: Read, W: Write>(input: &mut R, out: &mut W, file: &mut [u8]) -> io::Result<()> {
    let n = read_full(input, file)?;
    // one that fills the room may be longer
    if n == file.len() {
        return writeln!(out, "bad input: more than 1048575 bytes");
    }
    steptext::show_file(out, &file[..n])
}

fn main(rt: HostRuntime) -> io::Result<()> {
    let mut file: [u8; 1048576] = room(0);
    show_input(&mut rt.reader(), &mut io::writer(&rt), &mut file)
}
