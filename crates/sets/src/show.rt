// A set's line: its name, the ones of its words, and the kinds that its listing has.
ghost use Rattle.std.specs.Prelude.{length, true, ◌≡◌, IfOk, OnErr};
ghost use Rattle.kinds.specs.Membership.{once};
ghost use Rattle.kinds.specs.Sets.{kinds_of};

use kinds::sets::{Fixed, set_of};
use std::io;
use std::io::Write;

// Stays (plainer): two answers about one set of numbers; neither is there for the other alone.
// What is found by asking every number from 0 to 65,535.
#[derive(Clone, Copy)]
pub struct Asked {
    // How many of them the listing has.
    pub listed: u64,
    // Whether the words have the same.
    pub same: bool,
}

// Asks the listing and the words of every number.
fn ask(set: Fixed) -> Asked
    ensures { (result.listed ≡ length (once (kinds_of set))) × (result.same ≡ true) }
{
    let words = set_of(set);
    let mut listed = 0;
    let mut same = true;
    for n in 0..65536u32 {
        let kind = n as u16;
        let has = set.has(kind);
        listed += u64::from(has);
        same &= has == words.contains(kind);
    }
    Asked { listed, same }
}

// A line's end. One that says DIFFERENT is told even where it cannot be written.
fn put_end<W: Write>(out: &mut W, agree: bool) -> io::Result<bool>
    ensures told { IfOk result (λ r. r ≡ agree) }
    ensures failed { OnErr result (agree ≡ true) }
{
    if agree {
        writeln!(out)?;
        return Ok(true);
    }
    let _ = writeln!(out, " DIFFERENT");
    Ok(false)
}

// Writes the line of a set that has a name. Whether its words and its listing agree.
pub fn show<W: Write>(out: &mut W, name: &str, set: Fixed) -> io::Result<bool>
    ensures { IfOk result (λ r. r ≡ true) }
{
    let ones = u64::from(set.count());
    let asked = ask(set);
    write!(out, "{name} {ones} {}", asked.listed)?;
    put_end(out, asked.same & (ones == asked.listed))
}
