// Counts the kinds of each fixed set twice, as the ones of its words and by asking its listing, and says whether both agree
// (docs/RULES.md, section 13). That they do is proved: no line can say DIFFERENT.
#![tactic(auto)]

mod named;
mod show;

ghost use Rattle.std.specs.Prelude.{true, ◌≡◌, IfOk};

use named::SETS;
use std::io;
use std::io::Write;

// A line for each set. Whether every set's words and listing agree.
fn show_all<W: Write>(out: &mut W) -> io::Result<bool>
    ensures { IfOk result (λ r. r ≡ true) }
{
    let mut agree = true;
    for (name, set) in SETS {
        agree &= show::show(out, name, set)?;
    }
    Ok(agree)
}

fn main(rt: HostRuntime) -> io::Result<()> {
    let mut out = io::writer(&rt);
    if show_all(&mut out)? {
        writeln!(out, "{} sets agree", SETS.len())?;
    }
    Ok(())
}
