// The reader's calls for C: those of `oq3_read`, exported. A slice passes as a pointer and a length.
#![tactic(auto)]

ghost use Rattle.std.specs.Prelude.{◌≡◌};
ghost use Rattle.oq3_read.specs.Calls.{returns, reads_file, reads_step};

// One step: where the rest begins, the record kind, 0 at the end, and the payload's numbers.
#[unsafe(no_mangle)]
pub extern "C" fn oq3_read_step(file: &[u8], answer: &mut [u64]) -> u32
    ensures { reads_step file.now answer.old ≡ returns result answer.new }
{
    oq3_read::oq3_read_step(file, answer)
}

// The whole file: its place and its records.
#[unsafe(no_mangle)]
pub extern "C" fn oq3_read_file(file: &[u8], answer: &mut [u64]) -> u32
    ensures { reads_file file.now answer.old ≡ returns result answer.new }
{
    oq3_read::oq3_read_file(file, answer)
}
