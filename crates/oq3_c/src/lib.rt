// The calls for C and Rust: those of `oq3`, exported. A slice passes as a pointer and a length.
#![tactic(auto)]

ghost use Rattle.std.specs.Prelude.{◌≡◌, []};
ghost use Rattle.oq3.specs.Calls.{checks, resolves, returns, parses, lex_returns, lexes};

// A parse. Entry 0 is the source file, 1 an item, 2 an expression.
#[unsafe(no_mangle)]
pub extern "C" fn oq3_parse(
    entry: u32,
    mode: u32,
    kinds: &[u16],
    joints: &[u64],
    room: &mut [u32],
    answer: &mut [u64],
) -> u32
    ensures { parses entry mode kinds.now joints.now room.old answer.old ≡ returns result room.new [] answer.new }
{
    oq3::oq3_parse(entry, mode, kinds, joints, room, answer)
}

// The check of a list of events.
#[unsafe(no_mangle)]
pub extern "C" fn oq3_check(words: &[u32], answer: &mut [u64]) -> u32
    ensures { checks words.now answer.old ≡ returns result words.now [] answer.new }
{
    oq3::oq3_check(words, answer)
}

// A list's step file.
#[unsafe(no_mangle)]
pub extern "C" fn oq3_resolve(words: &mut [u32], steps: &mut [u8], answer: &mut [u64]) -> u32
    ensures { resolves words.old steps.old answer.old ≡ returns result words.new steps.new answer.new }
{
    oq3::oq3_resolve(words, steps, answer)
}

// A text's tokens.
#[unsafe(no_mangle)]
pub extern "C" fn oq3_lex(
    text: &[u8],
    kinds: &mut [u16],
    joints: &mut [u64],
    tokens: &mut [u32],
    answer: &mut [u64],
) -> u32
    ensures { lexes text.now kinds.old joints.old tokens.old answer.old ≡ lex_returns result kinds.new joints.new tokens.new answer.new }
{
    oq3::oq3_lex(text, kinds, joints, tokens, answer)
}
