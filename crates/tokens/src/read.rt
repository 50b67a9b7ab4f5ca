// Tokens from text.
ghost use Rattle.std.specs.Prelude.{◌≤◌, ◌<◌, length, IfOk, IfSome};

use crate::table::kind_named;
use std::io;
use std::io::Write;
use text::number::digits;
use text::split_line;

// The entries.
#[derive(Clone, Copy)]
pub enum Entry {
    Source,
    Item,
    Expr,
}

// What a text asks for: the entry, the mode, and how many tokens are held; and the OpenQASM text, where it leads to one.
#[derive(Clone, Copy)]
pub struct Asked<'a> {
    pub entry: Entry,
    pub mode: u32,
    pub count: usize,
    pub source: Option<&'a [u8]>,
}

// Whether a byte ends a word: white space, or the `#` of a comment.
fn is_blank(b: u8) -> bool {
    matches!(b, b' ' | b'\t' | b'\r' | b'\n' | b'#')
}

// What stands behind the white space and the comments that a text begins with.
fn skip(text: &[u8]) -> &[u8]
    ensures { length result.now ≤ length text.now }
{
    let mut rest = text;
    while let [b, others @ ..] = rest {
        if !is_blank(*b) {
            break;
        }
        rest = if *b == b'#' {
            split_line(others).1
        } else {
            others
        };
    }
    rest
}

// The first word of a text, and what stands behind it.
fn split_word(text: &[u8]) -> Option<(&[u8], &[u8])>
    ensures { IfSome result (λ w. length w.1.now < length text.now) }
{
    let text = skip(text);
    let (_, others) = text.split_first()?;
    let more = others.iter().position(|&b| is_blank(b));
    Some(text.split_at(1 + more.unwrap_or(others.len())))
}

// Why a word has no meaning where it stands.
#[derive(Clone, Copy)]
enum Bad {
    Kind,
    Directive,
}

impl Bad {
    // Stays (speed): no `Display`; what is said between the line and the word is one piece, which takes one write.
    fn said(self) -> &'static [u8] {
        match self {
            Bad::Kind => b": no kind: ",
            Bad::Directive => b": no directive here: ",
        }
    }
}

// What a word is.
#[derive(Clone, Copy)]
enum Word {
    Token { kind: u16, joint: bool },
    Directive(Directive),
}

#[derive(Clone, Copy)]
enum Directive {
    Entry(Entry),
    Mode(u32),
    Text,
}

fn directive_of(word: &[u8]) -> Option<Directive> {
    match word {
        b"!source" => Some(Directive::Entry(Entry::Source)),
        b"!item" => Some(Directive::Entry(Entry::Item)),
        b"!expr" => Some(Directive::Entry(Entry::Expr)),
        b"!mode0" => Some(Directive::Mode(0)),
        b"!mode1" => Some(Directive::Mode(1)),
        b"!text" => Some(Directive::Text),
        _ => None,
    }
}

// The kind that a word is, by its number or by its name.
fn kind_of(word: &[u8]) -> Option<u16> {
    match digits(word, 10, u64::from(u16::MAX)) {
        Some((kind, [])) => Some(kind as u16),
        _ => kind_named(word),
    }
}

// What a word is where so many tokens stand before it: behind a token there is no directive. The `~` at its end says that a token is joint.
fn word_of(word: &[u8], tokens: usize) -> Result<Word, Bad> {
    if word.starts_with(b"!") {
        return match directive_of(word) {
            Some(directive) if tokens == 0 => Ok(Word::Directive(directive)),
            _ => Err(Bad::Directive),
        };
    }
    let bare = word.strip_suffix(b"~").unwrap_or(word);
    Ok(Word::Token {
        kind: kind_of(bare).ok_or(Bad::Kind)?,
        joint: bare.len() < word.len(),
    })
}

// Puts a token into the rooms, and tells how many there are then. One that finds no room is left out: there are then more than a parse
// takes.
fn hold(kinds: &mut [u16], joints: &mut [u64], count: usize, kind: u16, joint: bool) -> usize
    requires { count ≤ length kinds.old }
    ensures { result ≤ length kinds.new }
{
    let Some(place) = kinds.get_mut(count) else {
        return count;
    };
    *place = kind;
    if let Some(bits) = joints.get_mut(count / 64)
        && joint
    {
        *bits |= 1 << (count % 64);
    }
    count + 1
}

// How many lines of a text have ended.
fn lines_ended(text: &[u8]) -> u64
    ensures { result ≤ length text.now }
{
    let mut ended = 0;
    for &b in text {
        ended += u64::from(b == b'\n');
    }
    ended
}

// Says that a word is bad, and where: in the line that ends with it or behind it.
fn say_bad<W: Write>(out: &mut W, read: &[u8], word: &[u8], bad: Bad) -> io::Result<()> {
    write!(out, "line {}", lines_ended(read) + 1)?;
    out.write_all(bad.said())?;
    out.write_all(word)?;
    writeln!(out)
}

// Reads a text up to its end or to OpenQASM text, which stands behind `!text` and the byte that ends it. It says of each word that is neither
// a token nor a directive where it stands; what is asked for is then nothing.
pub fn read<'a, W: Write>(
    out: &mut W,
    text: &'a [u8],
    kinds: &mut [u16],
    joints: &mut [u64],
) -> io::Result<Option<Asked<'a>>>
    ensures count { IfOk result (λ asked. IfSome asked (λ a. a.count ≤ length kinds.new)) }
    ensures source { IfOk result (λ asked. IfSome asked (λ a. IfSome a.source (λ t. length t.now ≤ length text.entry.now))) }
{
    let mut asked = Asked {
        entry: Entry::Source,
        mode: 0,
        count: 0,
        source: None,
    };
    let mut is_good = true;
    let mut rest = text;
    while let Some((word, behind)) = split_word(rest) {
        rest = behind;
        match word_of(word, asked.count) {
            Ok(Word::Token { kind, joint }) => {
                asked.count = hold(kinds, joints, asked.count, kind, joint);
            }
            Ok(Word::Directive(Directive::Entry(entry))) => asked.entry = entry,
            Ok(Word::Directive(Directive::Mode(mode))) => asked.mode = mode,
            Ok(Word::Directive(Directive::Text)) => {
                asked.source = Some(rest.get(1..).unwrap_or(&[]));
                break;
            }
            Err(bad) => {
                say_bad(out, &text[..text.len() - rest.len()], word, bad)?;
                is_good = false;
            }
        }
    }
    Ok(is_good.then_some(asked))
}

// Whether a text leads to OpenQASM text by directives alone.
pub fn has_source(text: &[u8]) -> bool {
    let mut rest = text;
    while let Some((word, behind)) = split_word(rest) {
        match directive_of(word) {
            Some(Directive::Text) => return true,
            Some(_) => rest = behind,
            None => return false,
        }
    }
    false
}
