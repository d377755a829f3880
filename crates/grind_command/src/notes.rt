//! The line that a run leaves on the notes.
ghost use Rattle.std.specs.Prelude.{◌≡◌, ◌++◌, decimal};
ghost use Rattle.grind_outside.specs.Outside.{appended, IsFront};
ghost use Rattle.grind_command.specs.Statuses.{note_of, refusal_words, lexical_lead, offset_of, lead_of, place_of, trail_of, fault_words};
ghost use Rattle.grind_command.specs.Notes.{Notes};

use crate::ending::Ending;
use crate::refusal::Refusal;
use grind_outside::{Sink, SinkRefusal, write_whole};
use grind_theory::theory::Fault;
use grind_tokens::tokens::LexRefusal;
use itoa::Buffer;

/// Writes the line of an ending, for a file of that name. A refusal of the notes leaves some first
/// bytes of the line there, and changes nothing else.
pub fn tell<E: Sink>(notes: &mut E, ending: Ending, name: &[u8])
    ensures { Notes E.written E.refuses notes.old notes.new (note_of ending name.now) }
{
    let _ = write_note(notes, ending, name);
}

fn write_note<E: Sink>(notes: &mut E, ending: Ending, name: &[u8]) -> Result<(), SinkRefusal>
    ensures { Notes E.written E.refuses notes.old notes.new (note_of ending name.now) }
{
    match ending {
        Ending::AllClosed | Ending::SomeOpen => Ok(()),
        Ending::WordsRefused => write_last(notes, b"grind: usage: solve FILE\n"),
        Ending::WriteFault => write_last(notes, b"grind: cannot write\n"),
        Ending::Memory => write_last(notes, b"grind: out of memory\n"),
        Ending::ReadFault => write_around(notes, b"grind: cannot read ", name, b"\n"),
        Ending::Refused(refusal) => write_refusal(notes, name, refusal),
        Ending::TooLong => {
            write_around(notes, b"grind: ", name, b": longer than 4194304 bytes\n")
        }
    }
}

// The line of a refused file.
fn write_refusal<E: Sink>(notes: &mut E, name: &[u8], refusal: Refusal) -> Result<(), SinkRefusal>
    ensures { Notes E.written E.refuses notes.old notes.new (note_of (Ending.Refused refusal) name.now) }
{
    if let Err(refused) = write_whole(notes, b"grind: ") {
        return Err(refused);
    }
    write_named(notes, name, refusal)
}

// The name, and what is said of the file.
fn write_named<E: Sink>(notes: &mut E, name: &[u8], refusal: Refusal) -> Result<(), SinkRefusal>
    ensures { Notes E.written E.refuses notes.old notes.new (name.now ++ refusal_words refusal) }
{
    if let Err(refused) = write_whole(notes, name) {
        return Err(refused);
    }
    write_words(notes, refusal)
}

// What is said of a refused file.
fn write_words<E: Sink>(notes: &mut E, refusal: Refusal) -> Result<(), SinkRefusal>
    ensures { Notes E.written E.refuses notes.old notes.new (refusal_words refusal) }
{
    let mut buffer = Buffer::new();
    let digits = buffer.format(place(refusal)).as_bytes();
    write_around(notes, lead(refusal), digits, trail(refusal))
}

// What stands before the number.
fn lead(refusal: Refusal) -> &'static [u8]
    ensures { result.now ≡ lead_of refusal }
{
    match refusal {
        Refusal::Lex(lexical) => lexical_lead(lexical),
        Refusal::Syntax { .. } | Refusal::TooDeep { .. } | Refusal::Bad { .. } => {
            b": declaration "
        }
    }
}

// What stands before the offset.
fn lexical_lead(lexical: LexRefusal) -> &'static [u8]
    ensures { result.now ≡ lexical_lead lexical }
{
    match lexical {
        LexRefusal::BadByte { .. } => b": bad byte at offset ",
        LexRefusal::NumberTooLarge { .. } => b": number too large at offset ",
        LexRefusal::NameTooLong { .. } => b": name too long at offset ",
        LexRefusal::Memory => b": out of memory at offset ",
    }
}

// The offset of the byte.
fn offset(lexical: LexRefusal) -> u32
    ensures { result ≡ offset_of lexical }
{
    match lexical {
        LexRefusal::BadByte { offset } => offset,
        LexRefusal::NumberTooLarge { offset } => offset,
        LexRefusal::NameTooLong { offset } => offset,
        LexRefusal::Memory => 0,
    }
}

// The number of the byte or of the declaration.
fn place(refusal: Refusal) -> u32
    ensures { result ≡ place_of refusal }
{
    match refusal {
        Refusal::Lex(lexical) => offset(lexical),
        Refusal::Syntax { decl } => decl,
        Refusal::TooDeep { decl } => decl,
        Refusal::Bad { decl, .. } => decl,
    }
}

// What stands after the number.
fn trail(refusal: Refusal) -> &'static [u8]
    ensures { result.now ≡ trail_of refusal }
{
    match refusal {
        Refusal::Lex(_) => b"\n",
        Refusal::Syntax { .. } => b": syntax\n",
        Refusal::TooDeep { .. } => b": nested too deep\n",
        Refusal::Bad { fault, .. } => words_of(fault),
    }
}

// What is said of a fault.
fn words_of(fault: Fault) -> &'static [u8]
    ensures { result.now ≡ fault_words fault }
{
    match fault {
        Fault::Duplicate => b": duplicate name\n",
        Fault::Unknown => b": unknown name\n",
        Fault::Arity => b": wrong number of arguments\n",
        Fault::Sort => b": wrong sort\n",
        Fault::Pattern => b": no pattern\n",
        Fault::Size => b": too large\n",
    }
}

// Three parts, one after the other.
fn write_around<E: Sink>(
    notes: &mut E,
    before: &[u8],
    name: &[u8],
    after: &[u8],
) -> Result<(), SinkRefusal>
    ensures { Notes E.written E.refuses notes.old notes.new (before.now ++ (name.now ++ after.now)) }
{
    if let Err(refusal) = write_whole(notes, before) {
        return Err(refusal);
    }
    write_pair(notes, name, after)
}

// Two parts, one after the other.
fn write_pair<E: Sink>(notes: &mut E, name: &[u8], after: &[u8]) -> Result<(), SinkRefusal>
    ensures { Notes E.written E.refuses notes.old notes.new (name.now ++ after.now) }
{
    if let Err(refusal) = write_whole(notes, name) {
        return Err(refusal);
    }
    write_last(notes, after)
}

// The last part.
fn write_last<E: Sink>(notes: &mut E, after: &[u8]) -> Result<(), SinkRefusal>
    ensures { Notes E.written E.refuses notes.old notes.new after.now }
{
    write_whole(notes, after)
}
