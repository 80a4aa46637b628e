// Streams that come in pieces, wherever they are cut.
ghost use Rattle.std.specs.Prelude.{◌<◌};

use sq_intake::{Intake, IntakeErr, read_pieces};
use sq_lines::{Quoter, append_output_line};
use sq_replay::Why;
use sq_value::{Kind, Name, Schema, Tuple};
use std::alloc::{AllocError, Global};
use std::test::Fail;

/// A number `v` and a text `w`.
fn v_and_w(alloc: Global) -> Result<Schema, Fail> {
    let names = vec![in alloc; Name::new(alloc, "v")?, Name::new(alloc, "w")?]?;
    Ok(Schema::new(names, vec![in alloc; Kind::Int, Kind::Text]?)?)
}

/// A text as pieces of so many bytes.
fn cut(alloc: Global, text: &[u8], size: usize) -> Result<Vec<Vec<u8>>, AllocError>
    requires { 0 < size }
{
    let mut pieces = Vec::new(alloc);
    for piece in text.chunks(size) {
        pieces.push(Vec::from_slice(alloc, piece)?)?;
    }
    Ok(pieces)
}

fn lines_of(alloc: Global, tuples: &[Tuple]) -> Result<Vec<u8>, Fail> {
    let name = Name::new(alloc, "hi")?;
    let mut quoter = Quoter::new();
    let mut lines = Vec::new(alloc);
    for tuple in tuples {
        append_output_line(&name, tuple, &mut quoter, &mut lines)?;
    }
    Ok(lines)
}

/// Whether a text in such pieces comes to the tuples of these lines, and then to this bad line, if one is told.
fn comes_to(
    alloc: Global,
    text: &[u8],
    size: usize,
    lines: &[u8],
    bad: Option<(u64, Why)>,
) -> Result<bool, Fail>
    requires { 0 < size }
{
    let schema = v_and_w(alloc)?;
    let pieces = cut(alloc, text, size)?;
    let mut tuples = Vec::new(alloc);
    let told = match read_pieces(alloc, &schema, &pieces, &mut tuples) {
        Ok(()) => None,
        Err(IntakeErr::Bad { line, why }) => Some((line, why)),
        Err(_) => return Err(Fail::from("no bad line")),
    };
    let read = lines_of(alloc, &tuples)?;
    Ok(told == bad && read.as_slice() == lines)
}

/// Texts, the lines of their tuples and their first bad lines. A punctuation is no tuple.
const TEXTS: [(&[u8], &[u8], Option<(u64, Why)>); 15] = [
    (
        b"\xEF\xBB\xBF2,10,x\r\n\n3,-007,\"a,\"\"b\"\n3,,\xC3\xA9\r\r\n\"4\",,\"a\"b",
        b"hi,2,10,x\nhi,3,-7,\"a,\"\"b\"\nhi,3,,\xC3\xA9\nhi,4,,ab\n",
        None,
    ),
    (b"", b"", None),
    (b"\xEF\xBB\xBF", b"", None),
    (b"\n\n\r\n", b"", None),
    (b"1,2,a\n@9\n@3\r\n9,1,b\n", b"hi,1,2,a\nhi,9,1,b\n", None),
    (b"1,2,a\n@9", b"hi,1,2,a\n", None),
    (
        b"1,2,a\n\n5,,\n6,x,\xFF\n7,1,c\n",
        b"hi,1,2,a\nhi,5,,\n",
        Some((4, Why::Utf8)),
    ),
    (b"4,1,\n3,1,\n", b"hi,4,1,\n", Some((2, Why::Falls))),
    (b"@4\n3,1,\n", b"", Some((2, Why::Falls))),
    (
        b"4,1,\n\xEF\xBB\xBF5,1,\n",
        b"hi,4,1,\n",
        Some((2, Why::Cut)),
    ),
    (b"4,1\n", b"", Some((1, Why::Fields))),
    (b"x,1,\n", b"", Some((1, Why::Tick))),
    (b"1,x,\n", b"", Some((1, Why::NotInt))),
    (b"@12345678901234\n", b"", Some((1, Why::Fields))),
    (b"1,1,\n@", b"hi,1,1,\n", Some((2, Why::Fields))),
];

#[test]
fn texts_come_to_their_tuples_wherever_they_are_cut(rt: HostRuntime) -> Result<(), Fail> {
    for (text, lines, bad) in &TEXTS {
        for size in 1..40usize {
            assert!(rt; comes_to(rt.alloc(), text, size, lines, *bad)?);
        }
    }
    Ok(())
}

/// Reads a stream that comes in two pieces, and looks after each call at what it tells.
fn comes_in_two(alloc: Global) -> Result<bool, Fail> {
    let schema = v_and_w(alloc)?;
    let mut intake = Intake::new(alloc, &schema)?;
    let mut tuples = Vec::new(alloc);
    intake.give(b"1,2,a\n@9\n9,3,")?;
    let early = intake.read(1, &mut tuples)? || intake.ahead() != 1;
    if !intake.read(7, &mut tuples)? {
        return Ok(false);
    }
    let ahead = intake.ahead();
    intake.give(b"b\n8,1,c\n")?;
    let told = intake.read(7, &mut tuples).err();
    let falls = IntakeErr::Bad {
        line: 4,
        why: Why::Falls,
    };
    let read = lines_of(alloc, &tuples)?;
    let lines = b"hi,1,2,a\nhi,9,3,b\n".as_slice();
    Ok(!early && ahead == 9 && told == Some(falls) && read.as_slice() == lines)
}

#[test]
fn lines_are_read_as_they_come(rt: HostRuntime) -> Result<(), Fail> {
    assert!(rt; comes_in_two(rt.alloc())?);
    Ok(())
}
