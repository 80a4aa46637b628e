// The lines that a run writes.
ghost use Rattle.std.specs.Prelude.{◌≡◌, ◌++◌, ◌∷◌, map, OnOk, OnErr};
ghost use Rattle.std.specs.Fmt.{decimal};
ghost use Rattle.sq_words.specs.Lists.{IsPrefixOf};
ghost use Rattle.sq_lines.specs.LineTexts.{box_line, end_line, field_text, late_line, line_of, more_fields, output_line};
ghost use Rattle.sq_value.specs.Texts.{text_of};

use crate::quoting::Quoter;
use crate::written::{append_field, append_line};
use itoa::Buffer;
use sq_value::{Name, Tuple, Value};
use std::alloc::AllocError;

/// Puts a number at the end, which never needs quotes.
#[tactic(auto, using(crate::proofs::NumberLemmas::decimal_bare))]
fn append_number(number: u64, out: &mut Vec<u8>) -> Result<(), AllocError>
    ensures ok { OnOk result (out.new.items ≡ out.old.items ++ field_text (decimal number)) }
    ensures kept { IsPrefixOf out.old.items out.new.items }
{
    let mut digits = Buffer::new();
    out.extend_from_slice(digits.format(number).as_bytes())
}

/// Puts the text of a value at the end, in quotes where it needs them.
#[tactic(auto, using(crate::proofs::NumberLemmas::signed_bare))]
fn append_value(value: &Value, quoter: &mut Quoter, out: &mut Vec<u8>) -> Result<(), AllocError>
    ensures ok { OnOk result (out.new.items ≡ out.old.items ++ field_text (text_of value.now)) }
    ensures kept { IsPrefixOf out.old.items out.new.items }
{
    match value {
        Value::Null => Ok(()),
        Value::Int(x) => {
            let mut digits = Buffer::new();
            out.extend_from_slice(digits.format(*x).as_bytes())
        }
        Value::Bool(true) => out.extend_from_slice(b"true"),
        Value::Bool(false) => out.extend_from_slice(b"false"),
        Value::Text(t) => append_field(t.as_str().as_bytes(), quoter, out),
    }
}

fn append_values(values: &[Value], quoter: &mut Quoter, out: &mut Vec<u8>) -> Result<(), AllocError>
    ensures ok { OnOk result (out.new.items ≡ out.old.items ++ more_fields (map text_of values.now)) }
    ensures kept { IsPrefixOf out.old.items out.new.items }
{
    for value in values {
        out.push(b',')?;
        append_value(value, quoter, out)?;
    }
    Ok(())
}

fn append_tuple(
    name: &Name,
    time: u64,
    values: &[Value],
    quoter: &mut Quoter,
    out: &mut Vec<u8>,
) -> Result<(), AllocError>
    ensures ok { OnOk result (out.new.items ≡ out.old.items ++ line_of (name.now ∷ decimal time ∷ map text_of values.now)) }
    ensures kept { IsPrefixOf out.old.items out.new.items }
{
    append_field(name.as_str().as_bytes(), quoter, out)?;
    out.push(b',')?;
    append_number(time, out)?;
    append_values(values, quoter, out)?;
    out.push(b'\n')?;
    Ok(())
}

/// Puts the line of an output's tuple at the end: its name, the time and the values, Null as nothing.
/// Where memory runs out nothing is written.
pub fn append_output_line(
    name: &Name,
    t: &Tuple,
    quoter: &mut Quoter,
    out: &mut Vec<u8>,
) -> Result<(), AllocError>
    ensures ok { OnOk result (out.new.items ≡ out.old.items ++ output_line name.now t.now) }
    ensures err { OnErr result (out.new.items ≡ out.old.items) }
{
    let start = out.len();
    if let Err(e) = append_tuple(name, t.time, t.fields.as_slice(), quoter, out) {
        out.truncate(start);
        return Err(e);
    }
    Ok(())
}

/// Puts the line of a box at the end: its name, and the number of tuples that were fed to it.
/// Where memory runs out nothing is written.
pub fn append_box_line(name: &Name, fed: u64, out: &mut Vec<u8>) -> Result<(), AllocError>
    ensures ok { OnOk result (out.new.items ≡ out.old.items ++ box_line name.now fed) }
    ensures err { OnErr result (out.new.items ≡ out.old.items) }
{
    let mut digits = Buffer::new();
    let number = digits.format(fed);
    append_line(&[b"@box", name.as_str().as_bytes(), number.as_bytes()], out)
}

/// Puts the line of a sorting box at the end: its name, and the number of tuples that came too late for its order.
/// Where memory runs out nothing is written.
pub fn append_late_line(name: &Name, late: u64, out: &mut Vec<u8>) -> Result<(), AllocError>
    ensures ok { OnOk result (out.new.items ≡ out.old.items ++ late_line name.now late) }
    ensures err { OnErr result (out.new.items ≡ out.old.items) }
{
    let mut digits = Buffer::new();
    let number = digits.format(late);
    append_line(
        &[b"@late", name.as_str().as_bytes(), number.as_bytes()],
        out,
    )
}

/// Puts the line that ends a text at the end. Where memory runs out nothing is written.
pub fn append_end_line(out: &mut Vec<u8>) -> Result<(), AllocError>
    ensures ok { OnOk result (out.new.items ≡ out.old.items ++ end_line) }
    ensures err { OnErr result (out.new.items ≡ out.old.items) }
{
    append_line(&[b"@end"], out)
}
