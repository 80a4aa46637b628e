// Rows as lines.
ghost use Rattle.std.specs.Prelude.{◌≡◌, ◌∷◌, ◌++◌, [], false, map, OnOk, OnErr};
ghost use Rattle.std.specs.List.{list_any};
ghost use Rattle.sq_words.specs.Lists.{IsPrefixOf};
ghost use Rattle.sq_lines.specs.LineTexts.{doubled, field_text, line_of, more_fields, needs_quotes, row_of};
ghost use Rattle.sq_lines.specs.Rows.{breaks_quotes, shows_nothing};

use crate::quoting::Quoter;
use std::alloc::AllocError;

/// Whether a field stands in quotes: where it has a comma, a quote, CR or LF. Most bytes lie above a comma, and one test tells so.
fn needs_quotes(field: &[u8]) -> bool
    ensures { result ≡ list_any needs_quotes field.now }
{
    field.iter().any(|b| *b <= b',' && (*b == b',' || *b == b'"' || *b == b'\r' || *b == b'\n'))
}

/// Whether a field has a quote, CR or LF, and not a comma alone for which it would stand in quotes.
fn breaks_quotes(field: &[u8]) -> bool
    ensures { result ≡ list_any breaks_quotes field.now }
{
    field.iter().any(|b| *b <= b'"' && (*b == b'"' || *b == b'\r' || *b == b'\n'))
}

/// Puts a field that is the same between quotes at the end, in quotes.
fn append_between(field: &[u8], out: &mut Vec<u8>) -> Result<(), AllocError>
    requires { list_any breaks_quotes field.now ≡ false }
    ensures ok { OnOk result (out.new.items ≡ out.old.items ++ 34 ∷ (doubled field.now ++ 34 ∷ [])) }
    ensures kept { IsPrefixOf out.old.items out.new.items }
{
    out.push(b'"')?;
    out.extend_from_slice(field)?;
    out.push(b'"')?;
    Ok(())
}

/// Puts a field at the end, in quotes where it needs them. One that isn't the same between them is written by `csv`.
#[inline(always)]
pub(crate) fn append_field(
    field: &[u8],
    quoter: &mut Quoter,
    out: &mut Vec<u8>,
) -> Result<(), AllocError>
    ensures ok { OnOk result (out.new.items ≡ out.old.items ++ field_text field.now) }
    ensures kept { IsPrefixOf out.old.items out.new.items }
{
    if !needs_quotes(field) {
        return out.extend_from_slice(field);
    }
    if breaks_quotes(field) {
        return quoter.append(field, out);
    }
    append_between(field, out)
}

/// Whether the fields of a row have no byte, so that its line is a quoted empty field.
fn shows_nothing(fields: &[&[u8]]) -> bool
    ensures { result ≡ shows_nothing (map (λ f. f.now) fields.now) }
{
    match fields {
        [] => true,
        [field] => field.is_empty(),
        _ => false,
    }
}

fn append_more(fields: &[&[u8]], quoter: &mut Quoter, out: &mut Vec<u8>) -> Result<(), AllocError>
    ensures ok { OnOk result (out.new.items ≡ out.old.items ++ more_fields (map (λ f. f.now) fields.now)) }
    ensures kept { IsPrefixOf out.old.items out.new.items }
{
    for field in fields {
        out.push(b',')?;
        append_field(field, quoter, out)?;
    }
    Ok(())
}

fn append_row(fields: &[&[u8]], quoter: &mut Quoter, out: &mut Vec<u8>) -> Result<(), AllocError>
    ensures ok { OnOk result (out.new.items ≡ out.old.items ++ row_of (map (λ f. f.now) fields.now)) }
    ensures kept { IsPrefixOf out.old.items out.new.items }
{
    if shows_nothing(fields) {
        return out.extend_from_slice(b"\"\"");
    }
    let [first, more @ ..] = fields else {
        return Ok(());
    };
    append_field(first, quoter, out)?;
    append_more(more, quoter, out)
}

fn append_whole(fields: &[&[u8]], out: &mut Vec<u8>) -> Result<(), AllocError>
    ensures ok { OnOk result (out.new.items ≡ out.old.items ++ line_of (map (λ f. f.now) fields.now)) }
    ensures kept { IsPrefixOf out.old.items out.new.items }
{
    append_row(fields, &mut Quoter::new(), out)?;
    out.push(b'\n')?;
    Ok(())
}

/// Puts the line of a row at the end, with its line feed. A field with a comma, a quote, CR or LF stands in quotes, with
/// each quote twice, and a row that would show nothing is a quoted empty field (RFC 4180, Y. Shafranovich, 2005).
/// Where memory runs out nothing is written.
pub fn append_line(fields: &[&[u8]], out: &mut Vec<u8>) -> Result<(), AllocError>
    ensures ok { OnOk result (out.new.items ≡ out.old.items ++ line_of (map (λ f. f.now) fields.now)) }
    ensures err { OnErr result (out.new.items ≡ out.old.items) }
{
    let start = out.len();
    if let Err(e) = append_whole(fields, out) {
        out.truncate(start);
        return Err(e);
    }
    Ok(())
}
