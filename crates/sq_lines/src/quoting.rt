// Fields that stand in quotes, as the kit's `csv` writes them.
ghost use Rattle.std.specs.Prelude.{◌≡◌, ◌∷◌, ◌++◌, [], IfOk, OnOk, true};
ghost use Rattle.std.specs.List.{list_any};
ghost use Rattle.csv.specs.Writing.{writer_under};
ghost use Rattle.sq_words.specs.Lists.{IsPrefixOf};
ghost use Rattle.sq_lines.specs.LineTexts.{field_text, needs_quotes};
ghost use Rattle.sq_lines.specs.Writers.{IsBetweenRows};

use csv::{Writer, WriterBuilder};
use std::alloc::{AllocError, Global};

/// A writer that has written more is let go.
const KEPT: usize = 1 << 16;

/// A writer between two rows. It holds a buffer of 8 KiB, so it lies in memory of its own.
#[derive(Drop)]
struct Between {
    writer: Box<Writer<Vec<u8>>>,
    ghost between: { IsBetweenRows writer.value },
}

/// Writes fields in quotes by a writer of `csv` that is kept: to make one for each field would take longer than to write it.
#[derive(Drop)]
pub struct Quoter {
    kept: Option<Between>,
}

// A function pays at its start for the size of its locals, so a writer is made in one of its own.
#[cold]
#[inline(never)]
fn new_writer(alloc: Global) -> Result<Box<Writer<Vec<u8>>>, AllocError>
    ensures { IfOk result (λ w. IsBetweenRows w.value) }
{
    match Box::new(alloc, WriterBuilder::new().from_writer(Vec::new(alloc))) {
        Ok(writer) => Ok(writer),
        Err(_) => Err(AllocError),
    }
}

/// Writes a row of one field, which needs quotes, behind the others.
fn write_alone(writer: &mut Writer<Vec<u8>>, field: &[u8]) -> Result<(), AllocError>
    requires ready { IsBetweenRows writer.old }
    requires quoted { list_any needs_quotes field.now ≡ true }
    ensures ready { OnOk result (IsBetweenRows writer.new) }
    ensures text { OnOk result ((writer_under writer.new).items ≡ (writer_under writer.old).items ++ (field_text field.now ++ 10 ∷ [])) }
{
    let Ok(()) = writer.write_fields(&[field]) else {
        return Err(AllocError);
    };
    let Ok(()) = writer.flush() else {
        return Err(AllocError);
    };
    Ok(())
}

impl Quoter {
    /// One that holds no writer yet.
    pub fn new() -> Quoter {
        Quoter { kept: None }
    }

    // Takes the writer out: one that fails isn't put back.
    fn take(&mut self, alloc: Global) -> Result<Box<Writer<Vec<u8>>>, AllocError>
        ensures { IfOk result (λ w. IsBetweenRows w.value) }
    {
        let Some(between) = self.kept.take() else {
            return new_writer(alloc);
        };
        let writer = between.writer;
        if writer.get_ref().len() > KEPT {
            return new_writer(alloc);
        }
        Ok(writer)
    }

    /// Puts a field at the end that needs quotes.
    #[inline(never)]
    pub(crate) fn append(&mut self, field: &[u8], out: &mut Vec<u8>) -> Result<(), AllocError>
        requires { list_any needs_quotes field.now ≡ true }
        ensures ok { OnOk result (out.new.items ≡ out.old.items ++ field_text field.now) }
        ensures kept { IsPrefixOf out.old.items out.new.items }
    {
        let mut writer = self.take(*out.allocator())?;
        let start = writer.get_ref().len();
        write_alone(&mut writer, field)?;
        let text = writer.get_ref();
        out.extend_from_slice(&text[start..text.len() - 1])?;
        self.kept = Some(Between { writer });
        Ok(())
    }
}
