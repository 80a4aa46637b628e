// The lines of the stream.
ghost use Rattle.std.specs.Prelude.{◌≡◌, ◌≤◌, ◌<◌, ◌∷◌, ◌++◌, [], IfOk, OnOk, codes};
ghost use Rattle.std.specs.Fmt.{decimal};
ghost use Rattle.sq_gen.specs.Files.{stream_text, trade_line, two_digits};

use itoa::Buffer;
use rand_core::utils::NextWord;
use rand_pcg::Lcg64Xsh32;
use std::alloc::{AllocError, Global};

/// Which stream of the generator the words are of: no drop and no policy has it.
const STREAM: u64 = 1_000_001;

/// How many bytes a line has at most.
const LINE: usize = 23;

/// The lines of a number's stream.
pub(crate) fn stream_text(alloc: Global, number: u64, rows: u32) -> Result<Vec<u8>, AllocError>
    requires { rows ≤ 1000000 }
    ensures { IfOk result (λ text. text.items ≡ stream_text number rows) }
{
    let mut words = Lcg64Xsh32::new(number, STREAM);
    let mut text = Vec::with_capacity(alloc, LINE * rows as usize)?;
    for i in 0..rows {
        let first = words.next_word();
        let second = words.next_word();
        push_line(i, first, second, &mut text)?;
    }
    Ok(text)
}

/// Puts line `i` of these two words at the end.
fn push_line(i: u32, first: u32, second: u32, text: &mut Vec<u8>) -> Result<(), AllocError>
    ensures { OnOk result (text.new.items ≡ text.old.items ++ trade_line i first second) }
{
    push_number(i, b',', text)?;
    push_number(i.saturating_sub(first % 8), b',', text)?;
    push_symbol(first / 8 % 20, text)?;
    push_number(1000 + second % 100, b'\n', text)
}

fn push_number(n: u32, end: u8, text: &mut Vec<u8>) -> Result<(), AllocError>
    ensures { OnOk result (text.new.items ≡ text.old.items ++ (decimal n ++ end ∷ [])) }
{
    let mut digits = Buffer::new();
    text.extend_from_slice(digits.format(n).as_bytes())?;
    text.push(end)?;
    Ok(())
}

/// Puts the name of symbol `n` at the end, and a comma.
fn push_symbol(n: u32, text: &mut Vec<u8>) -> Result<(), AllocError>
    requires { n < 100 }
    ensures { OnOk result (text.new.items ≡ text.old.items ++ (codes "S" ++ two_digits n ++ codes ",")) }
{
    text.extend_from_slice(&[b'S', b'0' + (n / 10) as u8, b'0' + (n % 10) as u8, b','])
}
