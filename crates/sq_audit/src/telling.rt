// The line of a verdict.
ghost use Rattle.std.specs.Prelude.{◌≡◌, ◌++◌, OnErr, OnOk};
ghost use Rattle.sq_audit.specs.VerdictLines.{verdict_line, audit_why_text};

use itoa::Buffer;
use sq_lines::append_line;
use sq_verdict::{AuditWhy, Verdict};
use std::alloc::AllocError;

fn audit_why_text(why: AuditWhy) -> &'static [u8]
    ensures { result.now ≡ audit_why_text why }
{
    match why {
        AuditWhy::End => b"end",
        AuditWhy::Form => b"form",
        AuditWhy::Drop => b"drop",
        AuditWhy::Line => b"line",
        AuditWhy::Short => b"short",
    }
}

/// Appends the line of a verdict: `yes`, or `no`, the number of a line and why. After want of memory nothing is appended.
pub fn append_verdict_line(verdict: Verdict, out: &mut Vec<u8>) -> Result<(), AllocError>
    ensures ok { OnOk result (out.new.items ≡ out.old.items ++ verdict_line verdict) }
    ensures err { OnErr result (out.new.items ≡ out.old.items) }
{
    match verdict {
        Verdict::Yes => append_line(&[b"yes"], out),
        Verdict::No { line, why } => {
            let mut digits = Buffer::new();
            let number = digits.format(line);
            append_line(&[b"no", number.as_bytes(), audit_why_text(why)], out)
        }
    }
}
