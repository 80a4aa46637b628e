// A stream that comes in pieces, read to its end.
ghost use Rattle.std.specs.Prelude.{◌≡◌, [], List, ℕ, IfErr, None, OnOk};
ghost use Rattle.std.specs.List.{flat_map};
ghost use Rattle.sq_csv.specs.Cuts.{Lacks};
ghost use Rattle.sq_lines.specs.Classes.{last_piece};
ghost use Rattle.sq_replay.specs.FileLines.{pieces_of};
ghost use Rattle.sq_intake.specs.Incoming.{MovesBy, told, told_behind, told_in};
ghost use Rattle.sq_intake.specs.Intakes.{IsHaltedBy, IsToldUpTo};

use crate::{Intake, IntakeErr};
use sq_value::{Schema, Tuple};
use std::alloc::Global;

/// So many tuples are made before the first of them is taken.
const BATCH: usize = 7;

/// Puts the tuples of all whole lines behind others.
fn read_all(intake: &mut Intake, tuples: &mut Vec<Tuple>) -> Result<(), IntakeErr>
    ensures moves { OnOk result (MovesBy intake.old intake.new [] tuples.old.items tuples.new.items) }
    ensures rest { OnOk result (intake.new.text ≡ last_piece (pieces_of intake.old.text)) }
    ensures lacks { OnOk result (Lacks 10 intake.new.text) }
    ensures halts { IfErr result (λ e. IsHaltedBy e intake.old tuples.old.items tuples.new.items) }
{
    let mut all = false;
    'batches: while !all {
        let most = tuples.len() + BATCH;
        match intake.read(most, tuples) {
            Ok(none_left) => all = none_left,
            Err(e) => return Err(e),
        }
    }
    Ok(())
}

/// Puts the tuples of a stream that comes in these pieces, up to its first bad line, behind others: whatever the cuts, they are
/// those of the text that the pieces are together.
pub fn read_pieces(
    alloc: Global,
    schema: &Schema,
    pieces: &[Vec<u8>],
    tuples: &mut Vec<Tuple>,
) -> Result<(), IntakeErr>
    ensures told { OnOk result (told_behind tuples.old.items (told_in schema.now (flat_map (λ piece. piece.items) pieces.now)) ≡ told tuples.new.items None) }
    ensures bad { IfErr result (λ e. IsToldUpTo e (told_behind tuples.old.items (told_in schema.now (flat_map (λ piece. piece.items) pieces.now))) tuples.new.items) }
{
    let Ok(mut intake) = Intake::new(alloc, schema) else {
        return Err(IntakeErr::Memory);
    };
    for piece in pieces {
        match intake.give(piece) {
            Ok(()) => {}
            Err(e) => return Err(e),
        }
        match read_all(&mut intake, tuples) {
            Ok(()) => {}
            Err(e) => return Err(e),
        }
    }
    match intake.give(b"\n") {
        Ok(()) => read_all(&mut intake, tuples),
        Err(e) => Err(e),
    }
}
