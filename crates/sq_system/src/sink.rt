// A sink of the system.
use sq_outside::{Failed, Pieces, Sink};
use std::io::Write;

/// A sink over a writer, each call of which is a call of the writer.
#[derive(Drop)]
pub struct Out<W> {
    writer: W,
    pub taken: Pieces,
    pub faults: u64,
}

impl<W> Out<W> {
    ghost use Rattle.std.specs.Prelude.{◌≡◌, []};

    /// A sink without faults, to which nothing was written.
    pub fn new(writer: W) -> Out<W>
        ensures { result.taken.all ≡ [] }
    {
        Out {
            writer,
            taken: Pieces::new(),
            faults: 0,
        }
    }
}

impl<W: Write + Drop> Sink for Out<W> {
    ghost use Rattle.std.specs.Prelude.{◌≡◌, ◌<◌, ◌≤◌, ◌++◌, ◌∷◌, [], Some, length, take, IfOk, OnErr};
    ghost use Rattle.std.specs.List.{flat_map};
    ghost use Rattle.std.specs.Io.KnownBytes.{WriteAppends};
    ghost use Rattle.sq_outside.specs.Faults.{Rose};

    ghost written = { λ s. Some (flat_map (λ piece. piece) s.taken.all) };

    ghost faults = { λ s. s.faults };

    /// Takes one or more bytes of the front of a piece, and says how many: the very bytes that the writer took.
    fn write(&mut self, piece: &[u8]) -> Result<usize, Failed>
        requires { 0 < length piece.now }
        ensures reaches { WriteAppends (W.contents self.old.writer) (W.contents self.new.writer) result piece.now }

        // What it tells is what it said.
        ensures count { IfOk result (λ n. (1 ≤ n) × (n ≤ length piece.now)) }
        ensures ok { IfOk result (λ n. self.new.taken.all ≡ self.old.taken.all ++ take n piece.now ∷ []) }
        ensures err { OnErr result (self.new.taken.all ≡ self.old.taken.all) }
        ensures failed { OnErr result (Rose self.old.faults self.new.faults) }
        ensures faults { self.old.faults ≤ self.new.faults }
    {
        match self.writer.write(piece) {
            Ok(count) if count > 0 => {
                self.taken.note(&piece[..count]);
                Ok(count)
            }
            _ => {
                self.faults = self.faults.saturating_add(1);
                Err(Failed)
            }
        }
    }
}
