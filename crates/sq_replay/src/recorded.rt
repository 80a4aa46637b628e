// The tuples that a source recorded, one after another.
ghost use Rattle.std.specs.Prelude.{◌≡◌, ◌+◌, ◌<◌, ◌∷◌, ◌^◌, [], IfErr, IfOk, MatchOption, OnErr, Ok, length};
ghost use Rattle.sq_replay.specs.Answers.{IsBadStream};
ghost use Rattle.sq_replay.specs.RecordedTuples.{first_recorded};
ghost use Rattle.sq_replay.specs.Streams.{stream_in};

use crate::StreamErr;
use crate::stream::test_lines;
use crate::unread::{Unread, all_left, begun, take_next};
use sq_value::{Schema, Tuple, Value};
use std::alloc::{AllocError, Global};
use std::collections::VecDeque;
use std::marker::Model;

/// The tuples that a source recorded, one after another: of a text that breaks no rule, whose lines are read when their
/// tuples are near, or of a list. Contracts see the list of those that are to come.
#[derive(Drop)]
pub struct Stream {
    next: Option<Tuple>,
    listed: VecDeque<Tuple>,
    unread: Unread,
}

impl Model for Stream {
    ghost use Rattle.sq_replay.specs.RecordedTuples.{Recorded};

    ghost Value = { Recorded };

    ghost use Rattle.sq_replay.specs.RestOfText.{all_to_come};

    ghost view = { λ a. record { items = all_to_come a.next a.listed.items a.unread } };
}

impl Stream {
    /// The tuples of a list.
    pub fn listed(alloc: Global, tuples: Vec<Tuple>) -> Stream
        ensures { result ≡ record { items = tuples.items } }
    {
        let mut listed = VecDeque::from_vec(tuples);
        let next = listed.pop_front();
        Stream {
            next,
            listed,
            unread: Unread::none(alloc),
        }
    }

    /// The tuples of a stream file, or its first bad line, by the rules of `read_stream`. Each line is tested now, and read
    /// again when its tuple is near.
    pub fn new(alloc: Global, bytes: Vec<u8>, schema: &Schema) -> Result<Stream, StreamErr>
        requires { length bytes.items + 1 < 2 ^ 32 }
        ensures tuples { IfOk result (λ s. stream_in schema.now bytes.items ≡ Ok s.items) }
        ensures bad { IfErr result (λ e. IsBadStream e (stream_in schema.now bytes.items)) }
    {
        test_lines(alloc, &bytes, schema)?;
        match begun(alloc, bytes, schema.kinds()) {
            Ok((next, unread)) => Ok(Stream {
                next,
                listed: VecDeque::new(alloc),
                unread,
            }),
            Err(_) => Err(StreamErr::Memory),
        }
    }

    /// The time of the next tuple, where there is one.
    pub fn time(&self) -> Option<u64>
        ensures { result ≡ first_recorded self.now.items }
    {
        match &self.next {
            Some(tuple) => Some(tuple.time),
            None => None,
        }
    }

    /// Takes the next tuple, where there is one. Where memory runs out nothing is taken.
    pub fn take(&mut self) -> Result<Option<Tuple>, AllocError>
        ensures taken { IfOk result (λ o. MatchOption o ((self.old.items ≡ []) × (self.new ≡ self.old)) (λ t. self.old.items ≡ t ∷ self.new.items)) }
        ensures err { OnErr result (self.new ≡ self.old) }
    {
        let values = Vec::new(*self.listed.allocator());
        self.take_into(values)
    }

    /// The same; the values of the tuple that is read ahead may go into `values`, an empty vector, to save a request for memory.
    #[inline(always)]
    pub fn take_into(&mut self, values: Vec<Value>) -> Result<Option<Tuple>, AllocError>
        requires empty { values.items ≡ [] }
        ensures taken { IfOk result (λ o. MatchOption o ((self.old.items ≡ []) × (self.new ≡ self.old)) (λ t. self.old.items ≡ t ∷ self.new.items)) }
        ensures err { OnErr result (self.new ≡ self.old) }
    {
        take_next(&mut self.next, &mut self.listed, &mut self.unread, values)
    }

    /// All tuples that are left, as a list.
    pub fn into_tuples(self, alloc: Global) -> Result<Vec<Tuple>, AllocError>
        ensures { IfOk result (λ v. v.items ≡ self.items) }
    {
        let Stream {
            next,
            listed,
            unread,
        } = self;
        all_left(alloc, next, listed, unread)
    }
}
