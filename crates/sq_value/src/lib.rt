//! Values, tuples and schemas.
//!
//! Its contracts promise that values are totally ordered, that reading and writing are one rule of text, and that a copy is equal to what
//! it was made of. Below stand the words on lists.
#![tactic(auto)]

ghost use Rattle.std.specs.Prelude.{◌≡◌, ◌↔◌, ◌<◌, ◌≤◌, [], Err, None, Some, IfOk, MatchResult, length, IsUtf8};
ghost use Rattle.std.specs.List.{zip};
ghost use Rattle.sq_value.specs.Schemas.{schema_error, AreColumns};
ghost use Rattle.sq_value.specs.TextBytes.{bytes_of};
ghost use Rattle.sq_value.specs.Values.{kinds_of, names_of};

mod copies;
mod laws;
mod numbers;
mod order;
mod short;
mod streams;
mod written;

pub use copies::{copy_fields, copy_name, copy_schema, copy_tuple, copy_txt, copy_value};
pub use laws::{values_are_ordered, values_are_read_back};
pub use numbers::{read_digits, read_short_number};
pub use order::{all_differ, compare, compare_bytes, fits, same_bytes, same_text};
use short::{Few, ROOM};
use std::alloc::{AllocError, Global};
use std::marker::Model;
pub use streams::stream_in;
pub use written::{ValueErr, negative, positive, read_int, read_value, write_value};

/// A list that a public struct holds. Contracts see it as the list of its items.
#[derive(Drop)]
pub struct ListOf<T> {
    items: Vec<T>,
}

impl<T> Model for ListOf<T> {
    ghost use Rattle.std.specs.Prelude.{List};

    ghost Value = { List T };

    ghost view = { λ a. a.items.items };
}

impl<T> ListOf<T> {
    /// The items of a vector. It takes no memory.
    pub fn new(items: Vec<T>) -> Self
        ensures { result ≡ items.items }
    {
        ListOf { items }
    }

    /// All items, in order.
    pub fn as_slice(&self) -> &[T]
        ensures { result.now ≡ self.now }
    {
        &self.items
    }

    /// The vector back. It takes no memory.
    pub fn into_vec(self) -> Vec<T>
        ensures { result.items ≡ self }
    {
        self.items
    }
}

/// The name of a source, a box, an output, a field or a file. Contracts see its bytes.
#[derive(Drop)]
pub struct Name {
    text: String,
}

impl Model for Name {
    ghost use Rattle.std.specs.Prelude.{List, ℕ};
    ghost use Rattle.std.specs.String.{string_bytes};

    ghost Value = { List ℕ };

    ghost view = { λ a. string_bytes a.text };
}

impl Name {
    /// A copy of the text.
    pub fn new(alloc: Global, text: &str) -> Result<Name, AllocError>
        ensures { IfOk result (λ n. n ≡ text.now) }
    {
        let text = String::from_str(alloc, text)?;
        Ok(Name { text })
    }

    /// The text.
    pub fn as_str(&self) -> &str
        ensures { result.now ≡ self.now }
    {
        self.text.as_str()
    }
}

/// Where the bytes of a text lie: short ones in the value itself.
#[derive(Drop)]
enum Bytes {
    Few(Few),
    Many(Box<String>),
}

impl Bytes {
    /// A copy of a text.
    #[inline(always)]
    fn new(alloc: Global, text: &str) -> Result<Bytes, AllocError>
        ensures { IfOk result (λ b. bytes_of b ≡ text.now) }
    {
        if text.len() <= ROOM {
            return Ok(Bytes::Few(Few::new(text)));
        }
        let text = String::from_str(alloc, text)?;
        Ok(Bytes::Many(Box::new(alloc, text)?))
    }

    #[inline]
    fn as_str(&self) -> &str
        ensures { result.now ≡ bytes_of self.now }
    {
        match self {
            Bytes::Few(few) => few.as_str(),
            Bytes::Many(text) => text.as_str(),
        }
    }

    #[inline]
    fn copy(&self) -> Result<Bytes, AllocError>
        ensures { IfOk result (λ b. bytes_of b ≡ bytes_of self.now) }
    {
        match self {
            Bytes::Few(few) => Ok(Bytes::Few(few.copy())),
            Bytes::Many(text) => {
                let text = text.clone()?;
                Ok(Bytes::Many(text))
            }
        }
    }
}

/// A text value: 1 to 255 bytes of UTF-8. Contracts see its bytes.
pub struct Txt {
    bytes: Bytes,
}

/// By hand, so that a proof above meets one call where a text is let go, and not a case for each place where it may lie.
impl Drop for Txt {
    fn drop(self) {
        let Txt { bytes: _bytes } = self;
    }
}

impl Model for Txt {
    ghost use Rattle.std.specs.Prelude.{List, ℕ, length, ◌≤◌};
    ghost use Rattle.sq_value.specs.TextBytes.{bytes_of};

    ghost Value = { List ℕ };

    ghost view = { λ a. bytes_of a.bytes };

    ghost invariant = { λ a. (1 ≤ length (bytes_of a.bytes)) × (length (bytes_of a.bytes) ≤ 255) };
}

/// Why a text is no text value.
#[derive(Clone, Copy, PartialEq, Eq, Drop)]
pub enum TxtErr {
    /// It has no byte.
    Empty,
    /// It has more than 255 bytes.
    Long,
    Memory,
}

impl Txt {
    /// A copy of the text, of which there must be 1 to 255 bytes.
    #[inline(always)]
    pub fn new(alloc: Global, text: &str) -> Result<Txt, TxtErr>
        ensures value { IfOk result (λ t. t ≡ text.now) }
        ensures empty { (result ≡ Err TxtErr.Empty) ↔ (text.now ≡ []) }
        ensures long { (result ≡ Err TxtErr.Long) ↔ (255 < length text.now) }
    {
        if text.is_empty() {
            return Err(TxtErr::Empty);
        }
        if text.len() > 255 {
            return Err(TxtErr::Long);
        }
        match Bytes::new(alloc, text) {
            Ok(bytes) => Ok(Txt { bytes }),
            Err(_) => Err(TxtErr::Memory),
        }
    }

    /// The text.
    #[inline]
    pub fn as_str(&self) -> &str
        ensures { result.now ≡ self.now }
    {
        self.bytes.as_str()
    }

    /// The bytes of the text: 1 to 255, of UTF-8.
    #[inline]
    pub fn as_bytes(&self) -> &[u8]
        ensures value { result.now ≡ self.now }
        ensures some { 1 ≤ length self.now }
        ensures few { length self.now ≤ 255 }
        ensures utf8 { IsUtf8 self.now }
    {
        self.bytes.as_str().as_bytes()
    }

    /// A copy, which takes no memory where the text is short.
    #[inline]
    pub(crate) fn copy(&self) -> Result<Txt, AllocError>
        ensures { IfOk result (λ copy. copy ≡ self.now) }
    {
        let bytes = self.bytes.copy()?;
        Ok(Txt { bytes })
    }
}

/// The kind of a field.
#[derive(Clone, Copy, Debug, PartialEq, Eq, Drop)]
pub enum Kind {
    Int,
    Bool,
    Text,
}

/// A value of a field. Null is of every kind.
#[derive(Drop)]
pub enum Value {
    Null,
    Int(i64),
    Bool(bool),
    Text(Txt),
}

/// The values of a tuple.
pub type Fields = ListOf<Value>;

/// A tuple: its time, a tick, and its values.
#[derive(Drop)]
pub struct Tuple {
    pub time: u64,
    pub fields: Fields,
}

/// 1 to 16 columns: a name and a kind each, all names different. Contracts see the list of these pairs.
#[derive(Drop)]
pub struct Schema {
    names: Vec<Name>,
    kinds: Vec<Kind>,
}

impl Model for Schema {
    ghost use Rattle.std.specs.Prelude.{List, ℕ, length, true, ◌≡◌, ◌≤◌};
    ghost use Rattle.std.specs.List.{zip};
    ghost use Rattle.sq_words.specs.Lists.{are_distinct};
    ghost use Rattle.sq_value.specs.declared.Kind.{Kind};

    ghost Value = { List (List ℕ × Kind) };

    ghost view = { λ a. zip a.names.items a.kinds.items };

    ghost invariant = { λ a. (length a.names.items ≡ length a.kinds.items) × (1 ≤ length a.names.items)
        × (length a.names.items ≤ 16) × (are_distinct a.names.items ≡ true) };
}

/// Why names and kinds are no schema.
#[derive(Clone, Copy, Debug, PartialEq, Eq, Drop)]
pub enum SchemaErr {
    /// There are more of the one than of the other.
    Uneven,
    /// There are none or more than 16.
    Count,
    /// A name stands twice.
    Twice,
}

impl Schema {
    /// The schema of these names and kinds. It takes no memory.
    pub fn new(names: Vec<Name>, kinds: Vec<Kind>) -> Result<Schema, SchemaErr>
        ensures schema { IfOk result (λ s. s ≡ zip names.items kinds.items) }
        ensures exact { MatchResult result (λ _. schema_error names.items kinds.items ≡ None)
            (λ e. schema_error names.items kinds.items ≡ Some e) }
    {
        if names.len() != kinds.len() {
            return Err(SchemaErr::Uneven);
        }
        if names.is_empty() || names.len() > 16 {
            return Err(SchemaErr::Count);
        }
        if !order::all_differ(&names) {
            return Err(SchemaErr::Twice);
        }
        Ok(Schema { names, kinds })
    }

    /// The names, in order: 1 to 16, all different.
    pub fn names(&self) -> &[Name]
        ensures value { result.now ≡ names_of self.now }
        ensures columns { AreColumns self.now }
    {
        &self.names
    }

    /// The kinds, in order.
    pub fn kinds(&self) -> &[Kind]
        ensures { result.now ≡ kinds_of self.now }
    {
        &self.kinds
    }
}
