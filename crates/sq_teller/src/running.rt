// What is asked about a network, answered over a folder and a sink.
ghost use Rattle.std.specs.Prelude.{◌≡◌, ◌≢◌, ◌≤◌, ℕ, List, IfErr, IfOk, OnErr, OnOk};
ghost use Rattle.sq_net.specs.declared.NetErr.TheVariants as net;
ghost use Rattle.sq_teller.specs.Ends.{EndsAsked, IsReadAs, IsUnreadAs, WritesText, around};
ghost use Rattle.sq_teller.specs.Replies.{IsRefused, Reply, Says, lost_status};

use crate::Ending;
use sq_outside::{Failed, Folder, FolderErr, Sink, write_all};
use sq_value::{Name, copy_name};
use std::alloc::Global;

/// How many bytes a network file may have.
const NETWORK_LIMIT: u64 = 1_048_576;

/// What is asked about a network.
pub trait Inquiry {
    /// The name of the network's file.
    ghost file: { Self → List ℕ };

    /// What is answered where these are its bytes.
    ghost reply: { Self → List ℕ → Reply };

    /// Whether it can be answered.
    ghost can_answer: { Self → Type 0 };

    /// The name of the network's file.
    fn file(&self) -> &Name
        ensures { result.now ≡ file self.now };

    /// A text, and whether an output is lost; or why there is none.
    fn answer(&self, alloc: Global, bytes: &[u8]) -> Result<(Vec<u8>, bool), Ending>
        requires { can_answer self.now }
        ensures says { IfOk result (λ r. reply self.now bytes.now ≡ Says r.0.items r.1) }
        ensures refused { IfErr result (λ s. IsRefused (reply self.now bytes.now) s) }
        ensures no_memory { IfErr result (λ s. s ≢ Ending.BadNetwork net.Memory) };
}

// The bytes of the network file, or the status of a call that doesn't get them.
fn read_file<F: Folder>(alloc: Global, folder: &mut F, name: &Name) -> Result<Vec<u8>, Ending>
    ensures read { IfOk result (λ bytes. IsReadAs (F.files folder.old) (F.read folder.old) (F.read folder.new) name.now bytes.items) }
    ensures unread { IfErr result (λ s. IsUnreadAs (F.files folder.old) (F.faults folder.old) (F.faults folder.new) (F.taken folder.old) (F.taken folder.new) name.now s) }
    ensures no_fault { OnOk result (F.faults folder.new ≡ F.faults folder.old) }
    ensures refuses { OnErr result (F.read folder.new ≡ F.read folder.old) }
    ensures no_memory { IfErr result (λ s. s ≢ Ending.BadNetwork net.Memory) }
    ensures files { F.files folder.new ≡ F.files folder.old }
    ensures later { (F.faults folder.old ≤ F.faults folder.new) × (F.taken folder.old ≤ F.taken folder.new) }
{
    match folder.read_whole(alloc, name.as_str(), NETWORK_LIMIT) {
        Ok(bytes) => Ok(bytes),
        Err(FolderErr::Memory) => Err(Ending::Memory),
        Err(FolderErr::Failed) => match copy_name(name) {
            Ok(name) => Err(Ending::FolderFault { name }),
            Err(_) => Err(Ending::Memory),
        },
        Err(FolderErr::TooLong) => match copy_name(name) {
            Ok(name) => Err(Ending::TooLong { name }),
            Err(_) => Err(Ending::Memory),
        },
    }
}

// The status of a text.
fn lost_status(lost: bool) -> Ending
    ensures { result ≡ lost_status lost }
{
    if lost { Ending::Lost } else { Ending::Ok }
}

// Writes the text: all of it at once, when it is whole.
fn write_text<S: Sink>(text: &[u8], lost: bool, out: &mut S) -> Ending
    ensures ends { WritesText text.now lost (S.written out.old) (S.written out.new) (S.faults out.old) (S.faults out.new) result }
    ensures no_memory { result ≢ Ending.BadNetwork net.Memory }
    ensures later { S.faults out.old ≤ S.faults out.new }
{
    match write_all(out, text) {
        Ok(()) => lost_status(lost),
        Err(Failed) => Ending::SinkFault,
    }
}

/// Reads the file that is asked for, writes what is answered by its bytes, and says how that ended.
pub fn answered<Q: Inquiry, F: Folder, S: Sink>(
    alloc: Global,
    asked: &Q,
    folder: &mut F,
    out: &mut S,
) -> Ending
    requires { Q.can_answer asked.now }
    ensures ends { EndsAsked (Q.file asked.now) (Q.reply asked.now) (around F.Folder folder.old folder.new S.Sink out.old out.new) result }
    ensures no_memory { result ≢ Ending.BadNetwork net.Memory }
    ensures files { F.files folder.new ≡ F.files folder.old }
    ensures later { (F.faults folder.old ≤ F.faults folder.new) × (F.taken folder.old ≤ F.taken folder.new) × (S.faults out.old ≤ S.faults out.new) }
{
    let bytes = match read_file(alloc, folder, asked.file()) {
        Ok(bytes) => bytes,
        Err(status) => return status,
    };
    match asked.answer(alloc, bytes.as_slice()) {
        Ok((text, lost)) => write_text(text.as_slice(), lost, out),
        Err(status) => status,
    }
}
