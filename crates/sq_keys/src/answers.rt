// What is answered to words, by the bytes of the network file.
ghost use Rattle.std.specs.Prelude.{◌≡◌, ◌≢◌, ◌<◌, ◌^◌, Ok, IfErr, IfOk, length};
ghost use Rattle.sq_net.specs.declared.NetErr.TheVariants as net;
ghost use Rattle.sq_net.specs.SoundNetworks.{IsSound};
ghost use Rattle.sq_teller.specs.Replies.{IsRefused, Says};
ghost use Rattle.sq_keys.specs.Answers.{by_network, reply_of};

use crate::keys::cuts_asked;
use crate::lines::keys_text;
use crate::{KeysAsked, KeysErr};
use sq_net::{NetErr, Network};
use sq_reader::read_network;
use sq_teller::{Ending, Inquiry};
use sq_value::Name;
use std::alloc::Global;

// What is answered where this is the network.
fn answer_for(alloc: Global, asked: &KeysAsked, n: &Network) -> Result<(Vec<u8>, bool), Ending>
    requires sound { IsSound n.now }
    requires few { length asked.now.pairs < 2 ^ 32 }
    ensures says { IfOk result (λ r. by_network asked.now (Ok n.now) ≡ Says r.0.items r.1) }
    ensures refused { IfErr result (λ s. IsRefused (by_network asked.now (Ok n.now)) s) }
    ensures no_memory { IfErr result (λ s. s ≢ Ending.BadNetwork net.Memory) }
{
    let by = match cuts_asked(alloc, n.sources.as_slice(), asked.pairs.as_slice()) {
        Ok(by) => by,
        Err(KeysErr::Bad { key, why }) => return Err(Ending::BadKey { key, why }),
        Err(KeysErr::Memory) => return Err(Ending::Memory),
    };
    match keys_text(alloc, n, &by, asked.on_time) {
        Ok(said) => Ok(said),
        Err(_) => Err(Ending::Memory),
    }
}

impl Inquiry for KeysAsked {
    ghost file = { λ a. a.net };

    ghost reply = { reply_of };

    ghost can_answer = { λ a. length a.pairs < 2 ^ 32 };

    fn file(&self) -> &Name {
        &self.net
    }

    fn answer(&self, alloc: Global, bytes: &[u8]) -> Result<(Vec<u8>, bool), Ending> {
        match read_network(alloc, bytes) {
            Ok(n) => answer_for(alloc, self, &n),
            Err(NetErr::Memory) => Err(Ending::Memory),
            Err(e) => Err(Ending::BadNetwork(e)),
        }
    }
}
