// What is answered to words, by the bytes of the network file.
ghost use Rattle.std.specs.Prelude.{◌<◌, ◌^◌};
ghost use Rattle.std.specs.Option.{IfSome};
ghost use Rattle.sq_slicer.specs.Answers.{slices_reply};

use crate::SlicesAsked;
use crate::lines::slices_text;
use sq_net::NetErr;
use sq_reader::read_network;
use sq_teller::{Ending, Inquiry};
use sq_value::Name;
use std::alloc::Global;

impl Inquiry for SlicesAsked {
    ghost file = { λ a. a.net };

    ghost reply = { slices_reply };

    ghost can_answer = { λ a. IfSome a.delay (λ d. d < 2 ^ 40) };

    fn file(&self) -> &Name {
        &self.net
    }

    fn answer(&self, alloc: Global, bytes: &[u8]) -> Result<(Vec<u8>, bool), Ending> {
        let n = match read_network(alloc, bytes) {
            Ok(n) => n,
            Err(NetErr::Memory) => return Err(Ending::Memory),
            Err(e) => return Err(Ending::BadNetwork(e)),
        };
        match slices_text(alloc, &n, self.delay) {
            Ok(said) => Ok(said),
            Err(_) => Err(Ending::Memory),
        }
    }
}
