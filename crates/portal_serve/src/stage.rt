//! The devices of a script but its input, as one value: output, the clock and the nonces. A further device of the lines
//! is a further field here.
ghost use Rattle.std.specs.Prelude.{◌≡◌, ◌≤◌, OnOk, OnErr};
ghost use Rattle.portal_base.specs.Outside.{Draws, Rose, Takes, TakesPrefix};
ghost use Rattle.portal_serve.specs.Stage.{AreSameLoans};

use portal_base::moment::Moment;
use portal_base::nonce::Nonce;
use portal_base::outside::{Clock, Failed, Nonces, Sink};
use portal_lines::write::write_whole;

/// The devices of a script but its input, borrowed from their owner. Calls keep the loans, so that the owner finds the
/// devices as the calls left them.
#[derive(Drop)]
pub struct Stage<'o, 'c, 'n, O: Sink, C: Clock, N: Nonces> {
    pub output: &'o mut O,
    pub clock: &'c mut C,
    pub nonces: &'n mut N,
}

impl<O: Sink, C: Clock, N: Nonces> Stage<'_, '_, '_, O, C, N> {
    /// Draws the moment and the nonce of a call.
    pub fn draw(&mut self) -> (Moment, Nonce)
        ensures moment { Draws (C.given self.old.clock.now) result.0 (C.given self.new.clock.now) }
        ensures nonce { Draws (N.given self.old.nonces.now) result.1.0 (N.given self.new.nonces.now) }
        ensures output { self.new.output.now ≡ self.old.output.now }
        ensures loans { AreSameLoans self.old self.new }
    {
        let moment = self.clock.now();
        let nonce = self.nonces.next();
        (moment, nonce)
    }

    /// Writes all of the piece. After a fault output has taken some prefix of it.
    pub fn write(&mut self, piece: &[u8]) -> Result<(), Failed>
        ensures ok { OnOk result (Takes (O.taken self.old.output.now) piece.now (O.taken self.new.output.now)) }
        ensures failed { OnErr result (TakesPrefix (O.taken self.old.output.now) piece.now
            (O.taken self.new.output.now)) }
        ensures fault { OnErr result (Rose (O.faults self.old.output.now) (O.faults self.new.output.now)) }
        ensures counts { O.faults self.old.output.now ≤ O.faults self.new.output.now }
        ensures clock { self.new.clock.now ≡ self.old.clock.now }
        ensures nonces { self.new.nonces.now ≡ self.old.nonces.now }
        ensures loans { AreSameLoans self.old self.new }
    {
        write_whole(self.output, piece)
    }
}
