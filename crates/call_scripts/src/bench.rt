// The bench: a device by value, a medium for it, and how much of that and of a reply buffer its calls are lent.
ghost use Rattle.std.specs.Prelude.{◌≡◌, None};
ghost use Rattle.device.specs.Device.{zero_device};
ghost use Rattle.call_scripts.specs.Bench.{kept, loan_of, called, after_call, Told};
ghost use Rattle.call_scripts.specs.Calls.{call_of};

use crate::calls::Call;
use crate::loans::Loan;
use device::{Device, Outcome};
use std::marker::Model;

/// A device whose state goes in by value, and what it is lent. A contract sees what is kept between two calls.
#[derive(Drop)]
pub(crate) struct Bench<'a> {
    pub(crate) device: Device,
    pub(crate) medium: &'a mut [u8],
    pub(crate) loan: Option<Loan>,
}

impl<'a> Model for Bench<'a> {
    ghost use Rattle.call_scripts.specs.Bench.{Kept, kept};

    ghost Value = { Kept };

    ghost view = { λ b. kept b.device b.medium.now b.loan };
}

impl<'a> Bench<'a> {
    /// A state of all zeros, this medium, and nothing said of what is lent.
    #[tactic(auto, using(device::proofs::Defaults::default_zeros))]
    pub(crate) fn new(medium: &'a mut [u8]) -> Bench<'a>
        ensures { result ≡ kept zero_device medium.old None }
    {
        Bench {
            device: Device::default(),
            medium,
            loan: None,
        }
    }

    // What was said, or else the medium that the capacity asks for and a reply buffer that no call turns down.
    pub(crate) fn loan(&self) -> Loan
        ensures { result ≡ loan_of self.now }
    {
        self.loan.unwrap_or(Loan {
            medium: self.device.settings.medium_size(),
            reply: Device::REPLY_SIZE,
        })
    }

    // A call with what the bench lends: of its medium no more than there is.
    pub(crate) fn make(&mut self, call: Call, reply: &mut [u8]) -> Outcome
        ensures told { Told (called self.old (call_of call.entry) reply.old) reply.old reply.new result }
        ensures bench { self.new ≡ after_call self.old (call_of call.entry) reply.old }
    {
        let front = self.loan().medium.min(self.medium.len());
        let outcome = call.make_with(self.device, self.medium, front, reply);
        self.device = outcome.state;
        outcome
    }
}
