//! The steps of a road map while they are sorted, by what each loses for its gain.
//!
//! The contract promises that they stand from the least loss for its gain to the greatest, and in their old order where
//! two are alike. Below stand the lists of `sq_words`.
#![tactic(auto)]

ghost use Rattle.std.specs.Prelude.{◌≡◌, OnOk};
ghost use Rattle.sq_words.specs.Lists.{sort_by};
ghost use Rattle.sq_offers.specs.Offers.{is_cheaper_offer};

mod offers;

pub use offers::Offer;
use std::alloc::AllocError;

/// Sorts steps by their loss for their gain, the least first.
pub fn sort_offers(offers: &mut Vec<Offer>) -> Result<(), AllocError>
    ensures { OnOk result (offers.new.items ≡ sort_by is_cheaper_offer offers.old.items) }
{
    offers.sort_by(|a, b| {
        (u128::from(a.loss) * u128::from(b.gain)).cmp(&(u128::from(b.loss) * u128::from(a.gain)))
    })
}
