//! The road map of drop plans, the levels that are chosen from it, and the draws that carry a level out.
//!
//! The contracts promise that the steps of a road stand from the least loss for their gain to the greatest, that
//! no plan that gains at least what a row saves loses less than the row, and that the row's ratio shows it; that a
//! level is what was set for its epoch and drop and never changes once its epoch is closed; and that a draw is a
//! word of a published generator. Below stand the sorting of steps of `sq_offers`, the fractions of `sq_qos` and the
//! lists of `sq_value`.
#![tactic(auto)]

ghost use Rattle.std.specs.Prelude.{◌≡◌, ◌*◌, ◌<◌, ◌≤◌, ◌^◌, ◌++◌, length, map, IfOk, OnOk};
ghost use Rattle.std.specs.List.{sum, sum_by, zip, enumerate_from, All};
ghost use Rattle.std.specs.List.Sorted.{IsNonDecreasing};
ghost use Rattle.sq_road.specs.Roads.{steps_of_drop, all_steps, IsRoadOf};
ghost use Rattle.sq_road.specs.Offers.{step_of};

mod draws;
mod levels;
mod rows;

pub use draws::draw;
pub use levels::Levels;
pub use rows::Road;
use sq_offers::{Offer, sort_offers};
use sq_qos::Frac;
use std::alloc::{AllocError, Global};

/// A step of a road: 50 permille more of a drop.
#[derive(Clone, Copy, PartialEq, Eq, Drop)]
pub struct Step {
    /// The drop, counted from 0.
    pub drop: u32,
    /// Which step of the drop it is, 1 to 20.
    pub k: u32,
    /// What it loses of the outputs below the drop, times `sq_qos::SCALE`.
    pub loss: u128,
    /// The load that it saves.
    pub gain: u128,
}

/// A row of a road: its first steps, as a plan of drops.
#[derive(Clone, Copy, PartialEq, Eq, Drop)]
pub struct Row {
    /// How many steps there are.
    pub taken: u32,
    /// The load that they save together.
    pub saved: u128,
    /// What they lose together, times `sq_qos::SCALE`.
    pub loss: u128,
    /// The loss for its gain of the last of them, or 0.
    pub ratio: Frac,
    /// Whether they save enough.
    pub fits: bool,
}

/// The road map of drops with these gains and losses (after the load shedding road map of Tatbul and others, VLDB
/// 2003): for each drop the load that one of its steps saves, and what each of its 20 steps loses.
/// A drop that gains nothing has no step.
pub fn road(alloc: Global, gains: &Vec<u128>, losses: &Vec<[u128; 20]>) -> Result<Road, AllocError>
    requires paired { length gains.now.items ≡ length losses.now.items }
    requires few { length gains.now.items ≤ 128 }
    requires gains { All (λ g. g < 2 ^ 64) gains.now.items }
    requires in_order { All (λ l. IsNonDecreasing l) losses.now.items }
    requires together { sum_by sum losses.now.items < 2 ^ 63 }
    ensures { IfOk result (λ r. IsRoadOf gains.now.items losses.now.items r) }
{
    let mut offers = offers_of(alloc, gains, losses)?;
    sort_offers(&mut offers)?;
    let steps = steps_from(alloc, &offers)?;
    Ok(Road::new(steps))
}

fn offers_of(
    alloc: Global,
    gains: &Vec<u128>,
    losses: &Vec<[u128; 20]>,
) -> Result<Vec<Offer>, AllocError>
    requires paired { length gains.now.items ≡ length losses.now.items }
    requires few { length gains.now.items ≤ 128 }
    requires gains { All (λ g. g < 2 ^ 64) gains.now.items }
    requires small { All (λ l. All (λ x. x < 2 ^ 63) l) losses.now.items }
    ensures steps { IfOk result (λ offers. map step_of offers.items ≡ all_steps (enumerate_from 0 (zip gains.now.items losses.now.items))) }
    ensures twenty { OnOk result (All (λ l. length l ≡ 20) losses.now.items) }
{
    let mut offers = Vec::new(alloc);
    for (w, steps) in losses.iter().enumerate() {
        push_offers(&mut offers, w as u32, gains[w] as u64, steps)?;
    }
    Ok(offers)
}

fn push_offers(
    offers: &mut Vec<Offer>,
    drop: u32,
    gain: u64,
    losses: &[u128; 20],
) -> Result<(), AllocError>
    requires { All (λ l. l < 2 ^ 63) losses.now }
    ensures steps { OnOk result (map step_of offers.new.items ≡ map step_of offers.old.items ++ steps_of_drop drop gain losses.now) }
    ensures twenty { length losses.now ≡ 20 }
{
    if gain == 0 {
        return Ok(());
    }
    let mut k = 0;
    for loss in losses {
        k += 1;
        offers.push(Offer {
            drop,
            k,
            loss: *loss as u64,
            gain,
        })?;
    }
    Ok(())
}

fn steps_from(alloc: Global, offers: &[Offer]) -> Result<Vec<Step>, AllocError>
    ensures { IfOk result (λ steps. steps.items ≡ map step_of offers.now) }
{
    offers
        .iter()
        .map(|o| Step {
            drop: o.drop,
            k: o.k,
            loss: u128::from(o.loss),
            gain: u128::from(o.gain),
        })
        .collect(alloc)
}
