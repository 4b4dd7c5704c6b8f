// Shares by class: the bandwidth that four priority charges give, in ten-thousandths rounded down.
//
// `shares_of` is the one entry. It takes any charges, as a Capabilities request brings them, and refuses none. What it gives is the formula
// of [MS-RDPEDYC] 2.2.1.1.2: a class's share goes with the reciprocal of its charge. A class with charge 0 is outside the formula and
// has share 0.
//
// The formula's fractions are put over one bottom: a class weighs the product of the other charges, and its share is its weight's part
// of all four weights. Three charges multiplied, ten thousand times, stay below 2^62.
#![tactic(auto)]

ghost use Rattle.std.specs.Prelude.{◌≡◌, ◌*◌, ◌≤◌, ◌<◌};
ghost use Rattle.charges.specs.Fractions.{over, floor};
ghost use Rattle.charges.specs.Formula.{WHOLE, shares_of};
ghost use Rattle.charges.specs.Weights.{CHARGE_MAX, WEIGHT_MAX, or_one, weight, part};

use reading::Charges;

// A share is in ten-thousandths.
const WHOLE: u64 = 10000;

// The four shares, in ten-thousandths. A field for a class, as the charges have them that the C interface hands in one by one.
#[derive(Clone, Copy)]
pub struct Shares {
    pub class0: u16,
    pub class1: u16,
    pub class2: u16,
    pub class3: u16,
}

// A charge in a product of charges: one of 0 is left out of it.
#[tactic(auto, using(std::proofs::lemmas::Bool::Decides::nat_tests), unfolding(crate::specs::Weights::or_one))]
fn or_one(charge: u16) -> u64
    ensures { (result ≡ or_one charge) × (result ≤ CHARGE_MAX) }
{
    if charge == 0 { 1 } else { u64::from(charge) }
}

// What a class weighs beside the others: the product of their charges, and nothing where its own is 0.
#[tactic(auto, using(std::proofs::lemmas::Bool::Decides::nat_tests, crate::proofs::Products::two_below, crate::proofs::Products::three_below), unfolding(crate::specs::Weights::weight))]
fn weigh(charge: u16, a: u64, b: u64, c: u64) -> u64
    requires { (a ≤ CHARGE_MAX) × (b ≤ CHARGE_MAX) × (c ≤ CHARGE_MAX) }
    ensures { (result ≡ weight charge a b c) × (result ≤ WEIGHT_MAX) }
{
    if charge == 0 { 0 } else { a * b * c }
}

// A fraction rounded down.
fn rounded(top: u64, bottom: u64) -> u64
    requires { (top ≤ WHOLE * WEIGHT_MAX) × ((0 < bottom) × (bottom ≤ 4 * WEIGHT_MAX)) }
    ensures { result ≡ floor (over top bottom) }
{
    top / bottom
}

// A weight's part of all weights, in ten-thousandths rounded down.
fn in_ten_thousand(weight: u64, all: u64) -> u16
    requires { (weight ≤ all) × ((weight ≤ WEIGHT_MAX) × (all ≤ 4 * WEIGHT_MAX)) }
    ensures { result ≡ part weight all }
{
    if all == 0 {
        0
    } else {
        rounded(WHOLE * weight, all) as u16
    }
}

// The four shares of four charges.
#[tactic(auto, using(crate::proofs::Formula::product_form), unfolding(crate::specs::Weights::weighed))]
pub fn shares_of(charges: Charges) -> Shares
    ensures { result ≡ shares_of charges }
{
    let a = or_one(charges.class0);
    let b = or_one(charges.class1);
    let c = or_one(charges.class2);
    let d = or_one(charges.class3);
    let w0 = weigh(charges.class0, b, c, d);
    let w1 = weigh(charges.class1, a, c, d);
    let w2 = weigh(charges.class2, a, b, d);
    let w3 = weigh(charges.class3, a, b, c);
    let all = w0 + w1 + w2 + w3;
    Shares {
        class0: in_ten_thousand(w0, all),
        class1: in_ten_thousand(w1, all),
        class2: in_ten_thousand(w2, all),
        class3: in_ten_thousand(w3, all),
    }
}
