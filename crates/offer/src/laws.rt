//! A law of offers. The function has no body: its contract is the law.
ghost use Rattle.std.specs.Prelude.{List};
ghost use Rattle.offer.specs.declared.offered.Offer.{Offer};
ghost use Rattle.offer.specs.Offers.{HaveOneFirst, IsFirstOf, first_of};

/// Offers that aren't empty have exactly one first: no other has a lesser penalty, or the same penalty and an interface of
/// lesser bytes.
pub fn offers_have_one_first()
    ensures first { (offers : List Offer) → IsFirstOf offers (first_of offers) }
    ensures one { (offers : List Offer) → HaveOneFirst offers }
{}
