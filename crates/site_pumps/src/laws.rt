//! Laws of what outlets are given. The functions have no body of their own: their contracts are the laws.
ghost use Rattle.std.specs.Prelude.{◌≡◌, ◌⊎◌, ◌++◌, ℕ, List, true};
ghost use Rattle.site_links.specs.Links.{Sending};
ghost use Rattle.site_pumps.specs.BriefSenders.{BriefSending, IsSentBriefly};
ghost use Rattle.site_pumps.specs.Carried.{BeginsToCarry, Carries};
ghost use Rattle.site_pumps.specs.Outlets.{OutletBegins, OutletRun, SenderGiven};

/// The sender of a link that was given items in order has sent all of them, or a prefix of them if it is down; it has sent nothing if it
/// was down before. One that was given a prefix of items has sent a prefix of them.
pub fn a_sender_sends_what_it_is_given()
    ensures all { (items : List (List ℕ)) (old new : Sending)
        → OutletRun SenderGiven items old new → Carries items old new }
    ensures begun { (items : List (List ℕ)) (old new : Sending)
        → OutletBegins SenderGiven items old new → BeginsToCarry items old new }
{}

/// No item is lost without a whole due: a brief sender that was given items in order has sent all of them, or its receiver lacks items, or
/// its link is down.
pub fn no_item_is_dropped_without_a_lack()
    ensures { (items : List (List ℕ)) (old new : BriefSending)
        → OutletRun IsSentBriefly items old new
        → (new.link.sent ≡ old.link.sent ++ items)
        ⊎ ((new.lacks ≡ true) ⊎ (new.link.down ≡ true)) }
{}
