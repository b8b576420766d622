//! Laws of the status text and of answers. The functions have no body: their contracts are the laws.
ghost use Rattle.std.specs.Prelude.{◌≡◌};
ghost use Rattle.replica.specs.Site.{IsSameSite, SiteState};
ghost use Rattle.replica.specs.Standing.{StandsFor};
ghost use Rattle.replica.specs.Steps.{SiteKnowledge};
ghost use Rattle.status_report.specs.declared.asks.Answer.{Answer};
ghost use Rattle.status_report.specs.declared.asks.Ask.{Ask};
ghost use Rattle.status_report.specs.declared.request.StatusRequest.{StatusRequest};
ghost use Rattle.status_report.specs.Knowing.{IsAnswered, IsOneStep, SameStatusTexts, answer_in};
ghost use Rattle.status_report.specs.Knowing.{status_in};
ghost use Rattle.status_report.specs.Status.{report_of};

/// Consistent knowledges of the same operations have the same status texts, so a status doesn't depend on the order of operations
/// or their repetition (RR-7506: replicas that have delivered the same updates are equivalent).
pub fn knowledges_of_the_same_operations_have_the_same_status()
    ensures { SameStatusTexts }
{}

/// The report of a site is the status text of what the site stands for (Asterisk's QueueStatus).
pub fn a_report_is_the_status_text_of_what_its_site_stands_for()
    ensures { (state : SiteState) (s : SiteKnowledge) (request : StatusRequest)
        → StandsFor state s → report_of state request ≡ status_in s.known state.names request }
{}

/// Sites that say the same have the same report (RR-7506: replicas in equivalent states answer alike).
pub fn sites_that_say_the_same_have_the_same_report()
    ensures { (s t : SiteState) (request : StatusRequest) → IsSameSite s t
        → report_of s request ≡ report_of t request }
{}

/// Each answer of `ask` is one step of the site: the new state stands for what the site knows after its own answer; or for what it
/// knew, and the answer is the refusal `Memory` (this project's own).
pub fn an_ask_is_one_step_of_a_site()
    ensures { (old new : SiteState) (s : SiteKnowledge) (asked : Ask) (answer : Answer)
        → StandsFor old s
        → IsAnswered old new answer (answer_in old.site old.names s asked)
        → IsOneStep new answer s (answer_in old.site old.names s asked) }
{}
