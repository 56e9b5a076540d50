// The search for two events that clash.
ghost use Rattle.std.specs.Prelude.{◌≡◌};
ghost use Rattle.searches.specs.Clashes.{touching, sharing, unordered, clashing, partner_of, with_partner, first_clash, Searched};
ghost use Rattle.cpog.specs.Projections.{seen};

use cpog::action::{Action, action_of};
use cpog::projection::Projection;

// The clashing pair with the least lower and then the least higher event: two different present
// events that no chain orders, where the out register of one is a register of the other.
pub fn first_clash(projection: &Projection, actions: &[Action]) -> Option<(u8, u8)>
    ensures value { result ≡ first_clash (seen projection.now) actions.now }
    ensures law { Searched (seen projection.now) actions.now result }
{
    let steps = Steps {
        projection,
        actions,
    };
    steps.first_clash()
}

// The present events in their order, and what each of them does.
#[derive(Clone, Copy)]
struct Steps<'a> {
    projection: &'a Projection,
    actions: &'a [Action],
}

impl Steps<'_> {
    fn first_clash(&self) -> Option<(u8, u8)>
        ensures value { result ≡ first_clash (seen self.now.projection.now) self.now.actions.now }
        ensures law { Searched (seen self.now.projection.now) self.now.actions.now result }
    {
        (0..32).find_map(|lower| self.first_clash_of(lower))
    }

    // The event with the least higher one that clashes with it. An absent event clashes with none, so
    // the others are not asked.
    #[tactic(auto, using(crate::proofs::Clashing::absent_alone))]
    fn first_clash_of(&self, lower: u8) -> Option<(u8, u8)>
        ensures { result ≡ with_partner (seen self.now.projection.now) self.now.actions.now (Some lower) }
    {
        if !self.projection.is_present(lower) {
            return None;
        }
        let higher = self.partner(lower)?;
        Some((lower, higher))
    }

    // The least event above `lower` that clashes with it.
    fn partner(&self, lower: u8) -> Option<u8>
        ensures { result ≡ partner_of (seen self.now.projection.now) self.now.actions.now lower }
    {
        (0..32).find(|higher| lower < *higher && self.clash(lower, *higher))
    }

    #[tactic(auto, unfolding(crate::specs::Clashes::clashing))]
    fn clash(&self, first: u8, second: u8) -> bool
        ensures { result ≡ clashing (seen self.now.projection.now) self.now.actions.now first second }
    {
        self.is_unordered(first, second) && self.share(first, second)
    }

    fn is_unordered(&self, first: u8, second: u8) -> bool
        ensures { result ≡ unordered (seen self.now.projection.now) first second }
    {
        self.projection.is_present(first)
            && self.projection.is_present(second)
            && first != second
            && !self.projection.precedes(first, second)
            && !self.projection.precedes(second, first)
    }

    // Whether the out register of one of the two is a register of the other.
    fn share(&self, first: u8, second: u8) -> bool
        ensures { result ≡ sharing self.now.actions.now first second }
    {
        let one = action_of(self.actions, first);
        let other = action_of(self.actions, second);
        touches(one, other) || touches(other, one)
    }
}

fn touches(first: Action, second: Action) -> bool
    ensures { result ≡ touching first second }
{
    first.out == second.out || first.out == second.left || first.out == second.right
}
