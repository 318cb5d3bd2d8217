// The list of rules: how rules are put behind those that are there, and the rules (b), (c) and (d) and of a due time. Those that the jobs under way
// make stand in the crate part_jobwords.
ghost use Rattle.std.specs.Prelude.{◌≡◌, [], ◌∷◌, ◌++◌, ◌+◌, ◌*◌, ◌≤◌, length, get_or, option_to_list};
ghost use Rattle.spec_plain.specs.Limits.{most_points, most_steps};
ghost use Rattle.spec_plain.specs.Plain.{end_of, tray_gap, not_before, not_after, in_order, durations, due_rules};
ghost use Rattle.part_lines.specs.ArrayLists.{rules_of, rules_from, most_rules, no_rule};
ghost use Rattle.part_lines.specs.Asked.{Short, Room};

use spec_plain::{Rule, Settings, Step, Use, limits};

// A plan makes at most 1 rule by (b), two for each step by (c), two for each allocation by (d), 1 by (e) and 1 by its due time. Other calls make
// fewer.
pub const MOST_RULES: usize = 1 + 2 * limits::MOST_STEPS + 2 * limits::MOST_ALLOCATIONS + 2;

// What a place not in use holds.
const NO_RULE: Rule = Rule {
    early: 0,
    more: 0,
    late: 0,
    slack: 0,
};

// The rules that one call makes.
// Stays: with the kit's `ArrayVec<Rule, 83>`, for which `push` and `extend` prove too, 10 to 25 rules put into a list and read take 15 in 100 more
// instructions; and in the kit a generic struct of our own has no array of a type parameter.
#[derive(Clone, Copy, Debug, PartialEq, Eq)]
pub struct Rules {
    pub count: usize,
    pub rules: [Rule; MOST_RULES],
}

impl Rules {
    pub fn new() -> Rules
        ensures { result ≡ rules_from [] }
    {
        Rules {
            count: 0,
            rules: [NO_RULE; MOST_RULES],
        }
    }

    // The rules that there are.
    pub fn as_slice(&self) -> &[Rule]
        requires { self.now.count ≤ most_rules }
        ensures { result.now ≡ rules_of self.now }
    {
        &self.rules[..self.count]
    }

    // One more rule.
    // Stays: how many more rules fit is another number at each call, so that `Room` is asked there and is no fact of the type.
    #[tactic(auto, using(crate::proofs::RuleLaws::pushed))]
    pub fn push(&mut self, rule: Rule)
        requires { Room 1 self.old }
        ensures { self.new ≡ rules_from (rules_of self.old ++ (rule ∷ [])) }
    {
        self.rules[self.count] = rule;
        self.count += 1;
    }

    // One more rule, where there is one.
    pub fn extend(&mut self, rule: Option<Rule>)
        requires { Room 1 self.old }
        ensures { self.new ≡ rules_from (rules_of self.old ++ option_to_list rule) }
    {
        if let Some(rule) = rule {
            self.push(rule);
        }
    }

    // The rules (c) of an offer's steps, of which the first runs from the point x.
    pub fn add_durations(&mut self, x: u32, steps: &[Step])
        requires { Room (2 * most_steps) self.old × (x ≤ most_points) × (length steps.now ≤ most_steps) }
        ensures { self.new ≡ rules_from (rules_of self.old ++ durations x steps.now) }
    {
        for (k, step) in steps.iter().enumerate() {
            let from = x + k as u32;
            self.push(least_rule(from, *step));
            self.push(most_rule(from, *step));
        }
    }
}

// The point x is at `time` or later.
#[tactic(auto, unfolding(spec_plain::specs::Plain::not_before))]
pub fn not_before(x: u32, time: u32) -> Rule
    ensures { result ≡ not_before x time }
{
    Rule {
        early: 0,
        more: time,
        late: x,
        slack: 0,
    }
}

// The point x is at `time` or earlier.
#[tactic(auto, unfolding(spec_plain::specs::Plain::not_after))]
pub fn not_after(x: u32, time: u32) -> Rule
    ensures { result ≡ not_after x time }
{
    Rule {
        early: x,
        more: 0,
        late: 0,
        slack: time,
    }
}

// The rule of a due time, if there is one: the job's last point is no later.
#[tactic(auto, unfolding(spec_plain::specs::Plain::due_rules))]
pub fn due_rule(due: u32, last: u32) -> Option<Rule>
    ensures { option_to_list result ≡ due_rules due last }
{
    if due == 0 {
        return None;
    }
    Some(not_after(last, due))
}

// How long after its point a use ends.
pub fn end_of(s: Settings, u: Use) -> u32
    requires { Short u }
    ensures { result ≡ end_of s u }
{
    u.offset + u.length
}

// How long after a job's last point the tray is free.
pub fn tray_gap(s: Settings) -> u32
    ensures { result ≡ tray_gap s }
{
    0
}

// The use a ends no later than the use b starts.
#[tactic(auto, unfolding(spec_plain::specs::Plain::in_order))]
pub fn in_order(s: Settings, a: Use, b: Use) -> Rule
    requires { Short a }
    ensures { result ≡ in_order s a b }
{
    Rule {
        early: a.point,
        more: end_of(s, a),
        late: b.point,
        slack: b.offset,
    }
}

// The rules (c) of a step that runs from the point x: it lasts at least its shortest duration ..
#[tactic(auto, unfolding(spec_plain::specs::Plain::durations))]
fn least_rule(x: u32, step: Step) -> Rule
    requires { x ≤ most_points + most_steps }
    ensures { result ≡ get_or (durations x (step ∷ [])) 0 no_rule }
{
    Rule {
        early: x,
        more: step.shortest,
        late: x + 1,
        slack: 0,
    }
}

// .. and at most its longest.
#[tactic(auto, unfolding(spec_plain::specs::Plain::durations))]
fn most_rule(x: u32, step: Step) -> Rule
    requires { x ≤ most_points + most_steps }
    ensures { result ≡ get_or (durations x (step ∷ [])) 1 no_rule }
{
    Rule {
        early: x + 1,
        more: 0,
        late: x,
        slack: step.longest,
    }
}
