// The statements that hold of all runs.
ghost use Rattle.history.specs.Edges.{EdgeCases};
ghost use Rattle.history.specs.Law.{Determined};

// What begin and the calls were given determines the viewer's service, the alert in force, what the set means and what is
// due to each call.
pub fn calls_determine_the_set_and_the_replies()
    ensures { Determined }
{}

// The definitions say what they should at the edges of the rules, all cases together.
pub fn edge_cases_stand()
    ensures { EdgeCases }
{}
